//! The source of a case.

use std::alloc::{AllocError, Global};

/// The value of decimal digits.
fn number(digits: &[u8]) -> usize {
    let mut value: usize = 0;
    for digit in digits {
        value = value
            .saturating_mul(10)
            .saturating_add(usize::from(digit.saturating_sub(b'0')));
    }
    value
}

/// Puts a part behind a source, so many times.
fn push(src: &mut Vec<u8>, part: &[u8], times: usize) -> Result<(), AllocError> {
    for _time in 0..times {
        src.extend_from_slice(part)?;
    }
    Ok(())
}

/// A source with line feeds for its backquotes.
fn with_line_feeds(alloc: Global, text: &[u8]) -> Result<Vec<u8>, AllocError> {
    let mut src = Vec::new(alloc);
    for b in text {
        src.push(if *b == b'`' { b'\n' } else { *b })?;
    }
    Ok(src)
}

/// The source that a line of the file of cases says.
pub fn source(alloc: Global, line: &[u8]) -> Result<Vec<u8>, AllocError> {
    let mut fields = line.split(|b| *b == b'@');
    let first = fields.next().unwrap_or(&[]);
    let Some(front) = fields.next() else {
        return with_line_feeds(alloc, first);
    };
    let times = number(first);
    let mut src = Vec::from_slice(alloc, front)?;
    push(&mut src, fields.next().unwrap_or(&[]), times)?;
    src.extend_from_slice(fields.next().unwrap_or(&[]))?;
    push(&mut src, fields.next().unwrap_or(&[]), times)?;
    src.extend_from_slice(fields.next().unwrap_or(&[]))?;
    Ok(src)
}
