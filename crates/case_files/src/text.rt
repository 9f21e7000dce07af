//! The source that a case says.

use std::alloc::{AllocError, Global};

/// The value of decimal digits.
fn number(digits: &[u8]) -> usize {
    let mut value: usize = 0;
    for digit in digits {
        value = value
            .saturating_mul(10)
            .saturating_add(usize::from(digit.saturating_sub(b'0')));
    }
    value
}

/// Puts text behind a source, with line feeds for its backquotes and a number for each `#`.
fn push(src: &mut Vec<u8>, text: &[u8], turn: &[u8]) -> Result<(), AllocError> {
    for b in text {
        match *b {
            b'`' => src.push(b'\n')?,
            b'#' => src.extend_from_slice(turn)?,
            other => src.push(other)?,
        }
    }
    Ok(())
}

/// Puts a part behind a source, so many times.
fn repeat(alloc: Global, src: &mut Vec<u8>, part: &[u8], times: usize) -> Result<(), AllocError> {
    for turn in 0..times {
        let turn = format!(in alloc; "{turn}")?;
        push(src, part, turn.as_bytes())?;
    }
    Ok(())
}

/// The source that a part of a line of the file of cases says.
pub fn source(alloc: Global, text: &[u8]) -> Result<Vec<u8>, AllocError> {
    let mut src = Vec::new(alloc);
    let mut fields = text.split(|b| *b == b'@');
    let first = fields.next().unwrap_or(&[]);
    let Some(front) = fields.next() else {
        push(&mut src, first, b"#")?;
        return Ok(src);
    };
    push(&mut src, front, b"#")?;
    repeat(alloc, &mut src, fields.next().unwrap_or(&[]), number(first))?;
    push(&mut src, fields.next().unwrap_or(&[]), b"#")?;
    Ok(src)
}
