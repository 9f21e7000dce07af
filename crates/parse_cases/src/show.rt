//! Trees as text: a list of a tree's parts in parentheses, behind the line of its first token.

mod expression;
mod statement;

use std::alloc::{AllocError, Global};

/// How many trees may stand in one another.
const DEEPEST: usize = 1000;

/// What was printed so far.
#[derive(Drop)]
pub struct Printer {
    alloc: Global,
    pub text: String,
}

impl Printer {
    pub fn new(alloc: Global) -> Printer {
        Printer {
            alloc,
            text: String::new(alloc),
        }
    }

    fn word(&mut self, word: &str) -> Result<(), AllocError> {
        self.text.push_str(word)
    }

    /// A line, and what follows it.
    fn line(&mut self, line: u32, mark: &str) -> Result<(), AllocError> {
        let line = format!(in self.alloc; "{line}{mark}")?;
        self.text.push_str(line.as_str())
    }

    fn bytes(&mut self, bytes: &[u8]) -> Result<(), AllocError> {
        for b in bytes {
            self.text.push(char::from(*b))?;
        }
        Ok(())
    }
}
