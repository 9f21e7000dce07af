//! The file that a program is asked to read.

use anyhow::{Result, bail};
use std::{env, fs};

/// The bytes of the file that the only argument names.
pub fn asked(rt: &HostRuntime) -> Result<Vec<u8>> {
    match env::args(rt)?.nth(1) {
        Some(path) => Ok(fs::read(rt, path.as_str())?),
        None => bail!("no file of cases is named"),
    }
}
