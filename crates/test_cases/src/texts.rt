//! Texts of files, compared with answers.

use anyhow::{Result, ensure};
use std::fs;
use std::rt::Files;

/// Reads the file with this name and ending.
pub(crate) fn read_part<R: Files + AllocGlobal>(
    rt: &R,
    name: &str,
    ending: &str,
) -> Result<String> {
    Ok(fs::read_to_string(rt, &format!(in rt.alloc(); "{name}{ending}")?)?)
}

/// Fails with the whole answer unless it was foretold.
pub(crate) fn compare(answered: &str, foretold: &str) -> Result<()> {
    ensure!(answered == foretold, "the answer is\n{answered}");
    Ok(())
}
