//! The printed result of a case, line by line.

use crate::case::Ending;
use anyhow::Result;
use std::alloc::Global;

/// Prints the name, the status and both streams.
pub fn ending(rt: &impl Print, alloc: Global, name: &str, ended: &Ending) -> Result<()> {
    println!(rt; "case {name}: status {}", ended.status.number())?;
    stream(rt, alloc, "out", ended.out.bytes())?;
    stream(rt, alloc, "err", ended.err.bytes())
}

// Prints each line after the stream's name and a bar; a last line without a line end after `>`.
fn stream(rt: &impl Print, alloc: Global, name: &str, bytes: &[u8]) -> Result<()> {
    let text = String::from_utf8_lossy(alloc, bytes)?;
    for line in text.as_str().split_inclusive("\n") {
        match line.strip_suffix("\n") {
            Some(whole) => println!(rt; "{name}|{whole}")?,
            None => println!(rt; "{name}>{line}")?,
        }
    }
    Ok(())
}
