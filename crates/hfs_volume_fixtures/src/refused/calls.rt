//! Calls from text.
use anyhow::{Result, bail};
use hfs_model::Call;
use hfs_scripts::{ScriptFault, read_script};
use std::alloc::Global;

/// The call in a script's line, without its worker, at the moment 7.
pub fn call_of(alloc: Global, text: &[u8]) -> Result<Call> {
    let mut line = Vec::from_slice(alloc, b"1\t")?;
    line.extend_from_slice(text)?;
    let script = match read_script(alloc, &line, 7) {
        Ok(script) => script,
        Err(ScriptFault::Memory) => bail!("out of memory"),
        Err(ScriptFault::TooLarge | ScriptFault::Line(_)) => bail!("no call"),
    };
    match script.into_lines().pop() {
        Some(line) => Ok(line.call),
        None => bail!("no call"),
    }
}
