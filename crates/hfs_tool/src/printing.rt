//! Answers that several words print.

use hfs_check::MountFault;
use hfs_commands::{Fault, Status, code_text, refused_text};
use hfs_console::{print_lines, tell_hint};
use hfs_model::Reply;
use std::alloc::AllocError;

/// Prints lines, if there was memory for them, and returns their exit status.
pub fn print_told(
    rt: &HostRuntime,
    told: Result<(u8, String), AllocError>,
) -> Result<u8, Fault<'static>> {
    let Ok((status, lines)) = told else {
        return Err(Fault::NoMemory);
    };
    print_lines(rt, lines.as_str())?;
    Ok(status)
}

/// Prints the code of a call that was refused.
pub fn print_code(rt: &HostRuntime, reply: &Reply) -> Result<u8, Fault<'static>> {
    let Ok(line) = code_text(rt.alloc(), reply) else {
        return Err(Fault::NoMemory);
    };
    print_lines(rt, line.as_str())?;
    Ok(Status::CallRefused.number())
}

/// Prints why an image is refused, and what that means.
pub fn print_refused<'a>(rt: &HostRuntime, why: MountFault) -> Result<u8, Fault<'a>> {
    let status = print_told(rt, refused_text(rt.alloc(), why))?;
    tell_hint(rt, why);
    Ok(status)
}
