//! The text of scripts, a line for each call.
use hfs_model::{Call, SharedBytes};
use hfs_scripts::{Caller, ScriptLine, TextFault, read_script, script_text};
use std::alloc::{AllocError, Global};
use std::test::Fail;

/// Whether a script can be read, and its lines have this text.
fn has_text(alloc: Global, script: &[u8], text: &[u8]) -> bool {
    match read_script(alloc, script, 0) {
        Ok(script) => is_text_of(alloc, script.lines(), text),
        Err(_) => false,
    }
}

/// Whether lines have this text.
fn is_text_of(alloc: Global, lines: &[ScriptLine], text: &[u8]) -> bool {
    match script_text(alloc, lines, 0) {
        Ok(written) => written.as_slice() == text,
        Err(_) => false,
    }
}

/// Scripts and their texts: numbers and digits in another form, names of any bytes, and every word.
const TEXTS: [(&'static [u8], &'static [u8]); 9] = [
    (b"", b""),
    (b"01\tlist\t0000000002", b"1\tlist\t2\n"),
    (
        b"v8\tread\t2\ta\tres\t00\t010",
        b"v8\tread\t2\ta\tres\t0\t10\n",
    ),
    (b"1\tmove\t2\ta b\t3\n", b"1\tmove\t2\ta b\t3\n"),
    (b"1\trename\t2\t\t\xffb\n", b"1\trename\t2\t\t\xffb\n"),
    (
        b"2\tsetfinfo\t2\ta\t54455854747478740100AbCdEf000000",
        b"2\tsetfinfo\t2\ta\t54455854747478740100abcdef000000\n",
    ),
    (
        b"1\tdirinfo\t2\n1\tinfo\t2\ta\n1\tindexed\t2\t1\n1\tread\t2\ta\tdata\t0\t1\n1\tcreate\t2\ta\n1\tmkdir\t2\ta\n1\tdelete\t2\ta\n",
        b"1\tdirinfo\t2\n1\tinfo\t2\ta\n1\tindexed\t2\t1\n1\tread\t2\ta\tdata\t0\t1\n1\tcreate\t2\ta\n1\tmkdir\t2\ta\n1\tdelete\t2\ta\n",
    ),
    (
        b"1\tlock\t2\ta\n1\tunlock\t2\ta\n1\tnewid\t2\ta\n1\tdropid\t4294967295\n1\tresolve\t16\n",
        b"1\tlock\t2\ta\n1\tunlock\t2\ta\n1\tnewid\t2\ta\n1\tdropid\t4294967295\n1\tresolve\t16\n",
    ),
    (
        b"1\tsetinfo\t2\ta\t1\t2\t3\t000102030405060708090a0b0c0d0e0f000102030405060708090a0b0c0d0e0f\n",
        b"1\tsetinfo\t2\ta\t1\t2\t3\t000102030405060708090a0b0c0d0e0f000102030405060708090a0b0c0d0e0f\n",
    ),
];

#[test]
fn scripts_have_their_text(rt: HostRuntime) {
    for (script, text) in TEXTS {
        assert!(rt; has_text(rt.alloc(), script, text), "{}", script.len());
    }
}

/// Two lines: one that has a text, and one with this caller and call.
fn two_lines(alloc: Global, caller: Caller, call: Call) -> Result<Vec<ScriptLine>, AllocError> {
    let mut lines = Vec::new(alloc);
    lines.push(ScriptLine {
        caller: Caller::Worker(1),
        call: Call::List { dir: 2 },
    })?;
    lines.push(ScriptLine { caller, call })?;
    Ok(lines)
}

/// Whether a line has no text when it follows one that has.
fn is_unwritable(alloc: Global, caller: Caller, call: Call) -> Result<bool, AllocError> {
    let lines = two_lines(alloc, caller, call)?;
    match script_text(alloc, &lines, 5) {
        Ok(_) => Ok(false),
        Err(fault) => Ok(fault == TextFault::Unwritable(2)),
    }
}

/// Whether a line that creates a file of this name at the moment `now` has no text.
fn is_creation_unwritable(
    alloc: Global,
    caller: Caller,
    name: &[u8],
    now: u32,
) -> Result<bool, AllocError> {
    let name = SharedBytes::from_slice(alloc, name)?;
    is_unwritable(alloc, caller, Call::Create { dir: 2, name, now })
}

#[test]
fn lines_without_a_text(rt: HostRuntime) -> Result<(), Fail> {
    for (caller, name, now) in [
        (Caller::Worker(1), &b"a\tb"[..], 5u32),
        (Caller::Worker(1), b"a\n", 5),
        (Caller::Worker(1), b"a", 4),
        (Caller::Worker(0), b"a", 5),
        (Caller::Worker(9), b"a", 5),
        (Caller::Viewer(1), b"a", 5),
    ] {
        let is_so = is_creation_unwritable(rt.alloc(), caller, name, now)?;
        assert!(rt; is_so, "{caller:?} at {now}");
    }
    let resolve = Call::ResolveFileId { id: 2 };
    assert!(rt; is_unwritable(rt.alloc(), Caller::Viewer(1), resolve)?);
    assert!(rt; is_unwritable(rt.alloc(), Caller::Viewer(9), Call::List { dir: 2 })?);
    Ok(())
}
