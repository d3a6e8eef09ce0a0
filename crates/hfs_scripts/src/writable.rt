//! Which lines have a text.
ghost use Rattle.std.specs.Prelude.{◌≡◌};
ghost use Rattle.hfs_scripts.specs.Texts.{word_for, is_field, has_fields, is_made_at, is_caller, is_writable};

use crate::lines::{Caller, ScriptLine, may_ask};
use crate::words::Word;
use hfs_model::Call;

/// The most bytes that a line writes into a fork.
const MOST_WRITTEN: usize = 65_536;

/// The word that asks for a call.
pub(crate) fn word_for(call: &Call) -> Word
    ensures { result ≡ word_for call.now }
{
    match call {
        Call::GetDirInfo { .. } => Word::DirInfo,
        Call::GetCatInfo { .. } => Word::Info,
        Call::GetIndexed { .. } => Word::Indexed,
        Call::List { .. } => Word::List,
        Call::ReadFork { .. } => Word::Read,
        Call::Create { .. } => Word::Create,
        Call::DirCreate { .. } => Word::MkDir,
        Call::Delete { .. } => Word::Delete,
        Call::Rename { .. } => Word::Rename,
        Call::CatMove { .. } => Word::Move,
        Call::SetFInfo { .. } => Word::SetFInfo,
        Call::SetCatInfo { .. } => Word::SetInfo,
        Call::SetFLock { .. } => Word::Lock,
        Call::RstFLock { .. } => Word::Unlock,
        Call::CreateFileId { .. } => Word::NewId,
        Call::DeleteFileId { .. } => Word::DropId,
        Call::ResolveFileId { .. } => Word::Resolve,
        Call::SetEof { .. } => Word::SetEof,
        Call::WriteFork { .. } => Word::Write,
    }
}

#[tactic(auto, unfolding(crate::specs::Texts::is_field))]
fn is_field(name: &[u8]) -> bool
    ensures { result ≡ is_field name.now }
{
    name.iter().all(|byte| *byte != b'\t' && *byte != b'\n')
}

/// Whether no name of the call has a tab or a line feed, and it writes no more than 65,536 bytes.
fn has_fields(call: &Call) -> bool
    ensures { result ≡ has_fields call.now }
{
    match call {
        Call::GetDirInfo { .. } => true,
        Call::GetCatInfo { name, .. } => is_field(name.as_slice()),
        Call::GetIndexed { .. } => true,
        Call::List { .. } => true,
        Call::ReadFork { name, .. } => is_field(name.as_slice()),
        Call::Create { name, .. } => is_field(name.as_slice()),
        Call::DirCreate { name, .. } => is_field(name.as_slice()),
        Call::Delete { name, .. } => is_field(name.as_slice()),
        Call::Rename { name, new_name, .. } => {
            is_field(name.as_slice()) && is_field(new_name.as_slice())
        }
        Call::CatMove { name, .. } => is_field(name.as_slice()),
        Call::SetFInfo { name, .. } => is_field(name.as_slice()),
        Call::SetCatInfo { name, .. } => is_field(name.as_slice()),
        Call::SetFLock { name, .. } => is_field(name.as_slice()),
        Call::RstFLock { name, .. } => is_field(name.as_slice()),
        Call::CreateFileId { name, .. } => is_field(name.as_slice()),
        Call::DeleteFileId { .. } => true,
        Call::ResolveFileId { .. } => true,
        Call::SetEof { name, .. } => is_field(name.as_slice()),
        Call::WriteFork { name, bytes, .. } => {
            is_field(name.as_slice()) && bytes.as_slice().len() <= MOST_WRITTEN
        }
    }
}

/// Whether a call that changes the volume is made at that moment.
fn is_made_at(moment: u32, call: &Call) -> bool
    ensures { result ≡ is_made_at moment call.now }
{
    match call {
        Call::GetDirInfo { .. } => true,
        Call::GetCatInfo { .. } => true,
        Call::GetIndexed { .. } => true,
        Call::List { .. } => true,
        Call::ReadFork { .. } => true,
        Call::Create { now, .. } => *now == moment,
        Call::DirCreate { now, .. } => *now == moment,
        Call::Delete { now, .. } => *now == moment,
        Call::Rename { now, .. } => *now == moment,
        Call::CatMove { now, .. } => *now == moment,
        Call::SetFInfo { now, .. } => *now == moment,
        Call::SetCatInfo { now, .. } => *now == moment,
        Call::SetFLock { now, .. } => *now == moment,
        Call::RstFLock { now, .. } => *now == moment,
        Call::CreateFileId { now, .. } => *now == moment,
        Call::DeleteFileId { now, .. } => *now == moment,
        Call::ResolveFileId { .. } => true,
        Call::SetEof { now, .. } => *now == moment,
        Call::WriteFork { now, .. } => *now == moment,
    }
}

fn is_caller(caller: Caller) -> bool
    ensures { result ≡ is_caller caller }
{
    match caller {
        Caller::Worker(number) => 1 <= number && number <= 8,
        Caller::Viewer(number) => 1 <= number && number <= 8,
    }
}

/// Whether a line has a text that is read back as this line, if the reader is given the moment `now`.
#[tactic(auto, unfolding(crate::specs::Texts::is_writable))]
pub(crate) fn is_writable(now: u32, line: &ScriptLine) -> bool
    ensures { result ≡ is_writable now line.now }
{
    is_caller(line.caller)
        && may_ask(line.caller, word_for(&line.call))
        && has_fields(&line.call)
        && is_made_at(now, &line.call)
}
