//! The items that the lines of a script name.
ghost use Rattle.std.specs.Prelude.{◌≡◌, None, Some, MatchOption};
ghost use Rattle.hfs_model.specs.Named.{named_by};
ghost use Rattle.hfs_runs.specs.Naming.{read_forks, uses_fork};

use hfs_model::Call;
use hfs_scripts::ScriptLine;

/// The folder and the name with which a call names an item, if it names one in this way.
pub(crate) fn named_by(call: &Call) -> Option<(u32, &[u8])>
    ensures { MatchOption result (named_by call.now ≡ None)
        (λ place. named_by call.now ≡ Some (place.0, place.1.now)) }
{
    match call {
        Call::GetDirInfo { .. } | Call::GetIndexed { .. } | Call::List { .. } => None,
        Call::DeleteFileId { .. } | Call::ResolveFileId { .. } => None,
        Call::GetCatInfo { dir, name } => Some((*dir, name.as_slice())),
        Call::ReadFork { dir, name, .. } => Some((*dir, name.as_slice())),
        Call::Create { dir, name, .. } => Some((*dir, name.as_slice())),
        Call::DirCreate { dir, name, .. } => Some((*dir, name.as_slice())),
        Call::Delete { dir, name, .. } => Some((*dir, name.as_slice())),
        Call::Rename { dir, name, .. } => Some((*dir, name.as_slice())),
        Call::CatMove { dir, name, .. } => Some((*dir, name.as_slice())),
        Call::SetFInfo { dir, name, .. } => Some((*dir, name.as_slice())),
        Call::SetCatInfo { dir, name, .. } => Some((*dir, name.as_slice())),
        Call::SetFLock { dir, name, .. } => Some((*dir, name.as_slice())),
        Call::RstFLock { dir, name, .. } => Some((*dir, name.as_slice())),
        Call::CreateFileId { dir, name, .. } => Some((*dir, name.as_slice())),
        Call::SetEof { dir, name, .. } => Some((*dir, name.as_slice())),
        Call::WriteFork { dir, name, .. } => Some((*dir, name.as_slice())),
    }
}

/// Whether a call reads or writes a fork.
fn uses_fork(call: &Call) -> bool
    ensures { result ≡ uses_fork call.now }
{
    match call {
        Call::ReadFork { .. } | Call::SetEof { .. } | Call::WriteFork { .. } => true,
        Call::GetDirInfo { .. } | Call::GetCatInfo { .. } | Call::GetIndexed { .. } => false,
        Call::List { .. } | Call::Create { .. } | Call::DirCreate { .. } => false,
        Call::Delete { .. } | Call::Rename { .. } | Call::CatMove { .. } => false,
        Call::SetFInfo { .. } | Call::SetCatInfo { .. } | Call::SetFLock { .. } => false,
        Call::RstFLock { .. } | Call::CreateFileId { .. } => false,
        Call::DeleteFileId { .. } | Call::ResolveFileId { .. } => false,
    }
}

/// Whether one of these lines reads or writes a fork, so that forks are read for them.
pub(crate) fn read_forks(lines: &[ScriptLine]) -> bool
    ensures { result ≡ read_forks lines.now }
{
    lines.iter().any(|line| uses_fork(&line.call))
}
