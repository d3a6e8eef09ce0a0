//! The bytes of forks, read from the files of a host that have them.
ghost use Rattle.std.specs.Prelude.{◌≡◌, ◌+◌, ◌≤◌, OnOk, Some, drop, length};
ghost use Rattle.hfs_source.specs.Images.{HasAt};
ghost use Rattle.hfs_put_sources.specs.Forks.{fork_bytes, span_bytes};
ghost use Rattle.hfs_put_sources.specs.Trees.{OfEachTree};
ghost use Rattle.hfs_put.specs.Laid.{filled, run_bytes};

use crate::files::PlacedFiles;
use crate::piece::least;
use hfs_put_sources::{ForkRun, ForkSpan, HostFault, SourceItem, cannot_read};
use std::alloc::Global;

/// Reads bytes of a span of a file, from its byte `offset + from` on, with zeros past its end.
fn read_span<H: PlacedFiles>(
    alloc: Global,
    files: &mut H,
    path: &str,
    span: ForkSpan,
    offset: u64,
    from: u64,
    into: &mut [u8],
) -> Result<(), HostFault>
    ensures read { OnOk result (OfEachTree (H.Holds files.new)
        (λ host. into.new ≡ filled (length into.old) (drop (offset + from) (span_bytes host (Some path.now) span)))) }
    ensures held { OfEachTree (H.Holds files.new) (H.Holds files.old) }
{
    let count = least(
        into.len(),
        span.len.saturating_sub(offset).saturating_sub(from),
    );
    into[count..].fill(0);
    if count == 0 {
        return Ok(());
    }
    let Some(place) = span.start.checked_add(offset + from) else {
        return Err(cannot_read(alloc, path));
    };
    files.read_at(alloc, path, place, &mut into[..count])
}

/// Reads bytes of an item's fork in a run, from a byte of the run on, with zeros past the fork's end.
fn read_fork<H: PlacedFiles>(
    alloc: Global,
    files: &mut H,
    item: &SourceItem,
    run: &ForkRun,
    from: u64,
    into: &mut [u8],
) -> Result<(), HostFault>
    ensures read { OnOk result (OfEachTree (H.Holds files.new)
        (λ host. into.new ≡ filled (length into.old)
        (drop (run.now.offset + from) (fork_bytes host item.now run.now.fork)))) }
    ensures held { OfEachTree (H.Holds files.new) (H.Holds files.old) }
{
    match item.fork_path(run.fork) {
        Some(path) => {
            let span = item.fork_span(run.fork);
            read_span(alloc, files, path, span, run.offset, from, into)
        }
        None => {
            into.fill(0);
            Ok(())
        }
    }
}

/// Reads what is to be in a run, from a byte of the run on. Faults: as for [`PlacedFiles::read_at`].
pub(crate) fn read_run<H: PlacedFiles>(
    alloc: Global,
    files: &mut H,
    items: &[SourceItem],
    run: &ForkRun,
    from: u64,
    into: &mut [u8],
) -> Result<(), HostFault>
    requires { from + length into.old ≤ run.now.len }
    ensures read { OnOk result (OfEachTree (H.Holds files.new)
        (λ host. HasAt from into.new (run_bytes host items.now run.now))) }
    ensures held { OfEachTree (H.Holds files.new) (H.Holds files.old) }
{
    match items.get(run.item) {
        Some(item) => read_fork(alloc, files, item, run, from, into),
        None => {
            into.fill(0);
            Ok(())
        }
    }
}
