//! Volumes that are shared, and closed.
ghost use Rattle.std.specs.Prelude.{◌≡◌, ◌<◌, ◌≤◌, All, IfOk};

use anyhow::{Result, bail};
use hfs_fixtures::new_image;
use hfs_shared::{Closed, Parts, Pass, Session, Shared, StartFault, Viewer};
use hfs_volume::Volume;
use hfs_volume_fixtures::refused::mounted;
use std::alloc::Global;
use std::sync::Wait;

/// A new volume, whose catalog has room for some fifty files.
fn new_volume(alloc: Global) -> Result<Volume> {
    mounted(alloc, new_image(alloc, 24)?)
}

/// A volume that is about to be shared by this many workers and one viewer.
fn started_once(
    rt: &impl Wait,
    alloc: Global,
    volume: Volume,
    workers: u32,
) -> Result<(Parts, Vec<Pass>, Vec<Viewer>), StartFault>
    requires { (0 < workers) × (workers ≤ 8) }
    ensures { IfOk result (λ r. All (λ k. k.book ≡ r.0.book) r.2.items) }
{
    match Parts::start(rt, alloc, volume, workers, 1) {
        Ok(started) => Ok(started),
        Err(fault) => Err(fault),
    }
}

/// The same. If memory or a place is refused, it is tried once more.
fn started(
    rt: &impl Wait,
    alloc: Global,
    volume: Volume,
    workers: u32,
) -> Result<(Parts, Vec<Pass>, Vec<Viewer>), StartFault>
    requires { (0 < workers) × (workers ≤ 8) }
    ensures { IfOk result (λ r. All (λ k. k.book ≡ r.0.book) r.2.items) }
{
    match started_once(rt, alloc, volume, workers) {
        Ok(started) => Ok(started),
        Err(fault) => started_once(rt, alloc, fault.volume, workers),
    }
}

/// The same, with only the viewer.
fn begun(
    rt: &impl Wait,
    alloc: Global,
    volume: Volume,
    workers: u32,
) -> Result<(Parts, Vec<Pass>, Viewer)>
    requires { (0 < workers) × (workers ≤ 8) }
    ensures { IfOk result (λ r. r.2.book ≡ r.0.book) }
{
    let Ok((parts, passes, mut viewers)) = started(rt, alloc, volume, workers) else {
        bail!("not shared");
    };
    match viewers.pop() {
        Some(viewer) => Ok((parts, passes, viewer)),
        None => bail!("no viewer"),
    }
}

/// The same for a new volume.
pub fn begun_on_new(
    rt: &impl Wait,
    alloc: Global,
    workers: u32,
) -> Result<(Parts, Vec<Pass>, Viewer)>
    requires { (0 < workers) × (workers ≤ 8) }
    ensures { IfOk result (λ r. r.2.book ≡ r.0.book) }
{
    begun(rt, alloc, new_volume(alloc)?, workers)
}

/// What closing returns. None if the passes are refused.
pub fn closed<K: Session>(
    rt: &impl Wait,
    shared: Shared<K>,
    passes: Vec<Pass>,
    viewer: &mut Viewer,
) -> Option<Closed>
    requires { viewer.old.book ≡ K.book }
{
    shared.close(rt, passes, viewer).ok()
}
