//! A file with the forks of a host's files laid into it.
ghost use Rattle.std.specs.Prelude.{◌≡◌, ◌+◌, false, IfNone, IfSome, IsTrue, None, nat_le};
ghost use Rattle.hfs_source.specs.Images.{OfEach};
ghost use Rattle.hfs_put.specs.Runs.{are_apart, lie_in};

use crate::order::apart_end;
use hfs_put_sources::{ForkRun, HostFault, SourceItem};
use hfs_source::PlacedBytes;
use std::alloc::Global;

/// The bytes of a file in which some runs have the forks of items of a host's tree in place of the file's own bytes, with zeros
/// past a fork's end.
#[derive(Drop)]
pub struct LaidForks<B, H> {
    pub alloc: Global,
    /// The file's own bytes.
    pub bytes: B,
    /// What the forks are read from.
    pub files: H,
    /// The items, to which the runs point.
    pub items: Vec<SourceItem>,
    /// The runs that the forks are in, in the order of their places.
    pub runs: Vec<ForkRun>,
    /// The byte of the file from which these places are counted.
    pub start: u64,
    /// Why the tree couldn't be read, the first time.
    pub fault: Option<HostFault>,
    ghost apart: { IsTrue (are_apart 0 runs.items) },
}

/// Whether runs that end at a byte lie within `len` bytes, if their places are counted from byte `start`.
fn is_inside(end: u128, start: u64, len: u64) -> bool
    ensures { result ≡ nat_le (start + end) len }
{
    let len = u128::from(len);
    end <= len && u128::from(start) <= len - end
}

impl<B: PlacedBytes + Drop, H: Drop> LaidForks<B, H> {
    /// The file with these forks laid into it. None if the runs don't lie one after the other in the file.
    pub fn new(
        alloc: Global,
        bytes: B,
        files: H,
        items: Vec<SourceItem>,
        runs: Vec<ForkRun>,
        start: u64,
    ) -> Option<LaidForks<B, H>>
        ensures none { IfNone result (OfEach (B.Holds bytes)
            (λ file. lie_in start runs.items file ≡ false)) }
        ensures inside { IfSome result (λ _. OfEach (B.Holds bytes)
            (λ file. IsTrue (lie_in start runs.items file))) }
        ensures bytes { IfSome result (λ laid. laid.bytes ≡ bytes) }
        ensures files { IfSome result (λ laid. laid.files ≡ files) }
        ensures items { IfSome result (λ laid. laid.items ≡ items) }
        ensures runs { IfSome result (λ laid. (laid.runs ≡ runs) × (laid.start ≡ start)) }
        ensures fault { IfSome result (λ laid. laid.fault ≡ None) }
    {
        let end = apart_end(&runs)?;
        if !is_inside(end, start, bytes.len()) {
            return None;
        }
        Some(LaidForks {
            alloc,
            bytes,
            files,
            items,
            runs,
            start,
            fault: None,
        })
    }

    /// Why the tree couldn't be read, the first time since this was last asked.
    pub fn take_fault(&mut self) -> Option<HostFault>
        ensures fault { result ≡ self.old.fault }
        ensures rest { self.new ≡ record self.old { fault = None } }
    {
        self.fault.take()
    }
}
