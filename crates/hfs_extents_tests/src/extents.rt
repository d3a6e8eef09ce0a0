//! The extents of a fork that loses blocks, and of one to which blocks are added.

ghost use Rattle.std.specs.Prelude.{◌<◌, IsTrue, ◌↔◌};
ghost use Rattle.std.specs.List.{All};

use hfs_fields::Extent;
use hfs_record_edits::{cut_extents, lengthen, surplus};
use hfs_space::are_within;
use std::alloc::{AllocError, Global};
use std::test::Fail;

/// An extent by its numbers.
fn at(first: u16, count: u16) -> Extent {
    Extent { first, count }
}

/// A record of which the second extent has no blocks.
const RECORD: [Extent; 3] = [
    Extent {
        first: 10,
        count: 4,
    },
    Extent { first: 7, count: 0 },
    Extent {
        first: 20,
        count: 3,
    },
];

/// An extent that loses its last block is 0, 0; one that had none stays as it is.
#[test]
fn the_first_blocks(rt: HostRuntime) -> Result<(), Fail> {
    assert!(rt; cut_extents(&RECORD, 7) == RECORD);
    assert!(rt; cut_extents(&RECORD, 5) == [at(10, 4), at(7, 0), at(20, 1)]);
    assert!(rt; cut_extents(&RECORD, 4) == [at(10, 4), at(7, 0), at(0, 0)]);
    assert!(rt; cut_extents(&RECORD, 0) == [at(0, 0), at(7, 0), at(0, 0)]);
    Ok(())
}

/// The blocks after the first `count` of that record.
fn behind(alloc: Global, count: u32) -> Result<Vec<Extent>, AllocError> {
    if !are_within(&RECORD, 65_535) {
        return Ok(Vec::new(alloc));
    }
    surplus(alloc, &RECORD, count)
}

/// Part of an extent and a whole one; a whole one; none.
#[test]
fn the_other_blocks(rt: HostRuntime) -> Result<(), Fail> {
    let alloc = rt.alloc();
    assert!(rt; behind(alloc, 2)?.as_slice() == [at(12, 2), at(20, 3)].as_slice());
    assert!(rt; behind(alloc, 4)?.as_slice() == [at(20, 3)].as_slice());
    assert!(rt; behind(alloc, 7)?.is_empty());
    Ok(())
}

/// Whether each of the extents has a block.
fn have_blocks(extents: &[Extent]) -> bool
    ensures { IsTrue result ↔ All (λ e. 0 < e.count) extents.now }
{
    extents.iter().all(|extent| extent.count > 0)
}

/// These extents with these pieces, whose blocks are within a volume's.
fn with(alloc: Global, extents: &[Extent], pieces: &[Extent]) -> Result<Vec<Extent>, Fail> {
    if !have_blocks(pieces) || !are_within(pieces, 65_535) {
        return Err(Fail::new("no pieces"));
    }
    let mut all = Vec::from_slice(alloc, extents)?;
    lengthen(&mut all, pieces)?;
    Ok(all)
}

/// A piece that begins directly after the last block lengthens its extent; any other takes the next place, which keeps its bytes
/// until then.
#[test]
fn pieces_in_the_record(rt: HostRuntime) -> Result<(), Fail> {
    let alloc = rt.alloc();
    let record = [at(42, 1), at(9, 0), at(8, 0)];
    let longer = with(alloc, &record, &[at(43, 1)])?;
    assert!(rt; longer.as_slice() == [at(42, 2), at(9, 0), at(8, 0)].as_slice());
    let beside = with(alloc, &record, &[at(44, 1)])?;
    assert!(rt; beside.as_slice() == [at(42, 1), at(44, 1), at(8, 0)].as_slice());
    Ok(())
}

/// Five blocks of an empty fork, each by itself: three in the record, two in one of the extents tree.
#[test]
fn pieces_behind_the_record(rt: HostRuntime) -> Result<(), Fail> {
    let none = [at(0, 0), at(0, 0), at(0, 0)];
    let pieces = [at(43, 1), at(45, 1), at(47, 1), at(49, 1), at(51, 1)];
    let all = with(rt.alloc(), &none, &pieces)?;
    assert!(rt;
        all.as_slice()
            == [
                at(43, 1),
                at(45, 1),
                at(47, 1),
                at(49, 1),
                at(51, 1),
                at(0, 0)
            ]
            .as_slice()
    );
    Ok(())
}
