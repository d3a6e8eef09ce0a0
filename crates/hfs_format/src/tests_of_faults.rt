//! Plans that are refused, each with its first fault.

use crate::layout::Layout;
use crate::tests::plan_of;
use crate::*;
use std::alloc::{AllocError, Global};
use std::test::Fail;

/// The first fault of a plan, found before any memory for the image is asked for.
fn fault_of(
    alloc: Global,
    name: &[u8],
    blocks: u32,
    extents_nodes: u32,
    catalog_nodes: u32,
) -> Result<Option<FormatFault>, AllocError> {
    let plan = plan_of(alloc, name, blocks, extents_nodes, catalog_nodes)?;
    Ok(Layout::of(&plan).err())
}

#[test]
fn plans_have_their_first_fault(rt: HostRuntime) -> Result<(), Fail> {
    let name = [b'n'; 28];
    let bad_name = Some(FormatFault::BadName);
    let bad_size = Some(FormatFault::BadSize);
    let bad_nodes = Some(FormatFault::BadNodes);
    let no_room = Some(FormatFault::NoRoom);
    let cases: [(&[u8], u32, u32, u32, Option<FormatFault>); 33] = [
        (&name, 64, 2, 6, bad_name),
        (&name[..27], 64, 2, 6, None),
        (b"", 64, 2, 6, bad_name),
        (b"a:b", 64, 2, 6, bad_name),
        (b"a`b", 64, 2, 6, bad_name),
        (b"a\x1fb", 64, 2, 6, bad_name),
        (b"D", 7, 1, 2, bad_size),
        (b"D", 8, 1, 2, no_room),
        (b"D", 9, 1, 2, None),
        (b"D", 4_194_304, 1, 2, None),
        (b"D", 4_194_305, 1, 2, bad_size),
        (b"D", 64, 2, 1, bad_nodes),
        (b"D", 64, 2, 2, None),
        (b"D", 64, 0, 6, bad_nodes),
        (b"D", 64, 1, 6, None),
        (b"D", 9_000, 1, 2_048, None),
        (b"D", 9_000, 1, 2_049, None),
        (b"D", 9_000, 2_048, 2, None),
        (b"D", 9_000, 2_049, 2, None),
        (b"D", 9_000, 1, 8_991, None),
        (b"D", 9_000, 1, 8_992, no_room),
        (b"D", 9_000, 8_990, 2, None),
        (b"D", 9_000, 8_991, 2, no_room),
        (b"D", 131_072, 2_046, 2_046, None),
        (b"D", 131_072, 1, 2_047, None),
        (b"D", 131_072, 4_294_967_295, 2, no_room),
        (b"D", 131_072, 1, 4_294_967_295, no_room),
        (b"D", 4_194_304, 4_294_967_295, 4_294_967_295, no_room),
        (b"D", 64, 4_294_967_295, 1, bad_nodes),
        (b"D", 64, 2, 56, None),
        (b"D", 64, 2, 57, no_room),
        (b"", 7, 1, 2, bad_name),
        (b"D", 7, 0, 2, bad_size),
    ];
    for (name, blocks, extents_nodes, catalog_nodes, expected) in cases {
        let fault = fault_of(rt.alloc(), name, blocks, extents_nodes, catalog_nodes)?;
        assert!(rt;
            fault == expected,
            "{blocks} {extents_nodes} {catalog_nodes}: {fault:?}"
        );
    }
    Ok(())
}

#[test]
fn refused_plans_have_no_image(rt: HostRuntime) -> Result<(), Fail> {
    for (blocks, nodes, expected) in [
        (7, 2, FormatFault::BadSize),
        (64, 1, FormatFault::BadNodes),
        (8, 2, FormatFault::NoRoom),
    ] {
        let image = format(rt.alloc(), plan_of(rt.alloc(), b"D", blocks, 1, nodes)?);
        assert!(rt;
            matches!(image, Err(fault) if fault == expected),
            "{blocks} {nodes}"
        );
    }
    let long = plan_of(rt.alloc(), &[b'n'; 28], 64, 2, 6)?;
    assert!(rt; matches!(format(rt.alloc(), long), Err(FormatFault::BadName)));
    Ok(())
}
