//! What comes is put on a new volume; where the nodes of its catalog don't suffice, on one with twice as many.
ghost use Rattle.std.specs.Prelude.{◌≡◌, ◌^◌, ◌/◌, ◌<◌, ◌≤◌, IfErr, IfOk, IfSome, MatchOption, MatchResult, OnOk, length};
ghost use Rattle.hfs_blocks.specs.Layers.{changes, AreWithin};
ghost use Rattle.hfs_format.specs.Image.{image_bytes};
ghost use Rattle.hfs_word_make.specs.Doubled.{IsFilled, IsFullAt, IsNotFilled, IsPutAt, IsUnfilledAt, IsUnplannedAt};
ghost use Rattle.hfs_word_make.specs.Filled.{IsFullIn, IsPutIn, IsUnfilled};
ghost use Rattle.hfs_word_make.specs.Planned.{IsDoubled, IsTimes};

use crate::laying::lay_list;
use crate::mounting::mount_new;
use crate::order::MakeOrder;
use crate::unplanned::unplanned;
use hfs_format::{NewImage, NewVolume, plan_volume};
use hfs_put_sources::SourceItem;
use hfs_word_put::{PutFault, PutList, place_all};
use std::alloc::Global;

/// A new volume's image, and what is put on it.
#[derive(Drop)]
pub(crate) struct FilledImage {
    pub(crate) image: NewImage,
    pub(crate) list: PutList,
}

/// Puts what comes on a new volume; none where the nodes of its catalog don't suffice. Faults: what can't come to its place; the first
/// call that is refused for another reason. Or want of memory.
fn fill<'a>(
    alloc: Global,
    image: &NewImage,
    path: &'a str,
    order: &MakeOrder<'_>,
    items: &[SourceItem],
) -> Result<Option<PutList>, PutFault<'a>>
    ensures put { IfOk result (λ put.
        MatchOption put (IsFullIn order.entry.now items.now (image_bytes image.now.planned))
        (IsPutIn order.entry.now items.now (image_bytes image.now.planned))) }
    ensures within { IfOk result (λ put. IfSome put (λ put. AreWithin
        (changes put.blocks.patch) (length (image_bytes image.now.planned) / 512))) }
    ensures small { OnOk result (length (image_bytes image.now.planned) ≤ 2147483648) }
    ensures fault { IfErr result
        (IsUnfilled path.entry order.entry.now items.now (image_bytes image.now.planned)) }
{
    let mut volume = match mount_new(alloc, *image, path) {
        Ok(volume) => volume,
        Err(fault) => return Err(PutFault::Image(fault)),
    };
    let list = place_all(alloc, &volume, &order.put_order(), items)?;
    match lay_list(alloc, &mut volume, &list, items, order.now) {
        Ok(put) => Ok(put),
        Err(fault) => Err(fault),
    }
}

/// How often the nodes of a catalog are doubled at most, and once more: no volume has 2 ^ 31 times the nodes that a catalog wants.
const MOST_DOUBLED: u32 = 32;

/// The volume that is wanted, with the nodes of its catalog doubled so often.
fn doubled_volume<'a>(wanted: &NewVolume<'a>, doubled: u32) -> NewVolume<'a>
    requires { doubled < 32 }
    ensures { IsTimes wanted.now (2 ^ doubled) result }
{
    NewVolume {
        name: wanted.name,
        size: wanted.size,
        items: wanted.items,
        catalog_times: 2_u32.pow(doubled),
        moment: wanted.moment,
    }
}

/// Plans the volume that is wanted, with the nodes of its catalog doubled so often. Faults: what can't come to its place; `NoRoom`. Or
/// want of memory.
fn planned_at<'a>(
    alloc: Global,
    wanted: &NewVolume<'_>,
    doubled: u32,
    path: &'a str,
    order: &MakeOrder<'_>,
    items: &[SourceItem],
) -> Result<NewImage, PutFault<'a>>
    requires { doubled < 32 }
    ensures { MatchResult result (λ image. IsDoubled wanted.now doubled image.planned)
        (IsUnplannedAt path.entry wanted.now order.entry.now items.now doubled) }
{
    let volume = doubled_volume(wanted, doubled);
    match plan_volume(alloc, &volume) {
        Ok(planned) => Ok(NewImage { planned }),
        Err(fault) => Err(unplanned(alloc, fault, wanted, path, order, items)),
    }
}

/// Plans the volume that is wanted, with the nodes of its catalog doubled so often, and puts what comes on it; none where they don't
/// suffice. Faults: those of [`filled_image`].
fn filled_at<'a>(
    alloc: Global,
    wanted: &NewVolume<'_>,
    doubled: u32,
    path: &'a str,
    order: &MakeOrder<'_>,
    items: &[SourceItem],
) -> Result<Option<FilledImage>, PutFault<'a>>
    requires { doubled < 32 }
    ensures put { IfOk result (λ filled.
        MatchOption filled (IsFullAt wanted.now order.entry.now items.now doubled)
        (λ filled. IsPutAt wanted.now order.entry.now items.now doubled
        filled.image.planned filled.list)) }
    ensures within { IfOk result (λ filled. IfSome filled (λ filled. AreWithin
        (changes filled.list.blocks.patch)
        (length (image_bytes filled.image.planned) / 512))) }
    ensures small { IfOk result (λ filled. IfSome filled (λ filled.
        length (image_bytes filled.image.planned) ≤ 2147483648)) }
    ensures fault { IfErr result
        (IsUnfilledAt path.entry wanted.now order.entry.now items.now doubled) }
{
    let image = planned_at(alloc, wanted, doubled, path, order, items)?;
    match fill(alloc, &image, path, order, items) {
        Ok(Some(list)) => Ok(Some(FilledImage { image, list })),
        Ok(None) => Ok(None),
        Err(refused) => Err(refused),
    }
}

/// Plans a new volume and puts what comes on it; where the nodes of the catalog don't suffice, again with twice as many. Faults: what
/// can't come to its place; `NoRoom`; the first call that is refused for another reason. Or want of memory.
pub(crate) fn filled_image<'a>(
    alloc: Global,
    wanted: &NewVolume<'_>,
    path: &'a str,
    order: &MakeOrder<'_>,
    items: &[SourceItem],
) -> Result<FilledImage, PutFault<'a>>
    ensures filled { IfOk result (λ filled. IsFilled wanted.now order.entry.now items.now
        filled.image.planned filled.list) }
    ensures within { IfOk result (λ filled. AreWithin (changes filled.list.blocks.patch)
        (length (image_bytes filled.image.planned) / 512)) }
    ensures small { IfOk result (λ filled.
        length (image_bytes filled.image.planned) ≤ 2147483648) }
    ensures fault { IfErr result
        (IsNotFilled path.entry wanted.now order.entry.now items.now) }
{
    for doubled in 0..MOST_DOUBLED {
        if let Some(filled) = filled_at(alloc, wanted, doubled, path, order, items)? {
            return Ok(filled);
        }
    }
    unreachable!()
}
