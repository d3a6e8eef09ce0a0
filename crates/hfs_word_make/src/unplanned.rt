//! What it means that no volume is planned for what comes.
ghost use Rattle.std.specs.Prelude.{◌≡◌, ◌⊎◌, IfErr, IfOk, MatchResult};
ghost use Rattle.hfs_word_make.specs.Planned.{IsEmptied};
ghost use Rattle.hfs_word_make.specs.Unplanned.{HasPlaces, IsEmptyCopy, IsNotEmptiedAs, IsUnplaced, IsUnplanned};
ghost use Rattle.hfs_word_make.specs.Mounted.{IsImageFault};

use crate::mounting::mount_new;
use crate::order::MakeOrder;
use crate::refusing::of_make;
use hfs_format::{MakeFault, NewImage, NewItem, NewVolume, plan_volume};
use hfs_put_sources::SourceItem;
use hfs_volume::Volume;
use hfs_word_put::{PutFault, place_all};
use std::alloc::Global;

/// The volume of this name and moment on which nothing is to come.
fn empty_volume<'a>(wanted: &NewVolume<'_>, items: &'a [NewItem; 0]) -> NewVolume<'a>
    ensures { IsEmptied wanted.now result }
{
    NewVolume {
        name: wanted.name,
        size: None,
        items,
        catalog_times: 1,
        moment: wanted.moment,
    }
}

/// Mounts a volume of the name that is wanted, on which nothing lies.
fn mount_empty<'a>(
    alloc: Global,
    wanted: &NewVolume<'_>,
    path: &'a str,
) -> Result<Volume, PutFault<'a>>
    ensures copy { IfOk result (λ volume. IsEmptyCopy wanted.now volume.current) }
    ensures fault { IfErr result (λ told.
        IsNotEmptiedAs wanted.now told ⊎ IsImageFault path.entry told) }
{
    let planned = match plan_volume(alloc, &empty_volume(wanted, &[])) {
        Ok(planned) => planned,
        Err(fault) => return Err(of_make(fault)),
    };
    match mount_new(alloc, NewImage { planned }, path) {
        Ok(volume) => Ok(volume),
        Err(fault) => Err(PutFault::Image(fault)),
    }
}

/// Looks whether what comes can be put at all, on a volume of its name on which nothing lies.
fn need_places<'a>(
    alloc: Global,
    wanted: &NewVolume<'_>,
    path: &'a str,
    order: &MakeOrder<'_>,
    items: &[SourceItem],
) -> Result<(), PutFault<'a>>
    ensures { MatchResult result (λ _. HasPlaces wanted.now order.entry.now items.now)
        (IsUnplaced path.entry wanted.now order.entry.now items.now) }
{
    let volume = mount_empty(alloc, wanted, path)?;
    place_all(alloc, &volume, &order.put_order(), items)?;
    Ok(())
}

/// What it means that no volume is planned: where something can't be put, that.
pub(crate) fn unplanned<'a>(
    alloc: Global,
    fault: MakeFault,
    wanted: &NewVolume<'_>,
    path: &'a str,
    order: &MakeOrder<'_>,
    items: &[SourceItem],
) -> PutFault<'a>
    ensures { IsUnplanned path.entry wanted.now order.entry.now items.now fault result }
{
    match need_places(alloc, wanted, path, order, items) {
        Ok(()) => of_make(fault),
        Err(refused) => refused,
    }
}
