//! What happens to an item if another may be in its place.
ghost use Rattle.std.specs.Prelude.{◌≡◌};
ghost use Rattle.hfs_put_plan.specs.Placing.{how_placed, over_standing};

use hfs_model::ItemKind;

/// An item that is already on the disk where another is to be put.
#[derive(Clone, Copy)]
pub struct Standing {
    pub kind: ItemKind,
    /// Whether it is a locked file.
    pub locked: bool,
}

/// How an item is placed.
#[derive(Clone, Copy)]
pub enum Placing {
    /// Nothing is there: it is made.
    New,
    /// It is a folder that is already there: it stays as it is, and what it holds is put into it.
    Kept,
    /// The file that is already there is deleted directly before it is made, after being unlocked if it is locked.
    Replaced { locked: bool },
    /// It can't be put there.
    Taken,
}

/// How an item is placed if another of the same name is there.
fn over_standing(there: Standing, comes: ItemKind, replace: bool) -> Placing
    ensures { result ≡ over_standing there comes replace }
{
    match comes {
        ItemKind::Folder => match there.kind {
            ItemKind::Folder => Placing::Kept,
            ItemKind::File => Placing::Taken,
        },
        ItemKind::File => match there.kind {
            ItemKind::Folder => Placing::Taken,
            ItemKind::File => {
                if replace {
                    Placing::Replaced {
                        locked: there.locked,
                    }
                } else {
                    Placing::Taken
                }
            }
        },
    }
}

/// How an item is placed, given what is there, and whether files are to be replaced.
pub fn how_placed(there: Option<Standing>, comes: ItemKind, replace: bool) -> Placing
    ensures { result ≡ how_placed there comes replace }
{
    match there {
        Some(there) => over_standing(there, comes, replace),
        None => Placing::New,
    }
}
