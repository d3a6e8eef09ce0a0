//! What was found of an image, with what is taken of its items' forks.
ghost use Rattle.std.specs.Prelude.{◌≡◌, ℕ, List, Some};
ghost use Rattle.hfs_remains_forks.specs.Finds.{IsFoundIn};
ghost use Rattle.hfs_remains_forks.specs.Images.{IsSalvageOf};
ghost use Rattle.hfs_word_rescue.specs.Found.{IsFoundOf};

use hfs_remains_forks::{Finds, Salvage};
use hfs_rescue_items::Found;

/// What was found of an image, with what is taken of its items' forks.
pub(crate) fn found_in<'a>(finds: &'a Finds, salvage: &'a Salvage<'a>) -> Found<'a>
    requires { salvage.now.trees.mdb.now ≡ finds.now.mdb }
    ensures mdb { result.mdb.now ≡ finds.now.mdb }
    ensures salvage { result.salvage.now ≡ salvage.now }
    ensures found { (image : List ℕ) (limit : ℕ) → IsFoundIn image (Some finds.now)
        → IsSalvageOf finds.now limit salvage.now → IsFoundOf image limit result }
{
    Found {
        mdb: &finds.mdb,
        items: &finds.items,
        places: &finds.places,
        salvage,
    }
}
