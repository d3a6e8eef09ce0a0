//! What is written about a bag can be read back.
ghost use Rattle.std.specs.Prelude.{◌≡◌, IsTrue, ℕ, List, length};
ghost use Rattle.std.specs.List.{list_all};
ghost use Rattle.hfs_texts.specs.NameLaws.{is_bytes};
ghost use Rattle.hfs_texts.specs.Moments.{moment};
ghost use Rattle.hfs_texts.specs.PlainTexts.{plain_text};
ghost use Rattle.hfs_bag.specs.declared.facts.BagFacts.{BagFacts};
ghost use Rattle.hfs_put_sources.specs.TagLaws.{AreMomentsRead, IsDigestReadBack, IsNameReadBack, IsRowReadBack, is_line};

use hfs_model::Info;

/// The law of moments: each date of 32 bits comes back from its moment.
pub fn moments_read_back()
    ensures { AreMomentsRead moment }
{}

/// The law of the table of items: kind, lock, dates and the path in the bag come back from an item's line, whatever its name is.
pub fn item_row_read_back(info: Info)
    ensures { (names : List (List ℕ)) → IsTrue (list_all is_bytes names)
        → IsTrue (is_bytes info.finder) → IsRowReadBack names info }
{}

/// The law of a bag's description: the plain text of the root's name comes back from it, whatever the name is.
pub fn info_read_back()
    ensures { (name : List ℕ) (facts : BagFacts) (bytes files : ℕ) → IsTrue (is_bytes name)
        → facts.identifier.now ≡ plain_text name → IsNameReadBack name facts bytes files }
{}

/// The law of manifests: a file's digest and path come back from its line.
pub fn manifest_read_back()
    ensures { (digest path rest : List ℕ) → IsTrue (is_bytes digest) → length digest ≡ 32
        → IsTrue (is_line path) → IsDigestReadBack digest path rest }
{}
