//! Looking up what was found of an image.
ghost use Rattle.std.specs.Prelude.{◌≡◌, ℕ, List, IfOk, IfSome, string_bytes};
ghost use Rattle.hfs_remains_forks.specs.Verdicts.{FindsFork, verdicts_at};
ghost use Rattle.hfs_rescue_items.specs.Bytes.{GivesBytes, taken_bytes};
ghost use Rattle.hfs_rescue_items.specs.Faults.{IsForkInReach};
ghost use Rattle.hfs_remains_places.specs.Names.{names_by};
ghost use Rattle.hfs_rescue_items.specs.Found.{field_name, names_at, path_at, told_at};

use crate::found::Found;
use crate::told::told_of;
use hfs_fields::{Mdb, Name};
use hfs_model::Info;
use hfs_remains_forks::FoundFork;
use hfs_remains_places::{Places, Verdict};
use hfs_space::ForkKind;
use std::alloc::{AllocError, Global};

/// The characters of a name, from a field with their number before them.
pub fn field_name(field: &[u8]) -> &[u8]
    ensures { result.now ≡ field_name field.now }
{
    match field {
        [] => field,
        [len, characters @ ..] => {
            let len = characters.len().min(usize::from(*len));
            &characters[..len]
        }
    }
}

/// The name of a volume with this directory.
#[tactic(auto, using(crate::proofs::ToldLemmas::field_short))]
fn volume_name(mdb: &Mdb) -> Name
    ensures { result ≡ field_name mdb.now.volume_name }
{
    let Some(name) = Name::of_bytes(field_name(&mdb.volume_name)) else {
        unreachable!()
    };
    name
}

/// The names that lead to a thing, from the root's down, given its path below the payload; None below `=old` and `=lost`, and if
/// there is no such thing. Fails only when out of memory.
pub fn names_at(
    alloc: Global,
    places: &Places,
    mdb: &Mdb,
    i: usize,
    path: &str,
) -> Result<Vec<Name>, AllocError>
    requires { path.now ≡ path_at places.now i }
    ensures { IfOk result (λ names. names.items ≡ names_at places.now mdb.now i) }
{
    if i >= places.things().len() {
        return Ok(Vec::new(alloc));
    }
    places.names(alloc, volume_name(mdb), i, path)
}

impl Found<'_> {
    /// The path below the payload of an item, or, after the items, of a named folder; not text if there is none. Fails only when
    /// out of memory.
    pub fn path(&self, alloc: Global, i: usize) -> Result<String, AllocError>
        ensures { IfOk result (λ path. string_bytes path ≡ path_at self.now.places.now i) }
    {
        if i >= self.places.things().len() {
            return Ok(String::new(alloc));
        }
        self.places.payload_path(alloc, i)
    }

    /// What an item says about itself; None if there is no such item.
    #[tactic(auto, using(crate::proofs::ToldLemmas::told_past, crate::proofs::ToldLemmas::told_there))]
    pub(crate) fn told(&self, i: usize) -> Option<Info>
        ensures { result ≡ told_at self.now.items.now i }
    {
        if i >= self.items.len() {
            return None;
        }
        let item = &self.items[i];
        told_of(item)
    }

    /// A fork of an item; None for a folder, and if there is no such item. Fails only when out of memory.
    #[tactic(auto, using(crate::proofs::ForkLemmas::gives_bytes, crate::proofs::ForkLemmas::past_bytes, crate::proofs::ReachLemmas::fork_reach))]
    pub fn fork(
        &self,
        alloc: Global,
        i: usize,
        kind: ForkKind,
    ) -> Result<Option<FoundFork>, AllocError>
        ensures found { IfOk result (FindsFork self.now.salvage.now i kind) }
        ensures bytes { (image : List ℕ) → IfOk result (GivesBytes image self.now
            (taken_bytes image self.now kind i)) }
        ensures reach { IfOk result (λ fork. IfSome fork (IsForkInReach self.now)) }
    {
        if i >= self.salvage.len() {
            return Ok(None);
        }
        let found = self.salvage.fork(alloc, i, kind)?;
        Ok(found)
    }

    /// The verdicts on both forks of an item; None for a folder, and if there is no such item.
    pub(crate) fn verdicts(
        &self,
        alloc: Global,
        i: usize,
    ) -> Result<Option<(Verdict, Verdict)>, AllocError>
        ensures { IfOk result (λ verdicts. verdicts ≡ verdicts_at self.now.salvage.now i) }
    {
        if i >= self.salvage.len() {
            return Ok(None);
        }
        self.salvage.verdicts(alloc, i)
    }
}
