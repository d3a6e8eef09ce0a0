//! The names that lead to things.
ghost use Rattle.std.specs.Prelude.{◌≡◌, ◌<◌, ◌^◌, None, Some, length, IfOk, IfSome};
ghost use Rattle.hfs_remains_places.specs.Names as spec;

use crate::paths::Frame;
use hfs_fields::Name;
use std::alloc::{AllocError, Global};

/// The most steps of a chain that has an end.
pub(crate) const STEPS: u64 = 4_294_967_296;

/// Whether a path below the payload leads to what is old or lost.
#[tactic(auto, using(std::proofs::lemmas::Str::Pattern::starts_text), unfolding(crate::specs::Names::lies_apart))]
pub(crate) fn lies_apart(path: &str) -> bool
    ensures { result ≡ spec.lies_apart path.now }
{
    path.starts_with("=old/") || path.starts_with("=lost/")
}

impl Frame<'_> {
    /// The name of the thing at a place, and then those of the folders above it.
    pub(crate) fn names_up(
        &self,
        alloc: Global,
        from: Option<usize>,
    ) -> Result<Vec<Name>, AllocError>
        requires { IfSome from (λ i. i < length self.now.things.now) }
        ensures { IfOk result (λ names. names.items ≡ spec.names_up self.now.things.now (2 ^ 32) from) }
    {
        let mut names = Vec::new(alloc);
        let mut at = from;
        let mut left = STEPS;
        while left > 0 {
            let Some(i) = at else {
                return Ok(names);
            };
            names.push(self.thing(i).name)?;
            at = self.up(i);
            left -= 1;
        }
        Ok(names)
    }
}
