//! What bags say about their files and folders.
ghost use Rattle.std.specs.Prelude.{◌≡◌, ℕ, List, None, Option};
ghost use Rattle.hfs_put_plan.specs.declared.facts.ToldFacts.{ToldFacts};

use hfs_put_plan::ToldFacts;

/// What bags say about items, by the items' paths on the host; it takes precedence over all else that is known of lock and dates.
pub trait ToldItems {
    ghost told: { Self → List ℕ → Option ToldFacts };

    /// What is said about the item at a path.
    fn told(&self, path: &str) -> Option<ToldFacts>
        ensures { result ≡ told self.now path.now };
}

/// Nothing is said about any item, as if it were in no bag.
#[derive(Clone, Copy, Drop)]
pub struct NothingTold {}

impl ToldItems for NothingTold {
    ghost told = { λ _ _. None };

    fn told(&self, _path: &str) -> Option<ToldFacts> {
        None
    }
}
