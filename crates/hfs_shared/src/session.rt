//! Which pair of copies a shared volume has, over which image it was shared, and which calls its workers make.
use std::marker::Brand;

/// Names one pair of copies, by its history, and the image that was shared, whose volume opens the history. If it is known
/// beforehand which calls the workers make, a session's plan names these, too, and each call that is made is the planned one.
pub trait Session {
    ghost use Rattle.std.specs.Prelude.{ℕ, List};
    ghost use Rattle.logbook.specs.Pages.{Book};
    ghost use Rattle.hfs_shared.specs.Plans.{Plan};

    ghost book: { Book };

    ghost base: { List ℕ };

    ghost plan: { Plan };
}

impl Session for Brand {
    ghost use Rattle.std.specs.Prelude.{[], None};

    ghost book = { record { number = 0; log_name = 0; cells_name = 0 } };

    ghost base = { [] };

    ghost plan = { None };
}
