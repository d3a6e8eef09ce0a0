//! Which published lists the workers of a run were given.
ghost use Rattle.std.specs.Prelude.{◌≡◌};
ghost use mathlib.Core.List.{IsPrefix};
ghost use Rattle.hfs_shared.specs.Closings.{IsWhether};
ghost use Rattle.hfs_runs.specs.Tellings.{AllBegin, AreOf, AreWhole, OfEach};

use hfs_model::Reply;
use hfs_shared::{Done, Told, Viewer};

// The viewer learns the lists that one worker was given.
fn learn(viewer: &mut Viewer, answers: &[(Reply, Told)])
    requires { AreOf viewer.old.book answers.now }
    ensures told { AllBegin viewer.new.list answers.now }
    ensures saw { IsPrefix viewer.old.list viewer.new.list }
    ensures book { viewer.new.book ≡ viewer.old.book }
{
    for answer in answers {
        viewer.learn(&answer.1);
    }
}

/// The viewer learns all lists that the workers were given. Takes no memory.
pub fn learn_all(viewer: &mut Viewer, dones: &[Done])
    requires { OfEach (AreOf viewer.old.book) dones.now }
    ensures told { OfEach (AllBegin viewer.new.list) dones.now }
    ensures saw { IsPrefix viewer.old.list viewer.new.list }
    ensures book { viewer.new.book ≡ viewer.old.book }
{
    for done in dones {
        learn(viewer, done.replies.as_slice());
    }
}

// Whether each list covers all calls that were made until then.
fn are_whole(answers: &[(Reply, Told)]) -> bool
    ensures { IsWhether result (AreWhole answers.now) }
{
    for answer in answers {
        if answer.1.shown() != answer.1.made() {
            return false;
        }
    }
    true
}

/// Whether each list that a worker was given covers all calls that were made until then.
pub fn are_all_whole(dones: &[Done]) -> bool
    ensures { IsWhether result (OfEach AreWhole dones.now) }
{
    for done in dones {
        if !are_whole(done.replies.as_slice()) {
            return false;
        }
    }
    true
}
