//! What remains of a volume, for a bag.
ghost use Rattle.std.specs.Prelude.{◌≡◌, ◌+◌, ◌-◌, ⊤, ℕ, List, length, IfErr, IfOk, MatchResult, OnOk};
ghost use Rattle.hfs_bag.specs.Sources.{HasOpened, HasRead, HasRestarted, IsFewer, TakesItem};
ghost use Rattle.hfs_source.specs.Images.{OfEach};
ghost use Rattle.hfs_rescue_items.specs.Faults.{FailsToComeAt, FailsToOpen, FailsToOpenFork, FailsToRead, Never};
ghost use Rattle.hfs_rescue_items.specs.Plan.{whole_plan};
ghost use Rattle.hfs_rescue_items.specs.Reading.{reading_left, reading_rest};
ghost use Rattle.hfs_rescue_items.specs.Sources.{part_bytes, part_stream, source_of};

use crate::came::{Came, came_of, part_fork};
use crate::fork_reading::begin_fork;
use crate::found::Found;
use crate::plan::{Planned, plan_of};
use crate::reading::{Reading, read_next};
use crate::table_lines::Lines;
use hfs_bag::{BagHead, BagSource, ForkReading, SourceFault, Stream};
use hfs_source::BlockSource;
use hfs_space::ForkKind;
use std::alloc::{AllocError, Global};

/// The items of a damaged volume below its root, one after the other, each folder where it is first needed, and the bytes of
/// their forks in pieces.
#[derive(Drop)]
pub struct RescueItems<'a, S: BlockSource> {
    alloc: Global,
    found: Found<'a>,
    /// What the image's blocks are read from.
    source: S,
    /// What is made of them.
    plan: Vec<Planned>,
    /// The place in it of what comes next.
    next: usize,
    came: Came,
    reading: Reading<'a>,
}

/// A fork of the item of a part of a plan, to be read from its first byte. Error: memory was refused.
#[tactic(auto, using(crate::proofs::SourceLemmas::fork_begun, crate::proofs::SourceLemmas::none_begun))]
fn open_fork<'a>(
    alloc: Global,
    found: &Found<'a>,
    planned: Planned,
    kind: ForkKind,
) -> Result<Reading<'a>, SourceFault>
    ensures begun { (image : List ℕ) → IfOk result (λ reading. reading_rest image found.now reading
        ≡ part_bytes image found.now kind planned) }
    ensures fault { IfErr result (FailsToOpenFork found.now) }
{
    let Ok(part) = part_fork(alloc, found, planned, kind) else {
        return Err(SourceFault::Memory);
    };
    match part {
        Some(fork) => {
            let reading = begin_fork(alloc, found.mdb, &fork)?;
            Ok(Reading::Fork(reading))
        }
        None => Ok(Reading::Fork(ForkReading::empty(alloc))),
    }
}

/// The lines of all items.
fn all_lines<'a>(found: &Found<'a>) -> Lines<'a>
    ensures next { result.next ≡ 0 }
    ensures items { result.items.now ≡ found.now.items.now }
{
    Lines {
        next: 0,
        items: found.items,
    }
}

/// A stream of what a part of a plan gives, to be read from its first byte. Error: memory was refused.
#[tactic(auto, using(crate::proofs::SourceLemmas::table_begun, crate::proofs::SourceLemmas::remains_begun))]
fn open_stream<'a>(
    alloc: Global,
    found: &Found<'a>,
    planned: Planned,
    stream: Stream,
) -> Result<Reading<'a>, SourceFault>
    ensures begun { (image : List ℕ) → IfOk result (λ reading. reading_rest image found.now reading
        ≡ part_stream image found.now planned stream) }
    ensures fault { IfErr result (FailsToOpen found.now stream) }
{
    match stream {
        Stream::DataFork => open_fork(alloc, found, planned, ForkKind::Data),
        Stream::ResourceFork => open_fork(alloc, found, planned, ForkKind::Resource),
        Stream::Table => Ok(Reading::Table(all_lines(found))),
        Stream::Remains => Ok(Reading::Remains(all_lines(found))),
    }
}

impl<'a, S: BlockSource + Drop> RescueItems<'a, S> {
    /// What was found of an image, from its first item on; the bytes of forks are read from this source. Fails only when out of
    /// memory, and then the source is handed back.
    pub fn new(alloc: Global, found: Found<'a>, source: S) -> Result<RescueItems<'a, S>, S>
        ensures found { IfOk result (λ made. made.found ≡ found.entry) }
        ensures source { IfOk result (λ made. made.source ≡ source) }
        ensures plan { IfOk result (λ made. made.plan.items ≡ whole_plan found.entry) }
        ensures back { IfErr result (λ back. back ≡ source) }
    {
        let Ok(plan) = plan_of(alloc, &found) else {
            return Err(source);
        };
        Ok(RescueItems {
            alloc,
            found,
            source,
            plan,
            next: 0,
            came: Came::nothing(alloc),
            reading: Reading::Fork(ForkReading::empty(alloc)),
        })
    }

    /// The source that the bytes of forks were read from.
    pub fn into_source(self) -> S
        ensures { result ≡ self.entry.source }
    {
        let RescueItems {
            alloc: _,
            found: _,
            source,
            plan: _,
            next: _,
            came: _,
            reading: _,
        } = self;
        source
    }
}

impl<S: BlockSource> BagSource for RescueItems<'_, S> {
    ghost Holds = { λ items. S.Holds items.source };

    ghost state = { λ items image. source_of image items.found items.plan.items items.next items.came items.reading };

    ghost items_left = { λ items. length items.plan.items - items.next };

    ghost bytes_left = { λ items. reading_left items.found items.reading };

    ghost Fails = { λ _. ⊤ };

    fn tells_remains(&self) -> bool {
        true
    }

    #[tactic(auto, using(crate::proofs::SourceLemmas::has_restarted))]
    fn restart(&mut self) -> Result<(), SourceFault>
        ensures restarted { MatchResult result (λ _. OfEach (S.Holds self.new.source) (λ image. HasRestarted
            (source_of image self.old.found self.old.plan.items self.old.next self.old.came self.old.reading)
            (source_of image self.new.found self.new.plan.items self.new.next self.new.came self.new.reading))) (λ _. ⊤) }
        ensures narrows { OfEach (S.Holds self.new.source) (S.Holds self.old.source) }
        ensures fault { IfErr result Never }
    {
        self.next = 0;
        Ok(())
    }

    #[tactic(auto, using(crate::proofs::SourceLemmas::has_no_item, crate::proofs::SourceLemmas::plan_fewer))]
    fn next_item(&mut self) -> Result<Option<BagHead>, SourceFault>
        ensures taken { MatchResult result (λ head. OfEach (S.Holds self.new.source) (λ image. TakesItem
            (source_of image self.old.found self.old.plan.items self.old.next self.old.came self.old.reading)
            (source_of image self.new.found self.new.plan.items self.new.next self.new.came self.new.reading) head)) (λ _. ⊤) }
        ensures fewer { IfOk result (IsFewer (length self.old.plan.items - self.old.next)
            (length self.new.plan.items - self.new.next)) }
        ensures narrows { OfEach (S.Holds self.new.source) (S.Holds self.old.source) }
        ensures fault { IfErr result (FailsToComeAt self.old.found self.old.plan.items self.old.next) }
    {
        if self.next >= self.plan.len() {
            return Ok(None);
        }
        let planned = self.plan[self.next];
        let (came, head) = came_of(self.alloc, &self.found, planned)?;
        self.came = came;
        self.next += 1;
        Ok(Some(head))
    }

    fn push_above(&self, text: &mut String) -> Result<(), AllocError> {
        text.push_str(self.came.above.as_str())
    }

    fn push_name(&self, text: &mut String) -> Result<(), AllocError> {
        text.push_str(self.came.name.as_str())
    }

    #[tactic(auto, using(crate::proofs::SourceLemmas::has_opened))]
    fn open(&mut self, stream: Stream) -> Result<(), SourceFault>
        ensures opened { MatchResult result (λ _. OfEach (S.Holds self.new.source) (λ image. HasOpened stream
            (source_of image self.old.found self.old.plan.items self.old.next self.old.came self.old.reading)
            (source_of image self.new.found self.new.plan.items self.new.next self.new.came self.new.reading))) (λ _. ⊤) }
        ensures stays { length self.new.plan.items - self.new.next
            ≡ length self.old.plan.items - self.old.next }
        ensures narrows { OfEach (S.Holds self.new.source) (S.Holds self.old.source) }
        ensures fault { IfErr result (FailsToOpen self.old.found stream) }
    {
        self.reading = open_stream(self.alloc, &self.found, self.came.planned, stream)?;
        Ok(())
    }

    #[tactic(auto, using(crate::proofs::SourceLemmas::has_read))]
    fn read(&mut self, piece: &mut Vec<u8>) -> Result<(), SourceFault>
        ensures read { MatchResult result (λ _. OfEach (S.Holds self.new.source) (λ image. HasRead piece.new.items
            (source_of image self.old.found self.old.plan.items self.old.next self.old.came self.old.reading)
            (source_of image self.new.found self.new.plan.items self.new.next self.new.came self.new.reading))) (λ _. ⊤) }
        ensures fewer { OnOk result (reading_left self.old.found self.old.reading
            ≡ length piece.new.items + reading_left self.new.found self.new.reading) }
        ensures stays { length self.new.plan.items - self.new.next
            ≡ length self.old.plan.items - self.old.next }
        ensures narrows { OfEach (S.Holds self.new.source) (S.Holds self.old.source) }
        ensures fault { IfErr result (FailsToRead self.old.reading) }
    {
        read_next(
            self.alloc,
            &mut self.source,
            &self.found,
            &mut self.reading,
            piece,
        )
    }
}
