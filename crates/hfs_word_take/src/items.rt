//! The items of an opened image, for a bag.
ghost use Rattle.std.specs.Prelude.{◌≡◌, ◌+◌, ⊤, ℕ, List, false, drop, length, IfErr, IfOk, MatchResult, OnOk, string_bytes};
ghost use Rattle.hfs_bag.specs.Faults.{HasFailed};
ghost use Rattle.hfs_bag.specs.Items.{IsHead};
ghost use Rattle.hfs_bag.specs.Sources.{HasOpened, HasRead, HasRestarted, IsFewer, TakesItem};
ghost use Rattle.hfs_model.specs.declared.call.Fork.TheVariants.{DataFork, ResFork};
ghost use Rattle.hfs_items.specs.ToldRows.{told_rows};
ghost use Rattle.hfs_source.specs.Images.{OfEach};
ghost use Rattle.hfs_texts.specs.HostNames.{host_name};
ghost use Rattle.hfs_word_take.specs.Items.{bag_kind, entries_in, fork_told, folders_text, item_at, names_between, table_text};
ghost use Rattle.hfs_word_take.specs.SourceFaults.{FailsToRead, WantsMemory};
ghost use Rattle.hfs_bag.specs.Forks.{fork_rest};
ghost use Rattle.hfs_word_take.specs.Reading.{AreBegunBy, AreTold, BeginsWith, LieThere, reading_left, reading_rest, table_rest};
ghost use Rattle.hfs_word_take.specs.Sources.{source_of, stream_told};

use crate::fork_reading::begin_fork;
use crate::opened_blocks::OpenedBlocks;
use crate::paths::folders_text;
use crate::reading::{Reading, read_next};
use crate::table_reading::TableReading;
use hfs_bag::{BagHead, BagKind, BagSource, ForkReading, SourceFault, Stream, since_1970};
use hfs_fields::Name;
use hfs_image::{FileRuns, SeenImage};
use hfs_items::Inventory;
use hfs_model::{Info, ItemKind};
use hfs_source::PlacedBlocks;
use hfs_texts::host_name;
use std::alloc::{AllocError, Global};

/// An item that came.
#[derive(Drop)]
struct CameItem {
    /// The path of the folder that holds it, followed by a slash.
    above: String,
    /// Its host name.
    name: String,
    info: Info,
}

/// The items of an opened image below its root, one after the other, and the bytes of their forks in pieces. Each block of these
/// is read once.
#[derive(Drop)]
pub struct ImageItems<S: PlacedBlocks> {
    alloc: Global,
    source: OpenedBlocks<S>,
    /// What is told of the root.
    pub root: Info,
    /// The rows of the items that are left.
    rows: Inventory,
    came: CameItem,
    reading: Reading,
}

/// The rows after the root's, and what is known of the root. Error: memory was refused.
#[tactic(auto, using(crate::proofs::SourceLemmas::rows_behind, crate::proofs::SourceLemmas::begins_with, crate::proofs::RootLemmas::row_of_seen))]
fn rows_below<S: PlacedBlocks + Drop>(
    alloc: Global,
    image: &SeenImage<S>,
) -> Result<(Inventory, Option<Info>), AllocError>
    ensures root { IfOk result (λ below. OfEach (S.Holds image.now)
        (λ bytes. AreBegunBy below.1 (told_rows (entries_in bytes)))) }
    ensures left { IfOk result (λ below. OfEach (S.Holds image.now)
        (λ bytes. below.0.left ≡ drop 1 (told_rows (entries_in bytes)))) }
{
    let _sound = image.volume();
    let mut rows = image.inventory(alloc)?;
    let root = rows.next()?;
    Ok((rows, root))
}

/// Where both forks of a file lie; None for a folder. Error: memory was refused.
#[tactic(auto, using(crate::proofs::SourceLemmas::fork_lies, crate::proofs::SourceLemmas::fork_refused, crate::proofs::SourceLemmas::folder_empty))]
fn runs_of<S: PlacedBlocks + Drop>(
    alloc: Global,
    image: &SeenImage<S>,
    info: &Info,
) -> Result<Option<FileRuns>, AllocError>
    ensures told { IfOk result AreTold }
    ensures there { IfOk result (λ runs. OfEach (S.Holds image.now) (LieThere info.now runs)) }
{
    match info.kind {
        ItemKind::Folder => Ok(None),
        ItemKind::File => match image.file_runs(alloc, info.parent, info.name.bytes())? {
            Ok(runs) => Ok(Some(runs)),
            Err(_) => Ok(None),
        },
    }
}

fn bag_kind(kind: ItemKind) -> BagKind
    ensures { result ≡ bag_kind kind }
{
    match kind {
        ItemKind::Folder => BagKind::Folder,
        ItemKind::File => BagKind::File,
    }
}

/// The head of an item whose forks lie there.
fn head_of(info: &Info, runs: &Option<FileRuns>) -> BagHead
    ensures { (image : List ℕ) → LieThere info.now runs.now image → (above name : List ℕ)
        → IsHead result (item_at (entries_in image) above name info.now) }
{
    let (data_length, resource_length) = match runs {
        Some(runs) => (runs.data.length, runs.resource.length),
        None => (0, 0),
    };
    BagHead {
        kind: bag_kind(info.kind),
        finder: info.finder,
        data_length,
        resource_length,
        modified: since_1970(info.modified),
    }
}

/// An item with its host path. Error: memory was refused.
fn came_item(alloc: Global, path: &[Name], info: Info) -> Result<CameItem, AllocError>
    ensures above { IfOk result (λ came. string_bytes came.above
        ≡ folders_text (names_between path.now)) }
    ensures name { IfOk result (λ came. string_bytes came.name ≡ host_name info.name) }
    ensures info { IfOk result (λ came. came.info ≡ info) }
{
    let above = folders_text(alloc, path)?;
    let name = host_name(alloc, info.name.bytes())?;
    Ok(CameItem { above, name, info })
}

/// The data fork of an item, to be read from its first byte. Error: memory was refused.
#[tactic(auto, using(crate::proofs::SourceLemmas::fork_begun))]
fn open_data<S: PlacedBlocks + Drop>(
    alloc: Global,
    image: &SeenImage<S>,
    info: &Info,
) -> Result<ForkReading, AllocError>
    ensures { IfOk result (λ fork. OfEach (S.Holds image.now)
        (λ bytes. fork_rest false bytes fork ≡ fork_told (entries_in bytes) DataFork info.now)) }
{
    match runs_of(alloc, image, info)? {
        Some(runs) => begin_fork(alloc, &runs.data),
        None => Ok(ForkReading::empty(alloc)),
    }
}

/// The resource fork of an item, to be read from its first byte. Error: memory was refused.
#[tactic(auto, using(crate::proofs::SourceLemmas::fork_begun))]
fn open_resource<S: PlacedBlocks + Drop>(
    alloc: Global,
    image: &SeenImage<S>,
    info: &Info,
) -> Result<ForkReading, AllocError>
    ensures { IfOk result (λ fork. OfEach (S.Holds image.now)
        (λ bytes. fork_rest false bytes fork ≡ fork_told (entries_in bytes) ResFork info.now)) }
{
    match runs_of(alloc, image, info)? {
        Some(runs) => begin_fork(alloc, &runs.resource),
        None => Ok(ForkReading::empty(alloc)),
    }
}

/// The table of all items, to be read from its head. Error: memory was refused.
#[tactic(auto, using(crate::proofs::SourceLemmas::table_begun))]
fn open_table<S: PlacedBlocks + Drop>(
    alloc: Global,
    image: &SeenImage<S>,
) -> Result<TableReading, AllocError>
    ensures { IfOk result (λ table. OfEach (S.Holds image.now)
        (λ bytes. table_rest table.is_begun table.rows.left ≡ table_text (told_rows (entries_in bytes)))) }
{
    let rows = image.inventory(alloc)?;
    Ok(TableReading {
        rows,
        is_begun: false,
    })
}

/// A stream of an item, to be read from its first byte. Error: memory was refused.
fn open_stream<S: PlacedBlocks + Drop>(
    alloc: Global,
    image: &SeenImage<S>,
    info: &Info,
    stream: Stream,
) -> Result<Reading, AllocError>
    ensures { IfOk result (λ reading. OfEach (S.Holds image.now)
        (λ bytes. reading_rest bytes reading ≡ stream_told info.now stream bytes)) }
{
    match stream {
        Stream::DataFork => Ok(Reading::Fork(open_data(alloc, image, info)?)),
        Stream::ResourceFork => Ok(Reading::Fork(open_resource(alloc, image, info)?)),
        Stream::Table => Ok(Reading::Table(open_table(alloc, image)?)),
        Stream::Remains => Ok(Reading::Fork(ForkReading::empty(alloc))),
    }
}

/// The items of an image, with these rows left after that of the root.
fn begin<S: PlacedBlocks + Drop>(
    alloc: Global,
    image: SeenImage<S>,
    rows: Inventory,
    root: &Info,
) -> ImageItems<S>
    ensures image { result.source.image ≡ image }
    ensures root { result.root ≡ root.now }
{
    let came = CameItem {
        above: String::new(alloc),
        name: String::new(alloc),
        info: *root,
    };
    let reading = Reading::Fork(ForkReading::empty(alloc));
    ImageItems {
        alloc,
        source: OpenedBlocks { image },
        root: *root,
        rows,
        came,
        reading,
    }
}

/// Why the items of an image can't be given, and the image.
#[derive(Drop)]
pub struct Unbegun<S: PlacedBlocks> {
    /// Why.
    pub fault: SourceFault,
    pub image: SeenImage<S>,
}

impl<S: PlacedBlocks + Drop> ImageItems<S> {
    /// The items of an image. Errors, with the image back: memory was refused; `ReadFailed` where there is no root, as in
    /// no image that holds.
    pub fn new(alloc: Global, image: SeenImage<S>) -> Result<ImageItems<S>, Unbegun<S>>
        ensures image { IfOk result (λ made. made.source.image ≡ image) }
        ensures root { IfOk result (λ made. OfEach (S.Holds image)
            (λ bytes. BeginsWith made.root (told_rows (entries_in bytes)))) }
        ensures back { IfErr result (λ back. back.image ≡ image) }
        ensures fault { IfErr result (λ back. HasFailed WantsMemory (S.Holds image) back.fault) }
    {
        let Ok((rows, root)) = rows_below(alloc, &image) else {
            let fault = SourceFault::Memory;
            return Err(Unbegun { fault, image });
        };
        let Some(info) = root else {
            let fault = SourceFault::ReadFailed;
            return Err(Unbegun { fault, image });
        };
        Ok(begin(alloc, image, rows, &info))
    }

    /// The image, handed back.
    pub fn into_image(self) -> SeenImage<S>
        ensures { result ≡ self.source.image }
    {
        self.source.image
    }
}

impl<S: PlacedBlocks + Drop> BagSource for ImageItems<S> {
    ghost Holds = { λ items. S.Holds items.source.image };

    ghost state = { λ items. source_of items.rows.left items.came items.reading };

    ghost items_left = { λ items. length items.rows.left };

    ghost bytes_left = { λ items. reading_left items.reading };

    ghost Fails = { λ _. ⊤ };

    fn tells_remains(&self) -> bool {
        false
    }

    #[tactic(auto, using(crate::proofs::StateLemmas::has_restarted))]
    fn restart(&mut self) -> Result<(), SourceFault>
        ensures restarted { MatchResult result (λ _. OfEach (S.Holds self.new.source.image)
            (λ bytes. HasRestarted (source_of self.old.rows.left self.old.came self.old.reading bytes) (source_of self.new.rows.left self.new.came self.new.reading bytes))) (λ _. ⊤) }
        ensures narrows { OfEach (S.Holds self.new.source.image) (S.Holds self.old.source.image) }
        ensures fault { IfErr result WantsMemory }
    {
        let Ok((rows, _root)) = rows_below(self.alloc, &self.source.image) else {
            return Err(SourceFault::Memory);
        };
        self.rows = rows;
        Ok(())
    }

    #[tactic(auto, using(crate::proofs::StateLemmas::has_item, crate::proofs::StateLemmas::has_no_item))]
    fn next_item(&mut self) -> Result<Option<BagHead>, SourceFault>
        ensures taken { MatchResult result (λ head. OfEach (S.Holds self.new.source.image)
            (λ bytes. TakesItem (source_of self.old.rows.left self.old.came self.old.reading bytes) (source_of self.new.rows.left self.new.came self.new.reading bytes) head)) (λ _. ⊤) }
        ensures fewer { IfOk result (IsFewer (length self.old.rows.left) (length self.new.rows.left)) }
        ensures narrows { OfEach (S.Holds self.new.source.image) (S.Holds self.old.source.image) }
        ensures fault { IfErr result WantsMemory }
    {
        let Ok(next) = self.rows.next() else {
            return Err(SourceFault::Memory);
        };
        let Some(info) = next else {
            return Ok(None);
        };
        let Ok(came) = came_item(self.alloc, self.rows.path(), info) else {
            return Err(SourceFault::Memory);
        };
        self.came = came;
        let Ok(runs) = runs_of(self.alloc, &self.source.image, &info) else {
            return Err(SourceFault::Memory);
        };
        Ok(Some(head_of(&info, &runs)))
    }

    fn push_above(&self, text: &mut String) -> Result<(), AllocError> {
        text.push_str(self.came.above.as_str())
    }

    fn push_name(&self, text: &mut String) -> Result<(), AllocError> {
        text.push_str(self.came.name.as_str())
    }

    #[tactic(auto, using(crate::proofs::StateLemmas::has_opened))]
    fn open(&mut self, stream: Stream) -> Result<(), SourceFault>
        ensures opened { MatchResult result (λ _. OfEach (S.Holds self.new.source.image)
            (λ bytes. HasOpened stream (source_of self.old.rows.left self.old.came self.old.reading bytes) (source_of self.new.rows.left self.new.came self.new.reading bytes))) (λ _. ⊤) }
        ensures stays { length self.new.rows.left ≡ length self.old.rows.left }
        ensures narrows { OfEach (S.Holds self.new.source.image) (S.Holds self.old.source.image) }
        ensures fault { IfErr result WantsMemory }
    {
        match open_stream(self.alloc, &self.source.image, &self.came.info, stream) {
            Ok(reading) => {
                self.reading = reading;
                Ok(())
            }
            Err(_) => Err(SourceFault::Memory),
        }
    }

    #[tactic(auto, using(crate::proofs::StateLemmas::has_read))]
    fn read(&mut self, piece: &mut Vec<u8>) -> Result<(), SourceFault>
        ensures read { MatchResult result (λ _. OfEach (S.Holds self.new.source.image)
            (λ bytes. HasRead piece.new.items (source_of self.old.rows.left self.old.came self.old.reading bytes) (source_of self.new.rows.left self.new.came self.new.reading bytes))) (λ _. ⊤) }
        ensures fewer { OnOk result (reading_left self.old.reading
            ≡ length piece.new.items + reading_left self.new.reading) }
        ensures stays { length self.new.rows.left ≡ length self.old.rows.left }
        ensures narrows { OfEach (S.Holds self.new.source.image) (S.Holds self.old.source.image) }
        ensures fault { IfErr result (FailsToRead self.old.reading) }
    {
        read_next(self.alloc, &mut self.source, &mut self.reading, piece)
    }
}
