//! A source of a bag that reports to a watch.
ghost use Rattle.std.specs.Prelude.{◌≡◌};

use crate::item::{BagHead, BagKind};
use crate::source::{BagSource, SourceFault, Stream};
use crate::watch::Watch;
use std::alloc::AllocError;

/// A source of a bag that reports each item to a watch when it comes, and the bytes that are read of it.
#[derive(Drop)]
pub struct WatchedItems<'w, B: BagSource, W: Watch> {
    /// The source that is watched.
    pub items: B,
    watch: &'w W,
    /// How many items have come, and how many there are.
    count: u64,
    all: u64,
}

/// How many bytes an item's forks have; None for a folder alone, which may be one that an item lies in.
fn item_bytes(head: &Option<BagHead>) -> Option<u64> {
    match head {
        Some(head) if head.kind != BagKind::FolderAlone => {
            Some(u64::from(head.data_length) + u64::from(head.resource_length))
        }
        Some(_) | None => None,
    }
}

/// Reports one more item to a watch.
fn tell<W: Watch>(watch: &W, count: &mut u64, all: u64, bytes: u64) {
    *count = count.saturating_add(1);
    watch.began(*count, all, bytes);
}

impl<'w, B: BagSource, W: Watch> WatchedItems<'w, B, W> {
    /// A source of `all` items.
    pub fn new(items: B, watch: &'w W, all: u64) -> WatchedItems<'w, B, W>
        ensures { result.items ≡ items }
    {
        WatchedItems {
            items,
            watch,
            count: 0,
            all,
        }
    }

    /// The source that was watched.
    pub fn into_items(self) -> B
        ensures { result ≡ self.entry.items }
    {
        let WatchedItems {
            items,
            watch: _,
            count: _,
            all: _,
        } = self;
        items
    }
}

impl<B: BagSource, W: Watch> BagSource for WatchedItems<'_, B, W> {
    ghost Holds = { λ watched. B.Holds watched.items };

    ghost state = { λ watched. B.state watched.items };

    ghost items_left = { λ watched. B.items_left watched.items };

    ghost bytes_left = { λ watched. B.bytes_left watched.items };

    ghost Fails = { B.Fails };

    fn tells_remains(&self) -> bool {
        self.items.tells_remains()
    }

    fn restart(&mut self) -> Result<(), SourceFault> {
        self.items.restart()
    }

    fn next_item(&mut self) -> Result<Option<BagHead>, SourceFault> {
        let head = self.items.next_item()?;
        if let Some(bytes) = item_bytes(&head) {
            tell(self.watch, &mut self.count, self.all, bytes);
        }
        Ok(head)
    }

    fn push_above(&self, text: &mut String) -> Result<(), AllocError> {
        self.items.push_above(text)
    }

    fn push_name(&self, text: &mut String) -> Result<(), AllocError> {
        self.items.push_name(text)
    }

    fn open(&mut self, stream: Stream) -> Result<(), SourceFault> {
        self.items.open(stream)
    }

    fn read(&mut self, piece: &mut Vec<u8>) -> Result<(), SourceFault> {
        self.items.read(piece)?;
        self.watch.bytes_came(piece.len() as u64);
        Ok(())
    }
}
