//! What is written can be read back.
ghost use Rattle.std.specs.Prelude.{◌≡◌, ◌≤◌, ℕ, List, length};
ghost use Rattle.hfs_texts.specs.HostNames.{host_name};
ghost use Rattle.hfs_texts.specs.PlainTexts.{plain_text};
ghost use Rattle.hfs_encodings.specs.Laws.{AreHostNamesRead, IsAppleDoubleReadBack, IsPlainTextRead, IsReadBack};

use crate::{AppleDoubleHead, MacBinaryHead};

/// The laws of host names that are read back: every nonempty name, whatever its bytes, comes back from its host name, so each
/// item name does; and the name that an item gets in place of letters that are no item name is an item name.
pub fn host_item_name_laws()
    ensures { AreHostNamesRead host_name }
{}

/// The laws of plain text that is read back: any bytes come back from their plain text, so each item name does.
pub fn plain_text_laws()
    ensures { IsPlainTextRead plain_text }
{}

/// The law of MacBinary: header and forks come back from the file that is written from them, if it has a name.
pub fn macbinary_read_back(head: MacBinaryHead)
    ensures { (data_fork resource_fork : List ℕ) → 1 ≤ length head.name
        → length data_fork ≡ head.data_length → length resource_fork ≡ head.resource_length
        → IsReadBack head data_fork resource_fork }
{
    let _bytes = head.bytes();
}

/// The law of AppleDouble: Finder bytes and resource fork come back from the file that is written from them.
pub fn apple_double_read_back(head: AppleDoubleHead)
    ensures { (fork : List ℕ) → length fork ≡ head.resource_length
        → IsAppleDoubleReadBack head fork }
{
    let _bytes = head.bytes();
}
