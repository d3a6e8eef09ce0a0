//! The text of a page before and after its items, and of one that only has a fault.
ghost use Rattle.std.specs.Prelude.{◌≡◌, IfOk, OnOk};
ghost use Rattle.hfs_page.specs.Document.{back_text, end_text, front_text, refused_page, version_text, volume_name};
ghost use Rattle.hfs_page.specs.Facts.{head_text};
ghost use Rattle.hfs_page.specs.Pieces.{Gains};
ghost use Rattle.hfs_page.specs.Texts.{shown};

use crate::cells::Cell;
use crate::escaping::push_escaped;
use crate::extents::push_extents;
use crate::facts::{push_facts, push_head, push_image_rows};
use crate::page_texts::PageTexts;
use crate::parts::Holding;
use crate::picture::push_picture;
use crate::pieces::push_bytes;
use crate::texts::push_shown;
use hfs_catalog::CatalogRecord;
use hfs_fields::Mdb;
use std::alloc::{AllocError, Global};

/// The characters of a name, from its field with a length byte and characters.
fn volume_name(field: &[u8]) -> &[u8]
    ensures { result.now ≡ volume_name field.now }
{
    match field {
        [] => field,
        [len, characters @ ..] => &characters[..characters.len().min(usize::from(*len))],
    }
}

/// The volume's name as text.
fn title(alloc: Global, mdb: &Mdb) -> Result<Vec<u8>, AllocError>
    ensures { IfOk result (λ text. text.items ≡ shown (volume_name mdb.now.volume_name)) }
{
    let mut text = Vec::new(alloc);
    push_shown(alloc, &mut text, volume_name(&mdb.volume_name))?;
    Ok(text)
}

/// Appends the beginning of a volume's page.
fn push_named_head(
    alloc: Global,
    page: &mut Vec<u8>,
    style: &[u8],
    mdb: &Mdb,
) -> Result<(), AllocError>
    ensures { OnOk result (Gains page.old page.new
        (head_text style.now (shown (volume_name mdb.now.volume_name)))) }
{
    let name = title(alloc, mdb)?;
    push_head(page, style, &name)
}

/// Appends everything before the items.
fn push_front(
    alloc: Global,
    page: &mut Vec<u8>,
    texts: &PageTexts<'_>,
    total: u32,
    mdb: &Mdb,
) -> Result<(), AllocError>
    ensures { OnOk result (Gains page.old page.new (front_text texts.now total mdb.now)) }
{
    push_named_head(alloc, page, texts.style, mdb)?;
    push_facts(alloc, page, &texts.image, total, mdb)?;
    push_bytes(page, texts.columns)?;
    push_bytes(page, b"<ul id=\"items\">\n")
}

/// Everything before the items, for an image of `total` blocks.
pub(crate) fn front(
    alloc: Global,
    texts: &PageTexts<'_>,
    total: u32,
    mdb: &Mdb,
) -> Result<Vec<u8>, AllocError>
    ensures { IfOk result (λ text. text.items ≡ front_text texts.now total mdb.now) }
{
    let mut page = Vec::new(alloc);
    push_front(alloc, &mut page, texts, total, mdb)?;
    Ok(page)
}

/// Appends which version of the program printed the page.
#[tactic(auto, unfolding(crate::specs::Document::version_text))]
pub fn push_version(page: &mut Vec<u8>, version: &[u8]) -> Result<(), AllocError>
    ensures { OnOk result (Gains page.old page.new (version_text version.now)) }
{
    push_bytes(page, b"<footer>Printed by hfs_tool ")?;
    push_escaped(page, version)?;
    push_bytes(page, b"</footer>\n")
}

/// Appends the end of a page.
#[tactic(auto, unfolding(crate::specs::Document::end_text))]
fn push_end(page: &mut Vec<u8>, texts: &PageTexts<'_>) -> Result<(), AllocError>
    ensures { OnOk result (Gains page.old page.new (end_text texts.now)) }
{
    push_version(page, texts.version)?;
    push_bytes(page, texts.script)?;
    push_bytes(page, b"</main>\n</body>\n</html>\n")
}

/// Appends everything after the items.
fn push_back(
    alloc: Global,
    page: &mut Vec<u8>,
    texts: &PageTexts<'_>,
    records: &[CatalogRecord],
    holdings: &[Holding],
    cells: &[Cell],
) -> Result<(), AllocError>
    ensures { OnOk result (Gains page.old page.new
        (back_text texts.now records.now holdings.now cells.now)) }
{
    push_bytes(page, b"</ul>\n</section>\n")?;
    push_picture(alloc, page, records, cells)?;
    push_extents(alloc, page, holdings)?;
    push_bytes(page, texts.legend)?;
    push_end(page, texts)
}

/// Everything after the items; `records` are all records of the catalog, `holdings` all extents, and `cells` those of the
/// picture.
pub(crate) fn back(
    alloc: Global,
    texts: &PageTexts<'_>,
    records: &[CatalogRecord],
    holdings: &[Holding],
    cells: &[Cell],
) -> Result<Vec<u8>, AllocError>
    ensures { IfOk result (λ text. text.items ≡
        back_text texts.now records.now holdings.now cells.now) }
{
    let mut page = Vec::new(alloc);
    push_back(alloc, &mut page, texts, records, holdings, cells)?;
    Ok(page)
}

/// Appends the whole page of an image that is refused: what is known of the image, the fault, and what
/// it means.
pub fn push_refused_page(
    page: &mut Vec<u8>,
    texts: &PageTexts<'_>,
    refusal: &[u8],
    meaning: &[u8],
) -> Result<(), AllocError>
    ensures { OnOk result (Gains page.old page.new
        (refused_page texts.now refusal.now meaning.now)) }
{
    push_head(page, texts.style, b"Refused")?;
    push_bytes(page, b"<dl>\n<div><dt>Check</dt><dd>refused</dd></div>\n")?;
    push_image_rows(page, &texts.image)?;
    push_bytes(page, b"</dl>\n<p>")?;
    push_escaped(page, refusal)?;
    push_bytes(page, b"</p>\n<p>")?;
    push_escaped(page, meaning)?;
    push_bytes(page, b"</p>\n")?;
    push_version(page, texts.version)?;
    push_bytes(page, b"</main>\n</body>\n</html>\n")
}
