//! The text of a page of remains before and after its items.
ghost use Rattle.std.specs.Prelude.{◌≡◌, IfOk, OnOk};
ghost use Rattle.hfs_page.specs.Facts.{head_text};
ghost use Rattle.hfs_page.specs.Pieces.{Gains};
ghost use Rattle.hfs_page.specs.Texts.{shown};
ghost use Rattle.hfs_rescue_items.specs.Found as names;
ghost use Rattle.hfs_rescue_items.specs.Sums.{AreSums};
ghost use Rattle.hfs_remains_page.specs.Pages as spec;

use crate::facts::{push_facts, push_fault};
use crate::pictures::{TreeFiles, cells_of, holdings_of, push_picture};
use crate::remains_texts::{FaultTexts, RemainsTexts};
use hfs_page::{Cell, Holding, push_bytes, push_extents, push_head, push_shown, push_version};
use hfs_remains::FoundRecord;
use hfs_rescue_items::{Found, FoundSums, field_name, sums_of};
use std::alloc::{AllocError, Global};

/// The volume's name as text.
fn title(alloc: Global, found: &Found<'_>) -> Result<Vec<u8>, AllocError>
    ensures { IfOk result (λ text. text.items ≡ shown (names.field_name found.now.mdb.now.volume_name)) }
{
    let mut text = Vec::new(alloc);
    push_shown(alloc, &mut text, field_name(&found.mdb.volume_name))?;
    Ok(text)
}

/// The style of the page.
fn style_text(alloc: Global, texts: &RemainsTexts<'_>) -> Result<Vec<u8>, AllocError>
    ensures { IfOk result (λ text. text.items ≡ spec.style_text texts.now) }
{
    let mut text = Vec::new(alloc);
    push_bytes(&mut text, texts.page.style)?;
    push_bytes(&mut text, texts.style)?;
    Ok(text)
}

/// Appends the beginning of the page, with the volume's name.
fn push_named_head(
    alloc: Global,
    page: &mut Vec<u8>,
    texts: &RemainsTexts<'_>,
    found: &Found<'_>,
) -> Result<(), AllocError>
    ensures { OnOk result (Gains page.old page.new (head_text (spec.style_text texts.now)
        (shown (names.field_name found.now.mdb.now.volume_name)))) }
{
    let style = style_text(alloc, texts)?;
    let title = title(alloc, found)?;
    push_head(page, &style, &title)
}

/// Appends everything before the items.
fn push_front(
    alloc: Global,
    page: &mut Vec<u8>,
    texts: &RemainsTexts<'_>,
    fault: &FaultTexts<'_>,
    found: &Found<'_>,
    sums: &FoundSums,
) -> Result<(), AllocError>
    requires { AreSums found.now sums.now }
    ensures { OnOk result (Gains page.old page.new
        (spec.front_text texts.now fault.now.refusal.now fault.now.meaning.now found.now)) }
{
    push_named_head(alloc, page, texts, found)?;
    push_fault(page, fault)?;
    push_facts(alloc, page, &texts.page.image, found, sums)?;
    push_bytes(page, texts.columns)?;
    push_bytes(page, b"<ul id=\"items\">\n")
}

/// Everything before the items.
pub(crate) fn front(
    alloc: Global,
    texts: &RemainsTexts<'_>,
    fault: &FaultTexts<'_>,
    found: &Found<'_>,
) -> Result<Vec<u8>, AllocError>
    ensures { IfOk result (λ text. text.items
        ≡ spec.front_text texts.now fault.now.refusal.now fault.now.meaning.now found.now) }
{
    let sums = sums_of(alloc, found)?;
    let mut page = Vec::new(alloc);
    push_front(alloc, &mut page, texts, fault, found, &sums)?;
    Ok(page)
}

/// Appends the end of a page.
#[tactic(auto, unfolding(crate::specs::Pages::end_text))]
fn push_end(page: &mut Vec<u8>, texts: &RemainsTexts<'_>) -> Result<(), AllocError>
    ensures { OnOk result (Gains page.old page.new (spec.end_text texts.now)) }
{
    push_version(page, texts.page.version)?;
    push_bytes(page, texts.page.script)?;
    push_bytes(page, b"</main>\n</body>\n</html>\n")
}

/// Appends everything after the items.
fn push_back(
    alloc: Global,
    page: &mut Vec<u8>,
    texts: &RemainsTexts<'_>,
    items: &[FoundRecord],
    holdings: &[Holding],
    cells: &[Cell],
) -> Result<(), AllocError>
    ensures { OnOk result (Gains page.old page.new
        (spec.back_by texts.now items.now holdings.now cells.now)) }
{
    push_bytes(page, b"</ul>\n</section>\n")?;
    push_picture(alloc, page, items, cells)?;
    push_extents(alloc, page, holdings)?;
    push_bytes(page, texts.legend)?;
    push_end(page, texts)
}

/// Everything after the items.
pub(crate) fn back(
    alloc: Global,
    texts: &RemainsTexts<'_>,
    found: &Found<'_>,
    files: TreeFiles<'_>,
) -> Result<Vec<u8>, AllocError>
    requires extents { files.extents.now ≡ found.now.salvage.now.trees.extents_file.now }
    requires catalog { files.catalog.now ≡ found.now.salvage.now.trees.catalog_file.now }
    ensures { IfOk result (λ text. text.items ≡ spec.back_text texts.now found.now) }
{
    let holdings = holdings_of(alloc, found, files)?;
    let cells = cells_of(alloc, found, &holdings)?;
    let mut page = Vec::new(alloc);
    push_back(alloc, &mut page, texts, found.items, &holdings, &cells)?;
    Ok(page)
}
