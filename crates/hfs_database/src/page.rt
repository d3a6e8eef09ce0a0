//! The page of a collection, from the rows of its volumes and contents.
ghost use Rattle.std.specs.Prelude.{◌≡◌, IfOk, OnOk};
ghost use Rattle.hfs_page.specs.Escapes.{escaped};
ghost use Rattle.hfs_page.specs.Pieces.{Gains};
ghost use Rattle.hfs_database.specs.Pages.{collection_page, end_text, front_text, style_text};

use crate::collection_texts::CollectionTexts;
use crate::lines::{push_contents, push_volumes};
use hfs_page::{push_bytes, push_escaped, push_head};
use sqlite::Row;
use std::alloc::{AllocError, Global};

/// The name of the database in markup.
fn escaped_name(alloc: Global, name: &[u8]) -> Result<Vec<u8>, AllocError>
    ensures { IfOk result (λ text. text.items ≡ escaped name.now) }
{
    let mut text = Vec::new(alloc);
    push_escaped(&mut text, name)?;
    Ok(text)
}

/// The style of the page.
fn style_text(alloc: Global, texts: &CollectionTexts<'_>) -> Result<Vec<u8>, AllocError>
    ensures { IfOk result (λ text. text.items ≡ style_text texts.now) }
{
    let mut text = Vec::new(alloc);
    push_bytes(&mut text, texts.shared_style)?;
    push_bytes(&mut text, texts.style)?;
    Ok(text)
}

/// Appends everything before the volumes.
#[tactic(auto, unfolding(crate::specs::Pages::front_text))]
fn push_front(
    alloc: Global,
    page: &mut Vec<u8>,
    texts: &CollectionTexts<'_>,
) -> Result<(), AllocError>
    ensures { OnOk result (Gains page.old page.new (front_text texts.now)) }
{
    let name = escaped_name(alloc, texts.name)?;
    let style = style_text(alloc, texts)?;
    push_head(page, &style, &name)?;
    push_bytes(page, texts.columns)
}

/// Appends everything after the lines of contents.
fn push_end(page: &mut Vec<u8>, texts: &CollectionTexts<'_>) -> Result<(), AllocError>
    ensures { OnOk result (Gains page.old page.new (end_text texts.now)) }
{
    push_bytes(page, b"</ul>\n</section>\n<footer>Printed by hfs_collect ")?;
    push_escaped(page, texts.version)?;
    push_bytes(page, b"</footer>\n")?;
    push_bytes(page, texts.script)?;
    push_bytes(page, b"</main>\n</body>\n</html>\n")?;
    Ok(())
}

/// Appends the page of a collection with these rows.
#[tactic(auto, unfolding(crate::specs::Pages::collection_page))]
fn push_page(
    alloc: Global,
    page: &mut Vec<u8>,
    texts: &CollectionTexts<'_>,
    volumes: &[Row],
    contents: &[Row],
) -> Result<(), AllocError>
    ensures { OnOk result (Gains page.old page.new
        (collection_page texts.now volumes.now contents.now)) }
{
    push_front(alloc, page, texts)?;
    push_volumes(alloc, page, texts.base, volumes)?;
    push_bytes(page, texts.between)?;
    push_contents(page, contents)?;
    push_end(page, texts)
}

/// The page of a collection with these rows of volumes and of contents, each once, in order. A row has the texts that a listing
/// of its database gives; what is not text is left out. Fails only when out of memory.
pub fn collection_page(
    alloc: Global,
    texts: &CollectionTexts<'_>,
    volumes: &[Row],
    contents: &[Row],
) -> Result<Vec<u8>, AllocError>
    ensures { IfOk result (λ page. page.items ≡
        collection_page texts.now volumes.now contents.now) }
{
    let mut page = Vec::new(alloc);
    push_page(alloc, &mut page, texts, volumes, contents)?;
    Ok(page)
}
