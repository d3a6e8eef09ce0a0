//! What all collections' pages have in common. A page loads nothing from elsewhere, and works without its script.
ghost use Rattle.std.specs.Prelude.{◌≡◌, [], ◌∷◌, codes};
ghost use Rattle.hfs_page.specs.Markup.{Leads};
ghost use Rattle.hfs_database.specs.Nested.{IsCollectionDress};

use crate::collection_texts::CollectionTexts;
use crate::script::script;
use crate::style::style;
use hfs_page::page_style;

/// Links to both parts, the heading of the volumes, and the search field, which the script shows.
fn columns() -> &'static [u8]
    ensures { Leads [] (codes "ul" ∷ codes "div" ∷ codes "section" ∷ []) result.now }
{
    b"<nav aria-label=\"On this page\"><a href=\"#list\">Volumes</a><a href=\"#contents\">Files on several volumes</a></nav>
<section id=\"list\" class=\"lines\">
<h2>Volumes</h2>
<p id=\"find\" hidden><label for=\"search\">Search images, names, dates and verdicts</label>
<input id=\"search\" type=\"search\" autocomplete=\"off\"> <output id=\"found\" for=\"search\"></output></p>
<div id=\"volumes\">
<ul>
"
}

/// What comes between the volumes and the contents.
fn between() -> &'static [u8]
    ensures { Leads (codes "ul" ∷ codes "div" ∷ codes "section" ∷ []) (codes "ul" ∷ codes "section" ∷ [])
        result.now }
{
    b"</ul>
</div>
</section>
<section id=\"contents\" class=\"lines\">
<h2>Files on several volumes</h2>
<p class=\"note\">The contents of forks that lie on most volumes, 1,000 at most, each by one of its paths.</p>
<ul>
"
}

/// The texts that this version of the program prints on all collections' pages, for the database with this name, with links to
/// the pages of disks below this URL.
pub fn standard_texts<'a>(
    version: &'a [u8],
    name: &'a [u8],
    base: Option<&'a [u8]>,
) -> CollectionTexts<'a>
    ensures version { result.version.now ≡ version.now }
    ensures name { result.name.now ≡ name.now }
    ensures base { result.base ≡ base.entry }
    ensures dress { IsCollectionDress result }
{
    CollectionTexts {
        shared_style: page_style(),
        style: style(),
        columns: columns(),
        between: between(),
        script: script(),
        version,
        name,
        base,
    }
}
