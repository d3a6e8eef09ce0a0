//! What all pages of remains have in common: what pages of sound disks have, and some lines of their own.
ghost use Rattle.std.specs.Prelude.{◌≡◌, [], ◌∷◌, codes};
ghost use Rattle.hfs_page.specs.Markup.{Leads};
ghost use Rattle.hfs_remains_page.specs.Dress.{IsRemainsDress};

use crate::remains_texts::RemainsTexts;
use hfs_page::{PageImage, standard_texts};

/// The style after that of all pages of disks. A wide page has the verdicts on forks in a column next to the others, a narrow one
/// in a line below them.
fn style() -> &'static [u8]
    ensures { Leads [] [] result.now }
{
    b"#items em{font-style:normal;font-size:.875rem;line-height:1.5;color:var(--faint);display:block}
#items em.damaged{color:var(--p0)}
main>p{margin:.25rem 0}
h1+p{font-weight:600}
@media (min-width:72rem){
main{grid-template-columns:minmax(0,1fr) minmax(22rem,30%)}
#heads,#items summary,#items li:not([hidden]){grid-template-columns:minmax(8rem,1fr) 4.75rem 6rem 9.5rem 9.75rem}
#items em{grid-column:5;grid-row:1;max-height:none}
#items summary em{grid-column:1/-1;grid-row:2}
#heads span:nth-child(5){grid-column:5}
}
"
}

/// The heading of the items, the search field, which the script shows, the heads of the items' columns, and what verdicts on
/// forks mean.
fn columns() -> &'static [u8]
    ensures { Leads [] (codes "section" ∷ []) result.now }
{
    b"<section id=\"list\">
<h2>Items</h2>
<p class=\"note\">A fork is whole where all its blocks are there and no other has them; what they hold nobody can check. cut tells for how many
bytes alone there are blocks, missing how many bytes are zeros for want of blocks, shared that a block is another's too, left that the
fork is too long to be taken.</p>
<p id=\"find\" hidden><label for=\"search\">Search names, types and creators</label>
<input id=\"search\" type=\"search\" autocomplete=\"off\"> <output id=\"found\" for=\"search\"></output></p>
<p id=\"heads\"><span>Name</span><span>Size</span><span>Type, creator</span><span>Modified</span><span>Forks</span></p>
"
}

/// Where the script says what was chosen, what the picture shows, the legend, and the patterns of the squares.
fn legend() -> &'static [u8]
    ensures { Leads (codes "section" ∷ []) [] result.now }
{
    b"<p id=\"chosen\"></p>
<p class=\"note\">Each square is an allocation block, or several where the disk has more than 4,096. It
shows the first of these uses that one of its blocks has, as far as they were found.</p>
<ul class=\"legend\">
<li><svg viewBox=\"0 0 1 1\" aria-hidden=\"true\"><rect width=\"1\" height=\"1\" class=\"p1\"></rect></svg>extents tree</li>
<li><svg viewBox=\"0 0 1 1\" aria-hidden=\"true\"><rect width=\"1\" height=\"1\" class=\"p2\"></rect></svg>catalog</li>
<li><svg viewBox=\"0 0 1 1\" aria-hidden=\"true\"><rect width=\"1\" height=\"1\" class=\"p3\"></rect></svg>later pieces of files</li>
<li><svg viewBox=\"0 0 1 1\" aria-hidden=\"true\"><rect width=\"1\" height=\"1\" class=\"p4\"></rect></svg>first pieces of files</li>
<li><svg viewBox=\"0 0 1 1\" aria-hidden=\"true\"><rect width=\"1\" height=\"1\" class=\"p6\"></rect></svg>nothing that was found</li>
</ul>
<svg width=\"0\" height=\"0\" aria-hidden=\"true\">
<pattern id=\"k1\" width=\"1\" height=\"1\" patternUnits=\"userSpaceOnUse\"><path class=\"k1\" d=\"M0 0h1v1h-1z\"></path><path class=\"cut\" d=\"M0 .35h1M0 .65h1\"></path></pattern>
<pattern id=\"k2\" width=\"1\" height=\"1\" patternUnits=\"userSpaceOnUse\"><path class=\"k2\" d=\"M0 0h1v1h-1z\"></path><path class=\"cut\" d=\"M.35 0v1M.65 0v1\"></path></pattern>
<pattern id=\"k3\" width=\"1\" height=\"1\" patternUnits=\"userSpaceOnUse\"><path class=\"k3\" d=\"M0 0h1v1h-1z\"></path><path class=\"cut\" d=\"M0 1l1-1\"></path></pattern>
</svg>
</section>
"
}

/// The texts that this version of the program prints on all pages of remains, for the page of this image.
pub fn found_texts<'a>(version: &'a [u8], image: PageImage<'a>) -> RemainsTexts<'a>
    ensures version { result.page.version.now ≡ version.now }
    ensures image { result.page.image ≡ image.entry }
    ensures dress { IsRemainsDress result }
{
    RemainsTexts {
        page: standard_texts(version, image),
        style: style(),
        columns: columns(),
        legend: legend(),
    }
}
