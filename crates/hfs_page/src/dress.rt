//! What all pages have in common. A page loads nothing from elsewhere, and works without its script.
ghost use Rattle.std.specs.Prelude.{◌≡◌, [], ◌∷◌, codes};
ghost use Rattle.hfs_page.specs.Dress.{IsDress};
ghost use Rattle.hfs_page.specs.Markup.{Leads};

use crate::page_image::PageImage;
use crate::page_texts::PageTexts;
use crate::script::script;
use crate::style::page_style;

/// The heading of the items, the search field, which the script shows, and the heads of the items' columns, which the script
/// turns into buttons.
fn columns() -> &'static [u8]
    ensures { Leads [] (codes "section" ∷ []) result.now }
{
    b"<section id=\"list\">
<h2>Items</h2>
<p id=\"find\" hidden><label for=\"search\">Search names, types and creators</label>
<input id=\"search\" type=\"search\" autocomplete=\"off\"> <output id=\"found\" for=\"search\"></output></p>
<p id=\"heads\"><span>Name</span><span>Size</span><span>Type, creator</span><span>Modified</span></p>
"
}

/// Where the script says what was chosen, what the picture shows, the legend, and the patterns of
/// the squares.
fn legend() -> &'static [u8]
    ensures { Leads (codes "section" ∷ []) [] result.now }
{
    b"<p id=\"chosen\"></p>
<p class=\"note\">Each square is an allocation block, or several where the disk has more than 4,096. It
shows the first of these uses that one of its blocks has.</p>
<ul class=\"legend\">
<li><svg viewBox=\"0 0 1 1\" aria-hidden=\"true\"><rect width=\"1\" height=\"1\" class=\"p0\"></rect></svg>bad blocks</li>
<li><svg viewBox=\"0 0 1 1\" aria-hidden=\"true\"><rect width=\"1\" height=\"1\" class=\"p1\"></rect></svg>extents tree</li>
<li><svg viewBox=\"0 0 1 1\" aria-hidden=\"true\"><rect width=\"1\" height=\"1\" class=\"p2\"></rect></svg>catalog</li>
<li><svg viewBox=\"0 0 1 1\" aria-hidden=\"true\"><rect width=\"1\" height=\"1\" class=\"p3\"></rect></svg>later extents of files</li>
<li><svg viewBox=\"0 0 1 1\" aria-hidden=\"true\"><rect width=\"1\" height=\"1\" class=\"p4\"></rect></svg>first extents of files</li>
<li><svg viewBox=\"0 0 1 1\" aria-hidden=\"true\"><rect width=\"1\" height=\"1\" class=\"p5\"></rect></svg>marked, and nobody has them</li>
<li><svg viewBox=\"0 0 1 1\" aria-hidden=\"true\"><rect width=\"1\" height=\"1\" class=\"p6\"></rect></svg>free</li>
</ul>
<svg width=\"0\" height=\"0\" aria-hidden=\"true\">
<pattern id=\"k0\" width=\"1\" height=\"1\" patternUnits=\"userSpaceOnUse\"><path class=\"k0\" d=\"M0 0h1v1h-1z\"></path><path class=\"cut\" d=\"M0 0l1 1M1 0l-1 1\"></path></pattern>
<pattern id=\"k1\" width=\"1\" height=\"1\" patternUnits=\"userSpaceOnUse\"><path class=\"k1\" d=\"M0 0h1v1h-1z\"></path><path class=\"cut\" d=\"M0 .35h1M0 .65h1\"></path></pattern>
<pattern id=\"k2\" width=\"1\" height=\"1\" patternUnits=\"userSpaceOnUse\"><path class=\"k2\" d=\"M0 0h1v1h-1z\"></path><path class=\"cut\" d=\"M.35 0v1M.65 0v1\"></path></pattern>
<pattern id=\"k3\" width=\"1\" height=\"1\" patternUnits=\"userSpaceOnUse\"><path class=\"k3\" d=\"M0 0h1v1h-1z\"></path><path class=\"cut\" d=\"M0 1l1-1\"></path></pattern>
<pattern id=\"k5\" width=\"1\" height=\"1\" patternUnits=\"userSpaceOnUse\"><path class=\"k5\" d=\"M0 0h1v1h-1z\"></path><path class=\"dot\" d=\"M.35 .35h.3v.3h-.3z\"></path></pattern>
</svg>
</section>
"
}

/// The texts that this version of the program prints on all pages, for the page of this image.
pub fn standard_texts<'a>(version: &'a [u8], image: PageImage<'a>) -> PageTexts<'a>
    ensures version { result.version.now ≡ version.now }
    ensures image { result.image ≡ image.entry }
    ensures dress { IsDress result }
{
    PageTexts {
        style: page_style(),
        columns: columns(),
        legend: legend(),
        script: script(),
        version,
        image,
    }
}
