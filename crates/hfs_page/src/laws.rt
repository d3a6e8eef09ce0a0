//! What holds for the definitions, each law as the contract of a function that does nothing; a caller learns it by calling it.
ghost use Rattle.hfs_page.specs.Escapes.{escaped};
ghost use Rattle.hfs_page.specs.Laws.{AreTexts};
ghost use Rattle.hfs_page.specs.Nested.{RefusedPagesNest, VolumePagesNest};

/// The law of escaped texts: reading one as markup gives the text and nothing else. No byte of it is `<`, `>`, `"` or `'`, and
/// each `&` begins one of the five references.
pub fn escaped_texts_are_text()
    ensures { AreTexts escaped }
{}

/// The markup of each volume's page nests: each element that begins ends, the innermost first.
pub fn volume_pages_nest()
    ensures { VolumePagesNest }
{}

/// So does the markup of the page of a refused image.
pub fn refused_pages_nest()
    ensures { RefusedPagesNest }
{}
