//! The style of a collection's page, besides that of all pages.
ghost use Rattle.std.specs.Prelude.{[]};
ghost use Rattle.hfs_page.specs.Markup.{Leads};

/// The style after that of all pages. Volumes are in lists of 100 lines, of which a browser lays out only those that are seen; a
/// wide page has them in columns.
pub(crate) fn style() -> &'static [u8]
    ensures { Leads [] [] result.now }
{
    b"main{display:block;max-width:108rem}
output{color:var(--faint);font-size:.875rem}
ul[hidden],.lines li[hidden]{display:none}
.lines ul{content-visibility:auto;contain-intrinsic-block-size:calc(var(--lines,100)*5rem)}
.lines li{padding:.35rem 0;border-top:1px solid var(--line)}
.lines b{display:block;font-weight:600;white-space:pre-wrap}
.lines a{color:inherit;text-decoration-color:var(--edge)}
.lines a:hover{color:var(--mark)}
.lines span{display:inline-block;color:var(--faint);font-size:.875rem;font-variant-numeric:tabular-nums;white-space:pre-wrap}
.lines span:not(:empty){margin-right:1em}
@media (min-width:72rem){
.lines ul{contain-intrinsic-block-size:calc(var(--lines,100)*2.3rem)}
.lines li:not([hidden]){display:grid;column-gap:.75rem;align-items:baseline;
grid-template-columns:minmax(12rem,5fr) minmax(7rem,2fr) 5.25rem 6rem 6.25rem 9rem 9.75rem minmax(6rem,2fr)}
#contents li{grid-template-columns:minmax(12rem,3fr) 7rem 9rem minmax(12rem,4fr)!important}
.lines span:not(:empty){margin:0}
}
"
}
