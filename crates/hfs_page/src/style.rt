//! The style of a page.
ghost use Rattle.std.specs.Prelude.{[]};
ghost use Rattle.hfs_page.specs.Markup.{Leads};

/// The style in the head, for light and dark. A wide page has the items in columns, next to the picture; a narrow one has them
/// before it. Uses of blocks differ in contrast and in pattern.
pub fn page_style() -> &'static [u8]
    ensures { Leads [] [] result.now }
{
    b"
:root{color-scheme:light dark;
--paper:#fbfaf7;--ink:#24221f;--faint:#5f5a52;--line:#ddd8ce;--edge:#8a857b;--mark:#2c5f8f;
--p0:#a62f27;--p1:#5d3a77;--p2:#2f6bb0;--p3:#b16916;--p4:#499b7d;--p5:#3a352f;--p6:#efece5}
@media (prefers-color-scheme:dark){:root{
--paper:#191816;--ink:#ece9e3;--faint:#aaa59b;--line:#3b3834;--edge:#79746a;--mark:#8dbbe6;
--p0:#ea8f88;--p1:#cfb5e2;--p2:#5595df;--p3:#b46f20;--p4:#2c785c;--p5:#dfd9cf;--p6:#26241f}}
body{margin:0;background:var(--paper);color:var(--ink);font:1rem/1.5 system-ui,sans-serif}
main{max-width:80rem;margin:0 auto;padding:1rem 1rem 4rem;
overflow-wrap:anywhere;box-sizing:border-box}
h1,h2{font-family:\"Iowan Old Style\",Palatino,\"Palatino Linotype\",Georgia,serif;
font-weight:600;line-height:1.2}
h1{font-size:2.2rem;margin:1rem 0 .5rem;white-space:pre-wrap}
h2{font-size:1.4rem;margin:0 0 1rem}
section{margin-top:2rem;padding-top:1.25rem;border-top:1px solid var(--line);min-width:0}
a{color:var(--mark)}
nav a{margin-right:1rem}
dl{display:grid;grid-template-columns:repeat(auto-fill,minmax(9.5rem,1fr));gap:.6rem 1.5rem;margin:1rem 0 0}
dt{font-size:.875rem}
dd{margin:0;font-variant-numeric:tabular-nums}
dt,#items span,.note,#find,dd:empty,footer{color:var(--faint)}
dd:empty::before{content:\"none\"}
footer{margin-top:2.5rem;font-size:.875rem}
svg{display:block}
#picture{width:100%;max-width:40rem}
rect{stroke:var(--paper);stroke-width:.12}
.p0{fill:url(#k0)}.p1{fill:url(#k1)}.p2{fill:url(#k2)}.p3{fill:url(#k3)}
.p4{fill:var(--p4)}.p5{fill:url(#k5)}.p6{fill:var(--p6);stroke:var(--edge);stroke-width:.08}
.k0{fill:var(--p0)}.k1{fill:var(--p1)}.k2{fill:var(--p2)}.k3{fill:var(--p3)}.k5{fill:var(--p5)}
.cut{stroke:var(--paper);stroke-width:.14;fill:none}
.dot{fill:var(--paper)}
rect:hover{stroke:var(--ink)}
.choosing rect:not(.chosen){opacity:.3}
.chosen{stroke:var(--ink);stroke-width:.2}
.here{stroke:var(--ink);stroke-width:.3;opacity:1!important}
.note{font-size:.9rem;margin:1rem 0 .5rem;max-width:40rem}
ul{list-style:none;margin:0;padding:0}
.legend{display:flex;flex-wrap:wrap;gap:.25rem 1.5rem;font-size:.9rem}
.legend li{display:flex;align-items:center}
.legend svg{flex:none;width:1.1em;height:1.1em;margin-right:.5em}
#chosen{margin:1rem 0 0;min-height:1.5em}
label{display:block}
input{font:inherit;color:var(--ink);background:transparent;
border:1px solid var(--edge);border-radius:.3rem;width:100%;max-width:24rem;box-sizing:border-box;padding:.4rem .6rem}
button{font:inherit;color:var(--mark);background:none;border:0;padding:.25rem 0;margin:0 1rem 0 0;cursor:pointer;text-decoration:underline}
button[data-order=up]::after{content:\" \\2191\"}
button[data-order=down]::after{content:\" \\2193\"}
#heads span{display:none}
#heads.sorts span:has(button){display:inline}
#heads.sorts::before{content:\"Sort by \"}
summary{cursor:pointer}
summary:hover b,#items.chooses li>b:hover{color:var(--mark)}
#items.chooses li>b{cursor:pointer}
#items .picked>b{color:var(--mark);text-decoration:underline}
:focus-visible{outline:2px solid var(--mark);outline-offset:-2px}
#items li{position:relative;padding:.2rem 0;content-visibility:auto;contain-intrinsic-block-size:auto 2rem}
#items li:hover,#items .picked{content-visibility:visible}
#items li[hidden]{display:none}
#items ul{margin-left:.35rem;padding-left:.8rem;border-left:1px solid var(--line)}
#items ul ul ul ul ul ul ul ul{margin:0;padding:0;border:0}
#items b{font-weight:600;white-space:pre-wrap;margin-right:.5em}
#items li>b{display:block}
#items a{color:inherit;text-decoration-color:var(--edge)}
#items a:hover{color:var(--mark)}
#items span{display:inline-block;vertical-align:top;max-height:1.5em;overflow:hidden;white-space:pre;
margin-right:.5em;max-width:11em;font-size:.875rem;line-height:1.5;font-variant-numeric:tabular-nums}
#items span:nth-child(2){max-width:5em}
#items span:nth-child(3){max-width:6em}
#items .picked span{display:block;max-width:none;max-height:none;white-space:pre-line}
@media (max-width:71.99rem){
#chosen:not(:empty){position:fixed;inset:auto 0 0;margin:0;padding:.5rem 1rem;background:var(--paper);border-top:1px solid var(--line)}
}
@media (min-width:72rem){
main{max-width:108rem;padding:2rem 2rem 6rem;display:grid;grid-template-columns:minmax(0,1fr) minmax(25rem,36%);column-gap:3rem}
dl{grid-template-columns:repeat(auto-fill,minmax(12.5rem,1fr))}
h1,nav,dl,footer,script,#extents,main>p{grid-column:1/-1}
#blocks{position:sticky;top:0;align-self:start}
#heads{border-bottom:1px solid var(--line);padding-bottom:.25rem;margin:1rem 0 .25rem}
#heads.sorts::before{content:none}
#heads span,#heads.sorts span:has(button){display:block;color:var(--faint);font-size:.875rem}
button{padding:0;margin:0}
#items summary{position:relative}
#heads,#items summary,#items li:not([hidden]){display:grid;column-gap:1rem;align-items:baseline;
grid-template-columns:minmax(8rem,1fr) 4.75rem 6rem 9.5rem}
#heads,#items li{padding-left:.8rem}
#items ul{margin-left:-.4rem;padding-left:.35rem}
#items ul ul ul ul ul ul ul ul{margin-left:-.8rem}
#items details{grid-column:1/-1;min-width:0}
#items b{margin:0;grid-column:1}
#items span,#items .picked span{display:block;margin:0;max-width:none;max-height:1.5em;white-space:pre;grid-row:1}
#items span:nth-child(n){max-width:none}
#items span:nth-child(2),#heads span:nth-child(2){grid-column:2;text-align:right}
#items span:nth-child(3){grid-column:3}
#items span:nth-child(4){grid-column:4}
#items span:hover{position:absolute;z-index:1;right:0;max-height:none!important;overflow:visible;background:var(--paper);
color:var(--ink);padding:0 .5rem .25rem;box-shadow:0 1px 4px var(--edge)}
#items summary{list-style:none}
#items summary::-webkit-details-marker{display:none}
#items summary::before{content:\"\";position:absolute;left:-.8rem;top:.5rem;
border:.3rem solid transparent;border-left:.45rem solid var(--faint);border-right:0}
#items details[open]>summary::before{transform:rotate(90deg)}
}
"
}
