//! The script of a collection's page, which works without it except for the search.
ghost use Rattle.std.specs.Prelude.{[]};
ghost use Rattle.hfs_page.specs.Markup.{Leads};

/// The script: the search over the lines of volumes.
pub(crate) fn script() -> &'static [u8]
    ensures { Leads [] [] result.now }
{
    b"<script>
\"use strict\";
const found = document.getElementById(\"found\");
const field = document.getElementById(\"search\");
const lists = [...document.querySelectorAll(\"#volumes ul\")];

/* What is read of the lines, once: of each list its lines, with their texts. */
let texts;
const prepare = () => {
  texts ||= lists.map(list => [...list.children].map(line => [line, [...line.children].map(it => it.textContent).join(\"\\n\").toLowerCase()]));
};

/* The search: lines that have what is typed. A list without any goes, too. */
const search = () => {
  prepare();
  const wanted = field.value.toLowerCase();
  let count = 0, all = 0;
  lists.forEach((list, place) => {
    let here = 0;
    for (const [line, text] of texts[place]) {
      const shown = text.includes(wanted);
      here += shown;
      if (line.hidden === shown) line.hidden = !shown;
    }
    list.hidden = !here;
    list.style.setProperty(\"--lines\", here);
    count += here;
    all += texts[place].length;
  });
  found.textContent = wanted ? count + \" of \" + all : \"\";
};
let waiting;
field.addEventListener(\"input\", () => {
  clearTimeout(waiting);
  waiting = setTimeout(search, 150);
});
document.getElementById(\"find\").hidden = false;
</script>
"
}
