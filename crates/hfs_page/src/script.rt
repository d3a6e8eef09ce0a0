//! The script of a page, which works without it except for these things. It has no `<`, so that each reader of markup finds its
//! end.
ghost use Rattle.std.specs.Prelude.{[]};
ghost use Rattle.hfs_page.specs.Markup.{Leads};

/// The script: it searches names, types and creators, sorts the items of each folder, marks the blocks of a file that is chosen,
/// and moves from square to square with the arrow keys.
pub(crate) fn script() -> &'static [u8]
    ensures { Leads [] [] result.now }
{
    b"<script>
\"use strict\";
const found = document.getElementById(\"found\");
const field = document.getElementById(\"search\");
const list = document.getElementById(\"items\");
const heads = document.getElementById(\"heads\");
const picture = document.getElementById(\"picture\");
const chosen = document.getElementById(\"chosen\");
const squares = picture.getElementsByTagName(\"rect\");
const cells = row => row.firstElementChild.localName === \"b\" ? row.children : row.firstElementChild.firstElementChild.children;
const isFile = row => row.firstElementChild.localName === \"b\" && row.children[1].textContent.endsWith(\")\");

/* What is read of the items, once: the last of a folder before the folder. */
let items;
const prepare = () => {
  if (items) return;
  items = [...list.getElementsByTagName(\"li\")].map((row, order) => {
    const [name, size, kind, date] = cells(row);
    const [data, resource] = isFile(row) ? size.textContent.match(/\\d+(?= bytes)/g) : [-1, 0];
    const type = isFile(row) ? kind.textContent.split(\"\\n\")[0] : \"\";
    return { row, order, text: (name.textContent + \"\\n\" + type).toLowerCase(), size: +data + +resource,
      date: date ? date.textContent : \"\", folder: row.parentElement.closest(\"li\") };
  }).reverse();
};

/* The search: items whose name or type and creator have what is typed, and the folders in which they lie. These are
   opened, but where so many items are found that a browser would take seconds to lay them out. */
const mostOpened = 1000;
const opened = new Set();
const search = () => {
  prepare();
  const wanted = field.value.toLowerCase();
  const kept = new Set();
  const count = items.filter(({ text }) => text.includes(wanted)).length;
  const opens = wanted && mostOpened >= count;
  for (const folder of opened) folder.open = false;
  opened.clear();
  for (const { row, text, folder } of items) {
    const below = kept.has(row);
    const shown = below || text.includes(wanted);
    if (shown) kept.add(folder);
    if (row.hidden === shown) row.hidden = !shown;
    const details = row.firstElementChild;
    if (opens && below && !details.open) {
      details.open = true;
      opened.add(details);
    }
  }
  found.textContent = wanted ? count + \" of \" + items.length + (opens ? \"\" : \"; folders stay as they are\") : \"\";
};
let waiting;
field.addEventListener(\"input\", () => {
  clearTimeout(waiting);
  waiting = setTimeout(search, 150);
});

/* The order of the items in each folder: by name as they came, by size and by date the largest and the latest first. */
const orders = {
  Name: [\"up\", (a, b) => a.order - b.order],
  Size: [\"down\", (a, b) => a.size - b.size || b.order - a.order],
  Modified: [\"down\", (a, b) => b.date > a.date ? -1 : a.date > b.date ? 1 : b.order - a.order]
};
const sort = (by, order) => {
  prepare();
  const compare = orders[by][1];
  const folders = new Map();
  for (const item of items) {
    const others = folders.get(item.folder);
    if (others) others.push(item);
    else folders.set(item.folder, [item]);
  }
  const next = list.nextSibling;
  const above = list.parentElement;
  list.remove();
  for (const inside of folders.values()) {
    inside.sort(order === \"up\" ? compare : (a, b) => compare(b, a));
    const parent = inside[0].row.parentElement;
    for (const { row } of inside) parent.append(row);
  }
  above.insertBefore(list, next);
  for (const button of heads.getElementsByTagName(\"button\")) {
    button.dataset.order = button.textContent === by ? order : \"\";
    button.setAttribute(\"aria-pressed\", button.textContent === by);
  }
};
for (const head of [...heads.children]) {
  const by = head.textContent;
  if (!orders[by]) continue;
  const button = document.createElement(\"button\");
  button.textContent = by;
  button.title = \"Sort by \" + by.toLowerCase() + \" within folders\";
  button.setAttribute(\"aria-pressed\", by === \"Name\");
  button.dataset.order = by === \"Name\" ? \"up\" : \"\";
  button.addEventListener(\"click\", () => {
    const first = orders[by][0];
    sort(by, button.dataset.order === first ? (first === \"up\" ? \"down\" : \"up\") : first);
  });
  head.replaceChildren(button);
}
heads.className = \"sorts\";

/* The blocks of each file, by its number: first blocks and counts. */
let extents;
const extentsOf = row => {
  if (!extents) {
    extents = new Map();
    for (const [, file, first, count] of document.getElementById(\"extents\").textContent.matchAll(/(\\d+):(\\d+)\\+(\\d+)/g)) {
      const others = extents.get(file) || [];
      others.push([+first, +count]);
      extents.set(file, others);
    }
  }
  return extents.get(row.id.slice(1)) || [];
};
const title = place => squares[place].textContent;
const width = () => squares.length > 1 ? +title(1).match(/\\d+/)[0] : 1;

/* A file that is chosen has its squares marked. */
let row;
const mark = (name, is) => {
  for (const it of [...picture.getElementsByClassName(name)]) it.classList.remove(name);
  for (const place of is) squares[place].classList.add(name);
};
const choose = other => {
  if (row) row.className = \"\";
  row = other;
  const places = new Set();
  let text = \"\";
  if (row) {
    row.className = \"picked\";
    const all = extentsOf(row);
    for (const [first, count] of all) {
      for (let place = Math.floor(first / width()); Math.floor((first + count - 1) / width()) >= place; place++) places.add(place);
    }
    const blocks = all.reduce((sum, [, count]) => sum + count, 0);
    text = row.firstElementChild.textContent + \": \" + (blocks ? blocks + (blocks === 1 ? \" block\" : \" blocks\") + \" in \" + all.length + (all.length === 1 ? \" piece\" : \" pieces\") : \"no blocks\");
    if (all.length && 9 > all.length) text += \", \" + all.map(([first, count]) => count > 1 ? first + \" to \" + (first + count - 1) : first).join(\", \");
  }
  mark(\"chosen\", places);
  picture.classList.toggle(\"choosing\", places.size > 0);
  chosen.textContent = text;
};
const toggle = other => choose(other === row ? undefined : other);

/* The keyboard reaches a file by its link, or else by its name. Of a large folder each name is made ready as it comes into sight. */
const mostReady = 1000;
const ready = row => {
  const name = row.firstElementChild;
  if (name.localName !== \"b\" || name.tabIndex === 0 || name.firstElementChild || !isFile(row)) return;
  name.tabIndex = 0;
  name.setAttribute(\"role\", \"button\");
};
const reach = folder => {
  if (!folder.open) return;
  const rows = folder.lastElementChild.children;
  for (let k = 0; rows.length > k && mostReady > k; k++) ready(rows[k]);
};
list.addEventListener(\"toggle\", event => reach(event.target), true);
list.addEventListener(\"contentvisibilityautostatechange\", event => {
  if (!event.skipped && event.target.localName === \"li\") ready(event.target);
});
for (const folder of list.querySelectorAll(\"#items>li>details[open]\")) reach(folder);
list.addEventListener(\"click\", event => {
  const own = event.target.closest(\"li\");
  if (own && isFile(own) && event.target.localName !== \"a\") toggle(own);
});
list.addEventListener(\"focusin\", event => {
  if (event.target.localName === \"a\") choose(event.target.closest(\"li\"));
});
list.addEventListener(\"keydown\", event => {
  if (event.target.localName !== \"b\" || event.key !== \"Enter\" && event.key !== \" \") return;
  event.preventDefault();
  toggle(event.target.parentElement);
});
list.className = \"chooses\";

/* Arrow keys go from square to square, and what a square is stands below the picture. */
let here = 0;
const go = place => {
  here = Math.min(Math.max(place, 0), squares.length - 1);
  mark(\"here\", [here]);
  chosen.textContent = title(here);
};
const steps = { ArrowLeft: -1, ArrowRight: 1, ArrowUp: -64, ArrowDown: 64 };
picture.addEventListener(\"keydown\", event => {
  if (event.key === \"Home\") go(0);
  else if (event.key === \"End\") go(squares.length - 1);
  else if (steps[event.key]) go(here + steps[event.key]);
  else return;
  event.preventDefault();
});
picture.addEventListener(\"focus\", () => go(here));
picture.addEventListener(\"blur\", () => mark(\"here\", []));
picture.addEventListener(\"click\", event => {
  const square = event.target.closest(\"rect\");
  if (square) go([...squares].indexOf(square));
});
picture.setAttribute(\"tabindex\", \"0\");
picture.setAttribute(\"role\", \"application\");
picture.setAttribute(\"aria-label\", \"The blocks of the disk: arrow keys go from one to the next\");
chosen.setAttribute(\"role\", \"status\");
document.getElementById(\"find\").hidden = false;
</script>
"
}
