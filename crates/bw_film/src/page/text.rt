//! What a page has beside its film. The drawings stand in templates, of which one at a time is shown,
//! since each has the same styles and names.

/// Up to the end of the styles.
pub(crate) const HEAD: &str = r#"<!DOCTYPE html>
<html lang="en">
<head>
<meta charset="utf-8">
<meta name="viewport" content="width=device-width, initial-scale=1">
<meta name="color-scheme" content="light dark">
<title>A Bw-tree, step by step</title>
<link rel="icon" href="data:,">
<style>
:root { --ink: #1d2733; --faint: #5b6875; --edge: #8593a3; --paper: #ffffff; --key: #eef2f7; --accent: #1f5fa8; --mark: #0b63ce; }
@media (prefers-color-scheme: dark) {
:root { --ink: #e6ebf1; --faint: #9aa8b6; --edge: #66788d; --paper: #12171d; --key: #232c38; --accent: #7fb2f0; --mark: #8fc4ff; }
}
* { box-sizing: border-box; }
body { margin: 0 auto; max-width: 100rem; padding: 1rem 1.25rem 2rem; background: var(--paper); color: var(--ink); font: 16px/1.45 system-ui, "Segoe UI", Helvetica, Arial, sans-serif; }
h1 { margin: 0; font-size: 1.4rem; }
h2 { margin: 1.2rem 0 .3rem; font-size: 1rem; }
p { margin: .3rem 0; }
code, kbd { font-family: ui-monospace, SFMono-Regular, Menlo, Consolas, "DejaVu Sans Mono", monospace; font-size: .9em; }
#span, #keys, #row, #proved { color: var(--faint); font-size: .9rem; }
#lost { color: var(--ink); }
#controls { display: flex; flex-wrap: wrap; gap: .5rem; align-items: center; margin: .9rem 0; }
button, select { min-width: 2.4rem; padding: .35rem .6rem; border: 1px solid var(--edge); border-radius: 6px; background: var(--key); color: inherit; font: inherit; cursor: pointer; }
button[aria-disabled=true] { opacity: .45; cursor: default; }
#play { min-width: 5.2rem; }
#place { flex: 1 1 10rem; min-width: 6rem; accent-color: var(--accent); }
:focus-visible { outline: 3px solid var(--accent); outline-offset: 2px; }
#told { margin: 0; font-size: 1.15rem; font-weight: 600; }
#row { overflow-wrap: anywhere; }
#changed { border-left: 4px solid var(--mark); padding-left: .6rem; }
#stage { margin: .6rem -1.25rem; overflow-x: auto; }
#stage:focus-visible { outline-offset: -3px; }
#stage svg { display: block; width: 100%; height: auto; }
#stage .ground, #stage [data-part=legend] { display: none; }
#stage rect.new { stroke: var(--mark); stroke-width: 3; stroke-dasharray: none; }
#stage path.new { stroke: var(--mark); stroke-width: 2.5; }
#stage text.new, #stage text.new tspan { fill: var(--mark); font-weight: bold; }
#words { display: flex; flex-wrap: wrap; gap: .4rem; }
#words button { display: inline-flex; gap: .4rem; align-items: center; padding: .15rem .5rem; font-size: .9rem; }
#words svg { width: 22px; height: 14px; flex: none; }
#words svg text { font-size: 11px; }
[popover] { max-width: min(26rem, 100vw - 2rem); margin: auto; padding: .8rem 1rem; border: 2px solid var(--accent); border-radius: 8px; background: var(--paper); color: var(--ink); }
table { width: 100%; border-collapse: collapse; font-size: .9rem; }
caption { padding: .25rem 0; font-weight: 600; text-align: left; }
thead { position: absolute; width: 1px; height: 1px; overflow: hidden; clip-path: inset(50%); }
tbody tr { display: grid; grid-template-columns: 5.6rem 1fr; gap: 0 .6rem; padding: .3rem .5rem; border-top: 1px solid var(--edge); }
tbody th { grid-row: 1 / span 3; text-align: left; }
tbody th::before { content: "Worker "; }
tbody td { grid-column: 2; overflow-wrap: anywhere; }
tbody td:empty { display: none; }
td.did::before { content: "did "; color: var(--faint); }
td.does::before { content: "does "; color: var(--faint); }
td.will::before { content: "next "; color: var(--faint); }
tbody br { display: none; }
footer { margin-top: 1.2rem; }
.acts { background: var(--key); box-shadow: inset 4px 0 var(--mark); }
@media (min-width: 62rem) {
main { display: grid; grid-template: auto auto 1fr auto / minmax(20rem, 27rem) minmax(0, 1fr); gap: 0 1.5rem; align-items: start; }
#said { grid-area: 2 / 1; }
#stage { grid-area: 1 / 2 / 4 / 3; position: sticky; top: .5rem; margin: 0; }
#stage svg { max-height: calc(100vh - 2rem); }
#tell { grid-area: 3 / 1; }
footer { grid-area: 4 / 1 / 5 / 3; }
}
"#;

/// The style of a table of what the workers of a trace do.
pub(crate) const CREW_STYLE: &str = r#"#crew { min-height: 6rem; }
"#;

/// From there up to the sentence that says which moments are shown.
pub(crate) const TOP: &str = r#"</style>
</head>
<body>
<main>
<header>
<h1 id="title">A Bw-tree, step by step</h1>
<p id="span"><b id="lost" role="alert"></b>"#;

/// The table of what the workers do, up to the first of them.
pub(crate) const CREW: &str = r#"<table>
<caption>What each worker does</caption>
<thead><tr><th scope="col">Worker</th><th scope="col">Did last</th><th scope="col">Does now</th><th scope="col">Does next</th></tr></thead>
<tbody>
"#;

/// Up to the film. The words of the drawing are explained at a touch.
pub(crate) const BODY: &str = r#"<span id="start"></span></p>
<noscript><p>The film needs JavaScript, which is off here.</p></noscript>
<div id="controls" role="group" aria-label="Film">
<button id="first" type="button" aria-label="First moment">|◀&#xFE0E;</button>
<button id="back" type="button" aria-label="One moment back">◀&#xFE0E;</button>
<button id="play" type="button" aria-pressed="false">Play</button>
<button id="next" type="button" aria-label="One moment on">▶&#xFE0E;</button>
<button id="last" type="button" aria-label="Last moment">▶&#xFE0E;|</button>
<label>Pace <select id="pace"><option value="6000">slow</option><option value="3000" selected>usual</option><option value="1000">fast</option></select></label>
<input id="place" type="range" min="0" value="0" step="1" aria-label="Moment">
</div>
</header>
<div id="said" role="status" aria-live="polite" aria-atomic="true">
<p id="told"></p>
<p id="note"></p>
</div>
<figure id="stage" tabindex="0" aria-label="Drawing of the table"></figure>
<div id="tell">
<div id="also" role="status" aria-live="polite" aria-atomic="true">
<p id="changed"></p>
<p id="proved"></p>
<p id="row"></p>
</div>
<div id="crew"></div>
<h2>Words, explained at a touch</h2>
<div id="words">
<button type="button" popovertarget="word-base"><svg viewBox="0 0 22 14" aria-hidden="true"><rect class="base" x="1" y="1" width="20" height="12" rx="3"/></svg>base page</button>
<button type="button" popovertarget="word-record"><svg viewBox="0 0 22 14" aria-hidden="true"><rect class="change" x="1" y="1" width="20" height="12" rx="3"/></svg>delta record</button>
<button type="button" popovertarget="word-chain"><svg viewBox="0 0 22 14" aria-hidden="true"><path class="line" d="M4 2h14M4 7h14M4 12h14"/></svg>chain</button>
<button type="button" popovertarget="word-slot"><svg viewBox="0 0 22 14" aria-hidden="true"><rect class="base" x="1" y="1" width="9" height="12" rx="2"/><rect class="more" x="12" y="1" width="9" height="12" rx="2"/></svg>mapping table</button>
<button type="button" popovertarget="word-version"><svg viewBox="0 0 22 14" aria-hidden="true"><text class="soft" x="1" y="11">v7</text></svg>version</button>
<button type="button" popovertarget="word-side"><svg viewBox="0 0 22 14" aria-hidden="true"><path class="side" d="M0 7h22"/></svg>side link</button>
<button type="button" popovertarget="word-term"><svg viewBox="0 0 22 14" aria-hidden="true"><path class="line" d="M0 7h22"/></svg>term</button>
<button type="button" popovertarget="word-unposted"><svg viewBox="0 0 22 14" aria-hidden="true"><rect class="half" x="1" y="1" width="20" height="12" rx="3"/></svg>unposted</button>
<button type="button" popovertarget="word-gone"><svg viewBox="0 0 22 14" aria-hidden="true"><text class="gone" x="0" y="11">5:5</text></svg>split off</button>
<button type="button" popovertarget="word-marked"><svg viewBox="0 0 22 14" aria-hidden="true"><rect class="half" x="1" y="1" width="20" height="12" rx="3"/></svg>marked</button>
<button type="button" popovertarget="word-merged"><svg viewBox="0 0 22 14" aria-hidden="true"><path class="going" d="M0 7h22"/></svg>merged</button>
</div>
<p id="word-base" popover><b>base page</b>: A base page has the entries of a page in the order of their keys. It is never written: a change of the page puts a record above it, and a consolidation puts a new base page in its place.</p>
<p id="word-record" popover><b>delta record</b>: A delta record is one change of one page: of a key, or (in violet) of the page’s shape. It stands on top of the page’s chain, over all that was there before.</p>
<p id="word-chain" popover><b>chain</b>: A page is a chain: its delta records, the newest on top, and below them its base page. A search reads it from the top down, so the newest record of a key decides.</p>
<p id="word-slot" popover><b>mapping table</b>: The mapping table has a slot for each page, by its number. Pages name each other by these numbers, so whoever puts a new chain into a slot changes the page for all that lead to it.</p>
<p id="word-version" popover><b>version</b>: The version of a slot, as v7, rises with each step that changes its page. A step names the version that its proposer saw, and is refused where the page has another one by now.</p>
<p id="word-side" popover><b>side link</b>: The side link leads from a page to the next one of its level. A search whose key is past the end of a page goes on by it.</p>
<p id="word-term" popover><b>term</b>: A term is an entry of an inner page: from this key on, search that page one level below.</p>
<p id="word-unposted" popover><b>unposted</b>: An unposted page came from a split, and has no term above it yet (the dotted line). Searches reach it by the side link of the page that was split. Any worker that meets it may post the term.</p>
<p id="word-gone" popover><b>split off</b>: These entries are still in the old base page, but belong to the new page since the split. A search doesn’t see them here, and the next consolidation leaves them out.</p>
<p id="word-marked" popover><b>marked</b>: A marked page has too few entries. It takes no more changes, and the page on its left is to take it in.</p>
<p id="word-merged" popover><b>merged</b>: A merged page was taken in by the page on its left. Its term still leads to it (the red line), and from there searches go left, until the term is deleted and the slot is free.</p>
</div>
<footer>
<p>Proved of this moment, and of every other one between two steps: the leaves along the side links partition the
key space; every search from the root ends at the one leaf whose range holds its key; and no split, merge or
consolidation step changes the map.</p>
<p id="keys"><kbd>←</kbd> <kbd>→</kbd> one moment back or on, <kbd>Home</kbd> <kbd>End</kbd> the first or the last, <kbd>Space</kbd> play or
pause. <code>#12</code> behind the page’s address begins at moment 12.</p>
</footer>
</main>
"#;

/// Behind the film. The script marks what a step changed, by the drawings before and after it.
pub(crate) const SCRIPT: &str = r#"<script>
(() => {
  const frames = [...document.querySelectorAll('template[data-moment]')];
  const at = name => document.getElementById(name);
  const last = frames.length - 1;
  let place = 0;
  let timer = 0;

  // What a step means, where no comment says it.
  const meanings = {
    'A new table': 'One empty leaf has all keys, and every other slot is free.',
    Insert: 'A delta record with the pair went on top of the chain of its leaf. The base page below wasn’t written.',
    Modify: 'A delta record with the new value went on top of the chain of its leaf, over the old one.',
    Delete: 'A delta record went on top of the chain of its leaf: a search that meets it finds nothing.',
    Consolidate: 'Its records and its base page became one new base page with the same entries. The old chain isn’t reached any more.',
    Split: 'The upper entries have a page of their own, and a record on the old page sends searches for them along the side link. No term leads to the new page yet: it is unposted.',
    'Term add': 'The page above leads searches straight to the new page. The split is done.',
    Grow: 'The tree is one level taller: both halves of the old root stand below it.',
    Mark: 'It has too few entries, and waits for the page on its left to take it in.',
    Merge: 'One chain stands over both now, and the side link leads past the merged page, whose term is still there.',
    'Term delete': 'No search comes to the merged page any more. The merge is done.',
  };

  // What is made once for each key.
  const once = make => {
    const made = new Map();
    return key => made.has(key) ? made.get(key) : made.set(key, make(key)).get(key);
  };
  const kinds = frames.map(it => it.dataset.told.split(':')[0]);
  const number = text => Number(text) || 0;
  const texts = nodes => nodes.map(it => it.textContent);

  // The parts of a page as it is drawn: its frame, the lines of its head, and the boxes of its chain with their lines.
  function parts_of(card) {
    const found = { frame: null, head: [], boxes: [] };
    for (const it of card.children) {
      const box = found.boxes[found.boxes.length - 1];
      if (it.tagName === 'rect' && !found.frame) found.frame = it;
      else if (it.tagName === 'rect') found.boxes.push({ rect: it, lines: [] });
      else if (it.tagName === 'text') (box ? box.lines : found.head).push(it);
    }
    for (const it of found.boxes) it.text = texts(it.lines).join(' ');
    found.head = found.head.filter(it => it.textContent !== 'root');
    found.heads = texts(found.head);
    return found;
  }

  const by = (svg, name) => new Map([...svg.querySelectorAll(`[${name}]`)].map(it => [it.getAttribute(name), it]));
  const links_of = svg => new Map([...svg.querySelectorAll('[data-link]')].map(it => [`${it.getAttribute('class')} ${it.dataset.link}`, it]));

  const pages_of = svg => new Map([...by(svg, 'data-page')].map(([page, card]) => [page, parts_of(card)]));
  const pages_at = once(moment => pages_of(frames[moment].content));

  // What the drawing of a moment has and the one before hasn't: its parts, and that in words.
  function news_of(moment, svg, pages) {
    const [parts, said] = [[], []];
    const before = frames[moment - 1].content;
    const old = pages_at(moment - 1);
    for (const [page, now] of pages) {
      if (!old.has(page)) {
        parts.push(now.frame);
        said.push(`page ${page} is new`);
        continue;
      }
      const then = old.get(page);
      const kept = then.boxes.map(it => it.text);
      const added = now.boxes.filter(it => !kept.includes(it.text));
      parts.push(...added.map(it => it.rect));
      const record = added.filter(it => !it.rect.classList.contains('base')).pop();
      if (record) said.push(`page ${page} has one more record: ${record.text}`);
      else if (added.length) said.push(`page ${page} has a new base page`);
      const lines = now.head.filter((_, i) => !then.heads.includes(now.heads[i]));
      parts.push(...lines);
      if (lines.length) said.push(`page ${page} now reads “${texts(lines).join(', ')}”`);
      else if (now.head.length < then.head.length) said.push(`page ${page} is no longer ${then.heads[then.heads.length - 1]}`);
    }
    for (const page of old.keys()) if (!pages.has(page)) said.push(`page ${page} is gone`);
    const slots = by(before, 'data-slot');
    for (const [slot, cell] of by(svg, 'data-slot')) {
      const was = slots.get(slot);
      if (was && was.textContent !== cell.textContent) parts.push(cell.lastElementChild);
    }
    const links = links_of(before);
    for (const [link, path] of links_of(svg)) {
      if (links.has(link)) continue;
      parts.push(path);
      const [kind, from, to] = link.split(' ');
      if (kind === 'side') said.push(`the side link goes from page ${from} to page ${to}`);
      if (kind === 'line') said.push(`a term of page ${from} leads to page ${to}`);
    }
    return { parts, said };
  }

  const told_at = once(moment => moment > 0 ? news_of(moment, frames[moment].content, pages_at(moment)).said : []);

  // How large the drawings are without their legends, and from where on they are shown: the names of the levels are left
  // out where there is little room.
  function extent_of(svg, slim) {
    const right = it => number(it.getAttribute('x')) + number(it.getAttribute('width'));
    const rects = [...svg.querySelectorAll('[data-page] rect, [data-part=table] rect, rect.more')];
    const head = svg.querySelector('[data-part=table] text');
    const legend = svg.querySelector('[data-part=legend] rect');
    const drawn = Math.max(...rects.filter(it => it.closest('[data-part=table]') === null).map(right));
    const table = Math.max(20 + head.textContent.length * 6.8 + 20, ...[...svg.querySelectorAll('[data-part=table] rect')].map(right));
    return { width: Math.max(drawn, table + (slim ? 72 : 0)) + 12, height: number(legend.getAttribute('y')) - 18 };
  }

  const most_of = once(slim => {
    const all = frames.map(it => extent_of(it.content.firstElementChild, slim));
    return [Math.max(...all.map(it => it.width)), Math.max(...all.map(it => it.height))];
  });

  function size(svg) {
    const slim = at('stage').clientWidth < 520;
    const [width, height] = most_of(slim);
    const left = slim ? 84 : 8;
    svg.removeAttribute('height');
    svg.removeAttribute('width');
    svg.setAttribute('viewBox', `${left} 12 ${width - left} ${height - 12}`);
    svg.setAttribute('preserveAspectRatio', 'xMidYMin meet');
    svg.style.minWidth = `${width - left}px`;
    for (const it of svg.querySelectorAll('[data-part=level]')) it.style.display = slim ? 'none' : '';
    svg.querySelector('[data-part=table]').setAttribute('transform', slim ? 'translate(72)' : '');
  }

  // Comments of a script: what begins with a worker stands in that worker's line until the next such comment, and what
  // begins with 'Film:' is the title.
  const words_of = note => note.split(/(?=\b(?:Worker \d+|Film):)/).map(it => it.trim()).filter(it => it);
  const is_title = words => /^Film:./.test(words);
  const worker_of = words => (/^Worker (\d+): */.exec(words) || [])[1];
  const workers = [...new Set(frames.flatMap(it => words_of(it.dataset.note).map(worker_of)))].filter(it => it !== undefined).sort();

  function acts_at(moment) {
    const acts = new Map(workers.map(it => [it, ['', false]]));
    for (let i = 0; workers.length && i <= moment; i++) {
      for (const it of words_of(frames[i].dataset.note)) {
        const worker = worker_of(it);
        if (worker !== undefined) acts.set(worker, [it.replace(/^Worker \d+: */, ''), i === moment]);
      }
    }
    return acts;
  }

  function crew_of(moment) {
    const table = frames[moment].content.querySelector('table');
    const made = table ? [table.cloneNode(true)] : [];
    if (workers.length) {
      const own = document.createElement('table');
      own.innerHTML = '<caption>What each worker does</caption><thead><tr><th scope="col">Worker</th><th scope="col">Does</th></tr></thead><tbody></tbody>';
      for (const [worker, [words, acts]] of acts_at(moment)) {
        const line = own.tBodies[0].insertRow();
        line.className = acts ? 'acts' : '';
        line.innerHTML = '<th scope="row"></th><td></td>';
        line.cells[0].textContent = worker;
        line.cells[1].textContent = words || 'waits';
      }
      made.push(own);
    }
    for (const line of made.flatMap(it => [...it.tBodies[0].rows])) {
      if (line.cells.length === 4) ['did', 'does', 'will'].forEach((name, i) => line.cells[i + 1].classList.add(name));
    }
    return made;
  }

  // What is said of a moment above the drawing, and what is said besides.
  function said_at(moment) {
    const { told, note, row, proved, moment: number } = frames[moment].dataset;
    const own = words_of(note).filter(it => worker_of(it) === undefined && !is_title(it)).join(' ');
    const changed = told_at(moment).join('; ');
    return {
      said: { told: `${number}: ${told}`, note: own || meanings[kinds[moment]] || '' },
      also: { changed: changed && `Marked in the drawing: ${changed}.`, proved, row },
    };
  }

  function tell(moment) {
    const { said, also } = said_at(moment);
    for (const [name, words] of Object.entries({ ...said, ...also })) at(name).textContent = words;
    at('changed').hidden = !also.changed;
    at('crew').replaceChildren(...crew_of(moment));
    return said.told;
  }

  // Whether a screen reader tells each moment.
  function announce(how) {
    for (const name of ['said', 'also']) at(name).setAttribute('aria-live', how);
  }

  // Keeps room for what is said of any moment, so that nothing moves when the film plays.
  function keep_room() {
    const most = { said: 0, also: 0, crew: 0 };
    for (const name in most) at(name).style.minHeight = '';
    announce('off');
    for (const moment of frames.keys()) {
      tell(moment);
      for (const name in most) most[name] = Math.max(most[name], Math.ceil(at(name).getBoundingClientRect().height));
    }
    for (const name in most) at(name).style.minHeight = `${most[name]}px`;
    if (!timer) announce('polite');
  }

  function show(wanted) {
    place = Math.max(0, Math.min(wanted, last));
    const svg = frames[place].content.querySelector('svg').cloneNode(true);
    if (place > 0) for (const it of news_of(place, svg, pages_of(svg)).parts) it.classList.add('new');
    size(svg);
    at('stage').replaceChildren(svg);
    at('place').value = place;
    at('place').setAttribute('aria-valuetext', tell(place));
    for (const name of ['first', 'back']) at(name).setAttribute('aria-disabled', place === 0);
    for (const name of ['next', 'last']) at(name).setAttribute('aria-disabled', place === last);
    const first = at('stage').querySelector('[data-page] .new, [data-page] rect.new');
    if (first) {
      const [it, stage] = [first.getBoundingClientRect(), at('stage').getBoundingClientRect()];
      at('stage').scrollLeft += (it.left + it.right) / 2 - (stage.left + stage.right) / 2;
    }
    if (timer && place === last) pause();
  }

  function pause() {
    clearInterval(timer);
    timer = 0;
    at('play').textContent = 'Play';
    at('play').setAttribute('aria-pressed', 'false');
    announce('polite');
  }

  function play() {
    if (timer) return pause();
    announce('off');
    at('play').textContent = 'Pause';
    at('play').setAttribute('aria-pressed', 'true');
    timer = setInterval(() => show(place + 1), Number(at('pace').value));
    show(place === last ? 0 : place + 1);
  }

  function go(wanted) {
    if (timer) pause();
    show(wanted);
  }

  // What the film's steps come to, which is its title where no comment gives one.
  function title_of_steps() {
    const many = { change: ['Insert', 'Modify', 'Delete'], split: ['Split'], merge: ['Merge'] };
    const counts = Object.entries(many).map(([name, own]) => [name, kinds.filter(it => own.includes(it)).length]);
    const told = counts.filter(([, count]) => count).map(([name, count]) => `${count} ${name}${count > 1 ? 's' : ''}`);
    return told.length ? `A Bw-tree: ${new Intl.ListFormat('en-GB').format(told)}` : document.title;
  }

  // Where the film opens: at the comment with its title, or else at the first page that is half done. A film from a later
  // moment on opens at that.
  const titles = frames.map(it => words_of(it.dataset.note).find(is_title));
  const titled = titles.findIndex(it => it);
  const undone = kinds.findIndex(it => it === 'Split' || it === 'Mark');
  const opening = last < 0 || frames[0].dataset.moment !== '0' ? 0 : Math.max(0, titled < 0 ? undone : titled);

  // Goes to the moment behind the address, or says that there is none.
  function begin() {
    const asked = location.hash.slice(1);
    const found = frames.findIndex(it => it.dataset.moment === asked);
    const is_past = Number(asked) > Number(frames[last].dataset.moment);
    at('lost').textContent = asked && found < 0 ? `There is no moment ${asked} on this page. ` : '';
    at('start').textContent = opening && !asked ? ` The page opens at ${opening}; step back for those before.` : '';
    go(found < 0 ? is_past ? last : opening : found);
  }

  const acts = {
    Home: () => go(0), ArrowLeft: () => go(place - 1), ' ': play, ArrowRight: () => go(place + 1), End: () => go(last),
  };

  function press(event) {
    const { tagName } = event.target;
    const scrolls = event.target === at('stage') && at('stage').scrollWidth > at('stage').clientWidth;
    const is_taken = scrolls || tagName === 'INPUT' || tagName === 'SELECT' || (tagName === 'BUTTON' && event.key === ' ');
    if (is_taken || event.altKey || event.ctrlKey || event.metaKey || !(event.key in acts)) return;
    event.preventDefault();
    acts[event.key]();
  }

  // An explanation opens below what was touched, or above that low in the window.
  function put_beside(told, box) {
    const is_low = box.bottom > innerHeight * .6;
    const [top, up] = is_low ? [box.top - 6, '-100%'] : [box.bottom + 6, 0];
    const left = `max(1rem, min(${box.left}px, 100% - 27rem))`;
    told.style.cssText = `position: absolute; margin: 0; inset: ${top + scrollY}px auto auto ${left}; translate: 0 ${up}`;
  }

  // A touch of a word or a part of the drawing explains it.
  function explain(event) {
    const it = event.target.closest('text, rect, path');
    if (!it) return;
    const words = it.textContent;
    const is = name => it.classList.contains(name);
    const cell = it.closest('[data-slot]');
    const word = is('gone') ? 'gone' : /^(unposted|marked|merged)/.test(words) ? words.split(' ')[0] : cell && is('soft') ? 'version' : cell ? 'slot'
      : is('side') ? 'side' : is('coming') ? 'unposted' : is('going') ? 'merged' : is('line') ? 'term' : is('base') ? 'base' : is('change') || is('shape') ? 'record'
      : it.closest('[data-part=table]') ? 'slot' : it.closest('[data-page]') ? 'chain' : '';
    if (!word) return;
    put_beside(at(`word-${word}`), new DOMRect(event.clientX, event.clientY - 8, 0, 16));
    at(`word-${word}`).showPopover();
  }

  if (last < 0) {
    for (const name of ['controls', 'said', 'also', 'stage', 'keys', 'words']) at(name).hidden = true;
    return;
  }
  at('place').max = last;
  at('first').onclick = acts.Home;
  at('back').onclick = acts.ArrowLeft;
  at('play').onclick = play;
  at('next').onclick = acts.ArrowRight;
  at('last').onclick = acts.End;
  at('place').oninput = event => go(Number(event.target.value));
  at('pace').onchange = () => { if (timer) { pause(); play(); } };
  at('stage').onclick = explain;
  for (const it of at('words').children) it.onclick = () => put_beside(at(it.getAttribute('popovertarget')), it.getBoundingClientRect());
  addEventListener('keydown', press);
  addEventListener('hashchange', begin);
  let width = innerWidth;
  addEventListener('resize', () => { if (innerWidth !== width) { width = innerWidth; keep_room(); show(place); } });
  document.title = at('title').textContent = titled < 0 ? title_of_steps() : titles[titled].slice(5).trim();
  keep_room();
  begin();
})();
</script>
</body>
</html>
"#;
