// The page for a browser.
ghost use Rattle.std.specs.Prelude.{◌≡◌, IfOk};
ghost use Rattle.sb_http.specs.Responses.{said_in};
ghost use Rattle.sb_rest.specs.Pages as pages;

use crate::field::push_field;
use sb_http::{Response, Status};
use std::alloc::{AllocError, Global};

/// It has nothing of the namespace: it asks for the key, and shows what the other paths answer.
pub const PAGE: &str = r#"<!doctype html>
<html lang="en">
<meta charset="utf-8">
<meta name="viewport" content="width=device-width,initial-scale=1">
<title>Zolmutarn</title>
<style>
:root{color-scheme:light dark;--back:#f4f4f4;--card:#fff;--ink:#111;--dim:#666;--line:#ddd;--bad:#b3261e;--go:#0b57a4}
@media (prefers-color-scheme:dark){:root{--back:#111;--card:#222;--ink:#eee;--dim:#aaa;--line:#444;--bad:#ff9b90;--go:#8cc2ff}}
*{box-sizing:border-box}
body{margin:0 auto;padding:12px;max-width:1200px;background:var(--back);color:var(--ink);font:16px/1.4 system-ui,sans-serif}
h1{font-size:20px;margin:0}
h2{font-size:15px;margin:12px 0 4px}
p{margin:4px 0}
form{display:flex;flex-wrap:wrap;gap:8px;align-items:center;margin:8px 0}
input,form button{font:inherit;color:inherit;background:var(--card);border:1px solid var(--line);border-radius:6px;padding:8px}
[hidden]{display:none!important}
table{width:100%;border-collapse:collapse}
tr{background:var(--card);border:1px solid var(--line)}
th,td{padding:8px;text-align:right;white-space:nowrap}
:first-child:is(th,td){text-align:left;white-space:normal;overflow-wrap:anywhere}
.row{cursor:pointer}
td button{border:0;padding:0;background:none;color:var(--go);font:inherit;font-weight:600;text-align:left;cursor:pointer;overflow-wrap:anywhere}
th,small,.dim{color:var(--dim);font-weight:400}
th,small{font-size:14px}
.bad{color:var(--bad)}
.old{opacity:.5}
ol{list-style:none;margin:0;padding:0}
li{border-top:1px solid var(--line);padding:8px 0}
pre,q{display:block;margin:4px 0 0;white-space:pre-wrap;font-size:14px;unicode-bidi:plaintext;quotes:none}
@media (max-width:760px){
table,tbody{display:block}
thead{display:none}
tr{display:grid;grid-template-columns:repeat(4,1fr);border-radius:8px;margin-top:8px;padding:4px}
td{padding:4px 6px;text-align:left;white-space:normal}
td[title]::before{content:attr(title);display:block;font-size:12px;color:var(--dim);white-space:nowrap}
td:first-child{grid-column:span 4}
}
</style>
<h1>Zolmutarn</h1>
<p id="told" role="status">Asking ...</p>
<form id="door" hidden><label for="key">Key</label><input id="key" type="password" autocomplete="off"><button>Open</button></form>
<form id="front" hidden><label for="name">Begins with</label><input id="name" size="12" autocomplete="off"></form>
<table hidden><thead><tr></tr></thead><tbody></tbody></table>
<noscript>This page needs JavaScript.</noscript>
<script>
'use strict'
const labels = ['Entity', 'Ready', 'Held', 'Deferred', 'Scheduled', 'Dead letters', 'Oldest', 'Sessions']
const broken = 'A disk failed: the server has to be started again.'
const words = { EntityNotFound: "It isn't there any more.", OutOfMemory: 'The server has too little memory for now.', DiskFault: broken, Stopped: broken }
const found = (it) => document.querySelector(it)
const told = found('#told'), door = found('#door'), front = found('#front'), list = found('tbody')
const known = new Map()
let key = '', asked = 0, timer

function made(parent, tag, text = '', name = '') {
  const it = document.createElement(tag)
  it.textContent = text
  it.className = name
  parent.append(it)
  return it
}

function tell(text, isBad) {
  told.textContent = text
  told.className = isBad ? 'bad' : 'dim'
  list.className = isBad ? 'old' : ''
}

function why(status, reply) {
  if (status === 401) return key ? 'The server has another key.' : 'The server asks for its key.'
  if (status === 403) return 'The server refuses this page (403): call it by one of its names.'
  if (reply?.refused) return words[reply.refused] ?? `Refused: ${reply.refused} ${reply.key ?? ''}`
  if (status === 503) return "The server can't answer for now (503)."
  return `The server answered ${status}.`
}

async function ask(path) {
  let status, text, reply
  try {
    const headers = key ? { Authorization: `Bearer ${key}` } : {}
    const got = await fetch(path, { headers, cache: 'no-store', signal: AbortSignal.timeout(15000) })
    status = got.status
    text = await got.text()
  } catch {
    throw Error("The server doesn't answer.")
  }
  try { reply = JSON.parse(text) } catch {}
  if (status === 401) door.hidden = false
  if (status !== 200 || !reply?.ok) throw Error(why(status, reply))
  return reply
}

const all = (part) => part.ready + part.held + part.deferred + part.scheduled

function span(s) {
  const [unit, by] = s < 120 ? ['s', 1] : s < 7200 ? ['min', 60] : s < 172800 ? ['h', 3600] : ['d', 86400]
  return `${Math.floor(s / by)} ${unit}`
}

function values({ main, dead, transfer, sessions, held_sessions }) {
  const moved = all(transfer)
  return [main.ready, main.held, main.deferred, main.scheduled, moved ? `${all(dead)} + ${moved} transfer` : all(dead),
    main.oldest === null ? '-' : span(Math.max(0, Date.now() - main.oldest) / 1000), held_sessions ? `${sessions}, ${held_sessions} held` : sessions]
}

function fill(place, label, copies) {
  made(place, 'h2', label)
  if (!copies.length) made(place, 'p', 'None.', 'dim')
  const items = made(place, 'ol')
  for (const it of copies) {
    const item = made(items, 'li')
    const when = (it.schedule ? 'due ' : 'enqueued ') + new Date(it.schedule ?? it.enqueued).toLocaleString()
    made(item, 'small', `${it.seq}, ${it.state}, ${when}, delivery count ${it.delivery}`)
    if (it.sys.MessageId) made(item, 'q', `MessageId ${it.sys.MessageId}`)
    const { deadletterreason: reason, deadlettererrordescription: more } = it.props
    const why = [reason, more].filter((x) => x !== undefined).join(': ')
    if (why) made(item, 'q', why, 'bad')
    const text = it.body ?? it.body_hex, begin = [...text.slice(0, 400)].slice(0, 200).join('')
    made(item, 'pre', begin + (begin === text ? '' : ' ...'))
    if (it.body === undefined) made(item, 'small', 'in hexadecimal')
  }
}

async function open(it, address) {
  const place = it.more.firstChild
  const parts = [['', 'The first 20 messages'], ['/$deadletterqueue', 'The first 20 dead letters']]
  if (it.moved) parts.push(['/$transfer/$deadletterqueue', "The first 20 that couldn't be forwarded"])
  place.textContent = 'Asking ...'
  try {
    const replies = await Promise.all(parts.map(([part]) => ask('/$peek?start=1&count=20&from=' + encodeURIComponent(address + part))))
    place.textContent = ''
    replies.forEach((reply, i) => fill(place, parts[i][1], reply.copies))
  } catch (fault) {
    place.textContent = ''
    made(place, 'p', fault.message, 'bad')
  }
}

function added({ address, kind }) {
  const out = document.createElement('tbody'), row = made(out, 'tr', '', 'row'), more = made(out, 'tr', '', 'more')
  more.hidden = true
  made(more, 'td').colSpan = labels.length
  const first = made(row, 'td'), button = made(first, 'button', address)
  button.ariaExpanded = 'false'
  made(first, 'small', ' ' + kind)
  const cells = labels.slice(1).map((label) => Object.assign(made(row, 'td'), { title: label }))
  const it = { row, more, cells }
  row.onclick = () => {
    more.hidden = !more.hidden
    button.ariaExpanded = String(!more.hidden)
    if (!more.hidden) open(it, address)
  }
  known.set(address, it)
  return it
}

function show(entities) {
  const there = new Set(entities.map((e) => e.address))
  for (const [address, it] of known) {
    if (there.has(address)) continue
    known.delete(address)
    it.row.remove()
    it.more.remove()
  }
  let next = list.firstChild
  for (const e of entities) {
    const it = known.get(e.address) ?? added(e)
    it.moved = all(e.transfer)
    values(e).forEach((value, i) => {
      it.cells[i].textContent = value
      it.cells[i].className = value === 0 ? 'dim' : i === 4 ? 'bad' : ''
    })
    if (next === it.row) next = it.more.nextSibling
    else for (const row of [it.row, it.more]) list.insertBefore(row, next)
  }
}

async function look() {
  clearTimeout(timer)
  const mine = ++asked, name = found('#name').value.trim().toLowerCase()
  try {
    const { entities } = await ask('/$status?count=1000' + (name && '&prefix=' + encodeURIComponent(name)))
    if (mine !== asked) return
    show(entities)
    door.hidden = true
    front.hidden = found('table').hidden = false
    const count = entities.length
    tell(`${count === 1000 ? 'The first 1,000' : count} ${count === 1 ? 'entity' : 'entities'} at ${new Date().toLocaleTimeString()}`)
  } catch (fault) {
    if (mine !== asked) return
    tell(fault.message, true)
  }
  if (door.hidden && !document.hidden) timer = setTimeout(look, 5000)
}

labels.forEach((label) => made(found('thead tr'), 'th', label))
door.onsubmit = (event) => {
  event.preventDefault()
  const given = found('#key').value.trim()
  if (!/^[!-~]+$/.test(given)) return tell('A key has visible ASCII characters alone.', true)
  key = given
  found('#key').value = ''
  door.hidden = true
  look()
}
front.onsubmit = (event) => event.preventDefault()
front.oninput = look
document.onvisibilitychange = look
look()
</script>
</html>
"#;

/// What rules a browser that shows it: it runs what stands in the page, and asks this server alone.
const POLICY: &[u8] =
    b"default-src 'none'; script-src 'unsafe-inline'; style-src 'unsafe-inline'; connect-src 'self'";

/// The response with the page.
pub(crate) fn page_response(alloc: Global) -> Result<Response, AllocError>
    ensures { IfOk result (λ r. said_in r ≡ pages.page_response) }
{
    let mut headers = Vec::new(alloc);
    push_field(
        alloc,
        &mut headers,
        b"Content-Type",
        b"text/html; charset=utf-8",
    )?;
    push_field(alloc, &mut headers, b"Content-Security-Policy", POLICY)?;
    push_field(alloc, &mut headers, b"Cache-Control", b"no-store")?;
    Ok(Response {
        status: Status::Ok,
        headers,
        body: PAGE.as_bytes().to_vec(alloc)?,
        closes: false,
    })
}
