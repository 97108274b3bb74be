//! A picture as a page that steps through the lines.
ghost use Rattle.std.specs.Prelude.{◌≡◌, ◌++◌, OnOk};
ghost use Rattle.tp_draw.specs.Page.{page_head, page_body, page_aside, item, items, script_of_nodes, script_of_states, script_of_steps, script, beside, page};

use crate::piece::Piece;
use crate::plan::Plan;
use crate::svg::write_svg;
use crate::{Picture, View};
use tp_model::OutLine;
use tp_names::{NoMemory, Octets};
use tp_transcript::write_out;

/// Puts the page at the end of `out`.
pub(crate) fn write_page(view: View, plan: &Plan, out: &mut Picture) -> Result<(), NoMemory>
    ensures { OnOk result (out.new ≡ out.old ++ page view plan.now) }
{
    write_head(out)?;
    write_body(view.from as u64, view.to as u64, out)?;
    write_svg(view, plan, out)?;
    write_beside(plan.lines(), out)
}

// What is beside the picture: the table, the lines and the script.
fn write_beside(lines: &[OutLine], out: &mut Picture) -> Result<(), NoMemory>
    ensures { OnOk result (out.new ≡ out.old ++ beside lines.now) }
{
    write_aside(out)?;
    write_items(lines, out)?;
    write_script(out)
}

fn write_script(out: &mut Picture) -> Result<(), NoMemory>
    ensures { OnOk result (out.new ≡ out.old ++ script) }
{
    write_script_of_nodes(out)?;
    write_script_of_states(out)?;
    write_script_of_steps(out)
}

#[tactic(auto, unfolding(crate::specs::Page::page_head))]
fn write_head(out: &mut Picture) -> Result<(), NoMemory>
    ensures { OnOk result (out.new ≡ out.old ++ page_head) }
{
    out.put_all(&[
        "<!doctype html>\n<html lang='en'>\n<head>\n<meta charset='utf-8'>\n<title>A run, line by line</title>\n",
        "<style>\n:root{color-scheme:light dark;--ground:#fff;--ink:#1f2328;--line:#afb8c1;--here:#fff3b0}\n",
        "@media(prefers-color-scheme:dark){:root{--ground:#0d1117;--ink:#e6edf3;--line:#57606a;--here:#3a3000}}\n",
        "body{margin:0;height:100vh;display:grid;grid-template:auto 1fr/3fr 2fr;font:13px monospace}\n",
        "body{background:var(--ground);color:var(--ink)}\n",
        "header{grid-column:1/3;display:flex;gap:12px;padding:8px;border-bottom:1px solid var(--line)}\n",
        "#at{flex:1}\n#picture{position:relative;overflow:auto}\nsvg{display:block}\n",
        "#veil{position:absolute;left:0;border-top:2px solid #2f81f7;background:var(--ground);opacity:.93}\n",
        "aside{display:flex;flex-direction:column;overflow:hidden;border-left:1px solid var(--line)}\n",
        "#nodes{overflow:auto;flex:none;max-height:50vh}\ntable{border-collapse:collapse;width:100%}\n",
        "th,td{padding:3px 8px;text-align:left;vertical-align:top;border-bottom:1px solid var(--line)}\n",
        "li,td{white-space:pre-wrap;overflow-wrap:anywhere}\nol{margin:0;padding:4px 0 4px 64px;overflow:auto}\n",
        "li{cursor:pointer}\nli[aria-current]{background:var(--here)}\n</style>\n</head>\n",
    ])
}

// The start of the body, for the rows from one to another.
#[tactic(auto, unfolding(crate::specs::Page::page_body))]
fn write_body(from: u64, to: u64, out: &mut Picture) -> Result<(), NoMemory>
    ensures { OnOk result (out.new ≡ out.old ++ page_body from to) }
{
    out.put(&[
        Piece::Text("<body data-from='"),
        Piece::Number(from),
        Piece::Text("' data-to='"),
        Piece::Number(to),
        Piece::Text("'>\n<header><label for='at'>line <output id='number'></output></label>\n"),
        Piece::Text("<input id='at' type='range' autofocus></header>\n<div id='picture'>\n"),
    ])
}

#[tactic(auto, unfolding(crate::specs::Page::page_aside))]
fn write_aside(out: &mut Picture) -> Result<(), NoMemory>
    ensures { OnOk result (out.new ≡ out.old ++ page_aside) }
{
    out.put_all(&[
        "<div id='veil'></div></div>\n<aside><div id='nodes'><table id='table'></table></div><ol>\n",
    ])
}

fn write_items(lines: &[OutLine], out: &mut Picture) -> Result<(), NoMemory>
    ensures { OnOk result (out.new ≡ out.old ++ items lines.now) }
{
    let mut text = Octets::new(out.alloc());
    for line in lines {
        text.truncate(0);
        write_out(out.alloc(), line, &mut text)?;
        write_item(text.as_slice(), out)?;
    }
    Ok(())
}

#[tactic(auto, unfolding(crate::specs::Page::item))]
fn write_item(text: &[u8], out: &mut Picture) -> Result<(), NoMemory>
    ensures { OnOk result (out.new ≡ out.old ++ item text.now) }
{
    out.put(&[
        Piece::Text("<li>"),
        Piece::Escaped(text),
        Piece::Text("</li>\n"),
    ])
}

#[tactic(auto, unfolding(crate::specs::Page::script_of_nodes))]
fn write_script_of_nodes(out: &mut Picture) -> Result<(), NoMemory>
    ensures { OnOk result (out.new ≡ out.old ++ script_of_nodes) }
{
    out.put_all(&[
        "</ol></aside>\n<script>\n'use strict';\n",
        "const byId = id => document.getElementById(id), lines = [...document.querySelectorAll('li')];\n",
        "const words = lines.map(it => it.textContent.split(' '));\n\n",
        "// Each node that a line names, with its site.\nfunction allNodes() {\n  const nodes = new Map();\n",
        "  const add = (node, site) => nodes.set(node, { site: nodes.get(node)?.site || site || '' });\n",
        "  for (const w of words) {\n    if (w[0] == '>' && w[1] == 'node') add(w[2], w[3]);\n",
        "    if (w[0] == 'log' && w[2] != 'boot') add(w[3], w[1]);\n",
        "    if (w[0] == 'send') [w[2], w[3]].forEach(it => add(it));\n",
        "    if (w[0] == 'tell' || w[0] == 'state') add(w[1]);\n  }\n  return nodes;\n}\n\n",
    ])
}

#[tactic(auto, unfolding(crate::specs::Page::script_of_states))]
fn write_script_of_states(out: &mut Picture) -> Result<(), NoMemory>
    ensures { OnOk result (out.new ≡ out.old ++ script_of_states) }
{
    out.put_all(&[
        "// What the lines up to that number say of each node.\nfunction nodesAt(number) {\n",
        "  const nodes = allNodes();\n",
        "  nodes.forEach(it => Object.assign(it, { state: '', down: false, told: '', log: [] }));\n",
        "  const ofSite = (site, change) => nodes.forEach(it => { if (it.site == site) change(it); });\n",
        "  const stop = it => { it.down = true; };\n",
        "  const start = it => { it.down = false; if (it.state == 'rolls back') it.state = ''; };\n",
        "  const states = { ready: 'in doubt', commit: 'committed', end: '' };\n",
        "  for (const w of words.slice(0, number)) {\n",
        "    if (w[0] == '>' && w[1] == 'crash' && w.length == 3) ofSite(w[2], stop);\n",
        "    if (w[0] == 'stopped') ofSite(w[1], stop);\n",
        "    if (w[0] == 'log' && w[2] == 'boot') ofSite(w[1], start);\n    else if (w[0] == 'log') {\n",
        "      const it = nodes.get(w[3]);\n      it.log.push(w.slice(2).join(' '));\n",
        "      if (w[2] in states) it.state = states[w[2]];\n",
        "      if (w[2] == 'damage') it.state = w.at(-2) == 'commit' ? 'committed' : 'rolled back';\n    }\n",
        "    if (w[0] == 'tell') {\n      const it = nodes.get(w[1]);\n      it.told = w.slice(2).join(' ');\n",
        "      if (w[2] == 'rollback' && it.state == '') it.state = 'rolls back';\n",
        "      if (w[2] == 'rollback-complete' && it.state == 'rolls back') it.state = '';\n    }\n  }\n",
        "  return nodes;\n}\n\n",
    ])
}

#[tactic(auto, unfolding(crate::specs::Page::script_of_steps))]
fn write_script_of_steps(out: &mut Picture) -> Result<(), NoMemory>
    ensures { OnOk result (out.new ≡ out.old ++ script_of_steps) }
{
    out.put_all(&[
        "// An element with these texts or elements, which stand in it as they are, never as markup.\n",
        "function made(kind, parts) {\n  const it = document.createElement(kind);\n  it.append(...parts);\n",
        "  return it;\n}\n\nconst row = (kind, cells) => made('tr', cells.map(it => made(kind, it)));\n",
        "const nodeRow = ([n, it]) => row('td', [[n], [it.site], [it.down ? 'down' : it.state], [it.told],\n",
        "  it.log.map(rec => made('div', [rec]))]);\n\n// Shows the run as it is after the line of that number.\n",
        "function show(number) {\n",
        "  const at = byId('at'), { width, height } = document.querySelector('svg').getBoundingClientRect();\n",
        "  at.value = number;\n  byId('number').textContent = at.value + ' of ' + lines.length;\n",
        "  lines.forEach((it, i) => it.toggleAttribute('aria-current', i + 1 == at.value));\n",
        "  const head = row('th', [['node'], ['site'], ['state'], ['told'], ['log']]);\n",
        "  byId('table').replaceChildren(head, ...[...nodesAt(at.value)].map(nodeRow));\n",
        "  const top = 60 + 20 * (at.value - Math.max(document.body.dataset.from - 1, 0));\n",
        "  byId('veil').style = `top:${top}px;width:${width}px;height:${Math.max(height - 180 - top, 0)}px`;\n",
        "  byId('picture').scrollTop = top - byId('picture').clientHeight / 2;\n",
        "  lines[at.value - 1]?.scrollIntoView({ block: 'nearest' });\n}\n\n",
        "const first = Number(document.body.dataset.from) + 1;\n",
        "Object.assign(byId('at'), { min: first, max: document.body.dataset.to, oninput: () => show(byId('at').value) });\n",
        "lines.forEach((it, i) => { it.onclick = () => show(i + 1); });\n",
        "window.onhashchange = () => show(location.hash.slice(1) || first);\nwindow.onhashchange();\n</script>\n",
        "</body>\n</html>\n",
    ])
}
