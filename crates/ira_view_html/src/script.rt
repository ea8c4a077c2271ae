//! The script of a page.

/// What the data tell, as it is drawn and said, and what keys, the pointer and buttons do. It is JavaScript; a check runs it
/// in Node.
pub(crate) const SCRIPT: &str = r#"'use strict';
const {max, min, hypot} = Math, $ = id => document.getElementById(id);

// A text of the data has a character for each byte of its UTF-8.
const decoder = new TextDecoder;
const decoded = (_, value) => typeof value == 'string' && /[^\0-\x7f]/.test(value)
  ? decoder.decode(Uint8Array.from(value, c => c.charCodeAt(0))) : value;
const told = $('data').textContent.trim().split('\n').map(line => JSON.parse(line, decoded));
const answer = told[0], picture = told.at(-1), isYes = answer.answer == 'yes';
const logs = told.filter(o => o.type == 'log'), explanation = told.find(o => o.type == 'explanation');

const loadWords = o => o.reset ? `reset ${o.reset}` : `${o.round} ${o.id} ${o.hop} ${o.dirty ? 'dirty' : 'clean'}`;
const owedWords = ({owes}) => owes ? `, owes ${loadWords(owes)}` : '';
const stateWords = o => o.phase + (o.round ? ` in round ${o.round}` : '')
  + (o.term ? `${o.round ? ' of' : ' in'} term ${o.term}` : '') + (o.id ? ` with ID ${o.id}` : '') + owedWords(o);

// Nodes, their events that are drawn, and arrows between these.
const firstColumn = picture.first, width = picture.last - firstColumn + 1, size = picture.lanes.length;
function eventOfMark(mark, node) {
  const [kind, ...words] = mark.record.split(' '), isMessage = words.length > 2;
  const inRound = isMessage ? +words[0] : mark.round || 0, turn = `term ${mark.term || 1} round ${inRound} `;
  return {...mark, node, at: mark.event, kind, after: stateWords(mark), load: words[1] ? words.join(' ') : '',
    inRound, ofID: isMessage ? +words[1] : kind == 'draw' ? +words[0] : 0, turn};
}
// How many events a node has left of those that are drawn isn't told where none is.
const nodes = picture.lanes.map((lane, node) => ({...lane, file: logs[node].file,
  left: lane.marks[0] ? lane.marks[0].event - 1 : lane.events && null,
  events: lane.marks.map(mark => eventOfMark(mark, node))}));
const eventAt = (i, at) => nodes[i]?.events[at - nodes[i].left - 1];
const order = nodes.flatMap(node => node.events).sort((a, b) => a.column - b.column || a.node - b.node);
order.forEach((e, rank) => e.rank = rank);
const atColumn = nodes.map(node => new Map(node.events.map(e => [e.column, e])));
const arrows = picture.arrows.map(a => {
  const next = (a.link + 1) % size;
  return {...a, next, from: atColumn[a.link].get(a.sent), to: atColumn[next].get(a.received)};
});
for (const {from, to} of arrows) if (from && to) from.to = to, to.from = from;

const stateAt = (i, at) => at === nodes[i].left ? stateWords(nodes[i].start)
  : eventAt(i, at)?.after ?? 'not in the picture';
const before = e => stateAt(e.node, e.at - 1);
const beside = (e, d) => eventAt(e.node, e.at + d);
const nameOf = e => `node ${e.node} event ${e.at}`, placeOf = e => `${nodes[e.node].file}:${e.at + 4}`;

// How far pasts reach at each node, or where futures begin. What stands left of the picture is past.
function reach(events, way) {
  const isPast = way == 'from', edge = nodes.map(({left}) => isPast ? left : Infinity), open = [...events];
  while (open.length) {
    const {node, at} = open.pop(), {left, events} = nodes[node];
    const [low, high] = isPast ? [edge[node], at] : [at - 1, edge[node] - 1];
    const more = events.slice(low - left, high - left);
    open.push(...more.flatMap(e => e[way] || []));
    edge[node] = (isPast ? max : min)(edge[node], at);
  }
  return edge;
}
const cutAt = column => reach(nodes.flatMap(({events}) => events.findLast(e => e.column <= column) || []), 'from');
const isInside = (cut, i, column, e) => column < firstColumn || e && e.at <= cut[i];
const onTheWay = (cut, i) => arrows.filter(a => a.link == i && isInside(cut, i, a.sent, a.from)
  && !isInside(cut, a.next, a.received, a.to));

function isPassedOn(receipt, sending) {
  const [a, b] = [receipt, sending].map(e => e.load.split(' ')), hop = a.length > 2 ? 2 : 1;
  return receipt.kind == 'recv' && b[hop] == +a[hop] + 1 && a.slice(0, hop).every((word, k) => b[k] == word);
}
function cameFrom(e) {
  const last = beside(e, -1);
  if (e.kind == 'recv') return e.from?.load == e.load && e.from;
  return e.kind == 'send' && last && (isPassedOn(last, e) || /draw|yield/.test(last.kind)) && last;
}
function goesTo(e) {
  const next = beside(e, 1);
  return e.kind == 'send' ? e.to?.load == e.load && e.to : next && cameFrom(next) == e && next;
}
function wayOf(event) {
  const way = [event];
  for (let e = event; (e = cameFrom(e)) && !way.includes(e);) way.unshift(e);
  for (let e = event; (e = goesTo(e)) && !way.includes(e);) way.push(e);
  return way;
}

// What the answer speaks of, and why.
const {evidence = [], fault, link, receipt} = answer, named = evidence.filter(o => o.event);
const isLeftOver = answer.reason == 'log';
const eventOf = o => o && eventAt(o.node, o.event);
const roleOf = o => o.fault || (o.role == 'event' ? fault : o.role);
const rings = named.flatMap(o => {
  const e = eventOf(o), words = o.role == 'other' ? o.happened_before && `begin here: ${o.fault}`
    : o.role == 'event' ? fault : answer.reason == 'circle' ? o.role == 'received' && 'waits'
    : o.role == 'received' ? `receipt ${receipt} ${fault}` : `sending ${receipt}`;
  return e && words ? {e, words} : [];
});
const doubtful = rings.length ? min(...rings.map(({e}) => e.column)) : Infinity;

// What is drawn, in its styles: colour, thickness, dashes. Each has columns, and layColumns says where these stand.
const laneHeight = [84, 56, 44, 34, 26][[4, 8, 16, 32].filter(most => size > most).length];
const pitch = [64, 44, 30, 18, 12, 8][[12, 20, 40, 100, 400].filter(most => width > most).length];
const isUnrolled = size > 2, laneY = Array.from({length: size + isUnrolled}, (_, i) => i * laneHeight);
const MARGIN = 64, SIDE = 300, AXIS = 24, TOP = -34, foot = laneY.at(-1), HIGH = foot + 64, half = laneHeight / 2;
const bandStyles = {
  'no state': ['mute', 1, [2, 3]], passive: ['passive', 4], active: ['active', 12], choosing: ['choosing', 12],
  yielding: ['yielding', 12], leader: ['leader', 18], doubted: ['mute', 18], owes: ['ink', 3],
};
const bands = nodes.flatMap(({bands, debts}, node) => [...bands, ...debts].map(span => {
  const kind = span.kind || 'owes', isDoubted = kind == 'leader' && span.from >= doubtful;
  return {node, column: span.from, column2: span.to ?? Infinity, kind: isDoubted ? 'doubted' : kind};
}));
const arrowStyles = {
  wrong: ['bad', 2, [5, 3]], back: ['bad', 2], reset: ['message', 4], dirty: ['message', 1.2, [5, 3]],
  message: ['message', 1.2], lap: ['leader', 2.5],
};
const isWrong = a => /differs|not sent/.test(a.passage);
const styleOf = a => isWrong(a) ? 'wrong' : {backward: 'back', 'on lap': 'lap'}[a.passage]
  || (a.reset ? 'reset' : a.dirty ? 'dirty' : 'message');
const tipOf = ({received, passage}) => received == null ? 'ring' : received > picture.last ? ''
  : passage == 'dropped' ? 'cross' : 'head';
for (const a of arrows) {
  const up = a.next < a.link && !isUnrolled ? -1 : 1, next = a.next || !isUnrolled ? a.next : size;
  Object.assign(a, {style: styleOf(a), tip: tipOf(a), column: a.sent ?? a.received - 30 / pitch,
    y: a.sent == null ? laneY[next] - 26 * up : laneY[a.link],
    column2: a.received ?? a.sent + min(1, 30 / pitch),
    y2: a.received == null ? laneY[a.link] + min(24, laneHeight * .4) * up : laneY[next]});
}
const groups = Object.keys(arrowStyles).flatMap(style => ['', 'head', 'ring', 'cross'].map(tip => (
  {style, tip, arrows: arrows.filter(a => a.style == style && a.tip == tip)}))).filter(group => group.arrows[0]);
const pairWords = o => o.id ? `${o.term ? o.term + '/' : ''}${o.round}:${o.id}` : '';
const pairs = nodes.flatMap(({start, events}, node) => {
  const all = [];
  for (const state of [{...start, column: firstColumn}, ...events]) {
    const words = state.phase == 'active' ? pairWords(state) : '';
    if (words == (all.at(-1)?.words || '')) continue;
    if (all[0]) all.at(-1).column2 = state.column;
    all.push({node, words, column: state.column, column2: Infinity});
  }
  return all.filter(({words, column, column2}) => words && column < column2);
});
const ends = picture.last < picture.of ? [] : nodes.map(({end, no_step}) => no_step ? 'no step'
  : end.phase == 'passive' && !end.owes ? '' : (end.phase == 'leader' ? 'leads' : end.phase)
  + (pairWords(end) && ' ' + pairWords(end)) + owedWords(end));

const view = {x: -1, y: 0, wide: pitch, high: 1};
let wide = 0, high = 0, selected, past, first, way = [], cut, alone = '', isFolded;

// How far right columns stand: what is folded is narrow.
const stands = new Float64Array(width + 1);
function at(column) {
  const c = column - firstColumn, i = min(width - 1, Math.floor(c));
  return c < 0 ? c : c == Infinity ? total() : stands[i] + (c - i) * (stands[i + 1] - stands[i]);
}
const isShown = e => e.turn.startsWith(alone);
function layColumns() {
  const has = [], isQuiet = e => isFolded && e.phase == 'passive' && before(e).startsWith('passive');
  for (const e of order) if (isShown(e) && !isQuiet(e) || e == selected) has[e.column - firstColumn] = true;
  for (let c = 1; c <= width; c++) {
    const isWide = !alone && !isFolded || c == width || has[c] || has[c - 1];
    stands[c] = stands[c - 1] + (isWide ? 1 : .12);
  }
  for (const it of [order, pairs, arrows, bands].flat()) {
    it.p = at(it.column);
    if (it.column2 != null) it.p2 = at(it.column2);
  }
}
const total = () => stands[width - 1] + max(1, 24 / pitch);
const lanesOf = e => e.node || !isUnrolled ? [laneY[e.node]] : [0, foot];
const X = p => MARGIN + (p - view.x) * view.wide;
const Y = y => AXIS + (y - TOP - view.y) * view.high;

// An SVG that is drawn as a canvas is: for print, and in the legend.
const create = (name, more) => {
  const made = document.createElementNS('http://www.w3.org/2000/svg', name);
  for (const key in more) made.setAttribute(key, more[key]);
  return made;
};
class Paper {
  constructor(width, height) {
    this.svg = create('svg', {viewBox: `0 0 ${width} ${height}`, width, height, 'aria-hidden': true});
  }
  put(name, style, more) {
    const made = create(name, {...more, style: `opacity:${this.globalAlpha ?? 1};${style}`});
    return this.svg.appendChild(made);
  }
  text(words, x, y, style) {
    const anchor = {right: 'end', center: 'middle'}[this.textAlign] || 'start';
    this.put('text', `font:${this.font};text-anchor:${anchor};${style}`, {x, y}).textContent = words;
  }
  to(kind, ...numbers) { this.d += kind + numbers.map(n => +n.toFixed(1)).join(' '); }
  beginPath() { this.d = ''; }
  moveTo(x, y) { this.to('M', x, y); }
  lineTo(x, y) { this.to(this.d ? 'L' : 'M', x, y); }
  closePath() { this.d += 'z'; }
  arc(x, y, r) { for (const end of [x - r, x + r]) this.to('A', r, r, 0, 1, 1, end, y); }
  rect(x, y, w, h) { this.to('M', x, y), this.to('h', w), this.to('v', h), this.to('h', -w), this.closePath(); }
  setLineDash(dash) { this.dash = dash; }
  stroke() {
    const dash = this.dash.join(' ') || 'none';
    if (this.d) this.put('path',
      `fill:none;stroke:${this.strokeStyle};stroke-width:${this.lineWidth};stroke-dasharray:${dash}`, {d: this.d});
  }
  fill() { if (this.d) this.put('path', `fill:${this.fillStyle}`, {d: this.d}); }
  fillRect(x, y, width, height) { this.put('rect', `fill:${this.fillStyle}`, {x, y, width, height}); }
  fillText(words, x, y) { this.text(words, x, y, `fill:${this.fillStyle}`); }
  strokeText(words, x, y) {
    this.text(words, x, y, `fill:none;stroke:${this.strokeStyle};stroke-width:${this.lineWidth}`);
  }
}

const canvas = $('view'), scene = document.createElement('canvas'), paper = canvas.getContext('2d', {alpha: false});
const NAMES = ['back', 'ink', 'mute', 'line', 'link', 'moment', 'bad', 'message', 'choosing', 'active', 'passive',
  'leader', 'yielding'];
let colours;
function readColours() {
  const sheet = getComputedStyle(document.documentElement);
  colours = Object.fromEntries(NAMES.map(name => [name, sheet.getPropertyValue('--' + name)]));
}
function onPaper(to, draw) {
  const [was, were] = [ctx, colours];
  [ctx, colours] = [to, Object.fromEntries(NAMES.map(name => [name, `var(--${name})`]))];
  draw();
  [ctx, colours] = [was, were];
  return to.svg;
}

// Pale is what isn't shown, or neither past nor future of the selected event.
const isBefore = e => e.at <= past[e.node], isAfter = e => e.at >= first[e.node];
const isPale = e => !isShown(e) || selected && !isBefore(e) && !isAfter(e);
const isPaleArrow = ({from, to}) => from || to
  ? !isShown(from || to) || selected && !isBefore(to || from) && !isAfter(from || to) : !!selected;

// While much moves, the last scene is moved, and drawn anew as there is time.
let ctx, asked, sceneView, isMuch, drawnLast, cost = 0, later;
function redraw(isMove) {
  if (!isMove) sceneView = null;
  asked ||= requestAnimationFrame(draw);
}
function draw() {
  const ratio = devicePixelRatio, now = performance.now(), isNew = !sceneView || !isMuch || now - drawnLast > 12 * cost;
  asked = 0;
  if (isNew) {
    [scene.width, scene.height] = [canvas.width + 2 * SIDE * ratio, canvas.height];
    ctx = scene.getContext('2d', {alpha: false});
    ctx.setTransform(ratio, 0, 0, ratio, SIDE * ratio, 0);
    readColours();
    clear();
    drawScene();
    sceneView = {...view};
  } else {
    clearTimeout(later);
    later = setTimeout(redraw, 120);
  }
  ctx = paper;
  ctx.setTransform(ratio, 0, 0, ratio, 0, 0);
  clear();
  const [sx, sy] = [view.wide / sceneView.wide, view.high / sceneView.high];
  ctx.drawImage(scene, MARGIN - (MARGIN + SIDE) * sx + (sceneView.x - view.x) * view.wide,
    AXIS * (1 - sy) + (sceneView.y - view.y) * view.high,
    (wide + 2 * SIDE) * sx, high * sy);
  if (isNew) drawnLast = performance.now(), cost = drawnLast - now;
  drawOver();
}
function drawOver() {
  if (cut) drawCut();
  if (selected) {
    pen(colours.link, 6);
    for (const {kind, p, node, to} of way) if (kind == 'send' && way.includes(to))
      line(X(p), Y(laneY[node]), X(to.p), Y(laneY[isUnrolled ? node + 1 : to.node]));
    ctx.globalAlpha = .45;
    ctx.stroke();
    ctx.globalAlpha = 1;
    pen(colours.link, 3);
    ring(X(selected.p), Y(laneY[selected.node]), 10);
    ctx.stroke();
  }
  drawAxes();
}
function clear(right = wide + SIDE, low = high) {
  ctx.fillStyle = colours.back;
  ctx.fillRect(-SIDE, 0, SIDE + right, low);
}
function pen(colour, thick, dash = []) {
  ctx.strokeStyle = colour;
  ctx.lineWidth = max(.6, thick);
  ctx.setLineDash(dash);
  ctx.beginPath();
}
function line(x, y, x2, y2) {
  ctx.moveTo(x, y);
  ctx.lineTo(x2, y2);
}
function ring(x, y, r) {
  ctx.moveTo(x + r, y);
  ctx.arc(x, y, r, 0, 7);
}
function write(words, x, y, colour, align = 'left', size = 12) {
  [ctx.font, ctx.textAlign] = [`${size}px system-ui,sans-serif`, align];
  ctx.fillStyle = colours[colour];
  ctx.fillText(words, x, y);
}
function writeOver(words, x, y, colour, align) {
  [ctx.font, ctx.textAlign] = ['12px system-ui,sans-serif', align];
  pen(colours.back, 4);
  ctx.strokeText(words, x, y);
  write(words, x, y, colour, align);
}
function drawMark(kind, x, y, r) {
  if (kind == 'draw' || r < 2) ctx.rect(x - r, y - r, 2 * r, 2 * r);
  else ring(x, y, r);
}
function drawScene() {
  const scale = max(.3, min(1.5, view.high, view.wide / pitch * 1.5)), r = max(1, 3.5 * scale);
  const left = view.x - (MARGIN + SIDE) / view.wide, right = view.x + (wide + SIDE) / view.wide;
  const isNear = view.wide >= .6 * pitch && view.high > .55;
  const isSeen = a => max(a.p, a.p2) > left && min(a.p, a.p2) < right;
  let count = 0;
  for (const lower of isUnrolled ? [0, foot] : [0]) for (const kind in bandStyles) {
    const [colour, thick, dash] = bandStyles[kind];
    ctx.globalAlpha = lower ? .35 : 1;
    pen(colours[colour], thick * min(1, view.high), dash);
    for (const {kind: it, p, p2, node} of bands) if (it == kind && p2 > left && p < right && !(lower && node))
      line(X(p), Y(laneY[node] + lower), X(p2), Y(laneY[node] + lower));
    ctx.stroke();
  }
  for (const pale of [true, false]) {
    ctx.globalAlpha = pale ? .15 : 1;
    for (const {style, tip, arrows} of groups) {
      const seen = arrows.filter(a => isSeen(a) && !!isPaleArrow(a) == pale);
      count += seen.length;
      drawArrows(style, isNear && tip, seen.map(a => [X(a.p), Y(a.y), X(a.p2), Y(a.y2)]), scale);
    }
    ctx.fillStyle = colours.ink;
    ctx.beginPath();
    for (const e of order) if (e.p > left && e.p < right && !!isPale(e) == pale) for (const y of lanesOf(e)) {
      count++;
      drawMark(e.kind, X(e.p), Y(y), r);
    }
    ctx.fill();
  }
  if (isNear) drawWords(isSeen);
  if (isLeftOver) ctx.globalAlpha = .55, clear(), ctx.globalAlpha = 1;
  for (const {e, words} of rings) {
    const [x, y, isLeft] = [X(e.p), Y(laneY[e.node]), words == 'waits'];
    pen(colours.bad, 2);
    ring(x, y, 8);
    ctx.stroke();
    writeOver(words, x + (size == 2 ? 0 : isLeft ? -10 : -4), size == 2 && e.node ? y + 24 : y - 14, 'bad',
      size == 2 ? 'center' : isLeft ? 'right' : 'left');
  }
  isMuch = count > 500;
}
function drawArrows(style, tip, lines, scale) {
  const [colour, thick, dash] = arrowStyles[style];
  pen(colours[colour], thick * scale, scale > .5 ? dash : []);
  for (const ends of lines) line(...ends);
  ctx.stroke();
  if (style == 'reset') ctx.strokeStyle = colours.back, ctx.lineWidth = 1.6 * scale, ctx.stroke();
  if (!tip) return;
  pen(colours[colour], 1.3);
  ctx.fillStyle = colours[tip == 'ring' ? 'back' : colour];
  for (const ends of lines) drawTip(tip, scale, ...ends);
  ctx.fill();
  ctx.stroke();
}
function drawTip(tip, scale, x, y, x2, y2) {
  const far = hypot(x2 - x, y2 - y) || 1, [u, v] = [scale * (x2 - x) / far, scale * (y2 - y) / far];
  const point = (along, aside) => [x2 + u * along - v * aside, y2 + v * along + u * aside];
  if (tip == 'ring') return ring(x2, y2, 3);
  if (tip == 'cross') return line(...point(-13, 3), ...point(-7, -3)), line(...point(-13, -3), ...point(-7, 3));
  line(...point(-2, 0), ...point(-11, 4));
  ctx.lineTo(...point(-11, -4));
  ctx.closePath();
}

// Under which ID nodes are active, what they are in the end, and what arrows carry, where there is room. A label of
// what began left of what is seen stands at its edge.
function drawWords(isSeen) {
  for (const {node, words, p, p2} of pairs) if (isSeen({p, p2})) {
    const [x, edge] = [X(p), MARGIN - 4], isLeft = x < edge + 12 && X(p2) > edge + 30;
    const y = Y(laneY[node]) + (size == 2 && node ? 22 : laneHeight < 34 ? -8 : -12);
    write(words, isLeft ? edge : x, y, 'ink', isLeft ? 'left' : 'center');
  }
  ends.forEach((words, i) => words && write(words, X(total()) + 12, Y(laneY[i]) + 4,
    words == 'no step' || nodes[i].end.phase != 'passive' ? 'ink' : 'mute'));
  let isLeft = true;
  for (const a of arrows.filter(a => a.passage == 'differs').slice(0, 2)) {
    const [x, y, x2, y2] = [X(a.p), Y(a.y), X(a.p2), Y(a.y2)];
    const [aside, align] = isLeft ? [-6, 'right'] : [6, 'left'];
    writeOver(loadWords(a), x + (x2 - x) / 4 + aside, y + (y2 - y) / 4, 'bad', align);
    if (a.to) writeOver(a.to.load, x2 - (x2 - x) / 4 + aside, y2 - (y2 - y) / 4, 'bad', align);
    isLeft = false;
  }
  const seen = size < 5 && view.wide >= 40 ? arrows.filter(isSeen) : [], taken = [];
  if (seen.length < 99) for (const a of seen) if (!isWrong(a)) writeLoad(a, seen, taken);
}
// The words of an arrow, where they lie over no lane, no other arrow and no other words.
function writeLoad(arrow, seen, taken) {
  const words = loadWords(arrow).replace(/ clean| dirty/, ''), w = 3.2 * words.length + 2, h = 8;
  for (const aside of [1, -1]) for (const t of [.37, .63, .3, .7]) {
    const x = X(arrow.p + t * (arrow.p2 - arrow.p)) + aside * (w + 12), y = Y(arrow.y + t * (arrow.y2 - arrow.y));
    const isNearby = a => Math.abs(a.x - x) < a.w + w && Math.abs(a.y - y) < a.h + h;
    if (laneY.some(lane => Math.abs(Y(lane) - y) < h + 12) || taken.some(isNearby)
      || seen.some(a => crosses(a, x, y, w, h))) continue;
    taken.push({x, y, w, h});
    return write(words, x, y + 4, 'ink', 'center', 11);
  }
}
// Whether an arrow goes through a box round a place.
function crosses(a, x, y, w, h) {
  const [x1, y1, x2, y2] = [X(a.p) - x, Y(a.y) - y, X(a.p2) - x, Y(a.y2) - y];
  let [low, high] = [0, 1];
  for (const [from, to, most] of [[x1, x2, w], [y1, y2, h]]) {
    const span = to - from, ends = [(-most - from) / span, (most - from) / span];
    if (!span && Math.abs(from) > most) return false;
    if (span) [low, high] = [max(low, min(...ends)), min(high, max(...ends))];
  }
  return low < high;
}

function cutLine() {
  const at = (e, none) => e ? e.p : none, low = cut.map((k, i) => at(eventAt(i, k), 0));
  const high = cut.map((k, i) => at(eventAt(i, k + 1), total()));
  const [a, b] = [max(...low), min(...high)];
  return low.map((p, i) => a < b ? (a + b) / 2 : min(p + .5, (p + high[i]) / 2));
}
function drawCut() {
  const lanes = cutLine();
  if (isUnrolled) lanes.push(lanes[0]);
  pen(colours.moment, 2);
  ctx.fillStyle = colours.back;
  ctx.globalAlpha = selected ? 0 : .65;
  lanes.forEach((p, i) => {
    const [x, top, low] = [X(p), Y(laneY[i] - half), Y(laneY[i] + half)];
    ctx.fillRect(x, top, wide, low - top);
    ctx.lineTo(x, top);
    ctx.lineTo(x, low);
  });
  ctx.globalAlpha = 1;
  ctx.stroke();
}
function drawAxes() {
  clear(wide, AXIS);
  clear(MARGIN - 8);
  write('column', MARGIN - 12, 14, 'mute', 'right', 11);
  laneY.reduce((free, y, i) => {
    const isHere = selected?.node == i;
    if (Y(y) < free && !isHere) return free;
    write(`node ${i % size}`, MARGIN - 12, Y(y) + 4, isHere ? 'link' : i < size ? 'ink' : 'mute', 'right', 11);
    return Y(y) + 10;
  }, AXIS + 4);
  for (let c = firstColumn ? 0 : 1, free = MARGIN; c < width; c++) {
    const x = X(stands[c]);
    if (x < free || x > wide) continue;
    write(c + firstColumn, x, 14, 'mute', 'center', 11);
    free = x + max(36, view.wide * .8);
  }
}

const room = () => high - AXIS - 4, lowest = () => min(1, room() / HIGH), RIGHT = 130;
function settle() {
  const inside = (x, low, high) => max(low, min(high, x));
  view.wide = inside(view.wide, min(pitch, (wide - MARGIN - RIGHT) / total()), pitch * 4);
  view.high = inside(view.wide / pitch, lowest(), 1.5);
  view.x = inside(view.x, -1, max(-1, total() - (wide - MARGIN - RIGHT) / view.wide));
  view.y = inside(view.y, 0, max(0, HIGH - room() / view.high));
  redraw(true);
}
function zoom(factor, x = wide / 2, y = high / 2) {
  const p = view.x + (x - MARGIN) / view.wide, q = view.y + (y - AXIS) / view.high;
  view.wide *= factor;
  settle();
  [view.x, view.y] = [p - (x - MARGIN) / view.wide, q - (y - AXIS) / view.high];
  settle();
}
function pan(dx, dy) {
  view.x -= dx / view.wide;
  view.y -= dy / view.high;
  settle();
}
const wholeWidth = () => (zoom(0), pan(1e9, 0));
const allLanes = () => zoom(pitch * min(1.3, room() / HIGH) / view.wide);
function reveal(p, y) {
  if (X(p) < MARGIN + 30 || X(p) > wide - 60) view.x = p - (wide - MARGIN) / view.wide / 2;
  if (Y(y) < AXIS + 20 || Y(y) > high - 20) view.y = y - TOP - room() / view.high / 2;
  settle();
}
// All lanes, in the whole width where that can be read; else of a yes who leads, at the right.
function open() {
  allLanes();
  pan(1e9, 0);
  const elected = isYes && order.findLast(e => e.phase == 'leader'), fits = (wide - MARGIN - RIGHT) / total();
  if (fits < view.wide && fits > .6 * pitch) return wholeWidth();
  if (elected) view.x = elected.p + 2 - (wide - MARGIN - RIGHT) / view.wide;
  settle();
}

// What is said beside the picture.
function tag(name, more, ...children) {
  const made = Object.assign(document.createElement(name), more);
  made.append(...children.flat(9).filter(child => child != null));
  return made;
}
const fill = (id, ...children) => $(id).replaceChildren(...children.flat(9).filter(Boolean));
const go = (e, words = nameOf(e)) => tag('button', {className: 'go', onclick: () => select(e)}, words);
const list = pairs => tag('dl', {}, pairs.filter(([, value]) => value).map(([name, value]) =>
  [tag('dt', {}, name), tag('dd', {}, value)]));
const table = (heads, rows) => tag('table', {}, tag('tr', {}, heads.map(head => tag('th', {}, head))),
  rows.map(([isHere, ...cells]) => tag('tr', {className: isHere ? 'here' : ''},
    cells.map(cell => tag('td', {}, cell)))));
const heading = words => tag('h2', {}, words), paragraph = words => tag('p', {}, words);
const owedIn = state => state.split(', owes ')[1];
const counted = (n, what) => `${n} ${what}${n == 1 ? '' : 's'}`;
const isPart = firstColumn > 0 || picture.last < picture.of;

function showEvent() {
  const e = selected, count = is => counted(order.filter(is).length - 1, 'event') + (isPart ? ' of the picture' : '');
  if (!e) return fill('message'), fill('event', 'Select an event, or drag along the columns for a moment.');
  fill('event', heading(nameOf(e)), list([['record', e.record], ['in', placeOf(e)], ['column', `${e.column}`],
    ['before', before(e)], ['after', e.after], ['owes', owedIn(e.after) || 'nothing'],
    ['from', e.from && go(e.from)], ['to', e.to && go(e.to)], ['past', count(isBefore)], ['future', count(isAfter)]]));
  const end = way.at(-1), links = way.filter(it => it.kind == 'send').length;
  fill('message', links && [heading(`message ${end.load}`), paragraph(`${links} of ${size} links; ${wayEnd(end)}`),
    tag('details', {open: way.length < 12}, tag('summary', {}, 'its way'),
      tag('ul', {}, way.map(it => tag('li', {}, go(it), `: ${it.record}`))))]);
}
const wayEnd = end => end.kind == 'send' ? 'nobody receives it so'
  : end.after == before(end) ? `dropped by node ${end.node}` : `it ends at node ${end.node}: ${end.after}`;

const askedWords = picture.asks ? `case ${answer.case} is met here: `
  + picture.asks.map(({node, clause}) => `node ${node} ${clause}`).join(', ') : 'The moment';
function showMoment() {
  const held = cut ? order.filter(e => e.at <= cut[e.node]).length : order.length;
  $('steps').max = order.length;
  $('steps').value = held;
  $('count').value = `${held} of ${order.length} events`;
  if (!cut) return fill('moment');
  const states = cut.map((k, i) => stateAt(i, k)), isAsked = answer.cut && `${cut}` == answer.cut;
  const numbers = cut.map(k => `${k ?? '-'}`);
  const links = cut.map((_, i) => [onTheWay(cut, i), i]).filter(([way]) => way[0]);
  fill('moment', heading(isAsked ? askedWords : 'The moment'), list([['cut', numbers.join(',')],
    ['leads', states.flatMap((state, i) => state.startsWith('leader') ? `node ${i}` : []).join(', ') || 'nobody']]),
    table(['node', 'event', 'state'], states.map((state, i) => [selected?.node == i, `${i}`, numbers[i], state])),
    heading('On the way'), links[0] ? tag('ul', {}, links.map(([way, i]) =>
      tag('li', {}, `from node ${i} to node ${(i + 1) % size}: `,
        way.map((a, k) => [k ? ', ' : '', a.from ? go(a.from, loadWords(a)) : loadWords(a)])))) : paragraph('nothing'));
}

// The answer. Of a no all that explain says, its tables made anew: both sides of the link, or last states, those of the
// node where it begins first.
const leaders = nodes.flatMap(({end}, i) => end.phase == 'leader' ? `node ${i} leads${stateWords(end).slice(6)}` : []);
const title = isYes ? leaders.join('; ') || 'nobody leads yet' : answer.answer;
const all = picture.lanes.reduce((sum, lane) => sum + lane.events, 0);
const counts = `${counted(size, 'node')}, ${counted(all, 'event')}`
  + (isPart ? `, columns ${firstColumn} to ${picture.last} of ${picture.of}` : '')
  + (isLeftOver ? '. What is left, as far as it fits together: all of it is pale' : '');
const prose = page => page.split('\n\n').filter(part => !/\S {2,}\S/.test(part)).flatMap(part =>
  part.trim().split(/\n {2}(?=[A-Z]|hint:)/)).map(words => words.replace(/\s+/g, ' ')).filter(Boolean);
function showAnswer() {
  document.title = `ira: ${title}`;
  $('heading').textContent = title;
  $('d').textContent = [`${title}. ${counts}. Each event stands right of all that happened before it.`,
    ...picture.lanes.slice(0, 64).map(({events, end, no_step, fault}, i) => `node ${i}: ${counted(events, 'event')}, `
      + stateWords(end) + (no_step ? `, then event ${no_step} has no step: ${fault}` : ''))].join('\n');
  $('legend').parentNode.open = isYes;
  if (isYes) return fill('why', heading(title), paragraph(counts));
  const main = eventOf(named.find(o => /received|event/.test(o.role)));
  const earlier = named.filter(o => o.happened_before).flatMap(o => eventOf(o) || []);
  const begin = earlier.find(e => (past = reach([e], 'from'), !earlier.some(o => o != e && isBefore(o)))) || main;
  $('heading').className = 'bad';
  fill('why', heading(title), (isPart || isLeftOver) && paragraph(counts), prose(explanation.page).map(paragraph),
    tag('ul', {}, named.map(o => tag('li', {}, eventOf(o) ? go(eventOf(o)) : nameOf({node: o.node, at: o.event}),
      `: ${o.record} ${o.file}:${o.line} ${roleOf(o)}`))),
    receipt ? bothSides(main) : [...new Set([begin, main])].map(lastStates));
  if (begin) select(begin);
}
function bothSides(main) {
  const all = arrows.filter(a => a.link == link), k = all.findIndex(a => a.to == main);
  return k >= 0 && table(['', `sent by node ${link}`, `received by node ${(link + 1) % size}`, ''],
    all.slice(max(0, k - 2), k + 3).map(a => [a.to == main, `${all.indexOf(a) - k + receipt}`,
      a.from ? go(a.from, a.from.load) : a.sent == null ? '-' : loadWords(a), a.to ? go(a.to, a.to.load) : '-',
      a.passage == 'differs' ? 'differs' : '']));
}
const due = e => e.after == 'no step' && owedIn(before(e));
const lastStates = e => e && table([`node ${e.node}`, 'record', 'after it'],
  nodes[e.node].events.slice(max(0, e.at - nodes[e.node].left - 5), e.at - nodes[e.node].left)
  .map(it => [it == e, go(it, `${it.at}`), it.record, due(it) ? `no step: send ${due(it)} is due`
    : it.after]));

const has = kind => bands.some(band => band.kind == kind), drawnAs = is => arrows.some(is);
const bar = kind => () => {
  const [colour, thick, dash] = bandStyles[kind];
  pen(colours[colour], thick, dash);
  line(2, 9, 34, 9);
  ctx.stroke();
};
const arrow = (style, tip) => () => drawArrows(style, tip, [[2, 9, 34, 9]], 1);
const mark = kind => () => (ctx.fillStyle = colours.ink, ctx.beginPath(), drawMark(kind, 18, 9, 3.5), ctx.fill());
function showLegend() {
  const isEvent = e => e.kind != 'draw', pair = `${order.some(e => e.term) ? 'term/' : ''}round:ID`;
  fill('legend', [
    ['event', order.some(isEvent), mark('')], ['draw', !order.every(isEvent), mark('draw')],
    ['choosing', has('choosing'), bar('choosing')], [`active, as ${pair}`, has('active'), bar('active')],
    ['passive', has('passive'), bar('passive')], ['leader', has('leader'), bar('leader')],
    ['leader by its own log alone', has('doubted'), bar('doubted')], ['yielding', has('yielding'), bar('yielding')],
    ['owes a message', has('owes'), bar('owes')],
    ['message', drawnAs(a => a.style == 'message'), arrow('message', 'head')],
    ['dirty', drawnAs(a => a.style == 'dirty'), arrow('dirty', 'head')],
    ['reset', drawnAs(a => a.style == 'reset'), arrow('reset', 'head')],
    ['dropped', drawnAs(a => a.tip == 'cross'), arrow('message', 'cross')],
    ['not received', drawnAs(a => a.tip == 'ring'), arrow('message', 'ring')],
    ['the lap that elected the leader', drawnAs(a => a.style == 'lap'), arrow('lap', 'head')],
    ['not the same message', drawnAs(a => a.style == 'wrong'), arrow('wrong', 'head')],
    ['no later than it was sent', drawnAs(a => a.style == 'back'), arrow('back', 'head')],
    ['no state', has('no state'), bar('no state')],
  ].map(([words, isUsed, draw]) => isUsed && tag('div', {}, onPaper(new Paper(36, 18), draw), words)));
}

function show(e, to) {
  [selected, cut, way] = [e, to, e ? wayOf(e) : []];
  if (e) [past, first] = [to, reach([e], 'to')];
  if (alone || isFolded) layColumns();
  panelLater ||= setTimeout(showPanel, 40);
  redraw();
}
let panelLater;
function showPanel() {
  panelLater = 0;
  showEvent();
  showMoment();
}
function select(e) {
  show(e, reach([e], 'from'));
  history.replaceState(null, '', `#node${e.node}.${e.at}`);
  reveal(e.p, laneY[e.node]);
}
const setMoment = to => show(null, to);
const momentAt = x => setMoment(cutAt(stands.findLastIndex(p => X(p) <= x) + firstColumn));
function step(d) {
  const from = cut || nodes.map(({left}) => left), isIn = e => e.at <= from[e.node];
  const e = d > 0 ? order.find(e => !isIn(e)) : order.findLast(isIn);
  if (!e) return play(true), setMoment();
  setMoment(from.map((k, i) => i == e.node ? e.at - (d < 0) : k));
  reveal(e.p, laneY[e.node]);
}
let playing;
function play(isEnd) {
  playing = playing || isEnd ? clearInterval(playing) : setInterval(step, 400, 1);
  $('play').textContent = playing ? 'Pause' : 'Play';
}
function found(text) {
  const [a, b] = text.match(/\d+/g) || [], is = pattern => pattern.test(text);
  return order.filter(is(/^(node )?\d+(\.| event | )\d+$/i) ? e => e.node == a && e.at == b
    : is(/^round \d+$/i) ? e => e.inRound == a
    : is(/^id \d+$/i) ? e => e.ofID == a : e => placeOf(e).endsWith(text) || e.record.includes(text));
}
function search() {
  const text = $('search').value.trim(), hits = text ? found(text) : [];
  fill('hits', hits.slice(0, 99).map(e => tag('li', {}, go(e), `: ${e.record} ${placeOf(e)}`)),
    text && !hits[0] && tag('li', {}, 'nothing'));
  return hits;
}
const actions = [
  ['ArrowLeft', 'the event before, of the node', e => beside(e, -1)], ['ArrowRight', 'the next one', e => beside(e, 1)],
  ['ArrowUp', 'from a receipt to its sending', e => e.from || beside(e, -1)],
  ['ArrowDown', 'from a sending to its receipt', e => e.to || beside(e, 1)],
  [',', 'the event before, in the order', e => order[e.rank - 1]], ['.', 'the next one', e => order[e.rank + 1]],
  ['Home', 'the first event of the node', e => nodes[e.node].events[0]],
  ['End', 'its last one', e => nodes[e.node].events.at(-1)],
  ['[', 'a moment one event earlier', () => step(-1)], [']', 'one event later', () => step(1)],
  [' ', 'play or pause', () => play()], ['+', 'zoom in', () => zoom(1.25)], ['-', 'zoom out', () => zoom(.8)],
  ['w', 'the whole width', wholeWidth], ['0', 'all lanes', allLanes],
  ['h', 'left', () => pan(120, 0)], ['l', 'right', () => pan(-120, 0)],
  ['k', 'up', () => pan(0, 80)], ['j', 'down', () => pan(0, -80)],
  ['f', 'fold passive stretches', () => $('fold').click()], ['/', 'search', () => $('search').focus()],
  ['Escape', 'clear', () => setMoment()], ['?', 'these keys', () => $('help').showModal()],
];
function act(key) {
  const action = actions.find(([name]) => name == key);
  const e = action?.[2](selected || {node: 0, at: nodes[0].left, rank: -1});
  if (e?.record) select(e);
  return action;
}
canvas.onkeydown = event => event.ctrlKey || event.metaKey || event.altKey || !act(event.key) || event.preventDefault();
for (const button of document.querySelectorAll('[data-key]')) button.onclick = () => act(button.dataset.key);

// A click selects, a drag moves the picture or the moment, two fingers zoom.
function near(x, y) {
  const onLane = e => min(...lanesOf(e).map(lane => hypot(X(e.p) - x, Y(lane) - y)));
  const onArrow = ({p, y: from, p2, y2}) => {
    const [u, v, a, b] = [X(p2) - X(p), Y(y2) - Y(from), x - X(p), y - Y(from)], t = (u * a + v * b) / (u * u + v * v);
    return t > 0 && t < 1 ? hypot(a - t * u, b - t * v) : 99;
  };
  const [best] = order.filter(e => onLane(e) < 14).sort((a, b) => onLane(a) - onLane(b));
  const arrow = !best && arrows.find(a => onArrow(a) < 5);
  return best || arrow?.from || arrow?.to;
}
const pointers = new Map;
let isMoment, moved, apart;
canvas.onpointerdown = event => {
  const {offsetX: x, offsetY: y} = event, lane = max(0, laneY.findLastIndex(lane => Y(lane) - half < y)) % size;
  canvas.setPointerCapture(event.pointerId);
  pointers.set(event.pointerId, {x, y});
  moved = apart = 0;
  isMoment = y < AXIS || event.shiftKey || cut && Math.abs(X(cutLine()[lane]) - x) < 5 && !near(x, y);
  if (isMoment) momentAt(x);
};
canvas.onpointermove = event => {
  const last = pointers.get(event.pointerId), {offsetX: x, offsetY: y} = event;
  if (!last) {
    const e = near(x, y);
    canvas.title = e ? `${nameOf(e)}: ${e.record}\n${e.after}` : '';
    return;
  }
  pointers.set(event.pointerId, {x, y});
  moved += hypot(x - last.x, y - last.y);
  if (pointers.size == 2) {
    const [a, b] = [...pointers.values()], now = hypot(a.x - b.x, a.y - b.y);
    if (apart) zoom(now / apart, (a.x + b.x) / 2, (a.y + b.y) / 2);
    apart = now;
  } else if (isMoment) momentAt(x);
  else pan(x - last.x, y - last.y);
};
canvas.onpointerup = canvas.onpointercancel = event => {
  const e = pointers.delete(event.pointerId) && moved < 4 && !isMoment && near(event.offsetX, event.offsetY);
  if (e) select(e);
};
canvas.onwheel = event => {
  const {deltaX: dx, deltaY: dy, shiftKey, ctrlKey} = event;
  event.preventDefault();
  if (shiftKey || Math.abs(dx) > Math.abs(dy)) pan(-dx - shiftKey * dy, 0);
  else zoom(Math.exp(-dy * (ctrlKey ? .01 : .0015)), event.offsetX, event.offsetY);
};

const turns = order.flatMap(({turn}) => [turn.replace(/round.*/, ''), turn]).filter(turn => !turn.includes('round 0'));
const inOrder = (a, b) => a.localeCompare(b, 'en', {numeric: true});
fill('alone', ['all', ...[...new Set(turns)].sort(inOrder)].map(words => tag('option', {}, words)));
$('alone').onchange = $('fold').onchange = () => {
  [alone, isFolded] = [$('alone').selectedIndex ? $('alone').value + ' ' : '', $('fold').checked];
  layColumns();
  redraw();
  settle();
};
$('steps').oninput = event => {
  const to = nodes.map(({left}) => left);
  for (const e of order.slice(0, event.target.value)) to[e.node] = e.at;
  setMoment(to);
};
$('search').oninput = search;
$('search').onkeydown = event => {
  const hit = event.key == 'Enter' && search()[0];
  if (hit) select(hit);
  if (hit || event.key == 'Escape') fill('hits'), canvas.focus();
};
document.onclick = event => event.target.id == 'search' || fill('hits');
fill('list', list(actions.map(([key, words]) => [key == ' ' ? 'Space' : key, words])));

onhashchange = () => {
  const [, i, at] = /^#node(\d+)\.(\d+)$/.exec(location.hash) || [], e = eventAt(i, at);
  if (e) select(e);
};
function resize() {
  [wide, high] = [$('stage').clientWidth, $('stage').clientHeight];
  if (!wide) return;
  [canvas.width, canvas.height] = [wide * devicePixelRatio, high * devicePixelRatio];
  redraw();
  settle();
}
// The whole picture as SVG.
function printed() {
  const [was, ...sizes] = [{...view}, wide, high];
  Object.assign(view, {x: -1, y: 0, wide: pitch, high: 1});
  [wide, high] = [MARGIN + (total() + 1) * pitch + RIGHT, AXIS + HIGH];
  const made = onPaper(new Paper(wide, high), () => (drawScene(), drawOver()));
  Object.assign(view, was);
  [wide, high] = sizes;
  return made;
}
onbeforeprint = () => $('print').replaceChildren(heading(title), printed());
matchMedia('(prefers-color-scheme:dark)').onchange = () => redraw();
$('page').className = isYes ? 'yes' : 'no';
layColumns();
resize();
new ResizeObserver(resize).observe($('stage'));
open();
showLegend();
setMoment(answer.cut);
showAnswer();
if (answer.cut) reveal(cutLine()[0], 0);
onhashchange();
"#;
