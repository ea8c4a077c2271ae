//! What a page has round what is told, and round its script.

/// Up to what is told: the style, and what the script fills.
pub(crate) const HEAD: &str = r#"<!doctype html>
<html lang="en">
<head>
<meta charset="utf-8">
<meta name="viewport" content="width=device-width">
<meta http-equiv="Content-Security-Policy"
content="default-src 'none'; style-src 'unsafe-inline'; script-src 'sha256-vtpNONwWbBb0R7msINumUsypc1vy/KlU9kZcJ+P8nNo='">
<title>ira</title>
<style>
:root{color-scheme:light dark;--back:#fff;--ink:#1f2328;--mute:#57606a;--line:#d0d7de;
--fill:#f6f8fa;--link:#0550ae;--moment:#a8326e;--bad:#b3370a;--message:#57606a;--choosing:#e69f00;
--active:#56b4e9;--passive:#c4cad1;--leader:#009e73;--yielding:#cc79a7}
@media screen and (prefers-color-scheme:dark){:root{--back:#0d1117;--ink:#f0f3f6;--mute:#9198a1;--line:#3d444d;
--fill:#151b23;--link:#71b7ff;--moment:#f093c6;--bad:#ff8350;--message:#a3acb6;--choosing:#c98a00;
--active:#2b7bb0;--passive:#4c545d;--leader:#00b083;--yielding:#a85f88}}
body{margin:0;font:14px/1.4 system-ui,sans-serif;color:var(--ink);background:var(--back)}
#page{display:grid;grid-template:auto 1fr auto/1fr 24em;height:100vh}
#page.no{grid-template-columns:1fr minmax(24em,36%)}
#print{display:none}
header,footer{grid-column:1/-1;display:flex;flex-wrap:wrap;gap:6px 10px;align-items:center;
padding:7px 12px;background:var(--fill)}
h1{font-size:16px;margin:0 auto 0 0}
h2{font-size:15px;margin:0 0 4px}
.bad{color:var(--bad)}
dt,th{color:var(--mute)}
button,input,select{font:inherit;color:inherit;background:var(--back);
border:1px solid var(--line);border-radius:5px;padding:2px 8px}
#steps{flex:1}
#found{position:relative}
#hits{position:absolute;right:0;z-index:1;margin:0;padding:0;width:26em;
max-height:60vh;overflow:auto;list-style:none;background:var(--fill)}
#stage{position:relative}
canvas{position:absolute;width:100%;height:100%;touch-action:none;cursor:grab}
aside{overflow:auto;padding:10px 14px;border-left:1px solid var(--line)}
section{margin:0 0 16px}
dl{display:grid;grid-template-columns:max-content 1fr;gap:1px 10px;margin:0}
dd,p{margin:0;overflow-wrap:anywhere}
td,th{text-align:left;vertical-align:top;padding:0 9px 2px 0;font-weight:400}
th,td:nth-child(-n+2){white-space:nowrap}
#why p{margin:0 0 6px}
#legend div{display:flex;gap:8px;align-items:center}
.here td{font-weight:600}
ul{margin:2px 0;padding-left:18px}
.go{border:0;padding:0;background:none;color:var(--link);text-align:left;cursor:pointer}
@media(max-width:760px){#page,#page.no{grid-template:auto 55vh auto auto/1fr;height:auto}}
@media print{#page{display:none}#print{display:block}#print svg{max-width:100%;height:auto}}
</style>
</head>
<body>
<div id="page">
<header>
<h1 id="heading"></h1>
<label>Show <select id="alone"></select></label>
<label><input type="checkbox" id="fold"> fold passive</label>
<div id="found"><input type="search" id="search" size="28" placeholder="3.14, FILE:LINE, round 2, ID 7"
aria-label="Search by node and event, file and line, round or ID"><ol id="hits"></ol></div>
<button data-key="-" aria-label="Zoom out">&minus;</button><button data-key="+" aria-label="Zoom in">+</button>
<button data-key="w">Whole width</button><button data-key="0">All lanes</button><button data-key="?">Keys</button>
</header>
<div id="stage"><canvas id="view" tabindex="0" role="application"
aria-label="Picture of the ring: arrow keys go from event to event, and ? lists all keys"
aria-describedby="d"></canvas><p id="d" hidden></p></div>
<aside aria-label="What is told"><section id="why"></section><section id="event" aria-live="polite"></section>
<section id="message"></section><section id="moment" aria-live="polite"></section>
<details><summary>Legend</summary><div id="legend"></div></details></aside>
<footer>
<button data-key=" " id="play">Play</button>
<button data-key="[" aria-label="One event back">&lsaquo;</button>
<button data-key="]" aria-label="One event on">&rsaquo;</button>
<input type="range" id="steps" min="0" aria-label="The moment after so many events"><output id="count"></output>
<button data-key="Escape">Clear</button>
</footer>
<dialog id="help"><h2>Keys</h2><div id="list"></div><form method="dialog"><button>Close</button></form></dialog>
</div>
<div id="print"></div>
<noscript>This page needs a script. ira draw --out NAME.svg makes a picture that needs none.</noscript>
<script type="application/x-ndjson" id="data">
"#;

/// From what is told to the script.
pub(crate) const MIDDLE: &str = "</script>\n<script>\n";

/// After the script.
pub(crate) const FOOT: &str = "</script>\n</body>\n</html>\n";
