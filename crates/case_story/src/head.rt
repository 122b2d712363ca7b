//! The front of a page: nothing that it is shown with is fetched, and nothing in it runs.

/// What stands before the title.
pub(crate) const FRONT: &str = "<!doctype html>
<html lang=\"en\"><head><meta charset=\"utf-8\">
<meta http-equiv=\"Content-Security-Policy\" \
    content=\"default-src 'none'; style-src 'unsafe-inline'\">
<meta name=\"viewport\" content=\"width=device-width, initial-scale=1\">
<title>";

/// What stands between the title and the body.
pub(crate) const STYLE: &str = "</title>
<style>
:root{color-scheme:light dark;--ink:#1c2128;--dim:#57606a;--line:#d0d7de;--paper:#fff;
--done:#dcf1e1;--held:#fdf0c8;--no:#a4231c;--edit:#edf3fb}
@media(prefers-color-scheme:dark){:root{--ink:#e2e7ec;--dim:#9aa5b1;--line:#3a434d;--paper:#14181d;
--done:#1c3a26;--held:#453a14;--no:#ff9c92;--edit:#1a2635}}
body{max-width:70rem;margin:auto;padding:1.5rem 1rem 3rem;background:var(--paper);color:var(--ink);
font:1rem/1.5 system-ui,sans-serif}
h1{margin:0;font-size:1.8rem}h2{margin:2rem 0 .5rem;font-size:1.2rem}
p{margin:.4rem 0}.lead{font-size:1.1rem}.told{color:var(--dim)}
.wide{overflow-x:auto;margin:.5rem 0 1rem}
svg{display:block;max-width:100%;height:auto;fill:var(--ink);font-size:13px}.big{max-width:none}
@media screen and (max-width:50rem){svg{max-width:none}}
rect{fill:var(--paper);stroke:var(--dim);stroke-width:1.5}
.done rect{fill:var(--done)}.held rect{fill:var(--held);stroke-width:3}
.wait rect{stroke-dasharray:5 4}
.s{font-weight:600;font-size:14px}.r{fill:var(--dim);font-size:12px}marker path{fill:var(--dim)}
.a{fill:none;stroke:var(--dim);stroke-width:1.5;stroke-linejoin:round;marker-end:url(#a)}
table{border-collapse:collapse;width:100%;font-size:.95rem}
th,td{text-align:left;vertical-align:top;padding:.35rem .7rem .35rem 0;font-weight:400;
border-bottom:1px solid var(--line)}
thead th{color:var(--dim);font-size:.85rem}
.no>td:last-child{color:var(--no)}.edit{background:var(--edit)}
b{font-weight:600;font-size:.8rem;border:1px solid;border-radius:3px;padding:0 .3rem}
details{color:var(--ink)}summary{color:var(--dim)}
pre{white-space:pre-wrap;margin:.2rem 0;font:.85rem/1.45 ui-monospace,monospace}
@media print{:root{--ink:#000;--dim:#444;--line:#999;--paper:#fff;--done:#e8f5eb;--held:#fdf5dc;
--no:#000;--edit:#f2f2f2}body{max-width:none;padding:0}tr,svg{break-inside:avoid}
.wide{overflow:visible}svg,.big{max-width:100%}}
</style></head>
<body>
<h1>";

/// What stands before the rows of the history.
pub(crate) const HISTORY: &str = "<div class=\"wide\"><table><thead><tr>\
    <th scope=\"col\">Entry</th><th scope=\"col\">Line</th><th scope=\"col\">Asked</th>\
    <th scope=\"col\">Answer</th></tr></thead><tbody>\n";

/// What stands behind them.
pub(crate) const END: &str = "</tbody></table></div>\n</body></html>\n";
