//! The style of a page.

/// One style sheet for every page: light and dark by what the reader of it prefers, and paper always light.
pub(crate) const STYLE: &str =
    r#":root{--ground:#fbfaf7;--card:#fff;--ink:#1d2321;--soft:#5c6662;--hair:#dcdfd9;--rule:#8d9691;--lead:#1f5f43;--bad:#a3301c;
--u1:#fbe8cf;--u2:#f6cb95;--u3:#ec9f4c;--o1:#deebf6;--o2:#aecfea;--o3:#6fa9d8;--waste:#d5d7d2;
--c0:#2b7a4b;--c1:#dccb72;--c2:#5c51a3;--c3:#cf6a7b;--c4:#7fc3e6;--c5:#8a2a5b;--c6:#9a9a35;--c7:#45a99a;--up:#c4681a;--down:#2f74b5}
@media screen and (prefers-color-scheme:dark){:root{--ground:#14181a;--card:#1b2023;--ink:#e8ebe8;--soft:#9ba5a1;--hair:#30373a;--rule:#6c7673;--lead:#63c08f;--bad:#ef8a73;
--u1:#3a2b19;--u2:#694518;--u3:#985a14;--o1:#192b3b;--o2:#204767;--o3:#2a659c;--waste:#4a5154;
--c0:#46a56b;--c1:#d9c871;--c2:#9187da;--c3:#de8291;--c4:#84c6e8;--c5:#c4608f;--c6:#b3b34d;--c7:#5cc2b2;--up:#ef9f52;--down:#72b2ea}}
*{box-sizing:border-box}
html{-webkit-text-size-adjust:100%;text-size-adjust:100%}
body{margin:0 auto;max-width:1080px;padding:40px 32px 56px;background:var(--ground);color:var(--ink);font:15px/1.45 -apple-system,"Segoe UI",Roboto,"Helvetica Neue",Arial,"Liberation Sans",sans-serif;font-variant-numeric:tabular-nums lining-nums}
h1,h2,p,figure,dl,dd{margin:0}
h1{font-size:32px;line-height:1.15;font-weight:650;letter-spacing:-.01em}
h2{font-size:20px;line-height:1.25;font-weight:650;margin-bottom:8px}
h2 small,figcaption small,caption small{font-weight:400;color:var(--soft);font-size:13px}
section{margin-top:48px}
.assortment{border-top:1px solid var(--rule);padding-top:20px}
.over{color:var(--lead);font-weight:650;font-size:13px;margin-bottom:6px}
.files{color:var(--soft);font-size:13px;margin-top:8px;overflow-wrap:anywhere}
.lead{color:var(--soft);max-width:72ch;margin-bottom:12px}
.verdict{display:flex;gap:12px;margin:24px 0;padding:12px 16px;background:var(--card);border:1px solid var(--hair);border-left:4px solid var(--lead)}
.verdict svg{flex:none;margin-top:1px}
.verdict circle{fill:var(--lead)}
.verdict path{fill:none;stroke:var(--card);stroke-width:2}
.verdict b{color:var(--lead)}
.bad{border-left-color:var(--bad)}
.bad circle{fill:var(--bad)}
.bad b{color:var(--bad)}
.top{display:grid;grid-template-columns:1fr 1fr;gap:24px 40px;align-items:start}
.tiles{display:grid;grid-template-columns:1fr 1fr;gap:20px 24px}
.tile{border-top:1px solid var(--rule);padding-top:8px}
.tile b{display:block;font-size:28px;line-height:1.15;font-weight:650}
.tile b small{font-size:15px;font-weight:400;margin-left:4px}
.tile span{color:var(--soft);font-size:13px}
table{border-collapse:collapse}
th{font-weight:400;text-align:left}
td{text-align:right;white-space:nowrap}
s{text-decoration:none;display:block;color:var(--soft);font-size:12px}
caption{text-align:left;font-weight:650;padding-bottom:6px}
.account{width:100%;border-top:1px solid var(--rule)}
.account caption{padding-top:0}
.account th,.account td{padding:7px 0;border-bottom:1px solid var(--hair)}
.account td{padding-left:16px}
.account .total th,.account .total td{font-weight:650;border-bottom:2px solid var(--ink)}
.account .aside th,.account .aside td{color:var(--soft);border:0}
.scroll{overflow-x:auto}
.list{width:100%}
.list th,.list td{padding:6px 0 6px 16px;border-bottom:1px solid var(--hair);vertical-align:top}
.list th:first-child{padding-left:0}
.list thead th,.list thead td{font-size:13px;color:var(--soft);text-align:right;vertical-align:bottom;border-bottom:1px solid var(--rule)}
.list thead th:first-child{text-align:left}
.list .total th,.list .total td{font-weight:650;border-bottom:0;border-top:1px solid var(--rule)}
.list tbody th{min-width:9em}
.list a{color:inherit;text-decoration-color:var(--rule);text-underline-offset:3px}
.wide{min-width:100px;width:20%}
.bar{display:block;width:100%;height:14px;margin-top:4px}
.bar .back{fill:var(--hair)}
.bar .fill{fill:var(--lead)}
.bar .halo{stroke:var(--ground);stroke-width:6;vector-effect:non-scaling-stroke}
.bar .tick{stroke:var(--ink);stroke-width:2;vector-effect:non-scaling-stroke}
.chip{white-space:nowrap;font-weight:650}
.chip i{display:inline-block;width:.72em;height:.72em;margin-right:.35em}
.charts{display:grid;grid-template-columns:1fr 1fr;gap:24px 40px;margin-top:16px}
.matrices{display:grid;grid-template-columns:1fr 1fr;gap:24px 40px;margin-top:28px}
.one{grid-template-columns:1fr}
figcaption{font-weight:650;margin-bottom:6px}
figure{min-width:0}
.chart{display:grid;grid-template-columns:44px 1fr;padding-top:14px}
.plot{position:relative}
.plot svg{display:block;width:100%;height:150px;overflow:visible}
.ys{position:relative}
.ys span{position:absolute;right:8px;transform:translateY(-50%);font-size:12px;color:var(--soft)}
.xs{position:relative;height:20px;grid-column:2}
.xs span{position:absolute;top:3px;transform:translateX(-50%);font-size:12px;color:var(--soft)}
.xtitle{grid-column:2;text-align:right;font-size:12px;color:var(--soft);margin-top:-2px}
.grid{stroke:var(--hair);stroke-width:1;fill:none;vector-effect:non-scaling-stroke}
.mark{stroke:var(--rule);stroke-width:1;stroke-dasharray:2 2;fill:none;vector-effect:non-scaling-stroke}
.flag{position:absolute;top:-17px;transform:translateX(-50%);font-size:12px;color:var(--soft)}
.curve{fill:none;stroke-width:2;stroke-linejoin:round;vector-effect:non-scaling-stroke}
.degree{stroke:var(--lead)}
.without{stroke:var(--soft);stroke-width:1;stroke-dasharray:4 2}
.up0,.up1{stroke:var(--up);stroke-width:2.5}
.down0,.down1{stroke:var(--down);stroke-width:1.5}
.up1,.down1{stroke-dasharray:5 3}
.keys{font-size:13px;color:var(--soft);margin-top:6px}
.key{display:inline-block;margin-right:16px}
.key svg{margin-right:6px;vertical-align:middle}
.none{color:var(--soft)}
.swatch{white-space:nowrap;margin:0 10px 0 2px;display:inline-block}
.swatch i{display:inline-block;width:1.5em;height:1em;margin-right:4px;vertical-align:-2px}
.matrix{width:100%;table-layout:fixed}
.matrix .corner{width:84px}
.matrix th,.matrix td{padding:4px 7px;font-size:14px;border:1px solid var(--ground)}
.matrix td{background:var(--card);line-height:1.3}
.matrix td b{font-weight:650;display:block}
.matrix th{color:var(--soft);font-size:13px;white-space:nowrap;padding-left:0}
.matrix thead th{text-align:right;padding-left:7px}
.matrix thead .corner{text-align:left;padding-left:0}
.matrix td.sum{background:transparent}
.matrix .whole{vertical-align:bottom}
.tight th,.tight td{font-size:10px;padding:2px}
.matrix .u1,.swatch .u1{background:var(--u1)}
.matrix .u2,.swatch .u2{background:var(--u2)}
.matrix .u3,.swatch .u3{background:var(--u3)}
.matrix .o1,.swatch .o1{background:var(--o1)}
.matrix .o2,.swatch .o2{background:var(--o2)}
.matrix .o3,.swatch .o3{background:var(--o3)}
.matrix .u1,.matrix .u2,.matrix .u3,.swatch .u1,.swatch .u2,.swatch .u3{box-shadow:inset 3px 0 0 var(--up)}
.tight .u1,.tight .u2,.tight .u3{box-shadow:inset 2px 0 0 var(--up)}
.matrix [class^=u] s,.matrix [class^=o] s{color:inherit}
.matrix .shut{color:var(--rule);text-align:center;background:transparent}
.a0,.a8{background:var(--c0);fill:var(--c0)}
.a1,.a9{background:var(--c1);fill:var(--c1)}
.a2,.a10{background:var(--c2);fill:var(--c2)}
.a3,.a11{background:var(--c3);fill:var(--c3)}
.a4,.a12{background:var(--c4);fill:var(--c4)}
.a5,.a13{background:var(--c5);fill:var(--c5)}
.a6,.a14{background:var(--c6);fill:var(--c6)}
.a7,.a15{background:var(--c7);fill:var(--c7)}
.a8,.a9,.a10,.a11,.a12,.a13,.a14,.a15{opacity:.55}
.stem{margin-top:28px}
.rows{display:grid;grid-template-columns:64px 1fr;margin-top:8px}
.rowname{font-size:12px;line-height:1.25;color:var(--soft);padding-top:1px}
.rowname.low{padding-top:3px}
.rows svg{display:block;width:100%;height:76px}
.waste{fill:var(--waste)}
.log{stroke:var(--ground);stroke-width:2;vector-effect:non-scaling-stroke}
.labels,.blocks,.grades{position:relative}
.labels{height:36px}
.labels span,.blocks span,.grades span{position:absolute;top:0;text-align:center;overflow:hidden;white-space:nowrap;font-size:12px;line-height:16px}
.labels span{padding-top:2px}
.blocks{height:36px;margin-top:6px}
.blocks i{display:block;height:8px;margin:0 1px}
.grades{height:18px}
.grades span{height:14px;line-height:14px;font-size:11px;border-left:1px solid var(--ground);background:var(--hair)}
.grades .g2{background:var(--waste)}
.grades .g3,.grades .g4,.grades .g5,.grades .g6,.grades .g7,.grades .g8{background:var(--soft);color:var(--ground)}
.notes dl{display:grid;grid-template-columns:9em 1fr;gap:6px 16px;font-size:13px}
.notes dd{color:var(--soft);max-width:80ch}
code{font-family:ui-monospace,"Liberation Mono",monospace;font-size:.92em}
.list .groups th{padding-bottom:2px;color:var(--ink);white-space:nowrap;text-align:right;border-bottom:0}
.list .groups td{border-bottom:0}
.list .first{padding-left:28px}
.list .none{text-align:left;font-size:13px}
.list .groups+tr th,#lacking tbody th{white-space:nowrap}
.stacks{margin:4px 0 16px;row-gap:4px}
.rows .stack{height:18px}
.stack rect{stroke:var(--ground);stroke-width:1;vector-effect:non-scaling-stroke}
.begin{stroke-dasharray:none}
@media screen and (max-width:760px){.scroll th:first-child{position:sticky;left:0;background:var(--ground)}body{padding:24px 16px 40px}h1{font-size:26px}.top,.charts,.matrices{grid-template-columns:1fr}.notes dl{grid-template-columns:1fr;gap:0}.notes dd{margin-bottom:8px}.rows{grid-template-columns:56px 1fr}.list .wide{display:none}.list tbody th{min-width:7em}.list .groups th{text-align:left;padding-left:28px}}
@media print{@page{margin:13mm}body{max-width:none;padding:0;font-size:12px;background:#fff}:root{--ground:#fff}*{-webkit-print-color-adjust:exact;print-color-adjust:exact}figure,.tile,.account,tr,dt,dd,.verdict{break-inside:avoid}h2,.lead{break-after:avoid}section{break-inside:avoid}#stems{break-inside:auto}section{margin-top:28px}.scroll{overflow:visible}.matrix{min-width:0!important}.matrix .corner{width:64px}.matrix td{white-space:normal}.plot svg{height:120px}.matrices{grid-template-columns:1fr}.wide{width:14%}.matrix th,.matrix td{padding:2px 4px;font-size:11px}.tight th,.tight td{font-size:7px;padding:1px}s,.keys,small,.lead,.list thead th,.list thead td,.list .none{font-size:10px}}
"#;
