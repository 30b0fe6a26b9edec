//! What is the same on every page.

/// In front of the title.
pub(crate) const HEAD: &str =
    "<!doctype html>\n<html lang=\"en\">\n<head>\n<meta charset=\"utf-8\">\n<meta name=\"viewport\" content=\"width=device-width, initial-scale=1\">\n<title>";

/// Behind it: how all looks, in light and in dark, on paper and on a telephone.
pub(crate) const STYLE: &str =
    "</title>\n<style>:root{color-scheme:light dark;--ground:#ffffff;--ink:#1b1f24;--soft:#57606a;--line:#d0d7de;--mark:#fff1b8;--panel:#f6f8fa}@media (prefers-color-scheme:dark){:root{--ground:#14171b;--ink:#e6e9ed;--soft:#9aa4af;--line:#3a424b;--mark:#5a4a00;--panel:#1d2228}}*{box-sizing:border-box}body{margin:0 auto;padding:1rem;max-width:72rem;background:var(--ground);color:var(--ink);font:1rem/1.5 system-ui,sans-serif}h1{font-size:1.4rem;overflow-wrap:anywhere}h2{font-size:1.1rem}.verdict{font-weight:600}pre{white-space:pre-wrap;overflow-wrap:anywhere;font:.85rem/1.5 ui-monospace,monospace;background:var(--panel);padding:.75rem;border-radius:.4rem}pre span{display:block;border-radius:.2rem}figure{margin:1rem 0;overflow-x:auto;background:#ffffff;border-radius:.4rem}figure svg{max-width:100%;height:auto}figure:empty,h2:empty,p:empty{display:none}.wide{overflow-x:auto}table{border-collapse:collapse;font-size:.9rem}th,td{border:1px solid var(--line);padding:.3rem .5rem;text-align:left}.on{background:var(--mark)}.off{opacity:.25}[tabindex]:focus-visible,input:focus-visible{outline:2px solid #0969da}input{font:inherit;max-width:100%;padding:.3rem;color:inherit;background:var(--panel);border:1px solid var(--line)}@media print{.find{display:none}body{max-width:none}pre,figure,table{break-inside:avoid}}</style>\n</head>\n";

/// In front of the heading.
pub(crate) const HEADING: &str = "<body>\n<h1>";

/// In front of the verdict.
pub(crate) const VERDICT: &str = "</h1>\n<p class=\"verdict\">";

/// In front of the name of what was found.
pub(crate) const NAME: &str = "</p>\n<h2>";

/// In front of what it means.
pub(crate) const MEANING: &str = "</h2>\n<p>";

/// In front of the picture.
pub(crate) const PICTURE: &str = "</p>\n<figure>";

/// In front of the explanation.
pub(crate) const TEXT: &str =
    "</figure>\n<p class=\"find\"><label>Transaction <input id=\"find\" type=\"search\"></label> <span id=\"said\" role=\"status\"></span></p>\n<div id=\"beside\"><h2>Beside one another, in the order of the lines</h2>\n<div id=\"table\" class=\"wide\"></div></div>\n<h2>Explanation</h2>\n<pre id=\"text\">";

/// Behind it: what tells the steps of a cycle from the explanation, and marks their lines.
pub(crate) const SCRIPT: &str =
    "</pre>\n<script>const text=document.getElementById(\"text\"),place=document.getElementById(\"table\"),find=document.getElementById(\"find\"),said=document.getElementById(\"said\");\nconst step=/^  (\\d+) (.+) before (\\d+) (.+): site (\\d+), lines (\\d+) and (\\d+)$/,entry=/^ *(\\d+) \\| /;\nconst id='(\"(?:[^\"\\\\\\\\]|\\\\\\\\.)*\"|-?\\\\d+)',edge=new RegExp(\"^\"+id+\" (ww|wr|rw) \"+id+\" \"+id+\" (\\\\d+) (\\\\d+) lines (\\\\d+) (\\\\d+)$\"),pair=new RegExp(\"^\"+id+\" (po|rt) \"+id+\" (.+) lines (\\\\d+) (\\\\d+)$\");\nconst deeds={ww:[\"wrote\",\"wrote\"],wr:[\"wrote\",\"read\"],rw:[\"read\",\"wrote\"]};\nconst ofPair=m=>{const both=m[4].split(\" begin \");return[m[1],both[0],m[3],both[1]?\"begin \"+both[1]:both[0],\"\",m[5],m[6]]};\nconst ofEdge=m=>{const did=deeds[m[2]];return[m[1],did[0]+\" \"+m[4]+\" version \"+m[5],m[3],did[1]+\" \"+m[4]+\" version \"+m[6],\"\",m[7],m[8]]};\nconst told=line=>{let m=step.exec(line);if(m)return m.slice(1);if(m=edge.exec(line))return ofEdge(m);return(m=pair.exec(line))?ofPair(m):null};\nconst cells=new Map(),names=[],spans=[];\nconst put=(tx,did,site,line)=>{if(!names.includes(tx))names.push(tx);const key=site+\":\"+line+(site?\"\":\":\"+did);if(!cells.has(key))cells.set(key,{key,tx,did,site,line:+line});return key};\nfor(const line of text.textContent.replace(/\\n$/,\"\").split(\"\\n\")){const span=document.createElement(\"span\");span.textContent=line||\" \";spans.push(span);\nconst s=told(line);if(s){span.tabIndex=0;span.dataset.keys=JSON.stringify([put(s[0],s[1],s[4],s[5]),put(s[2],s[3],s[4],s[6])]);span.dataset.names=JSON.stringify([s[0],s[2]])}\nconst e=entry.exec(line);if(e)span.dataset.line=e[1]}\ntext.replaceChildren(...spans);\nconst rows=[...cells.values()].sort((a,b)=>a.site-b.site||a.line-b.line),sited=rows.some(r=>r.site);\nconst make=(tag,words)=>{const it=document.createElement(tag);it.textContent=words;return it};\nif(rows.length){const table=make(\"table\",\"\"),head=make(\"tr\",\"\");if(sited)head.append(make(\"th\",\"site\"));head.append(make(\"th\",\"line\"));\nfor(const n of names){const th=make(\"th\",\"transaction \"+n);th.dataset.names=JSON.stringify([n]);head.append(th)}\ntable.append(head);\nfor(const r of rows){const tr=make(\"tr\",\"\");tr.dataset.key=r.key;if(sited)tr.append(make(\"td\",r.site));tr.append(make(\"td\",r.line));\nfor(const n of names){const td=make(\"td\",n===r.tx?r.did:\"\");td.dataset.names=JSON.stringify([n]);tr.append(td)}table.append(tr)}\nplace.append(table)}\nelse document.getElementById(\"beside\").hidden=true;\nconst mark=(span,on)=>{const keys=JSON.parse(span.dataset.keys),lines=keys.map(k=>k.split(\":\")[1]);\nspan.classList.toggle(\"on\",on);\nfor(const tr of place.querySelectorAll(\"tr\"))tr.classList.toggle(\"on\",on&&keys.includes(tr.dataset.key));\nfor(const s of spans)if(s.dataset.line)s.classList.toggle(\"on\",on&&lines.includes(s.dataset.line))};\nfor(const s of spans)if(s.dataset.keys){for(const on of [\"mouseenter\",\"focus\"])s.addEventListener(on,()=>mark(s,true));for(const off of [\"mouseleave\",\"blur\"])s.addEventListener(off,()=>mark(s,false))}\nfind.addEventListener(\"input\",()=>{const n=find.value.trim(),name=names.find(it=>it===n||it===JSON.stringify(n));said.textContent=!n?\"\":name?\"transaction \"+n+\" is shown\":\"transaction \"+n+\" is not among those shown\";\nfor(const it of document.querySelectorAll(\"[data-names]\"))it.classList.toggle(\"off\",name!==undefined&&!JSON.parse(it.dataset.names).includes(name))});\n</script>\n";

/// The end.
pub(crate) const FOOT: &str = "</body>\n</html>\n";
