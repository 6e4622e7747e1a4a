//! The heaps at some moments, as an HTML page that shows one of them at a time.
ghost use Rattle.std.specs.Prelude.{◌≡◌, [], ◌∷◌, ◌++◌, OnOk, string_bytes};
ghost use Rattle.tlsf_map.specs.Told.{Adds, all_told, head_told, heap_told, item_of, items_of, moment_told, named_item, named_items};

use crate::mapped_heap::{LabelledBlock, MappedHeap};
use crate::named_lines::NamedLines;
use crate::numbers::write_numbers;
use crate::title::write_title;
use std::alloc::{AllocError, Global};
use tlsf_heap::Content;

// Colours by the reader's scheme, those of the picture.
const PAGE_STYLE: &str =
    "<!doctype html>\n<html lang='en'><head><meta charset='utf-8'><meta name='viewport' content='width=device-width'><title>tlsf: heaps over time</title>\n<style>html{overflow-y:scroll}:root{color-scheme:light dark;--page:#fff;--ink:#1f2328;--live:#4f83cc;--head:#2b4f86;--slack:#e3a04f;--free:#2e9e6b;--largest:#b4232a;--on-live:#fff}@media(prefers-color-scheme:dark){:root{--page:#0d1117;--ink:#e6edf3;--live:#3f6fb5;--head:#1d3c6b;--slack:#b97a2e;--largest:#ff7b72;--on-live:#e6edf3}}body{margin:16px;background:var(--page);color:var(--ink);font:13px ui-monospace,Menlo,Consolas,monospace}nav{position:sticky;top:0;padding:8px 0;background:var(--page);z-index:1}#slider{width:100%;margin:0;box-sizing:border-box}h2{font-size:13px;margin:16px 0 4px}p{margin:4px 0}section p{white-space:pre}canvas{display:block}#plot{margin-bottom:4px;cursor:crosshair}button{font:inherit;margin:0 8px 4px 0}b{display:inline-block;width:16px;height:12px;margin:0 6px 0 16px;vertical-align:-1px}#tip{position:fixed;left:0;top:0;padding:4px 8px;background:var(--ink);color:var(--page);pointer-events:none;z-index:2}</style></head>\n";

// The slider, what each colour is, and the place of the heaps. The data stand after it, in an element that is never drawn.
const SLIDER: &str =
    "<body><nav><canvas id='plot' role='img' aria-label='live words over the lines'></canvas><input id='slider' type='range' min='0' value='0' aria-label='moment'><p><output id='moment'></output></p><p>Above: the live words of each heap over the lines; a click goes there. Arrow keys: one moment, with Shift ten; Home and End: the ends; P: the peak (dot); W: the worst or fullest (dashes).</p><p id='named'></p><p><b style='background:var(--head);margin-left:0'></b>header<b style='background:var(--live)'></b>payload<b style='background:var(--slack)'></b>left empty<b style='background:var(--free)'></b>free, the stronger the longer<b style='box-sizing:border-box;border:2px solid var(--largest)'></b>largest free, a line above. Point at a block for more.</p></nav><main id='heaps'></main><div id='tip' hidden></div><noscript>This page draws by a script.</noscript>\n<script id='moments' type='text/plain'>\n";

// The script. It reads the data: the lines of each moment, and of a heap the blocks in the order of their places.
// A shade is that of `FreeBlocks::shade`: quotients of numbers below 2^53 are rounded down as whole numbers are.
const READING: &str =
    "const edge=96,element=id=>document.getElementById(id),lines=element('moments').textContent.split(String.fromCharCode(10)),begins=lines.flatMap((line,at)=>line.startsWith('line ')?[at]:[]),last=begins.length-1;\nconst most=numbers=>numbers.reduce((one,other)=>Math.max(one,other),0),least=numbers=>numbers.reduce((one,other)=>Math.min(one,other),Infinity),lineAt=begins.map(begin=>Number(lines[begin].slice(5))),lineOf=moment=>lineAt[moment],momentOf=line=>begins.findLastIndex((begin,at)=>lineOf(at)<=line);\nconst blocksIn=text=>{let place=0;return text.split(';').slice(0,-1).map(item=>{const numbers=item.slice(1).split(',').map(Number),block={live:item[0]=='l',place,size:numbers[0],tick:numbers[item[0]=='l'?2:1],numbers};place+=block.size;return block})};\nconst heapsIn=moment=>{const heaps=[];for(let at=begins[moment]+1;at+2<lines.length&&!lines[at].startsWith('line ');at+=3){const blocks=blocksIn(lines[at+2]),free=blocks.filter(block=>!block.live),stamps=free.map(block=>block.numbers[1]);heaps.push({name:lines[at],shown:shown[heaps.length],report:lines[at+1],blocks,words:blocks.reduce((sum,block)=>sum+block.size,0),largest:most(free.map(block=>block.size)),oldest:least(stamps),newest:most(stamps)})}return heaps};\nconst shade=(heap,stamp)=>heap.newest<=heap.oldest?85:15+Math.floor(70*(heap.newest-stamp)/(heap.newest-heap.oldest));\nconst used=block=>Math.min(block.size,3+Math.ceil(block.numbers[1]/8)),bytes=count=>count+(count==1?' byte':' bytes'),sites=globalThis.askedBy||{},asker=label=>label in sites?', asked by '+sites[label]:'';\nconst caption=block=>block.live?[block.numbers.length>3?'label '+block.numbers[3]:'live',bytes(block.numbers[1])]:['free',block.size+' words'];\nconst told=block=>block.live?caption(block)[0]+', place '+block.place+', '+block.size+' words, '+bytes(block.numbers[1])+', serial '+block.numbers[2]+asker(block.numbers[3]):'free since tick '+block.numbers[1]+', place '+block.place+', '+block.size+' words';\n";

// It draws a heap into a canvas as wide as the window, in rows as the picture does, but all of one height.
const DRAWING: &str =
    "let full=0,span=0;const fit=()=>{full=Math.max(640,document.documentElement.clientWidth-32);span=full-edge};\nconst grid=words=>{let row=64;while(words/row>64)row*=2;const rows=Math.ceil(words/row),high=rows>24?14:36;return{row,rows,high,pitch:high+4}};\nconst draw=(canvas,heap)=>{const {row,rows,high,pitch}=grid(heap.shown),scale=devicePixelRatio||1,wide=span/row,colors=getComputedStyle(document.documentElement),color=name=>colors.getPropertyValue('--'+name),ink=canvas.getContext('2d');canvas.style.width=full+'px';canvas.width=full*scale;canvas.height=rows*pitch*scale;ink.scale(scale,scale);ink.translate(edge,0);\nconst spread=(place,words,paint)=>{for(let left=words,at=place;left>0&&at<heap.shown;){const here=Math.min(left,row-at%row,heap.shown-at);paint(at%row*wide,Math.floor(at/row)*pitch,here*wide,here==left);at+=here;left-=here}};\nconst fill=(place,words,name,alpha)=>{ink.fillStyle=color(name);ink.globalAlpha=alpha;spread(place,words,(x,y,width)=>ink.fillRect(x,y,width,high));ink.globalAlpha=1};\nconst frame=(block,name,width)=>{ink.strokeStyle=color(name);ink.lineWidth=width;spread(block.place,block.size,(x,y,across)=>ink.strokeRect(x+width/2,y+width/2,Math.max(0,across-width),high-width))};\nconst outline=block=>{ink.strokeStyle=color('largest');ink.lineWidth=2;ink.beginPath();spread(block.place,block.size,(x,y,width,ends)=>{const first=y==Math.floor(block.place/row)*pitch,foot=ends?y+high-1:y+pitch;for(const side of [x+1,x+width-1]){ink.moveTo(side,y);ink.lineTo(side,foot)}for(const edge of [first&&y+1,ends&&foot])if(edge!==false){ink.moveTo(x,edge);ink.lineTo(x+width,edge)}});ink.stroke()};\nink.font='10px ui-monospace,Menlo,Consolas,monospace';ink.textAlign='right';ink.fillStyle=color('ink');for(let at=0;at<rows;at++)ink.fillText(at*row,-8,at*pitch+high/2+4);ink.textAlign='left';ink.font='11px ui-monospace,Menlo,Consolas,monospace';\nfor(const block of heap.blocks){if(block.live){fill(block.place,block.size,'live',1);fill(block.place,3,'head',1);fill(block.place+used(block),block.size-used(block),'slack',1)}else fill(block.place,block.size,'free',shade(heap,block.numbers[1])/100);\nconst width=Math.min(block.size,row-block.place%row,heap.shown-block.place)*wide;if(block.size*wide>=4)frame(block,'page',1);if(width>=80&&high>24){const x=block.place%row*wide+4,y=Math.floor(block.place/row)*pitch;ink.fillStyle=color(block.live?'on-live':'ink');caption(block).forEach((text,line)=>ink.fillText(text,x,y+14+14*line))}}\nconst longest=heap.blocks.find(block=>!block.live&&block.size==heap.largest);if(longest)outline(longest)};\n";

// It plots the live words of each heap over the lines, with its largest free block, on the scale of the words that are drawn. These are
// all, or ten times the peak where that is less; each live block is within them. A click goes there.
const PLOTTING: &str =
    "const curves=begins.map(begin=>{const rows=[];for(let at=begin+1;at+2<lines.length&&!lines[at].startsWith('line ');at+=3){const [live,largest,free,grant]=[/ blocks?, ([0-9]+)/,/largest ([0-9]+)/,/free [0-9]+ blocks?, ([0-9]+)/,/grant ([0-9]+)/].map(form=>Number(lines[at+1].match(form)[1])),[words,tick]=[/: ([0-9]+)/,/tick ([0-9]+)/].map(form=>Number(lines[at].match(form)[1]));const [,behind]=lines[at+2].slice(-32).match(/f([0-9]+),[0-9]+;$/)||[0,0];rows.push({live,largest,free,grant,words,tick,reach:words-behind})}return rows}),shown=curves[0].map((row,number)=>Math.min(row.words,curves.reduce((words,rows)=>Math.max(words,10*rows[number].live,rows[number].reach),0)||row.words)),drawn=number=>'words 0 to '+shown[number]+' of '+curves[0][number].words;\nconst peaks=named.map(([peak])=>momentOf(peak)),worsts=named.map(([peak,worst])=>momentOf(worst)),lacks=(at,number)=>!curves[at][number].free||curves[at][number].grant<named[number][2];\nconst fits=(at,number)=>{const asked=named[number][2],no=lacks(at,number);return bytes(asked)+(no?asked==1?` doesn't fit`:` don't fit`:asked==1?' fits':' fit')};\nconst since=(number,tick)=>{const at=curves.findIndex(row=>row[number].tick>tick);if(at<1)return ', line 1';const from=lineOf(at-1)+1,to=lineOf(at),name=line=>line==lineOf(last)?'the end':line;return from==to?', '+(to==lineOf(last)?'':'line ')+name(to):', line '+from+' to '+name(to)};\nconst following=stops=>{const later=stops.filter(at=>at>moment);return later.length?Math.min(...later):Math.min(...stops)};\nconst plot=element('plot'),tall=Math.max(12,Math.floor(72/curves[0].length)),pitch=tall+4,deep=curves[0].length*pitch;\nconst across=at=>edge+span*(lineOf(at)-1)/Math.max(1,lineOf(last)-1),nearest=x=>begins.reduce((best,begin,at)=>Math.abs(across(at)-x)<Math.abs(across(best)-x)?at:best,0),stepOf=most=>{let step=1;while(most/step>10)step*=String(step)[0]=='2'?2.5:2;return step};\nconst curve=(ink,number,name)=>{const foot=number*pitch+tall,high=at=>Math.max(number*pitch,foot-tall*curves[at][number][name]/shown[number]);ink.beginPath();ink.moveTo(edge,high(0));for(let at=1;at<=last;at++){ink.lineTo(across(at),high(at-1));ink.lineTo(across(at),high(at))}return {foot,high}};\nconst drawPlot=()=>{const scale=devicePixelRatio||1,colors=getComputedStyle(document.documentElement),color=name=>colors.getPropertyValue('--'+name),ink=plot.getContext('2d');plot.style.width=full+'px';plot.width=full*scale;plot.height=(deep+16)*scale;ink.scale(scale,scale);ink.font='10px ui-monospace,Menlo,Consolas,monospace';\ncurves[0].forEach((row,number)=>{const live=curve(ink,number,'live');ink.lineTo(full,live.foot);ink.lineTo(edge,live.foot);ink.fillStyle=color('live');ink.fill();curve(ink,number,'largest');ink.strokeStyle=color('largest');ink.lineWidth=1.5;ink.stroke();ink.strokeStyle=ink.fillStyle=color('ink');ink.lineWidth=1;ink.strokeRect(edge+.5,live.foot-tall+.5,span-1,tall-1);ink.textAlign='left';ink.fillText('heap '+number,0,live.foot-tall/2+4);ink.textAlign='right';for(const part of tall<20?[1]:tall<36?[0,1]:[0,.5,1])ink.fillText(shown[number]*part,edge-8,live.foot-(tall-8)*part);if(shown[number]<row.words)ink.fillText(drawn(number),full-8,live.foot-tall+12);ink.beginPath();ink.arc(Math.min(full-4,Math.max(edge+4,across(peaks[number]))),Math.max(live.foot-tall+4,live.high(peaks[number])),3,0,7);ink.fill();ink.strokeStyle=color('largest');ink.lineWidth=2;ink.setLineDash([4,2]);ink.beginPath();ink.moveTo(across(worsts[number]),live.foot-tall);ink.lineTo(across(worsts[number]),live.foot);ink.stroke();ink.setLineDash([])});\nink.textAlign='center';const most=lineOf(last)-1,step=stepOf(most);for(let line=0;line<=most;line+=step)ink.fillText(line?line:1,Math.min(full-16,edge+span*Math.max(0,line-1)/Math.max(1,most)),deep+12);ink.fillRect(across(moment)-1,0,2,deep)};\nconst pointPlot=event=>{const box=plot.getBoundingClientRect(),at=nearest(event.clientX-box.left),number=Math.max(0,Math.min(curves[0].length-1,Math.floor((event.clientY-box.top)/pitch))),row=curves[at][number];if(event.buttons)show(at);tell('heap '+number+(at==last?' at the end: ':' after line '+lineOf(at)+': ')+row.live+' of '+row.words+' words live, '+8*row.live+' bytes; the largest free block has '+row.largest+' words; '+fits(at,number),event)};\nplot.onpointermove=plot.onpointerdown=pointPlot;plot.onpointerleave=()=>{tip.hidden=true};\n";

// It shows the moment of the slider, or of the line after `#` in the address, or otherwise the one with the most live words. It
// tells of the block under the pointer. The report is two lines that never wrap, so that the picture below stays where it is.
const SHOWING: &str =
    "const slider=element('slider'),tip=element('tip');let moment=0,heaps=[];\nconst atPointer=(event,canvas,heap)=>{const {row,high,pitch}=grid(heap.shown),box=canvas.getBoundingClientRect(),across=event.clientX-box.left-edge,down=event.clientY-box.top;if(across<0||across>=span||down%pitch>=high)return;const place=Math.floor(down/pitch)*row+Math.floor(across*row/span);return heap.blocks.find(block=>block.place<=place&&place<block.place+block.size)};\nconst tell=(text,event)=>{tip.hidden=!text;tip.textContent=text;tip.style.transform='translate('+Math.max(0,Math.min(event.clientX+12,innerWidth-tip.offsetWidth-8))+'px,'+(event.clientY+16)+'px)'};\nconst point=(event,canvas,number)=>{const block=atPointer(event,canvas,heaps[number]);tell(block?told(block)+since(number,block.tick):'',event)};\nconst parts=curves[0].map((row,number)=>{const part=document.createElement('section');part.append(...['h2','p','p','canvas'].map(kind=>document.createElement(kind)));const canvas=part.lastChild;canvas.setAttribute('role','img');canvas.onpointermove=canvas.onpointerdown=event=>point(event,canvas,number);canvas.onpointerleave=()=>{tip.hidden=true};return part});\nconst redraw=()=>{fit();parts.forEach((part,number)=>draw(part.lastChild,heaps[number]));drawPlot()};\nconst write=(part,number)=>{const heap=heaps[number];[heap.name+(heap.shown<heap.words?'; drawn: '+drawn(number):'')+'; longest request: '+fits(moment,number),...heap.report.split(/; (?=free )/)].forEach((text,at)=>{part.children[at].textContent=text});part.lastChild.setAttribute('aria-label',heap.blocks.length+' blocks')};\nconst goes=(text,at)=>{const button=document.createElement('button');button.textContent=text+(at==last?': the end':': line '+lineOf(at));button.onclick=()=>show(at);element('named').append(button)};\nconst show=wanted=>{moment=Math.max(0,Math.min(last,wanted));slider.value=moment;heaps=heapsIn(moment);tip.hidden=true;element('moment').textContent='Moment '+(moment+1)+' of '+(last+1)+(moment==last?', at the end':', after line '+lineOf(moment)+' of '+(lineOf(last)-1));parts.forEach(write);redraw()};\nconst steps={ArrowLeft:-1,ArrowRight:1,Home:-Infinity,End:Infinity};\nslider.max=last;slider.oninput=()=>show(Number(slider.value));addEventListener('keydown',event=>{const stops={p:peaks,w:worsts}[event.key.toLowerCase()],step=stops?Infinity:steps[event.key];if(step&&!event.altKey&&!event.ctrlKey&&!event.metaKey){event.preventDefault();show(stops?following(stops):moment+(event.shiftKey?10:1)*step)}});\nmatchMedia('(prefers-color-scheme: dark)').addEventListener('change',redraw);addEventListener('resize',redraw);\nconst total=at=>curves[at].reduce((sum,row)=>sum+row.live,0),highest=begins.reduce((best,begin,at)=>total(at)>total(best)?at:best,0);\nconst opened=()=>{const line=Number(location.hash.slice(1));show(line>0?momentOf(line):highest)};\nelement('heaps').append(...parts);named.forEach((row,number)=>{const of=named.length>1?' of heap '+number:'',look=lacks(worsts[number],number)?'worst':'fullest',alike=peaks[number]==worsts[number];goes((alike?'peak and '+look:'peak')+of,peaks[number]);if(!alike)goes(look+of,worsts[number])});\naddEventListener('hashchange',opened);opened();</script></body></html>\n";

fn write_item(text: &mut String, drawn: LabelledBlock) -> Result<(), AllocError>
    ensures { OnOk result (string_bytes text.new ≡ string_bytes text.old ++ item_of drawn) }
{
    let size = drawn.block.size;
    match drawn.block.content {
        Content::Free { stamp } => write!(text, "f{size},{stamp};"),
        Content::Live { serial, length } => match drawn.label {
            None => write!(text, "l{size},{length},{serial};"),
            Some(label) => write!(text, "l{size},{length},{serial},{label};"),
        },
    }
}

fn write_items(text: &mut String, blocks: &[LabelledBlock]) -> Result<(), AllocError>
    ensures { OnOk result (string_bytes text.new ≡ string_bytes text.old ++ items_of blocks.now) }
{
    for number in 0..blocks.len() {
        write_item(text, blocks[number])?;
    }
    Ok(())
}

// The line below the title of a heap: its numbers.
fn numbers_of(alloc: Global, heap: &MappedHeap) -> Result<String, AllocError> {
    let mut text = String::new(alloc);
    text.push_str("\n")?;
    write_numbers(&mut text, &heap.report, "; ")?;
    text.push_str("\n")?;
    Ok(text)
}

#[tactic(auto, using(crate::proofs::Telling::adds_two))]
fn write_heap(
    alloc: Global,
    text: &mut String,
    words: u32,
    heap: &MappedHeap,
) -> Result<(), AllocError>
    ensures { OnOk result (Adds (heap_told words heap.now) (string_bytes text.old) (string_bytes text.new)) }
{
    let numbers = numbers_of(alloc, heap)?;
    write_title(text, words, heap)?;
    text.push_str(&numbers)?;
    write_items(text, &heap.blocks)?;
    text.push_str("\n")?;
    Ok(())
}

#[tactic(auto, using(crate::proofs::Telling::adds_none, crate::proofs::Telling::adds_next, crate::proofs::Telling::adds_all))]
fn write_heaps(
    alloc: Global,
    text: &mut String,
    words: u32,
    heaps: &[MappedHeap],
) -> Result<(), AllocError>
    ensures { OnOk result (Adds (all_told (heap_told words) heaps.now) (string_bytes text.old) (string_bytes text.new)) }
{
    for number in 0..heaps.len() {
        write_heap(alloc, text, words, &heaps[number])?;
    }
    Ok(())
}

/// Adds to the page a moment of heaps with `words` words each: how they stand after a line of their trace.
///
/// ```text
/// write_page_head(&mut text)?;
/// write_moment(alloc, &mut text, 64, 1, &heaps)?; // "line 1\nheap 0: 64 words at tick 1\nlive 0 blocks, ..\nf64,0;\n"
/// write_page_foot(&mut text, &named)?;
/// ```
///
/// # Errors
///
/// Where memory runs out.
pub fn write_moment(
    alloc: Global,
    text: &mut String,
    words: u32,
    line: u32,
    heaps: &[MappedHeap],
) -> Result<(), AllocError>
    ensures { OnOk result (Adds (moment_told words (record { line = line; heaps = heaps.now })) (string_bytes text.old) (string_bytes text.new)) }
{
    write!(text, "line {line}\n")?;
    write_heaps(alloc, text, words, heaps)?;
    Ok(())
}

/// Adds what stands on the page before the moments.
///
/// ```text
/// write_page_head(&mut text)?;                // "<!doctype html>\n<html lang='en'>.."
/// ```
///
/// # Errors
///
/// Where memory runs out.
#[tactic(auto, using(crate::proofs::Telling::adds_behind))]
pub fn write_page_head(text: &mut String) -> Result<(), AllocError>
    ensures { OnOk result (Adds head_told (string_bytes text.old) (string_bytes text.new)) }
{
    text.push_str(PAGE_STYLE)?;
    text.push_str(SLIDER)?;
    Ok(())
}

fn write_named(text: &mut String, named: NamedLines) -> Result<(), AllocError>
    ensures { OnOk result (string_bytes text.new ≡ string_bytes text.old ++ named_item named) }
{
    let peak = named.peak;
    let look = named.look;
    let longest = named.longest;
    write!(text, "[{peak},{look},{longest}],")
}

fn write_named_items(text: &mut String, named: &[NamedLines]) -> Result<(), AllocError>
    ensures { OnOk result (string_bytes text.new ≡ string_bytes text.old ++ named_items named.now) }
{
    for number in 0..named.len() {
        write_named(text, named[number])?;
    }
    Ok(())
}

/// Adds the part of the page after the moments. It has the lines that are named of each heap, in the order of their numbers, and
/// the script that shows the moments. Each line that is named has a moment.
///
/// ```text
/// let named = [NamedLines { peak: 2, look: 2, longest: 8 }];
/// write_page_foot(&mut text, &named)?;        // "</script><script>'use strict';\nconst named=[[2,2,8],];\n.."
/// ```
///
/// # Errors
///
/// Where memory runs out.
pub fn write_page_foot(text: &mut String, named: &[NamedLines]) -> Result<(), AllocError>
    ensures { OnOk result (Adds (named_items named.now ∷ []) (string_bytes text.old) (string_bytes text.new)) }
{
    text.push_str("</script><script>'use strict';\nconst named=[")?;
    write_named_items(text, named)?;
    text.push_str("];\n")?;
    text.push_str(READING)?;
    text.push_str(DRAWING)?;
    text.push_str(PLOTTING)?;
    text.push_str(SHOWING)?;
    Ok(())
}
