//! A page as SVG.
ghost use Rattle.std.specs.Prelude.{◌<◌, ◌≤◌, ◌^◌, ◌+◌, ◌*◌, ◌≡◌, length};

use crate::axis::{Cut, Tick};
use crate::layout::{
    AXIS_HEIGHT, CUTS_A_LINE, FONT, HEAD, LINE_HEIGHT, Layout, ROW_HEIGHT, SMALL_FONT,
};
use crate::marks::{print_arrows, print_bars, print_close_arrows, print_labels, print_misses};
use crate::picture::Picture;
use crate::scale::{PAGE_WIDTH, Scale};
use crate::svg::{Piece, Svg};
use crate::widths::{number_width, text_width};
use drt_model::{Memory, Policy, Release, Row, Task, TaskSet};
use std::alloc::Global;

// From where a row begins down to the line that its bars stand on.
const BASE: u32 = 440;

/// The page as SVG. It names the policy, and at the first miss how many ticks after its deadline the job finishes, where `late` says it.
/// The releases are those of the layout.
pub fn print(
    alloc: Global,
    set: &TaskSet,
    policy: Policy,
    releases: &[Release],
    late: Option<u64>,
    layout: &Layout,
) -> Result<Row<u8>, Memory> {
    let picture = Picture::of(alloc, set.tasks(), releases, layout)?;
    let mut svg = Svg::new(alloc);
    print_ground(&mut svg, set.tasks(), policy, layout)?;
    print_marks(&mut svg, &picture, late, layout)?;
    Ok(svg.into_row())
}

// What stands below the bars and the arrows: the head of the page, the axis, the rows and the cuts.
fn print_ground(
    svg: &mut Svg,
    tasks: &[Task],
    policy: Policy,
    layout: &Layout,
) -> Result<(), Memory>
    requires { length tasks.now < 2 ^ 16 }
{
    print_head(svg, policy, layout)?;
    print_key(svg, layout)?;
    let foot = foot_of(tasks.len());
    print_axis(svg, foot, layout.ticks.as_slice())?;
    print_rows(svg, tasks, &layout.scale)?;
    print_cuts(svg, foot, layout.cuts.as_slice())
}

// The bars and the arrows, and the end of the page.
fn print_marks(
    svg: &mut Svg,
    picture: &Picture,
    late: Option<u64>,
    layout: &Layout,
) -> Result<(), Memory> {
    print_close_arrows(svg, picture, layout.arrows.as_slice())?;
    print_bars(svg, picture, layout.bars.as_slice())?;
    print_arrows(svg, picture, layout.arrows.as_slice())?;
    print_misses(svg, layout.arrows.as_slice(), late)?;
    print_labels(svg, picture, layout.bars.as_slice())?;
    svg.raw(b"</svg>\n")
}

/// Where a row begins.
pub fn row_top(row: u64) -> u64
    requires { row < 2 ^ 32 }
    ensures { result ≡ 720 + 480 * row }
{
    u64::from(HEAD) + u64::from(ROW_HEIGHT) * row
}

// What stands before the rows: the size of the page, the fonts and the hatch, and what the page shows.
fn print_head(svg: &mut Svg, policy: Policy, layout: &Layout) -> Result<(), Memory> {
    let (width, height) = (u64::from(PAGE_WIDTH), u64::from(layout.height));
    svg.pieces(&[
        Piece::Raw(b"<svg xmlns=\"http://www.w3.org/2000/svg\""),
        Piece::Place(b" width", width),
        Piece::Place(b" height", height),
        Piece::Raw(b" viewBox=\"0 0 "),
        Piece::Point(b"", width, height),
        Piece::Raw(HEAD_OF_PAGE),
        Piece::Raw(b"<text x=\"20\" y=\"26\" font-size=\"16\" font-weight=\"bold\">"),
    ])?;
    print_title(svg, policy, layout)?;
    svg.raw(b"</text>\n")
}

// The font, a white page, and the hatch of a late job.
const HEAD_OF_PAGE: &[u8] =
    br##"" font-family="DejaVu Sans, Verdana, Arial, Helvetica, sans-serif" fill="#111">
<defs><pattern id="late" width="6" height="6" patternUnits="userSpaceOnUse" patternTransform="rotate(45)">
<rect width="6" height="6" fill="#fdeaea"/><rect width="1.6" height="6" fill="#c00000"/></pattern></defs>
<rect width="100%" height="100%" fill="#fff"/>
"##;

// The policy, the ticks, and what is left out.
fn print_title(svg: &mut Svg, policy: Policy, layout: &Layout) -> Result<(), Memory> {
    let name = match policy {
        Policy::Edf => b"EDF".as_slice(),
        Policy::Fixed => b"Fixed priorities".as_slice(),
    };
    svg.pieces(&[
        Piece::Raw(name),
        Piece::Raw(b", ticks "),
        Piece::Grouped(layout.from),
        Piece::Raw(b" to "),
        Piece::Grouped(layout.scale.until),
    ])?;
    if layout.hidden == 0 {
        return Ok(());
    }
    svg.pieces(&[
        Piece::Raw(b". Not drawn: the first "),
        Piece::Grouped(layout.hidden as u64),
        Piece::Raw(b" spans, and the events before tick "),
        Piece::Grouped(layout.from),
    ])
}

// What the signs mean.
fn print_key(svg: &mut Svg, layout: &Layout) -> Result<(), Memory> {
    svg.raw(KEY)?;
    if layout.cuts.as_slice().is_empty() {
        return Ok(());
    }
    svg.raw(CUT_KEY)
}

const KEY: &[u8] =
    br##"<g font-size="12"><g stroke="#222" stroke-width="0.8"><rect x="20" y="43" width="15" height="16" fill="#e4ecf5"/>
<rect x="35" y="43" width="15" height="16" fill="#a9c1dc"/><rect x="220" y="43" width="30" height="16" fill="url(#late)"/></g>
<path d="M395 60v-18m-3 6l3 -6l3 6M491 42v18m-3 -6l3 6l3 -6" fill="none" stroke="#222" stroke-width="1.2"/>
<path d="M591 42v14" stroke="#c00000" stroke-width="3"/><path d="M585 51h12l-6 9z" fill="#c00000"/>
<text x="58" y="55">jobs of a task, by turns</text><text x="258" y="55">job that misses</text>
<text x="405" y="55">release</text><text x="501" y="55">deadline</text><text x="605" y="55">missed deadline</text></g>
"##;

const CUT_KEY: &[u8] =
    br##"<path d="M754 42l4 4.5l-4 4.5l4 4.5l-4 4.5M778 42l4 4.5l-4 4.5l4 4.5l-4 4.5" fill="none" stroke="#777"/>
<text x="790" y="55" font-size="12">ticks left out, in which nothing happens</text>
"##;

// The lines of the axis, and its numbers.
fn print_axis(svg: &mut Svg, foot: u64, ticks: &[Tick]) -> Result<(), Memory>
    requires { foot < 2 ^ 32 }
{
    svg.raw(
        br##"<g stroke="#ddd">
"##,
    )?;
    for tick in ticks {
        svg.line_down(u64::from(tick.x), u64::from(HEAD), foot + 60)?;
    }
    svg.raw(
        br##"</g>
<g font-size="11">
"##,
    )?;
    let mut free = 0;
    for tick in ticks {
        free = print_number(svg, *tick, foot + 190, free)?;
    }
    svg.raw(b"</g>\n")
}

// A number below its line of the axis, where from `free` on there is room; and from where on there is room then.
fn print_number(svg: &mut Svg, tick: Tick, y: u64, free: u64) -> Result<u64, Memory> {
    let width = number_width(tick.time, SMALL_FONT);
    let half = width / 2;
    let middle = u64::from(tick.x)
        .max(half)
        .min(u64::from(PAGE_WIDTH).saturating_sub(half));
    if middle < free.saturating_add(half) {
        return Ok(free);
    }
    svg.pieces(&[
        Piece::Place(b"<text text-anchor=\"middle\" x", middle),
        Piece::Place(b" y", y),
        Piece::Raw(b">"),
        Piece::Grouped(tick.time),
        Piece::Raw(b"</text>\n"),
    ])?;
    Ok(middle.saturating_add(half).saturating_add(60))
}

// Where the rows of so many tasks end.
fn foot_of(tasks: usize) -> u64
    requires { tasks < 2 ^ 16 }
    ensures { result < 2 ^ 32 }
{
    row_top(tasks as u64)
}

// The names of the tasks, and the lines that their bars stand on.
fn print_rows(svg: &mut Svg, tasks: &[Task], scale: &Scale) -> Result<(), Memory>
    requires { length tasks.now < 2 ^ 16 }
{
    let left = u64::from(scale.left);
    let right = left + u64::from(scale.width);
    for (row, task) in tasks.iter().enumerate() {
        let base = base_of(row as u64);
        print_name(svg, task.name.as_slice(), left, base - 60)?;
        svg.pieces(&[
            Piece::Point(br##"<path stroke="#888" d="M"##, left, base),
            Piece::Point(b"L", right, base),
            Piece::Raw(b"\"/>\n"),
        ])?;
    }
    Ok(())
}

// The name of a task at the left of the drawing area, in a smaller font where it is wider than the room for it.
fn print_name(svg: &mut Svg, name: &[u8], left: u64, y: u64) -> Result<(), Memory> {
    let size = u64::from(FONT) * 10;
    let room = left.saturating_sub(160);
    let width = text_width(name, FONT).max(1);
    svg.pieces(&[
        Piece::Place(
            b"<text text-anchor=\"end\" font-size",
            size.min(room.saturating_mul(size) / width),
        ),
        Piece::Place(b" x", left.saturating_sub(100)),
        Piece::Place(b" y", y),
        Piece::Raw(b">"),
        Piece::Name(name),
        Piece::Raw(b"</text>\n"),
    ])
}

// The marks of the cuts in the rows and on the axis, and below the axis what each leaves out.
fn print_cuts(svg: &mut Svg, foot: u64, cuts: &[Cut]) -> Result<(), Memory>
    requires { foot < 2 ^ 32 }
{
    for (i, cut) in cuts.iter().enumerate() {
        print_cut(svg, foot, *cut, i)?;
    }
    Ok(())
}

// The mark of a cut, a letter at its foot, and a note.
fn print_cut(svg: &mut Svg, foot: u64, cut: Cut, i: usize) -> Result<(), Memory>
    requires { foot < 2 ^ 32 }
{
    let (left, right) = (u64::from(cut.left), u64::from(cut.right));
    print_gap(svg, left, right, foot)?;
    print_edge(svg, left, foot)?;
    print_edge(svg, right, foot)?;
    svg.pieces(&[
        Piece::Place(
            b"<text font-size=\"12\" font-style=\"italic\" text-anchor=\"middle\" x",
            left.saturating_add(right) / 2,
        ),
        Piece::Place(b" y", foot + 60),
        Piece::Raw(b">"),
    ])?;
    print_letter(svg, i)?;
    svg.raw(b"</text>\n")?;
    print_note(svg, foot, cut, i)
}

// The white stripe of a cut.
fn print_gap(svg: &mut Svg, left: u64, right: u64, foot: u64) -> Result<(), Memory> {
    let head = u64::from(HEAD);
    svg.pieces(&[
        Piece::Place(br##"<rect fill="#fff" x"##, left),
        Piece::Place(b" y", head),
        Piece::Place(b" width", right.saturating_sub(left)),
        Piece::Place(b" height", foot.saturating_sub(head)),
        Piece::Raw(b"/>\n"),
    ])
}

// A ragged line at the edge of a cut.
fn print_edge(svg: &mut Svg, x: u64, foot: u64) -> Result<(), Memory> {
    svg.point(
        br##"<path fill="none" stroke="#777" d="M"##,
        x,
        u64::from(HEAD),
    )?;
    let teeth = foot.saturating_sub(u64::from(HEAD)) / 120;
    for _tooth in 0..teeth {
        svg.raw(b"l3 6l-3 6")?;
    }
    svg.raw(b"\"/>\n")
}

// What a cut leaves out, below the axis.
fn print_note(svg: &mut Svg, foot: u64, cut: Cut, i: usize) -> Result<(), Memory>
    requires { foot < 2 ^ 32 }
{
    let (line, column) = (i / CUTS_A_LINE, i % CUTS_A_LINE);
    let x = 200 + (column as u64).saturating_mul(u64::from(PAGE_WIDTH) / CUTS_A_LINE as u64);
    let y = u64::from(LINE_HEIGHT)
        .saturating_mul(line as u64)
        .saturating_add(foot + u64::from(AXIS_HEIGHT) - 60);
    svg.pieces(&[
        Piece::Place(b"<text font-size=\"12\" x", x),
        Piece::Place(b" y", y),
        Piece::Raw(b"><tspan font-style=\"italic\">"),
    ])?;
    print_letter(svg, i)?;
    svg.pieces(&[
        Piece::Raw(b"</tspan>: nothing happens from tick "),
        Piece::Grouped(cut.start),
        Piece::Raw(b" to "),
        Piece::Grouped(cut.end),
        Piece::Raw(b"</text>\n"),
    ])
}

// The letter of a cut: a, b and so on.
fn print_letter(svg: &mut Svg, i: usize) -> Result<(), Memory> {
    let letters = b"abcdefghijklmnop";
    match letters.get(i) {
        Some(letter) => svg.name(&[*letter]),
        None => svg.number(i as u64),
    }
}

/// Where the line stands on which the bars of a row stand.
pub fn base_of(row: u64) -> u64
    requires { row < 2 ^ 32 }
    ensures { 1000 ≤ result }
{
    row_top(row) + u64::from(BASE)
}
