//! Bars and arrows as SVG.
ghost use Rattle.std.specs.Prelude.{◌≤◌};

use crate::bars::{Arrow, Bar};
use crate::layout::SMALL_FONT;
use crate::picture::Picture;
use crate::printing::base_of;
use crate::scale::PAGE_WIDTH;
use crate::svg::{Piece, Svg};
use crate::widths::{number_width, text_width};
use drt_model::Memory;
use drt_timeline::Mark;

// The height of a bar.
const BAR_HEIGHT: u64 = 210;

// The length of an arrow.
const ARROW_LENGTH: u64 = 300;

// A bar of less than this width has no outline.
const NARROW: u64 = 20;

// A bar is drawn at least so wide.
const LEAST_WIDTH: u64 = 3;

/// Writes the bars.
pub fn print_bars(svg: &mut Svg, picture: &Picture, bars: &[Bar]) -> Result<(), Memory> {
    svg.raw(
        br##"<g stroke="#222" stroke-width="0.8">
"##,
    )?;
    for bar in bars {
        print_bar(svg, picture, *bar)?;
    }
    svg.raw(b"</g>\n")
}

/// Writes what fits into each bar.
pub fn print_labels(svg: &mut Svg, picture: &Picture, bars: &[Bar]) -> Result<(), Memory> {
    svg.raw(
        br##"<g font-size="11" text-anchor="middle" stroke="#fff" stroke-width="3" stroke-linejoin="round" paint-order="stroke">
"##,
    )?;
    for bar in bars {
        print_label(svg, picture, *bar)?;
    }
    svg.raw(b"</g>\n")
}

// The rectangle of a bar, with a title that tells what it stands for.
fn print_bar(svg: &mut Svg, picture: &Picture, bar: Bar) -> Result<(), Memory> {
    let width = u64::from(bar.right).saturating_sub(u64::from(bar.left));
    let top = base_of(u64::from(bar.row)) - BAR_HEIGHT;
    svg.pieces(&[
        Piece::Place(b"<rect x", u64::from(bar.left)),
        Piece::Place(b" y", top),
        Piece::Place(b" width", width.max(LEAST_WIDTH)),
        Piece::Place(b" height", BAR_HEIGHT),
        Piece::Raw(fill_of(picture, bar, width)),
        Piece::Raw(b"><title>"),
        Piece::Name(picture.vertex_name(bar.span.job)),
        Piece::Raw(b"["),
        Piece::Number(picture.shown(bar.span.job).index),
        Piece::Raw(b"], ticks "),
        Piece::Grouped(bar.span.start),
        Piece::Raw(b" to "),
        Piece::Grouped(bar.span.end),
        Piece::Raw(b"</title></rect>\n"),
    ])
}

// How a bar is filled: jobs of a task are light and dark by turns, and one that misses is hatched.
fn fill_of(picture: &Picture, bar: Bar, width: u64) -> &'static [u8] {
    let shown = picture.shown(bar.span.job);
    let narrow = width < NARROW;
    match (shown.late, narrow, shown.index % 2) {
        (true, false, _) => br##" fill="url(#late)""##,
        (true, true, _) => br##" fill="#c00000" stroke="none""##,
        (false, false, 0) => br##" fill="#e4ecf5""##,
        (false, false, _) => br##" fill="#a9c1dc""##,
        (false, true, 0) => br##" fill="#8aa0b8" stroke="none""##,
        (false, true, _) => br##" fill="#44596f" stroke="none""##,
    }
}

// The name of the vertex and the job's index in a bar, or the index alone, where they fit.
fn print_label(svg: &mut Svg, picture: &Picture, bar: Bar) -> Result<(), Memory> {
    let name = picture.vertex_name(bar.span.job);
    let index = picture.shown(bar.span.job).index;
    let room = u64::from(bar.right)
        .saturating_sub(u64::from(bar.left))
        .saturating_sub(60);
    let short = number_width(index, SMALL_FONT);
    let long = text_width(name, SMALL_FONT)
        .saturating_add(short)
        .saturating_add(100);
    if short > room {
        return Ok(());
    }
    let head = [
        Piece::Place(b"<text x", (u64::from(bar.left) + u64::from(bar.right)) / 2),
        Piece::Place(b" y", base_of(u64::from(bar.row)) - 65),
        Piece::Raw(b">"),
    ];
    svg.pieces(&head)?;
    print_job(svg, name, index, long <= room)?;
    svg.raw(b"</text>\n")
}

// The job of an index among those of its task: with the name of its vertex, or the index alone.
fn print_job(svg: &mut Svg, name: &[u8], index: u64, named: bool) -> Result<(), Memory> {
    if named {
        svg.pieces(&[
            Piece::Name(name),
            Piece::Raw(b"["),
            Piece::Number(index),
            Piece::Raw(b"]"),
        ])
    } else {
        svg.number(index)
    }
}

/// Writes the arrows of releases and deadlines of the rows in which there is no room for their heads: thin lines.
pub fn print_close_arrows(
    svg: &mut Svg,
    picture: &Picture,
    arrows: &[Arrow],
) -> Result<(), Memory> {
    svg.raw(
        br##"<g fill="none" stroke="#999" stroke-width="0.3">
"##,
    )?;
    for arrow in arrows {
        if picture.head(arrow.row) == 0 {
            print_arrow(svg, *arrow, 0)?;
        }
    }
    svg.raw(b"</g>\n")
}

/// Writes the arrows of releases and deadlines of the other rows. A finish is the end of a bar, and has no arrow.
pub fn print_arrows(svg: &mut Svg, picture: &Picture, arrows: &[Arrow]) -> Result<(), Memory> {
    svg.raw(
        br##"<g fill="none" stroke="#222" stroke-width="1.2">
"##,
    )?;
    for arrow in arrows {
        let head = picture.head(arrow.row);
        if head > 0 {
            print_arrow(svg, *arrow, head)?;
        }
    }
    svg.raw(b"</g>\n")
}

/// Writes the arrows of misses, and at the first one how late its job finishes.
pub fn print_misses(svg: &mut Svg, arrows: &[Arrow], late: Option<u64>) -> Result<(), Memory> {
    for arrow in arrows {
        if arrow.event.mark == Mark::Miss {
            print_miss(svg, *arrow)?;
        }
    }
    match arrows.iter().find(|arrow| arrow.event.mark == Mark::Miss) {
        Some(arrow) => print_lateness(svg, *arrow, late),
        None => Ok(()),
    }
}

// An arrow up for a release, and down for a deadline that is met.
fn print_arrow(svg: &mut Svg, arrow: Arrow, head: u64) -> Result<(), Memory>
    requires { head ≤ 30 }
{
    let x = u64::from(arrow.x);
    let base = base_of(u64::from(arrow.row));
    match arrow.event.mark {
        Mark::Release => svg.arrow(x, base, base - ARROW_LENGTH, head),
        Mark::Deadline => svg.arrow(x, base - ARROW_LENGTH, base, head),
        Mark::Finish | Mark::Miss => Ok(()),
    }
}

// The arrow of a miss: thick, with a filled head.
fn print_miss(svg: &mut Svg, arrow: Arrow) -> Result<(), Memory> {
    let x = u64::from(arrow.x);
    let base = base_of(u64::from(arrow.row));
    svg.raw(br##"<g fill="#c00000" stroke="#c00000" stroke-width="3">"##)?;
    svg.line_down(x, base - ARROW_LENGTH, base - 40)?;
    svg.point(br##"<path stroke="none" d="M"##, x, base)?;
    svg.raw(b"l-6 -10h12z\"/></g>\n")
}

// How late the job of a miss finishes, above its arrow, at the side where there is more room.
fn print_lateness(svg: &mut Svg, arrow: Arrow, late: Option<u64>) -> Result<(), Memory> {
    let x = u64::from(arrow.x);
    let y = base_of(u64::from(arrow.row)) - ARROW_LENGTH - 20;
    let place = if x < u64::from(PAGE_WIDTH) / 2 {
        Piece::Place(b" x", x.saturating_sub(60))
    } else {
        Piece::Place(br##" text-anchor="end" x"##, x + 60)
    };
    let font =
        br##"<text font-size="12" font-weight="bold" fill="#c00000" stroke="#fff" stroke-width="3" paint-order="stroke""##;
    svg.pieces(&[Piece::Raw(font), place, Piece::Place(b" y", y)])?;
    print_late(svg, late)?;
    svg.raw(b"</text>\n")
}

// By how many ticks a job is late, where that is known.
fn print_late(svg: &mut Svg, late: Option<u64>) -> Result<(), Memory> {
    match late {
        Some(ticks) => {
            let unit = if ticks == 1 {
                b" tick".as_slice()
            } else {
                b" ticks".as_slice()
            };
            svg.pieces(&[
                Piece::Raw(b">late by "),
                Piece::Grouped(ticks),
                Piece::Raw(unit),
            ])
        }
        None => svg.raw(b">missed"),
    }
}
