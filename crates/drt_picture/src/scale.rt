//! Where times stand on the page.
ghost use Rattle.std.specs.Prelude.{◌≡◌, ◌*◌, ◌^◌, ◌≤◌, length};
ghost use Rattle.drt_picture.specs.Scale.{IsInArea, IsPageScale, begun_by, cut_room, shown_before, x_of};

use drt_model::Row;

/// The width of a page, in tenths of a pixel.
pub const PAGE_WIDTH: u32 = 16_000;

/// The width of a cut, in tenths of a pixel.
pub const CUT_WIDTH: u32 = 240;

/// At most so many stretches of time are cut out of a picture.
pub const MOST_CUTS: usize = 16;

/// A stretch of ticks that the picture shows, from tick `start` up to tick `end`.
#[derive(Debug, Clone, Copy, PartialEq, Eq)]
pub struct Part {
    pub start: u64,
    pub end: u64,
}

/// What takes times to places: the drawing area begins at `left` and is `width` wide, both in tenths of a pixel. It shows the ticks of
/// the parts, up to `until`, and between two parts there is a cut.
#[derive(Debug, Drop)]
pub struct Scale {
    pub until: u64,
    pub left: u32,
    pub width: u32,
    pub parts: Row<Part>,
}

/// The place of a time, in tenths of a pixel from the page's left.
pub fn x_of(scale: &Scale, time: u64) -> u32
    requires scale { IsPageScale scale.now }
    requires in_time { time ≤ scale.now.until }
    ensures value { result ≡ x_of scale.now time }
    ensures in_area { IsInArea scale.now result }
{
    let place = wide_x_of(scale, time);
    place as u32
}

// The place of a time, in a wider number.
fn wide_x_of(scale: &Scale, time: u64) -> u128
    requires scale { IsPageScale scale.now }
    requires in_time { time ≤ scale.now.until }
    ensures { result ≡ x_of scale.now time }
{
    let parts = scale.parts.as_slice();
    let all = shown_before(parts, scale.until).max(1);
    let ticks = shown_before(parts, time) * u128::from(room(scale.width, parts)) / all;
    let cuts = u128::from(CUT_WIDTH) * begun_by(parts, time).saturating_sub(1) as u128;
    u128::from(scale.left) + ticks + cuts
}

/// How many ticks before a time are shown.
pub fn shown_before(parts: &[Part], time: u64) -> u128
    requires { time ≤ 2 ^ 62 }
    ensures value { result ≡ shown_before parts.now time }
    ensures at_most { result ≤ length parts.now * 2 ^ 62 }
{
    let mut ticks = 0;
    for part in parts {
        ticks += u128::from(time.min(part.end).saturating_sub(part.start));
    }
    ticks
}

/// How many parts begin at or before a time.
fn begun_by(parts: &[Part], time: u64) -> usize
    ensures { result ≡ begun_by parts.now time }
{
    parts.iter().filter(|part| part.start <= time).count()
}

/// The width that the cuts leave to ticks.
pub fn room(width: u32, parts: &[Part]) -> u32
    requires few { length parts.now ≤ 17 }
    requires wide { 4000 ≤ width }
    ensures { result ≡ cut_room width parts.now }
{
    width - CUT_WIDTH * parts.len().saturating_sub(1) as u32
}
