//! How wide texts are, about: no font is known when a page is laid out, so each width is that of a wide font.
use drt_model::TaskSet;
use itoa::Buffer;

/// The width of a text of names, digits and blanks in a font of `size` pixels, in tenths of a pixel.
pub fn text_width(text: &[u8], size: u32) -> u64 {
    let mut width: u64 = 0;
    for byte in text {
        width = width.saturating_add(byte_width(*byte));
    }
    width.saturating_mul(u64::from(size)) / 100
}

/// The width of a number with its commas in a font of `size` pixels, in tenths of a pixel.
pub fn number_width(number: u64, size: u32) -> u64 {
    let mut buffer = Buffer::new();
    let digits = buffer.format(number).as_bytes();
    let commas = digits.len() as u64 / 3;
    text_width(digits, size).saturating_add(commas.saturating_mul(u64::from(size) * 35 / 10))
}

/// The width of the longest name of a task in a font of `size` pixels, in tenths of a pixel.
pub fn names_width(set: &TaskSet, size: u32) -> u64 {
    let mut width = 0;
    for task in set.tasks() {
        width = text_width(task.name.as_slice(), size).max(width);
    }
    width
}

// The width of a letter in thousandths of its font's size.
fn byte_width(byte: u8) -> u64 {
    match byte {
        b'i' | b'j' | b'l' => 300,
        b'f' | b'r' | b't' | b'I' | b'-' | b' ' => 420,
        b'm' | b'w' | b'M' | b'W' => 990,
        b'A'..=b'Z' => 740,
        _ => 640,
    }
}
