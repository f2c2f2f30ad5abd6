//! Text of SVG.
ghost use Rattle.std.specs.Prelude.{◌≤◌};

use drt_model::{Memory, Row};
use itoa::Buffer;
use std::alloc::Global;

/// A page of SVG as far as it is written. Lengths are tenths of a pixel.
///
/// No text needs an escape: what comes from a task set goes through `name`, which writes letters, digits, `_` and `-` only.
#[derive(Debug, Drop)]
pub struct Svg {
    text: Vec<u8>,
}

/// What is written at once.
#[derive(Clone, Copy)]
pub enum Piece<'a> {
    /// Markup or text of the printer's own.
    Raw(&'a [u8]),
    /// The bytes of a name.
    Name(&'a [u8]),
    /// A number.
    Number(u64),
    /// A number with a comma before each three digits.
    Grouped(u64),
    /// A length, as `length` writes it.
    Length(u64),
    /// An attribute, as `place` writes it.
    Place(&'a [u8], u64),
    /// A place of a path, as `point` writes it.
    Point(&'a [u8], u64, u64),
}

impl Svg {
    /// An empty page.
    pub fn new(alloc: Global) -> Svg {
        Svg {
            text: Vec::new(alloc),
        }
    }

    /// The bytes of the page.
    pub fn into_row(self) -> Row<u8> {
        let Svg { text } = self;
        Row::from_vec(text)
    }

    /// Writes pieces, one after the other.
    pub fn pieces(&mut self, pieces: &[Piece]) -> Result<(), Memory> {
        for piece in pieces {
            self.piece(*piece)?;
        }
        Ok(())
    }

    // Writes a piece.
    fn piece(&mut self, piece: Piece) -> Result<(), Memory> {
        match piece {
            Piece::Raw(text) => self.raw(text),
            Piece::Name(name) => self.name(name),
            Piece::Number(number) => self.number(number),
            Piece::Grouped(number) => self.grouped(number),
            Piece::Length(tenths) => self.length(tenths),
            Piece::Place(before, tenths) => self.place(before, tenths),
            Piece::Point(command, x, y) => self.point(command, x, y),
        }
    }

    /// Writes markup or text of the printer's own.
    pub fn raw(&mut self, text: &[u8]) -> Result<(), Memory> {
        self.text.extend_from_slice(text)
    }

    /// Writes the bytes of a name. A byte that no name has becomes `_`.
    pub fn name(&mut self, name: &[u8]) -> Result<(), Memory> {
        for byte in name {
            self.text.push(name_byte(*byte))?;
        }
        Ok(())
    }

    /// Writes a number.
    pub fn number(&mut self, number: u64) -> Result<(), Memory> {
        let mut buffer = Buffer::new();
        self.text
            .extend_from_slice(buffer.format(number).as_bytes())
    }

    /// Writes a number with a comma before each three digits.
    pub fn grouped(&mut self, number: u64) -> Result<(), Memory> {
        let mut buffer = Buffer::new();
        let digits = buffer.format(number).as_bytes();
        for (i, digit) in digits.iter().enumerate() {
            if i > 0 && (digits.len() - i) % 3 == 0 {
                self.text.push(b',')?;
            }
            self.text.push(*digit)?;
        }
        Ok(())
    }

    /// Writes a length, in pixels with a digit behind the point.
    pub fn length(&mut self, tenths: u64) -> Result<(), Memory> {
        self.number(tenths / 10)?;
        let digit = tenths % 10;
        if digit > 0 {
            self.raw(b".")?;
            self.number(digit)?;
        }
        Ok(())
    }

    /// Writes an attribute: its name with what stands before it up to the quote, and a length.
    pub fn place(&mut self, before: &[u8], tenths: u64) -> Result<(), Memory> {
        self.raw(before)?;
        self.raw(b"=\"")?;
        self.length(tenths)?;
        self.raw(b"\"")
    }

    /// Writes a line that goes down.
    pub fn line_down(&mut self, x: u64, from: u64, to: u64) -> Result<(), Memory> {
        self.point(b"<path d=\"M", x, from)?;
        self.raw(b"V")?;
        self.length(to)?;
        self.raw(b"\"/>\n")
    }

    /// Writes an arrow that goes up or down, with a head of `head` to each side.
    pub fn arrow(&mut self, x: u64, from: u64, to: u64, head: u64) -> Result<(), Memory>
        requires { head ≤ 30 }
    {
        self.pieces(&[
            Piece::Point(b"<path d=\"M", x, from),
            Piece::Raw(b"V"),
            Piece::Length(to),
        ])?;
        if head > 0 {
            let behind = if from < to {
                to.saturating_sub(2 * head)
            } else {
                to.saturating_add(2 * head)
            };
            self.pieces(&[
                Piece::Point(b"M", x.saturating_sub(head), behind),
                Piece::Point(b"L", x, to),
                Piece::Point(b"L", x.saturating_add(head), behind),
            ])?;
        }
        self.raw(b"\"/>\n")
    }

    /// Writes a place of a path, behind its command.
    pub fn point(&mut self, command: &[u8], x: u64, y: u64) -> Result<(), Memory> {
        self.raw(command)?;
        self.length(x)?;
        self.raw(b" ")?;
        self.length(y)
    }
}

fn name_byte(byte: u8) -> u8 {
    match byte {
        b'A'..=b'Z' | b'a'..=b'z' | b'0'..=b'9' | b'_' | b'-' => byte,
        _ => b'_',
    }
}
