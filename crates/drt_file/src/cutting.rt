//! Cutting a text into lines, and a line into fields.
ghost use Rattle.std.specs.Prelude.{◌≡◌, ◌<◌, IsTrue, ◌↔◌, ◌∷◌, List, map, length, IfOk};
ghost use Rattle.drt_file.specs.trusted.Cutting.{lines, is_blank, fields};

use std::alloc::{AllocError as Memory, Global};

/// The first line of a text, and the text after it.
pub fn cut_line(text: &[u8]) -> (&[u8], &[u8])
    requires { 0 < length text.now }
    ensures cut { lines text.now ≡ result.0.now ∷ lines result.1.now }
    ensures shorter { length result.1.now < length text.now }
{
    for (i, b) in text.iter().enumerate() {
        if *b == b'\n' {
            return (&text[..i], &text[i + 1..]);
        }
    }
    (text, &text[text.len()..])
}

/// Whether the byte is a space, a tab or a CR.
#[tactic(auto, unfolding(crate::specs::trusted::Cutting::is_blank))]
pub fn blank(b: u8) -> bool
    ensures { result ≡ is_blank b }
{
    b == b' ' || b == b'\t' || b == b'\r'
}

/// The fields of a line.
pub fn fields_of(alloc: Global, line: &[u8]) -> Result<Vec<&[u8]>, Memory>
    ensures { IfOk result (λ v. map (λ f. f.now) v.items ≡ fields line.now) }
{
    let mut found = Vec::new(alloc);
    let mut start = 0;
    for (i, b) in line.iter().enumerate() {
        if blank(*b) {
            if start < i {
                found.push(&line[start..i])?;
            }
            start = i + 1;
        }
    }
    if start < line.len() {
        found.push(&line[start..])?;
    }
    Ok(found)
}
