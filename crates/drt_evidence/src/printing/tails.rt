//! The block of tails.
ghost use Rattle.std.specs.Prelude.{◌≡◌, ◌++◌, map, OnOk};
ghost use Rattle.std.specs.List.{flat_map};
ghost use Rattle.drt_file.specs.trusted.Canonical.{written, written_line};
ghost use Rattle.drt_evidence.specs.Fields.{behind};
ghost use Rattle.drt_evidence.specs.Text.{curve_line, jump_fields, tail_block, tail_lines};

use crate::lines::{push_count, push_field, push_opening};
use drt_model::{Memory, Row};
use drt_states::{Jump, TailClaim};
use itoa::Buffer;

// Adds how many tails there are, and the lines of each.
pub(crate) fn push_tails(text: &mut Vec<u8>, tails: &[TailClaim]) -> Result<(), Memory>
    ensures { OnOk result (text.new.items ≡ text.old.items ++ written (tail_block tails.now)) }
{
    push_count(text, b"tails", tails.len())?;
    for tail in tails {
        push_tail(text, tail)?;
    }
    Ok(())
}

// Adds how many vertices a tail has, and the line of each.
fn push_tail(text: &mut Vec<u8>, tail: &TailClaim) -> Result<(), Memory>
    ensures { OnOk result (text.new.items ≡ text.old.items ++ written (tail_lines tail.now)) }
{
    let curves = tail.curves.as_slice();
    push_count(text, b"tail", curves.len())?;
    push_curves(text, curves)
}

// Adds the line of each vertex of a tail.
fn push_curves(text: &mut Vec<u8>, curves: &[Row<Jump>]) -> Result<(), Memory>
    ensures { OnOk result (text.new.items ≡ text.old.items ++ written (map curve_line curves.now)) }
{
    for curve in curves {
        push_curve(text, curve.as_slice())?;
    }
    Ok(())
}

// Adds the line of a vertex of a tail.
fn push_curve(text: &mut Vec<u8>, jumps: &[Jump]) -> Result<(), Memory>
    ensures { OnOk result (text.new.items ≡ text.old.items ++ written_line (curve_line jumps.now)) }
{
    push_opening(text, b"jumps", jumps.len())?;
    push_jumps(text, jumps)?;
    text.push(b'\n')?;
    Ok(())
}

// Adds the fields of jumps, each with a space before it.
fn push_jumps(text: &mut Vec<u8>, jumps: &[Jump]) -> Result<(), Memory>
    ensures { OnOk result (text.new.items ≡ text.old.items ++ behind (flat_map jump_fields jumps.now)) }
{
    for jump in jumps {
        push_jump(text, *jump)?;
    }
    Ok(())
}

// Adds the fields of a jump, each with a space before it.
fn push_jump(text: &mut Vec<u8>, jump: Jump) -> Result<(), Memory>
    ensures { OnOk result (text.new.items ≡ text.old.items ++ behind (jump_fields jump)) }
{
    let mut buffer = Buffer::new();
    push_field(text, buffer.format(jump.offset).as_bytes())?;
    push_field(text, buffer.format(jump.work).as_bytes())
}
