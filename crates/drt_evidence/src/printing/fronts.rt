//! The block of fronts.
ghost use Rattle.std.specs.Prelude.{◌≡◌, ◌++◌, OnOk};
ghost use Rattle.drt_file.specs.trusted.Canonical.{written, written_line};
ghost use Rattle.drt_evidence.specs.Text.{entry_line, front_block, front_lines};

use crate::lines::push_count;
use drt_file::push_line;
use drt_graph::FrontEntry;
use drt_model::{Memory, Row};
use itoa::Buffer;

// Adds how many fronts there are, and the lines of each.
pub(crate) fn push_fronts(text: &mut Vec<u8>, fronts: &[Row<FrontEntry>]) -> Result<(), Memory>
    ensures { OnOk result (text.new.items ≡ text.old.items ++ written (front_block fronts.now)) }
{
    push_count(text, b"fronts", fronts.len())?;
    for front in fronts {
        push_front(text, front.as_slice())?;
    }
    Ok(())
}

// Adds how many labels a front has, and the line of each.
fn push_front(text: &mut Vec<u8>, front: &[FrontEntry]) -> Result<(), Memory>
    ensures { OnOk result (text.new.items ≡ text.old.items ++ written (front_lines front.now)) }
{
    push_count(text, b"front", front.len())?;
    for entry in front {
        push_entry(text, *entry)?;
    }
    Ok(())
}

fn push_entry(text: &mut Vec<u8>, entry: FrontEntry) -> Result<(), Memory>
    ensures { OnOk result (text.new.items ≡ text.old.items ++ written_line (entry_line entry)) }
{
    let mut vertex = Buffer::new();
    let mut offset = Buffer::new();
    let mut work = Buffer::new();
    push_line(
        text,
        &[
            b"label".as_slice(),
            vertex.format(entry.vertex).as_bytes(),
            offset.format(entry.offset).as_bytes(),
            work.format(entry.work).as_bytes(),
        ],
    )
}
