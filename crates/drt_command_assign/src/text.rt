//! The text of a set that no order of priorities makes schedulable.
ghost use Rattle.std.specs.Prelude.{◌≡◌, ◌++◌, IfOk, OnOk, codes};
ghost use Rattle.std.specs.List.{flat_map};
ghost use Rattle.drt_evidence.specs.Text.{count_line, miss_line};
ghost use Rattle.drt_file.specs.trusted.Canonical.{written, written_line};
ghost use Rattle.drt_command_assign.specs.Text.{lowest_line, no_order_text, stuck_lines};

use drt_assign::Stuck;
use drt_evidence::push_release_lines;
use drt_file::{push_line, push_set};
use drt_model::{Memory, Miss, Row, TaskSet};
use itoa::Buffer;
use std::alloc::Global;

/// The text of a set that no order makes schedulable, in bytes: the set, and for each stuck task its releases and its miss.
pub(crate) fn print_stuck(alloc: Global, set: &TaskSet, stuck: &[Stuck]) -> Result<Row<u8>, Memory>
    ensures { IfOk result (λ text. text ≡ no_order_text set.now stuck.now) }
{
    let mut text = Vec::new(alloc);
    push_line(&mut text, &[b"drt-no-order".as_slice(), b"1"])?;
    push_set(&mut text, set)?;
    push_count(&mut text, stuck.len())?;
    push_each(&mut text, stuck)?;
    push_line(&mut text, &[b"close".as_slice()])?;
    Ok(Row::from_vec(text))
}

// Adds how many tasks are stuck.
fn push_count(text: &mut Vec<u8>, count: usize) -> Result<(), Memory>
    ensures { OnOk result (text.new.items ≡ text.old.items ++ written_line (count_line (codes "stuck") count)) }
{
    let mut buffer = Buffer::new();
    push_line(
        text,
        &[b"stuck".as_slice(), buffer.format(count).as_bytes()],
    )
}

// Adds the lines of each stuck task.
fn push_each(text: &mut Vec<u8>, stuck: &[Stuck]) -> Result<(), Memory>
    ensures { OnOk result (text.new.items ≡ text.old.items ++ written (flat_map stuck_lines stuck.now)) }
{
    for one in stuck {
        push_one(text, one)?;
    }
    Ok(())
}

// Adds the lines of a stuck task: which it is, its releases, and the miss.
fn push_one(text: &mut Vec<u8>, one: &Stuck) -> Result<(), Memory>
    ensures { OnOk result (text.new.items ≡ text.old.items ++ written (stuck_lines one.now)) }
{
    push_lowest(text, one.miss.task)?;
    push_release_lines(text, one.releases.as_slice())?;
    push_miss(text, one.miss)
}

// Adds the line that names a stuck task.
fn push_lowest(text: &mut Vec<u8>, task: u32) -> Result<(), Memory>
    ensures { OnOk result (text.new.items ≡ text.old.items ++ written_line (lowest_line task)) }
{
    let mut buffer = Buffer::new();
    push_line(
        text,
        &[b"lowest".as_slice(), buffer.format(task).as_bytes()],
    )
}

// Adds the line of a miss.
fn push_miss(text: &mut Vec<u8>, miss: Miss) -> Result<(), Memory>
    ensures { OnOk result (text.new.items ≡ text.old.items ++ written_line (miss_line miss)) }
{
    let mut task = Buffer::new();
    let mut index = Buffer::new();
    let mut deadline = Buffer::new();
    push_line(
        text,
        &[
            b"miss".as_slice(),
            task.format(miss.task).as_bytes(),
            index.format(miss.index).as_bytes(),
            deadline.format(miss.deadline).as_bytes(),
        ],
    )
}
