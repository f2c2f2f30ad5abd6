//! The block of searches.
ghost use Rattle.std.specs.Prelude.{◌≡◌, ◌++◌, ◌∷◌, [], codes, decimal, length, map, OnOk};
ghost use Rattle.std.specs.List.{flat_map};
ghost use Rattle.drt_file.specs.trusted.Canonical.{written, written_line};
ghost use Rattle.drt_evidence.specs.Fields.{behind};
ghost use Rattle.drt_evidence.specs.Text.{end_fields, search_block, search_lines, state_entry_fields, state_line};

use crate::lines::{push_count, push_each_number, push_field, push_opening};
use drt_file::push_line;
use drt_model::Memory;
use drt_states::{SearchClaim, StateClaim, StateEnd, StateEntry};
use itoa::Buffer;

// Adds how many searches there are, and the lines of each.
pub(crate) fn push_searches(text: &mut Vec<u8>, searches: &[SearchClaim]) -> Result<(), Memory>
    ensures { OnOk result (text.new.items ≡ text.old.items ++ written (search_block searches.now)) }
{
    push_count(text, b"searches", searches.len())?;
    for search in searches {
        push_search(text, search)?;
    }
    Ok(())
}

// Adds the task and the vertex of a search, how many states it has, and the line of each.
fn push_search(text: &mut Vec<u8>, search: &SearchClaim) -> Result<(), Memory>
    ensures { OnOk result (text.new.items ≡ text.old.items ++ written (search_lines search.now)) }
{
    let states = search.states.as_slice();
    push_subject(text, search.task, search.vertex, states.len())?;
    push_states(text, states)
}

// Adds the first line of a search.
fn push_subject(text: &mut Vec<u8>, task: u32, vertex: u32, count: usize) -> Result<(), Memory>
    ensures { OnOk result (text.new.items ≡ text.old.items ++ written_line (codes "search" ∷ decimal task ∷ decimal vertex ∷ decimal count ∷ [])) }
{
    let mut task_digits = Buffer::new();
    let mut vertex_digits = Buffer::new();
    let mut count_digits = Buffer::new();
    push_line(
        text,
        &[
            b"search".as_slice(),
            task_digits.format(task).as_bytes(),
            vertex_digits.format(vertex).as_bytes(),
            count_digits.format(count).as_bytes(),
        ],
    )
}

// Adds the line of each state.
fn push_states(text: &mut Vec<u8>, states: &[StateClaim]) -> Result<(), Memory>
    ensures { OnOk result (text.new.items ≡ text.old.items ++ written (map state_line states.now)) }
{
    for state in states {
        push_state(text, state)?;
    }
    Ok(())
}

// Adds the line of a state.
fn push_state(text: &mut Vec<u8>, state: &StateClaim) -> Result<(), Memory>
    ensures { OnOk result (text.new.items ≡ text.old.items ++ written_line (state_line state.now)) }
{
    push_standing(text, state.entries.as_slice())?;
    push_asked(text, state.work, &state.end)?;
    text.push(b'\n')?;
    Ok(())
}

// Adds the keyword of a state, how many entries it has, and the fields of each.
fn push_standing(text: &mut Vec<u8>, entries: &[StateEntry]) -> Result<(), Memory>
    ensures { OnOk result (text.new.items ≡ text.old.items ++ (codes "state" ++ behind (decimal (length entries.now) ∷ flat_map state_entry_fields entries.now))) }
{
    push_opening(text, b"state", entries.len())?;
    push_entries(text, entries)
}

// Adds the work of a state and the fields of its end, each with a space before it.
fn push_asked(text: &mut Vec<u8>, work: u64, end: &StateEnd) -> Result<(), Memory>
    ensures { OnOk result (text.new.items ≡ text.old.items ++ behind (decimal work ∷ end_fields end.now)) }
{
    let mut buffer = Buffer::new();
    push_field(text, buffer.format(work).as_bytes())?;
    push_end(text, end)
}

// Adds the fields of entries, each with a space before it.
fn push_entries(text: &mut Vec<u8>, entries: &[StateEntry]) -> Result<(), Memory>
    ensures { OnOk result (text.new.items ≡ text.old.items ++ behind (flat_map state_entry_fields entries.now)) }
{
    for entry in entries {
        push_entry(text, *entry)?;
    }
    Ok(())
}

// Adds the fields of an entry, each with a space before it.
fn push_entry(text: &mut Vec<u8>, entry: StateEntry) -> Result<(), Memory>
    ensures { OnOk result (text.new.items ≡ text.old.items ++ behind (state_entry_fields entry)) }
{
    let mut buffer = Buffer::new();
    push_field(text, buffer.format(entry.place).as_bytes())?;
    push_field(text, buffer.format(entry.vertex).as_bytes())?;
    push_field(text, buffer.format(entry.offset).as_bytes())
}

// Adds the fields of the end of a state, each with a space before it.
fn push_end(text: &mut Vec<u8>, end: &StateEnd) -> Result<(), Memory>
    ensures { OnOk result (text.new.items ≡ text.old.items ++ behind (end_fields end.now)) }
{
    let mut buffer = Buffer::new();
    match end {
        StateEnd::Passes(time) => {
            text.extend_from_slice(b" p")?;
            text.extend_from_slice(buffer.format(*time).as_bytes())?;
            Ok(())
        }
        StateEnd::Splits { place, children } => {
            text.extend_from_slice(b" s")?;
            text.extend_from_slice(buffer.format(*place).as_bytes())?;
            push_each_number(text, children.as_slice())
        }
    }
}
