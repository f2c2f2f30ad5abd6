//! The priorities under which a task is tried.
ghost use Rattle.std.specs.Prelude.{◌≡◌, ℕ, ◌<◌, ◌≤◌, IfOk, length, slice_index};
ghost use Rattle.drt_assign.specs.Rule.{AreRanks, IsTrialPriorities, open_beside};

use drt_model::Memory;
use std::alloc::Global;

/// How far the rule has come: a rank for each task, or 0 where it has none yet, and how many have none.
#[derive(Clone, Copy)]
pub(crate) struct Standing<'a> {
    pub(crate) ranks: &'a [u32],
    pub(crate) open_count: u32,
}

/// Priorities for all tasks, of which some have no rank: this one has the lowest priority among them, the others have the
/// priorities 1, 2, .. in order of the file, and each task that has a rank keeps it.
pub(crate) fn trial_priorities(
    alloc: Global,
    standing: Standing<'_>,
    task: u32,
) -> Result<Vec<u32>, Memory>
    requires ranks { (count : ℕ) × (count ≤ 32) × AreRanks count standing.open_count standing.ranks.now }
    requires task { task < length standing.ranks.now }
    requires is_open { slice_index standing.ranks.now task ≡ 0 }
    ensures { IfOk result (λ priorities. IsTrialPriorities standing.entry.ranks.now standing.entry.open_count task priorities.items) }
{
    let Standing { ranks, open_count } = standing;
    let mut priorities = Vec::new(alloc);
    let mut next = 1;
    for k in 0..ranks.len() {
        let rank = ranks[k];
        if rank != 0 {
            priorities.push(rank)?;
        } else if k == task as usize {
            priorities.push(open_count)?;
        } else {
            priorities.push(next)?;
            next += 1;
        }
    }
    Ok(priorities)
}

/// The tasks without a rank but this one, in order of the file.
pub(crate) fn other_open(alloc: Global, ranks: &[u32], task: u32) -> Result<Vec<u32>, Memory>
    requires few { length ranks.now ≤ 32 }
    ensures { IfOk result (λ others. others.items ≡ open_beside ranks.now task) }
{
    let mut others = Vec::new(alloc);
    for k in 0..ranks.len() {
        if ranks[k] == 0 && k != task as usize {
            others.push(k as u32)?;
        }
    }
    Ok(others)
}
