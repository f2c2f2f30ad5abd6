//! The rises of a function, which its copies share.
ghost use Rattle.std.specs.Prelude.{◌≡◌, ◌+◌, ◌≤◌, ◌++◌, ◌∷◌, [], IfOk};
ghost use Rattle.drt_model.specs.Numbers.{most_work};
ghost use Rattle.drt_steps.specs.Jumps.{total_rise, levels};

use crate::jump::Jump;
use crate::level::level_after;
use std::alloc::{AllocError, Global};
use std::sync::Arc;

/// The jumps of a function, in order of time, and the value from each of them on.
#[derive(Drop)]
pub(crate) struct Rises {
    pub(crate) jumps: Vec<Jump>,
    pub(crate) levels: Vec<u64>,
}

/// The jumps of these rises.
pub(crate) fn jumps_of(rises: &Arc<Rises>) -> &[Jump]
    ensures { result.now ≡ rises.now.value.jumps.items }
{
    &rises.jumps
}

/// The value from each of these rises on.
pub(crate) fn levels_of(rises: &Arc<Rises>) -> &[u64]
    ensures { result.now ≡ rises.now.value.levels.items }
{
    &rises.levels
}

/// The rises with one more behind all of them.
pub(crate) fn one_more(
    alloc: Global,
    base: u64,
    rises: &Rises,
    new: Jump,
) -> Result<Rises, AllocError>
    requires levels { rises.now.levels.items ≡ levels base rises.now.jumps.items }
    requires small { base + total_rise rises.now.jumps.items + new.rise ≤ most_work }
    ensures jumps { IfOk result (λ r. r.jumps.items ≡ rises.now.jumps.items ++ new ∷ []) }
    ensures levels { IfOk result (λ r. r.levels.items ≡ levels base r.jumps.items) }
{
    let level = level_after(base, &rises.levels, rises.levels.len());
    Ok(Rises {
        jumps: with_last(alloc, &rises.jumps, new)?,
        levels: with_last(alloc, &rises.levels, level + new.rise)?,
    })
}

// Items with one more behind them, copied at once.
fn with_last<T: Copy>(alloc: Global, items: &[T], last: T) -> Result<Vec<T>, AllocError>
    ensures { IfOk result (λ v. v.items ≡ items.now ++ last ∷ []) }
{
    let mut all = Vec::with_capacity(alloc, items.len().saturating_add(1))?;
    all.extend_from_slice(items)?;
    all.push(last)?;
    Ok(all)
}
