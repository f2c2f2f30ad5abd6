//! The values that a function has from each of its jumps on.
ghost use Rattle.std.specs.Prelude.{◌≡◌, ◌+◌, ◌≤◌, ◌∷◌, length, slice_index, IfOk};
ghost use Rattle.drt_model.specs.Numbers.{most_work};
ghost use Rattle.drt_steps.specs.Jumps.{total_rise, levels};

use crate::jump::Jump;
use std::alloc::{AllocError, Global};

/// The value from each jump on, of a function with this base.
pub fn levels(alloc: Global, base: u64, jumps: &[Jump]) -> Result<Vec<u64>, AllocError>
    requires { base + total_rise jumps.now ≤ most_work }
    ensures { IfOk result (λ v. v.items ≡ levels base jumps.now) }
{
    let mut all = Vec::with_capacity(alloc, jumps.len())?;
    let mut level = base;
    for jump in jumps {
        level += jump.rise;
        all.push(level)?;
    }
    Ok(all)
}

/// The value after as many jumps.
pub fn level_after(base: u64, levels: &[u64], jump_count: usize) -> u64
    requires { jump_count ≤ length levels.now }
    ensures { result ≡ slice_index (base ∷ levels.now) jump_count }
{
    if jump_count == 0 {
        return base;
    }
    levels[jump_count - 1]
}
