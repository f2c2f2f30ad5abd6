//! The numbers that halving may ask about next.
ghost use Rattle.std.specs.Prelude.{◌<◌, ◌≤◌, All, IfOk, length};
ghost use Rattle.drt_model.specs.Numbers.{most_time};

use drt_model::Memory;
use std::alloc::Global;

// Two numbers, the lower one first.
#[derive(Clone, Copy, Drop)]
struct Pair {
    low: u32,
    high: u32,
}

/// The numbers that halving may ask about next between two numbers, at most so many: the one in the middle, those in the middle of each half, and so on.
pub(crate) fn next_middles(
    alloc: Global,
    low: u32,
    high: u32,
    most: usize,
) -> Result<Vec<u32>, Memory>
    requires order { low < high }
    requires few { high ≤ most_time }
    ensures below { IfOk result (λ middles. All (λ m. m < high) middles.items) }
    ensures count { IfOk result (λ middles. length middles.items ≤ most) }
{
    let mut middles = Vec::new(alloc);
    let mut pairs = Vec::new(alloc);
    pairs.push(Pair { low, high })?;
    'pairs: for i in 0..most {
        if i >= pairs.len() {
            return Ok(middles);
        }
        let pair = pairs[i];
        if pair.high - pair.low > 1 {
            let middle = (pair.low + pair.high) / 2;
            middles.push(middle)?;
            pairs.push(Pair {
                low: pair.low,
                high: middle,
            })?;
            pairs.push(Pair {
                low: middle,
                high: pair.high,
            })?;
        }
    }
    Ok(middles)
}
