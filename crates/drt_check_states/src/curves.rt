//! Lists of jumps.
ghost use Rattle.std.specs.Prelude.{◌≡◌, ◌<◌, ◌↔◌, All, IsTrue};
ghost use Rattle.drt_model.specs.Legal.{AllNeighbours};
ghost use Rattle.drt_states.specs.Tails.{IsCurve, value_before};
ghost use Rattle.drt_check_states.specs.Curves.{IsRising};

use drt_states::Jump;

/// Whether the function rises from offset 0 on, and its jumps lie below the bound.
pub(crate) fn is_curve(bound: u32, jumps: &[Jump]) -> bool
    ensures { IsTrue result ↔ IsCurve bound jumps.now }
{
    !jumps.is_empty() && jumps[0].offset == 0 && is_rising(jumps) && are_below(bound, jumps)
}

// Whether the offsets and the works rise.
fn is_rising(jumps: &[Jump]) -> bool
    ensures { IsTrue result ↔ IsRising jumps.now }
{
    for i in 1..jumps.len() {
        if jumps[i].offset <= jumps[i - 1].offset || jumps[i].work <= jumps[i - 1].work {
            return false;
        }
    }
    true
}

// Whether the offsets lie below the bound.
fn are_below(bound: u32, jumps: &[Jump]) -> bool
    ensures { IsTrue result ↔ All (λ j. j.offset < bound) jumps.now }
{
    for jump in jumps {
        if jump.offset >= bound as u64 {
            return false;
        }
    }
    true
}

/// The value of the function before `t`. It is found by halving.
pub(crate) fn value_before(jumps: &[Jump], t: u64) -> u64
    requires { IsRising jumps.now }
    ensures { result ≡ value_before jumps.now t }
{
    let mut from = 0;
    let mut to = jumps.len();
    while from < to {
        let middle = from + (to - from) / 2;
        if jumps[middle].offset < t {
            from = middle + 1;
        } else {
            to = middle;
        }
    }
    if from == 0 { 0 } else { jumps[from - 1].work }
}
