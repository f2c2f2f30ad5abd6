//! The least time by which a job and the work ahead of it are done.
ghost use Rattle.std.specs.Prelude.{◌≡◌, ℕ, ◌+◌, ◌*◌, ◌≤◌, length};
ghost use Rattle.drt_model.specs.Numbers.{most_time, most_work};
ghost use Rattle.drt_steps.specs.Time.{IsLeastTimeOf, AreChosen, sum_at};

use crate::steps::Steps;

// The sum at `t` of the chosen functions, each by steps from its place, which goes on.
fn sum_of(pool: &[Steps], chosen: &[u32], places: &mut [usize; 31], t: u64, deadline: u64) -> u64
    requires from { 1 ≤ t }
    requires to { t ≤ deadline }
    requires chosen { AreChosen deadline pool.now chosen.now }
    requires few { length chosen.now ≤ 31 }
    ensures value { result ≡ sum_at pool.now chosen.now t }
    ensures small { result ≤ 31 * most_work }
    ensures rises { (s : ℕ) → t ≤ s → s ≤ deadline → result ≤ sum_at pool.now chosen.now s }
{
    let mut sum = 0;
    for i in 0..chosen.len() {
        sum += pool[chosen[i] as usize].at_from(&mut places[i], t);
    }
    sum
}

/// The least time of 1 to `deadline` at which `wcet` and the chosen functions together are at most the time, and
/// `None` where there is none. `chosen` names functions of `pool`. No time below `wcet` can be one, and where a time
/// isn't, no time below the sum at it is one: so it goes from each time to the sum at it, and never tick by tick. It
/// goes once through the rises of each chosen function, and takes no memory. It is the usual iteration for response times (Joseph and Pandya, 1986), for any functions that never fall.
pub fn least_time(wcet: u64, deadline: u64, pool: &[Steps], chosen: &[u32]) -> Option<u64>
    requires wcet { wcet ≤ most_time }
    requires chosen { AreChosen deadline pool.now chosen.now }
    requires few { length chosen.now ≤ 31 }
    ensures { IsLeastTimeOf wcet deadline pool.now chosen.now result }
{
    let mut places = [0; 31];
    let mut t = wcet.max(1);
    while t <= deadline {
        let sum = wcet + sum_of(pool, chosen, &mut places, t, deadline);
        if sum <= t {
            return Some(t);
        }
        t = sum;
    }
    None
}
