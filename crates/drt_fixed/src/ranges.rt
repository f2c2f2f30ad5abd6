//! Whether the numbers of evidence are in range.
ghost use Rattle.std.specs.Prelude.{◌↔◌, All, IsTrue};
ghost use Rattle.drt_claims.specs.Ranges.{IsEvidenceInRange, IsInRangeCurve, IsInRangeEnd, IsInRangeJump, IsInRangeMiss, IsInRangeRelease, IsInRangeSearch, IsInRangeState, IsInRangeStateEntry, IsInRangeTail, IsNumber};

use drt_claims::{Evidence, MOST_NUMBER, MOST_TICKS, MOST_WORK};
use drt_model::{Miss, Release, Row};
use drt_states::{Jump, SearchClaim, StateClaim, StateEnd, StateEntry, TailClaim};

// The greatest count of a list.
const MOST_ITEMS: usize = MOST_NUMBER as usize;

/// Whether this is evidence by tails and states or of a no, with its numbers in range.
pub(crate) fn is_in_range(evidence: &Evidence) -> bool
    ensures { IsTrue result → IsEvidenceInRange evidence.now }
{
    match evidence {
        Evidence::FixedStates { tails, searches } => {
            let (tails, searches) = (tails.as_slice(), searches.as_slice());
            tails.len() <= MOST_ITEMS
                && searches.len() <= MOST_ITEMS
                && all_tails(tails)
                && all_searches(searches)
        }
        Evidence::FixedNo { releases, miss } => {
            let releases = releases.as_slice();
            releases.len() <= MOST_ITEMS && all_releases(releases) && is_miss(*miss)
        }
        _ => false,
    }
}

fn all_tails(tails: &[TailClaim]) -> bool
    ensures { IsTrue result ↔ All IsInRangeTail tails.now }
{
    tails.iter().all(is_tail)
}

fn is_tail(tail: &TailClaim) -> bool
    ensures { IsTrue result ↔ IsInRangeTail tail.now }
{
    let curves = tail.curves.as_slice();
    curves.len() <= MOST_ITEMS && all_curves(curves)
}

fn all_curves(curves: &[Row<Jump>]) -> bool
    ensures { IsTrue result ↔ All IsInRangeCurve curves.now }
{
    curves.iter().all(is_curve)
}

fn is_curve(curve: &Row<Jump>) -> bool
    ensures { IsTrue result ↔ IsInRangeCurve curve.now }
{
    let jumps = curve.as_slice();
    jumps.len() <= MOST_ITEMS && all_jumps(jumps)
}

fn all_jumps(jumps: &[Jump]) -> bool
    ensures { IsTrue result ↔ All IsInRangeJump jumps.now }
{
    jumps
        .iter()
        .all(|jump| jump.offset <= MOST_TICKS && jump.work <= MOST_WORK)
}

fn all_searches(searches: &[SearchClaim]) -> bool
    ensures { IsTrue result ↔ All IsInRangeSearch searches.now }
{
    searches.iter().all(is_search)
}

fn is_search(search: &SearchClaim) -> bool
    ensures { IsTrue result ↔ IsInRangeSearch search.now }
{
    let states = search.states.as_slice();
    are_numbers(search.task, search.vertex) && states.len() <= MOST_ITEMS && all_states(states)
}

fn all_states(states: &[StateClaim]) -> bool
    ensures { IsTrue result ↔ All IsInRangeState states.now }
{
    states.iter().all(is_state)
}

fn is_state(state: &StateClaim) -> bool
    ensures { IsTrue result ↔ IsInRangeState state.now }
{
    let entries = state.entries.as_slice();
    state.work <= MOST_WORK
        && entries.len() <= MOST_ITEMS
        && all_entries(entries)
        && is_end(&state.end)
}

fn all_entries(entries: &[StateEntry]) -> bool
    ensures { IsTrue result ↔ All IsInRangeStateEntry entries.now }
{
    entries.iter().all(is_entry)
}

fn is_entry(entry: &StateEntry) -> bool
    ensures { IsTrue result ↔ IsInRangeStateEntry entry.now }
{
    are_numbers(entry.place, entry.vertex) && entry.offset <= MOST_TICKS
}

fn is_end(end: &StateEnd) -> bool
    ensures { IsTrue result ↔ IsInRangeEnd end.now }
{
    match end {
        StateEnd::Passes(time) => *time <= MOST_TICKS,
        StateEnd::Splits { place, children } => {
            is_number(*place) && all_numbers(children.as_slice())
        }
    }
}

fn all_releases(releases: &[Release]) -> bool
    ensures { IsTrue result ↔ All IsInRangeRelease releases.now }
{
    releases.iter().all(is_release)
}

fn is_release(release: &Release) -> bool
    ensures { IsTrue result ↔ IsInRangeRelease release.now }
{
    are_numbers(release.task, release.vertex)
        && release.time <= MOST_TICKS
        && release.need <= MOST_TICKS
}

fn is_miss(miss: Miss) -> bool
    ensures { IsTrue result → IsInRangeMiss miss }
{
    are_numbers(miss.task, miss.index) && miss.deadline <= MOST_TICKS
}

fn all_numbers(numbers: &[u32]) -> bool
    ensures { IsTrue result ↔ All IsNumber numbers.now }
{
    numbers.iter().all(|number| is_number(*number))
}

// Each number of 32 bits is one of a text.
fn is_number(number: u32) -> bool
    ensures value { IsTrue result }
    ensures number { IsNumber number }
{
    number <= u32::MAX
}

fn are_numbers(first: u32, second: u32) -> bool
    ensures value { IsTrue result }
    ensures numbers { IsNumber first × IsNumber second }
{
    is_number(first) && is_number(second)
}
