ghost use Rattle.std.specs.Prelude.{◌≤◌};

use drt_accepted::Accepted;
use drt_claims::Evidence;
use drt_crew::Crew;
use drt_edf::{EdfAnswer, analyse_edf, has_wave_table};
use drt_effort::Effort;
use drt_fixtures::{Shape, make_set};
use drt_gen::generate;
use drt_graph::{Graphs, check};
use drt_horizon::{Horizon, plan, ratios};
use drt_model::TaskSet;
use drt_pool::OpenGate;
use std::alloc::Global;
use std::sync::Wait;
use std::test::Fail;
use std::thread::Threads;

// The vertices a(1,5), b(4,5), of which a has two edges out and b one.
const PAIR: Shape<'static> = (&[(1, 5), (4, 5)], &[(0, 0, 5), (0, 1, 5), (1, 0, 5)]);

#[test]
fn a_task_has_a_wave_table_where_the_budget_is_enough(rt: HostRuntime) -> Result<(), Fail> {
    let set = make_set(rt.alloc(), &[PAIR])?.ok_or("within the limits")?;
    let graphs = check(rt.alloc(), &set).ok().ok_or("constrained")?;
    if graphs.count() == 0 {
        return Err("a task".into());
    }
    // Two vertices, ten offsets, and two more than the two edges out of a.
    let graph = graphs.graph(0);
    assert!(rt; has_wave_table(graph, 9, 80) && has_wave_table(graph, 9, 1_000_000));
    assert!(rt; !has_wave_table(graph, 9, 79) && !has_wave_table(graph, 9, 1));
    // 125,000 offsets are 1,000,000 steps at most; with one more they are not.
    assert!(rt; has_wave_table(graph, 124_999, 1_000_000));
    assert!(rt; !has_wave_table(graph, 125_000, 1_000_000));
    // With more than 4,194,304 cells there is none whatever the budget.
    assert!(rt; !has_wave_table(graph, 2_097_152, u64::MAX));
    Ok(())
}

// The horizon of a set whose utilisation is below one.
fn horizon(alloc: Global, graphs: &Graphs) -> Result<u64, Fail> {
    let proofs = ratios(alloc, graphs)?;
    match plan(graphs, proofs.as_slice()) {
        Ok(Horizon::Under { bound }) => Ok(bound),
        _ => Err("a utilisation below one".into()),
    }
}

// Whether each task has a wave table up to the horizon.
fn have_wave_tables(graphs: &Graphs, bound: u64) -> bool {
    if bound > 1_099_511_627_776 {
        return false;
    }
    for task in 0..graphs.count() {
        if !has_wave_table(graphs.graph(task), bound, 1_000_000) {
            return false;
        }
    }
    true
}

#[test]
fn each_task_of_a_generated_set_has_a_wave_table(rt: HostRuntime) -> Result<(), Fail> {
    for number in 0..4u64 {
        let set = generate(rt.alloc(), number)?;
        let graphs = check(rt.alloc(), &set).ok().ok_or("constrained")?;
        let bound = horizon(rt.alloc(), &graphs)?;
        assert!(rt;
            bound <= 16_695 && have_wave_tables(&graphs, bound),
            "set {number}"
        );
    }
    Ok(())
}

// Whether the answer is a yes or a no.
fn is_decided(answer: &EdfAnswer) -> bool {
    match answer {
        EdfAnswer::Done(Evidence::EdfYes { .. }) => true,
        EdfAnswer::Done(Evidence::EdfNo { .. }) => true,
        _ => false,
    }
}

// Whether a set is decided with a budget of 1,000,000 by so many workers.
fn decides<R: Threads + Wait + Sync>(
    rt: &R,
    alloc: Global,
    set: &TaskSet,
    workers: u32,
) -> Result<bool, Fail>
    requires { workers ≤ 16 }
{
    let graphs = check(alloc, set).ok().ok_or("constrained")?;
    if workers == 0 {
        return Ok(false);
    }
    let crew = Crew {
        rt,
        alloc,
        effort: Effort::new(workers, 1_000_000),
        gate: &OpenGate,
    };
    let answer = analyse_edf(&crew, &Accepted::of(set, &graphs))?;
    Ok(is_decided(&answer))
}

#[test]
fn a_generated_set_is_decided(rt: HostRuntime) -> Result<(), Fail> {
    let set = generate(rt.alloc(), 0)?;
    assert!(rt; decides(&rt, rt.alloc(), &set, 1)?);
    assert!(rt; decides(&rt, rt.alloc(), &set, 4)?);
    Ok(())
}
