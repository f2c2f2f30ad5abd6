//! The ratios of small graphs.
ghost use Rattle.std.specs.Prelude.{◌≤◌};

use crate::horizon_tests::graphs;
use drt_fixtures::Shape;
use drt_graph::Graph;
use drt_model::{Memory, Row};
use drt_rates::RatioClaim;
use drt_ratio::{check_ratio, greatest, utilisation};
use std::alloc::Global;
use std::test::Fail;

// Whether the task has that greatest ratio and these potentials, and a cycle where the ratio isn't 0, all of which keep the rules.
fn has_ratio(
    alloc: Global,
    shape: Shape<'_>,
    num: u64,
    den: u64,
    potentials: &[i64],
) -> Result<bool, Fail> {
    let graphs = graphs(alloc, &[shape])?;
    if graphs.count() != 1 {
        return Err("one task".into());
    }
    let graph = graphs.graph(0);
    let proof = greatest(alloc, graph)?;
    Ok(
        proof.num == num
            && proof.den == den
            && proof.cycle.as_slice().is_empty() == (num == 0)
            && proof.potentials.as_slice() == potentials
            && check_ratio(graph, &proof),
    )
}

#[test]
fn ratios_and_potentials_by_hand(rt: HostRuntime) -> Result<(), Fail> {
    // Three speeds of an engine: the loops of the second and of the third vertex have equal ratios.
    let engine = [
        (0, 0, 60),
        (0, 1, 60),
        (1, 0, 30),
        (1, 1, 30),
        (1, 2, 30),
        (2, 2, 15),
        (2, 1, 15),
    ];
    // The best cycle is that of the first two vertices. The shortest is the loop, the heaviest goes through the third.
    let neither = [(0, 0, 10), (0, 1, 4), (1, 0, 4), (0, 2, 20), (2, 0, 20)];
    let all = [(0, 1, 5), (1, 2, 5), (2, 0, 2)];
    let cases: [(Shape<'_>, u64, u64, &[i64]); 9] = [
        ((&[(12, 1), (8, 1), (4, 1)], &engine), 4, 15, &[120, 60, 0]),
        ((&[(10, 1)], &[(0, 0, 50)]), 1, 5, &[0]),
        ((&[(20, 1)], &[(0, 0, 200)]), 1, 10, &[0]),
        ((&[(2, 1)], &[(0, 0, 5)]), 2, 5, &[0]),
        ((&[(4, 1)], &[(0, 0, 7)]), 4, 7, &[0]),
        ((&[(6, 1)], &[]), 0, 1, &[0]),
        ((&[(2, 1), (3, 1)], &[(0, 1, 5)]), 0, 1, &[0, 3]),
        ((&[(3, 1), (1, 1), (9, 1)], &neither), 1, 2, &[2, 0, 0]),
        ((&[(1, 1), (2, 1), (3, 1)], &all), 1, 2, &[1, 0, 1]),
    ];
    for (shape, num, den, potentials) in cases {
        assert!(rt;
            has_ratio(rt.alloc(), shape, num, den, potentials)?,
            "of {num}/{den}"
        );
    }
    Ok(())
}

// A claim of 2/5 or 1/2 or 0/1 about the graph.
fn claim(
    alloc: Global,
    graph: &Graph,
    num: u64,
    den: u64,
    cycle: &[u32],
    potentials: &[i64],
) -> Result<bool, Memory> {
    if num > 9 || den == 0 || den > 9 {
        return Ok(false);
    }
    let proof = RatioClaim {
        num,
        den,
        cycle: Row::from_vec(Vec::from_slice(alloc, cycle)?),
        potentials: Row::from_vec(Vec::from_slice(alloc, potentials)?),
    };
    Ok(check_ratio(graph, &proof))
}

// Whether such a claim is kept of one vertex of 2 ticks with a loop of 5.
fn is_kept(
    alloc: Global,
    num: u64,
    den: u64,
    cycle: &[u32],
    potentials: &[i64],
) -> Result<bool, Fail> {
    let graphs = graphs(alloc, &[(&[(2, 1)], &[(0, 0, 5)])])?;
    if graphs.count() != 1 {
        return Err("one task".into());
    }
    Ok(claim(alloc, graphs.graph(0), num, den, cycle, potentials)?)
}

#[test]
fn a_claim_is_kept_to_each_rule(rt: HostRuntime) -> Result<(), Fail> {
    let cases: [(u64, u64, &[u32], &[i64], bool); 10] = [
        (2, 5, &[0], &[0], true),
        (2, 5, &[0], &[-7], true),
        (2, 5, &[0, 0], &[0], true),
        (2, 5, &[0], &[], false),
        (2, 5, &[0], &[0, 0], false),
        (2, 5, &[], &[0], false),
        (2, 5, &[1], &[0], false),
        (1, 2, &[0], &[0], false),
        (0, 1, &[], &[0], false),
        (0, 1, &[0], &[0], false),
    ];
    for (num, den, cycle, potentials, kept) in cases {
        assert_eq!(rt; is_kept(rt.alloc(), num, den, cycle, potentials)?, kept);
    }
    Ok(())
}

// A claim of that ratio.
fn ratio(alloc: Global, num: u64, den: u64) -> RatioClaim
    requires some { 1 ≤ den }
    requires num_small { num ≤ 1000000 }
    requires den_small { den ≤ 1000000 }
    ensures num { result.num ≤ 1000000 }
    ensures some { 1 ≤ result.den }
    ensures den { result.den ≤ 1000000 }
{
    RatioClaim {
        num,
        den,
        cycle: Row::from_vec(Vec::new(alloc)),
        potentials: Row::from_vec(Vec::new(alloc)),
    }
}

// The utilisation of tasks with these ratios, where it is in reach.
fn sum_of(alloc: Global, ratios: &[(u64, u64)]) -> Result<Option<(u128, u128)>, Fail> {
    let mut proofs = Vec::new(alloc);
    'ratios: for i in 0..ratios.len() {
        let (num, den) = ratios[i];
        if num > 1000000 || den == 0 || den > 1000000 {
            return Err("a small ratio".into());
        }
        proofs.push(ratio(alloc, num, den))?;
    }
    if proofs.len() > 32 {
        return Err("few tasks".into());
    }
    match utilisation(proofs.as_slice()) {
        Some(sum) => Ok(Some((sum.num(), sum.den()))),
        None => Ok(None),
    }
}

#[test]
fn utilisations_by_hand(rt: HostRuntime) -> Result<(), Fail> {
    let cases: [(&[(u64, u64)], Option<(u128, u128)>); 5] = [
        (&[(2, 5), (4, 7)], Some((34, 35))),
        // Over 30 the sum is 8 + 6 + 3.
        (&[(4, 15), (1, 5), (1, 10)], Some((17, 30))),
        // Over 10 the sum is 5 + 3, and 8/10 is 4/5.
        (&[(1, 2), (3, 10)], Some((4, 5))),
        (&[(0, 1)], Some((0, 1))),
        // The least common multiple is 499997000005499997000000, above 2^60.
        (&[(1, 1000000), (1, 999999), (1, 999998), (1, 999997)], None),
    ];
    for (ratios, sum) in cases {
        assert_eq!(rt; sum_of(rt.alloc(), ratios)?, sum);
    }
    Ok(())
}
