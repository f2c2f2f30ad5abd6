ghost use Rattle.std.specs.Prelude.{◌≡◌, ◌≤◌, [], IfOk};
ghost use Rattle.drt_wave.specs.Cells.{net_of};
ghost use Rattle.drt_wave.specs.Seats.{parts_held, draws_of, KnowsTo, IsOfTable};

use crate::graphs::{PAIR, make_graph, read_cell, start_table};
use crate::tables::has_front;
use drt_fixtures::Shape;
use drt_fixtures::shapes::RETURNING;
use drt_wave::{DenseFront, WaveSeat, WaveTable, dense_front, work_wave};
use std::alloc::Global;
use std::test::Fail;

// A vertex and a greater one that lies behind it by a separation of 2, and has more work by a detour of 5.
const DETOUR: Shape<'static> = (
    &[(1, 1), (4, 1), (9, 2)],
    &[(0, 2, 2), (0, 1, 2), (1, 2, 3)],
);

// The works of the walks of RETURNING up to 5.
const RETURNING_WORKS: [(u32, u64, u64); 6] = [
    (0, 0, 1),
    (1, 0, 2),
    (2, 0, 1),
    (2, 1, 3),
    (2, 3, 2),
    (2, 4, 4),
];

// The works of the walks of PAIR up to 150, of which none dominates another.
const PAIR_WORKS: [(u32, u64, u64); 6] = [
    (0, 0, 1),
    (0, 70, 6),
    (0, 140, 7),
    (1, 0, 5),
    (1, 70, 6),
    (1, 140, 11),
];

// A shape, a bound, and the works or the front of its walks up to that.
struct Case {
    shape: Shape<'static>,
    bound: u64,
    wanted: &'static [(u32, u64, u64)],
    shows: &'static str,
}

// The works of a graph of this shape up to the bound.
fn works_of(alloc: Global, shape: Shape<'_>, bound: u64) -> Result<DenseFront, Fail> {
    let graph = make_graph(alloc, shape, bound)?;
    Ok(dense_front(alloc, &graph, bound)?)
}

// Works the first waves of a table, in order, by the seat that has every part.
fn work_waves(table: &WaveTable, seat: &mut WaveSeat, count: u32)
    requires seat { IsOfTable table.now seat.old }
    requires whole { parts_held seat.old ≡ 1024 }
    requires count { count ≤ (net_of table.now.plan).waves }
    requires draws { draws_of seat.old ≡ [] }
    requires known { KnowsTo 0 seat.old }
    ensures seat { IsOfTable table.now seat.new }
    ensures known { KnowsTo count seat.new }
{
    'waves: for wave in 0..count {
        work_wave(table, seat, wave);
    }
}

// A table of a shape's walks up to a bound, worked by the seat that has every part.
fn work_table(alloc: Global, shape: Shape<'_>, bound: u64) -> Result<(WaveTable, WaveSeat), Fail>
    ensures seat { IfOk result (λ r. IsOfTable r.0 r.1) }
    ensures known { IfOk result (λ r. KnowsTo (net_of r.0.plan).waves r.1) }
{
    let (table, mut seat) = start_table(alloc, shape, bound)?;
    let waves = table.plan.bound / table.plan.span + 1;
    work_waves(&table, &mut seat, waves as u32);
    Ok((table, seat))
}

// How many offsets a wave of the table of the walks up to 5 spans, and the work in a cell once all waves are worked.
fn read_worked(alloc: Global, cell: u32) -> Result<(u64, u64), Fail> {
    let (table, mut seat) = work_table(alloc, RETURNING, 5)?;
    let work = read_cell(&table, &mut seat, cell)?;
    Ok((table.plan.span, work))
}

// The works of a table that was worked and then closed.
fn close_worked(alloc: Global, shape: Shape<'_>, bound: u64) -> Result<DenseFront, Fail> {
    let (table, seat) = work_table(alloc, shape, bound)?;
    Ok(table.close(seat))
}

// The work that is wanted of a vertex and an offset, 0 where none is named.
fn wanted_at(wanted: &[(u32, u64, u64)], vertex: u32, offset: u64) -> u64 {
    for cell in wanted {
        if cell.0 == vertex && cell.1 == offset {
            return cell.2;
        }
    }
    0
}

// Whether the works of a vertex are those wanted.
fn has_row(works: &DenseFront, wanted: &[(u32, u64, u64)], vertex: u32) -> bool {
    if vertex >= works.graph().vertex_count() {
        return false;
    }
    let bound = works.bound();
    for offset in 0..bound {
        if works.work(vertex, offset) != wanted_at(wanted, vertex, offset) {
            return false;
        }
    }
    works.work(vertex, bound) == wanted_at(wanted, vertex, bound)
}

// Whether the works that aren't 0 are those wanted.
fn has_works(works: &DenseFront, wanted: &[(u32, u64, u64)]) -> bool {
    let count = works.graph().vertex_count();
    for vertex in 0..count {
        if !has_row(works, wanted, vertex) {
            return false;
        }
    }
    true
}

// Whether the walk of a vertex and an offset is the one wanted.
fn is_walk(
    alloc: Global,
    works: &DenseFront,
    vertex: u32,
    offset: u64,
    wanted: &[u32],
) -> Result<bool, Fail> {
    if vertex >= works.graph().vertex_count() || offset > works.bound() {
        return Ok(false);
    }
    if works.work(vertex, offset) == 0 {
        return Ok(false);
    }
    let walk = works.walk(alloc, vertex, offset)?;
    Ok(walk.as_slice() == wanted)
}

#[test]
fn a_cell_has_the_number_of_its_vertex_and_offset(rt: HostRuntime) -> Result<(), Fail> {
    // A vertex has 6 cells: these are of m, which is vertex 2, at the offsets 1, 3, 4 and 5.
    for (cell, work) in [(13u32, 3u64), (15, 2), (16, 4), (17, 0)] {
        assert!(rt; read_worked(rt.alloc(), cell)? == (1, work), "cell {cell}");
    }
    Ok(())
}

// Whether a table that is worked and then closed has these works.
fn closes_with(
    alloc: Global,
    shape: Shape<'_>,
    bound: u64,
    wanted: &[(u32, u64, u64)],
) -> Result<bool, Fail> {
    let works = close_worked(alloc, shape, bound)?;
    Ok(has_works(&works, wanted))
}

#[test]
fn a_worked_table_closes_with_the_greatest_works(rt: HostRuntime) -> Result<(), Fail> {
    assert!(rt; closes_with(rt.alloc(), RETURNING, 5, &RETURNING_WORKS)?);
    Ok(())
}

// Whether the works of a case are those wanted.
fn has_works_of(alloc: Global, case: &Case) -> Result<bool, Fail> {
    let works = works_of(alloc, case.shape, case.bound)?;
    Ok(has_works(&works, case.wanted))
}

const WORKS: [Case; 5] = [
    Case {
        shape: RETURNING,
        bound: 5,
        wanted: &RETURNING_WORKS,
        shows: "each cell has the greatest work",
    },
    Case {
        shape: PAIR,
        bound: 150,
        wanted: &PAIR_WORKS,
        shows: "a wave of several blocks is worked to its end",
    },
    Case {
        shape: DETOUR,
        bound: 6,
        wanted: &[
            (0, 0, 1),
            (1, 0, 4),
            (1, 2, 5),
            (2, 0, 9),
            (2, 2, 10),
            (2, 3, 13),
        ],
        shows: "the last job is due within the bound",
    },
    Case {
        shape: RETURNING,
        bound: 0,
        wanted: &[],
        shows: "nothing is due by time 0",
    },
    Case {
        shape: (&[(3, 2)], &[]),
        bound: 100,
        wanted: &[(0, 0, 3)],
        shows: "without an edge there is one wave",
    },
];

#[test]
fn each_cell_has_the_greatest_work(rt: HostRuntime) -> Result<(), Fail> {
    for case in &WORKS {
        let shows = case.shows;
        assert!(rt; has_works_of(rt.alloc(), case)?, "{shows}");
    }
    Ok(())
}

// Whether the front of a case is the one wanted.
fn has_front_of(alloc: Global, case: &Case) -> Result<bool, Fail> {
    let works = works_of(alloc, case.shape, case.bound)?;
    has_front(alloc, &works, case.wanted)
}

const FRONTS: [Case; 4] = [
    Case {
        shape: RETURNING,
        bound: 5,
        wanted: &[(0, 0, 1), (1, 0, 2), (2, 0, 1), (2, 1, 3), (2, 4, 4)],
        shows: "a label with less work than an earlier one is left out",
    },
    Case {
        shape: PAIR,
        bound: 150,
        wanted: &PAIR_WORKS,
        shows: "a wave of several blocks is worked to its end",
    },
    Case {
        shape: DETOUR,
        bound: 7,
        wanted: &[
            (0, 0, 1),
            (1, 0, 4),
            (1, 2, 5),
            (2, 0, 9),
            (2, 2, 10),
            (2, 3, 13),
            (2, 5, 14),
        ],
        shows: "a detour with more work is no shorter walk",
    },
    Case {
        shape: RETURNING,
        bound: 0,
        wanted: &[],
        shows: "nothing is due by time 0",
    },
];

#[test]
fn the_front_leaves_out_a_label_with_less_work_than_an_earlier_one(
    rt: HostRuntime,
) -> Result<(), Fail> {
    for case in &FRONTS {
        let shows = case.shows;
        assert!(rt; has_front_of(rt.alloc(), case)?, "{shows}");
    }
    Ok(())
}

// A shape and a bound, and a vertex, an offset and the walk with the greatest work to them.
type Found = (Shape<'static>, u64, u32, u64, &'static [u32]);

// The last two: there is a walk by a detour, with more work and later.
const WALKS: [Found; 5] = [
    (RETURNING, 5, 2, 4, &[1, 2, 2]),
    (RETURNING, 5, 1, 0, &[1]),
    (PAIR, 150, 1, 140, &[1, 0, 1]),
    (DETOUR, 7, 2, 2, &[0, 2]),
    (DETOUR, 7, 2, 5, &[0, 1, 2]),
];

// Whether the walk is found.
fn finds_walk(alloc: Global, found: Found) -> Result<bool, Fail> {
    let (shape, bound, vertex, offset, walk) = found;
    let works = works_of(alloc, shape, bound)?;
    is_walk(alloc, &works, vertex, offset, walk)
}

#[test]
fn a_walk_is_found_backwards(rt: HostRuntime) -> Result<(), Fail> {
    for (i, found) in WALKS.iter().enumerate() {
        assert!(rt; finds_walk(rt.alloc(), *found)?, "walk {i}");
    }
    Ok(())
}
