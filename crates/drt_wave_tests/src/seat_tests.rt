ghost use Rattle.std.specs.Prelude.{◌≡◌, ◌<◌, IfOk};
ghost use Rattle.drt_wave.specs.Seats.{parts_held, IsOfTable};

use crate::graphs::{PAIR, read_cell, start_table};
use drt_fixtures::Shape;
use drt_fixtures::shapes::RETURNING;
use drt_wave::{WaveSeat, WaveTable};
use std::alloc::Global;
use std::test::Fail;

// How many offsets a wave of a shape's table up to a bound spans.
fn read_span(alloc: Global, shape: Shape<'_>, bound: u64) -> Result<u64, Fail> {
    let (table, _seat) = start_table(alloc, shape, bound)?;
    Ok(table.plan.span)
}

#[test]
fn a_wave_has_as_many_offsets_as_the_least_separation(rt: HostRuntime) -> Result<(), Fail> {
    // Without an edge it has all 101 of them.
    let cases: [(Shape<'_>, u64, u64); 3] = [
        (PAIR, 150, 70),
        (RETURNING, 5, 1),
        ((&[(3, 2)], &[]), 100, 101),
    ];
    for (shape, bound, span) in cases {
        assert!(rt;
            read_span(rt.alloc(), shape, bound)? == span,
            "up to {bound}"
        );
    }
    Ok(())
}

// A wave table of the walks up to 5, and two seats of it.
fn start_two(alloc: Global) -> Result<(WaveTable, WaveSeat, WaveSeat), Fail>
    ensures seats { IfOk result (λ r. IsOfTable r.0 r.1 × IsOfTable r.0 r.2) }
    ensures parts { IfOk result (λ r. (0 < parts_held r.1) × (0 < parts_held r.2)) }
{
    let (table, mut seat) = start_table(alloc, RETURNING, 5)?;
    let other = table.split(alloc, &mut seat)?;
    Ok((table, seat, other))
}

// The next number of the first wave that a seat draws.
fn draw(table: &WaveTable, seat: &mut WaveSeat) -> u64
    requires seat { IsOfTable table.now seat.old }
    requires parts { 0 < parts_held seat.old }
    ensures seat { IsOfTable table.now seat.new }
    ensures parts { parts_held seat.new ≡ parts_held seat.old }
{
    table.claim(seat, 0)
}

// The numbers that a seat, another one, and the first one again draw.
fn draw_in_turn(alloc: Global) -> Result<[u64; 3], Fail> {
    let (table, mut seat, mut other) = start_two(alloc)?;
    let first = draw(&table, &mut seat);
    let second = draw(&table, &mut other);
    let third = draw(&table, &mut seat);
    Ok([first, second, third])
}

#[test]
fn two_seats_draw_different_numbers(rt: HostRuntime) -> Result<(), Fail> {
    assert!(rt; draw_in_turn(rt.alloc())? == [0, 1, 2]);
    Ok(())
}

// The numbers that two seats draw, and the one that the seat draws that both are joined into.
fn draw_and_join(alloc: Global) -> Result<[u64; 3], Fail> {
    let (table, mut seat, mut other) = start_two(alloc)?;
    let first = draw(&table, &mut seat);
    let second = draw(&table, &mut other);
    table.join(&mut seat, other);
    let third = draw(&table, &mut seat);
    Ok([first, second, third])
}

#[test]
fn the_numbers_of_two_seats_go_on_after_they_are_joined(rt: HostRuntime) -> Result<(), Fail> {
    assert!(rt; draw_and_join(rt.alloc())? == [0, 1, 2]);
    Ok(())
}

// The first four numbers of the first wave of the pair's table.
fn draw_four(alloc: Global) -> Result<[u64; 4], Fail> {
    let (table, mut seat) = start_table(alloc, PAIR, 150)?;
    let first = draw(&table, &mut seat);
    let second = draw(&table, &mut seat);
    let third = draw(&table, &mut seat);
    let fourth = draw(&table, &mut seat);
    Ok([first, second, third, fourth])
}

// The first wave has 140 cells, so three blocks of up to 64.
#[test]
fn a_number_past_the_end_is_no_less_than_the_number_of_blocks(rt: HostRuntime) -> Result<(), Fail> {
    let drawn = draw_four(rt.alloc())?;
    assert!(rt; drawn[0] == 0 && drawn[1] == 1 && drawn[2] == 2 && drawn[3] >= 3);
    Ok(())
}

// The work in a cell of a table that was just started, of the walks up to 5.
fn read_open(alloc: Global, cell: u32) -> Result<u64, Fail> {
    let (table, mut seat) = start_table(alloc, RETURNING, 5)?;
    read_cell(&table, &mut seat, cell)
}

#[test]
fn a_cell_opens_with_the_execution_time(rt: HostRuntime) -> Result<(), Fail> {
    // A vertex has 6 cells. The cells at offset 0 of p(1,1) and q(2,1), and the one of p at offset 1.
    for (cell, work) in [(0u32, 1u64), (6, 2), (1, 0)] {
        assert!(rt; read_open(rt.alloc(), cell)? == work, "cell {cell}");
    }
    Ok(())
}

// Raises the cell in which the walk over an edge out of a vertex ends to that walk's work, and says which cell and what work.
fn raise_walk(
    table: &WaveTable,
    seat: &mut WaveSeat,
    from: u32,
    number: u32,
) -> Result<(u64, u64), Fail>
    requires seat { IsOfTable table.now seat.old }
    requires parts { 0 < parts_held seat.old }
    ensures seat { IsOfTable table.now seat.new }
    ensures parts { parts_held seat.new ≡ parts_held seat.old }
{
    let graph = &table.plan.graph;
    let count = graph.vertex_count();
    if from >= count || number >= graph.out_degree(from) {
        return Err("an edge of the graph".into());
    }
    let edge = graph.out_edge(from, number);
    let offset = edge.sep as u64;
    let first = graph.vertex(from);
    let last = graph.vertex(edge.to);
    let bound = table.plan.bound;
    if first.deadline as u64 > bound || offset + last.deadline as u64 > bound {
        return Err("within the bound".into());
    }
    let cell = edge.to as u64 * (bound + 1) + offset;
    let work = first.wcet as u64 + last.wcet as u64;
    table.raise(seat, cell as u32, work);
    Ok((cell, work))
}

// What is raised and then read in cell 13, first for the walk q m, and then for the walk p m.
fn raise_two(alloc: Global) -> Result<[(u64, u64, u64); 2], Fail> {
    let (table, mut seat) = start_table(alloc, RETURNING, 5)?;
    let (cell, work) = raise_walk(&table, &mut seat, 1, 0)?;
    let by_q = (cell, work, read_cell(&table, &mut seat, 13)?);
    let (cell, work) = raise_walk(&table, &mut seat, 0, 0)?;
    let by_p = (cell, work, read_cell(&table, &mut seat, 13)?);
    Ok([by_q, by_p])
}

// Both walks end in m, which is vertex 2, at offset 1. The work of q m is 2 + 1, and that of p m is 1 + 1.
#[test]
fn a_raised_cell_keeps_the_greater_work(rt: HostRuntime) -> Result<(), Fail> {
    assert!(rt; raise_two(rt.alloc())? == [(13, 3, 3), (13, 2, 3)]);
    Ok(())
}
