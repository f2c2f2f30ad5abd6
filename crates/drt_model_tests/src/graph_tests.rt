use drt_fixtures::{edge, make_set};
use drt_graph::{
    Graph, GraphError, Graphs, check, cycle_sums, is_closed, is_cycle, is_tight, potentials_fit,
};
use std::alloc::Global;
use std::test::Fail;

// Sources, targets and separations.
type Edges<'a> = &'a [(u32, u32, u32)];

// Three vertices with the deadline 5.
const VERTICES: &[(u32, u32)] = &[(1, 5), (1, 5), (1, 5)];

// The answer for a set of two tasks of these vertices, with these edges.
fn answer(
    alloc: Global,
    first: Edges<'_>,
    second: Edges<'_>,
) -> Result<Result<Graphs, GraphError>, Fail> {
    let set = make_set(alloc, &[(VERTICES, first), (VERTICES, second)])?;
    let set = set.ok_or("within the limits")?;
    Ok(check(alloc, &set))
}

// Whether a set of two such tasks is refused for this edge of this task.
fn names(
    alloc: Global,
    first: Edges<'_>,
    second: Edges<'_>,
    wanted: (u32, u32),
) -> Result<bool, Fail> {
    match answer(alloc, first, second)? {
        Err(GraphError::DeadlinePastSeparation { task, edge }) => Ok((task, edge) == wanted),
        Err(GraphError::Memory) => Ok(false),
        Ok(_) => Ok(false),
    }
}

#[test]
fn the_first_edge_with_its_deadline_past_its_separation_is_named(
    rt: HostRuntime,
) -> Result<(), Fail> {
    let alloc = rt.alloc();
    let fits = [(0, 0, 5), (1, 0, 6)];
    let fails = [(0, 0, 5), (1, 2, 4), (2, 0, 3)];
    let are_named = names(alloc, &fits, &fails, (1, 1))? && names(alloc, &fails, &fails, (0, 1))?;
    assert!(rt; are_named);
    Ok(())
}

// Whether the edges stand in the rows of their sources in file order, and the separations are theirs.
fn has_rows(graph: &Graph) -> bool {
    graph.vertex_count() == 3
        && graph.vertex(2).name.as_slice() == [b'v', b'c'].as_slice()
        && graph.out_degree(1) == 2
        && *graph.out_edge(1, 0) == edge(1, 2, 5)
        && *graph.out_edge(1, 1) == edge(1, 0, 8)
        && graph.out_degree(2) == 0
        && graph.separation(0, 0) == Some(9)
        && graph.separation(2, 0) == None
}

// Whether the first of two tasks with these edges has such rows, and so does a copy of its graph.
fn have_rows(alloc: Global, edges: Edges<'_>) -> Result<bool, Fail> {
    let graphs = answer(alloc, edges, &[])??;
    let copy = graphs.graph(0).copy(alloc)?;
    Ok(graphs.count() == 2 && has_rows(graphs.graph(0)) && has_rows(&copy))
}

#[test]
fn rows_are_in_file_order_and_a_copy_has_the_same(rt: HostRuntime) -> Result<(), Fail> {
    let edges = [(1, 2, 5), (0, 1, 7), (1, 0, 8), (0, 0, 9)];
    assert!(rt; have_rows(rt.alloc(), &edges)?);
    Ok(())
}

// Whether the cycle of the edges a-b 5 and b-a 8 is one, with its sums.
fn has_cycle(graph: &Graph) -> bool {
    is_cycle(graph, &[0, 1])
        && !is_cycle(graph, &[1])
        && !is_cycle(graph, &[0, 1, 2])
        && cycle_sums(graph, &[1, 0]) == (2, 13)
}

// Whether it is closed where it isn't empty, and the empty one where there is no work.
fn has_closed(graph: &Graph) -> bool {
    is_closed(graph, 2, &[0, 1])
        && is_closed(graph, 0, &[])
        && !is_closed(graph, 0, &[0, 1])
        && !is_closed(graph, 2, &[])
        && !is_closed(graph, 2, &[1, 2])
}

// Whether the cycle has the ratio 2/13, in lowest terms or not.
fn has_tight(graph: &Graph) -> bool {
    is_tight(graph, 2, 13, &[0, 1])
        && is_tight(graph, 4, 26, &[0, 1])
        && is_tight(graph, 1, 2, &[])
        && !is_tight(graph, 1, 13, &[0, 1])
}

// Whether these potentials fit at 2/13, where the gains of the edges are 13 - 10 and 13 - 16, and those others don't.
fn have_fitting(graph: &Graph) -> bool {
    potentials_fit(graph, 2, 13, &[0, 3, 0])
        && potentials_fit(graph, 2, 13, &[-3, 0])
        && !potentials_fit(graph, 2, 13, &[0, 2, 0])
        && !potentials_fit(graph, 2, 13, &[0, 4, 0])
}

// Whether the graph with the edges a-b 5 and b-a 8 has all that.
fn has_all(alloc: Global) -> Result<bool, Fail> {
    let graphs = answer(alloc, &[(0, 1, 5), (1, 0, 8)], &[])??;
    let graph = graphs.graph(0);
    Ok(has_cycle(graph) && has_closed(graph) && has_tight(graph) && have_fitting(graph))
}

#[test]
fn a_cycle_has_its_sums_and_its_ratio_and_potentials_rise_by_the_gain_of_each_edge(
    rt: HostRuntime,
) -> Result<(), Fail> {
    assert!(rt; has_all(rt.alloc())?);
    Ok(())
}
