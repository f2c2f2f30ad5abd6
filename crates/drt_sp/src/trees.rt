//! The tree of a task's walks: from its graph to the forest and to the dossier.
ghost use Rattle.std.specs.Prelude.{◌≡◌, ◌+◌, ◌*◌, ◌≤◌, All, IfOk, IfSome, length};
ghost use Rattle.drt_table.specs.Machine.{search_of};
ghost use Rattle.drt_effort.specs.Efforts.{most_budget};
ghost use Rattle.drt_model.specs.Numbers.{most_time, most_number};
ghost use Rattle.drt_request.specs.Request.{request_algebra};
ghost use Rattle.drt_table.specs.Drive.{StopsAt};
ghost use Rattle.drt_table.specs.View.{setting_of};
ghost use Rattle.drt_table.specs.declared.step.TableReply.{TableReply};
ghost use Rattle.drt_sp.specs.Searches.{IsSearchEnd};
ghost use Rattle.drt_sp.specs.TaskTrees.{IsTreeSearch};

use crate::trees::adding::add_tree;
pub(crate) use crate::trees::gathering::Leaves;
use crate::trees::gathering::gather;
use drt_claims::TreeClaim;
use drt_effort::Effort;
use drt_graph::Graph;
use drt_model::{Memory, Row};
use drt_request::RequestLabel;
use drt_table::{Entry, Table, TableReply};
use drt_tree::Forest;
use std::alloc::Global;

mod adding;
mod gathering;

/// A task's tree: its first node and its root in the forest, and the tree as it is written.
#[derive(Drop)]
pub struct TaskTree {
    pub low: u32,
    pub top: u32,
    pub claim: TreeClaim,
}

/// How the search of a task's walks ended.
#[derive(Drop)]
pub enum TreeSearch {
    /// It is finished, and this is the tree of the walks that it found.
    Tree(TaskTree),
    /// It spent its budget by these steps.
    Spent(Row<Entry>),
}

// The search of a graph's walks up to the bound, driven to its end. Sharing its table costs more than it gives, so one worker makes its steps.
fn search(
    alloc: Global,
    graph: &Graph,
    bound: u64,
    effort: Effort,
) -> Result<(Table<RequestLabel>, TableReply), Memory>
    requires from { 1 ≤ bound }
    requires to { bound ≤ most_time }
    ensures setting { IfOk result (λ end. setting_of end.0 ≡ search_of graph.now bound effort.budget) }
    ensures stops { IfOk result (λ end. StopsAt request_algebra end.0 end.1) }
{
    let table: Table<RequestLabel> = Table::start(alloc, graph, bound, effort.budget())?;
    table.drive(alloc, 0)
}

/// How a search of a task's walks ended, before a tree is made of it.
#[derive(Drop)]
pub(crate) enum SearchEnd {
    /// It is finished, and these are the leaves of the tree to be.
    Finished(Leaves),
    /// It spent its budget by these steps.
    Spent(Row<Entry>),
}

/// Searches the walks of a task's graph up to the bound, in ticks, within the budget of steps, for the leaves of its tree.
pub(crate) fn search_leaves(
    alloc: Global,
    graph: &Graph,
    bound: u64,
    effort: Effort,
) -> Result<SearchEnd, Memory>
    requires from { 1 ≤ bound }
    requires to { bound ≤ most_time }
    ensures { IfOk result (IsSearchEnd graph.now bound effort.budget) }
{
    let (table, _reply) = search(alloc, graph, bound, effort)?;
    end_of(alloc, table)
}

// How a search that was driven to its end ended.
fn end_of(alloc: Global, table: Table<RequestLabel>) -> Result<SearchEnd, Memory>
    requires few { table.budget ≤ most_budget }
    requires stops { (reply : TableReply) × StopsAt request_algebra table reply }
    ensures { IfOk result (IsSearchEnd table.graph table.bound table.budget) }
{
    if !table.finished() {
        table.keep_run();
        return Ok(SearchEnd::Spent(Row::from_vec(table.into_log())));
    }
    let leaves = gather(alloc, &table)?;
    Ok(SearchEnd::Finished(leaves))
}

// How the search of a graph's walks ends: as it was found before, or else as it does now.
fn take_or_search(
    alloc: Global,
    graph: &Graph,
    bound: u64,
    found: Option<SearchEnd>,
    effort: Effort,
) -> Result<SearchEnd, Memory>
    requires from { 1 ≤ bound }
    requires to { bound ≤ most_time }
    requires found { IfSome found (IsSearchEnd graph.now bound effort.budget) }
    ensures { IfOk result (IsSearchEnd graph.now bound effort.budget) }
{
    match found {
        Some(end) => Ok(end),
        None => search_leaves(alloc, graph, bound, effort),
    }
}

/// Does what `search_tree` does. Where the end of the search was found before, it isn't searched again.
pub(crate) fn plant_tree(
    alloc: Global,
    graph: &Graph,
    bound: u64,
    found: Option<SearchEnd>,
    effort: Effort,
    forest: &mut Forest,
) -> Result<TreeSearch, Memory>
    requires from { 1 ≤ bound }
    requires to { bound ≤ most_time }
    requires found { IfSome found (IsSearchEnd graph.now bound effort.budget) }
    requires functions { All (λ xs. length xs ≡ bound) forest.old.pool }
    requires room { length forest.old.nodes + 2 * (most_time + 96) ≤ most_number }
    ensures { IfOk result (IsTreeSearch graph.now bound effort.budget forest.old forest.new) }
{
    let end = take_or_search(alloc, graph, bound, found, effort)?;
    match end {
        SearchEnd::Finished(leaves) => {
            let tree = add_tree(
                alloc,
                leaves.labels.as_slice(),
                leaves.walks.as_slice(),
                forest,
            )?;
            Ok(TreeSearch::Tree(tree))
        }
        SearchEnd::Spent(log) => Ok(TreeSearch::Spent(log)),
    }
}

/// Searches the walks of a task's graph up to the bound, in ticks, within the budget of steps, and puts the tree of those that no
/// other one dominates into the forest. After want of memory the forest may have that tree or not.
pub fn search_tree(
    alloc: Global,
    graph: &Graph,
    bound: u64,
    effort: Effort,
    forest: &mut Forest,
) -> Result<TreeSearch, Memory>
    requires from { 1 ≤ bound }
    requires to { bound ≤ most_time }
    requires functions { All (λ xs. length xs ≡ bound) forest.old.pool }
    requires room { length forest.old.nodes + 2 * (most_time + 96) ≤ most_number }
    ensures { IfOk result (IsTreeSearch graph.now bound effort.budget forest.old forest.new) }
{
    plant_tree(alloc, graph, bound, None, effort, forest)
}
