//! The frontier and its steps.

ghost use Rattle.std.specs.Prelude.{◌≡◌, ◌+◌, ◌≤◌, ◌++◌, length, IfOk, vec_capacity};
ghost use Rattle.drt_effort.specs.Efforts.{most_budget};
ghost use Rattle.drt_model.specs.Numbers.{most_time};
ghost use Rattle.drt_steps.specs.Time.{AreChosen};
ghost use Rattle.drt_refine.specs.Machine.{opening_state};
ghost use Rattle.drt_refine.specs.View.{IsFrontier, setting_of, state_of, CanApply, IsFrontierStep};

use crate::states::States;
use crate::step::{FrontierEntry, FrontierReply, FrontierStep};
use drt_tree::Forest;
use drt_worklist::push_within;
use std::alloc::{AllocError as Memory, Global};
use std::marker::Model;

/// The combinations of nodes of a forest that were looked at so far, and the log of the steps that made them.
///
/// Any workers may step it in any order. Contracts see its roots, its wcet and deadline (in ticks), its budget (in steps),
/// its combinations and its log, and take the forest beside it, which is always that of `start`.
#[derive(Drop)]
pub struct Frontier {
    pub(crate) roots: Vec<u32>,
    pub(crate) wcet: u32,
    pub(crate) deadline: u32,
    pub(crate) budget: u64,
    // The nodes of all combinations, one combination after another.
    pub(crate) nodes: Vec<u32>,
    pub(crate) states: States,
    pub(crate) log: Vec<FrontierEntry>,
}

impl Model for Frontier {
    ghost use Rattle.std.specs.Prelude.{◌≡◌, ◌+◌, ◌*◌, ◌≤◌, length, vec_capacity};
    ghost use Rattle.drt_worklist.specs.Places.{places};
    ghost use Rattle.drt_refine.specs.Combination.{is_taken_combination};
    ghost use Rattle.drt_refine.specs.View.{FrontierView, combinations_of};

    ghost Value = { FrontierView };

    ghost view = { λ f. record { roots = f.roots.items; wcet = f.wcet; deadline = f.deadline; budget = f.budget; combinations = combinations_of (length f.roots.items) f.nodes.items f.states.items; log = f.log.items } };

    ghost invariant = { λ f.
        (length f.roots.items ≤ 31)
        × (f.wcet ≤ 1000000)
        × (f.budget ≤ 1000000)
        × (length f.log.items ≤ f.budget)
        × (length f.nodes.items ≡ length f.states.items * length f.roots.items)
        × (length f.states.items + length (places is_taken_combination f.states.items) ≤ 1 + length f.log.items)
        × (f.budget + 1 ≤ f.states.room)
        × ((f.budget + 1) * length f.roots.items ≤ vec_capacity f.nodes)
        × (f.budget ≤ vec_capacity f.log) };
}

impl Frontier {
    /// The frontier of a job of this wcet and deadline and of the trees with these roots. It takes all room for its
    /// combinations and its log here, so that its steps take none. The budget is how many steps the log may have.
    pub fn start(
        alloc: Global,
        forest: &Forest,
        roots: &[u32],
        wcet: u32,
        deadline: u32,
        budget: u64,
    ) -> Result<Frontier, Memory>
        requires few { length roots.now ≤ 31 }
        requires roots { AreChosen deadline forest.now.pool roots.now }
        requires wcet { (1 ≤ wcet) × (wcet ≤ most_time) }
        requires deadline { (1 ≤ deadline) × (deadline ≤ most_time) }
        requires budget { (1 ≤ budget) × (budget ≤ most_budget) }
        ensures setting { IfOk result (λ frontier. setting_of forest.now frontier ≡ record { forest = forest.now; roots = roots.now; wcet = wcet; deadline = deadline; budget = budget }) }
        ensures state { IfOk result (λ frontier. state_of frontier ≡ opening_state (setting_of forest.now frontier)) }
        ensures frontier { IfOk result (λ frontier. IsFrontier forest.now frontier) }
    {
        forest.show_sound();
        let room = budget as usize + 1;
        let mut nodes = Vec::with_capacity(alloc, room * roots.len())?;
        push_all(&mut nodes, roots);
        Ok(Frontier {
            roots: Vec::from_slice(alloc, roots)?,
            wcet,
            deadline,
            budget,
            nodes,
            states: States::new(alloc, room)?,
            log: Vec::with_capacity(alloc, budget as usize)?,
        })
    }

    /// One step of the machine by a worker: it takes the least pending combination, or settles one that it holds. It takes
    /// no memory.
    pub fn apply(&mut self, forest: &Forest, worker: u32, step: FrontierStep) -> FrontierReply
        requires frontier { IsFrontier forest.now self.old }
        requires can { CanApply forest.now self.old worker step }
        ensures step { IsFrontierStep forest.now self.old self.new worker step result }
        ensures frontier { IsFrontier forest.now self.new }
    {
        self.make(forest, worker, step)
    }
}

// Appends a copy of a list.
fn push_all(items: &mut Vec<u32>, more: &[u32])
    requires room { length items.old.items + length more.now ≤ vec_capacity items.old }
    ensures items { items.new.items ≡ items.old.items ++ more.now }
    ensures capacity { vec_capacity items.old ≤ vec_capacity items.new }
{
    for k in 0..more.len() {
        push_within(items, more[k]);
    }
}
