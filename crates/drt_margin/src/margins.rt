//! The margin.
ghost use Rattle.std.specs.Prelude.{◌≡◌, IfOk};
ghost use Rattle.drt_model.specs.Constrained.{AreConstrained};
ghost use Rattle.drt_margin.specs.Margin.{IsVertexOf};
ghost use Rattle.drt_margin.specs.Answers.{IsMarginAnswer};

use crate::answer::MarginAnswer;
use crate::asking::{Finding, ask};
use crate::halving::halve;
use crate::question::Question;
use drt_crew::Crew;
use drt_model::{Memory, TaskSet};
use drt_pool::Gate;
use std::sync::Wait;
use std::thread::Threads;

/// The margin of the question's vertex under its policy, and the set as it was. Each analysis has the crew's workers and budget.
///
/// First the set itself is analysed; where that isn't a yes, the evidence is the answer. After a yes the room from 0 to the least number
/// that the deadline doesn't hold is halved: the set with the number in the middle is analysed, until the greatest number that is within and
/// the least one that isn't are next to each other. The set with the latter is analysed if it wasn't yet and its limits allow.
pub fn margin<G: Gate, R: Threads + Wait + Sync>(
    crew: &Crew<'_, G, R>,
    set: TaskSet,
    question: Question,
) -> Result<(TaskSet, MarginAnswer), Memory>
    requires constrained { AreConstrained set.tasks }
    requires vertex { IsVertexOf set.tasks question.task question.vertex }
    ensures same { IfOk result (λ r. r.0 ≡ set) }
    ensures answer { IfOk result (λ r. IsMarginAnswer set question.policy question.task question.vertex crew.now.effort.budget r.1) }
{
    set.keep_limits();
    let (set, finding) = ask(crew, set, question, 0)?;
    match finding {
        Finding::Yes(evidence) => halve(crew, set, question, evidence),
        Finding::Other(evidence) => Ok((set, MarginAnswer::AtZero(evidence))),
        Finding::Beyond(beyond) => Ok((set, MarginAnswer::Beyond { add: 0, beyond })),
        Finding::Undecided(trail) => Ok((set, MarginAnswer::Undecided { add: 0, trail })),
    }
}
