//! What a line without a fault adds to what the lines above leave.
ghost use Rattle.std.specs.Prelude.{◌≡◌, Some, true, IfOk, option_map};
ghost use Rattle.drt_classic.specs.ClassicFaults.{add_frame, after_classic_line, classic_opening, with_frame, with_last_classic};

use crate::classic::{Classic, Frame};
use crate::state::{Draft, Line, State, pushed};
use drt_model::{Memory, Row};
use std::alloc::Global;

/// The state below the first line.
pub fn open(alloc: Global) -> State
    ensures { result ≡ classic_opening }
{
    State {
        closed: Row::from_vec(Vec::new(alloc)),
        last: None,
        ended: false,
    }
}

/// The tasks that are done, with the last one behind them.
#[tactic(auto, unfolding(crate::specs::ClassicFaults::with_last_classic))]
pub fn close(closed: Row<Draft>, last: Option<Draft>) -> Result<Row<Draft>, Memory>
    ensures { IfOk result (λ ds. ds ≡ with_last_classic closed last) }
{
    match last {
        Some(draft) => pushed(closed, draft),
        None => Ok(closed),
    }
}

// The task with one frame more.
#[tactic(auto, unfolding(crate::specs::ClassicFaults::with_frame))]
fn with_frame(frame: Frame, task: Classic) -> Result<Classic, Memory>
    ensures { IfOk result (λ t. t ≡ with_frame frame task) }
{
    match task {
        Classic::Cyclic { name, frames } => Ok(Classic::Cyclic {
            name,
            frames: pushed(frames, frame)?,
        }),
        Classic::Free { name, frames } => Ok(Classic::Free {
            name,
            frames: pushed(frames, frame)?,
        }),
        other => Ok(other),
    }
}

#[tactic(auto, unfolding(crate::specs::ClassicFaults::add_frame))]
fn frame_added(frame: Frame, last: Option<Draft>) -> Result<Option<Draft>, Memory>
    ensures { IfOk result (λ d. d ≡ option_map (add_frame frame) last) }
{
    match last {
        Some(Draft { line, task }) => Ok(Some(Draft {
            line,
            task: with_frame(frame, task)?,
        })),
        None => Ok(None),
    }
}

// The state with this task behind the others, of a line with this number.
fn after_task(n: u32, s: State, task: Classic) -> Result<State, Memory>
    ensures { IfOk result (λ t. t ≡ record { closed = with_last_classic s.closed s.last; last = Some (record { line = n; task = task }); ended = s.ended }) }
{
    let State {
        closed,
        last,
        ended,
    } = s;
    match close(closed, last) {
        Ok(closed) => Ok(State {
            closed,
            last: Some(Draft { line: n, task }),
            ended,
        }),
        Err(e) => {
            // One call, where the end of the scope would take the task apart here.
            drop(task);
            Err(e)
        }
    }
}

// The state whose last task has one frame more.
fn after_frame(s: State, frame: Frame) -> Result<State, Memory>
    ensures { IfOk result (λ t. t ≡ record { closed = s.closed; last = option_map (add_frame frame) s.last; ended = s.ended }) }
{
    let State {
        closed,
        last,
        ended,
    } = s;
    match frame_added(frame, last) {
        Ok(last) => Ok(State {
            closed,
            last,
            ended,
        }),
        Err(e) => {
            drop(closed);
            Err(e)
        }
    }
}

// The state behind `end`.
fn after_end(s: State) -> State
    ensures { result ≡ record { closed = s.closed; last = s.last; ended = true } }
{
    let State { closed, last, .. } = s;
    State {
        closed,
        last,
        ended: true,
    }
}

/// The state below a line that says this.
#[tactic(auto, unfolding(crate::specs::ClassicFaults::after_classic_line))]
pub fn after(n: u32, s: State, line: Line) -> Result<State, Memory>
    ensures { IfOk result (λ t. t ≡ after_classic_line n s line) }
{
    match line {
        Line::Task(task) => after_task(n, s, task),
        Line::Frame(frame) => after_frame(s, frame),
        Line::End => Ok(after_end(s)),
    }
}
