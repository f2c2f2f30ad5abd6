//! What claimed tails and states say of the walks of the tasks.
ghost use Rattle.drt_states_laws.specs.Laws.{StatesPass, TailsBound};

/// The tails of a task bound what its walks ask for.
pub fn tails_bound()
    ensures { TailsBound }
{}

/// Where claimed states keep their rules, a time passes for all walks of the tasks of higher priority.
pub fn states_pass()
    ensures { StatesPass }
{}
