//! That a budget that is enough isn't spent, as a law.
ghost use Rattle.drt_sp_task.specs.Laws.{TaskBudgetsSuffice};

/// A budget that is enough isn't spent.
///
/// A budget that is enough for the analysis of the whole set, as `budgets_suffice` of `drt_sp` says, is enough for the analysis of each of
/// its tasks. Then no answer leaves the task undecided.
pub fn budgets_suffice_for_task()
    ensures { TaskBudgetsSuffice }
{}
