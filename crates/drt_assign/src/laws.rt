//! That a budget that is enough isn't spent, as a law.
ghost use Rattle.drt_assign.specs.Laws.{AssignBudgetsSuffice};

use drt_sp::budgets_suffice;
use drt_sp_task::budgets_suffice_for_task;

/// A budget that is enough isn't spent.
///
/// Take for each task the number of its walks that span less than the greatest deadline, the single vertices among them. A budget is
/// enough where it is at least the number of each task times two more than the greatest number of edges out of a vertex, and at least four
/// times the product of all these numbers. Then `assign` answers with an order or with the tasks that are stuck. Nothing computes these
/// numbers.
pub fn budgets_suffice_for_assign()
    ensures { AssignBudgetsSuffice }
{
    budgets_suffice();
    budgets_suffice_for_task();
}
