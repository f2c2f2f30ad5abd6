//! That a budget that is enough isn't spent, and that one that was spent stops a search that could go on, as laws.
ghost use Rattle.drt_sp.specs.Laws.{BudgetsSuffice, SearchesGoOn};

use drt_request::RequestLabel;
use drt_table::over_every_interleaving;

/// A budget that is enough isn't spent.
///
/// Take for each task the number of its walks that span less than the greatest deadline, the single vertices among them. A budget is
/// enough where it is at least the number of each task but the one of lowest priority times two more than the greatest number of edges
/// out of a vertex, and, for each task, at least four times the product of the numbers of the tasks of higher priority. Then no answer
/// leaves the set undecided. Nothing computes these numbers: how many walks there are isn't known before the analysis.
pub fn budgets_suffice()
    ensures { BudgetsSuffice }
{}

/// A search of a task's walks that spent its budget stopped for that alone: under a greater one it can make these steps and one more.
pub fn searches_go_on()
    ensures { SearchesGoOn }
{
    over_every_interleaving::<RequestLabel>();
}
