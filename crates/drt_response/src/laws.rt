//! That a budget that is enough isn't spent, as a law.
ghost use Rattle.drt_response.specs.Laws.{ResponseBudgetsSuffice};

use drt_sp::budgets_suffice;

/// A budget that is enough isn't spent.
///
/// A budget that is enough for the analysis, as `budgets_suffice` of `drt_sp` says, is enough for the response times too: the search at a
/// vertex ends after fewer steps than two for each choice of one walk of each task of higher priority. Then no answer leaves them
/// undecided.
pub fn budgets_suffice_for_responses()
    ensures { ResponseBudgetsSuffice }
{
    budgets_suffice();
}
