//! That the searches of a graph's walks are bounded, as a law.
ghost use Rattle.drt_edf_fronts.specs.Bounded.{SearchesAreBounded};

use drt_demand::DemandLabel;
use drt_table::over_every_interleaving;

/// Each run of the search of a graph's walks is bounded, whoever made its steps and in whatever order, finished or not: its
/// steps are at most the vertices times the offsets up to the bound times two more than the greatest number of edges out of a
/// vertex, and each label is added at most once.
pub fn searches_are_bounded()
    ensures { SearchesAreBounded }
{
    over_every_interleaving::<DemandLabel>();
}
