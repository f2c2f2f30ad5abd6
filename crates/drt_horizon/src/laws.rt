//! What the horizon and an overload mean, as laws.
ghost use Rattle.drt_horizon.specs.Laws.{WorkIsBounded, HorizonHolds, DemandsWithin, OverloadHasATime, SearchEnds};

/// The work of a walk is at most its ratio's share of its last deadline and a constant.
pub fn work_is_bounded()
    ensures { WorkIsBounded }
{}

/// Walks with too much work are due by the horizon.
pub fn horizon_holds()
    ensures { HorizonHolds }
{}

/// A time with too much demand over labels of walks is at most the horizon.
pub fn demands_within()
    ensures { DemandsWithin }
{}

/// Where the utilisation is above one, whole turns of the cycles are too much at a step time that is no later than a known one.
pub fn overload_has_a_time()
    ensures { OverloadHasATime }
{}

/// A search with at least that many steps finds a time.
pub fn search_ends()
    ensures { SearchEnds }
{}
