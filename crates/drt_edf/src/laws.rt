//! That a set has one utilisation and one horizon, as laws.
ghost use Rattle.drt_edf.specs.Exclusions.{HorizonIsOne, RatesAreOne};

/// The ratios of a set's tasks are one list, and its scale one number. So its utilisation is below, at or above one, and not
/// two of these.
pub fn rates_are_one()
    ensures { RatesAreOne }
{}

/// A set whose utilisation is below one has one horizon.
pub fn horizon_is_one()
    ensures { HorizonIsOne }
{}
