//! What holds of the releases of walks.
ghost use Rattle.drt_releases.specs.Walks.{AreReleasesInRange};

/// Releases of walks that are due by some tick of at most 10^18 have numbers in the ranges of a dossier.
///
/// The function does nothing: its contract is a theorem.
pub fn releases_are_in_range()
    ensures { AreReleasesInRange }
{}
