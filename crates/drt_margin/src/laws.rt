//! That what is within is so for less too, as a law.
ghost use Rattle.drt_margin.specs.Margin.{SmallerIsWithin};

/// A smaller number than one that is within is within.
pub fn smaller_is_within()
    ensures { SmallerIsWithin }
{}
