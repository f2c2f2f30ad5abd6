//! What holds of every set that is drawn.
ghost use Rattle.drt_gen.specs.Laws.{AreAllConstrained, KeepLimits};

/// Each set keeps the limits of version 1.
pub fn sets_keep_limits()
    ensures { KeepLimits }
{}

/// The deadlines of each set are constrained: no separation is below the deadline of its source.
pub fn deadlines_are_constrained()
    ensures { AreAllConstrained }
{}
