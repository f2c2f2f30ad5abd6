//! What other priorities leave as it was, as laws.
ghost use Rattle.drt_priorities.specs.Laws.{PrioritiesKeepConstraints, PrioritiesKeepGraphs, PrioritiesKeepLegality, PrioritiesKeepLimits, PrioritiesUndo};

/// A set within the limits of either version, with distinct priorities in range, is within those of version 2.
pub fn priorities_keep_limits()
    ensures { PrioritiesKeepLimits }
{}

/// The graphs of the tasks stay as they are.
pub fn priorities_keep_graphs()
    ensures { PrioritiesKeepGraphs }
{}

/// Deadlines are constrained exactly where they were.
pub fn priorities_keep_constraints()
    ensures { PrioritiesKeepConstraints }
{}

/// The same releases are legal.
pub fn priorities_keep_legality()
    ensures { PrioritiesKeepLegality }
{}

/// The last priorities that are given count, and the old ones give the old tasks back.
pub fn priorities_undo()
    ensures { PrioritiesUndo }
{}
