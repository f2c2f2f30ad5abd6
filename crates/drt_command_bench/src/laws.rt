//! What holds of the scales of drawn sets.
ghost use Rattle.drt_command_bench.specs.Scales.{AreAllSmall};

/// The scale of each drawn set is at most 5,354,228,880 times 1,200, which is far below 2^60: a separation of a task is
/// its period or twice that, so a cycle that names each of the 12 vertices at most once takes 1 to 24 periods, and
/// its ratio has a denominator that divides that time.
pub fn scales_are_small()
    ensures { AreAllSmall }
{}
