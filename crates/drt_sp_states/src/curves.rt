//! Values of functions that lists of jumps stand for.
use drt_model::Row;
use drt_states::Jump;

/// How many jumps have an offset before `t`.
pub(crate) fn jumps_before(jumps: &[Jump], t: u64) -> usize {
    jumps.partition_point(|jump| jump.offset < t)
}

/// The last jump with an offset before `t`, if there is one.
pub(crate) fn jump_before(jumps: &[Jump], t: u64) -> Option<Jump> {
    let at = jumps_before(jumps, t);
    if at == 0 {
        return None;
    }
    jumps.get(at - 1).copied()
}

/// The value of the function before `t`.
pub(crate) fn value_before(jumps: &[Jump], t: u64) -> u64 {
    match jump_before(jumps, t) {
        Some(jump) => jump.work,
        None => 0,
    }
}

/// The number of the first function that has the greatest value before `t`.
pub(crate) fn greatest_at(curves: &[Row<Jump>], t: u64) -> usize {
    let mut best = 0;
    let mut most = 0;
    for i in 0..curves.len() {
        let value = value_before(curves[i].as_slice(), t);
        if value > most {
            most = value;
            best = i;
        }
    }
    best
}

/// Whether the function has this jump.
pub(crate) fn has_jump(jumps: &[Jump], jump: Jump) -> bool {
    jump_before(jumps, jump.offset.saturating_add(1)) == Some(jump)
}
