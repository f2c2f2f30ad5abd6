//! The codes of faults of a classic file, as docs/FORMATS.md lists them.

/// The first line that isn't skipped isn't `drt-classic 1`.
pub const NO_HEAD: u8 = 31;
/// A byte is neither a blank nor printable ASCII.
pub const NO_TEXT: u8 = 32;
/// The first field is no word of the format.
pub const NO_KIND: u8 = 33;
/// The line has too few fields or too many.
pub const NO_FORM: u8 = 34;
/// A time isn't a number.
pub const NO_NUMBER: u8 = 35;
/// A time isn't 1 to 1,000,000.
pub const OUT_OF_RANGE: u8 = 36;
/// A name isn't 1 to 32 bytes of `A-Z a-z 0-9 _ -`.
pub const NO_NAME: u8 = 37;
/// A task name stands above.
pub const SAME_TASK: u8 = 38;
/// A deadline is greater than the period or separation of its line.
pub const PAST_SEPARATION: u8 = 39;
/// No `gmf` or `noncyclic` stands above a frame as the last task.
pub const NO_OPEN_TASK: u8 = 40;
/// A set has at most 16 tasks.
pub const TOO_MANY_TASKS: u8 = 41;
/// A task has at most 48 frames, a `noncyclic` 16.
pub const TOO_MANY_FRAMES: u8 = 42;
/// There is no task.
pub const NO_TASK: u8 = 43;
/// A `gmf` or `noncyclic` has no frame.
pub const NO_FRAME: u8 = 44;
/// There is no `end`.
pub const NO_END: u8 = 45;
/// A line that isn't skipped stands after `end`.
pub const AFTER_END: u8 = 46;
