//! The codes of faults, as docs/FORMATS.md lists them.

/// The first line that isn't skipped isn't `drt 1` or `drt 2`.
pub const NO_HEAD: u8 = 1;
/// A byte is neither a blank nor printable ASCII.
pub const NO_TEXT: u8 = 2;
/// The first field is no word of the format.
pub const NO_KIND: u8 = 3;
/// The line has too few fields or too many.
pub const NO_FORM: u8 = 4;
/// A time or a priority isn't a number.
pub const NO_NUMBER: u8 = 5;
/// A time or a priority isn't 1 to 1,000,000.
pub const OUT_OF_RANGE: u8 = 6;
/// A name isn't 1 to 32 bytes of `A-Z a-z 0-9 _ -`.
pub const NO_NAME: u8 = 7;
/// A task name stands above.
pub const SAME_TASK: u8 = 8;
/// A vertex name stands above in the task.
pub const SAME_VERTEX: u8 = 9;
/// An edge names a vertex that doesn't stand above in the task.
pub const NO_VERTEX_OF_NAME: u8 = 10;
/// An edge has the same two ends as one above in the task.
pub const SAME_EDGE: u8 = 11;
/// A vertex, an edge or a priority stands before the first task.
pub const OUTSIDE: u8 = 12;
/// The version has fewer tasks.
pub const TOO_MANY_TASKS: u8 = 13;
/// A task of the version has fewer vertices.
pub const TOO_MANY_VERTICES: u8 = 14;
/// A task has at most 256 edges.
pub const TOO_MANY_EDGES: u8 = 15;
/// There is no task.
pub const NO_TASK: u8 = 16;
/// A task has no vertex.
pub const NO_VERTEX: u8 = 17;
/// There is no `end`.
pub const NO_END: u8 = 18;
/// A line that isn't skipped stands after `end`.
pub const AFTER_END: u8 = 19;
/// The task has a priority.
pub const SECOND_PRIORITY: u8 = 24;
/// The priority stands above in another task.
pub const SAME_PRIORITY: u8 = 25;
/// A task of version 2 has no priority.
pub const NO_PRIORITY: u8 = 26;
