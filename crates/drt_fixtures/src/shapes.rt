//! Worked tasks as tables of numbers.
use crate::sets::Shape;

/// Jobs of one tick and of four, of which the second may follow the first after two ticks.
pub const BRANCHING: Shape<'static> = (&[(1, 2), (4, 6)], &[(0, 1, 2), (1, 0, 8), (0, 0, 5)]);

/// The task p(1,1), q(2,1), m(1,1) with the edges p-m 1, q-m 1 and m-m 3: into m from p and from q, and m again after 3 ticks.
pub const RETURNING: Shape<'static> = (
    &[(1, 1), (2, 1), (1, 1)],
    &[(0, 2, 1), (1, 2, 1), (2, 2, 3)],
);
