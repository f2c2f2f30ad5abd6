//! What one seat knows of the lock. No value of these is made.

/// Whether a seat has the lock, and whether the machine is out with it.
pub enum Grip {
    Away,
    Locked,
    Working,
}

/// What one seat knows.
pub struct SeatView<F> {
    /// What no step of the machine changes. A seat that was joined to another one has none.
    pub fixed: Option<F>,
    pub grip: Grip,
    /// The length of the log, as last read.
    pub read: u64,
    /// The steps that this seat logged.
    pub count: u64,
    /// Its parts of the right to know the whole.
    pub parts: u64,
}
