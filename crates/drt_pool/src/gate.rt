//! Gates, which see each turn before it begins.

/// How many turns the open gate leaves to the caller alone: to begin other workers costs about as much as so many short turns.
const ALONE: u64 = 4_000;

/// It sees each turn before it begins. It has no answer, so it can't change one.
pub trait Gate: Sync {
    /// Called before each turn, with the place of the pass and the number of its turn, from 0. The number stays at its greatest.
    fn before(&self, worker: u32, turn: u64);

    /// For how many turns the caller may turn the first pass by itself before another worker is begun. A gate that waits for a
    /// second worker answers 0: then each pass gets a worker of its own where a thread can be had, however few the processors.
    fn alone(&self) -> u64;
}

/// The gate that does nothing.
#[derive(Clone, Copy, Debug)]
pub struct OpenGate;

impl Gate for OpenGate {
    fn before(&self, _worker: u32, _turn: u64) {}

    fn alone(&self) -> u64 {
        ALONE
    }
}

/// The gate that does nothing and leaves the caller no turn alone, so that all workers begin at once.
#[derive(Clone, Copy, Debug)]
pub struct EagerGate;

impl Gate for EagerGate {
    fn before(&self, _worker: u32, _turn: u64) {}

    fn alone(&self) -> u64 {
        0
    }
}
