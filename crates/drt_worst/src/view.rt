//! What one seat knows of the word. No value of it is made.

use std::collections::LinkedList;

/// What one seat knows.
pub struct View {
    /// The numbers that this seat put into the word.
    pub raised: LinkedList<u64>,
    /// The values that this seat found in it.
    pub noted: LinkedList<u64>,
    /// Its parts of the right to know the whole.
    pub parts: u64,
}
