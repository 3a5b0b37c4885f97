//! What a stop of the machine leaves of what was written and not yet synced.

/// What is left of each write and each cut that a stop finds pending.
#[derive(Clone, Copy, Debug, PartialEq, Eq)]
pub enum Image {
    /// What was there before. Past the old end there was nothing, so the file ends there.
    Old,
    /// All of it.
    New,
    /// Bytes 255 in the place of those that were written. What was cut is still there.
    Filled,
    /// The first half of what was written, and the first half of what was cut, both rounded down.
    Half,
}
