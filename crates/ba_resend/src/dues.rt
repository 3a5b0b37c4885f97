//! When an object is to say something, and how long it then waits.

/// The delay of an object that was prompted, in milliseconds.
pub const FIRST_DELAY: u64 = 1_000;

/// The longest delay, in milliseconds.
pub const LONGEST_DELAY: u64 = 64_000;

/// When an object is to say something next, and how long it waits after that, both in milliseconds.
#[derive(Clone, Copy, Debug, PartialEq, Eq)]
pub struct Due {
    pub moment: u64,
    pub delay: u64,
}
