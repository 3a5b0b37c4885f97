//! The numbers by which an event or a request is refused; such a refusal changes nothing.

/// The scope, or the end, has its verdict already.
pub const ALREADY_DECIDED: u8 = 34;

/// An end isn't ready for that verdict.
pub const NOT_READY: u8 = 35;

/// The scope is a child: its verdict comes from above.
pub const NOT_A_ROOT: u8 = 36;

/// The scope's coordination type has no such call.
pub const WRONG_KIND: u8 = 37;

/// There is no such end; to a question for what an object shows, no such object.
pub const NO_SUCH_END: u8 = 38;

/// The scope is a root: there is no activity to leave.
pub const NOT_A_CHILD: u8 = 39;

/// An end isn't Ended.
pub const NOT_DRAINED: u8 = 40;

/// The node has no such scope.
pub const NO_SUCH_SCOPE: u8 = 41;

/// The node has no such participant.
pub const NO_SUCH_PART: u8 = 42;

/// The state doesn't let it.
pub const WRONG_STATE: u8 = 43;

/// The address can't be dialed.
pub const BAD_ADDRESS: u8 = 46;

/// The participant is a child scope's own: it acts by its scope alone.
pub const CHILD_PART: u8 = 47;
