//! A coordinator's end and a participant, each by itself: what changes them, and what a call would answer or say. The only
//! call that takes memory is `Room::take`.
#![tactic(auto)]

mod ends;
mod parts;
mod rooms;

pub use ends::{
    End, any_failed_end, are_ended, end_of_participant, first_not_ended, first_not_ready,
    first_not_ready_for, has_end, is_ended, place_of, set_verdicts, set_verdicts_if_none,
};
pub use parts::{Part, verdict_from_above};
pub use rooms::Room;
