//! The play of a world's events, said apart from any code: what each event makes of the world and of the disks of its nodes,
//! and what it shows. This crate has laws of plays; the shipped nodes that take these steps stand above.
#![tactic(auto)]

mod laws;
mod missing;

pub use laws::{
    calls_spend_what_is_armed, disks_are_driven_as_played, disks_hold_their_nodes,
    each_event_is_a_step_of_the_world, each_message_leads, messages_arrive_where_they_lead,
    messages_of_plays_can_be_posted, nothing_armed_nothing_fails,
    openings_find_the_record_from_its_gate_on, openings_read_the_disk,
    outcomes_are_recorded_at_each_moment, plays_keep_their_disks, plays_start_by_a_load,
    plays_stay_safe, steps_are_taken_where_nothing_hinders, whole_plays_can_be_posted,
};
pub use missing::Missing;
