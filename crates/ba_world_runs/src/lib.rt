//! Worlds of many nodes: their steps and runs, their links and trees, what is safe, and laws over all runs.
#![tactic(auto)]

mod laws;

pub use laws::{
    atomic_trees_have_one_word, children_follow_their_parents, each_end_has_one_link,
    each_link_moves_by_its_table, each_world_is_its_records, endpoints_lead_in_each_run,
    every_run_is_safe, every_step_is_safe, no_participant_learns_two_outcomes,
    notices_are_in_place, outcomes_are_recorded, steps_move_a_net, trees_stay_fit,
    what_closes_was_completed, what_is_possible_can_happen, what_is_sound_is_safe, words_come_down,
};
