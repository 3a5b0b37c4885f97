//! The steps of a node, said apart from any code: what an input and a tick make of it, which record it keeps, and which
//! lists of records are lawful. This crate has the types of inputs and answers, and laws; the node itself stands above.
#![tactic(auto)]

mod answers;
mod inputs;
mod laws;

pub use answers::{Done, Reply, Seen, Ticked, Wake};
pub use inputs::Input;
pub use laws::{
    a_lawful_list_has_one_replay, a_record_gives_what_fits, a_record_tells_its_step,
    a_replay_has_few_objects, addresses_end_with_their_objects, addresses_tell_objects_apart,
    bases_are_short, each_end_its_own_choice, each_node_keeps_its_word,
    each_participant_keeps_its_outcome, fail_climbs_a_tree, late_register_is_refused,
    letters_tell_their_senders, one_exits_one_closes, replays_go_on, steps_keep_a_node_fit,
    steps_keep_endpoints_reachable, steps_without_a_record_change_nothing, texts_tell_identifiers,
    what_a_node_says_can_be_written, what_is_written_is_in_range,
};
