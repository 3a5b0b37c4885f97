//! Where texts of XML go wrong: what holds of the places that the reader answers. The laws stand in `laws`; there is no
//! other code.
#![tactic(auto)]

mod laws;

pub use laws::{
    a_cut_text_ends_too_early, a_tag_is_refused_at_its_own_byte, answers_are_those_of_the_table,
    every_place_is_of_the_table, limits_come_before_dead_places, no_dead_place_is_passed,
    the_first_cause_stays, there_is_one_answer, what_ends_too_early_can_be_continued,
    what_is_taken_can_be_continued,
};
