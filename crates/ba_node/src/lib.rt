//! A node on its journal: it is what the records of its journal lead to, whenever its machine stops.
#![tactic(auto)]

mod beginning;
mod committing;
mod enacting;
mod events;
mod faults;
mod keeping;
mod laws;
mod loading;
mod nodes;
mod replaying;
mod taking;

pub use faults::{LoadFault, NodeFault};
pub use laws::{
    a_file_tells_why_it_is_refused, a_history_breaks_at_one_place,
    a_node_stays_the_replay_of_its_records, an_answer_stands_on_the_count, never_refused,
};
pub use nodes::Node;
