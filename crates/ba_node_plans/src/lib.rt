//! What each input and each tick is to make of a node, as a proposal that is asked for before anything changes.
#![tactic(auto)]

mod acts;
mod answers;
mod asks;
mod creating;
mod decisions;
mod inputs;
mod notices;
mod proposals;
mod registering;
mod states;
mod ticks;

pub use creating::next_id;
pub use inputs::propose;
pub use proposals::{Proposal, TickProposal};
pub use ticks::propose_tick;
