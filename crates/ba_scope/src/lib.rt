//! A scope: a coordinator's ends, and for a child the participant by which it is itself enrolled above. What a call would
//! answer is asked first, and then it is done. No call takes memory but `Scope::room`.
#![tactic(auto)]

mod answers;
mod fields;
mod laws;
mod scopes;

pub use answers::{Drained, EnrolFault, MOST_ENDS, Said};
pub use laws::what_is_sealed_stays_sealed;
pub use scopes::Scope;
