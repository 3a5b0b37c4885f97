//! A world of shipped nodes over disks in memory, which are stopped and failed at any device call.
#![tactic(auto)]

mod events;
mod faults;
mod mails;
mod messages;
mod outcomes;
mod stages;
mod worlds;

pub use faults::StepFault;
pub use worlds::World;
