//! The outside of a daemon: connections that come in and that are made, jobs and what starts them, and the application's work.
#![tactic(auto)]

mod acceptors;
mod dialers;
mod jobs;
mod works;

pub use acceptors::Acceptor;
pub use dialers::Dialer;
pub use jobs::{Course, EndOf, Job, Spawner, Started};
pub use works::{Outcome, Task, Work, WorkCall};
