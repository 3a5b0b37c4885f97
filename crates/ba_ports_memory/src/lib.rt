//! Sources, sinks, disks, a connection and a clock in memory: what they hold, and which of their calls fail, is
//! chosen by whoever makes them.
#![tactic(auto)]

mod calls;
mod changes;
mod fixed_clocks;
pub mod laws;
mod media;
mod mem_disks;
mod outs;
mod script_links;
mod texts;

pub use calls::Calls;
pub use fixed_clocks::FixedClock;
pub use mem_disks::MemDisk;
pub use outs::Out;
pub use script_links::ScriptLink;
pub use texts::Text;
