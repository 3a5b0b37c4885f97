//! The real streams, files, connections and the clock, as the traits of the outside see them.
#![tactic(auto)]

mod file_disks;
mod readers;
mod system_clocks;
mod tcp_links;
mod writers;

pub use file_disks::FileDisk;
pub use readers::ReadSource;
pub use system_clocks::SystemClock;
pub use tcp_links::TcpLink;
pub use writers::WriteSink;
