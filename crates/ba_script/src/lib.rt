//! Scripts of the events of a pair or of a world: they are read line by line as they come, and the line of each event
//! of a pair is printed.
#![tactic(auto)]

mod laws;
mod lines;
mod printer;
mod scripts;

pub use laws::scripts_mean_one_thing;
pub use printer::show;
pub use scripts::{MOST_LINES, Script, ScriptFault, read_script};
