//! The names that states show in a Status.

use crate::{ends, participants};
use ba_core::{PState, StateName, c_name, p_name};
use std::alloc::{AllocError, Global};

/// Each state of an end and of a participant, and the name that it shows.
pub fn table(alloc: Global) -> Result<String, AllocError> {
    let mut out = String::new(alloc);
    out.push_str("# What an end's state is called in a Status\n")?;
    for state in ends::STATES {
        write!(out, "{state} |")?;
        put_name(c_name(state), &mut out)?;
    }
    out.push_str("# What a participant's state is called in a Status\n")?;
    write!(out, "{} |", PState::Registering)?;
    put_name(p_name(PState::Registering), &mut out)?;
    for state in participants::STATES {
        write!(out, "{state} |")?;
        put_name(p_name(state), &mut out)?;
    }
    Ok(out)
}

/// Appends the name of a state, which ends its line.
fn put_name(name: StateName, out: &mut String) -> Result<(), AllocError> {
    out.push(' ')?;
    for byte in name.name() {
        out.push(char::from(*byte))?;
    }
    out.push_str(" |\n")
}
