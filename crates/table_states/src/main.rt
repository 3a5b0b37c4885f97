//! Prints the state tables of both protocols, a line a state, in the order and with the cells of `docs/formats/tables.md`:
//! what an end and a participant make of each notice, the notices of their own side too; what an end makes of each verdict,
//! of a wish to complete and of a tick; what a participant makes of each act, and what it says; and the name of each state.
//!
//! A cell is the next state, which prompts; `stay` keeps the state, `again` keeps it and prompts, and `-` is no row. A state
//! that is followed by `silently` doesn't prompt, which no cell of the tables has.
#![tactic(auto)]

mod cells;
mod ends;
mod names;
mod participants;

use ba_core::Protocol;
use std::io;

fn main(rt: HostRuntime) -> io::Result<()> {
    for protocol in [Protocol::Pc, Protocol::Cc] {
        print!(rt; "{}", ends::tables(rt.alloc(), protocol)?)?;
        print!(rt; "{}", participants::tables(rt.alloc(), protocol)?)?;
    }
    print!(rt; "{}", names::table(rt.alloc())?)
}
