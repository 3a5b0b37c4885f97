//! The lines after the last event of a script: what each object of the world shows then.

use ba_core::{CState, Id, Kind, PState, Protocol, Verdict};
use std::fmt;

/// A line after the last event.
#[derive(Clone, Copy, Debug, PartialEq, Eq)]
pub enum Summary {
    /// A scope, its kind, and its verdict if there is one.
    Scope(Id, Kind, Option<Verdict>),
    /// A coordinator's end, its protocol, its state, and its verdict if there is one.
    End(Id, Protocol, CState, Option<Verdict>),
    /// A participant, its protocol and its state.
    Part(Id, Protocol, PState),
    /// The node with this number is down, and its objects don't show.
    NodeDown(u32),
    /// So many messages are in the bag.
    Bag(u64),
}

// A verdict by its word, or that there is none.
#[derive(Clone, Copy)]
struct VerdictWord(Option<Verdict>);

impl fmt::Display for VerdictWord {
    ghost use Rattle.ba_world_events.specs.Outcomes.{verdict_or_none};
    ghost use Rattle.std.specs.Prelude.{Some};

    ghost output = { λ word. Some (verdict_or_none word.0) };

    fn fmt<W: fmt::Write>(&self, f: &mut fmt::Formatter<W>) -> fmt::Result {
        match self.0 {
            None => write!(f, "none"),
            Some(verdict) => write!(f, "{verdict}"),
        }
    }
}

impl fmt::Display for Summary {
    ghost use Rattle.ba_world_events.specs.Outcomes.{summary_text};
    ghost use Rattle.std.specs.Prelude.{Some};

    ghost output = { λ summary. Some (summary_text summary) };

    fn fmt<W: fmt::Write>(&self, f: &mut fmt::Formatter<W>) -> fmt::Result {
        match self {
            Summary::Scope(id, kind, verdict) => {
                let verdict = VerdictWord(*verdict);
                write!(f, "{id} scope {kind} {verdict}")
            }
            Summary::End(id, protocol, state, verdict) => {
                let verdict = VerdictWord(*verdict);
                write!(f, "{id} end {protocol} {state} {verdict}")
            }
            Summary::Part(id, protocol, state) => write!(f, "{id} part {protocol} {state}"),
            Summary::NodeDown(node) => write!(f, "node {node} down"),
            Summary::Bag(count) => write!(f, "bag={count}"),
        }
    }
}
