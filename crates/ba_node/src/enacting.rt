//! A record is enacted again, for a load.
ghost use Rattle.std.specs.Prelude.{◌≡◌, IfOk, None, Ok, OnErr, Some, true, false};
ghost use Rattle.ba_node_objects.specs.Changes.{Suits};
ghost use Rattle.ba_node.specs.inside.Enacting.{told_change, told_event};
ghost use Rattle.ba_node_steps.specs.Fits.{HasSpareCounters};
ghost use Rattle.ba_node_steps.specs.Lawful.{after_record, change, is_next};

use crate::events::{Event, event_of};
use ba_core::Memory;
use ba_node_objects::{Change, Objects};
use ba_node_plans::{next_id, propose, propose_tick};
use ba_record::Record;

/// What is to be made of a node again, and the record that is kept of it.
#[derive(Debug, Drop)]
pub struct Again {
    written: Option<Record>,
    change: Change,
}

/// Takes the step of this record again. False where no step of the node keeps the record: then nothing changes.
pub fn enact(node: &mut Objects, kept: Record) -> Result<bool, Memory>
    requires { HasSpareCounters node.old.node }
    ensures done { (result ≡ Ok true) → after_record node.old.node kept ≡ Some node.new.node }
    ensures unlawful { (result ≡ Ok false) → after_record node.old.node kept ≡ None }
    ensures stays { (result ≡ Ok false) → node.new.node ≡ node.old.node }
    ensures unchanged { OnErr result (node.new.node ≡ node.old.node) }
{
    let next = is_next(node, &kept);
    let Some(event) = event_of(node, kept) else {
        return Ok(false);
    };
    let Again { written, change } = proposal_of_event(node, event)?;
    if !next || written.is_none() {
        return Ok(false);
    }
    node.apply(change);
    Ok(true)
}

// A new object has the next counter.
fn is_next(node: &Objects, kept: &Record) -> bool
    requires { HasSpareCounters node.now.node }
    ensures { result ≡ is_next node.now.node kept.now }
{
    match kept {
        Record::Scope(counter, _, _, _)
        | Record::End(counter, _, _, _)
        | Record::Part(counter, _, _) => *counter == next_id(node, 1).counter(),
        _ => true,
    }
}

fn proposal_of_event(node: &mut Objects, event: Event) -> Result<Again, Memory>
    requires { HasSpareCounters node.old.node }
    ensures node { node.new.node ≡ node.old.node }
    ensures step { IfOk result (λ again. told_change node.old.node again ≡ change node.old.node (told_event event)) }
    ensures suits { IfOk result (λ again. Suits node.new again.change) }
{
    match event {
        Event::Given(now, input) => {
            let proposal = propose(node, now, input)?;
            Ok(Again {
                written: proposal.written,
                change: proposal.change,
            })
        }
        Event::Ticked(now, id) => {
            let proposal = propose_tick(node, now, id)?;
            Ok(Again {
                written: proposal.written,
                change: proposal.change,
            })
        }
    }
}
