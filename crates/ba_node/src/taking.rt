//! Takes a step that was proposed, and says what it led to.
ghost use Rattle.std.specs.Prelude.{◌≡◌, None, IfOk};
ghost use Rattle.ba_node.specs.Answers.{IsLetterAtTick, IsReplyOf};
ghost use Rattle.ba_node.specs.Nodes.{NodeHolds, on_journal};
ghost use Rattle.ba_node_plans.specs.Proposals.{proposed_step, proposed_tick};
ghost use Rattle.ba_node.specs.inside.Commits.{Commits, IsDue, due_by_step, due_by_tick};
ghost use Rattle.ba_node_objects.specs.Changes.{Suits};

use crate::committing::commit;
use crate::faults::NodeFault;
use ba_journal::Journal;
use ba_node_objects::Objects;
use ba_node_plans::{Proposal, TickProposal};
use ba_node_steps::{Done, Ticked};
use ba_ports::Disk;

/// The step of an input.
pub fn take_step<D: Disk>(
    journal: &mut Journal<D>,
    objects: &mut Objects,
    proposal: Proposal,
) -> Result<Done, NodeFault>
    requires opened { journal.old.closed ≡ None }
    requires holds { NodeHolds D.follows D.seen (on_journal journal.old objects.old.node) }
    requires due { IsDue objects.old.node (due_by_step (proposed_step objects.old.node proposal)) }
    requires suits { Suits objects.old proposal.change }
    ensures reply { IfOk result (IsReplyOf (proposed_step objects.old.node proposal)) }
    ensures commits { Commits D.follows D.seen D.may_leave D.later D.left_between D.driven D.faults
        (due_by_step (proposed_step objects.old.node proposal)) (on_journal journal.old objects.old.node) (on_journal journal.new objects.new.node) result }
    ensures holds { NodeHolds D.follows D.seen (on_journal journal.new objects.new.node) }
{
    let Proposal {
        reply,
        wake,
        written,
        change: doing,
    } = proposal;
    match commit(journal, objects, &written, doing) {
        Ok(()) => Ok(Done { reply, wake }),
        Err(fault) => Err(fault),
    }
}

/// The step of a tick. A letter comes only where the record is kept.
pub fn take_tick<D: Disk>(
    journal: &mut Journal<D>,
    objects: &mut Objects,
    proposal: TickProposal,
) -> Result<Ticked, NodeFault>
    requires opened { journal.old.closed ≡ None }
    requires holds { NodeHolds D.follows D.seen (on_journal journal.old objects.old.node) }
    requires due { IsDue objects.old.node (due_by_tick (proposed_tick objects.old.node proposal)) }
    requires suits { Suits objects.old proposal.change }
    ensures letter { IfOk result (IsLetterAtTick (proposed_tick objects.old.node proposal)) }
    ensures commits { Commits D.follows D.seen D.may_leave D.later D.left_between D.driven D.faults
        (due_by_tick (proposed_tick objects.old.node proposal)) (on_journal journal.old objects.old.node) (on_journal journal.new objects.new.node) result }
    ensures holds { NodeHolds D.follows D.seen (on_journal journal.new objects.new.node) }
{
    let TickProposal {
        letter,
        wake,
        written,
        change: doing,
    } = proposal;
    match commit(journal, objects, &written, doing) {
        Ok(()) => Ok(Ticked { letter, wake }),
        Err(unsaid) => Err(unsaid),
    }
}
