//! What an input and a tick are to make of a node.
ghost use Rattle.std.specs.Prelude.{◌≡◌};
ghost use Rattle.ba_node_objects.specs.Changes.{changed_node};
ghost use Rattle.ba_node_plans.specs.Proposals.{proposed_step, proposed_tick};
ghost use Rattle.ba_node_steps.specs.Node.{NodeState};
ghost use Rattle.ba_node_steps.specs.Steps.{accepted_step, again_step, fault_step, refusal_step, reply_step, written_step};
ghost use Rattle.ba_node_steps.specs.Ticks.{letter_step, ticked_step};

use ba_core::{Code, Id};
use ba_message::Letter;
use ba_node_objects::Change;
use ba_node_steps::{Reply, Wake};
use ba_record::Record;

/// What an input is to make of a node. All its memory is taken.
#[derive(Debug, Drop)]
pub struct Proposal {
    pub reply: Reply,
    pub wake: Wake,
    /// What the node keeps of it first; none where nothing changes.
    pub written: Option<Record>,
    pub change: Change,
}

impl Proposal {
    /// Nothing changes.
    pub(crate) fn only(reply: Reply) -> Proposal
        ensures step { (n : NodeState) → proposed_step n result ≡ reply_step n reply }
        ensures change { result.change ≡ Change.Nothing }
    {
        Proposal {
            reply,
            wake: Wake::Nobody,
            written: None,
            change: Change::Nothing,
        }
    }

    /// It is accepted, and nothing changes.
    pub(crate) fn accepted() -> Proposal
        ensures step { (n : NodeState) → proposed_step n result ≡ accepted_step n }
        ensures change { result.change ≡ Change.Nothing }
    {
        Proposal::only(Reply::Accepted)
    }

    /// It is answered with a fault.
    pub(crate) fn fault(code: Code) -> Proposal
        ensures step { (n : NodeState) → proposed_step n result ≡ fault_step n code }
        ensures change { result.change ≡ Change.Nothing }
    {
        Proposal::only(Reply::SoapFault(code))
    }

    /// It is refused by this number, and this object shows it.
    pub(crate) fn refused(number: u8, id: Id) -> Proposal
        ensures step { (n : NodeState) → proposed_step n result ≡ refusal_step n number id }
        ensures change { result.change ≡ Change.Nothing }
    {
        Proposal::only(Reply::Refused(number, id))
    }

    /// It is accepted, and nothing changes; the object with this identifier may have something to say again.
    pub(crate) fn again(id: Id, prompt: bool) -> Proposal
        ensures step { (n : NodeState) → proposed_step n result ≡ again_step n id prompt }
        ensures change { result.change ≡ Change.Nothing }
    {
        Proposal {
            reply: Reply::Accepted,
            wake: if prompt { Wake::One(id) } else { Wake::Nobody },
            written: None,
            change: Change::Nothing,
        }
    }

    /// It is accepted, and this changes.
    pub(crate) fn kept(written: Record, wake: Wake, change: Change) -> Proposal
        ensures step { (n : NodeState) → proposed_step n result ≡ written_step (changed_node n change) Reply.Accepted written wake }
        ensures change { result.change ≡ change }
    {
        Proposal {
            reply: Reply::Accepted,
            wake,
            written: Some(written),
            change,
        }
    }
}

/// What a tick is to make of a node. All its memory is taken.
#[derive(Debug, Drop)]
pub struct TickProposal {
    pub letter: Option<Letter>,
    pub wake: Wake,
    /// What the node keeps of it first; none where nothing changes.
    pub written: Option<Record>,
    pub change: Change,
}

impl TickProposal {
    /// Nothing changes, and this letter is sent, or none.
    pub(crate) fn saying(letter: Option<Letter>) -> TickProposal
        ensures step { (n : NodeState) → proposed_tick n result ≡ letter_step n letter }
        ensures change { result.change ≡ Change.Nothing }
    {
        TickProposal {
            letter,
            wake: Wake::Nobody,
            written: None,
            change: Change::Nothing,
        }
    }

    /// This changes as the object with this identifier ticks.
    pub(crate) fn changing(
        letter: Option<Letter>,
        id: Id,
        wake: Wake,
        change: Change,
    ) -> TickProposal
        ensures step { (n : NodeState) → proposed_tick n result ≡ ticked_step (changed_node n change) letter id wake }
        ensures change { result.change ≡ change }
    {
        TickProposal {
            letter,
            wake,
            written: Some(Record::Ticked(id.counter())),
            change,
        }
    }
}
