//! A node on its journal.
ghost use Rattle.std.specs.Prelude.{◌≡◌, ◌≤◌, ℕ, List as Items, Err, IsTrue, IfOk, IfSome, OnOk};
ghost use Rattle.ba_journal.specs.Journals.{IsSettled};
ghost use Rattle.ba_message.specs.Letters.{IsPostable};
ghost use Rattle.ba_node.specs.Answers.{IsAnswered, IsLetterAtTick, IsReplyOf};
ghost use Rattle.ba_node.specs.Keeping.{StandsWith, Stepped, with_record};
ghost use Rattle.ba_node.specs.Nodes.{NodeHolds, on_journal};
ghost use Rattle.ba_node.specs.declared.faults.NodeFault.TheVariants as fault;
ghost use Rattle.ba_ports.specs.Causes.{Rose};
ghost use Rattle.ba_ports.specs.Disk.{LeavesOnly, fail, stop, nothing};
ghost use Rattle.ba_ports.specs.declared.requests.Call.{Call};
ghost use Rattle.ba_record.specs.declared.records.Record.{Record as Kept};
ghost use Rattle.ba_node_steps.specs.Endpoints.{GivesFit};
ghost use Rattle.ba_node_steps.specs.Fits.{HasSpareCounters, NodeFits};
ghost use Rattle.ba_node_steps.specs.Lawful.{change, given, ticked};
ghost use Rattle.ba_node_steps.specs.Letters.{IsLetterOf};
ghost use Rattle.ba_node_steps.specs.Node.{last};
ghost use Rattle.ba_node_steps.specs.Replies.{HasFitTime, IsAnswerable};
ghost use Rattle.ba_node_steps.specs.Shown.{deadline_of, in_scope, seen_at};
ghost use Rattle.ba_node_steps.specs.Steps.{node_step};
ghost use Rattle.ba_node_steps.specs.Ticks.{tick_step};

use crate::faults::NodeFault;
use crate::taking::{take_step, take_tick};
use ba_core::Id;
use ba_journal::Journal;
use ba_node_objects::Objects;
use ba_node_plans::{propose, propose_tick};
use ba_node_steps::{Done, Input, Seen, Ticked};
use ba_ports::{Disk, Faulty, Image};
use std::marker::Model;

/// A node, which is what the records of its journal lead to. When a call has answered Disk, each later one is refused, and
/// the journal is to be loaded again.
#[derive(Drop)]
pub struct Node<D: Disk> {
    journal: Journal<D>,
    objects: Objects,
}

impl<D: Disk> Model for Node<D> {
    ghost use Rattle.ba_node.specs.Nodes.{NodeHolds, NodeOnJournal, node_code, on_journal};
    ghost use Rattle.ba_node.specs.inside.Stored.{state_code};
    ghost use Rattle.ba_node_objects.specs.contracts.objects.Objects as in_memory;

    ghost Value = { NodeOnJournal D };

    ghost coded = { node_code D.code (state_code in_memory.the_row.coded) };

    ghost view = { λ n. on_journal n.journal n.objects.node };

    ghost invariant = { λ n. NodeHolds D.follows D.seen (on_journal n.journal n.objects.node) };
}

impl<D: Disk> Node<D> {
    /// The node in memory on this journal.
    pub(crate) fn of(journal: Journal<D>, objects: Objects) -> Node<D>
        requires { NodeHolds D.follows D.seen (on_journal journal objects.node) }
        ensures { result ≡ on_journal journal objects.node }
    {
        Node { journal, objects }
    }

    /// Takes one step: what arrives, or what the application asks, at this moment, in milliseconds. All memory is taken
    /// first; then the step's record is kept; then the node changes. What it answers is true of the journal, whenever the
    /// machine stops.
    pub fn handle(&mut self, now: u64, input: Input) -> Result<Done, NodeFault>
        requires { GivesFit (given now input) }
        ensures reply { IfOk result (IsReplyOf (node_step self.old.node now input)) }
        ensures answerable { IfOk result (λ done. IsAnswerable done.reply) }
        ensures answered { IsAnswered D.faults (change self.old.node (given now input)) self.old self.new result }

        // What is said of content, over a disk that follows its model.
        ensures durable { OnOk result (IsTrue (D.follows self.old.disk) → (records : Items Kept) →
            IsSettled D.seen D.may_leave self.old.disk self.old.end records
            → IsSettled D.seen D.may_leave self.new.disk self.new.end (with_record records (node_step self.old.node now input).written)) }
        ensures any_moment { IsTrue (D.follows self.old.disk) → (records : Items Kept) →
            IsSettled D.seen D.may_leave self.old.disk self.old.end records
            → LeavesOnly D.later D.left_between self.old.disk self.new.disk (StandsWith records (node_step self.old.node now input).written) }

        // Which calls of the disk were made, and what they leave of it.
        ensures calls { (calls : Items Call) × D.driven self.old.disk calls self.new.disk
            × Stepped self.old.end (node_step self.old.node now input).written result calls }
        ensures follows { D.follows self.new.disk ≡ D.follows self.old.disk }
        ensures cause { (result ≡ Err fault.Disk) → Rose (D.faults self.old.disk) (D.faults self.new.disk) }
        ensures faults { D.faults self.old.disk ≤ D.faults self.new.disk }
    {
        if let Some(count) = self.journal.closed() {
            return Err(NodeFault::Closed(count));
        }
        let _ = asked_time(&input);
        let Ok(proposal) = propose(&mut self.objects, now, input) else {
            return Err(NodeFault::Memory);
        };
        take_step(&mut self.journal, &mut self.objects, proposal)
    }

    /// The object with this identifier says what it has to say at this moment, in milliseconds; a letter comes only after
    /// its record is kept.
    pub fn tick(&mut self, now: u64, id: Id) -> Result<Ticked, NodeFault>
        ensures letter { IfOk result (IsLetterAtTick (tick_step self.old.node now id)) }
        ensures sendable { IfOk result (λ ticked. IfSome ticked.letter (IsLetterOf self.old.node id)) }
        ensures postable { IfOk result (λ ticked. IfSome ticked.letter IsPostable) }
        ensures answered { IsAnswered D.faults (change self.old.node (ticked now id)) self.old self.new result }

        // What is said of content, over a disk that follows its model.
        ensures durable { OnOk result (IsTrue (D.follows self.old.disk) → (records : Items Kept) →
            IsSettled D.seen D.may_leave self.old.disk self.old.end records
            → IsSettled D.seen D.may_leave self.new.disk self.new.end (with_record records (tick_step self.old.node now id).written)) }
        ensures any_moment { IsTrue (D.follows self.old.disk) → (records : Items Kept) →
            IsSettled D.seen D.may_leave self.old.disk self.old.end records
            → LeavesOnly D.later D.left_between self.old.disk self.new.disk (StandsWith records (tick_step self.old.node now id).written) }

        // Which calls of the disk were made, and what they leave of it.
        ensures calls { (calls : Items Call) × D.driven self.old.disk calls self.new.disk
            × Stepped self.old.end (tick_step self.old.node now id).written result calls }
        ensures follows { D.follows self.new.disk ≡ D.follows self.old.disk }
        ensures cause { (result ≡ Err fault.Disk) → Rose (D.faults self.old.disk) (D.faults self.new.disk) }
        ensures faults { D.faults self.old.disk ≤ D.faults self.new.disk }
    {
        if let Some(since) = self.journal.closed() {
            return Err(NodeFault::Closed(since));
        }
        let Ok(proposal) = propose_tick(&self.objects, now, id) else {
            return Err(NodeFault::Memory);
        };
        take_tick(&mut self.journal, &mut self.objects, proposal)
    }

    /// What the object with this identifier shows.
    pub fn status(&self, id: Id) -> Option<Seen>
        ensures { result ≡ seen_at self.now.node id }
    {
        self.objects.status(id)
    }

    /// Its number.
    pub fn number(&self) -> u32
        ensures { result ≡ self.now.node.number }
    {
        self.objects.number()
    }

    /// The greatest counter in use: each from 1 up to it is that of an object. Two more are always to spare.
    pub fn last(&self) -> u64
        ensures value { result ≡ last self.now.node }
        ensures spare { HasSpareCounters self.now.node }
        ensures fits { NodeFits self.now.node }
    {
        self.objects.last()
    }

    /// The deadline of the root with this identifier, in milliseconds, where it has no verdict.
    pub fn deadline(&self, scope: Id) -> Option<u64>
        ensures { result ≡ deadline_of self.now.node scope }
    {
        self.objects.deadline(scope)
    }

    /// What stands at this place, from 0, among the ends of this scope and, after them, its own participant.
    pub fn in_scope(&self, scope: Id, place: u32) -> Option<Id>
        ensures { result ≡ in_scope self.now.node scope place }
    {
        self.objects.in_scope(scope, place)
    }

    /// How often its disk has failed.
    pub fn faults(&self) -> u64
        ensures { result ≡ D.faults self.now.disk }
    {
        self.journal.faults()
    }

    /// The disk's count of failures when a call answered Disk; since then each is refused.
    pub fn closed(&self) -> Option<u64>
        ensures { result ≡ self.now.closed }
    {
        self.journal.closed()
    }

    /// Gives the disk back.
    pub fn into_disk(self) -> D
        ensures { result ≡ self.disk }
    {
        let Node { journal, .. } = self;
        journal.into_disk()
    }
}

// The time that is asked for a context, in milliseconds: a number of 32 bits, so that a message can say it.
fn asked_time(input: &Input) -> Option<u32>
    ensures { HasFitTime input.now }
{
    match input {
        Input::Create {
            expires: Some(milliseconds),
            ..
        } => Some(*milliseconds),
        _ => None,
    }
}

impl<D: Faulty> Node<D> {
    /// Arms a failure of the disk's k-th counted call from now, in place of what is armed.
    pub fn fail_next(&mut self, k: u32)
        ensures armed { D.rearmed self.old.disk (fail k) self.new.disk }
        ensures kept { self.new ≡ record self.old { disk = self.new.disk } }
    {
        self.journal.fail_next(k);
    }

    /// Arms a stop of the disk's machine at its k-th counted call from now, in place of what is armed.
    pub fn stop_next(&mut self, k: u32, image: Image)
        ensures armed { D.rearmed self.old.disk (stop k image) self.new.disk }
        ensures kept { self.new ≡ record self.old { disk = self.new.disk } }
    {
        self.journal.stop_next(k, image);
    }

    /// Takes back what is armed.
    pub fn disarm(&mut self)
        ensures armed { D.rearmed self.old.disk nothing self.new.disk }
        ensures kept { self.new ≡ record self.old { disk = self.new.disk } }
    {
        self.journal.disarm();
    }

    /// The machine of the disk has stopped.
    pub fn stopped(&self) -> bool
        ensures { result ≡ D.is_stopped self.now.disk }
    {
        self.journal.stopped()
    }

    /// A counted call of the disk found no memory, had no effect and was counted as a fault.
    pub fn starved(&self) -> bool
        ensures { result ≡ D.is_starved self.now.disk }
    {
        self.journal.starved()
    }
}
