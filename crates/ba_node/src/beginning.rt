//! Begins a journal without records, or replays one.
ghost use Rattle.std.specs.Prelude.{◌≡◌, ◌<◌, ◌≤◌, ◌+◌, ◌^◌, [], None, length, IsTrue, IfOk, IfErr};
ghost use Rattle.std.specs.List.{AllByRecursion};
ghost use Rattle.ba_journal.specs.Readings.{last_gate};
ghost use Rattle.ba_node.specs.Loading.{RefusesLoad, begun};
ghost use Rattle.ba_node.specs.Nodes.{NodeHolds, on_journal};
ghost use Rattle.ba_node.specs.inside.Beginnings.{Begins, IsReplay, begin_fault_of};
ghost use Rattle.ba_record.specs.Coding.{InRange};
ghost use Rattle.ba_record.specs.Endpoints.{IsBase};

use crate::faults::{LoadFault, NodeFault};
use crate::keeping::keep_some;
use crate::replaying::replay;
use ba_core::{List, Octets};
use ba_journal::Journal;
use ba_node_objects::Objects;
use ba_ports::Disk;
use ba_record::Record;
use std::alloc::Global;

/// The node with this number and base that the journal's records lead to. Where it has none, the node's own is appended.
pub fn begin<D: Disk>(
    alloc: Global,
    journal: &mut Journal<D>,
    records: List<Record>,
    number: u32,
    base: Octets,
) -> Result<Objects, LoadFault>
    requires from_one { 1 ≤ number }
    requires is_base { IsBase base }
    requires opened { journal.old.closed ≡ None }
    requires place { IsTrue (D.follows journal.old.disk) → journal.old.gate + 1 ≡ length (D.seen journal.old.disk) }
    requires in_range { AllByRecursion InRange records }
    requires end { journal.old.gate ≡ last_gate records }
    requires small { journal.old.gate < 2 ^ 64 }
    ensures replay { IfOk result (λ objects. IsReplay number base (begun number base records) objects.node) }
    ensures holds { IfOk result (λ objects. NodeHolds D.follows D.seen (on_journal journal.new objects.node)) }
    ensures refused { IfErr result (RefusesLoad number base records) }
    ensures begins { Begins D.follows D.seen D.may_leave D.later D.left_between D.driven D.faults number base records journal.old journal.new result }
{
    if records.is_empty() {
        begin_new(alloc, journal, number, base)
    } else {
        replay(alloc, records, number, base)
    }
}

// Appends the record of a node without objects to a journal without records.
fn begin_new<D: Disk>(
    alloc: Global,
    journal: &mut Journal<D>,
    number: u32,
    base: Octets,
) -> Result<Objects, LoadFault>
    requires from_one { 1 ≤ number }
    requires is_base { IsBase base }
    requires opened { journal.old.closed ≡ None }
    requires place { IsTrue (D.follows journal.old.disk) → journal.old.gate + 1 ≡ length (D.seen journal.old.disk) }
    requires small { journal.old.gate < 2 ^ 64 }
    ensures replay { IfOk result (λ objects. IsReplay number base (begun number base []) objects.node) }
    ensures holds { IfOk result (λ objects. NodeHolds D.follows D.seen (on_journal journal.new objects.node)) }
    ensures refused { IfErr result (RefusesLoad number base []) }
    ensures begins { Begins D.follows D.seen D.may_leave D.later D.left_between D.driven D.faults number base [] journal.old journal.new result }
{
    match keep_own(journal, number, &base) {
        Ok(()) => Ok(Objects::new(alloc, number, base)),
        Err(why) => Err(why),
    }
}

// Appends the node's own record to a journal without records.
fn keep_own<D: Disk>(journal: &mut Journal<D>, number: u32, base: &Octets) -> Result<(), LoadFault>
    requires from_one { 1 ≤ number }
    requires is_base { IsBase base.now }
    requires opened { journal.old.closed ≡ None }
    requires place { IsTrue (D.follows journal.old.disk) → journal.old.gate + 1 ≡ length (D.seen journal.old.disk) }
    requires small { journal.old.gate < 2 ^ 64 }
    ensures refused { IfErr result (RefusesLoad number base.now []) }
    ensures begins { Begins D.follows D.seen D.may_leave D.later D.left_between D.driven D.faults number base.now [] journal.old journal.new result }
{
    let Ok(name) = base.copy() else {
        return Err(LoadFault::Memory);
    };
    let own = Some(Record::Node(number, name));
    match keep_some(journal, &own) {
        Ok(()) => Ok(()),
        Err(why) => Err(begin_fault(why)),
    }
}

// A journal that was just loaded is neither full nor closed.
fn begin_fault(why: NodeFault) -> LoadFault
    ensures { result ≡ begin_fault_of why }
{
    match why {
        NodeFault::Disk => LoadFault::Disk,
        NodeFault::Memory | NodeFault::Full | NodeFault::Closed(_) => LoadFault::Memory,
    }
}
