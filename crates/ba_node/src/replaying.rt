//! What the records of a journal lead to.
ghost use Rattle.std.specs.Prelude.{◌≡◌, ◌≢◌, ◌∷◌, ◌++◌, [], drop, List as Items, ℕ, Err, IfOk, IfErr, OnOk};
ghost use Rattle.std.specs.List.{AllByRecursion};
ghost use Rattle.ba_node.specs.Loading.{RefusesLoad};
ghost use Rattle.ba_node.specs.declared.faults.LoadFault.TheVariants as fault;
ghost use Rattle.ba_node.specs.inside.Beginnings.{IsReplay};
ghost use Rattle.ba_record.specs.Coding.{InRange};
ghost use Rattle.ba_record.specs.declared.records.Record.TheVariants as kind;
ghost use Rattle.ba_record.specs.declared.records.Record.{Record as Kept};
ghost use Rattle.ba_node_steps.specs.Lawful.{AreFew};
ghost use Rattle.ba_node_steps.specs.Node.{new_node};

use crate::enacting::enact;
use crate::faults::LoadFault;
use ba_core::{List, Octets};
use ba_node_objects::Objects;
use ba_record::Record;
use std::alloc::Global;
use std::collections::VecDeque;

/// The node with this number and base that these records lead to, of which there is one at least.
pub fn replay(
    alloc: Global,
    records: List<Record>,
    number: u32,
    base: Octets,
) -> Result<Objects, LoadFault>
    requires some { records ≢ [] }
    requires in_range { AllByRecursion InRange records }
    requires few { AreFew records }
    ensures ok { IfOk result (λ objects. IsReplay number base records objects.node) }
    ensures refused { IfErr result (RefusesLoad number base records) }
    ensures no_disk { result ≢ Err fault.Disk }
{
    match is_own(records.as_slice(), number, base.as_slice()) {
        Ok(()) => replay_on(Objects::new(alloc, number, base), without_first(records)),
        Err(why) => Err(why),
    }
}

// The first record names the node with this number and base.
fn is_own(records: &[Record], number: u32, base: &[u8]) -> Result<(), LoadFault>
    requires { records.now ≢ [] }
    ensures ok { OnOk result ((more : Items Kept) × (records.now ≡ kind.Node number base.now ∷ more)) }
    ensures refused { IfErr result (RefusesLoad number base.now records.now) }
    ensures no_disk { result ≢ Err fault.Disk }
{
    match records.first() {
        Some(Record::Node(other, name)) => {
            if *other != number {
                return Err(LoadFault::OtherNode(*other));
            }
            if name.as_slice() != base {
                return Err(LoadFault::OtherBase);
            }
            Ok(())
        }
        _ => Err(LoadFault::BadHistory(0)),
    }
}

fn without_first(records: List<Record>) -> VecDeque<Record>
    ensures { result.items ≡ drop 1 records }
{
    let mut rest = VecDeque::from(records.into_vec());
    let _ = rest.pop_front();
    rest
}

// What the records after a node's own lead to.
fn replay_on(mut objects: Objects, mut rest: VecDeque<Record>) -> Result<Objects, LoadFault>
    requires begun { objects.node ≡ new_node objects.node.number objects.node.base }
    requires in_range { AllByRecursion InRange (kind.Node objects.node.number objects.node.base ∷ rest.items) }
    requires few { AreFew (kind.Node objects.node.number objects.node.base ∷ rest.items) }
    ensures ok { IfOk result (λ it. IsReplay objects.node.number objects.node.base (kind.Node objects.node.number objects.node.base ∷ rest.items) it.node) }
    ensures refused { IfErr result (RefusesLoad objects.node.number objects.node.base (kind.Node objects.node.number objects.node.base ∷ rest.items)) }
    ensures no_disk { result ≢ Err fault.Disk }
{
    let mut place: u64 = 0;
    'records: while let Some(r) = rest.pop_front() {
        place = place.saturating_add(1);
        match enact(&mut objects, r) {
            Ok(true) => {}
            Ok(false) => return Err(LoadFault::BadHistory(place)),
            Err(_) => return Err(LoadFault::Memory),
        }
    }
    Ok(objects)
}
