//! Keeps the record of a step in the journal.
ghost use Rattle.std.specs.Prelude.{◌≡◌, ◌≢◌, ◌↔◌, ◌+◌, ◌≤◌, ◌++◌, ◌∷◌, [], ℕ, List as Items, None, Some, Ok, Err, length, IsTrue, IfErr, IfSome, OnOk, OnErr};
ghost use Rattle.ba_journal.specs.Journals.{GoesPast, IsSettled, StandsWithOrWithout};
ghost use Rattle.ba_node.specs.Keeping.{Stepped};
ghost use Rattle.ba_node.specs.declared.faults.NodeFault.TheVariants as fault;
ghost use Rattle.ba_node.specs.inside.Kept.{IsKept};
ghost use Rattle.ba_ports.specs.Causes.{Rose};
ghost use Rattle.ba_ports.specs.Disk.{LeavesOnly};
ghost use Rattle.ba_ports.specs.declared.requests.Call.{Call};
ghost use Rattle.ba_record.specs.Coding.{coding, InRange};
ghost use Rattle.ba_record.specs.declared.records.Record.{Record as Kept};

use crate::faults::NodeFault;
use ba_journal::{Journal, JournalFault};
use ba_ports::Disk;
use ba_record::{Record, size_of};

/// Keeps the record, where there is one.
pub fn keep_some<D: Disk>(
    journal: &mut Journal<D>,
    written: &Option<Record>,
) -> Result<(), NodeFault>
    requires opened { journal.old.closed ≡ None }
    requires in_range { IfSome written.now InRange }
    requires place { IsTrue (D.follows journal.old.disk) → journal.old.gate + 1 ≡ length (D.seen journal.old.disk) }
    ensures { IsKept D.follows D.seen D.may_leave D.later D.left_between D.driven D.faults journal.old journal.new written.now result }
{
    match written {
        Some(r) => keep(journal, r),
        None => Ok(()),
    }
}

/// Takes memory, and then appends the record.
pub fn keep<D: Disk>(journal: &mut Journal<D>, r: &Record) -> Result<(), NodeFault>
    requires in_range { InRange r.now }
    requires place { IsTrue (D.follows journal.old.disk) → journal.old.closed ≡ None → journal.old.gate + 1 ≡ length (D.seen journal.old.disk) }
    ensures acknowledged { OnOk result (IsTrue (D.follows journal.old.disk) → (records : Items Kept) →
        IsSettled D.seen D.may_leave journal.old.disk journal.old.gate records
        → IsSettled D.seen D.may_leave journal.new.disk journal.new.gate (records ++ r.now ∷ [])) }
    ensures place { OnOk result (IsTrue (D.follows journal.old.disk) → journal.new.gate + 1 ≡ length (D.seen journal.new.disk)) }
    ensures any_moment { IsTrue (D.follows journal.old.disk) → (records : Items Kept) →
        IsSettled D.seen D.may_leave journal.old.disk journal.old.gate records
        → LeavesOnly D.later D.left_between journal.old.disk journal.new.disk (StandsWithOrWithout records r.now) }
    ensures calls { (calls : Items Call) × D.driven journal.old.disk calls journal.new.disk × Stepped journal.old.gate (Some r.now) result calls }
    ensures follows { D.follows journal.new.disk ≡ D.follows journal.old.disk }
    ensures full { (result ≡ Err fault.Full) → (journal.old.closed ≡ None) × GoesPast journal.old.gate (length (coding r.now)) }
    ensures fits { OnOk result (GoesPast journal.old.gate (length (coding r.now)) → ⊥) }
    ensures was_open { OnOk result (journal.old.closed ≡ None) }
    ensures closed { (count : ℕ) → (result ≡ Err (fault.Closed count)) → (journal.old.closed ≡ Some count) }
    ensures closes { (result ≡ Err fault.Disk) → (journal.old.closed ≡ None) × (journal.new.closed ≡ Some (D.faults journal.new.disk)) }
    ensures broke_within { (result ≡ Err fault.Disk) → GoesPast journal.old.gate (length (coding r.now)) → ⊥ }
    ensures grows { OnOk result (journal.new.gate ≡ journal.old.gate + (length (coding r.now) + 5)) }
    ensures stays_open { OnOk result (journal.new.closed ≡ None) }
    ensures stays { OnErr result (journal.new.gate ≡ journal.old.gate) }
    ensures unchanged { IfErr result (λ why. why ≢ fault.Disk → (journal.new.disk ≡ journal.old.disk) × (journal.new.closed ≡ journal.old.closed)) }
    ensures cause { (result ≡ Err fault.Disk) → Rose (D.faults journal.old.disk) (D.faults journal.new.disk) }
    ensures faults { D.faults journal.old.disk ≤ D.faults journal.new.disk }
{
    let Ok(()) = journal.reserve(size_of(r)) else {
        return Err(NodeFault::Memory);
    };
    match journal.append(r) {
        Ok(()) => Ok(()),
        Err(JournalFault::Disk) => Err(NodeFault::Disk),
        Err(JournalFault::Full) => Err(NodeFault::Full),
        Err(JournalFault::Closed(count)) => Err(NodeFault::Closed(count)),
        Err(JournalFault::Memory) | Err(JournalFault::NotAJournal(_)) => Err(NodeFault::Memory),
    }
}
