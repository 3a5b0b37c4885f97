//! Loads a node from its journal.
ghost use Rattle.std.specs.Prelude.{◌≡◌, ◌≤◌, ℕ, List as Items, None, IsTrue, IfOk, IfErr};
ghost use Rattle.std.specs.List.{AllByRecursion};
ghost use Rattle.ba_journal.specs.Frames.{StandsFor};
ghost use Rattle.ba_journal.specs.Journals.{IsSettled};
ghost use Rattle.ba_journal.specs.Readings.{ReadsAs, last_gate};
ghost use Rattle.ba_node.specs.Loading.{MayBeginSince, Opened, RefusesFile, begun, disk_after_load, load_answer, load_fault_of};
ghost use Rattle.ba_node.specs.declared.faults.LoadFault.TheVariants as fault;
ghost use Rattle.ba_ports.specs.Causes.{Rose};
ghost use Rattle.ba_ports.specs.Disk.{LeavesOnly};
ghost use Rattle.ba_ports.specs.declared.requests.Call.{Call};
ghost use Rattle.ba_record.specs.Coding.{InRange};
ghost use Rattle.ba_record.specs.Endpoints.{IsBase};
ghost use Rattle.ba_record.specs.declared.records.Record.{Record};
ghost use Rattle.ba_node_steps.specs.Lawful.{Replays};

use crate::beginning::begin;
use crate::faults::LoadFault;
use crate::nodes::Node;
use ba_core::Octets;
use ba_journal::{Journal, JournalFault};
use ba_ports::Disk;
use std::alloc::Global;

impl<D: Disk> Node<D> {
    /// The node that the disk's journal keeps. A journal without records gets the node's own.
    pub fn load(
        alloc: Global,
        disk: D,
        number: u32,
        base: Octets,
    ) -> Result<Node<D>, (D, LoadFault)>
        requires from_one { 1 ≤ number }
        requires is_base { IsBase base }

        // What is answered, whatever the disk.
        ensures lawful { IfOk result (λ n. (records : Items Record) × AllByRecursion InRange records × Replays records n.node
            × (n.end ≡ last_gate records)) }
        ensures is_this { IfOk result (λ n. (n.node.number ≡ number) × (n.node.base ≡ base)) }
        ensures opened { IfOk result (λ n. n.closed ≡ None) }

        // What is said of content, over a disk that follows its model.
        ensures replay { IsTrue (D.follows disk) → IfOk result (λ n. (records : Items Record) × StandsFor (D.seen disk) records
            × Replays (begun number base records) n.node
            × IsSettled D.seen D.may_leave n.disk n.end (begun number base records)) }
        ensures refused { IsTrue (D.follows disk) → IfErr result (λ refused. RefusesFile number base (D.seen disk) refused.1) }
        ensures any_moment { IsTrue (D.follows disk) →
            LeavesOnly D.later D.left_between disk (disk_after_load result) (MayBeginSince number base (D.may_leave disk)) }

        // Which calls of the disk were made, and what they leave of it.
        ensures calls { (calls : Items Call) × D.driven disk calls (disk_after_load result)
            × Opened (λ found. IsTrue (D.follows disk) → ReadsAs (D.seen disk) found) number base (load_answer result) calls }
        ensures follows { D.follows (disk_after_load result) ≡ D.follows disk }
        ensures cause { IfErr result (λ refused. refused.1 ≡ fault.Disk → Rose (D.faults disk) (D.faults refused.0)) }
        ensures faults { D.faults disk ≤ D.faults (disk_after_load result) }
    {
        match Journal::load(alloc, disk) {
            Err((disk, why)) => Err((disk, load_fault(why))),
            Ok((journal, records)) => {
                let mut journal = journal;
                match begin(alloc, &mut journal, records, number, base) {
                    Ok(objects) => Ok(Node::of(journal, objects)),
                    Err(why) => Err((journal.into_disk(), why)),
                }
            }
        }
    }
}

// Full and Closed don't come from a loading.
fn load_fault(why: JournalFault) -> LoadFault
    ensures { result ≡ load_fault_of why }
{
    match why {
        JournalFault::Disk => LoadFault::Disk,
        JournalFault::NotAJournal(place) => LoadFault::NotAJournal(place),
        JournalFault::Memory | JournalFault::Full | JournalFault::Closed(_) => LoadFault::Memory,
    }
}
