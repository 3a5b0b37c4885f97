//! Takes a step: its record is kept first, and then the node changes. Nothing else here speaks of the disk.
ghost use Rattle.std.specs.Prelude.{◌≡◌, None};
ghost use Rattle.ba_node.specs.Nodes.{NodeHolds, on_journal};
ghost use Rattle.ba_node.specs.inside.Commits.{Commits, IsDue};
ghost use Rattle.ba_node_objects.specs.Changes.{Suits, changed_node};

use crate::faults::NodeFault;
use crate::keeping::keep_some;
use ba_journal::Journal;
use ba_node_objects::{Change, Objects};
use ba_ports::Disk;
use ba_record::Record;

/// Keeps the record of a change that is due, where it has one, and then makes the change, which takes no memory.
pub fn commit<D: Disk>(
    journal: &mut Journal<D>,
    objects: &mut Objects,
    written: &Option<Record>,
    doing: Change,
) -> Result<(), NodeFault>
    requires opened { journal.old.closed ≡ None }
    requires holds { NodeHolds D.follows D.seen (on_journal journal.old objects.old.node) }
    requires due { IsDue objects.old.node (record { after = changed_node objects.old.node doing; written = written.now }) }
    requires suits { Suits objects.old doing }
    ensures commits { Commits D.follows D.seen D.may_leave D.later D.left_between D.driven D.faults
        (record { after = changed_node objects.old.node doing; written = written.now })
        (on_journal journal.old objects.old.node) (on_journal journal.new objects.new.node) result }
    ensures holds { NodeHolds D.follows D.seen (on_journal journal.new objects.new.node) }
{
    match keep_some(journal, written) {
        Ok(()) => {
            objects.apply(doing);
            Ok(())
        }
        Err(fault) => Err(fault),
    }
}
