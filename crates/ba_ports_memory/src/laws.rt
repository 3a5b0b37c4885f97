//! Laws of disks in memory. Each function does nothing: its contract is the law.
ghost use Rattle.std.specs.Prelude.{◌≡◌, Bool, false, if◌then◌else◌, List, ◌++◌};
ghost use Rattle.ba_ports.specs.Counts.{risen};
ghost use Rattle.ba_ports.specs.Disk.{InTurn, counted};
ghost use Rattle.ba_ports_memory.specs.DiskValue.{MediumValue, DiskValue, IsUntroubled, MayBeLeft, all_imaged, fails, CallsLead, run, unless_failed};
ghost use Rattle.ba_ports.specs.declared.images.Image.{Image as Left};
ghost use Rattle.ba_ports.specs.declared.requests.Call.{Call};
ghost use Rattle.ba_ports.specs.declared.requests.Request.{Request};

/// Each image is something that a crash may leave.
pub fn an_image_may_be_left()
    ensures { (image : Left) (m : MediumValue) → MayBeLeft m (all_imaged image m.pending m.synced) }
{}

/// Where nothing is armed and the machine runs, no call fails, nor does one of a whole run, and it stays so.
pub fn nothing_fails_by_itself()
    ensures call { (request : Request) (m : MediumValue) → IsUntroubled m → fails request m ≡ false }
    ensures run { (requests : List Request) (m : MediumValue) → IsUntroubled m → (run requests m).0 ≡ false }
    ensures stays { (requests : List Request) (m : MediumValue) → IsUntroubled m → IsUntroubled (run requests m).1 }
{}

/// Requests that were made in turn, up to the first that failed, with nothing else or with calls that look between
/// them, are a run of what the disk holds. Where there was nothing else, the count of faults rose by the one that
/// failed.
pub fn requests_in_turn_are_run()
    ensures made { (requests : List Request) (failed : Bool) (calls : List Call) (a b : DiskValue) →
        InTurn requests failed calls → CallsLead a calls b → run requests a.medium ≡ (failed, b.medium) }
    ensures looks { (requests : List Request) (failed : Bool) (calls : List Call) (a b : DiskValue) →
        InTurn requests failed (counted calls) → CallsLead a calls b → run requests a.medium ≡ (failed, b.medium) }
    ensures faults { (requests : List Request) (failed : Bool) (calls : List Call) (a b : DiskValue) →
        InTurn requests failed calls → CallsLead a calls b → b.faults ≡ (if failed then risen a.faults else a.faults) }
    ensures starved { (calls : List Call) (a b : DiskValue) → CallsLead a calls b → b.starved ≡ a.starved }
{}

/// A run of two lists of requests is a run of the first, and where none of it failed a run of the second.
pub fn a_run_goes_on()
    ensures { (first second : List Request) (m : MediumValue) →
        run (first ++ second) m ≡ unless_failed (run first m).0 (run first m).1 (run second (run first m).1) }
{}
