//! A file as a journal meets it: what a read gives, and what a crash may leave.
ghost use Rattle.std.specs.Prelude.{◌≡◌, ◌+◌, ◌^◌, ◌<◌, ◌≤◌, ℕ, Bool, [], ◌∷◌, ◌++◌, List, Option, length, take, IsTrue, IfOk, OnOk, OnErr};
ghost use Rattle.std.specs.Io.{ReadsAtMost};
ghost use Rattle.ba_ports.specs.Causes.{HasCause};
ghost use Rattle.ba_ports.specs.Disk.{Reads, written_at, Torn, CutShort, Done, NoMore, Only, Passes, called, counted, Lists, Armament, fail, stop, nothing, KeepsContent};
ghost use Rattle.ba_ports.specs.declared.requests.Call.{Call};
ghost use Rattle.ba_ports.specs.declared.requests.Request.TheVariants as request;

use crate::failures::Failed;
use crate::images::Image;

/// A file on a disk. What is written is sure to outlive a crash after the next `sync` that succeeds.
///
/// Between two such syncs each range that was written, and what a write put past the old end, may hold
/// any bytes after a crash, and the file may end anywhere between the old end and the new one. A range
/// that was cut holds its old bytes or is gone from some place on. All other bytes stay. A write that
/// failed counts as a write, a cut that failed as a cut, and a sync that failed as none.
pub trait Disk {
    // The disk says that it follows this model. What is said here of content is said of one that does.
    ghost follows: { Self → Bool };
    // The bytes that a read gives.
    ghost seen: { Self → List ℕ };
    // What a crash now may leave.
    ghost may_leave: { Self → List ℕ → Type 0 };
    // The second is the first after calls.
    ghost later: { Self → Self → Type 0 };
    // What a crash at some moment from the first state to the second may have left.
    ghost left_between: { Self → Self → List ℕ → Type 0 };
    // The counted calls so far, where the disk tells them.
    ghost calls: { Self → Option (List Call) };
    // From the first state exactly these calls lead to the second, where the counted ones are told there.
    ghost driven: { Self → List Call → Self → Type 0 };
    // How often the disk has failed.
    ghost faults: { Self → ℕ };

    /// The length in bytes.
    fn len(&mut self) -> Result<u64, Failed>
        ensures length { IsTrue (follows self.old) → IfOk result (λ n. n ≡ length (seen self.old)) }
        ensures seen { IsTrue (follows self.old) → seen self.new ≡ seen self.old }
        ensures crash { IsTrue (follows self.old) → NoMore (may_leave self.old) (may_leave self.new) }
        ensures moments { IsTrue (follows self.old) → Passes later left_between (may_leave self.old) self.old self.new }
        ensures follows { follows self.new ≡ follows self.old }
        ensures driven { driven self.old (called request.Len result ∷ []) self.new }
        ensures cause { HasCause (faults self.old) (faults self.new) result };

    /// Moves bytes from a place on into the room, and says how many: at least one where the room isn't
    /// empty and the file has one there, and none at the file's end or past it. A read that fails leaves the
    /// room as it was, on a disk that follows the model.
    fn read_at(&mut self, place: u64, room: &mut [u8]) -> Result<usize, Failed>
        ensures bound { ReadsAtMost result room.new }
        ensures bytes { IsTrue (follows self.old) → IfOk result (λ n. Reads (seen self.old) place n room.old room.new) }
        ensures untouched { IsTrue (follows self.old) → OnErr result (room.new ≡ room.old) }
        ensures seen { IsTrue (follows self.old) → seen self.new ≡ seen self.old }
        ensures crash { IsTrue (follows self.old) → NoMore (may_leave self.old) (may_leave self.new) }
        ensures moments { IsTrue (follows self.old) → Passes later left_between (may_leave self.old) self.old self.new }
        ensures follows { follows self.new ≡ follows self.old }
        ensures driven { driven self.old (called (request.ReadAt place (length room.old)) result ∷ []) self.new }
        ensures cause { HasCause (faults self.old) (faults self.new) result };

    /// Writes a piece at a place, which is at most the length, over what is there and past the end. A write that would end past the
    /// greatest u64 fails.
    fn write_at(&mut self, place: u64, piece: &[u8]) -> Result<(), Failed>
        requires { IsTrue (follows self.old) → place ≤ length (seen self.old) }
        ensures written { IsTrue (follows self.old) → OnOk result (seen self.new ≡ written_at place piece.now (seen self.old)) }
        ensures within { IsTrue (follows self.old) → OnOk result (place + length piece.now < 2 ^ 64) }
        ensures torn { IsTrue (follows self.old) → Torn place (length piece.now) (seen self.old) (seen self.new) }
        ensures crash { IsTrue (follows self.old) → NoMore (Done (Torn place (length piece.now)) (may_leave self.old)) (may_leave self.new) }
        ensures moments { IsTrue (follows self.old) → Passes later left_between (Done (Torn place (length piece.now)) (may_leave self.old)) self.old self.new }
        ensures follows { follows self.new ≡ follows self.old }
        ensures driven { driven self.old (called (request.WriteAt place piece.now) result ∷ []) self.new }
        ensures cause { HasCause (faults self.old) (faults self.new) result };

    /// Cuts the file to a length in bytes, which is at most its own.
    fn cut(&mut self, len: u64) -> Result<(), Failed>
        requires { IsTrue (follows self.old) → len ≤ length (seen self.old) }
        ensures cut { IsTrue (follows self.old) → OnOk result (seen self.new ≡ take len (seen self.old)) }
        ensures short { IsTrue (follows self.old) → CutShort len (seen self.old) (seen self.new) }
        ensures crash { IsTrue (follows self.old) → NoMore (Done (CutShort len) (may_leave self.old)) (may_leave self.new) }
        ensures moments { IsTrue (follows self.old) → Passes later left_between (Done (CutShort len) (may_leave self.old)) self.old self.new }
        ensures follows { follows self.new ≡ follows self.old }
        ensures driven { driven self.old (called (request.Cut len) result ∷ []) self.new }
        ensures cause { HasCause (faults self.old) (faults self.new) result };

    /// Waits until what was written and cut is on the disk.
    fn sync(&mut self) -> Result<(), Failed>
        ensures durable { IsTrue (follows self.old) → OnOk result (Only (seen self.old) (may_leave self.new)) }
        ensures seen { IsTrue (follows self.old) → seen self.new ≡ seen self.old }
        ensures crash { IsTrue (follows self.old) → NoMore (may_leave self.old) (may_leave self.new) }
        ensures moments { IsTrue (follows self.old) → Passes later left_between (may_leave self.old) self.old self.new }
        ensures follows { follows self.new ≡ follows self.old }
        ensures driven { driven self.old (called request.Sync result ∷ []) self.new }
        ensures cause { HasCause (faults self.old) (faults self.new) result };

    /// How often the disk has failed; the greatest u64 stands for that many or more.
    fn faults(&self) -> u64
        ensures { result ≡ faults self.now };

    // A crash may leave what a read gives.
    ghost seen_may_stay: { (disk : Self) → IsTrue (follows disk) → may_leave disk (seen disk) };
    // A state is later than itself, and later is transitive.
    ghost no_call: { (disk : Self) → later disk disk };

    ghost call_after_call: { (a b c : Self) → later a b → later b c → later a c };
    // Up to a state belongs the state itself, and from a state to itself there is no other.
    ghost counts_now: { (a b : Self) (c : List ℕ) → later a b → may_leave b c → left_between a b c };

    ghost only_now: { (disk : Self) (c : List ℕ) → left_between disk disk c → may_leave disk c };
    // Since an earlier state, or up to a later one, no fewer outcomes.
    ghost widens: { (a b c d : Self) (left : List ℕ) → later a b → later b c → later c d → left_between b c left → left_between a d left };
    // Calls follow one another, and the counted ones are those by which the list that is told grows.
    ghost driven_by_none: { (disk : Self) → driven disk [] disk };

    ghost driven_on: { (a b c : Self) (first second : List Call) → driven a first b → driven b second c → driven a (first ++ second) c };

    ghost listed: { (a b : Self) (made : List Call) → driven a made b → Lists (calls a) (calls b) (counted made) };
}

/// A disk that fails, or whose machine stops, where a test wants it.
pub trait Faulty: Disk {
    // The second is the first after this was armed.
    ghost rearmed: { Self → Armament → Self → Type 0 };
    // The machine has stopped.
    ghost is_stopped: { Self → Bool };
    // A counted call found no memory.
    ghost is_starved: { Self → Bool };

    /// Arms a failure of the k-th counted call from now: it fails once and has no effect. It takes the
    /// place of what is armed.
    fn fail_next(&mut self, k: u32)
        ensures { rearmed self.old (fail k) self.new };

    /// Arms a stop of the machine at the k-th counted call from now. A write or a cut is then issued and
    /// pending, a sync has no effect, and that call and each later one fails. It takes the place of what
    /// is armed.
    fn stop_next(&mut self, k: u32, image: Image)
        ensures { rearmed self.old (stop k image) self.new };

    /// Takes back what is armed.
    fn disarm(&mut self)
        ensures { rearmed self.old nothing self.new };

    /// The machine has stopped.
    fn stopped(&self) -> bool
        ensures { result ≡ is_stopped self.now };

    /// A counted call found no memory, had no effect and was counted as a fault.
    fn starved(&self) -> bool
        ensures { result ≡ is_starved self.now };

    // Arming changes nothing of what the disk tells.
    ghost keeps_content: { (a b : Self) (armament : Armament) → rearmed a armament b
        → KeepsContent Self.follows Self.seen Self.may_leave Self.calls Self.faults a b };
}
