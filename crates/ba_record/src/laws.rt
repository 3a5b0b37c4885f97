//! What holds of every record, beside what each call says.
ghost use Rattle.std.specs.Prelude.{◌≡◌, ◌≢◌, ◌≤◌, ℕ, List, Ok, length, take};
ghost use Rattle.ba_record.specs.declared.records.Record.{Record};
ghost use Rattle.ba_record.specs.Coding.{coding, InRange};
ghost use Rattle.ba_record.specs.Reading.{reading, IsBytes};

/// A record whose fields are in their ranges is read back from its coding, and no two of them have one coding.
pub fn records_are_read_back()
    ensures reads_back { (r : Record) → InRange r → reading (coding r) ≡ Ok r }
    ensures one_each { (r s : Record) → InRange r → InRange s → coding r ≡ coding s → r ≡ s }
{}

/// No record's coding has more than 65,542 bytes: whether 65,543 bytes or more are a record, and where they go
/// wrong, is told by the first 65,543.
pub fn long_bytes_are_refused_by_their_front()
    ensures same { (bytes : List ℕ) → 65543 ≤ length bytes → IsBytes (take 65543 bytes) → reading bytes ≡ reading (take 65543 bytes) }
    ensures refused { (bytes : List ℕ) → 65543 ≤ length bytes → IsBytes (take 65543 bytes) → (r : Record) → reading bytes ≢ Ok r }
{}
