//! What holds of every journal's file, beside what each call says. Each function does nothing: its contract is the law.
ghost use Rattle.std.specs.Prelude.{◌≡◌, ◌≢◌, ℕ, ◌⊎◌, List, [], ◌∷◌, ◌++◌};
ghost use Rattle.ba_journal.specs.Journals.{AtRest, before_last, behind_gate};
ghost use Rattle.ba_journal.specs.Frames.{Holds, IsNoJournal, StandsFor};
ghost use Rattle.ba_journal.specs.Readings.{ReadsAs, reading_of, records_found};
ghost use Rattle.ba_journal.specs.declared.readings.Reading.{Reading};
ghost use Rattle.ba_record.specs.Coding.{coding, InRange};
ghost use Rattle.ba_record.specs.declared.records.Record.{Record};

/// A file whose last byte is a gate that is 0 stands for the same records whatever lies behind that gate, and
/// whatever other byte than 1 the gate is. With a record's frame behind it, the gate 1 adds that record.
pub fn one_more_frame()
    ensures behind_the_gate { (file : List ℕ) (records : List Record) (behind : List ℕ) →
        AtRest file records → StandsFor (file ++ behind) records }
    ensures another_gate { (file : List ℕ) (records : List Record) (gate : ℕ) (behind : List ℕ) →
        AtRest file records → gate ≢ 1 → StandsFor (before_last file ++ gate ∷ behind) records }
    ensures open_gate { (file : List ℕ) (records : List Record) (last : Record) →
        AtRest file records → InRange last
        → AtRest (before_last file ++ 1 ∷ behind_gate (coding last)) (records ++ last ∷ []) }
{}

/// A file stands for at most one list of records, with one last gate; it is no journal's at one place at most; and it
/// is never both.
pub fn files_mean_one_thing()
    ensures one_list { (file : List ℕ) (r s : List Record) → StandsFor file r → StandsFor file s → r ≡ s }
    ensures one_rest { (file : List ℕ) (r s : List Record) (rest more : List ℕ) → Holds file r rest → Holds file s more → rest ≡ more }
    ensures never_both { (file : List ℕ) (r : List Record) (place : ℕ) → IsNoJournal file place → StandsFor file r → ⊥ }
    ensures one_place { (file : List ℕ) (p q : ℕ) → IsNoJournal file p → IsNoJournal file q → p ≡ q }
{}

/// Each file stands for some records, or is no journal's.
pub fn every_file_is_read()
    ensures { (file : List ℕ) → ((r : List Record) × StandsFor file r) ⊎ ((place : ℕ) × IsNoJournal file place) }
{}

/// What a load finds in a file is a function of its bytes: whatever the file is read as is what is computed; what is
/// computed is what it is read as, unless it is no journal's; and it stands for exactly the records of that.
pub fn a_reading_is_computed()
    ensures computed { (file : List ℕ) (found : Reading) → ReadsAs file found → reading_of file ≡ found }
    ensures read { (file : List ℕ) → ReadsAs file (reading_of file) ⊎ ((place : ℕ) × IsNoJournal file place) }
    ensures records { (file : List ℕ) (records : List Record) → StandsFor file records → records_found (reading_of file) ≡ records }
    ensures stands { (file : List ℕ) (found : Reading) → ReadsAs file found → StandsFor file (records_found found) }
{}
