//! Laws of nodes on their journals. Each function does nothing: its contract is the law.
ghost use Rattle.std.specs.Prelude.{◌≡◌, ◌⊎◌, ℕ, List, Result};
ghost use Rattle.ba_journal.specs.Frames.{IsNoJournal, StandsFor};
ghost use Rattle.ba_node.specs.Answers.{IsAnswered};
ghost use Rattle.ba_node.specs.Counts.{on_count};
ghost use Rattle.ba_node.specs.Keeping.{with_record};
ghost use Rattle.ba_node.specs.Loading.{RefusesFile, RefusesLoad};
ghost use Rattle.ba_node.specs.declared.faults.LoadFault.TheVariants as fault;
ghost use Rattle.ba_node.specs.declared.faults.LoadFault.{LoadFault};
ghost use Rattle.ba_node.specs.declared.faults.NodeFault.{NodeFault};
ghost use Rattle.ba_node.specs.Nodes.{NodeOnJournal};
ghost use Rattle.ba_record.specs.declared.records.Record.{Record};
ghost use Rattle.ba_node_steps.specs.Lawful.{Change, Event, Replays, change};
ghost use Rattle.ba_node_steps.specs.Node.{NodeState};
ghost use Rattle.ba_node_steps.specs.declared.answers.Done.{Done};
ghost use Rattle.ba_node_steps.specs.declared.answers.Ticked.{Ticked};

use ba_ports::Disk;

/// The records of which a node is the replay are refused to that node for nothing but want of memory or a disk that failed.
pub fn never_refused()
    ensures records { (number : ℕ) (base : List ℕ) (records : List Record) (n : NodeState) (why : LoadFault) → Replays records n
        → n.number ≡ number → n.base ≡ base → RefusesLoad number base records why → (why ≡ fault.Memory) ⊎ (why ≡ fault.Disk) }
    ensures file { (number : ℕ) (base file : List ℕ) (records : List Record) (n : NodeState) (why : LoadFault)
        → StandsFor file records → Replays records n
        → n.number ≡ number → n.base ≡ base → RefusesFile number base file why → (why ≡ fault.Memory) ⊎ (why ≡ fault.Disk) }
{}

/// A file that is no journal's is refused for that, at its place; and one that stands for records is refused for these.
pub fn a_file_tells_why_it_is_refused()
    ensures no_journal { (number : ℕ) (base file : List ℕ) (place : ℕ) (why : LoadFault) → IsNoJournal file place
        → RefusesFile number base file why → (why ≡ fault.Memory) ⊎ ((why ≡ fault.Disk) ⊎ (why ≡ fault.NotAJournal place)) }
    ensures records { (number : ℕ) (base file : List ℕ) (records : List Record) (why : LoadFault) → StandsFor file records
        → RefusesFile number base file why → RefusesLoad number base records why }
{}

/// A history breaks at one place at most.
pub fn a_history_breaks_at_one_place()
    ensures { (number : ℕ) (base : List ℕ) (records : List Record) (p q : ℕ) → RefusesLoad number base records (fault.BadHistory p)
        → RefusesLoad number base records (fault.BadHistory q) → p ≡ q }
{}

/// A node that is the replay of some records is, after a step, that of these with the step's own.
pub fn a_node_stays_the_replay_of_its_records()
    ensures { (records : List Record) (n : NodeState) (e : Event) → Replays records n
        → Replays (with_record records (change n e).written) (change n e).after }
{}

/// What a call answers over a disk, it answers also where of the disk only its count of failures is known: so it can be told
/// without the disk.
pub fn an_answer_stands_on_the_count<D: Disk>()
    ensures calls { (due : Change) (old new : NodeOnJournal D) (result : Result Done NodeFault)
        → IsAnswered D.faults due old new result
        → IsAnswered (λ n. n) due (on_count D.faults old) (on_count D.faults new) result }
    ensures ticks { (due : Change) (old new : NodeOnJournal D) (result : Result Ticked NodeFault)
        → IsAnswered D.faults due old new result
        → IsAnswered (λ n. n) due (on_count D.faults old) (on_count D.faults new) result }
{}
