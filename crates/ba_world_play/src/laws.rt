//! Laws of plays. Each function does nothing: its contract is the law.
ghost use Rattle.std.specs.Prelude.{◌≡◌, ◌≢◌, ◌↔◌, ℕ, ◌+◌, ◌*◌, ◌<◌, ◌≤◌, ◌^◌, Bool, true, false, List, [], ◌∷◌, ◌++◌, length, None, Some, Ok};
ghost use Rattle.std.specs.List.{AllByRecursion};
ghost use Rattle.ba_world_events.specs.Events.{NumberedEvent};
ghost use Rattle.ba_world_events.specs.declared.events.Event.{Event};
ghost use Rattle.ba_world_events.specs.declared.outcomes.Outcome.TheVariants as outcome;
ghost use Rattle.ba_journal.specs.Frames.{StandsFor};
ghost use Rattle.ba_journal.specs.Journals.{GoesPast, appending, behind_gate};
ghost use Rattle.ba_journal.specs.Loads.{EndsFailed, settling};
ghost use Rattle.ba_journal.specs.Readings.{ReadsAs, reading_of};
ghost use Rattle.ba_journal.specs.declared.readings.Reading.{Reading as Found};
ghost use Rattle.ba_ports_memory.specs.DiskValue.{DiskValue, Drives, IsUntroubled, MediumValue, armed_for, bytes_of, holding};
ghost use Rattle.ba_world_play.specs.Arrivals.{Leads, arrival};
ghost use Rattle.ba_world_play.specs.Calls.{IsTaken, IsUpAgain};
ghost use Rattle.ba_world_play.specs.Disks.{DiskFits, HaveSpare, HoldsNode, IsAtRest};
ghost use Rattle.ba_world_play.specs.Nodes.{append_run, armed_with, called_node, crashed, is_past_end, load_run, lost_call, node_call, node_taken, open_call, running};
ghost use Rattle.ba_world_play.specs.Plays.{WorldEffect, WorldOnDisks, disk_at_start, node_base, play_step, world_at_start};
ghost use Rattle.ba_world_play.specs.Posting.{CanPost, occasion_event};
ghost use Rattle.ba_world_play.specs.Reopenings.{IsAboutToAppend, call_armed, failure_keeps, records_if, records_reopened, stop_keeps};
ghost use Rattle.ba_world_play.specs.SafeStories.{IsSafeStory, OutcomesAreRecorded};
ghost use Rattle.ba_world_play.specs.Shows.{story};
ghost use Rattle.ba_ports.specs.Disk.{Armament, InTurn, counted, fail, stop};
ghost use Rattle.ba_ports.specs.declared.images.Image.{Image};
ghost use Rattle.ba_ports.specs.declared.requests.Call.{Call};
ghost use Rattle.ba_ports.specs.declared.requests.Request.TheVariants as request;
ghost use Rattle.ba_record.specs.Coding.{InRange, coding};
ghost use Rattle.ba_record.specs.declared.records.Record.{Record};
ghost use Rattle.ba_record.specs.declared.records.Record.TheVariants as journal;
ghost use Rattle.ba_world_runs.specs.Runs.{IsRun};
ghost use Rattle.ba_world_runs.specs.Safety.{IsItsRecords};
ghost use Rattle.ba_world_runs.specs.World.{Mail, Net, Occasion, World, WorldNode, answer, is_closed, is_down, is_up, letter, net_of, node_at};
ghost use Rattle.ba_world_runs.specs.WorldSteps.{BringsInput, IsPossible, WorldStep, effect};
ghost use Rattle.ba_core.specs.Numbers.{code_part};
ghost use Rattle.ba_core.specs.declared.identifiers.Id.{Id};
ghost use Rattle.ba_message.specs.declared.messages.Letter.{Letter};
ghost use Rattle.ba_message.specs.declared.messages.Message.{Message};
ghost use Rattle.ba_node_steps.specs.Addresses.{register_code};
ghost use Rattle.ba_node_steps.specs.Endpoints.{GivesFit};
ghost use Rattle.ba_node_steps.specs.Node.{Among};
ghost use Rattle.ba_node_steps.specs.declared.inputs.Input.{Input};

/// Each event that is played is a step of the world, in each run whose nodes, where they are up, have counters left.
pub fn each_event_is_a_step_of_the_world()
    ensures { (p : WorldOnDisks) (before : List World) (e : Event) (led : WorldEffect) → IsRun (p.world ∷ before)
        → HaveSpare p → play_step p e ≡ Ok led → WorldStep p.world led.after.world }
{}

/// In every play, whatever its events, the worlds are those of a run, each of them is safe, outcomes are recorded once, and nothing
/// arrives out of place: so many nodes have numbers, and so many events leave counters.
pub fn plays_stay_safe()
    ensures { (count : ℕ) (events : List NumberedEvent) → count < 2 ^ 32 → 2 * length events + 2 < 2 ^ 64
        → IsSafeStory (story count events) }
{}

/// Where nothing is armed and the machine runs, no call shows that the disk failed or the machine stopped; where nothing is armed,
/// each opening is done.
pub fn nothing_armed_nothing_fails()
    ensures call { (n : WorldNode) (disk : MediumValue) (o : Occasion) → IsUntroubled disk
        → ((node_call n disk o).shown ≢ Some outcome.Disk) × ((node_call n disk o).shown ≢ Some outcome.Stopped) }
    ensures opening { (n : WorldNode) (disk : MediumValue) → disk.armed ≡ None → (open_call n disk).shown ≡ Some outcome.Done }
{}

/// After an opening that is done the node has exactly the records for which the file stands that was read: its own, or these with
/// the pending one.
pub fn openings_read_the_disk()
    ensures { (n : WorldNode) (disk : MediumValue) (records : List Record) → HoldsNode n disk
        → StandsFor (bytes_of (running disk)) records → (open_call n disk).shown ≡ Some outcome.Done
        → (open_call n disk).after.node.records ≡ records }
{}

/// In each world of a play each letter that was ever sent can be written as an envelope that is read back, and so can each answer; and
/// what may happen at a node gives endpoints that fit.
pub fn messages_of_plays_can_be_posted()
    ensures start { CanPost world_at_start }
    ensures step { (w w2 : World) → WorldStep w w2 → IsItsRecords w → CanPost w → CanPost w2 }
    ensures gives { (w : World) (k : ℕ) (o : Occasion) → IsItsRecords w → CanPost w → IsPossible (net_of w) k o
        → GivesFit (occasion_event o) }
{}

/// Whatever happens to a node on its disk, a call, an opening, a stop or arming, with failures and stops at any device call, keeps that
/// the disk holds its node: whatever may be left of it stands for the node's records, or for these with the one that is pending; and
/// while the node is up, the disk is at rest and nothing is pending.
pub fn disks_hold_their_nodes()
    ensures call { (n : WorldNode) (disk : MediumValue) (o : Occasion) → DiskFits n disk
        → (n.mode ≡ is_up → (r : Record) → (effect n.state o).written ≡ Some r → InRange r)
        → DiskFits (node_call n disk o).after.node (node_call n disk o).after.disk }
    ensures opening { (n : WorldNode) (disk : MediumValue) → DiskFits n disk → n.records ≢ []
        → DiskFits (open_call n disk).after.node (open_call n disk).after.disk }
    ensures stop { (n : WorldNode) (disk : MediumValue) → DiskFits n disk → DiskFits (crashed n disk).node (crashed n disk).disk }
    ensures arming { (armament : Armament) (n : WorldNode) (disk : MediumValue) → DiskFits n disk
        → DiskFits (armed_with armament n disk).node (armed_with armament n disk).disk }
{}

/// In every play, whatever its events, each disk holds its node at the end, whenever the machine stops: its records, or these with the
/// one that is pending. So it is at each moment, since a play up to there is a play.
pub fn plays_keep_their_disks()
    ensures { (count : ℕ) (events : List NumberedEvent) → count < 2 ^ 32 → 2 * length events + 2 < 2 ^ 64 → (k : ℕ) → 1 ≤ k → k < 2 ^ 32
        → DiskFits ((story count events).last.world.nodes k) ((story count events).last.disks k) }
{}

/// The calls of an append and of a load, made on a disk in memory that finds memory, are those of a play: the run of an append's
/// requests, or of a load's, leads to the same disk, and fails where one of the calls did.
pub fn disks_are_driven_as_played()
    ensures append { (d b : DiskValue) (gate : ℕ) (r : Record) (failed : Bool) (calls : List Call)
        → gate + 1 ≡ length (bytes_of d.medium) → Drives d calls b → b.starved ≡ false
        → InTurn (appending gate (behind_gate (coding r))) failed calls → append_run d.medium r ≡ (failed, b.medium) }
    ensures past { (disk : MediumValue) (gate : ℕ) (r : Record) → gate + 1 ≡ length (bytes_of disk)
        → (is_past_end disk r ≡ true) ↔ GoesPast gate (length (coding r)) }
    ensures load { (d b : DiskValue) (found : Found) (failed : Bool) (calls : List Call) → ReadsAs (bytes_of d.medium) found
        → Drives d calls b → b.starved ≡ false → InTurn (request.Sync ∷ settling found) failed (counted calls)
        → load_run d.medium (reading_of (bytes_of d.medium)) ≡ (failed, b.medium) }
    ensures early { (d b : DiskValue) (found : Found) (failed : Bool) (calls : List Call) → Drives d calls b → b.starved ≡ false
        → EndsFailed calls → InTurn (request.Sync ∷ []) failed (counted calls) → load_run d.medium found ≡ (true, b.medium) }
{}

/// Where nothing hinders, the step of an occasion is taken: the node is up, nothing is armed, the machine runs, and a record that is
/// written ends within the greatest length. A step without a record is taken whatever is armed. A node that isn't up stays as it is, and
/// so does one whose record has no room. An opening with nothing armed brings the node up.
pub fn steps_are_taken_where_nothing_hinders()
    ensures taken { (n : WorldNode) (disk : MediumValue) (o : Occasion) → n.mode ≡ is_up → IsUntroubled disk
        → ((r : Record) → (effect n.state o).written ≡ Some r → is_past_end disk r ≡ false) → IsTaken n o (node_call n disk o) }
    ensures silent { (n : WorldNode) (disk : MediumValue) (o : Occasion) → n.mode ≡ is_up → (effect n.state o).written ≡ None
        → node_call n disk o ≡ called_node (node_taken n o) disk None }
    ensures full { (n : WorldNode) (disk : MediumValue) (o : Occasion) (r : Record) → n.mode ≡ is_up
        → (effect n.state o).written ≡ Some r → is_past_end disk r ≡ true → node_call n disk o ≡ called_node n disk (Some outcome.Full) }
    ensures closed { (n : WorldNode) (disk : MediumValue) (o : Occasion) → n.mode ≡ is_closed
        → node_call n disk o ≡ called_node n disk (Some outcome.Closed) }
    ensures down { (n : WorldNode) (disk : MediumValue) (o : Occasion) → n.mode ≡ is_down
        → node_call n disk o ≡ called_node n disk (Some outcome.Down) }
    ensures opening { (n : WorldNode) (disk : MediumValue) → disk.armed ≡ None → IsUpAgain (open_call n disk) }
{}

/// What is armed is spent by the next call, whatever the call is, and by an opening; a stop of the machine leaves it; and arming puts
/// this in its place, counted from the calls so far.
pub fn calls_spend_what_is_armed()
    ensures call { (n : WorldNode) (disk : MediumValue) (o : Occasion) → (node_call n disk o).after.disk.armed ≡ None }
    ensures lost { (n : WorldNode) (disk : MediumValue) → (lost_call n disk n.mode).after.disk.armed ≡ None }
    ensures opening { (n : WorldNode) (disk : MediumValue) → (open_call n disk).after.disk.armed ≡ None }
    ensures stop { (n : WorldNode) (disk : MediumValue) → (crashed n disk).disk.armed ≡ disk.armed }
    ensures arming { (armament : Armament) (n : WorldNode) (disk : MediumValue)
        → (armed_with armament n disk).disk ≡ record disk { armed = armed_for armament (length disk.calls) } }
{}

/// A failure or a stop at each of the four calls of an append, and an opening after it. The node has the record of its step where the
/// machine stopped at the third call or the fourth and the image has the gate, or where the fourth call failed; else it has the records
/// that it had. What is armed for a call past the fourth doesn't come, and the step is taken.
pub fn openings_find_the_record_from_its_gate_on()
    ensures stopped { (n : WorldNode) (disk : MediumValue) (o : Occasion) (r : Record) (k : ℕ) (i : Image)
        → IsAboutToAppend n disk o r → 1 ≤ k → k ≤ 4
        → ((call_armed (stop k i) n disk o).shown ≡ Some outcome.Stopped)
        × (records_reopened (call_armed (stop k i) n disk o) ≡ records_if (stop_keeps k i) n.records r) }
    ensures failed { (n : WorldNode) (disk : MediumValue) (o : Occasion) (r : Record) (k : ℕ) → IsAboutToAppend n disk o r → 1 ≤ k → k ≤ 4
        → ((call_armed (fail k) n disk o).shown ≡ Some outcome.Disk)
        × (records_reopened (call_armed (fail k) n disk o) ≡ records_if (failure_keeps k) n.records r) }
    ensures stopped_later { (n : WorldNode) (disk : MediumValue) (o : Occasion) (r : Record) (k : ℕ) (i : Image)
        → IsAboutToAppend n disk o r → 4 < k → IsTaken n o (call_armed (stop k i) n disk o) }
    ensures failed_later { (n : WorldNode) (disk : MediumValue) (o : Occasion) (r : Record) (k : ℕ) → IsAboutToAppend n disk o r → 4 < k
        → IsTaken n o (call_armed (fail k) n disk o) }
{}

/// In each world of a run a message arrives at a node with an input exactly where it brings the input there.
pub fn messages_arrive_where_they_lead()
    ensures arrives { (w : World) (before : List World) (k : ℕ) (m : Mail) (i : Input) → IsRun (w ∷ before)
        → BringsInput (node_at (net_of w) k) m i → arrival (net_of w) m ≡ record { node = k; input = Some i } }
    ensures brings { (w : World) (before : List World) (k : ℕ) (m : Mail) (i : Input) → IsRun (w ∷ before)
        → arrival (net_of w) m ≡ record { node = k; input = Some i } → BringsInput (node_at (net_of w) k) m i }
{}

/// In each world of a play, whatever its events, all that was ever sent can be posted.
pub fn whole_plays_can_be_posted()
    ensures { (count : ℕ) (events : List NumberedEvent) → count < 2 ^ 32 → 2 * length events + 2 < 2 ^ 64
        → AllByRecursion CanPost (story count events).worlds }
{}

/// The disk of a node at the start of a play is what a load of an empty file and the append of the node's own record make of it, with
/// no call that fails; and it is at rest with this record.
pub fn plays_start_by_a_load()
    ensures load { (load_run (holding []).medium (reading_of [])).0 ≡ false }
    ensures append { (k : ℕ) → append_run (load_run (holding []).medium (reading_of [])).1 (journal.Node k (node_base k))
        ≡ (false, disk_at_start k) }
    ensures rests { (k : ℕ) → 1 ≤ k → k < 2 ^ 32 → IsAtRest (disk_at_start k) (world_at_start.nodes k).records }
{}

/// At each moment of a play, whatever its events, outcomes are recorded: what was received so far is what steps so far recorded, and a
/// participant whose outcome has been sent did so by then.
pub fn outcomes_are_recorded_at_each_moment()
    ensures { (count : ℕ) (events : List NumberedEvent) → count < 2 ^ 32 → 2 * length events + 2 < 2 ^ 64
        → (later : List World) (w : World) (before : List World) → (story count events).worlds ≡ later ++ (w ∷ before)
        → OutcomesAreRecorded w before }
{}

/// In each world of a run each letter that was ever sent leads to an input at the node to which it goes, and so does each answer to
/// a Register. The answer to a notice leads nowhere.
pub fn each_message_leads()
    ensures letters { (w : World) (before : List World) (l : Letter) → IsRun (w ∷ before) → Among w.bag (letter l)
        → Leads (net_of w) (letter l) }
    ensures answers { (w : World) (before : List World) (number : Id) (m : Message) → IsRun (w ∷ before)
        → Among w.bag (answer number m) → code_part number.0 ≡ register_code → Leads (net_of w) (answer number m) }
    ensures nowhere { (w : Net) (number : Id) (m : Message) → code_part number.0 ≢ register_code
        → (arrival w (answer number m)).input ≡ None }
{}
