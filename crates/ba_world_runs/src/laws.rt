//! Laws of worlds. Each function does nothing: its contract is the law.
ghost use Rattle.std.specs.Prelude.{◌≡◌, ◌≢◌, ◌⊎◌, ◌↔◌, ℕ, ◌≤◌, ◌<◌, ◌^◌, Bool, true, false, List, ◌∷◌, ◌++◌, None, Some, IsTrue};
ghost use Rattle.ba_core.specs.Messages.{notice_code};
ghost use Rattle.ba_core.specs.declared.codes.Code.TheVariants as code;
ghost use Rattle.ba_core.specs.declared.identifiers.Id.{Id};
ghost use Rattle.ba_core.specs.declared.notices.Notice.{Notice};
ghost use Rattle.ba_core.specs.declared.notices.Notice.TheVariants as notice;
ghost use Rattle.ba_core.specs.declared.protocols.Kind.{Kind};
ghost use Rattle.ba_core.specs.declared.protocols.Side.{Side};
ghost use Rattle.ba_core.specs.declared.protocols.Verdict.{Verdict};
ghost use Rattle.ba_link.specs.Outcomes.{is_outcome, outcome_kept};
ghost use Rattle.ba_message.specs.declared.endpoints.Epr.{Epr};
ghost use Rattle.ba_message.specs.declared.messages.Letter.{Letter};
ghost use Rattle.ba_message.specs.declared.messages.Message.TheVariants as message;
ghost use Rattle.ba_record.specs.Coding.{InRange};
ghost use Rattle.ba_record.specs.declared.records.Record.{Record};
ghost use Rattle.ba_record.specs.declared.records.Record.TheVariants as journal;
ghost use Rattle.ba_scope_ends.specs.Parts.{part_fits};
ghost use Rattle.ba_scope.specs.Fits.{ScopeFits, is_below_completed};
ghost use Rattle.ba_scope.specs.Scope.{ScopeState};
ghost use Rattle.ba_scope_ends.specs.declared.ends.End.{End};
ghost use Rattle.ba_scope_ends.specs.declared.parts.Part.{Part};
ghost use Rattle.ba_node_steps.specs.Addresses.{message_number, sender_of};
ghost use Rattle.ba_node_steps.specs.Fits.{HasSpareCounters, IsIdAt};
ghost use Rattle.ba_node_steps.specs.Lawful.{Replays};
ghost use Rattle.ba_node_steps.specs.Node.{Among, NodeState, counter};
ghost use Rattle.ba_node_steps.specs.Steps.{node_step};
ghost use Rattle.ba_node_steps.specs.declared.answers.Reply.TheVariants as reply;
ghost use Rattle.ba_node_steps.specs.declared.inputs.Input.TheVariants as input;
ghost use Rattle.ba_world_runs.specs.Headline.{IsEndFor, RecordsSay, WasTold};
ghost use Rattle.ba_world_runs.specs.Links.{HasEnd, HasOneLink, IsLink, LinksStay, LinksStep};
ghost use Rattle.ba_world_runs.specs.Records.{HasActed, RecordsOutcome, WasRecorded};
ghost use Rattle.ba_world_runs.specs.Runs.{IsRun, IsFirstWorld, WasCompleted, is_closing_state};
ghost use Rattle.ba_world_runs.specs.Safety.{IsAddressed, IsItsRecords, IsSafe, IsSound, IsSoundWorld, KeepsItsEnd};
ghost use Rattle.ba_world_runs.specs.Trees.{GenerationsFit, IsChild, IsKeptUnder, IsUnder, TreesFit};
ghost use Rattle.ba_world_runs.specs.Words.{HasWord, IsTheWord};
ghost use Rattle.ba_node_steps.specs.WordsTold.{word_told};
ghost use Rattle.ba_world_runs.specs.World.{Mail, Mode, Net, Occasion, PartAt, ScopeAt, World, is_closed, is_down, is_up, letter, net_of, node_at, participant_at};
ghost use Rattle.ba_world_runs.specs.WorldSteps.{BringsInput, IsPossible, MayStillBeTaken, Moves, Stays, Takes, WorldStep};

/// A step of a world leaves its states and messages, or is the step of one node, whose message joins the others or is lost. What was
/// sent, and the records of each node, only grow.
pub fn steps_move_a_net()
    ensures moves { (w w2 : World) → WorldStep w w2
        → (net_of w ≡ net_of w2) ⊎ ((k : ℕ) × (o : Occasion) × (joined : Bool) × Moves (net_of w) (net_of w2) k o joined) }
    ensures sent { (w w2 : World) → WorldStep w w2 → (more : List Mail) × (w2.bag ≡ w.bag ++ more) }
    ensures records { (w w2 : World) → WorldStep w w2 → (k : ℕ)
        → (more : List Record) × ((w2.nodes k).records ≡ (w.nodes k).records ++ more) }
{}

/// In each world of each run each node fits, its state is the replay of its records, and no other state is, and what is pending may still
/// be taken.
pub fn each_world_is_its_records()
    ensures step { (w w2 : World) → WorldStep w w2 → IsItsRecords w → IsItsRecords w2 }
    ensures run { (w : World) (before : List World) → IsRun (w ∷ before) → IsItsRecords w }
    ensures one { (w : World) (before : List World) → IsRun (w ∷ before) → (k : ℕ) (n : NodeState) → Replays (w.nodes k).records n
        → n ≡ (w.nodes k).state }
{}

/// Where each object is one and at its node, endpoints lead where they should, each message says where it comes from, each link is
/// as its moves make it, and trees fit, there it is safe: each participant was told only the one word that is recorded for it.
pub fn what_is_sound_is_safe()
    ensures { (w : Net) → IsSound w → IsSafe w }
{}

/// In each world of each run endpoints lead where they should, and each message says where it comes from: each end is that of a
/// participant's link, each participant keeps its own end, and each answer to a Register carries the end that it enrolled.
pub fn endpoints_lead_in_each_run()
    ensures step { (w w2 : World) → WorldStep w w2 → IsAddressed (net_of w) → IsAddressed (net_of w2) }
    ensures run { (w : World) (before : List World) → IsRun (w ∷ before) → IsAddressed (net_of w) }
{}

/// In each world of each run each end is the end of exactly one link, each participant keeps its own end as its coordinator, exactly
/// where it was enrolled, and each scope fits.
pub fn each_end_has_one_link()
    ensures ends { (w : World) (before : List World) → IsRun (w ∷ before) → (k : ℕ) (s : ScopeState) (e : End)
        → ScopeAt (net_of w) k s → Among s.ends e → HasOneLink (net_of w) k s e }
    ensures parts { (w : World) (before : List World) → IsRun (w ∷ before) → (j : ℕ) (p : Part) → PartAt (net_of w) j p
        → IsTrue (part_fits p) × KeepsItsEnd (net_of w) j p }
    ensures scopes { (w : World) (before : List World) → IsRun (w ∷ before) → (k : ℕ) (s : ScopeState) → ScopeAt (net_of w) k s
        → ScopeFits s }
{}

/// What is possible at a node that is up can happen; or its disk fails or its machine stops while the record is written, and the record
/// is pending. A record that is pending can be kept, or not; a machine can stop at any time, and a node can be loaded again, or fail to.
/// And there is a world to start from.
pub fn what_is_possible_can_happen()
    ensures happens { (w : World) (k : ℕ) (o : Occasion) → (w.nodes k).mode ≡ is_up → IsPossible (net_of w) k o
        → HasSpareCounters (w.nodes k).state → (w2 : World) × WorldStep w w2 × Takes w w2 k o true }
    ensures fails { (w : World) (k : ℕ) (o : Occasion) (mode : Mode) → (w.nodes k).mode ≡ is_up
        → (mode ≡ is_closed) ⊎ (mode ≡ is_down) → MayStillBeTaken w k o
        → (w2 : World) × WorldStep w w2 × Stays w w2 k (Some o) mode }
    ensures stops { (w : World) (k : ℕ) → (w2 : World) × WorldStep w w2 × Stays w w2 k (w.nodes k).pending is_down }
    ensures opens { (w : World) (k : ℕ) → (w2 : World) × WorldStep w w2 × Stays w w2 k None is_up }
    ensures fails_to_open { (w : World) (k : ℕ) → (w2 : World) × WorldStep w w2 × Stays w w2 k (w.nodes k).pending is_down }
    ensures kept { (w : World) (k : ℕ) (o : Occasion) → IsItsRecords w → (w.nodes k).pending ≡ Some o
        → (w2 : World) × WorldStep w w2 × Takes w w2 k o false }
    ensures starts { (base : ℕ → List ℕ) → ((k : ℕ) → 1 ≤ k → k < 2 ^ 32 → InRange (journal.Node k (base k)))
        → (w : World) × IsFirstWorld w }
{}

/// In each world of each run each child scope has the kind of its parent, and scopes can be put in an order in which each child stands
/// behind its parent: so no scope stands below itself.
pub fn children_follow_their_parents()
    ensures step { (w w2 : World) → WorldStep w w2 → IsAddressed (net_of w) → GenerationsFit (net_of w) → GenerationsFit (net_of w2) }
    ensures run { (w : World) (before : List World) → IsRun (w ∷ before) → GenerationsFit (net_of w) }
{}

/// Each move of a sound net keeps that trees fit: a child with a verdict has an end above it, and that end has the same verdict.
pub fn trees_stay_fit()
    ensures { (w w2 : Net) (k : ℕ) (o : Occasion) (joined : Bool) → Moves w w2 k o joined → IsSound w → TreesFit w2 }
{}

/// In a sound net each end of a root has its own verdict as its word; and each end that hangs below a child scope, at any depth, has
/// the word of the end that enrolled the child's own participant. An end has at most one word, and a verdict of its own is its word.
/// So it is in each world of each run.
pub fn words_come_down()
    ensures root { (w : Net) → IsSound w → (k : ℕ) (s : ScopeState) (e : End) (v : Verdict) → ScopeAt w k s → s.up ≡ None
        → Among s.ends e → HasWord w e.id.0 v ↔ (e.verdict ≡ Some v) }
    ensures atomic_child { (w : Net) → IsSound w → (l j : ℕ) (c r : ScopeState) (upward : Part) (over : End)
        → IsChild w l c upward j r → HasEnd w l upward r over → c.kind ≡ Kind.Atomic → (k : ℕ) (s : ScopeState) → IsUnder w l c k s
        → (e : End) (v : Verdict) → Among s.ends e → HasWord w e.id.0 v ↔ HasWord w over.id.0 v }
    ensures mixed_child { (w : Net) → IsSound w → (l j : ℕ) (c r : ScopeState) (upward : Part) (over : End)
        → IsChild w l c upward j r → HasEnd w l upward r over → c.kind ≡ Kind.Mixed → (k : ℕ) (s : ScopeState) → IsUnder w l c k s
        → (e : End) (v : Verdict) → Among s.ends e → HasWord w e.id.0 v ↔ HasWord w over.id.0 v }
    ensures one { (w : Net) → IsSound w → (id : ℕ) (v u : Verdict) → HasWord w id v → HasWord w id u → u ≡ v }
    ensures verdict { (w : Net) → IsSound w → (k : ℕ) (s : ScopeState) (e : End) (v : Verdict) → ScopeAt w k s → Among s.ends e
        → e.verdict ≡ Some v → HasWord w e.id.0 v }
    ensures root_in_run { (w : World) (before : List World) → IsRun (w ∷ before) → (k : ℕ) (s : ScopeState) (e : End) (v : Verdict)
        → ScopeAt (net_of w) k s → s.up ≡ None → Among s.ends e → HasWord (net_of w) e.id.0 v ↔ (e.verdict ≡ Some v) }
    ensures atomic_child_in_run { (w : World) (before : List World) → IsRun (w ∷ before) → (l j : ℕ) (c r : ScopeState)
        (upward : Part) (over : End) → IsChild (net_of w) l c upward j r → HasEnd (net_of w) l upward r over → c.kind ≡ Kind.Atomic
        → (k : ℕ) (s : ScopeState) → IsUnder (net_of w) l c k s → (e : End) (v : Verdict) → Among s.ends e
        → HasWord (net_of w) e.id.0 v ↔ HasWord (net_of w) over.id.0 v }
    ensures mixed_child_in_run { (w : World) (before : List World) → IsRun (w ∷ before) → (l j : ℕ) (c r : ScopeState)
        (upward : Part) (over : End) → IsChild (net_of w) l c upward j r → HasEnd (net_of w) l upward r over → c.kind ≡ Kind.Mixed
        → (k : ℕ) (s : ScopeState) → IsUnder (net_of w) l c k s → (e : End) (v : Verdict) → Among s.ends e
        → HasWord (net_of w) e.id.0 v ↔ HasWord (net_of w) over.id.0 v }
    ensures one_in_run { (w : World) (before : List World) → IsRun (w ∷ before) → (id : ℕ) (v u : Verdict) → HasWord (net_of w) id v
        → HasWord (net_of w) id u → u ≡ v }
    ensures verdict_in_run { (w : World) (before : List World) → IsRun (w ∷ before) → (k : ℕ) (s : ScopeState) (e : End) (v : Verdict)
        → ScopeAt (net_of w) k s → Among s.ends e → e.verdict ≡ Some v → HasWord (net_of w) e.id.0 v }
{}

/// In a sound net all ends of an AtomicOutcome tree have one word, which is its root's verdict. Where that is to close, each end below
/// no end that exits is completed, or closes, or exits. So it is in each world of each run.
pub fn atomic_trees_have_one_word()
    ensures word { (w : Net) → IsSound w → (l : ℕ) (root : ScopeState) → root.up ≡ None → root.kind ≡ Kind.Atomic → (k : ℕ)
        (s : ScopeState) → IsUnder w l root k s → (e : End) (v : Verdict) → Among s.ends e
        → HasWord w e.id.0 v ↔ (root.verdict ≡ Some v) }
    ensures ready { (w : Net) → IsSound w → (l : ℕ) (root : ScopeState) → root.up ≡ None → root.kind ≡ Kind.Atomic
        → root.verdict ≡ Some Verdict.Close → (k : ℕ) (s : ScopeState) → IsKeptUnder w l root k s → (e : End) → Among s.ends e
        → IsTrue (is_below_completed e.state) }
    ensures word_in_run { (w : World) (before : List World) → IsRun (w ∷ before) → (l : ℕ) (root : ScopeState) → root.up ≡ None
        → root.kind ≡ Kind.Atomic → (k : ℕ) (s : ScopeState) → IsUnder (net_of w) l root k s → (e : End) (v : Verdict)
        → Among s.ends e → HasWord (net_of w) e.id.0 v ↔ (root.verdict ≡ Some v) }
    ensures ready_in_run { (w : World) (before : List World) → IsRun (w ∷ before) → (l : ℕ) (root : ScopeState) → root.up ≡ None
        → root.kind ≡ Kind.Atomic → root.verdict ≡ Some Verdict.Close → (k : ℕ) (s : ScopeState) → IsKeptUnder (net_of w) l root k s
        → (e : End) → Among s.ends e → IsTrue (is_below_completed e.state) }
{}

/// In a sound net no notice that was sent is answered by InvalidState where it leads. So it is in each world of each run.
pub fn notices_are_in_place()
    ensures net { (w : Net) → IsSound w → (k now : ℕ) (l : Letter) (side : Side) (id : Id) (n : Notice) → Among w.bag (letter l)
        → BringsInput (node_at w k) (letter l) (input.Notice side id n)
        → (node_step (node_at w k) now (input.Notice side id n)).reply ≢ reply.SoapFault code.InvalidState }
    ensures run { (w : World) (before : List World) → IsRun (w ∷ before) → (k now : ℕ) (l : Letter) (side : Side) (id : Id) (n : Notice)
        → Among w.bag (letter l) → BringsInput (w.nodes k).state (letter l) (input.Notice side id n)
        → (node_step (w.nodes k).state now (input.Notice side id n)).reply ≢ reply.SoapFault code.InvalidState }
{}

/// In each run an end that closes, or has closed, was Completed in an earlier world; and each Close that was ever sent is that of an end
/// which was.
pub fn what_closes_was_completed()
    ensures state { (w : World) (before : List World) → IsRun (w ∷ before) → (k : ℕ) (s : ScopeState) (e : End)
        → ScopeAt (net_of w) k s → Among s.ends e → IsTrue (is_closing_state e.state) → WasCompleted before e.id }
    ensures told { (w : World) (before : List World) → IsRun (w ∷ before) → (l : Letter) → Among w.bag (letter l)
        → l.message ≡ message.Notice notice.Close
        → (k : ℕ) × (s : ScopeState) × (e : End) × ScopeAt (net_of w) k s × Among s.ends e × (sender_of l.number ≡ e.id.0)
        × WasCompleted before e.id }
{}

/// In each run the records of a node say that an end received Fail, Exit or CannotComplete exactly where such a notice, which had been
/// sent, was delivered to the end in a state whose row for it leads to another state, and the record of that step was kept. And each
/// such notice that was ever sent is that of a participant which did so before, by a step whose record was kept. The end's state keeps
/// what was recorded for it, and no step records another outcome there, or the same again.
pub fn outcomes_are_recorded()
    ensures received { (w : World) (before : List World) → IsRun (w ∷ before) → (k : ℕ) (id : Id) (n : Notice) → IsIdAt k id
        → IsTrue (is_outcome n) → Among (w.nodes k).records (journal.Received (counter id) n) ↔ WasRecorded (w ∷ before) k id n }
    ensures acted { (w : World) (before : List World) → IsRun (w ∷ before) → (l : Letter) (n : Notice) → Among w.bag (letter l)
        → l.message ≡ message.Notice n → IsTrue (is_outcome n) → (j : ℕ) × (p : Part) × PartAt (net_of w) j p
        × (l.number ≡ message_number (notice_code n) p.id) × HasActed (w ∷ before) j p.id n }
    ensures kept { (w : World) (before : List World) → IsRun (w ∷ before) → (k : ℕ) (id : Id) (n : Notice)
        → WasRecorded (w ∷ before) k id n → (s : ScopeState) (e : End) → ScopeAt (net_of w) k s → Among s.ends e → e.id ≡ id
        → outcome_kept e.state ≡ Some n }
    ensures once { (w w2 : World) (before : List World) → IsRun (w ∷ before) → (k : ℕ) (id : Id) (n m : Notice)
        → WasRecorded (w ∷ before) k id n → RecordsOutcome w w2 k id m → ⊥ }
{}

/// Each link moves by its table: after a move of a sound net each link comes from that of the same participant and scope before it, by at
/// most two moves, or its participant is new, and it begins; and each link before the move is there after it. So it is with each step in
/// each run.
pub fn each_link_moves_by_its_table()
    ensures net { (w w2 : Net) (k : ℕ) (o : Occasion) (joined : Bool) → Moves w w2 k o joined → IsSound w → LinksStep w w2 }
    ensures run { (w w2 : World) (before : List World) → IsRun (w ∷ before) → WorldStep w w2 → LinksStep (net_of w) (net_of w2) }
    ensures stays { (w w2 : Net) (k : ℕ) (o : Occasion) (joined : Bool) → Moves w w2 k o joined → IsSound w → LinksStay w w2 }
    ensures stays_in_run { (w w2 : World) (before : List World) → IsRun (w ∷ before) → WorldStep w w2
        → LinksStay (net_of w) (net_of w2) }
{}

/// Every step of a sound world leaves it sound: whatever is given, delivered, repeated or lost, whichever node ticks, stops or is loaded
/// again, with the record that was pending or without it.
pub fn every_step_is_safe()
    ensures { (w w2 : World) → WorldStep w w2 → IsSoundWorld w → IsSoundWorld w2 }
{}

/// Each world of each run is sound, and so it is safe: a Close, Cancel or Compensate that was ever sent to a participant tells the one
/// word that is recorded for its end.
pub fn every_run_is_safe()
    ensures sound { (w : World) (before : List World) → IsRun (w ∷ before) → IsSoundWorld w }
    ensures safe { (w : World) (before : List World) → IsRun (w ∷ before) → IsSafe (net_of w) }
    ensures told { (w : World) (before : List World) → IsRun (w ∷ before) → (j k : ℕ) (p : Part) (s : ScopeState) (e : End) (l : Letter)
        (n : Notice) (v : Verdict) → IsLink (net_of w) j p k s → HasEnd (net_of w) j p s e → Among w.bag (letter l)
        → l.to ≡ participant_at (net_of w) j p.id → l.message ≡ message.Notice n → word_told n ≡ Some v
        → IsTheWord (net_of w) e.id.0 v }
{}

/// The headline. In each run no two letters that ever went to one endpoint tell two outcomes. What was told there is the verdict that
/// a node's records keep for the end of that participant; Close was told only after that end was Completed; and in a tree of type
/// AtomicOutcome each participant was told the verdict of the root, so all were told one.
pub fn no_participant_learns_two_outcomes()
    ensures one { (w : World) (before : List World) → IsRun (w ∷ before) → (to : Epr) (v u : Verdict) → WasTold w to v → WasTold w to u
        → v ≡ u }
    ensures recorded { (w : World) (before : List World) → IsRun (w ∷ before) → (to : Epr) (v : Verdict) → WasTold w to v
        → (k : ℕ) × RecordsSay (w.nodes k).records to v }
    ensures completed { (w : World) (before : List World) → IsRun (w ∷ before) → (to : Epr) → WasTold w to Verdict.Close
        → (k : ℕ) × (s : ScopeState) × (e : End) × IsEndFor (w.nodes k).state s e to × WasCompleted before e.id }
    ensures tree { (w : World) (before : List World) → IsRun (w ∷ before) → (l k : ℕ) (root s : ScopeState) (e : End) (to : Epr)
        (v : Verdict) → root.up ≡ None → root.kind ≡ Kind.Atomic → IsUnder (net_of w) l root k s → IsEndFor (w.nodes k).state s e to
        → WasTold w to v → root.verdict ≡ Some v }
{}
