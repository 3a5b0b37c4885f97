//! Laws of steps. Each function does nothing: its contract is the law.
ghost use Rattle.std.specs.Prelude.{◌≡◌, ◌≢◌, ◌↔◌, ◌+◌, ◌*◌, ◌≤◌, ℕ, List, [], ◌∷◌, ◌++◌, length, None, Some, IsTrue, is_some};
ghost use Rattle.std.specs.List.{AllByRecursion};
ghost use Rattle.std.specs.Option.{option_map, option_to_list};
ghost use Rattle.ba_core.specs.declared.codes.Code.TheVariants as code;
ghost use Rattle.ba_core.specs.declared.identifiers.Id.{Id};
ghost use Rattle.ba_core.specs.declared.notices.Act.TheVariants as act;
ghost use Rattle.ba_core.specs.declared.notices.Notice.TheVariants as notice;
ghost use Rattle.ba_core.specs.declared.protocols.Kind.TheVariants.{Atomic, Mixed};
ghost use Rattle.ba_core.specs.declared.protocols.Verdict.{Verdict};
ghost use Rattle.ba_core.specs.declared.protocols.Verdict.TheVariants.{Close, Undo};
ghost use Rattle.ba_core.specs.declared.states.CState.TheVariants as end;
ghost use Rattle.ba_core.specs.declared.states.How.{How};
ghost use Rattle.ba_core.specs.declared.states.How.TheVariants.{Failed};
ghost use Rattle.ba_core.specs.declared.states.PState.TheVariants as part;
ghost use Rattle.ba_message.specs.Letters.{IsPostable};
ghost use Rattle.ba_message.specs.declared.addresses.TheConstants.{MOST_ADDRESS_BYTES};
ghost use Rattle.ba_message.specs.declared.messages.Letter.{Letter};
ghost use Rattle.ba_message.specs.declared.messages.Message.TheVariants as message;
ghost use Rattle.ba_record.specs.Coding.{InRange};
ghost use Rattle.ba_record.specs.Endpoints.{IsBase};
ghost use Rattle.ba_record.specs.declared.records.Record.{Record};
ghost use Rattle.ba_record.specs.declared.records.Record.TheVariants as journal;
ghost use Rattle.ba_scope.specs.Scope.{ScopeState};
ghost use Rattle.ba_scope_ends.specs.declared.ends.End.{End};
ghost use Rattle.ba_scope_ends.specs.declared.parts.Part.{Part};
ghost use Rattle.ba_core.specs.declared.refusals.TheConstants.{ALREADY_DECIDED, NOT_READY};
ghost use Rattle.ba_node_steps.specs.Addresses.{HasText, coordinator_of, hyphenated, participant_of, registration_of, sender_of};
ghost use Rattle.ba_node_steps.specs.Endpoints.{AllReachable, GivesFit};
ghost use Rattle.ba_node_steps.specs.Examples.{node_after, after_records, all_written, child_is_made, fails_below, first_base, first_completes, first_node, object, own_choices, register_below, register_of, reply_to, second_exits, second_node, shown_ends, shown_scopes};
ghost use Rattle.ba_node_steps.specs.Fits.{HasSpareCounters, NodeFits};
ghost use Rattle.ba_node_steps.specs.Histories.{HadCompleted, Happening, HasCounters, HasEndAt, HasEndVerdict, HasOneWord, HasPartIn, HasScopeVerdict, IsTold, TellsItsVerdict, consequence, has_completed, letters_of, node_then, states_of, written_by};
ghost use Rattle.ba_node_steps.specs.Lawful.{AreFew, AreLawful, Event, IsStepOf, Replays, after_record, change, event_of};
ghost use Rattle.ba_node_steps.specs.Letters.{IsLetterOf};
ghost use Rattle.ba_node_steps.specs.Node.{Among, HasPart, NodeState, SameNode, counter, last, new_node};
ghost use Rattle.ba_node_steps.specs.Tellings.{two_closes, two_undone};
ghost use Rattle.ba_node_steps.specs.Routing.{identifier_in, identifier_of_text};
ghost use Rattle.ba_node_steps.specs.Replies.{HasFitTime, IsAnswerable};
ghost use Rattle.ba_node_steps.specs.Steps.{node_step};
ghost use Rattle.ba_node_steps.specs.Ticks.{tick_step};
ghost use Rattle.ba_node_steps.specs.WordsTold.{word_in};
ghost use Rattle.ba_node_steps.specs.declared.answers.Reply.TheVariants as reply;
ghost use Rattle.ba_node_steps.specs.declared.inputs.Input.TheVariants as input;
ghost use Rattle.ba_node_steps.specs.declared.inputs.Input.{Input};

/// A step that keeps no record leaves the node as it is, and one that leaves it so keeps none.
pub fn steps_without_a_record_change_nothing()
    ensures { (n : NodeState) (e : Event) → ((change n e).written ≡ None) ↔ ((change n e).after ≡ n) }
{}

/// A node fits as it begins, without objects; and one that fits, and has counters left for what a step makes, fits after
/// each step, which makes at most two objects. It stays the same node.
pub fn steps_keep_a_node_fit()
    ensures new { (number : ℕ) (base : List ℕ) → NodeFits (new_node number base) }
    ensures step { (n : NodeState) (e : Event) → HasSpareCounters n → NodeFits n → NodeFits (change n e).after }
    ensures few { (n : NodeState) (e : Event) → HasSpareCounters n → NodeFits n → last (change n e).after ≤ last n + 2 }
    ensures node { (n : NodeState) (e : Event) → SameNode n (change n e).after }
{}

/// Each endpoint that a node keeps can be written to, where those that it is given fit: it asks itself whether they can be
/// dialed.
pub fn steps_keep_endpoints_reachable()
    ensures new { (number : ℕ) (base : List ℕ) → AllReachable (new_node number base) }
    ensures step { (n : NodeState) (e : Event) → GivesFit e → AllReachable n → AllReachable (change n e).after }
{}

/// The letter of a tick goes to an endpoint that can be written to, is a notice or the Register of the participant that
/// sends it, and tells its sender by its number.
pub fn letters_tell_their_senders()
    ensures { (n : NodeState) (now : ℕ) (id : Id) (l : Letter) → AllReachable n
        → (tick_step n now id).letter ≡ Some l → IsLetterOf n id l }
{}

/// What a step writes down is in the ranges of records, where the endpoints that it is given fit.
pub fn what_is_written_is_in_range()
    ensures { (n : NodeState) (e : Event) (r : Record) → HasSpareCounters n → NodeFits n → GivesFit e
        → (change n e).written ≡ Some r → InRange r }
{}

/// At a node that fits a record tells its step: what happened, enacted again, leads to a node exactly where some step that
/// keeps the record leads to it.
pub fn a_record_tells_its_step()
    ensures step { (n : NodeState) (r : Record) (after : NodeState) → NodeFits n → InRange r
        → after_record n r ≡ Some after → IsStepOf n r after }
    ensures told { (n : NodeState) (r : Record) (after : NodeState) → NodeFits n
        → IsStepOf n r after → after_record n r ≡ Some after }
{}

/// A node that is the replay of its records stays so with what a step keeps.
pub fn replays_go_on()
    ensures { (records : List Record) (n : NodeState) (e : Event) → Replays records n
        → Replays (records ++ option_to_list (change n e).written) (change n e).after }
{}

/// A lawful list of records that are in their ranges, and few enough, has one replay, which fits; and it goes on to be lawful
/// with exactly the records that `after_record` takes.
pub fn a_lawful_list_has_one_replay()
    ensures fits { (records : List Record) (n : NodeState) → AllByRecursion InRange records → AreFew records
        → Replays records n → NodeFits n }
    ensures one { (records : List Record) (n m : NodeState) → AllByRecursion InRange records → AreFew records
        → Replays records n → Replays records m → n ≡ m }
    ensures goes_on { (records : List Record) (n : NodeState) (r : Record) → AllByRecursion InRange records → AreFew records
        → Replays records n → InRange r → IsTrue (is_some (after_record n r)) ↔ AreLawful (records ++ r ∷ []) }
{}

/// An address tells the object that is found there, whatever the bases of two nodes, and an end's address is no participant's.
pub fn addresses_tell_objects_apart()
    ensures scopes { (base other : List ℕ) (a b : Id) → HasText a → HasText b
        → registration_of base a ≡ registration_of other b → a ≡ b }
    ensures ends { (base other : List ℕ) (a b : Id) → HasText a → HasText b
        → coordinator_of base a ≡ coordinator_of other b → a ≡ b }
    ensures participants { (base other : List ℕ) (a b : Id) → HasText a → HasText b
        → participant_of base a ≡ participant_of other b → a ≡ b }
    ensures sides { (base other : List ℕ) (a b : Id) → coordinator_of base a ≢ participant_of other b }
{}

/// An identifier's text tells it, and nothing else is read as one.
pub fn texts_tell_identifiers()
    ensures its { (text : List ℕ) (id : Id) → identifier_of_text text ≡ Some id → text ≡ hyphenated id.0 }
    ensures read { (id : Id) → HasText id → identifier_of_text (hyphenated id.0) ≡ Some id }
{}

/// The end of an object's address tells the object, whatever the base of the node.
pub fn addresses_end_with_their_objects()
    ensures scopes { (base : List ℕ) (id : Id) → HasText id → identifier_in (registration_of base id).address ≡ Some id }
    ensures ends { (base : List ℕ) (id : Id) → HasText id → identifier_in (coordinator_of base id).address ≡ Some id }
    ensures participants { (base : List ℕ) (id : Id) → HasText id → identifier_in (participant_of base id).address ≡ Some id }
{}

/// An AtomicOutcome root with two participants, of which the first completed, isn't closed before the second exited.
pub fn one_exits_one_closes()
    ensures not_yet { reply_to (node_after first_node (first_completes Atomic)) (input.Decide (object 1 1) Close)
        ≡ reply.Refused NOT_READY (object 1 3) }
    ensures closes { shown_ends (node_after first_node (first_completes Atomic ++ second_exits))
        ≡ (((object 1 2).0, end.Closing, Some Close) ∷ ((object 1 3).0, end.Exiting, Some Close) ∷ []) ∷ [] }
{}

/// After the verdict a participant that was enrolled before has the same end, and another one is refused for good.
pub fn late_register_is_refused()
    ensures again { reply_to (node_after first_node (first_completes Atomic ++ second_exits)) (register_of 1)
        ≡ reply.Enrolment (coordinator_of first_base (object 1 2)) }
    ensures late { reply_to (node_after first_node (first_completes Atomic ++ second_exits)) (register_of 3)
        ≡ reply.SoapFault code.CannotRegisterParticipant }
{}

/// Each end of a MixedOutcome root has a verdict of its own, once.
pub fn each_end_its_own_choice()
    ensures chosen { shown_ends (node_after first_node (first_completes Mixed ++ own_choices))
        ≡ (((object 1 2).0, end.Closing, Some Close) ∷ ((object 1 3).0, end.Canceling, Some Undo) ∷ []) ∷ [] }
    ensures once { reply_to (node_after first_node (first_completes Mixed ++ own_choices)) (input.Choose (object 1 3) Close)
        ≡ reply.Refused ALREADY_DECIDED (object 1 3) }
{}

/// A child that is told to compensate fails above where its end failed; before it is enrolled it enrols nobody. Its ten
/// records lead to what it shows.
pub fn fail_climbs_a_tree()
    ensures not_yet { reply_to (node_after second_node (child_is_made ∷ [])) register_below ≡ reply.SoapFault code.EndpointUnavailable }
    ensures below { shown_ends (node_after second_node fails_below) ≡ (((object 2 3).0, end.Ended Failed, Some Undo) ∷ []) ∷ [] }
    ensures above { shown_scopes (node_after second_node fails_below) ≡ (Some Undo, part.FailingCompensating ∷ []) ∷ [] }
    ensures records { length (all_written second_node fails_below) ≡ 10 }
    ensures below_again { option_map shown_ends (after_records (Some second_node) (all_written second_node fails_below))
        ≡ Some ((((object 2 3).0, end.Ended Failed, Some Undo) ∷ []) ∷ []) }
    ensures above_again { option_map shown_scopes (after_records (Some second_node) (all_written second_node fails_below))
        ≡ Some ((Some Undo, part.FailingCompensating ∷ []) ∷ []) }
{}

/// What a record in its ranges gives when its step is enacted again fits, so that the node after it keeps no endpoint that
/// can't be written to.
pub fn a_record_gives_what_fits()
    ensures fits { (n : NodeState) (r : Record) (e : Event) → InRange r → event_of n r ≡ Some e → GivesFit e }
    ensures reachable { (n : NodeState) (r : Record) (after : NodeState) → InRange r → AllReachable n
        → after_record n r ≡ Some after → AllReachable after }
{}

/// A replay has at most two objects for each of its records.
pub fn a_replay_has_few_objects()
    ensures { (records : List Record) (n : NodeState) → AllByRecursion InRange records → AreFew records
        → Replays records n → last n ≤ 2 * length records }
{}

/// Whatever arrives at a node, whoever sends it, and wherever the node stops: the verdict of a scope and of an end stays, once it
/// is there. An end tells its participant that verdict alone, which is its scope's but in a MixedOutcome root, and Close only after
/// the end was Completed. So no two participants of a scope whose ends have one word are ever told two words.
pub fn each_node_keeps_its_word()
    ensures scopes { (number : ℕ) (base : List ℕ) (more past : List Happening) (s : ScopeState) (v : Verdict)
        → HasCounters number (more ++ past) → Among (node_then number base past).scopes s → s.verdict ≡ Some v
        → HasScopeVerdict (node_then number base (more ++ past)) s.id v }
    ensures ends { (number : ℕ) (base : List ℕ) (more past : List Happening) (s : ScopeState) (e : End) (v : Verdict)
        → HasCounters number (more ++ past) → HasEndAt (node_then number base past) e.id s e → e.verdict ≡ Some v
        → HasEndVerdict (node_then number base (more ++ past)) s.id e.id v }
    ensures told { (number : ℕ) (base : List ℕ) (past : List Happening) (l : Letter) (v : Verdict) → HasCounters number past
        → Among (letters_of number base past) l → word_in l.message ≡ Some v
        → TellsItsVerdict (node_then number base past) l v }
    ensures one { (number : ℕ) (base : List ℕ) (past : List Happening) (id : Id) (v u : Verdict) → HasCounters number past
        → IsTold (letters_of number base past) id v → IsTold (letters_of number base past) id u → v ≡ u }
    ensures one_in_scope { (number : ℕ) (base : List ℕ) (past : List Happening) (s : ScopeState) (e f : End) (v u : Verdict)
        → HasCounters number past → Among (node_then number base past).scopes s → HasOneWord s → Among s.ends e → Among s.ends f
        → IsTold (letters_of number base past) e.id v → IsTold (letters_of number base past) f.id u → v ≡ u }
    ensures completed { (number : ℕ) (base : List ℕ) (past : List Happening) (h : Happening) (l : Letter)
        → HasCounters number (h ∷ past) → (consequence (node_then number base past) h).letter ≡ Some l
        → l.message ≡ message.Notice notice.Close → HadCompleted (states_of number base past) (sender_of l.number) }
    ensures close { HasCounters 1 two_closes × IsTold (letters_of 1 first_base two_closes) (object 1 2) Close
        × IsTold (letters_of 1 first_base two_closes) (object 1 3) Close }
    ensures undo { HasCounters 1 two_undone × IsTold (letters_of 1 first_base two_undone) (object 1 2) Undo
        × IsTold (letters_of 1 first_base two_undone) (object 1 3) Undo }
{}

/// A base has at most 268 bytes: its scheme, a host, and a port. So each leaves room in an address for the path of an object.
pub fn bases_are_short()
    ensures short { (base : List ℕ) → IsBase base → length base ≤ 268 }
    ensures room { (base : List ℕ) → IsBase base → (id : Id) → length (registration_of base id).address ≤ MOST_ADDRESS_BYTES }
{}

/// What a node says can be written as an envelope: its letters, and its replies that are messages.
pub fn what_a_node_says_can_be_written()
    ensures letters { (n : NodeState) (id : Id) (l : Letter) → IsBase n.base → IsLetterOf n id l → IsPostable l }
    ensures replies { (n : NodeState) (now : ℕ) (i : Input) → IsBase n.base → HasFitTime i → IsAnswerable (node_step n now i).reply }
{}

/// Whatever arrives at a node: how a participant ended never changes, and one that closes or compensates, or has, completed by an
/// act of its own before, whose record the node kept. The node is the replay of the records that it kept: so a reload changes nothing.
pub fn each_participant_keeps_its_outcome()
    ensures ended { (number : ℕ) (base : List ℕ) (more past : List Happening) (p : Part) (how : How) → HasCounters number (more ++ past)
        → HasPart (node_then number base past) p → p.state ≡ part.Ended how
        → HasPartIn (node_then number base (more ++ past)) p.id (part.Ended how) }
    ensures completed { (number : ℕ) (base : List ℕ) (past : List Happening) (p : Part) → HasCounters number past
        → HasPart (node_then number base past) p → IsTrue (has_completed p.state)
        → Among (written_by number base past) (journal.Acted (counter p.id) act.Completed) }
    ensures replay { (number : ℕ) (base : List ℕ) (past : List Happening)
        → Replays (written_by number base past) (node_then number base past) }
{}
