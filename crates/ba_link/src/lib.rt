//! One link of an activity, between a coordinator's end and a participant: its moves, what fits it, and the
//! laws that it fits as it begins, that every move keeps it so, and that nothing arrives out of place. It holds
//! definitions and laws, and nothing that runs.
#![tactic(auto)]

ghost use Rattle.std.specs.Prelude.{◌≡◌, ◌≢◌, Bool, List, IsTrue, Contains};
ghost use Rattle.std.specs.List.{AllByRecursion};
ghost use Rattle.ba_core.specs.Messages.{is_column};
ghost use Rattle.ba_core.specs.declared.notices.Notice.{Notice};
ghost use Rattle.ba_core.specs.declared.protocols.Protocol.{Protocol};
ghost use Rattle.ba_core.specs.declared.states.PState.{PState};
ghost use Rattle.ba_link.specs.Link.{Link, LinkStep, Message, register, registering_link, active_link, to_part, to_end};
ghost use Rattle.ba_link.specs.Fits.{LinkFits, HasPartRow, HasEndRow};

/// A link that begins fits: where its participant is Registering and nothing but its Registers was sent, and where
/// both sides are Active and nothing was sent.
pub fn links_begin_possible()
    ensures registering { (protocol : Protocol) (sealed : Bool) (sent : List Message) → AllByRecursion (λ m. m ≡ register) sent
        → LinkFits (registering_link protocol sealed sent) }
    ensures active { (protocol : Protocol) (sealed : Bool) → LinkFits (active_link protocol sealed) }
{}

/// Each move of a link that fits leads to a link that fits, whether its message goes out or not.
pub fn links_stay_possible()
    ensures { (before after : Link) → LinkStep before after → LinkFits before → LinkFits after }
{}

/// A notice that was sent on a link that fits has a row at its receiver. (A participant that is still
/// Registering takes no notice by the table.)
pub fn nothing_out_of_place()
    ensures part { (link : Link) (n : Notice) → LinkFits link → Contains link.sent (to_part n)
        → IsTrue (is_column n) → link.state.part ≢ PState.Registering → HasPartRow link.state n }
    ensures end { (link : Link) (n : Notice) → LinkFits link → Contains link.sent (to_end n)
        → IsTrue (is_column n) → HasEndRow link.state n }
{}
