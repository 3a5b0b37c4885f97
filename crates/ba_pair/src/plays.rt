//! The law of all plays of a pair.
ghost use Rattle.std.specs.Prelude.{List};
ghost use Rattle.ba_core.specs.declared.protocols.Protocol.{Protocol};
ghost use Rattle.ba_pair.specs.PairState.{starting_pair};
ghost use Rattle.ba_pair.specs.PairPlay.{Numbered, play, IsSafePlay};

/// In every play, whatever its events, the two sides stay among the possible pairs, each message in the bag
/// says what holds, nothing arrives out of place, and outcomes are recorded once.
pub fn plays_stay_safe()
    ensures { (protocol : Protocol) (events : List Numbered) → IsSafePlay (play (starting_pair protocol) events) }
{}
