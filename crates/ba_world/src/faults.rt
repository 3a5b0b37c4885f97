//! Why an event of a world wasn't played.

use ba_core::Memory;
use ba_world_play::Missing;
use thiserror::Error;

/// Why an event wasn't played.
#[derive(Clone, Copy, Debug, PartialEq, Eq, Error)]
pub enum StepFault {
    /// There was no memory, and the world isn't used again.
    #[error("out of memory")]
    Memory,
    /// The event names what isn't there; nothing has changed.
    #[error("{0}")]
    Missing(Missing),
}

impl From<Memory> for StepFault {
    ghost use Rattle.std.specs.Prelude.{◌≡◌};
    ghost use Rattle.ba_world.specs.declared.faults.StepFault.TheVariants as fault;

    ghost from_gives = { λ _ e. e ≡ fault.Memory };

    fn from(_e: Memory) -> StepFault {
        StepFault::Memory
    }
}
