//! A clock that stands still.
ghost use Rattle.std.specs.Prelude.{◌≡◌};

use ba_ports::{Clock, Moment};

/// A clock that gives one moment alone.
#[derive(Clone, Copy, Debug)]
pub struct FixedClock {
    moment: Moment,
}

impl FixedClock {
    /// A clock that gives this moment.
    pub fn of(now: Moment) -> FixedClock
        ensures { result.moment ≡ now }
    {
        FixedClock { moment: now }
    }
}

impl Clock for FixedClock {
    ghost gives = { λ clock moment. moment ≡ clock.moment };

    fn now(&self) -> Moment {
        self.moment
    }

    /// Returns at once.
    fn pause(&self, _milliseconds: u64) {}
}
