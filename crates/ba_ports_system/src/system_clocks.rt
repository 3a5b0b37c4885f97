//! The clock of the operating system.
ghost use Rattle.std.specs.Prelude.{◌≡◌};

use ba_ports::{Clock, Moment};
use std::time::{Duration, Instant};
use std::{thread, time};

/// A clock that was set by the system's when it was made, so that a moment means the same after a restart, and goes
/// on evenly since: it doesn't follow when the system's is set.
#[derive(Clone, Copy)]
pub struct SystemClock<R> {
    runtime: R,
    begun: Moment,
    since: Option<Instant>,
}

impl<R: time::Clock> SystemClock<R> {
    /// The clock of this runtime. Where the system's clock can't be read it begins at 0.
    pub fn of(runtime: R) -> SystemClock<R>
        ensures { result.runtime ≡ runtime }
    {
        let begun = match runtime.since_1970() {
            Ok(time) => u64::try_from(time.as_millis()).unwrap_or(u64::MAX),
            Err(_) => 0,
        };
        let since = Instant::now(&runtime).ok();
        SystemClock {
            runtime,
            begun: Moment(begun),
            since,
        }
    }
}

impl<R: time::Clock> Clock for SystemClock<R> {
    ghost gives = { λ _ _. Unit {0} };

    /// Where the time since then can't be read, the moment at which it began.
    fn now(&self) -> Moment {
        let Some(since) = self.since else {
            return self.begun;
        };
        match since.elapsed(&self.runtime) {
            Ok(gone) => self
                .begun
                .after(u64::try_from(gone.as_millis()).unwrap_or(u64::MAX)),
            Err(_) => self.begun,
        }
    }

    fn pause(&self, milliseconds: u64) {
        thread::sleep(&self.runtime, Duration::from_millis(milliseconds))
    }
}
