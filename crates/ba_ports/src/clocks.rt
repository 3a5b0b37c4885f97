//! What says the time.
ghost use Rattle.std.specs.Prelude.{◌≡◌, ◌+◌, ◌-◌, ◌^◌, min};
ghost use Rattle.ba_ports.specs.declared.clocks.Moment.{Moment};

/// A moment, in milliseconds since 1970.
#[derive(Clone, Copy, Debug, PartialEq, Eq, PartialOrd, Ord)]
pub struct Moment(pub u64);

impl Moment {
    /// How many milliseconds it comes after the other; 0 where it doesn't.
    pub fn since(self, earlier: Moment) -> u64
        ensures { result ≡ self.0 - earlier.0 }
    {
        self.0.saturating_sub(earlier.0)
    }

    /// The moment so many milliseconds later, or the greatest there is.
    pub fn after(self, milliseconds: u64) -> Moment
        ensures { result.0 ≡ min (self.0 + milliseconds) (2 ^ 64 - 1) }
    {
        Moment(self.0.saturating_add(milliseconds))
    }
}

/// A clock.
pub trait Clock {
    // The clock gives this moment.
    ghost gives: { Self → Moment → Type 0 };

    /// A moment that the clock gives.
    fn now(&self) -> Moment
        ensures { gives self.now result };

    /// Lets so many milliseconds go by.
    fn pause(&self, milliseconds: u64);
}
