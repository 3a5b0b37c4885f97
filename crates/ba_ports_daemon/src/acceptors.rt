//! Connections that come in.
ghost use Rattle.std.specs.Prelude.{◌≡◌, ◌≢◌, ℕ, Bool, List, Option, Some, None, Ok, IsTrue, IfOk, IfSome, OnErr};
ghost use Rattle.ba_ports.specs.Causes.{CountsFailures};
ghost use Rattle.ba_ports_daemon.specs.Told.{Remains, Gains, GivesNext, CountsOne, CountsBack, IsFresh};

use ba_ports::{Failed, Link};

/// What gives the connections that come in.
pub trait Acceptor {
    type Link: Link;

    // The links that it will still give, in their order, where it tells them.
    ghost coming: { Self → Option (List Self.Link) };
    // The links that were taken back, where it tells them.
    ghost back: { Self → Option (List Self.Link) };
    // How many links are out, that is given and not taken back, where it tells that.
    ghost out: { Self → Option ℕ };
    // There are no more connections. Only accept changes it.
    ghost has_ended: { Self → Bool };
    // How often it has failed.
    ghost faults: { Self → ℕ };

    /// The next connection, or None where there are no more.
    fn accept(&mut self) -> Result<Option<Self::Link>, Failed>
        ensures given { GivesNext (coming self.old) (coming self.new) result }
        ensures fresh { IfOk result (λ next. IfSome next (λ link. IsFresh (Self.Link.faults link) (Self.Link.written link))) }
        ensures out { IfOk result (λ next. IfSome next (λ link. CountsOne (out self.old) (out self.new))) }
        ensures same { OnErr result (out self.new ≡ out self.old) }
        ensures none { result ≡ Ok None → out self.new ≡ out self.old }
        ensures others { Remains (back self.old) (back self.new) }
        ensures ended { result ≡ Ok None → IsTrue (has_ended self.new) }
        ensures goes_on { OnErr result (has_ended self.new ≡ has_ended self.old) }
        ensures for_good { IsTrue (has_ended self.old) → IsTrue (has_ended self.new) }
        ensures no_more { IsTrue (has_ended self.old) → IfOk result (λ next. next ≡ None) }
        ensures cause { CountsFailures (faults self.old) (faults self.new) result };

    /// Takes a connection back that it gave.
    fn done(&mut self, link: Self::Link)
        requires { out self.old ≢ Some 0 }
        ensures back { Gains (back self.old) (back self.new) link }
        ensures out { CountsBack (out self.old) (out self.new) }
        ensures others { Remains (coming self.old) (coming self.new) }
        ensures ended { has_ended self.new ≡ has_ended self.old }
        ensures cause { faults self.new ≡ faults self.old };

    /// How often it has failed; the greatest u64 stands for that many or more.
    fn faults(&self) -> u64
        ensures { result ≡ faults self.now };
}
