//! Connections that are made.
ghost use Rattle.std.specs.Prelude.{◌≡◌, ◌≢◌, ℕ, ◌<◌, List, Option, Some, IfOk, OnErr};
ghost use Rattle.ba_message.specs.Addresses.{IsDialable};
ghost use Rattle.ba_ports.specs.Causes.{CountsFailures};
ghost use Rattle.ba_ports_daemon.specs.Told.{count_after};
ghost use Rattle.ba_ports_daemon.specs.Told.{Remains, Gains, GivesOne, CountsOne, CountsBack, IsFresh};

use ba_ports::{Failed, Link};

/// What makes connections.
pub trait Dialer {
    type Link: Link;

    // The links that it will still give, in their order, where it tells them.
    ghost coming: { Self → Option (List Self.Link) };
    // The links that were taken back, where it tells them.
    ghost back: { Self → Option (List Self.Link) };
    // How many links are out, that is given and not taken back, where it tells that.
    ghost out: { Self → Option ℕ };
    // How often it has failed. A link that has failed counts when it is taken back.
    ghost faults: { Self → ℕ };

    /// A connection to this address.
    fn dial(&mut self, address: &[u8]) -> Result<Self::Link, Failed>
        requires { IsDialable address.now }
        ensures given { GivesOne (coming self.old) (coming self.new) result }
        ensures fresh { IfOk result (λ link. IsFresh (Self.Link.faults link) (Self.Link.written link)) }
        ensures out { IfOk result (λ link. CountsOne (out self.old) (out self.new)) }
        ensures same { OnErr result (out self.new ≡ out self.old) }
        ensures others { Remains (back self.old) (back self.new) }
        ensures cause { CountsFailures (faults self.old) (faults self.new) result };

    /// Takes a connection back that it gave. The count of faults rises exactly where the link has failed.
    fn done(&mut self, link: Self::Link)
        requires { out self.old ≢ Some 0 }
        ensures back { Gains (back self.old) (back self.new) link }
        ensures out { CountsBack (out self.old) (out self.new) }
        ensures others { Remains (coming self.old) (coming self.new) }
        ensures cause { faults self.new ≡ count_after (faults self.old) (Self.Link.faults link) };

    /// How often it has failed; the greatest u64 stands for that many or more.
    fn faults(&self) -> u64
        ensures { result ≡ faults self.now };
}
