//! The calls of an object in memory are counted, so that a test can choose which of them fail.
ghost use Rattle.std.specs.Prelude.{◌≡◌, ◌↔◌, ◌≤◌, IsErr, OnOk, OnErr};
ghost use Rattle.ba_ports.specs.Causes.{HasCause};
ghost use Rattle.ba_ports.specs.Counts.{risen, FailsNext};

use ba_core::List;
use ba_ports::Failed;

/// How often an object was called, which of its calls fail, and how often it has failed.
#[derive(Debug, Drop)]
pub struct Calls {
    pub number: u64,
    pub fails: List<u64>,
    pub faults: u64,
}

impl Calls {
    /// No call yet.
    pub fn of(fails: List<u64>) -> Calls
        ensures { result ≡ record { number = 0; fails = fails; faults = 0 } }
    {
        Calls {
            number: 0,
            fails,
            faults: 0,
        }
    }

    /// Counts a call. One of those that fail is a fault.
    pub fn begin(&mut self) -> Result<(), Failed>
        ensures fails { IsErr result ↔ FailsNext self.old.fails self.old.number }
        ensures ok { OnOk result (self.new ≡ record self.old { number = risen self.old.number }) }
        ensures err { OnErr result (self.new ≡
            record self.old { number = risen self.old.number; faults = risen self.old.faults }) }
        ensures cause { HasCause self.old.faults self.new.faults result }
    {
        self.number = self.number.saturating_add(1);
        if self.fails.as_slice().contains(&self.number) {
            return Err(self.fail());
        }
        Ok(())
    }

    /// Counts a fault.
    pub fn fail(&mut self) -> Failed
        ensures count { self.new ≡ record self.old { faults = risen self.old.faults } }
        ensures later { self.old.faults ≤ self.new.faults }
    {
        self.faults = self.faults.saturating_add(1);
        Failed
    }
}
