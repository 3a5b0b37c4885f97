//! A work without an application.
ghost use Rattle.std.specs.Prelude.{◌≡◌, None, Ok};
ghost use Rattle.ba_ports.specs.Causes.{CountsFailures};
ghost use Rattle.ba_ports_daemon.specs.declared.works.Outcome.TheVariants as outcome;

use ba_core::Id;
use ba_ports::Failed;
use ba_ports_daemon::{Outcome, Work};

/// A work that is always done, and never fails. It tells no calls.
#[derive(Clone, Copy, Debug)]
pub struct Bare;

impl Work for Bare {
    ghost calls = { λ _. None };

    ghost faults = { λ _. 0 };

    fn complete(&mut self, _part: Id) -> Result<Outcome, Failed>
        ensures calls { Unit {0} }
        ensures cause { CountsFailures 0 0 result }
        ensures done { result ≡ Ok outcome.Done }
    {
        Ok(Outcome::Done)
    }

    fn close(&mut self, _part: Id) -> Result<Outcome, Failed>
        ensures calls { Unit {0} }
        ensures cause { CountsFailures 0 0 result }
        ensures done { result ≡ Ok outcome.Done }
    {
        Ok(Outcome::Done)
    }

    fn cancel(&mut self, _part: Id) -> Result<Outcome, Failed>
        ensures calls { Unit {0} }
        ensures cause { CountsFailures 0 0 result }
        ensures done { result ≡ Ok outcome.Done }
    {
        Ok(Outcome::Done)
    }

    fn compensate(&mut self, _part: Id) -> Result<Outcome, Failed>
        ensures calls { Unit {0} }
        ensures cause { CountsFailures 0 0 result }
        ensures done { result ≡ Ok outcome.Done }
    {
        Ok(Outcome::Done)
    }

    fn faults(&self) -> u64 {
        0
    }
}
