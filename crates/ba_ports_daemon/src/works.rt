//! The application's work of a participant.
ghost use Rattle.std.specs.Prelude.{◌≡◌, ℕ, List, Option, IfOk};
ghost use Rattle.ba_ports.specs.Causes.{CountsFailures};
ghost use Rattle.ba_ports_daemon.specs.Told.{TellsCall};
ghost use Rattle.ba_ports_daemon.specs.declared.works.Outcome.TheVariants as outcome;
ghost use Rattle.ba_ports_daemon.specs.declared.works.Task.TheVariants as task;
ghost use Rattle.ba_ports_daemon.specs.declared.works.WorkCall.{WorkCall};

use ba_core::Id;
use ba_ports::Failed;

/// What came of a call of the work.
#[derive(Clone, Copy, Debug, PartialEq, Eq)]
pub enum Outcome {
    Done,
    /// It can't be done, now or later.
    Broken,
}

/// What the work is asked to do.
#[derive(Clone, Copy, Debug, PartialEq, Eq)]
pub enum Task {
    Complete,
    Close,
    Cancel,
    Compensate,
}

/// A call of the work that was answered.
#[derive(Clone, Copy, Debug, PartialEq, Eq)]
pub struct WorkCall {
    pub part: Id,
    pub task: Task,
    pub outcome: Outcome,
}

/// The application's work, participant by participant. It may be asked the same more than once.
pub trait Work {
    // The calls that it answered, where it tells them.
    ghost calls: { Self → Option (List WorkCall) };
    // How often it has failed.
    ghost faults: { Self → ℕ };

    /// Does the participant's work.
    fn complete(&mut self, part: Id) -> Result<Outcome, Failed>
        ensures calls { TellsCall (calls self.old) (calls self.new) part task.Complete result }
        ensures cause { CountsFailures (faults self.old) (faults self.new) result };

    /// Lets the participant's work stand, which is never broken.
    fn close(&mut self, part: Id) -> Result<Outcome, Failed>
        ensures done { IfOk result (λ answer. answer ≡ outcome.Done) }
        ensures calls { TellsCall (calls self.old) (calls self.new) part task.Close result }
        ensures cause { CountsFailures (faults self.old) (faults self.new) result };

    /// Gives up work that wasn't completed.
    fn cancel(&mut self, part: Id) -> Result<Outcome, Failed>
        ensures calls { TellsCall (calls self.old) (calls self.new) part task.Cancel result }
        ensures cause { CountsFailures (faults self.old) (faults self.new) result };

    /// Undoes work that was completed.
    fn compensate(&mut self, part: Id) -> Result<Outcome, Failed>
        ensures calls { TellsCall (calls self.old) (calls self.new) part task.Compensate result }
        ensures cause { CountsFailures (faults self.old) (faults self.new) result };

    /// How often it has failed; the greatest u64 stands for that many or more.
    fn faults(&self) -> u64
        ensures { result ≡ faults self.now };
}
