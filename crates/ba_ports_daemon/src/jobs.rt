//! Work that runs beside other work.
ghost use Rattle.std.specs.Prelude.{◌≡◌, ℕ, IfOk, IfErr, OnOk, OnErr, MatchResult};
ghost use Rattle.ba_ports.specs.Causes.{Rose};

use std::marker::Model;
use std::snapshot::Snapshot;
use std::thread::{Promise, PromisedHandle, Threads};

/// A piece of work.
pub trait Job {
    type End: Send + Drop + 'static;

    // The job may be run.
    ghost ready: { Self → Type 0 };
    // What the end keeps of the job.
    ghost keeps: { Self → Self.End → Type 0 };

    /// Does the work.
    fn run(self) -> Self::End
        requires { ready self }
        ensures { keeps self result };
}

/// What a job's thread promises to give back: its end, or the job itself where it wasn't to run.
#[derive(Drop)]
pub struct EndOf<J: Job>(pub Snapshot<J>);

impl<J: Job> Promise<Result<J::End, J>> for EndOf<J> {
    ghost kept_by = { λ promise came. MatchResult came (λ end. J.keeps promise.0.value end) (λ job. job ≡ promise.0.value) };
}

/// Where a job is: it has run to this end, or runs in this thread.
#[derive(Drop)]
pub enum Course<E, H> {
    Ran(E),
    Runs(H),
}

/// A job that was started. Contracts see it as that job.
#[derive(Drop)]
pub struct Started<J: Job + Drop> {
    job: Snapshot<J>,
    course: Course<J::End, PromisedHandle<Result<J::End, J>, EndOf<J>>>,
}

impl<J: Job + Drop> Model for Started<J> {
    ghost use Rattle.std.specs.Prelude.{◌≡◌};
    ghost use Rattle.ba_ports_daemon.specs.Jobs.{OfCourse};

    ghost Value = { J };

    ghost view = { λ started. started.job.value };

    ghost invariant = { λ started. J.ready started.job.value × OfCourse (λ end. J.keeps started.job.value end)
        (λ handle. handle.promise.0.value ≡ started.job.value) started.course };
}

impl<J: Job + Drop> Started<J> {
    /// A job that has run to this end.
    pub fn ran(job: Snapshot<J>, end: J::End) -> Started<J>
        requires ready { J.ready job.value }
        requires kept { J.keeps job.value end }
        ensures { result ≡ job.value }
    {
        Started {
            job,
            course: Course::Ran(end),
        }
    }

    /// A job that this thread runs.
    pub fn runs(job: Snapshot<J>, handle: PromisedHandle<Result<J::End, J>, EndOf<J>>) -> Started<J>
        requires ready { J.ready job.value }
        requires same { handle.promise.0.value ≡ job.value }
        ensures { result ≡ job.value }
    {
        Started {
            job,
            course: Course::Runs(handle),
        }
    }

    /// Waits for the job's end. A job that its thread gave back is run now.
    pub fn join<R: Threads>(self, rt: &R) -> J::End
        ensures { J.keeps self result }
    {
        let Started { job: _, course } = self;
        match course {
            Course::Ran(end) => end,
            Course::Runs(handle) => match handle.join(rt) {
                Ok(end) => end,
                Err(job) => job.run(),
            },
        }
    }
}

/// What starts jobs.
pub trait Spawner {
    // How often it has refused to start one.
    ghost faults: { Self → ℕ };

    /// Starts a job, or hands it back.
    fn start<R: Threads, J: Job + Send + Drop + 'static>(
        &mut self,
        rt: &R,
        job: J,
    ) -> Result<Started<J>, J>
        requires { J.ready job }
        ensures started { IfOk result (λ started. started ≡ job) }
        ensures handed_back { IfErr result (λ back. back ≡ job) }
        ensures cause { OnErr result (Rose (faults self.old) (faults self.new)) }
        ensures stayed { OnOk result (faults self.new ≡ faults self.old) };

    /// How often it has refused; the greatest u64 stands for that many or more.
    fn faults(&self) -> u64
        ensures { result ≡ faults self.now };
}
