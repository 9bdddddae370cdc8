//! Jobs: what is done in threads.

use std::snapshot::Snapshot;
use std::sync::Wait;
use std::thread::Promise;

/// What became of the start of a job's thread.
#[derive(Clone, Copy, Debug, PartialEq, Eq)]
pub enum Start {
    /// The thread was started.
    Made,
    /// The permit allowed it, and it couldn't be started.
    Failed,
    /// The permit refused it.
    Refused,
}

/// What is done in a thread of its own, at a site that all jobs share.
pub trait Job<S>: Send + Drop + Sized {
    ghost use Rattle.worker.specs.declared.job.Start.{Start};

    /// What the job returns.
    type Done: Send + Drop;

    /// The job may be run at the site.
    ghost is_ready: { S → Self → Type 0 };
    /// This comes of the job, by what became of its start.
    ghost comes: { S → Self → Start → Self.Done → Type 0 };

    /// Does the job, or ends it where its thread wasn't started.
    fn run<R: Wait>(self, rt: &R, site: &S, start: Start) -> Self::Done
        requires { is_ready site.now self }
        ensures { comes site.now self start result };
}

/// What a job and its site were when its thread was started. It costs nothing at run time.
#[derive(Drop)]
pub struct Given<S, J> {
    pub site: Snapshot<S>,
    pub job: Snapshot<J>,
}

/// What the thread of a job returns: what the job returns, or the job as it was.
pub type Back<S, J: Job<S>> = Result<J::Done, J>;

impl<S, J: Job<S>> Promise<Back<S, J>> for Given<S, J> {
    ghost use Rattle.std.specs.Prelude.{◌≡◌, IfErr, IfOk};
    ghost use Rattle.worker.specs.declared.job.Start.TheVariants.{Made};

    ghost kept_by = { λ given back.
        IfOk back (λ done. J.comes given.site.value given.job.value Made done)
        × IfErr back (λ job. job ≡ given.job.value) };
}
