//! Running jobs, each in a thread of its own.

ghost use Rattle.std.specs.Prelude.{◌≡◌, ◌+◌, ◌≤◌, true, IfErr, IfOk, []};
ghost use Rattle.std.specs.VecDeque.{deque_len, deque_capacity};
ghost use Rattle.worker.specs.declared.job.Start.TheVariants.{Made, Failed};
ghost use Rattle.worker.specs.Jobs.{AllOf, AlikeFrom, Becomes};

use crate::job::{Back, Given, Job, Start};
use crate::permit::Permit;
use std::alloc::{AllocError, Global};
use std::collections::VecDeque;
use std::snapshot::Snapshot;
use std::sync::Wait;
use std::sync::atomic::{AtomicUsize, Ordering};
use std::thread;
use std::thread::{PromisedHandle, Scope, Threads};

// The outcome of a start: the thread, or what its job returned.
type Started<S, J: Job<S>> = Result<PromisedHandle<Back<S, J>, Given<S, J>>, J::Done>;

// What all threads share: by what they wait, the site, and the number of the job whose start failed
// last.
#[derive(Drop)]
struct Crew<'x, S, R> {
    rt: &'x R,
    site: &'x S,
    unstarted: AtomicUsize,
}

/// Runs each job in a thread of its own, and joins all threads: returns what each job returns, in
/// their order.
///
/// The permit is asked for each job by its index, right before its start, also after a start that
/// failed. A job whose start the permit refuses, or fails, ends before the next job is looked at.
/// The jobs after it are started all the same.
///
/// # Errors
/// - `AllocError`: out of memory. No job was run.
pub fn run_jobs<S: Sync, J: Job<S>, P: Permit, R: Threads + Wait + Sync>(
    rt: &R,
    alloc: Global,
    site: &S,
    permit: &P,
    jobs: VecDeque<J>,
) -> Result<Vec<J::Done>, AllocError>
    requires { AllOf (J.is_ready site.now) jobs.items }
    ensures { IfOk result (λ all. AlikeFrom 0 (λ n j d. Becomes (J.comes site.now j)
        (P.permits permit.now n) d) jobs.items all.items) }
{
    let room = VecDeque::with_capacity(alloc, jobs.len())?;
    let crew = Crew {
        rt,
        site,
        // The number of no job.
        unstarted: AtomicUsize::new(usize::MAX),
    };
    let crew = &crew;
    let finished = thread::scope(
        thread::scope_env(),
        rt,
        move |scope| -> VecDeque<J::Done>
            requires { AllOf (J.is_ready crew.now.site.now) jobs.items × (room.items ≡ [])
                × (deque_len jobs ≤ deque_capacity room) }
            ensures { AlikeFrom 0 (λ n j d. Becomes (J.comes crew.entry.now.site.now j)
                (P.permits permit.entry.now n) d)
                jobs.items result.items }
        { run_each::<S, J, P, R>(scope, crew, permit, 0, jobs, room) },
    );
    Ok(finished.into_vec())
}

// Starts a thread for each job that the permit allows, before any of them is joined. What the first
// job returns comes before what those after it do.
fn run_each<'s, 'x: 's, S: Sync + 'x, J: Job<S> + 'x, P: Permit, R: Threads + Wait + Sync>(
    scope: &'s Scope<'s, &'x ()>,
    crew: &'x Crew<'x, S, R>,
    permit: &'x P,
    number: usize,
    jobs: VecDeque<J>,
    room: VecDeque<J::Done>,
) -> VecDeque<J::Done>
    requires ready { AllOf (J.is_ready crew.now.site.now) jobs.items }
    requires room { (room.items ≡ []) × (number + deque_len jobs ≤ deque_capacity room) }
    ensures done { AlikeFrom number (λ n j d. Becomes (J.comes crew.now.site.now j)
        (P.permits permit.now n) d) jobs.items result.items }
    ensures room { (deque_capacity result ≡ deque_capacity room)
        × (deque_len result ≡ deque_len jobs) }
{
    let mut jobs = jobs;
    match jobs.pop_front() {
        None => {
            jobs.destroy_empty();
            room
        }
        Some(job) => {
            let start = start_one::<S, J, P, R>(scope, crew, permit, number, job);
            let mut finished = run_each::<S, J, P, R>(scope, crew, permit, number + 1, jobs, room);
            finished.push_front_reserved(match start {
                Ok(handle) => finish::<S, J, R>(crew, handle.join(crew.rt)),
                Err(done) => done,
            });
            finished
        }
    }
}

// Starts a thread for a job if the permit allows it; if it doesn't or that fails, the job ends.
fn start_one<'s, 'x: 's, S: Sync + 'x, J: Job<S> + 'x, P: Permit, R: Threads + Wait + Sync>(
    scope: &'s Scope<'s, &'x ()>,
    crew: &'x Crew<'x, S, R>,
    permit: &'x P,
    number: usize,
    job: J,
) -> Started<S, J>
    requires { J.is_ready crew.now.site.now job }
    ensures started { IfOk result (λ h. (h.promise.job.value ≡ job)
        × (h.promise.site.value ≡ crew.now.site.now)
        × P.permits permit.now number true) }
    ensures refused { IfErr result (λ d. Becomes (J.comes crew.now.site.now job)
        (P.permits permit.now number) d) }
{
    if !permit.may_start(number) {
        return Err(job.run(crew.rt, crew.site, Start::Refused));
    }
    let given = Given {
        site: Snapshot::of(crew.site),
        job: Snapshot::of(&job),
    };
    match scope.spawn_with(
        given,
        move || -> Back<S, J>
            requires { J.is_ready crew.now.site.now job }
            ensures { IfOk result (λ d. J.comes crew.entry.now.site.now job Made d)
                × IfErr result (λ j. j ≡ job) }
        {
            // A job that is marked by its number comes back as it was.
            if crew.unstarted.load(Ordering::SeqCst) == number {
                Err(job)
            } else {
                Ok(job.run(crew.rt, crew.site, Start::Made))
            }
        },
    ) {
        Ok(handle) => Ok(handle),
        Err(refused) => {
            crew.unstarted.store(number, Ordering::SeqCst);
            Err(finish::<S, J, R>(crew, (refused.value)()))
        }
    }
}

// What a job returns; one that came back as it was wasn't started, and ends.
fn finish<S, J: Job<S>, R: Wait>(crew: &Crew<'_, S, R>, back: Back<S, J>) -> J::Done
    requires { IfErr back (λ job. J.is_ready crew.now.site.now job) }
    ensures done { IfOk back (λ d. result ≡ d) }
    ensures unstarted { IfErr back (λ job. J.comes crew.now.site.now job Failed result) }
{
    match back {
        Ok(done) => done,
        Err(job) => job.run(crew.rt, crew.site, Start::Failed),
    }
}
