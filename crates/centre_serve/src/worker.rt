//! The work of one worker, and of all side by side.
ghost use Rattle.std.specs.Prelude.{◌≡◌, ℕ, ◌<◌, length, slice_index_or};
ghost use Rattle.desk_words.specs.Setting.{setting};
ghost use Rattle.centre_serve.specs.Rows.{job_scene, WorkerRow};

use archive_state::Limits;
use centre_port::serve_port;
use centre_session::{Clock, Trail};
use desk_words::Desk;
use http_digest::Secret;
use link_ports::Port;
use std::alloc::Global;
use std::sync::Wait;
use std::thread;
use std::thread::Threads;

/// What one worker serves with: a port, a clock, and the gate that its desk passes before each commit.
#[derive(Drop)]
pub struct Worker<P, C, G> {
    pub port: P,
    pub clock: C,
    pub gate: G,
}

/// A worker at its desk, and whether its port has failed.
#[derive(Drop)]
pub struct Job<K, P, C> {
    pub desk: K,
    pub port: P,
    pub clock: C,
    pub trail: Trail,
    pub failed: bool,
}

// A worker serves its port until that is closed or fails.
fn serve_job<R: Wait, K: Desk, P: Port, C: Clock>(
    rt: &R,
    alloc: Global,
    job: &mut Job<K, P, C>,
    secret: &Secret,
    limits: &Limits,
)
    ensures { WorkerRow (setting secret.now limits.now) (job_scene K.stand P.view C.given job.old) (job_scene K.stand P.view C.given job.new) job.new.failed }
{
    let ended = serve_port(
        rt,
        alloc,
        &mut job.desk,
        &mut job.port,
        &mut job.clock,
        secret,
        limits,
        &mut job.trail,
    );
    job.failed = ended.is_err();
}

/// Each worker serves its port, in a thread of its own where one can be made.
pub(crate) fn serve_all<
    R: Threads + Wait + Sync,
    K: Desk + Send,
    P: Port<Given: Send> + Send,
    C: Clock + Send,
>(
    rt: &R,
    alloc: Global,
    jobs: Vec<Job<K, P, C>>,
    secret: &Secret,
    limits: &Limits,
) -> Vec<Job<K, P, C>>
    ensures len { length result.items ≡ length jobs.items }
    ensures each { (i : ℕ) (d : _) → i < length jobs.items
        → WorkerRow (setting secret.now limits.now) (job_scene K.stand P.view C.given (slice_index_or jobs.items i d)) (job_scene K.stand P.view C.given (slice_index_or result.items i d)) (slice_index_or result.items i d).failed }
{
    let mut jobs = jobs;
    serve_beside(rt, alloc, &mut jobs, secret, limits);
    jobs
}

// The same of jobs that are lent.
fn serve_beside<
    R: Threads + Wait + Sync,
    K: Desk + Send,
    P: Port<Given: Send> + Send,
    C: Clock + Send,
>(rt: &R, alloc: Global, jobs: &mut [Job<K, P, C>], secret: &Secret, limits: &Limits)
    ensures len { length jobs.new ≡ length jobs.old }
    ensures each { (i : ℕ) (d : _) → i < length jobs.old
        → WorkerRow (setting secret.now limits.now) (job_scene K.stand P.view C.given (slice_index_or jobs.old i d)) (job_scene K.stand P.view C.given (slice_index_or jobs.new i d)) (slice_index_or jobs.new i d).failed }
{
    if jobs.is_empty() {
        return;
    }
    let threads = jobs.len();
    thread::for_each_mut(
        rt,
        jobs,
        threads,
        &|_, job| { serve_job(rt, alloc, job, secret, limits) },
    );
}
