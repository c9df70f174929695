//! What a worker calls before it runs a job.

/// Is told of each job before it is run. It is called by the worker that runs the job, with no lock held, so
/// that several workers may call it at once.
pub trait Gate: Sync {
    /// A worker is about to run the job at this place of its round; the first place is 1.
    fn reached(&self, job: usize);
}

/// A gate that does nothing.
#[derive(Drop)]
pub struct NoGate;

impl Gate for NoGate {
    fn reached(&self, _job: usize) {}
}
