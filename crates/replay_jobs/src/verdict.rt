//! Verdicts of jobs.

ghost use Rattle.std.specs.Prelude.{◌≡◌, IfOk};
ghost use Rattle.std.specs.Arc.{arc_value};
ghost use Rattle.replay.specs.Verdicts.{verdict_in};
ghost use Rattle.replay_jobs.specs.Jobs.{HasRoom, job_verdict, verdict_told};

use crate::plain::PlainJob;
use authenticator::{Authenticator, Number};
use replay::{ReplayFault, SharedState, State, Verdict, replay_entries};
use std::alloc::{AllocError, Global};
use std::sync::Arc;

/// What the replay of a job's segment after its state finds, shared.
#[derive(Drop)]
pub enum JobVerdict {
    /// Each entry may stand after those before it: the state after the last, and the authenticators of other
    /// nodes that the entries show, in order.
    Sound(SharedState, Arc<Vec<Authenticator>>),
    /// What the first entry that may not stand where it does has wrong, and its number.
    Fault(ReplayFault, Number),
}

impl JobVerdict {
    /// The same verdict once more. Takes no memory: `AllocError` comes only where owners can't be counted
    /// further.
    pub fn try_clone(&self) -> Result<JobVerdict, AllocError>
        ensures { IfOk result (λ v. verdict_told v ≡ verdict_told self.now) }
    {
        match self {
            JobVerdict::Sound(state, found) => {
                let state = state.try_clone()?;
                let found = Arc::try_clone(found)?;
                Ok(JobVerdict::Sound(state, found))
            }
            JobVerdict::Fault(fault, number) => Ok(JobVerdict::Fault(*fault, *number)),
        }
    }
}

/// What the replay of a job's segment after its state finds. The state is read from its text once, and not
/// copied besides. `AllocError` comes only where a growth was refused.
pub(crate) fn replayed(alloc: Global, job: &PlainJob) -> Result<JobVerdict, AllocError>
    requires { HasRoom job.now }
    ensures { IfOk result (λ v. verdict_told v ≡ job_verdict job.now) }
{
    let state = job.state().state(alloc)?;
    let closed = job.segment().closed();
    let roster = closed.roster();
    let segment = closed.segment();
    let verdict = replay_entries(
        alloc,
        roster,
        state,
        segment.first(),
        &segment.opening(),
        segment.skips(),
        segment.entries(),
    )?;
    shared(alloc, verdict)
}

/// A verdict to be shared. `AllocError` comes only where a growth was refused.
fn shared(alloc: Global, verdict: Verdict) -> Result<JobVerdict, AllocError>
    ensures { IfOk result (λ v. verdict_told v ≡ verdict_in verdict) }
{
    match verdict {
        Verdict::Sound(state, found) => {
            let state = share(alloc, state)?;
            match Arc::new(alloc, found) {
                Ok(found) => Ok(JobVerdict::Sound(state, found)),
                Err(_) => Err(AllocError),
            }
        }
        Verdict::Fault(fault, number) => Ok(JobVerdict::Fault(fault, number)),
    }
}

/// A state to be shared. `AllocError` comes only where a growth was refused.
fn share(alloc: Global, state: State) -> Result<SharedState, AllocError>
    ensures { IfOk result (λ s. s ≡ state.state) }
{
    SharedState::new(alloc, &state)
}
