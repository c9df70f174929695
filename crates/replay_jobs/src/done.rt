//! Replays that were done.

ghost use Rattle.std.specs.Prelude.{◌≡◌, ◌↔◌, IfOk, IsTrue};
ghost use Rattle.witness_spec.specs.Events.{File, IsEvent};
ghost use Rattle.replay_jobs.specs.Jobs.{done_parts, job_verdict, verdict_told};

use crate::plain::PlainJob;
use crate::verdict::JobVerdict;
use std::alloc::AllocError;
use std::marker::Model;

/// The plain words of a replay that was done: the job's, and its verdict, which is the replay of the job's
/// own state and segment. So the job alone says what it is. They may be copied and let go.
#[derive(Drop)]
pub struct PlainDone {
    job: PlainJob,
    verdict: JobVerdict,
}

impl Model for PlainDone {
    ghost use Rattle.std.specs.Prelude.{◌≡◌};
    ghost use Rattle.witness_spec.specs.Events.{JobParts};
    ghost use Rattle.replay_jobs.specs.Codes.{job_code};
    ghost use Rattle.replay_jobs.specs.Jobs.{job_verdict, verdict_told};

    ghost Value = { JobParts };

    ghost coded = { job_code };

    ghost view = { λ d. d.job };

    ghost invariant = { λ d. verdict_told d.verdict ≡ job_verdict d.job };
}

impl PlainDone {
    /// The words of a job and its verdict.
    pub(crate) fn new(job: PlainJob, verdict: JobVerdict) -> PlainDone
        requires { verdict_told verdict ≡ job_verdict job }
        ensures { result ≡ job }
    {
        PlainDone { job, verdict }
    }

    /// The words of the job.
    pub fn job(&self) -> &PlainJob
        ensures { result.now ≡ self.now }
    {
        &self.job
    }

    /// The verdict: the replay of the job's own state and segment.
    pub fn verdict(&self) -> &JobVerdict
        ensures { verdict_told result.now ≡ job_verdict self.now }
    {
        &self.verdict
    }

    /// The job, and the verdict.
    pub fn into_parts(self) -> (PlainJob, JobVerdict)
        ensures job { result.0 ≡ self }
        ensures verdict { verdict_told result.1 ≡ job_verdict self }
    {
        let PlainDone { job, verdict } = self;
        (job, verdict)
    }

    /// Whether another is of the same job, and so has the same verdict. It compares
    /// bytes, and takes no memory.
    pub fn is_same(&self, other: &PlainDone) -> bool
        ensures { IsTrue result ↔ (self.now ≡ other.now) }
    {
        self.job.is_same(&other.job)
    }

    /// The same words once more. Takes no memory: `AllocError` comes only where owners can't be counted
    /// further.
    pub fn try_clone(&self) -> Result<PlainDone, AllocError>
        ensures { IfOk result (λ d. d ≡ self.now) }
    {
        let job = self.job.try_clone()?;
        let verdict = self.verdict.try_clone()?;
        Ok(PlainDone { job, verdict })
    }
}

/// A replay that was done (PeerReview, SOSP 2007, section 5.4): a job that `ReplayJob::run` spent, and its
/// verdict, which is the replay of the job's own state and segment. It can be neither copied nor let go:
/// whoever has it files it in its book, or discards it.
pub struct ReplayDone {
    plain: PlainDone,
}

impl Model for ReplayDone {
    ghost use Rattle.witness_spec.specs.Events.{JobParts};
    ghost use Rattle.replay_jobs.specs.Codes.{job_code};

    ghost Value = { JobParts };

    ghost coded = { job_code };

    ghost view = { λ d. d.plain };
}

impl ReplayDone {
    /// A job that was done, by its words.
    pub(crate) fn new(plain: PlainDone) -> ReplayDone
        ensures { result ≡ plain }
    {
        ReplayDone { plain }
    }

    /// The node in whose book the job is.
    pub fn node(&self) -> u32
        ensures { result ≡ self.now.node }
    {
        self.plain.job().node()
    }

    /// The verdict: the replay of the job's own state and segment.
    pub fn verdict(&self) -> &JobVerdict
        ensures { verdict_told result.now ≡ job_verdict self.now }
    {
        self.plain.verdict()
    }

    /// Its plain words. It may be filed: its segment has a text and is closed, and its verdict is the replay.
    pub fn plain(&self) -> &PlainDone
        ensures plain { result.now ≡ self.now }
        ensures event { IsEvent (File (done_parts self.now)) }
    {
        let _segment = self.plain.job().segment();
        &self.plain
    }

    /// Its plain words alone.
    pub fn into_plain(self) -> PlainDone
        ensures { result ≡ self }
    {
        let ReplayDone { plain } = self;
        plain
    }

    /// Spends the done value, which is then filed nowhere: its book's job stays out.
    pub fn discard(self) {
        let ReplayDone { plain: _ } = self;
    }
}
