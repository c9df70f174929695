//! A witness under a lock, which answers the requests of a connection.

ghost use Rattle.watching.specs.Segments.{most_bytes};
ghost use Rattle.witness_process.specs.Answered.{IsAnsweredUnderLock};

use crate::watch::Watch;
use frames::Bound;
use request_streams::{Answerer, Outcome};
use std::alloc::Global;
use std::marker::Model;
use std::sync::{Mutex, Wait};
use std::time::Clock;
use watching::SegmentsAsked;

/// How a connection is answered.
#[derive(Drop)]
pub(crate) struct Terms {
    /// The digest of the roster's text.
    digest: [u8; 32],
    /// The nodes of whom a segment was asked for when the connection was answered last, or began: only from them a long
    /// record is taken.
    asked: SegmentsAsked,
}

/// A witness under a lock, which others use too. The lock is held while one request is answered.
#[derive(Drop)]
pub(crate) struct LockedWatch<'a, R, T> {
    rt: &'a R,
    clock: &'a T,
    watch: &'a Mutex<Watch>,
    terms: Terms,
}

impl<'a, R, T> Model for LockedWatch<'a, R, T> {
    ghost use Rattle.witness_process.specs.declared.answering.Terms.{Terms};

    ghost Value = { Terms };

    ghost view = { λ l. l.terms };
}

impl<'a, R: Wait, T: Clock> LockedWatch<'a, R, T> {
    /// The witness that lies under a lock, as it answers a connection that begins.
    pub(crate) fn new(
        rt: &'a R,
        alloc: Global,
        clock: &'a T,
        watch: &'a Mutex<Watch>,
        digest: [u8; 32],
    ) -> LockedWatch<'a, R, T> {
        let mut nodes = Vec::new(alloc);
        watch.lock(rt).list_asked(&mut nodes);
        LockedWatch {
            rt,
            clock,
            watch,
            terms: Terms {
                digest,
                asked: SegmentsAsked { nodes },
            },
        }
    }
}

/// A long record is taken from those alone of whom a segment is asked for.
impl<'a, R, T> Bound for LockedWatch<'a, R, T> {
    ghost most = { λ l front. most_bytes l.asked.nodes.items front };

    fn most(&self, front: &[u8]) -> u32 {
        self.terms.asked.most(front)
    }
}

/// Each answer is that of a witness's books that lay under the lock.
impl<'a, R: Wait, T: Clock> Answerer for LockedWatch<'a, R, T> {
    ghost answers = { λ l bytes text. IsAnsweredUnderLock l.digest bytes text };

    #[tactic(auto, using(crate::proofs::OfAnswers::under_lock))]
    fn answer(&mut self, alloc: Global, bytes: &[u8], out: &mut Vec<u8>) -> Outcome {
        let mut watch = self.watch.lock(self.rt);
        watch.look(self.clock);
        let outcome = watch.answer(alloc, &self.terms.digest, bytes, out);
        watch.list_asked(&mut self.terms.asked.nodes);
        outcome
    }
}
