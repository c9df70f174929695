//! Replays of the segments that nodes gave, with the lock released while they run.

use crate::context::Context;
use peer_connections::{Phase, end_serving};
use replay_pool::{NoGate, replay_round};
use std::alloc::AllocError;
use std::sync::Wait;
use std::thread::Threads;
use std::time::Clock;
use witness_books::{Back, ReplayJob};

/// Has the segments replayed that these nodes gave, files what was found, and hands on what the logs show of others. A
/// node that gave none is passed over. `AllocError` comes only where a growth was refused; a replay that isn't done then
/// is put back, and the nodes count as those whose segments are to be replayed.
pub(crate) fn replay<R, T, W, E, S>(
    context: Context<'_, R, T, W, E, S>,
    nodes: &[u32],
) -> Result<(), AllocError>
where
    R: Threads + Wait + Sync,
    T: Clock,
{
    let replayed = replay_round_of(context, nodes);
    if replayed.is_err() {
        context.lock().give_again(nodes);
    }
    replayed
}

/// The same, but where memory is refused nothing is noted.
fn replay_round_of<R, T, W, E, S>(
    context: Context<'_, R, T, W, E, S>,
    nodes: &[u32],
) -> Result<(), AllocError>
where
    R: Threads + Wait + Sync,
    T: Clock,
{
    let jobs = begin_each(context, nodes)?;
    let workers = context.settings.workers.max(1).min(16);
    let filed = match replay_round(context.rt, context.alloc, jobs, workers, &NoGate) {
        Ok(backs) => file_each(context, backs),
        Err(jobs) => {
            put_back_each(context, jobs);
            Err(AllocError)
        }
    };
    forward_each(context, nodes)?;
    filed
}

/// Begins each segment that these nodes gave.
fn begin_each<R: Wait, T: Clock, W, E, S>(
    context: Context<'_, R, T, W, E, S>,
    nodes: &[u32],
) -> Result<Vec<ReplayJob>, AllocError> {
    let mut jobs = Vec::new(context.alloc);
    for node in nodes {
        if begin(context, *node, &mut jobs).is_err() {
            put_back_each(context, jobs);
            return Err(AllocError);
        }
    }
    Ok(jobs)
}

/// Begins the segment that a node gave, if it gave one.
fn begin<R: Wait, T: Clock, W, E, S>(
    context: Context<'_, R, T, W, E, S>,
    node: u32,
    jobs: &mut Vec<ReplayJob>,
) -> Result<(), AllocError> {
    let begun = context.lock().begin(context.alloc, node)?;
    let Some(job) = begun else {
        return Ok(());
    };
    match jobs.push(job) {
        Ok(()) => Ok(()),
        Err(refused) => {
            put_back(context, refused.value);
            Err(AllocError)
        }
    }
}

/// Puts a replay back that wasn't done. Where that is refused the process ends.
fn put_back<R: Wait, T: Clock, W, E, S>(context: Context<'_, R, T, W, E, S>, job: ReplayJob) {
    context.lock().put_back(context.alloc, job);
    end_if_lost(context);
}

/// Ends the process where it can't go on.
pub(crate) fn end_if_lost<R: Wait, T: Clock, W, E, S>(context: Context<'_, R, T, W, E, S>) {
    let is_lost = context.lock().is_lost();
    if is_lost {
        end_serving(context.rt, context.phase, Phase::Stopping);
    }
}

/// Puts each of these replays back.
fn put_back_each<R: Wait, T: Clock, W, E, S>(
    context: Context<'_, R, T, W, E, S>,
    mut jobs: Vec<ReplayJob>,
) {
    while let Some(job) = jobs.pop() {
        put_back(context, job);
    }
    jobs.destroy_empty();
}

/// Files what came back of each replay. One that wasn't done is put back.
fn file_each<R: Wait, T: Clock, W, E, S>(
    context: Context<'_, R, T, W, E, S>,
    mut backs: Vec<Back>,
) -> Result<(), AllocError> {
    let mut filed = Ok(());
    while let Some(back) = backs.pop() {
        if file(context, back).is_err() {
            filed = Err(AllocError);
        }
    }
    backs.destroy_empty();
    filed
}

/// Files what came back of a replay. One that wasn't done is put back.
fn file<R: Wait, T: Clock, W, E, S>(
    context: Context<'_, R, T, W, E, S>,
    back: Back,
) -> Result<(), AllocError> {
    match back {
        Back::Done(done) => {
            let node = done.node();
            context.lock().file(context.alloc, done);
            end_if_lost(context);
            context.lock().learn_kept(context.alloc, node)
        }
        Back::Job(job) => {
            put_back(context, job);
            Err(AllocError)
        }
    }
}

/// Hands on what the logs of these nodes show of others.
pub(crate) fn forward_each<R: Wait, T: Clock, W, E, S>(
    context: Context<'_, R, T, W, E, S>,
    nodes: &[u32],
) -> Result<(), AllocError> {
    for node in nodes {
        forward(context, *node)?;
    }
    Ok(())
}

/// Hands on what the log of a node shows of others, one authenticator at a time.
fn forward<R: Wait, T: Clock, W, E, S>(
    context: Context<'_, R, T, W, E, S>,
    node: u32,
) -> Result<(), AllocError> {
    for _ in 0..u64::MAX {
        let is_there = context.lock().forward(context.alloc, node)?;
        if !is_there {
            return Ok(());
        }
    }
    Ok(())
}
