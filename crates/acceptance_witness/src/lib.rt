//! Tests of a witness: its books step by step, and under a lock that threads share, and rounds of replays.
#![tactic(auto)]

#[cfg(test)]
mod admitted;
#[cfg(test)]
mod answers;
#[cfg(test)]
mod begun_jobs;
#[cfg(test)]
mod crowd;
#[cfg(test)]
mod exposed;
#[cfg(test)]
mod full;
#[cfg(test)]
mod gaps;
#[cfg(test)]
mod greatest;
#[cfg(test)]
mod handing;
#[cfg(test)]
mod largest;
#[cfg(test)]
mod learned;
#[cfg(test)]
mod logs;
#[cfg(test)]
mod many;
#[cfg(test)]
mod meeting;
#[cfg(test)]
mod members;
#[cfg(test)]
mod others;
#[cfg(test)]
mod own_jobs;
#[cfg(test)]
mod running;
#[cfg(test)]
mod together;
#[cfg(test)]
mod words;
