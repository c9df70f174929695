//! Tests of keys, logs, segments and of messages between nodes.
#![tactic(auto)]

#[cfg(test)]
mod acks;
#[cfg(test)]
mod closed;
#[cfg(test)]
mod hostile;
#[cfg(test)]
mod limits;
#[cfg(test)]
mod logs;
#[cfg(test)]
mod lookups;
#[cfg(test)]
mod messages;
#[cfg(test)]
mod nodes;
#[cfg(test)]
mod one_time_keys;
#[cfg(test)]
mod segments;
