//! Tests of what programs over a witness do: audits of nodes that lie, fork or don't answer, and the steps of
//! scripts.
#![tactic(auto)]

#[cfg(test)]
mod audited;
#[cfg(test)]
mod files;
#[cfg(test)]
mod parties;
#[cfg(test)]
mod scripts_run;
#[cfg(test)]
mod starts;
