//! Tests of packets, and of evidence.
#![tactic(auto)]

#[cfg(test)]
mod bases;
#[cfg(test)]
mod copies;
#[cfg(test)]
mod evidence;
#[cfg(test)]
mod made;
#[cfg(test)]
mod taken;
