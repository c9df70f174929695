//! Tests of the file service: items, streams of records, devices, and states.
#![tactic(auto)]

#[cfg(test)]
mod devices;
#[cfg(test)]
mod items;
#[cfg(test)]
mod kept_states;
#[cfg(test)]
mod state_limits;
#[cfg(test)]
mod state_texts;
#[cfg(test)]
mod streams;
