//! Tests of a client and a server, joined or not, of a gateway over them, and of the first steps of a
//! machine.
#![tactic(auto)]

#[cfg(test)]
mod bases;
#[cfg(test)]
mod calls;
#[cfg(test)]
mod devices;
#[cfg(test)]
mod exchanges;
#[cfg(test)]
mod long;
#[cfg(test)]
mod machines;
#[cfg(test)]
mod parties;
#[cfg(test)]
mod rows;
#[cfg(test)]
mod streams;
