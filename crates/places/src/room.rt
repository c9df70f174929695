//! Places, and who holds them.

ghost use Rattle.std.specs.Prelude.{◌≡◌, ◌≤◌, [], length, vec_capacity, OnErr, OnOk};
ghost use Rattle.places.specs.Holding.{first_so, holds, is_in_time, others, placed, standing_so, with_room};

use crate::holder::{Holder, PATIENCE, Standing};
use std::alloc::{AllocError, Global};
use std::marker::Model;

/// The connections that hold a place, those first that have waited longest: each stands as a stranger's, as a member's
/// or as an auditor's, and of those that stand alike there are no more than may be.
#[derive(Drop)]
pub struct Places {
    holders: Vec<Holder>,
}

impl Model for Places {
    ghost use Rattle.places.specs.Holding.{KeepLimits};
    ghost use Rattle.std.specs.Prelude.{List};
    ghost use Rattle.places.specs.declared.holder.Holder.{Holder};

    ghost Value = { List Holder };

    ghost view = { λ p. p.holders.items };

    ghost invariant = { λ p. KeepLimits p.holders.items };
}

impl Places {
    /// Nobody holds a place.
    pub fn new(alloc: Global) -> Places
        ensures { result ≡ [] }
    {
        Places {
            holders: Vec::new(alloc),
        }
    }

    /// A connection takes a place, or another one in place of that which it had. Where as many that stand like it hold
    /// one as may, the one of them that has waited longest loses it; nobody else does. Where a growth was refused
    /// nothing has changed.
    pub fn place(&mut self, holder: Holder) -> Result<(), AllocError>
        ensures placed { OnOk result (self.new ≡ placed holder self.old) }
        ensures stays { OnErr result (self.new ≡ self.old) }
    {
        self.holders.reserve(1)?;
        self.holders.retain(|other| other.id != holder.id);
        make_room(holder.standing, &mut self.holders);
        self.holders.push(holder)?;
        Ok(())
    }

    /// A connection has ended.
    pub fn leave(&mut self, id: u64)
        ensures { self.new ≡ others id self.old }
    {
        self.holders.retain(|other| other.id != id);
    }

    /// Whether a connection still holds a place at a time, in seconds: it has one, and a stranger's was taken less than
    /// `PATIENCE` seconds before.
    pub fn holds(&self, id: u64, now: u64) -> bool
        ensures { result ≡ holds self.now id now }
    {
        hold(&self.holders, id, now)
    }
}

/// Where as many stand so as may hold a place, the first of them loses it.
fn make_room(standing: Standing, holders: &mut Vec<Holder>)
    ensures room { holders.new.items ≡ with_room standing holders.old.items }
    ensures capacity { vec_capacity holders.old ≤ vec_capacity holders.new }
    ensures fewer { length holders.new.items ≤ length holders.old.items }
{
    if standing.most() <= count_like(standing, holders) {
        if let Some(id) = first_like(standing, holders) {
            holders.retain(|other| other.id != id);
        }
    }
}

/// How many stand so.
fn count_like(standing: Standing, holders: &[Holder]) -> usize
    ensures count { result ≡ standing_so standing holders.now }
    ensures few { result ≤ length holders.now }
{
    match holders.split_first() {
        None => 0,
        Some((first, rest)) => {
            let count = count_like(standing, rest);
            if standing.is_like(first.standing) {
                count + 1
            } else {
                count
            }
        }
    }
}

/// The number of the first that stands so.
fn first_like(standing: Standing, holders: &[Holder]) -> Option<u64>
    ensures { result ≡ first_so standing holders.now }
{
    match holders.split_first() {
        None => None,
        Some((first, rest)) => {
            if standing.is_like(first.standing) {
                Some(first.id)
            } else {
                first_like(standing, rest)
            }
        }
    }
}

/// Whether a connection is among these, and its time isn't over.
fn hold(holders: &[Holder], id: u64, now: u64) -> bool
    ensures { result ≡ holds holders.now id now }
{
    match holders.split_first() {
        None => false,
        Some((first, rest)) => (first.id == id && is_in_time(first, now)) || hold(rest, id, now),
    }
}

/// Whether a connection's time isn't over: a stranger has `PATIENCE` seconds.
fn is_in_time(holder: &Holder, now: u64) -> bool
    ensures { result ≡ is_in_time now holder.now }
{
    !holder.standing.is_like(Standing::Stranger) || now.saturating_sub(holder.seen) < PATIENCE
}
