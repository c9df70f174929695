//! What was begun with a secret so far.

ghost use Rattle.std.specs.Prelude.{◌≡◌, ◌<◌, ◌++◌, ◌∷◌, [], List, IfErr, IfOk, MatchOption, MatchResult};
ghost use Rattle.std.specs.Prelude.{OnErr, IsSome};
ghost use Rattle.std.specs.Prelude.{OnOk, Err, length, string_bytes, true};
ghost use Rattle.std.specs.List.{list_all};
ghost use Rattle.host_keys.specs.Beginnings.{begun_text, may_follow};
ghost use Rattle.host_keys.specs.Spent.{AreSpent, MayBegin, UseNoKeyTwice, line_begun, lines_of, spent_text};
ghost use Rattle.host_keys.specs.declared.begun.Begun.{Begun};
ghost use Rattle.host_keys.specs.declared.spent.SpentFault.TheVariants.{NoMemory, NotSpent};

use crate::begun::Begun;
use std::alloc::{AllocError, Global};
use std::marker::Model;
use thiserror::Error;

/// What was begun with a secret, oldest first: none uses a key that another one uses, and all nodes of an
/// epoch were begun under one roster.
#[derive(Drop)]
pub struct Spent {
    begun: Vec<Begun>,
}

impl Model for Spent {
    ghost use Rattle.std.specs.Prelude.{List};
    ghost use Rattle.host_keys.specs.declared.begun.Begun.{Begun};
    ghost use Rattle.host_keys.specs.Spent.{AreSpent};

    ghost Value = { List Begun };

    ghost view = { λ s. s.begun.items };

    ghost invariant = { λ s. AreSpent s.begun.items };
}

/// Why a text isn't read.
#[derive(Clone, Copy, Debug, PartialEq, Eq, Error)]
pub enum SpentFault {
    /// It isn't the text of what was begun with a secret.
    #[error("it does not say what was begun with a secret")]
    NotSpent,
    /// Memory was refused.
    #[error("out of memory")]
    NoMemory,
}

impl From<AllocError> for SpentFault {
    ghost use Rattle.std.specs.Prelude.{◌≡◌};
    ghost use Rattle.host_keys.specs.declared.spent.SpentFault.{SpentFault};

    ghost from_gives = { λ _ fault. fault ≡ SpentFault.NoMemory };

    fn from(_: AllocError) -> SpentFault {
        SpentFault::NoMemory
    }
}

impl Spent {
    /// Nothing begun yet.
    pub fn new(alloc: Global) -> Spent
        ensures { result ≡ [] }
    {
        Spent {
            begun: Vec::new(alloc),
        }
    }

    /// What a text says was begun: a line for each, oldest first. `NotSpent` comes exactly where it is the
    /// text
    /// of nothing that may have been begun, one after the other; `NoMemory` only where a growth was refused.
    pub fn read(alloc: Global, text: &str) -> Result<Spent, SpentFault>
        ensures found { IfOk result (λ s. text.now ≡ spent_text s) }
        ensures only { (bs : List Begun) → AreSpent bs → text.now ≡ spent_text bs →
            MatchResult result (λ s. s ≡ bs) (λ e. e ≡ NoMemory) }
    {
        let mut spent = Spent::new(alloc);
        let mut lines = Lines { rest: text };
        while let Some(line) = lines.next() {
            if let Err(fault) = spent.add_line(line) {
                return Err(fault);
            }
        }
        if lines.rest.is_empty() {
            Ok(spent)
        } else {
            Err(SpentFault::NotSpent)
        }
    }

    /// The text: a line for each that was begun, oldest first.
    pub fn text(&self, alloc: Global) -> Result<String, AllocError>
        ensures { IfOk result (λ text. string_bytes text ≡ spent_text self.now) }
    {
        let mut text = String::new(alloc);
        add_all(&self.begun, alloc, &mut text)?;
        Ok(text)
    }

    /// What was begun, oldest first.
    pub fn begun(&self) -> &[Begun]
        ensures { result.now ≡ self.now }
    {
        &self.begun
    }

    /// No key is used by two of those that were begun, as the type keeps it: does nothing, and tells a
    /// caller's proof.
    pub fn use_no_key_twice(&self)
        ensures spent { AreSpent self.now }
        ensures keys { UseNoKeyTwice self.now }
    {
        let _count = self.begun.len();
    }

    /// Notes that something is begun: the text gets a line more. After `AllocError` nothing has changed.
    pub fn begin(&mut self, begun: Begun) -> Result<(), AllocError>
        requires { MayBegin self.old begun }
        ensures begun { OnOk result (self.new ≡ self.old ++ (begun ∷ [])) }
        ensures text { OnOk result (spent_text self.new ≡ spent_text self.old ++ line_begun begun) }
        ensures err { OnErr result (self.new ≡ self.old) }
    {
        self.begun.push(begun)?;
        Ok(())
    }

    /// Notes what a line says was begun.
    fn add_line(&mut self, line: &str) -> Result<(), SpentFault>
        ensures ok { OnOk result ((b : Begun) × (self.new ≡ self.old ++ (b ∷ []))
            × (line.now ≡ begun_text b)) }
        ensures only { (b : Begun) → MayBegin self.old b → line.now ≡ begun_text b →
            MatchResult result (λ _. self.new ≡ self.old ++ (b ∷ [])) (λ e. e ≡ NoMemory) }
    {
        let Some(begun) = Begun::read(line) else {
            return Err(SpentFault::NotSpent);
        };
        if !may_begin(&self.begun, &begun) {
            return Err(SpentFault::NotSpent);
        }
        self.begin(begun)?;
        Ok(())
    }
}

/// Whether something may be begun after all others.
fn may_begin(all: &[Begun], begun: &Begun) -> bool
    ensures { result ≡ list_all (λ a. may_follow a begun.now) all.now }
{
    for earlier in all {
        if !earlier.may_follow(begun) {
            return false;
        }
    }
    true
}

/// Appends the lines of all that were begun.
fn add_all(begun: &[Begun], alloc: Global, text: &mut String) -> Result<(), AllocError>
    ensures { OnOk result (string_bytes text.new ≡ string_bytes text.old ++ spent_text begun.now) }
{
    for one in begun {
        add_begun(one, alloc, text)?;
    }
    Ok(())
}

/// Appends the line of something begun.
fn add_begun(begun: &Begun, alloc: Global, text: &mut String) -> Result<(), AllocError>
    ensures { OnOk result (string_bytes text.new ≡ string_bytes text.old ++ line_begun begun.now) }
{
    let line = begun.text(alloc)?;
    text.push_str(&line)?;
    text.push('\n')
}

/// What is left of a text, of which lines are taken.
#[derive(Drop)]
struct Lines<'a> {
    rest: &'a str,
}

impl<'a> Lines<'a> {
    /// The next line that has a line feed, without it. Where none has, what is left stays.
    fn next(&mut self) -> Option<&'a str>
        ensures lines { MatchOption result
            ((lines_of self.old.rest.now ≡ self.old.rest.now ∷ []) × (self.new.rest.now ≡ self.old.rest.now))
            (λ line. lines_of self.old.rest.now ≡ line.now ∷ lines_of self.new.rest.now) }
        ensures shorter { IsSome result → length self.new.rest.now < length self.old.rest.now }
    {
        let (line, rest) = self.rest.split_once('\n')?;
        self.rest = rest;
        Some(line)
    }
}
