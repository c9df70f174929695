//! The base in a file.

ghost use Rattle.std.specs.Prelude.{◌≡◌, ℕ, List, IfErr, IfOk, IfSome, IsErrOf, OnOk, string_bytes};
ghost use Rattle.std.specs.Io.KnownBytes.{Appends};
ghost use Rattle.rpc.specs.Records.Count.{Rises};
ghost use Rattle.console.specs.Bases.{Holds, IsRefused, JudgesBase, TellsBasePart, base_line};
ghost use Rattle.console.specs.Checking.{IsRead};
ghost use Rattle.console.specs.Contents.{IsFront};
ghost use Rattle.console.specs.declared.bases.TheConstants.{LONGEST_BASE};
ghost use Rattle.console.specs.declared.fault.CheckFault.TheVariants.{NoMemory, Write};

use crate::fault::CheckFault;
use crate::input::read_front;
use authenticator::{Checked, Refusal};
use challenge::{Base, check_base_file};
use rpc::records::{Counting, write_bytes};
use secure_log::are_bytes;
use std::alloc::{AllocError, Global};
use std::io::{Read, Write};

/// The most bytes of a file with a base: 3,080 of a roster and 67,306,100 of a base.
pub(crate) const LONGEST_BASE: usize = 67_309_180;

/// What is said of a file that is to hold a base.
#[derive(Clone, Copy)]
pub enum BaseJudgement {
    /// It is a roster's text with that of a base after it, which is good under that roster.
    Base {
        /// The node of whose log it is.
        node: u32,
        /// The number of its CHECK.
        at: u64,
    },
    /// It isn't, by this refusal; never `NoMemory`.
    NoBase(Refusal),
}

/// The base that a file holds which begins with these bytes: with all, or with more than a file with a base
/// has; or why it holds none, which is never `NoMemory`. `AllocError` comes only where a growth was refused.
fn base_in(alloc: Global, bytes: &[u8]) -> Result<Result<Checked<Base>, Refusal>, AllocError>
    ensures base { (input : List ℕ) → IsFront LONGEST_BASE bytes.now input →
        IfOk result (λ held. IfOk held (λ b. Holds input b.value b.member)) }
    ensures none { (input : List ℕ) → IsFront LONGEST_BASE bytes.now input →
        IfOk result (λ held. IfErr held (λ refusal. IsRefused input refusal)) }
{
    are_bytes(bytes);
    match check_base_file(alloc, bytes) {
        Ok(base) => Ok(Ok(base)),
        Err(refusal) if refusal != Refusal::NoMemory => Ok(Err(refusal)),
        Err(_) => Err(AllocError),
    }
}

/// Reads a file to its end, or to more bytes than a roster with a base after it can have, and answers the base
/// in it as `challenge::check_base_file` does, or why it holds none, which is never `NoMemory`. `Read` comes
/// where a read failed, and then the reader's count rose; `NoMemory` where memory was refused; never `Write`.
pub fn read_base<R: Read>(
    alloc: Global,
    reader: &mut Counting<R>,
) -> Result<Result<Checked<Base>, Refusal>, CheckFault>
    ensures base { IfOk result (λ held. IfOk held (λ b. IfSome (R.remaining reader.old.inner) (λ input.
        Holds input b.value b.member))) }
    ensures none { IfOk result (λ held. IfErr held (λ refusal. IfSome (R.remaining reader.old.inner) (λ input.
        IsRefused input refusal))) }
    ensures kept { OnOk result (reader.new.count ≡ reader.old.count) }
    ensures memory { IsErrOf result NoMemory → reader.new.count ≡ reader.old.count }
    ensures read { IfErr result (λ e. IsRead e → Rises reader.old.count reader.new.count) }
    ensures write { ¬ IsErrOf result Write }
{
    let bytes = read_front(alloc, LONGEST_BASE, reader)?;
    let held = base_in(alloc, &bytes)?;
    Ok(held)
}

/// What is said of the base that a file holds, or of why it holds none.
fn judgement_of(held: &Result<Checked<Base>, Refusal>) -> BaseJudgement
    ensures base { IfOk held.now (λ b. result ≡ BaseJudgement.Base b.value.showing.node b.value.at) }
    ensures none { IfErr held.now (λ refusal. result ≡ BaseJudgement.NoBase refusal) }
{
    match held {
        Ok(base) => BaseJudgement::Base {
            node: base.value().showing().node(),
            at: base.value().at().get(),
        },
        Err(refusal) => BaseJudgement::NoBase(*refusal),
    }
}

/// What is said of a file that is read as by `read_base`.
fn read_judgement<R: Read>(
    alloc: Global,
    reader: &mut Counting<R>,
) -> Result<BaseJudgement, CheckFault>
    ensures judged { IfOk result (λ judgement. IfSome (R.remaining reader.old.inner) (λ input.
        JudgesBase input judgement)) }
    ensures kept { OnOk result (reader.new.count ≡ reader.old.count) }
    ensures memory { IsErrOf result NoMemory → reader.new.count ≡ reader.old.count }
    ensures read { IfErr result (λ e. IsRead e → Rises reader.old.count reader.new.count) }
    ensures write { ¬ IsErrOf result Write }
{
    let held = read_base(alloc, reader)?;
    Ok(judgement_of(&held))
}

/// The line that says it.
fn base_line(alloc: Global, judgement: BaseJudgement) -> Result<String, AllocError>
    ensures { IfOk result (λ text. string_bytes text ≡ base_line judgement) }
{
    match judgement {
        BaseJudgement::Base { node, at } => format!(in alloc; "base {node} {at}\n"),
        BaseJudgement::NoBase(_) => format!(in alloc; "no base\n"),
    }
}

/// Reads a file to its end, or to more bytes than a roster with a base after it can have, checks the base in
/// it as `challenge::check_base_file` does, and writes the line `base N K`, with the node and the number of
/// the CHECK, or `no base`. `Read` comes where a read failed, and then the reader's count rose and nothing
/// was written; `Write` where a write failed: then a part of that line was written, and the writer's count
/// rose. `NoMemory` comes where memory was refused, and then nothing was written.
pub fn check_base<R: Read, W: Write>(
    alloc: Global,
    reader: &mut Counting<R>,
    writer: &mut Counting<W>,
) -> Result<BaseJudgement, CheckFault>
    ensures judged { IfOk result (λ judgement. IfSome (R.remaining reader.old.inner) (λ input.
        JudgesBase input judgement)) }
    ensures written { IfOk result (λ judgement.
        Appends (W.contents writer.old.inner) (W.contents writer.new.inner) (base_line judgement)) }
    ensures kept { OnOk result
        ((reader.new.count ≡ reader.old.count) × (writer.new.count ≡ writer.old.count)) }
    ensures memory { IsErrOf result NoMemory
        → (reader.new.count ≡ reader.old.count) × (writer.new ≡ writer.old) }
    ensures read { IfErr result (λ e. IsRead e
        → (writer.new ≡ writer.old) × Rises reader.old.count reader.new.count) }
    ensures write { IsErrOf result Write
        → TellsBasePart (R.remaining reader.old.inner) (W.contents writer.old.inner) (W.contents writer.new.inner)
        × Rises writer.old.count writer.new.count × (reader.new.count ≡ reader.old.count) }
{
    let judgement = read_judgement(alloc, reader)?;
    let line = base_line(alloc, judgement)?;
    match write_bytes(writer, line.as_bytes()) {
        Ok(()) => Ok(judgement),
        Err(_) => Err(CheckFault::Write),
    }
}
