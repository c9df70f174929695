//! Files as bytes.

ghost use Rattle.std.specs.Prelude.{◌≡◌, ◌≤◌, ◌++◌, ℕ, List, IfErr, IfOk, IfSome, IsErrOf, OnOk, Option, false};
ghost use Rattle.std.specs.Io.KnownBytes.{Consumes, IsAtEnd};
ghost use Rattle.rpc.specs.Records.Count.{Rises};
ghost use Rattle.challenge.specs.evidence_spec.Evidence.{is_charge};
ghost use Rattle.console.specs.Checking.{HoldsNone, IsRead};
ghost use Rattle.console.specs.Contents.{IsContents, IsFront, IsWordAt, count_place, member_size};
ghost use Rattle.console.specs.declared.fault.CheckFault.TheVariants.{NoMemory, Write};

use crate::fault::CheckFault;
use authenticator::{MAX_MEMBERS, SECOND_FORM};
use rpc::records::Counting;
use std::alloc::Global;
use std::io::Read;
use xdr::Reader;

/// The bytes that are read at once.
const PIECE: usize = 8192;

/// The bytes of a file that are read before its first words are judged, so that all is told of a shorter one.
const HEAD: usize = 65_536;

/// The most bytes of a file with evidence.
const LONGEST: usize = 1_984_385_256;

/// What was read of a file.
#[derive(Drop)]
pub(crate) enum Contents {
    /// All of it.
    Whole(Vec<u8>),
    /// A beginning. No file that begins so, and is longer, holds a roster or evidence.
    Front(Vec<u8>),
}

/// The word at a place, if one is there.
fn word_at(bytes: &[u8], at: usize) -> Option<u32>
    ensures { IfSome result (λ n. IsWordAt bytes.now at n) }
{
    if at > bytes.len() {
        return None;
    }
    let mut reader = Reader::new(&bytes[at..]);
    match reader.u32() {
        Ok(word) => Some(word),
        Err(_) => None,
    }
}

/// Where a roster's text that begins with a word has the count of its members.
fn count_place(first: u32) -> usize
    ensures place { result ≡ count_place first }
    ensures few { result ≤ 4 }
{
    if first == SECOND_FORM { 4 } else { 0 }
}

/// How many bytes each member has in a roster's text that begins with a word.
fn member_size(first: u32) -> usize
    ensures size { result ≡ member_size first }
    ensures few { result ≤ 48 }
{
    if first == SECOND_FORM { 48 } else { 44 }
}

/// Whether a word is the number of a charge.
fn is_charge(word: u32) -> bool
    ensures { result ≡ is_charge word }
{
    word > 0 && word < 6
}

/// Whether a file that begins with a word may hold a roster or evidence, by the count of members and the
/// charge after them.
fn may_accuse(front: &[u8], first: u32) -> bool
    requires { IsWordAt front.now 0 first }
    ensures { result ≡ false → (more : List ℕ) → HoldsNone (front.now ++ more) }
{
    let place = count_place(first);
    let Some(count) = word_at(front, place) else {
        return true;
    };
    if count > MAX_MEMBERS {
        return false;
    }
    let members = count as usize * member_size(first);
    match word_at(front, place + members + 8) {
        Some(charge) => is_charge(charge),
        None => true,
    }
}

/// Whether a file that begins with these bytes may hold a roster or evidence, by how many they are, and, once
/// the head of it is there, by the form of its roster, the count of members and the charge.
fn may_hold(front: &[u8]) -> bool
    ensures { result ≡ false → (more : List ℕ) → HoldsNone (front.now ++ more) }
{
    if front.len() > LONGEST {
        return false;
    }
    if front.len() < HEAD {
        return true;
    }
    match word_at(front, 0) {
        Some(first) => may_accuse(front, first),
        None => true,
    }
}

/// Appends to some bytes what a reader gives by one read; false at its end. `Read` comes where the read
/// failed, and then the reader's count rose; `NoMemory` where memory was refused.
fn read_piece<R: Read>(
    reader: &mut Counting<R>,
    piece: &mut [u8; PIECE],
    bytes: &mut Vec<u8>,
) -> Result<bool, CheckFault>
    ensures taken { OnOk result ((had : Option (List ℕ)) →
        Consumes had (R.remaining reader.old.inner) bytes.old.items →
        Consumes had (R.remaining reader.new.inner) bytes.new.items) }
    ensures end { IfOk result (λ more. more ≡ false → IsAtEnd (R.remaining reader.new.inner)) }
    ensures kept { OnOk result (reader.new.count ≡ reader.old.count) }
    ensures memory { IsErrOf result NoMemory → reader.new.count ≡ reader.old.count }
    ensures read { IfErr result (λ e. IsRead e → Rises reader.old.count reader.new.count) }
    ensures written { IsErrOf result Write → ⊥ }
{
    match reader.read(piece) {
        Ok(0) => Ok(false),
        Ok(len) => {
            bytes.extend_from_slice(&piece[..len])?;
            Ok(true)
        }
        Err(error) => Err(CheckFault::Read(error)),
    }
}

/// What a reader gives up to its end, or up to the first piece with which no roster and no evidence can have
/// so many bytes or such first words. `Read` comes where a read failed, and then the reader's count rose;
/// `NoMemory` where memory was refused.
pub(crate) fn read_contents<R: Read>(
    alloc: Global,
    reader: &mut Counting<R>,
) -> Result<Contents, CheckFault>
    ensures found { IfOk result (λ c.
        IfSome (R.remaining reader.old.inner) (λ input. IsContents c input)) }
    ensures kept { OnOk result (reader.new.count ≡ reader.old.count) }
    ensures memory { IsErrOf result NoMemory → reader.new.count ≡ reader.old.count }
    ensures read { IfErr result (λ e. IsRead e → Rises reader.old.count reader.new.count) }
    ensures written { IsErrOf result Write → ⊥ }
{
    let mut bytes = Vec::new(alloc);
    let mut piece = [0; PIECE];
    for _ in 0..u64::MAX {
        if !may_hold(&bytes) {
            return Ok(Contents::Front(bytes));
        }
        if !read_piece(reader, &mut piece, &mut bytes)? {
            return Ok(Contents::Whole(bytes));
        }
    }
    // So many bytes no memory holds.
    Err(CheckFault::NoMemory)
}

/// What a reader gives up to its end, or up to the first piece with which it is more than so many bytes.
/// `Read` comes where a read failed, and then the reader's count rose; `NoMemory` where memory was refused.
pub(crate) fn read_front<R: Read>(
    alloc: Global,
    most: usize,
    reader: &mut Counting<R>,
) -> Result<Vec<u8>, CheckFault>
    ensures found { IfOk result (λ bytes.
        IfSome (R.remaining reader.old.inner) (λ input. IsFront most bytes.items input)) }
    ensures kept { OnOk result (reader.new.count ≡ reader.old.count) }
    ensures memory { IsErrOf result NoMemory → reader.new.count ≡ reader.old.count }
    ensures read { IfErr result (λ e. IsRead e → Rises reader.old.count reader.new.count) }
    ensures written { IsErrOf result Write → ⊥ }
{
    let mut bytes = Vec::new(alloc);
    let mut piece = [0; PIECE];
    for _ in 0..u64::MAX {
        if bytes.len() > most {
            return Ok(bytes);
        }
        if !read_piece(reader, &mut piece, &mut bytes)? {
            return Ok(bytes);
        }
    }
    // So many bytes no memory holds.
    Err(CheckFault::NoMemory)
}
