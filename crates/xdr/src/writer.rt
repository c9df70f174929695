//! Appends items to bytes.

ghost use Rattle.std.specs.Prelude.{◌≡◌, ◌<◌, ◌≤◌, ◌^◌, ◌++◌, ◌-◌, ◌*◌, ◌%◌, take, List, ℕ, length};
ghost use Rattle.std.specs.Prelude.{replicate, OnOk, OnErr, vec_len, vec_capacity};
ghost use Rattle.xdr.specs.Item.{word, hyper, flag, opaque, fixed, repeated, spelling, padding};
ghost use Rattle.xdr.specs.Writing.{Writes, Adds, Appends, Spends};

use std::alloc::AllocError;

/// Appends items to bytes. A call that is refused memory leaves the bytes as they were.
pub trait Writer {
    /// The bytes so far.
    ghost contents: { Self → List ℕ };

    /// How many bytes may be appended before memory is asked for.
    ghost spare: { Self → ℕ };

    /// Appends an unsigned integer or an enum, 4 bytes (RFC 4506, sections 4.2 and 4.3).
    fn put_u32(&mut self, n: u32) -> Result<(), AllocError>
        ensures writes { Writes word n (contents self.old) result (contents self.new) }
        ensures room { Spends 4 (spare self.old) result (spare self.new) };

    /// Appends an unsigned hyper integer, 8 bytes (RFC 4506, section 4.5).
    fn put_u64(&mut self, n: u64) -> Result<(), AllocError>
        ensures writes { Writes hyper n (contents self.old) result (contents self.new) }
        ensures room { Spends 8 (spare self.old) result (spare self.new) };

    /// Appends unsigned integers one after the other, without a count (RFC 4506, section 4.12).
    fn put_u32s(&mut self, ns: &[u32]) -> Result<(), AllocError>
        ensures writes { Writes (repeated (length ns.now) word) ns.now
            (contents self.old) result (contents self.new) }
        ensures room { Spends (4 * length ns.now) (spare self.old) result (spare self.new) };

    /// Appends a bool, 4 bytes (RFC 4506, section 4.4).
    fn put_bool(&mut self, b: bool) -> Result<(), AllocError>
        ensures writes { Writes flag b (contents self.old) result (contents self.new) }
        ensures room { Spends 4 (spare self.old) result (spare self.new) };

    /// Appends bytes whose length is known, and zeros up to a multiple of four (RFC 4506, section 4.9).
    fn put_fixed(&mut self, bytes: &[u8]) -> Result<(), AllocError>
        ensures writes { Writes (fixed (length bytes.now)) bytes.now
            (contents self.old) result (contents self.new) }
        ensures room { Spends (length (spelling (fixed (length bytes.now)) bytes.now))
            (spare self.old) result (spare self.new) };

    /// Appends bytes after their length (RFC 4506, sections 4.10 and 4.11).
    fn put_opaque(&mut self, bytes: &[u8]) -> Result<(), AllocError>
        requires { length bytes.now < 2 ^ 32 }
        ensures writes { Writes (opaque (length bytes.now)) bytes.now
            (contents self.old) result (contents self.new) }
        ensures room { Spends (length (spelling (opaque (length bytes.now)) bytes.now))
            (spare self.old) result (spare self.new) };
}

impl Writer for Vec<u8> {
    ghost contents = { λ v. v.items };

    ghost spare = { λ v. vec_capacity v - vec_len v };

    #[tactic(auto, unfolding(crate::specs::Item::number_spelling))]
    fn put_u32(&mut self, n: u32) -> Result<(), AllocError> {
        self.extend_from_slice(&n.to_be_bytes())
    }

    #[tactic(auto, unfolding(crate::specs::Item::number_spelling))]
    fn put_u64(&mut self, n: u64) -> Result<(), AllocError> {
        self.extend_from_slice(&n.to_be_bytes())
    }

    fn put_u32s(&mut self, ns: &[u32]) -> Result<(), AllocError> {
        let start = self.len();
        let written = add_u32s(self, ns);
        all_or_nothing(self, start, written)
    }

    fn put_bool(&mut self, b: bool) -> Result<(), AllocError> {
        self.put_u32(if b { 1 } else { 0 })
    }

    fn put_fixed(&mut self, bytes: &[u8]) -> Result<(), AllocError> {
        let start = self.len();
        let result = add_fixed(self, bytes);
        all_or_nothing(self, start, result)
    }

    fn put_opaque(&mut self, bytes: &[u8]) -> Result<(), AllocError> {
        let start = self.len();
        let result = add_opaque(self, bytes);
        all_or_nothing(self, start, result)
    }
}

/// Takes out what stands after `start` where the call that wrote it was refused memory, and gives its
/// result. Nothing is taken out where `start` is the end or beyond it.
pub fn all_or_nothing(
    out: &mut Vec<u8>,
    start: usize,
    written: Result<(), AllocError>,
) -> Result<(), AllocError>
    ensures text { (text old : List ℕ) → length old ≡ start →
        Adds text old written out.old.items → Appends text old result out.new.items }
    ensures kept { OnOk written (out.new.items ≡ out.old.items) }
    ensures room { OnOk written
        (vec_capacity out.new - vec_len out.new ≡ vec_capacity out.old - vec_len out.old) }
    ensures cut { OnErr written (out.new.items ≡ take start out.old.items) }
    ensures written { result ≡ written }
{
    if written.is_err() {
        out.truncate(start);
    }
    written
}

const ZEROS: [u8; 4] = [0; 4];

/// How many numbers are written at once.
const AT_ONCE: usize = 32;

/// The spelling of a few numbers, and what is left of the room for them.
#[tactic(auto, unfolding(crate::specs::Item::number_spelling))]
fn spelling_of(ns: &[u32]) -> [u8; 4 * AT_ONCE]
    requires { length ns.now ≤ AT_ONCE }
    ensures { take (4 * length ns.now) result ≡ spelling (repeated (length ns.now) word) ns.now }
{
    let mut bytes = [0; 4 * AT_ONCE];
    let mut at = 0;
    for n in ns {
        bytes[at..at + 4].copy_from_slice(&n.to_be_bytes());
        at += 4;
    }
    bytes
}

/// Appends numbers; where memory is refused, some of them may stand.
fn add_u32s(out: &mut Vec<u8>, ns: &[u32]) -> Result<(), AllocError>
    ensures adds { Adds (spelling (repeated (length ns.now) word) ns.now) out.old.items result out.new.items }
    ensures room { Spends (4 * length ns.now) (vec_capacity out.old - vec_len out.old)
        result (vec_capacity out.new - vec_len out.new) }
{
    let mut rest = ns;
    while !rest.is_empty() {
        let (front, after) = rest.split_at(rest.len().min(AT_ONCE));
        out.extend_from_slice(&spelling_of(front)[..4 * front.len()])?;
        rest = after;
    }
    Ok(())
}

/// Appends bytes and their padding; where memory is refused, a part may stand.
fn add_fixed(out: &mut Vec<u8>, bytes: &[u8]) -> Result<(), AllocError>
    ensures adds { Adds (spelling (fixed (length bytes.now)) bytes.now) out.old.items result out.new.items }
    ensures room { Spends (length (spelling (fixed (length bytes.now)) bytes.now))
        (vec_capacity out.old - vec_len out.old) result (vec_capacity out.new - vec_len out.new) }
{
    let padding = (4 - bytes.len() % 4) % 4;
    out.extend_from_slice(bytes)?;
    out.extend_from_slice(&ZEROS[..padding])
}

/// Appends a length, bytes and their padding; where memory is refused, a part may stand.
fn add_opaque(out: &mut Vec<u8>, bytes: &[u8]) -> Result<(), AllocError>
    requires { length bytes.now < 2 ^ 32 }
    ensures adds { Adds (spelling (opaque (length bytes.now)) bytes.now) out.old.items result out.new.items }
    ensures room { Spends (length (spelling (opaque (length bytes.now)) bytes.now))
        (vec_capacity out.old - vec_len out.old) result (vec_capacity out.new - vec_len out.new) }
{
    out.put_u32(bytes.len() as u32)?;
    add_fixed(out, bytes)
}
