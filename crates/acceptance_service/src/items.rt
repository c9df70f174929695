//! Items in bytes (RFC 4506): with memory at hand, each is written and read.

use std::alloc::Global;
use xdr::{Reader, Writer, read_array};

/// Appends numbers.
fn put_numbers(out: &mut Vec<u8>) -> bool {
    out.put_u32(7).is_ok() && out.put_u64(4_294_967_298).is_ok() && out.put_bool(true).is_ok()
}

/// Appends opaque data of each kind, and an array.
fn put_texts(out: &mut Vec<u8>) -> bool {
    out.put_opaque(b"hello").is_ok()
        && out.put_fixed(b"ab").is_ok()
        && out.put_u32s(&[1, 2]).is_ok()
}

#[test]
fn writes_numbers(rt: HostRuntime) {
    let mut out = Vec::new(rt.alloc());
    let numbers = [0, 0, 0, 7, 0, 0, 0, 1, 0, 0, 0, 2, 0, 0, 0, 1];
    assert!(rt; put_numbers(&mut out) && out.as_slice() == numbers.as_slice());
}

#[test]
fn writes_texts_and_arrays(rt: HostRuntime) {
    let mut out = Vec::new(rt.alloc());
    let texts = [
        0, 0, 0, 5, b'h', b'e', b'l', b'l', b'o', 0, 0, 0, b'a', b'b', 0, 0, 0, 0, 0, 1, 0, 0, 0, 2,
    ];
    assert!(rt; put_texts(&mut out) && out.as_slice() == texts.as_slice());
}

/// The array of 100 numbers that bytes begin with.
fn numbers_in(alloc: Global, bytes: &[u8]) -> Option<Vec<u32>> {
    read_array(alloc, &mut Reader::new(bytes), 100).ok()
}

/// Whether an array of 100 numbers is written in 404 bytes, and read back.
fn reads_back(alloc: Global, out: &mut Vec<u8>) -> bool {
    if out.put_u32(100).is_err() || out.put_u32s(&[7; 100]).is_err() || out.len() != 404 {
        return false;
    }
    match numbers_in(alloc, out) {
        Some(numbers) => numbers.as_slice() == [7; 100].as_slice(),
        None => false,
    }
}

/// Whether opaque data of these lengths is appended.
fn puts_long(out: &mut Vec<u8>) -> bool {
    out.put_opaque(&[8; 12288]).is_ok() && out.put_fixed(&[9; 12285]).is_ok()
}

#[test]
fn writes_and_reads_long_items(rt: HostRuntime) {
    let mut out = Vec::new(rt.alloc());
    assert!(rt; reads_back(rt.alloc(), &mut out));
    assert!(rt; puts_long(&mut out) && out.len() == 404 + 12292 + 12288);
}
