//! Pickles that more than one crate of tests takes.

use std::alloc::{AllocError, Global};

/// How many bytes a large pickle has.
pub const LARGE: usize = 268_435_456;

/// A large pickle: one BINBYTES and STOP.
pub fn large(alloc: Global) -> Result<Vec<u8>, AllocError> {
    let mut bytes = vec![in alloc; 0u8; LARGE]?;
    let front: &[u8] = b"B\xfa\xff\xff\x0f";
    for (byte, want) in bytes.iter_mut().zip(front) {
        *byte = *want;
    }
    if let Some(last) = bytes.last_mut() {
        *last = b'.';
    }
    Ok(bytes)
}
