//! The bytes of an argument, as they are kept.

use std::alloc::{AllocError, Global};
use std::marker::Model;
use std::rc::RcSlice;

/// An argument of up to this many bytes is kept with its opcode, and takes no memory.
const MOST: usize = 14;

/// At most fourteen bytes, in the value itself.
#[derive(Debug, Drop)]
pub(crate) struct Inline {
    count: u8,
    bytes: [u8; MOST],
}

impl Model for Inline {
    ghost use Rattle.std.specs.Prelude.{◌≤◌, ℕ, List, take};
    ghost use Rattle.pickle_ops.specs.Argument.{most_inline};

    ghost Value = { List ℕ };

    ghost view = { λ f. take f.count f.bytes };

    ghost invariant = { λ f. f.count ≤ most_inline };
}

impl Inline {
    ghost use Rattle.std.specs.Prelude.{◌≡◌, ◌≤◌, length};
    ghost use Rattle.pickle_ops.specs.Argument.{most_inline};

    /// These bytes.
    pub(crate) fn of(bytes: &[u8]) -> Inline
        requires { length bytes.now ≤ most_inline }
        ensures { result ≡ bytes.now }
    {
        let mut inline = [0; MOST];
        inline[..bytes.len()].copy_from_slice(bytes);
        Inline {
            count: bytes.len() as u8,
            bytes: inline,
        }
    }

    /// The bytes.
    pub(crate) fn as_slice(&self) -> &[u8]
        ensures value { result.now ≡ self.now }
        ensures fits { length self.now ≤ most_inline }
    {
        &self.bytes[..usize::from(self.count)]
    }
}

/// More bytes than fit with an opcode, which others may share.
#[derive(Debug, Drop)]
pub(crate) struct Shared {
    bytes: RcSlice<u8>,
}

impl Model for Shared {
    ghost use Rattle.std.specs.Prelude.{◌<◌, ℕ, List, length};
    ghost use Rattle.std.specs.Rc.{rc_slice_items};
    ghost use Rattle.pickle_ops.specs.Argument.{most_inline};

    ghost Value = { List ℕ };

    ghost view = { λ m. rc_slice_items m.bytes };

    ghost invariant = { λ m. most_inline < length (rc_slice_items m.bytes) };
}

impl Shared {
    ghost use Rattle.std.specs.Prelude.{◌≡◌, ◌<◌, length, IfOk, OnErr};
    ghost use Rattle.pickle_ops.specs.Argument.{most_inline};

    /// These bytes, which are copied. It fails only where memory runs out.
    fn copied(alloc: Global, bytes: &[u8]) -> Result<Shared, AllocError>
        requires { most_inline < length bytes.now }
        ensures { IfOk result (λ m. m ≡ bytes.now) }
    {
        Ok(Shared {
            bytes: RcSlice::from_slice(alloc, bytes)?,
        })
    }

    /// The bytes.
    pub(crate) fn as_slice(&self) -> &[u8]
        ensures { result.now ≡ self.now }
    {
        self.bytes.as_slice()
    }

    /// The same bytes, which are not copied. It fails only where there are so many that share them that they cannot be
    /// counted.
    pub(crate) fn share(&self) -> Result<Shared, AllocError>
        ensures ok { IfOk result (λ m. m ≡ self.now) }
        ensures err { OnErr result (most_inline < length self.now) }
    {
        Ok(Shared {
            bytes: self.bytes.clone()?,
        })
    }
}

/// Bytes: a few are kept in the value itself and take no memory, more are kept once for all that share them.
#[derive(Debug, Drop)]
pub(crate) enum ArgBytes {
    /// At most fourteen bytes.
    Inline(Inline),
    /// More than fourteen bytes.
    Shared(Shared),
}

impl ArgBytes {
    ghost use Rattle.std.specs.Prelude.{◌≡◌, ◌<◌, ◌≤◌, [], length, IfOk, OnErr};
    ghost use Rattle.pickle_ops.specs.Inside.ArgBytes.{kept_bytes};
    ghost use Rattle.pickle_ops.specs.Argument.{most_inline};

    /// No bytes.
    pub(crate) fn none() -> ArgBytes
        ensures { kept_bytes result ≡ [] }
    {
        ArgBytes::Inline(Inline::of(&[]))
    }

    /// These bytes, which are copied. It fails only where memory runs out, and only where they are more than fourteen.
    pub(crate) fn of(alloc: Global, bytes: &[u8]) -> Result<ArgBytes, AllocError>
        ensures ok { IfOk result (λ k. kept_bytes k ≡ bytes.now) }
        ensures err { OnErr result (most_inline < length bytes.now) }
    {
        if bytes.len() > MOST {
            Ok(ArgBytes::Shared(Shared::copied(alloc, bytes)?))
        } else {
            Ok(ArgBytes::Inline(Inline::of(bytes)))
        }
    }

    /// At most fourteen bytes, which take no memory.
    pub(crate) fn inline(bytes: &[u8]) -> ArgBytes
        requires { length bytes.now ≤ most_inline }
        ensures { kept_bytes result ≡ bytes.now }
    {
        ArgBytes::Inline(Inline::of(bytes))
    }

    /// The bytes.
    pub(crate) fn as_slice(&self) -> &[u8]
        ensures { result.now ≡ kept_bytes self.now }
    {
        match self {
            ArgBytes::Inline(inline) => inline.as_slice(),
            ArgBytes::Shared(shared) => shared.as_slice(),
        }
    }

    /// The same bytes; more than fourteen are not copied. It fails only where they are more than fourteen, and there are so
    /// many that share them that they cannot be counted.
    pub(crate) fn share(&self) -> Result<ArgBytes, AllocError>
        ensures ok { IfOk result (λ k. kept_bytes k ≡ kept_bytes self.now) }
        ensures err { OnErr result (most_inline < length (kept_bytes self.now)) }
    {
        match self {
            ArgBytes::Inline(inline) => Ok(ArgBytes::Inline(Inline::of(inline.as_slice()))),
            ArgBytes::Shared(shared) => Ok(ArgBytes::Shared(shared.share()?)),
        }
    }
}
