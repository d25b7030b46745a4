// The bytes of a message, which its copies share.
ghost use Rattle.std.specs.Prelude.{◌≡◌, ◌==◌, ◌++◌, [], length, List, ℕ, IfOk};

use bytes::{Bytes, BytesMut};
use std::alloc::{AllocError, Global};
use std::marker::Model;

/// A body: bytes that contracts see as their list. A clone shares them, and copies none.
#[derive(Clone, Drop)]
pub struct Body {
    bytes: Bytes,
}

impl Model for Body {
    ghost Value = { List ℕ };

    ghost view = { λ b. b.bytes };
}

// These bytes, as nobody else's.
fn own_bytes(alloc: Global, bytes: Bytes) -> Result<BytesMut, AllocError>
    ensures { IfOk result (λ b. b.items ≡ bytes) }
{
    match bytes.try_into_mut() {
        Ok(own) => Ok(own),
        Err(shared) => {
            let mut own = BytesMut::new(alloc);
            own.extend_from_slice(shared.as_slice())?;
            Ok(own)
        }
    }
}

impl Body {
    /// No bytes; takes no memory.
    pub fn new() -> Self
        ensures { result ≡ [] }
    {
        Body {
            bytes: Bytes::new(),
        }
    }

    /// A copy of these bytes.
    pub fn of(alloc: Global, bytes: &[u8]) -> Result<Self, AllocError>
        ensures { IfOk result (λ b. b ≡ bytes.now) }
    {
        Ok(Body {
            bytes: Bytes::copy_from_slice(alloc, bytes)?,
        })
    }

    /// These bytes, of which none is copied.
    pub fn from_vec(bytes: Vec<u8>) -> Result<Self, AllocError>
        ensures { IfOk result (λ b. b ≡ bytes.items) }
    {
        Ok(Body {
            bytes: Bytes::from_vec(bytes)?,
        })
    }

    /// These bytes and more behind them. Where no copy of the message stands, those that are there aren't
    /// copied.
    pub fn with(self, alloc: Global, more: &[u8]) -> Result<Self, AllocError>
        ensures { IfOk result (λ b. b ≡ self ++ more.now) }
    {
        let mut bytes = own_bytes(alloc, self.bytes)?;
        bytes.extend_from_slice(more)?;
        Ok(Body {
            bytes: bytes.freeze()?,
        })
    }

    pub fn as_slice(&self) -> &[u8]
        ensures { result.now ≡ self.now }
    {
        self.bytes.as_slice()
    }

    pub fn len(&self) -> usize
        ensures { result ≡ length self.now }
    {
        self.bytes.len()
    }

    pub fn is_empty(&self) -> bool
        ensures { result ≡ (length self.now == 0) }
    {
        self.bytes.is_empty()
    }
}
