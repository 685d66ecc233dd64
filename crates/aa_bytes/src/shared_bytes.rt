//! Bytes that several owners share.

ghost use Rattle.std.specs.Prelude.{◌≡◌, IfOk};

use std::alloc::{AllocError, Global};
use std::marker::Model;
use std::rc::RcSlice;

/// Bytes that several owners share. They never change, and are freed with their last owner. Contracts compare two of them by their bytes alone.
#[derive(Debug, Drop)]
pub struct SharedBytes {
    bytes: RcSlice<u8>,
}

impl Model for SharedBytes {
    ghost use Rattle.std.specs.Prelude.{List, ℕ};
    ghost use Rattle.std.specs.Rc.{rc_slice_items};

    ghost Value = { List ℕ };

    ghost view = { λ s. rc_slice_items s.bytes };
}

impl SharedBytes {
    /// A copy of these bytes, in memory of its own.
    ///
    /// # Errors
    ///
    /// Where memory runs out.
    pub fn from_slice(alloc: Global, bytes: &[u8]) -> Result<SharedBytes, AllocError>
        ensures { IfOk result (λ shared. shared ≡ bytes.now) }
    {
        Ok(SharedBytes {
            bytes: RcSlice::from_slice(alloc, bytes)?,
        })
    }

    /// The bytes, in order.
    pub fn as_slice(&self) -> &[u8]
        ensures { result.now ≡ self.now }
    {
        self.bytes.as_slice()
    }

    /// One more owner of these bytes, which aren't copied. It takes no memory.
    ///
    /// # Errors
    ///
    /// Where there are as many owners as can be counted.
    pub fn share(&self) -> Result<SharedBytes, AllocError>
        ensures { IfOk result (λ shared. shared ≡ self.now) }
    {
        Ok(SharedBytes {
            bytes: self.bytes.clone()?,
        })
    }
}

/// One more owner of these bytes, where there are any. It takes no memory.
///
/// # Errors
///
/// Where there are as many owners as can be counted.
pub fn share_option(bytes: &Option<SharedBytes>) -> Result<Option<SharedBytes>, AllocError>
    ensures { IfOk result (λ shared. shared ≡ bytes.now) }
{
    match bytes {
        None => Ok(None),
        Some(bytes) => Ok(Some(bytes.share()?)),
    }
}
