//! Signatures as values: their format, and their blob with what a security key adds.

ghost use Rattle.std.specs.Prelude.{◌≡◌, ◌+◌, ◌<◌, ◌^◌};
ghost use Rattle.picky_cert_parts.specs.Signature.{blob_size, blob_fits};

use crate::signature_format::SshSignatureFormat;
use picky_wire::{Bytes, NoMemory, TryClone};
use std::alloc::Global;

/// What a signature has after its format (RFC 4253, section 6.6; of a security key, PROTOCOL.u2f).
#[derive(Debug, Drop, PartialEq, Eq)]
pub enum SshSignatureBlob {
    /// The string of the signature.
    Standard(Bytes),
    /// The string of the signature, and then flags and a counter.
    Sk {
        payload: Bytes,
        flags: u8,
        counter: u32,
    },
}

impl SshSignatureBlob {
    /// How many bytes its payload has, and 5 more for flags and counter (PROTOCOL.u2f).
    pub fn size(&self) -> usize
        ensures size { result ≡ blob_size self.now }
        ensures small { result < 2 ^ 32 + 5 }
    {
        match self {
            SshSignatureBlob::Standard(payload) => payload.as_slice().len(),
            SshSignatureBlob::Sk { payload, .. } => payload.as_slice().len() + 5,
        }
    }

    /// Whether it has flags and a counter exactly where signatures of the format do (RFC 4253, section 6.6; PROTOCOL.u2f).
    pub fn fits(&self, format: SshSignatureFormat) -> bool
        ensures { result ≡ blob_fits format self.now }
    {
        match self {
            SshSignatureBlob::Standard(_) => !format.is_sk(),
            SshSignatureBlob::Sk { .. } => format.is_sk(),
        }
    }
}

impl TryClone for SshSignatureBlob {
    fn try_clone(&self, alloc: Global) -> Result<SshSignatureBlob, NoMemory> {
        match self {
            SshSignatureBlob::Standard(payload) => {
                let payload = payload.try_clone(alloc)?;
                Ok(SshSignatureBlob::Standard(payload))
            }
            SshSignatureBlob::Sk {
                payload,
                flags,
                counter,
            } => {
                let payload = payload.try_clone(alloc)?;
                Ok(SshSignatureBlob::Sk {
                    payload,
                    flags: *flags,
                    counter: *counter,
                })
            }
        }
    }
}

/// A signature: its format and its blob.
#[derive(Debug, Drop, PartialEq, Eq)]
pub struct SshSignature {
    pub format: SshSignatureFormat,
    pub blob: SshSignatureBlob,
}

impl TryClone for SshSignature {
    fn try_clone(&self, alloc: Global) -> Result<SshSignature, NoMemory> {
        let blob = self.blob.try_clone(alloc)?;
        Ok(SshSignature {
            format: self.format,
            blob,
        })
    }
}
