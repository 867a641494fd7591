//! A private key's blob, read from a source and written to a sink.

ghost use Rattle.std.specs.Prelude.{None, refl};
ghost use Rattle.picky_sshkey_blob.specs.Blob.{secret, secret_of};
ghost use Rattle.picky_sshkey_blob.specs.Key.{IsPrivateKey};
ghost use Rattle.picky_sshkey_blob.specs.BlobRefusal.{read_secret};

use crate::error::SshPrivateKeyError;
use crate::key::SshBasePrivateKey;
use crate::pieces::secret_pieces;
use crate::read::take_fields;
use picky_keys::KeyKind;
use picky_wire::{
    Sink, Source, SshComplexTypeDecode, SshComplexTypeEncode, SshElement, SshLayout, WireError,
    pieces_len, take_text, write_pieces,
};
use std::alloc::Global;

impl SshComplexTypeEncode for SshBasePrivateKey {
    type Error = SshPrivateKeyError;

    ghost spelling = { secret_of };

    ghost write_reason = { λ _. None };

    ghost keeps = { IsPrivateKey };

    ghost reason_is_no_want = { λ key same. Prim.cc same };

    /// Writes the blob (OpenSSH's PROTOCOL.key). Refuses: `IoError(WriteFault)`.
    fn encode<S: Sink>(&self, stream: &mut S) -> Result<(), SshPrivateKeyError> {
        match write_pieces(stream, &secret_pieces(self)) {
            Ok(()) => Ok(()),
            Err(e) => Err(SshPrivateKeyError::from(e)),
        }
    }

    fn spelling_len(&self) -> u64 {
        pieces_len(&secret_pieces(self))
    }
}

impl SshComplexTypeDecode for SshBasePrivateKey {
    ghost use Rattle.picky_sshkey_blob.specs.carried.BlobLayout.{secret_own};

    type Error = SshPrivateKeyError;

    ghost reads = { read_secret };

    ghost used = { secret.used };

    ghost own = { secret_own };

    /// The key of the blob that the bytes begin with (OpenSSH's PROTOCOL.key).
    ///
    /// Refuses, in order, by field: `IoError(ReadFault)`, `IoError(UnexpectedEnd)`, `FromUtf8Error`, `UnsupportedKeyType`,
    /// `KeyError`, `InvalidKeyFormat`, `TooLong`.
    fn decode<S: Source>(
        alloc: Global,
        stream: &mut S,
    ) -> Result<SshBasePrivateKey, SshPrivateKeyError> {
        let name = match take_text(alloc, stream) {
            Ok(name) => name,
            Err(stop) => return Err(SshPrivateKeyError::from(stop)),
        };
        match KeyKind::of_name(name.as_str()) {
            Some(kind) => match take_fields(alloc, stream, kind) {
                Ok(key) => Ok(key),
                Err(stop) => Err(SshPrivateKeyError::from(stop)),
            },
            None => Err(SshPrivateKeyError::UnsupportedKeyType(name)),
        }
    }
}

impl SshLayout for SshBasePrivateKey {
    ghost use Rattle.picky_sshkey_blob.specs.BlobLayout.{secret_layout};
    ghost use Rattle.picky_sshkey_blob.specs.carried.BlobLayout.{secret_reads_layout, secret_solid};

    ghost layout = { secret_layout };

    ghost reads_layout = { secret_reads_layout };

    ghost used_layout = { λ bytes. refl };

    ghost solid = { secret_solid };

    fn refusal(error: WireError) -> SshPrivateKeyError {
        SshPrivateKeyError::from(error)
    }
}

impl SshElement for SshBasePrivateKey {
    ghost use Rattle.picky_sshkey_blob.specs.carried.Blob.{secret_spells};

    ghost spelled = { λ key is _. secret_spells key is };
}
