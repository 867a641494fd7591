//! A file as it is sealed, while its private bytes are still open.

ghost use Rattle.std.specs.Prelude.{◌≡◌, ◌++◌, true, length, IfOk};
ghost use Rattle.picky_kv.specs.declared.PpkVersionKey.TheVariants.{V3};
ghost use Rattle.picky_keys.specs.LineRefusal.{is_short};
ghost use Rattle.picky_ppk_file.specs.File.{version_of};
ghost use Rattle.picky_ppk.specs.Sealed.{file_to_seal, sealing_under as sealing_under_of};

use picky_ppk_file::{PpkFile, PpkSealing};
use picky_ppk_parts::{Argon2Params, PpkEncryptionConfig, PpkVersion};
use picky_wire::{Bytes, NoMemory};
use std::alloc::Global;

/// The file as `Ppk::into_encrypted` seals it, with its private bytes and padding still open, and the MAC that it had.
/// Refuses: `NoMemory`.
pub fn file_draft(
    alloc: Global,
    file: PpkFile,
    config: PpkEncryptionConfig,
    salt: &[u8],
    padding: &[u8],
) -> Result<PpkFile, NoMemory>
    requires salt { version_of file.sealing ≡ V3 → length salt.now ≡ config.argon2_salt_size }
    requires short { is_short (file.private_bytes ++ padding.now) ≡ true }
    ensures { IfOk result (λ draft. draft ≡ file_to_seal config salt.now padding.now file) }
{
    let sealing = match sealing_under(alloc, file.sealing.version(), config, salt) {
        Ok(sealing) => sealing,
        Err(NoMemory) => {
            drop(file);
            return Err(NoMemory);
        }
    };
    let PpkFile {
        algorithm,
        comment,
        public_key,
        private_bytes,
        mac,
        ..
    } = file;
    match padded(private_bytes, padding) {
        Ok(private_bytes) => Ok(PpkFile {
            sealing,
            algorithm,
            comment,
            public_key,
            private_bytes,
            mac,
        }),
        Err(NoMemory) => {
            drop(sealing);
            Err(NoMemory)
        }
    }
}

/// What seals a file.
fn sealing_under(
    alloc: Global,
    version: PpkVersion,
    config: PpkEncryptionConfig,
    salt: &[u8],
) -> Result<PpkSealing, NoMemory>
    requires { version ≡ V3 → length salt.now ≡ config.argon2_salt_size }
    ensures { IfOk result (λ sealing. sealing ≡ sealing_under_of version config salt.now) }
{
    match version {
        PpkVersion::V2 => Ok(PpkSealing::SealedV2),
        PpkVersion::V3 => match Bytes::new(alloc, salt) {
            Ok(salt) => Ok(PpkSealing::SealedV3(Argon2Params {
                flavor: config.argon2_flavour,
                memory: config.argon2_memory,
                passes: config.argon2_passes,
                parallelism: config.argon2_parallelism,
                salt,
            })),
            Err(_) => Err(NoMemory),
        },
    }
}

/// The bytes with the padding behind them. Refuses: `NoMemory`.
fn padded(bytes: Bytes, padding: &[u8]) -> Result<Bytes, NoMemory>
    requires { is_short (bytes ++ padding.now) ≡ true }
    ensures { IfOk result (λ padded. padded ≡ bytes ++ padding.now) }
{
    let mut bytes = bytes.into_vec();
    match bytes.extend_from_slice(padding) {
        Ok(()) => Ok(Bytes::from_vec(bytes)),
        Err(_) => Err(NoMemory),
    }
}
