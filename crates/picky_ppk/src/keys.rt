//! The keys of a sealed file.

ghost use Rattle.std.specs.Prelude.{◌≡◌, ◌<◌, ◌^◌, true, is_some, length, Ok, IfOk};
ghost use Rattle.picky_wire.specs.Count.{Rose};
ghost use Rattle.picky_suite.specs.Asked.{IsAskedAtMost, LeavesSuite};
ghost use Rattle.picky_ppk_parts.specs.Asked.{GivesUnlessFault};
ghost use Rattle.picky_ppk_parts.specs.Mac.{mac_bytes};
ghost use Rattle.picky_ppk_file.specs.File.{params_of};
ghost use Rattle.picky_ppk.specs.Keyed.{can_derive as can_derive_of, keys_under, keys_v2};
ghost use Rattle.picky_ppk.specs.Mac.{mac_under};
ghost use Rattle.picky_ppk.specs.inner.Keys.{keys_seen};

use crate::ppk::covered;
use picky_ppk_file::{PpkFile, PpkSealing};
use picky_ppk_parts::{KeyMaterialV2, KeyMaterialV3, Mac, PuttyError, mac_key_v2};
use picky_suite::{Suite, argon2_ok};
use picky_wire::NoMemory;
use std::alloc::Global;

/// The keys of a file, as its version makes them.
#[derive(Drop)]
pub enum FileKeys {
    V2 {
        material: KeyMaterialV2,
        mac_key: [u8; 20],
    },
    V3(KeyMaterialV3),
}

impl FileKeys {
    /// The keys that a passphrase makes: by SHA-1 in version 2, by Argon2 in version 3. Refuses: `SuiteFault`.
    #[tactic(auto, unfolding(picky_ppk_parts::specs::Material::material_v3))]
    pub fn derive<S: Suite>(
        suite: &mut S,
        sealing: &PpkSealing,
        passphrase: &str,
    ) -> Result<FileKeys, PuttyError>
        requires { can_derive_of sealing.now passphrase.now ≡ true }
        ensures gives { GivesUnlessFault PuttyError.SuiteFault keys_seen result
            (Ok (keys_under (S.meanings suite.old) sealing.now passphrase.now)) (is_some (params_of sealing.now))
            (Rose (S.faults suite.old) (S.faults suite.new)) }
        ensures suite { LeavesSuite S.meanings S.faults PuttyError.SuiteFault (is_some (params_of sealing.now)) result
            suite.old suite.new }
        ensures asked { IsAskedAtMost 1 S.calls suite.old suite.new }
    {
        match sealing {
            PpkSealing::Unsealed(_) | PpkSealing::SealedV2 => Ok(FileKeys::of_passphrase(
                passphrase,
            )),
            PpkSealing::SealedV3(params) => match KeyMaterialV3::derive(suite, params, passphrase) {
                Ok(material) => Ok(FileKeys::V3(material)),
                Err(e) => Err(e),
            },
        }
    }

    /// The keys of version 2.
    fn of_passphrase(passphrase: &str) -> FileKeys
        ensures { keys_seen result ≡ keys_v2 passphrase.now }
    {
        FileKeys::V2 {
            material: KeyMaterialV2::derive(passphrase),
            mac_key: mac_key_v2(passphrase),
        }
    }

    /// The cipher's key.
    pub fn cipher_key(&self) -> &[u8; 32]
        ensures { result.now ≡ (keys_seen self.now).key }
    {
        match self {
            FileKeys::V2 { material, .. } => material.cipher_key(),
            FileKeys::V3(material) => material.cipher_key(),
        }
    }

    /// The cipher's iv.
    pub fn cipher_iv(&self) -> [u8; 16]
        ensures { result ≡ (keys_seen self.now).iv }
    {
        match self {
            FileKeys::V2 { .. } => KeyMaterialV2::iv(),
            FileKeys::V3(material) => *material.cipher_iv(),
        }
    }

    /// The MAC's key.
    pub fn mac_key(&self) -> &[u8]
        ensures { result.now ≡ (keys_seen self.now).mac_key }
    {
        match self {
            FileKeys::V2 { mac_key, .. } => mac_key,
            FileKeys::V3(material) => material.hmac_key(),
        }
    }

    /// The MAC of a file with these private bytes, which aren't sealed. Refuses: `NoMemory`.
    pub fn mac<S: Suite>(
        &self,
        alloc: Global,
        suite: &S,
        file: &PpkFile,
        private: &[u8],
    ) -> Result<Mac, NoMemory>
        requires { length private.now < 2 ^ 32 }
        ensures { IfOk result (λ mac. mac_bytes mac
            ≡ mac_under (S.meanings suite.now) (keys_seen self.now).mac_key file.now private.now) }
    {
        let input = covered(alloc, file, private)?;
        Ok(Mac::compute(
            suite,
            file.sealing.version(),
            self.mac_key(),
            input.as_slice(),
        ))
    }
}

/// Whether Argon2 can be run, where it is.
#[tactic(auto, unfolding(picky_ppk_parts::specs::Material::params_fit))]
pub fn can_derive(sealing: &PpkSealing, passphrase: &str) -> bool
    ensures { result ≡ can_derive_of sealing.now passphrase.now }
{
    match sealing {
        PpkSealing::Unsealed(_) | PpkSealing::SealedV2 => true,
        PpkSealing::SealedV3(params) => argon2_ok(
            params.memory,
            params.passes,
            params.parallelism,
            passphrase.len(),
            params.salt.as_slice().len(),
        ),
    }
}
