//! A file sealed.

ghost use Rattle.std.specs.Prelude.{◌≡◌, ◌≢◌, ◌<◌, ◌^◌, true, false, length, Ok, Err, IfOk, IfErr, OnOk};
ghost use Rattle.picky_wire.specs.Count.{Rose};
ghost use Rattle.picky_suite.specs.Asked.{GivesAsked, IsAskedAtMost, LeavesSuite};
ghost use Rattle.picky_kv.specs.declared.PpkVersionKey.TheVariants.{V3};
ghost use Rattle.picky_ppk_parts.specs.Aes.{is_aligned};
ghost use Rattle.picky_ppk_file.specs.File.{version_of};
ghost use Rattle.picky_ppk.specs.Keyed.{can_derive, keys_under};
ghost use Rattle.picky_ppk.specs.Mac.{mac_under};
ghost use Rattle.picky_ppk.specs.Sealed.{padding_len, encrypted, is_sealable, not_sealable, file_to_seal, seal_draft};
ghost use Rattle.picky_ppk.specs.Fresh.{IsDrawnFrom, fresh_for, can_draw, not_drawn, encrypted_fresh, asks_fresh};
ghost use Rattle.picky_ppk.specs.Fresh.{can_derive_by as can_derive_by_of};
ghost use Rattle.picky_ppk.specs.inner.Keys.{keys_seen};

use crate::draft::file_draft;
use crate::drawing::{SaltAndPadding, fresh};
use crate::keys::FileKeys;
use crate::ppk::{Ppk, mac_bytes, of_file};
use picky_ppk_file::PpkFile;
use picky_ppk_parts::aes::encrypt;
use picky_ppk_parts::{PpkEncryptionConfig, PpkVersion, PuttyError};
use picky_suite::{Suite, argon2_ok};
use picky_wire::{Bytes, MAX_LEN, NoMemory, TryClone};
use rand_core::Rng;
use std::alloc::Global;

impl Ppk {
    /// The file sealed under a passphrase, by AES-256-CBC: in version 3 under keys of Argon2 with the configuration and the
    /// salt, of which version 2 takes neither.
    ///
    /// The padding has `padding_len` bytes, and for version 3 the salt as many as the configuration says. Refuses, in
    /// order: `AlreadyEncrypted`; `Argon2`, where it can't be run with these numbers; `TooLong`; `SuiteFault`.
    #[tactic(auto, unfolding(crate::specs::Sealed::encrypted))]
    pub fn encrypt<S: Suite>(
        &self,
        alloc: Global,
        suite: &mut S,
        passphrase: &str,
        config: PpkEncryptionConfig,
        salt: &[u8],
        padding: &[u8],
    ) -> Result<Ppk, PuttyError>
        requires padding { length padding.now ≡ padding_len self.now }
        requires salt { version_of self.now.sealing ≡ V3 → length salt.now ≡ config.argon2_salt_size }
        ensures gives { GivesAsked PuttyError.NoMemory PuttyError.SuiteFault (λ ppk. ppk) result
            (encrypted (S.meanings suite.old) passphrase.now config salt.now padding.now self.now)
            (is_sealable passphrase.now self.now (file_to_seal config salt.now padding.now self.now))
            (Rose (S.faults suite.old) (S.faults suite.new)) }
        ensures suite { LeavesSuite S.meanings S.faults PuttyError.SuiteFault
            (is_sealable passphrase.now self.now (file_to_seal config salt.now padding.now self.now)) result
            suite.old suite.new }
        ensures asked { IsAskedAtMost 2 S.calls suite.old suite.new }
    {
        match sealable(self.file(), passphrase, config, salt, padding) {
            Ok(()) => {
                let file = self.file().try_clone(alloc)?;
                let draft = file_draft(alloc, file, config, salt, padding)?;
                sealed(alloc, suite, draft, passphrase)
            }
            Err(e) => Err(e),
        }
    }

    /// The same of a file that is moved: its comment and blob aren't copied. Refuses as `encrypt`.
    #[tactic(auto, unfolding(crate::specs::Sealed::encrypted))]
    pub fn into_encrypted<S: Suite>(
        self,
        alloc: Global,
        suite: &mut S,
        passphrase: &str,
        config: PpkEncryptionConfig,
        salt: &[u8],
        padding: &[u8],
    ) -> Result<Ppk, PuttyError>
        requires padding { length padding.now ≡ padding_len self }
        requires salt { version_of self.sealing ≡ V3 → length salt.now ≡ config.argon2_salt_size }
        ensures gives { GivesAsked PuttyError.NoMemory PuttyError.SuiteFault (λ ppk. ppk) result
            (encrypted (S.meanings suite.old) passphrase.now config salt.now padding.now self)
            (is_sealable passphrase.now self (file_to_seal config salt.now padding.now self))
            (Rose (S.faults suite.old) (S.faults suite.new)) }
        ensures suite { LeavesSuite S.meanings S.faults PuttyError.SuiteFault
            (is_sealable passphrase.now self (file_to_seal config salt.now padding.now self)) result
            suite.old suite.new }
        ensures asked { IsAskedAtMost 2 S.calls suite.old suite.new }
    {
        match sealable(self.file(), passphrase, config, salt, padding) {
            Ok(()) => {
                let draft = file_draft(alloc, self.into_file(), config, salt, padding)?;
                sealed(alloc, suite, draft, passphrase)
            }
            Err(e) => {
                drop(self);
                Err(e)
            }
        }
    }

    /// The same with a salt, in version 3, and then a padding that a generator gives. It isn't asked for no bytes, and not
    /// at all where the file is sealed already, or Argon2 can't be run. Refuses as `encrypt`.
    #[tactic(auto, using(crate::proofs::FreshLemmas::from_fresh))]
    pub fn encrypt_with_rng<S: Suite, R: Rng>(
        &self,
        alloc: Global,
        suite: &mut S,
        passphrase: &str,
        config: PpkEncryptionConfig,
        rng: &mut R,
    ) -> Result<Ppk, PuttyError>
        ensures gives { GivesAsked PuttyError.NoMemory PuttyError.SuiteFault (λ ppk. ppk) result
            (encrypted_fresh (S.meanings suite.old) passphrase.now config self.now (R.stream rng.old))
            (asks_fresh passphrase.now config self.now (R.stream rng.old))
            (Rose (S.faults suite.old) (S.faults suite.new)) }
        ensures suite { LeavesSuite S.meanings S.faults PuttyError.SuiteFault
            (asks_fresh passphrase.now config self.now (R.stream rng.old)) result suite.old suite.new }

        // Nothing is drawn, or all is; or, where memory runs out, the salt alone may be.
        ensures in_part { IsDrawnFrom config self.now (R.stream rng.old) (R.stream rng.new) }
        ensures drawn { can_draw passphrase.now config self.now ≡ true → result ≢ Err PuttyError.NoMemory
            → R.stream rng.new ≡ (fresh_for config self.now (R.stream rng.old)).left }
        ensures undrawn { can_draw passphrase.now config self.now ≡ false → rng.new ≡ rng.old }
        ensures asked { IsAskedAtMost 2 S.calls suite.old suite.new }
    {
        match drawable(self.file(), passphrase, config) {
            Ok(()) => match fresh(alloc, self, config, rng) {
                Ok(SaltAndPadding { salt, padding }) => self.encrypt(
                    alloc,
                    suite,
                    passphrase,
                    config,
                    salt.as_slice(),
                    padding.as_slice(),
                ),
                Err(NoMemory) => Err(PuttyError::NoMemory),
            },
            Err(e) => Err(e),
        }
    }
}

// ---- what is judged

/// Judges what can be judged before the generator is asked.
fn drawable(file: &PpkFile, passphrase: &str, config: PpkEncryptionConfig) -> Result<(), PuttyError>
    ensures ok { OnOk result (can_draw passphrase.now config file.now ≡ true) }
    ensures err { IfErr result (λ e. (can_draw passphrase.now config file.now ≡ false) × (e ≡ not_drawn file.now)) }
{
    if file.sealing.is_sealed() {
        return Err(PuttyError::AlreadyEncrypted);
    }
    if !can_derive_by(file.sealing.version(), passphrase, config) {
        return Err(PuttyError::Argon2);
    }
    Ok(())
}

/// Judges what the suite would be asked.
fn sealable(
    file: &PpkFile,
    passphrase: &str,
    config: PpkEncryptionConfig,
    salt: &[u8],
    padding: &[u8],
) -> Result<(), PuttyError>
    requires padding { length padding.now < 16 }
    requires salt { version_of file.now.sealing ≡ V3 → length salt.now ≡ config.argon2_salt_size }
    ensures ok { OnOk result (is_sealable passphrase.now file.now (file_to_seal config salt.now padding.now file.now) ≡ true) }
    ensures err { IfErr result (λ e. (is_sealable passphrase.now file.now (file_to_seal config salt.now padding.now file.now) ≡ false)
        × (e ≡ not_sealable passphrase.now file.now (file_to_seal config salt.now padding.now file.now))) }
{
    match drawable(file, passphrase, config) {
        Ok(()) => {
            if file.private_bytes.as_slice().len() + padding.len() > MAX_LEN {
                return Err(PuttyError::TooLong);
            }
            Ok(())
        }
        Err(e) => Err(e),
    }
}

/// Answers whether Argon2 can be run for a sealing of this version, where it is: true in version 2, which has none; in
/// version 3 the limits of RFC 9106, section 3.1, on a passphrase of this length.
pub fn can_derive_by(version: PpkVersion, passphrase: &str, config: PpkEncryptionConfig) -> bool
    ensures { result ≡ can_derive_by_of version config passphrase.now }
{
    match version {
        PpkVersion::V2 => true,
        PpkVersion::V3 => argon2_ok(
            config.argon2_memory,
            config.argon2_passes,
            config.argon2_parallelism,
            passphrase.len(),
            config.argon2_salt_size as usize,
        ),
    }
}

// ---- the draft sealed

/// The draft sealed under the keys of the passphrase.
fn sealed<S: Suite>(
    alloc: Global,
    suite: &mut S,
    draft: PpkFile,
    passphrase: &str,
) -> Result<Ppk, PuttyError>
    requires derives { can_derive draft.sealing passphrase.now ≡ true }
    requires aligned { is_aligned draft.private_bytes ≡ true }
    ensures gives { GivesAsked PuttyError.NoMemory PuttyError.SuiteFault (λ ppk. ppk) result
        (Ok (seal_draft (S.meanings suite.old) (keys_under (S.meanings suite.old) draft.sealing passphrase.now) draft))
        true (Rose (S.faults suite.old) (S.faults suite.new)) }
    ensures suite { LeavesSuite S.meanings S.faults PuttyError.SuiteFault true result suite.old suite.new }
    ensures asked { IsAskedAtMost 2 S.calls suite.old suite.new }
{
    match FileKeys::derive(suite, &draft.sealing, passphrase) {
        Ok(keys) => sealed_under(alloc, suite, draft, &keys),
        Err(e) => {
            drop(draft);
            Err(e)
        }
    }
}

/// The draft sealed under these keys: its MAC covers the bytes before they are.
#[tactic(auto, unfolding(picky_ppk_parts::specs::Aes::sealed_message))]
fn sealed_under<S: Suite>(
    alloc: Global,
    suite: &mut S,
    draft: PpkFile,
    keys: &FileKeys,
) -> Result<Ppk, PuttyError>
    requires { is_aligned draft.private_bytes ≡ true }
    ensures gives { GivesAsked PuttyError.NoMemory PuttyError.SuiteFault (λ ppk. ppk) result
        (Ok (seal_draft (S.meanings suite.old) (keys_seen keys.now) draft))
        true (Rose (S.faults suite.old) (S.faults suite.new)) }
    ensures suite { LeavesSuite S.meanings S.faults PuttyError.SuiteFault true result suite.old suite.new }
    ensures asked { IsAskedAtMost 1 S.calls suite.old suite.new }
{
    let mac = match kept_mac(alloc, suite, keys, &draft, draft.private_bytes.as_slice()) {
        Ok(mac) => mac,
        Err(NoMemory) => {
            drop(draft);
            return Err(PuttyError::NoMemory);
        }
    };
    let PpkFile {
        sealing,
        algorithm,
        comment,
        public_key,
        private_bytes,
        ..
    } = draft;
    let mut block = private_bytes.into_vec();
    match encrypt(
        suite,
        block.as_mut_slice(),
        keys.cipher_key(),
        &keys.cipher_iv(),
    ) {
        Ok(()) => Ok(of_file(PpkFile {
            sealing,
            algorithm,
            comment,
            public_key,
            private_bytes: Bytes::from_vec(block),
            mac,
        })),
        Err(e) => {
            drop(sealing);
            Err(e)
        }
    }
}

/// The MAC of a file with these private bytes, which aren't sealed, kept.
fn kept_mac<S: Suite>(
    alloc: Global,
    suite: &S,
    keys: &FileKeys,
    file: &PpkFile,
    private: &[u8],
) -> Result<Bytes, NoMemory>
    requires { length private.now < 2 ^ 32 }
    ensures { IfOk result (λ mac. mac ≡ mac_under (S.meanings suite.now) (keys_seen keys.now).mac_key file.now private.now) }
{
    let mac = keys.mac(alloc, suite, file, private)?;
    mac_bytes(alloc, &mac)
}
