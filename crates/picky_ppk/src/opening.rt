//! A sealed file opened.

ghost use Rattle.std.specs.Prelude.{◌≡◌, ◌≢◌, ◌<◌, ◌^◌, true, false, take, length, vec_len, Ok, Err, IfOk, IfErr, OnOk};
ghost use Rattle.picky_wire_base.specs.Outcome.{and_then};
ghost use Rattle.picky_wire.specs.Count.{Rose};
ghost use Rattle.picky_wire_base.specs.Gives.{Gives};
ghost use Rattle.picky_suite.specs.Asked.{GivesAsked, IsAskedAtMost, LeavesSuite};
ghost use Rattle.picky_ppk_parts.specs.Aes.{is_aligned};
ghost use Rattle.picky_ppk_parts.specs.Counted.{counted};
ghost use Rattle.picky_ppk.specs.Accepted.{MacHolds};
ghost use Rattle.picky_ppk.specs.Mac.{CarriesMac};
ghost use Rattle.picky_ppk.specs.Opened.{decrypted, is_openable, not_openable};
ghost use Rattle.picky_ppk.specs.Opened.{opened_file as opened_file_of, unsealed as unsealed_of};
ghost use Rattle.picky_ppk.specs.inner.Keys.{keys_seen};

use crate::keys::{FileKeys, can_derive};
use crate::ppk::{Ppk, with_own_mac};
use picky_ppk_file::{PpkFile, PpkSealing};
use picky_ppk_parts::aes::{BLOCK_SIZE, decrypt};
use picky_ppk_parts::{PuttyError, counted_len};
use picky_suite::Suite;
use picky_wire::{Bytes, NoMemory, TryClone};
use std::alloc::Global;
use std::mem::replace;

impl Ppk {
    /// The file opened under a passphrase: it isn't sealed, and its private bytes end after their counted strings.
    ///
    /// Refuses, in order: `AlreadyDecrypted`; `Argon2`, where it can't be run with the file's numbers; `Aes`, where the
    /// block isn't whole; `SuiteFault`; `MacValidation`; `IoError(UnexpectedEnd)`, where a counted string is cut.
    #[tactic(auto, unfolding(crate::specs::Opened::decrypted), using(crate::proofs::AcceptedLaws::decrypted_holds))]
    pub fn decrypt<S: Suite>(
        &self,
        alloc: Global,
        suite: &mut S,
        passphrase: &str,
    ) -> Result<Ppk, PuttyError>
        ensures gives { GivesAsked PuttyError.NoMemory PuttyError.SuiteFault (λ ppk. ppk) result
            (decrypted (S.meanings suite.old) passphrase.now self.now) (is_openable passphrase.now self.now)
            (Rose (S.faults suite.old) (S.faults suite.new)) }
        ensures suite { LeavesSuite S.meanings S.faults PuttyError.SuiteFault (is_openable passphrase.now self.now) result
            suite.old suite.new }

        // The MAC that was kept is that of the fields and of what was opened.
        ensures covers { OnOk result (MacHolds (S.meanings suite.old) passphrase.now self.now) }

        // The answer carries the MAC of its own version and fields.
        ensures mac { IfOk result (λ ppk. CarriesMac (S.meanings suite.old) ppk) }
        ensures asked { IsAskedAtMost 2 S.calls suite.old suite.new }
    {
        match openable(self.file(), passphrase) {
            Ok(()) => match self.try_clone(alloc) {
                Ok(copy) => opened(alloc, suite, copy.into_file(), passphrase),
                Err(NoMemory) => Err(PuttyError::NoMemory),
            },
            Err(e) => Err(e),
        }
    }

    /// The same of a file that is handed over: its private bytes are opened in place, and its comment and blob are moved.
    /// Refuses as `decrypt`.
    #[tactic(auto, unfolding(crate::specs::Opened::decrypted), using(crate::proofs::AcceptedLaws::decrypted_holds))]
    pub fn into_decrypted<S: Suite>(
        self,
        alloc: Global,
        suite: &mut S,
        passphrase: &str,
    ) -> Result<Ppk, PuttyError>
        ensures gives { GivesAsked PuttyError.NoMemory PuttyError.SuiteFault (λ ppk. ppk) result
            (decrypted (S.meanings suite.old) passphrase.now self) (is_openable passphrase.now self)
            (Rose (S.faults suite.old) (S.faults suite.new)) }
        ensures suite { LeavesSuite S.meanings S.faults PuttyError.SuiteFault (is_openable passphrase.now self) result
            suite.old suite.new }

        // The MAC that was kept is that of the fields and of what was opened.
        ensures covers { OnOk result (MacHolds (S.meanings suite.old) passphrase.now self) }

        // The answer carries the MAC of its own version and fields.
        ensures mac { IfOk result (λ ppk. CarriesMac (S.meanings suite.old) ppk) }
        ensures asked { IsAskedAtMost 2 S.calls suite.old suite.new }
    {
        match openable(self.file(), passphrase) {
            Ok(()) => opened(alloc, suite, self.into_file(), passphrase),
            Err(e) => {
                drop(self);
                Err(e)
            }
        }
    }
}

/// Judges what the suite would be asked.
fn openable(file: &PpkFile, passphrase: &str) -> Result<(), PuttyError>
    ensures ok { OnOk result (is_openable passphrase.now file.now ≡ true) }
    ensures err { IfErr result (λ e. (is_openable passphrase.now file.now ≡ false) × (e ≡ not_openable passphrase.now file.now)) }
{
    if !file.sealing.is_sealed() {
        return Err(PuttyError::AlreadyDecrypted);
    }
    if !can_derive(&file.sealing, passphrase) {
        return Err(PuttyError::Argon2);
    }
    if file.private_bytes.as_slice().len() % BLOCK_SIZE != 0 {
        return Err(PuttyError::Aes);
    }
    Ok(())
}

/// The file opened under the keys of the passphrase.
#[tactic(auto, unfolding(crate::specs::Opened::decrypted))]
fn opened<S: Suite>(
    alloc: Global,
    suite: &mut S,
    file: PpkFile,
    passphrase: &str,
) -> Result<Ppk, PuttyError>
    requires { is_openable passphrase.now file ≡ true }
    ensures gives { GivesAsked PuttyError.NoMemory PuttyError.SuiteFault (λ ppk. ppk) result
        (decrypted (S.meanings suite.old) passphrase.now file) true (Rose (S.faults suite.old) (S.faults suite.new)) }
    ensures suite { LeavesSuite S.meanings S.faults PuttyError.SuiteFault true result suite.old suite.new }
    ensures mac { IfOk result (λ ppk. CarriesMac (S.meanings suite.old) ppk) }
    ensures asked { IsAskedAtMost 2 S.calls suite.old suite.new }
{
    match FileKeys::derive(suite, &file.sealing, passphrase) {
        Ok(keys) => opened_under(alloc, suite, file, &keys),
        Err(e) => {
            drop(file);
            Err(e)
        }
    }
}

/// The file opened under these keys.
#[tactic(auto, unfolding(picky_ppk_parts::specs::Aes::opened_message))]
fn opened_under<S: Suite>(
    alloc: Global,
    suite: &mut S,
    file: PpkFile,
    keys: &FileKeys,
) -> Result<Ppk, PuttyError>
    requires { is_aligned file.private_bytes ≡ true }
    ensures gives { GivesAsked PuttyError.NoMemory PuttyError.SuiteFault (λ ppk. ppk) result
        (opened_file_of (S.meanings suite.old) (keys_seen keys.now) file
        ((S.meanings suite.old).cbc_open (keys_seen keys.now).key (keys_seen keys.now).iv file.private_bytes))
        true (Rose (S.faults suite.old) (S.faults suite.new)) }
    ensures suite { LeavesSuite S.meanings S.faults PuttyError.SuiteFault true result suite.old suite.new }
    ensures mac { IfOk result (λ ppk. CarriesMac (S.meanings suite.old) ppk) }
    ensures asked { IsAskedAtMost 1 S.calls suite.old suite.new }
{
    let mut file = file;
    let private_bytes = replace(&mut file.private_bytes, Bytes::from_vec(Vec::new(alloc)));
    let mut block = private_bytes.into_vec();
    match decrypt(
        suite,
        block.as_mut_slice(),
        keys.cipher_key(),
        &keys.cipher_iv(),
    ) {
        Ok(()) => opened_file(alloc, suite, file, keys, block),
        Err(e) => {
            drop(file);
            Err(e)
        }
    }
}

/// The file of the opened bytes, where its MAC covers them. Its own private bytes say nothing.
#[tactic(auto, using(crate::proofs::OpenedLemmas::no_fault))]
fn opened_file<S: Suite>(
    alloc: Global,
    suite: &S,
    file: PpkFile,
    keys: &FileKeys,
    plain: Vec<u8>,
) -> Result<Ppk, PuttyError>
    requires { vec_len plain < 2 ^ 32 }
    ensures gives { Gives PuttyError.NoMemory (λ ppk. ppk) result
        (opened_file_of (S.meanings suite.now) (keys_seen keys.now) file plain.items) }
    ensures no_fault { result ≢ Err PuttyError.SuiteFault }
    ensures mac { IfOk result (λ ppk. CarriesMac (S.meanings suite.now) ppk) }
{
    match keys.mac(alloc, suite, &file, plain.as_slice()) {
        Ok(mac) => {
            if mac.as_slice() != file.mac.as_slice() {
                drop(file);
                return Err(PuttyError::MacValidation);
            }
            cut(alloc, suite, file, plain)
        }
        Err(NoMemory) => {
            drop(file);
            Err(PuttyError::NoMemory)
        }
    }
}

/// The file of the opened bytes, cut after their counted strings.
#[tactic(auto, using(crate::proofs::OpenedLemmas::no_fault))]
fn cut<S: Suite>(alloc: Global, suite: &S, file: PpkFile, plain: Vec<u8>) -> Result<Ppk, PuttyError>
    requires { vec_len plain < 2 ^ 32 }
    ensures gives { Gives PuttyError.NoMemory (λ ppk. ppk) result
        (and_then (counted file.algorithm plain.items) (λ n. Ok (unsealed_of (S.meanings suite.now) file (take n plain.items)))) }
    ensures no_fault { result ≢ Err PuttyError.SuiteFault }
    ensures mac { IfOk result (λ ppk. CarriesMac (S.meanings suite.now) ppk) }
{
    match counted_len(file.algorithm, plain.as_slice()) {
        Ok(len) => {
            let mut plain = plain;
            plain.truncate(len);
            Ok(unsealed(alloc, suite, file, Bytes::from_vec(plain))?)
        }
        Err(e) => {
            drop(file);
            Err(e)
        }
    }
}

/// The file as it isn't sealed, of these private bytes, with its own MAC.
#[tactic(auto, unfolding(crate::specs::Mac::own_mac))]
fn unsealed<S: Suite>(
    alloc: Global,
    suite: &S,
    file: PpkFile,
    private_bytes: Bytes,
) -> Result<Ppk, NoMemory>
    ensures is { IfOk result (λ ppk. ppk ≡ unsealed_of (S.meanings suite.now) file private_bytes) }
    ensures mac { IfOk result (λ ppk. CarriesMac (S.meanings suite.now) ppk) }
{
    let mut file = file;
    let version = file.sealing.version();
    drop(replace(&mut file.sealing, PpkSealing::Unsealed(version)));
    drop(replace(&mut file.private_bytes, private_bytes));
    with_own_mac(alloc, suite, file)
}
