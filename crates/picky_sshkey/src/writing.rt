//! A private key written as its envelope's text (OpenSSH's PROTOCOL.key).

ghost use Rattle.std.specs.Prelude.{◌≡◌, ◌⊎◌, ◌^◌, ◌<◌, ◌≤◌, ◌+◌, ◌++◌, [], ◌∷◌, ℕ, List, true, false, Ok, length};
ghost use Rattle.std.specs.Prelude.{is_some, IfOk, IfErr, OnOk, vec_len};
ghost use Rattle.std.specs.List.{concat};
ghost use Rattle.std.specs.Option.{IfSome};
ghost use Rattle.picky_suite.specs.Asked.{GivesAsked, IsAskedAtMost, LeavesSuite};
ghost use Rattle.picky_wire_base.specs.Wire.{string_of};
ghost use Rattle.picky_wire.specs.Count.{Rose};
ghost use Rattle.picky_wire_base.specs.Gives.{Gives};
ghost use Rattle.picky_sshkey_blob.specs.Pem.{pem_text as pem_text_of};
ghost use Rattle.picky_keys.specs.Blob.{blob_of};
ghost use Rattle.picky_keys.specs.Key.{IsString, IsText};
ghost use Rattle.picky_sshkey_blob.specs.Key.{IsPrivateKey, public_part};
ghost use Rattle.picky_sshkey.specs.Encodes.{Encodes};
ghost use Rattle.picky_sshkey.specs.Kdf.{HasSaltRoom, kdf_option_of};
ghost use Rattle.picky_sshkey.specs.Kept.{IsSshPrivateKey, read_again};
ghost use Rattle.picky_sshkey.specs.PrivateRefusal.{content_key, text_key};
ghost use Rattle.picky_sshkey.specs.Written.{content_under, envelope_of, key_content, key_text, lock_kept};
ghost use Rattle.picky_sshkey.specs.Written.{block_padding, plain_block};
ghost use Rattle.picky_sshkey.specs.Written.{text_writing_asks, key_writing_asks, written_cipher, written_kdf};
ghost use Rattle.picky_sshkey.specs.Written.{written_option};
ghost use Rattle.picky_sshkey.specs.Written.{may_derive as may_derive_of};
ghost use Rattle.picky_sshkey.specs.inner.Draft.{IsDraft};

use crate::cipher::Cipher;
use crate::draft::{PrivateKeyDraft, private_key_draft};
use crate::kdf::{BCRYPT, KdfOption, NONE, kdf_pieces};
use crate::private_key::SshPrivateKey;
use crate::sealing::open;
use picky_sshkey_blob::{Pem, SshPrivateKeyError, pem_text, pem_text_len};
use picky_suite::Suite;
use picky_wire::{Bytes, Failed, MAX_LEN, Piece, Sink, Text, push_pieces, write_all};
use std::alloc::{AllocError, Global};

/// What an envelope's bytes begin with.
const MAGIC: &[u8; 14] = b"openssh-key-v1";

impl SshPrivateKey {
    /// The envelope. With a passphrase its block is sealed by `aes256-ctr`, under the salt and rounds of `kdf`.
    ///
    /// OpenSSH's PROTOCOL.key. Refuses, in order: `HashingError`, where the passphrase, the salt and the rounds aren't
    /// `bcrypt_ok`; `TooLong`, where the envelope has 2^32 bytes or more; `SuiteFault`.
    #[tactic(auto, using(crate::proofs::KeptLaws::content_reads_back))]
    pub fn to_pem<S: Suite>(&self, alloc: Global, suite: &mut S) -> Result<Pem, SshPrivateKeyError>
        ensures gives { GivesAsked SshPrivateKeyError.NoMemory SshPrivateKeyError.SuiteFault (λ pem. pem.content) result
            (key_content (S.meanings suite.old) self.now) (key_writing_asks self.now) (Rose (S.faults suite.old) (S.faults suite.new)) }
        ensures suite { LeavesSuite S.meanings S.faults SshPrivateKeyError.SuiteFault (key_writing_asks self.now) result
            suite.old suite.new }

        // It is read back under the key's own passphrase, whatever follows.
        ensures read_back { IfOk result (λ pem. (more : List ℕ)
            → content_key (S.meanings suite.old) self.now.passphrase (pem.content ++ more) ≡ Ok (read_again self.now)) }
        ensures asked { IsAskedAtMost 2 S.calls suite.old suite.new }
    {
        match content_of_key(alloc, suite, self) {
            Ok(content) => Ok(Pem::take(content)),
            Err(e) => Err(e),
        }
    }

    /// The text of the envelope, with its last LF. Refuses as `to_pem`, but `TooLong` where the text has 2^32 bytes or more.
    #[tactic(auto, using(crate::proofs::KeptLaws::text_reads_back))]
    pub fn to_string<S: Suite>(
        &self,
        alloc: Global,
        suite: &mut S,
    ) -> Result<Text, SshPrivateKeyError>
        ensures gives { GivesAsked SshPrivateKeyError.NoMemory SshPrivateKeyError.SuiteFault (λ text. text) result
            (key_text (S.meanings suite.old) self.now) (text_writing_asks self.now) (Rose (S.faults suite.old) (S.faults suite.new)) }
        ensures suite { LeavesSuite S.meanings S.faults SshPrivateKeyError.SuiteFault (text_writing_asks self.now) result
            suite.old suite.new }

        // It is read back under the key's own passphrase, whatever follows.
        ensures read_back { IfOk result (λ text. (more : List ℕ)
            → text_key (S.meanings suite.old) self.now.passphrase (text ++ more) ≡ Ok (read_again self.now)) }
        ensures asked { IsAskedAtMost 2 S.calls suite.old suite.new }
    {
        match text_of_key(alloc, suite, self) {
            Ok(text) => Ok(text),
            Err(e) => Err(e),
        }
    }

    /// Writes the envelope's bytes. Refuses as `to_pem`, with nothing written, and then `IoError(WriteFault)`.
    pub fn encode<S: Suite, W: Sink>(
        &self,
        alloc: Global,
        suite: &mut S,
        stream: &mut W,
    ) -> Result<(), SshPrivateKeyError>
        ensures puts { Encodes W.tells W.written W.faults (key_content (S.meanings suite.old) self.now) (key_writing_asks self.now)
            (Rose (S.faults suite.old) (S.faults suite.new)) result stream.old stream.new }
        ensures suite { LeavesSuite S.meanings S.faults SshPrivateKeyError.SuiteFault (key_writing_asks self.now) result
            suite.old suite.new }
        ensures asked { IsAskedAtMost 2 S.calls suite.old suite.new }
    {
        match self.to_pem(alloc, suite) {
            Ok(pem) => match write_all(stream, pem.content()) {
                Ok(()) => Ok(()),
                Err(e) => Err(SshPrivateKeyError::from(e)),
            },
            Err(e) => Err(e),
        }
    }
}

/// The content of a key's envelope.
#[tactic(auto, unfolding(crate::specs::Written::key_content, crate::specs::Written::key_writing_asks, crate::specs::Written::sealable))]
fn content_of_key<S: Suite>(
    alloc: Global,
    suite: &mut S,
    key: &SshPrivateKey,
) -> Result<Bytes, SshPrivateKeyError>
    ensures gives { GivesAsked SshPrivateKeyError.NoMemory SshPrivateKeyError.SuiteFault (λ content. content) result
        (key_content (S.meanings suite.old) key.now) (key_writing_asks key.now) (Rose (S.faults suite.old) (S.faults suite.new)) }
    ensures suite { LeavesSuite S.meanings S.faults SshPrivateKeyError.SuiteFault (key_writing_asks key.now) result
        suite.old suite.new }
    ensures kept { OnOk result (IsSshPrivateKey key.now) }
    ensures asked { IsAskedAtMost 2 S.calls suite.old suite.new }
{
    match private_key_draft(alloc, key) {
        Ok(draft) => match sealed_content(alloc, suite, key, draft) {
            Ok(content) => Ok(Bytes::from_vec(content)),
            Err(e) => Err(e),
        },
        Err(e) => Err(e),
    }
}

/// Its text.
#[tactic(auto, unfolding(crate::specs::Written::key_text, crate::specs::Written::text_writing_asks, crate::specs::Written::sealable), using(picky_sshkey_blob::proofs::TextLaws::text_is_long))]
fn text_of_key<S: Suite>(
    alloc: Global,
    suite: &mut S,
    key: &SshPrivateKey,
) -> Result<Text, SshPrivateKeyError>
    ensures gives { GivesAsked SshPrivateKeyError.NoMemory SshPrivateKeyError.SuiteFault (λ text. text) result
        (key_text (S.meanings suite.old) key.now) (text_writing_asks key.now) (Rose (S.faults suite.old) (S.faults suite.new)) }
    ensures suite { LeavesSuite S.meanings S.faults SshPrivateKeyError.SuiteFault (text_writing_asks key.now) result
        suite.old suite.new }
    ensures kept { OnOk result (IsSshPrivateKey key.now) }
    ensures asked { IsAskedAtMost 2 S.calls suite.old suite.new }
{
    match private_key_draft(alloc, key) {
        Ok(draft) => {
            if pem_text_len(draft.len) > MAX_LEN {
                drop(draft);
                return Err(SshPrivateKeyError::TooLong);
            }
            match sealed_content(alloc, suite, key, draft) {
                Ok(content) => text_of(alloc, content.as_slice()),
                Err(e) => Err(e),
            }
        }
        Err(e) => Err(e),
    }
}

/// The content of the envelope, whose block is sealed first where there is a passphrase.
fn sealed_content<S: Suite>(
    alloc: Global,
    suite: &mut S,
    key: &SshPrivateKey,
    draft: PrivateKeyDraft,
) -> Result<Vec<u8>, SshPrivateKeyError>
    requires { IsDraft key.now draft }
    ensures gives { GivesAsked SshPrivateKeyError.NoMemory SshPrivateKeyError.SuiteFault (λ content. content.items) result
        (Ok (content_under (S.meanings suite.old) key.now (lock_kept key.now.passphrase)))
        (is_some (lock_kept key.now.passphrase)) (Rose (S.faults suite.old) (S.faults suite.new)) }
    ensures suite { LeavesSuite S.meanings S.faults SshPrivateKeyError.SuiteFault (is_some (lock_kept key.now.passphrase)) result
        suite.old suite.new }
    ensures len { IfOk result (λ content. vec_len content ≡ draft.len) }
    ensures asked { IsAskedAtMost 2 S.calls suite.old suite.new }
{
    let PrivateKeyDraft { outer, block, .. } = draft;
    match &key.passphrase {
        Some(pass) => {
            let mut block = block;
            let KdfOption { salt, rounds } = &key.kdf.option;
            match open(
                suite,
                Cipher::Aes256Ctr,
                pass.as_str(),
                salt.as_slice(),
                *rounds,
                block.as_mut_slice(),
            ) {
                Ok(()) => match content_round(alloc, key, &outer, block.as_slice()) {
                    Ok(content) => Ok(content),
                    Err(e) => Err(e),
                },
                Err(Failed) => Err(SshPrivateKeyError::SuiteFault),
            }
        }
        None => match content_round(alloc, key, &outer, block.as_slice()) {
            Ok(content) => Ok(content),
            Err(e) => Err(e),
        },
    }
}

/// The content of the envelope round a block.
fn content_round(
    alloc: Global,
    key: &SshPrivateKey,
    outer: &Bytes,
    block: &[u8],
) -> Result<Vec<u8>, SshPrivateKeyError>
    requires outer { outer.now ≡ blob_of (public_part key.now.base_key) }
    requires short { length block.now < 2 ^ 32 }
    requires room { HasSaltRoom (written_option key.now.passphrase key.now.kdf.option) }
    ensures ok { IfOk result (λ content. content.items ≡ envelope_of key.now block.now) }
    ensures err { IfErr result (λ e. e ≡ SshPrivateKeyError.NoMemory) }
{
    match content_of(alloc, key, outer, block) {
        Ok(content) => Ok(content),
        Err(_) => Err(SshPrivateKeyError::NoMemory),
    }
}

/// The same.
#[tactic(auto, unfolding(crate::specs::Envelope::magic, crate::specs::Written::envelope_of), using(crate::proofs::WrittenLemmas::envelope_joined))]
fn content_of(
    alloc: Global,
    key: &SshPrivateKey,
    outer: &Bytes,
    block: &[u8],
) -> Result<Vec<u8>, AllocError>
    requires outer { outer.now ≡ blob_of (public_part key.now.base_key) }
    requires short { length block.now < 2 ^ 32 }
    requires room { HasSaltRoom (written_option key.now.passphrase key.now.kdf.option) }
    ensures { IfOk result (λ content. content.items ≡ envelope_of key.now block.now) }
{
    let mut content = Vec::with_capacity(alloc, content_room(outer.as_slice().len(), block.len()))?;
    content.extend_from_slice(MAGIC)?;
    push_names(&mut content, key)?;
    push_pieces(
        &mut content,
        &[Piece::uint32(1), Piece::bytes(outer), Piece::string(block)],
    )?;
    Ok(content)
}

/// Appends the names and the options of the envelope.
#[tactic(auto, unfolding(crate::specs::Kdf::none, crate::specs::Kdf::bcrypt), using(crate::proofs::WrittenLemmas::names_joined, crate::proofs::KdfLemmas::empty_option))]
fn push_names(content: &mut Vec<u8>, key: &SshPrivateKey) -> Result<(), AllocError>
    requires { HasSaltRoom (written_option key.now.passphrase key.now.kdf.option) }
    ensures { OnOk result (content.new.items ≡ content.old.items ++ concat ((0 ∷ []) ∷ string_of (written_cipher key.now.passphrase)
        ∷ string_of (written_kdf key.now.passphrase) ∷ kdf_option_of (written_option key.now.passphrase key.now.kdf.option) ∷ [])) }
{
    match &key.passphrase {
        Some(_) => {
            let cipher = Cipher::Aes256Ctr.name().as_bytes();
            push_pieces(
                content,
                &[
                    Piece::byte(0),
                    Piece::string(cipher),
                    Piece::string(BCRYPT.as_bytes()),
                ],
            )?;
            push_pieces(content, &kdf_pieces(&key.kdf.option))?;
            Ok(())
        }
        None => {
            let none = NONE.as_bytes();
            push_pieces(
                content,
                &[
                    Piece::byte(0),
                    Piece::string(none),
                    Piece::string(none),
                    Piece::string(&[]),
                ],
            )?;
            Ok(())
        }
    }
}

/// Room for the content, so that it doesn't grow while it is written, but where its salt is long.
fn content_room(outer_len: usize, block_len: usize) -> usize
    ensures { result ≤ outer_len + block_len + 128 }
{
    outer_len.saturating_add(block_len).saturating_add(128)
}

/// The text of the content.
fn text_of(alloc: Global, content: &[u8]) -> Result<Text, SshPrivateKeyError>
    requires { length (pem_text_of content.now) < 2 ^ 32 }
    ensures { Gives SshPrivateKeyError.NoMemory (λ text. text) result (Ok (pem_text_of content.now)) }
{
    match pem_text(alloc, content) {
        Ok(text) => Ok(Text::from_string(text)),
        Err(_) => Err(SshPrivateKeyError::NoMemory),
    }
}
