//! The ranges that values keep by their types, each shown by a function that does nothing else.

ghost use Rattle.std.specs.Prelude.{◌≡◌, ◌<◌, ◌^◌, All, true};
ghost use Rattle.std.specs.Option.{IfSome};
ghost use Rattle.picky_keys.specs.Key.{IsKey, IsText};
ghost use Rattle.picky_cert_parts.specs.Signature.{IsSignature};
ghost use Rattle.picky_cert_builder.specs.Issuer.{issuer_part};
ghost use Rattle.picky_cert_builder.specs.Keeps.{IsRequest};

use crate::builder::SshCertificateBuilder;
use crate::issuer::IssuerKey;
use picky_cert::items_keep_their_ranges;
use picky_cert_parts::{SshSignature, signature_pieces};
use picky_keys::{SshBasePublicKey, SshPublicKey, pieces_behind};
use picky_sshkey_blob::secret_pieces;
use picky_wire::{List, Piece, SshComplexTypeEncode, Text, Timestamp};

/// Does nothing: the parts of a request have the ranges of their types.
pub fn request_keeps_its_ranges(builder: &SshCertificateBuilder)
    ensures { IsRequest builder.now }
{
    subject_keeps(&builder.public_key);
    number_keeps(builder.serial);
    text_keeps(&builder.key_id);
    prove!(list_keeps(&builder.valid_principals));
    time_keeps(builder.valid_after);
    time_keeps(builder.valid_before);
    prove!(list_keeps(&builder.critical_options));
    prove!(list_keeps(&builder.extensions));
    issuer_keeps(&builder.issuer);
    text_keeps(&builder.comment);
}

/// Does nothing: so has a signature.
pub fn signature_keeps_its_ranges(signature: &SshSignature)
    ensures { IsSignature signature.now }
{
    let _ = signature_pieces(signature, 0);
}

/// Does nothing: so has a subject's key, where there is one.
fn subject_keeps(key: &Option<SshPublicKey>)
    ensures { IfSome key.now (λ key. IsKey key.inner_key) }
{
    match key {
        Some(key) => public_keeps(&key.inner_key),
        None => {}
    }
}

/// Does nothing: so has an issuer's public key, where there is an issuer.
fn issuer_keeps(issuer: &Option<IssuerKey>)
    ensures { IfSome issuer.now (λ issuer. IsKey (issuer_part issuer)) }
{
    match issuer {
        Some(issuer) => issuer_part_keeps(issuer),
        None => {}
    }
}

/// Does nothing: so has the public key of an issuer.
#[tactic(auto, using(picky_sshkey_blob::proofs::KeyLaws::public_part_is_key))]
fn issuer_part_keeps(issuer: &IssuerKey)
    ensures { IsKey (issuer_part issuer.now) }
{
    match issuer {
        IssuerKey::Private(key) => {
            let _ = secret_pieces(key);
        }
        IssuerKey::Public(key) => public_keeps(key),
    }
}

/// Does nothing: so has a public key.
fn public_keeps(key: &SshBasePublicKey)
    ensures { IsKey key.now }
{
    let _ = pieces_behind(Piece::none(), key);
}

/// Does nothing: a number of 64 bits is one, where there is one.
fn number_keeps(number: Option<u64>)
    ensures { IfSome number (λ n. n < 2 ^ 64) }
{
    match number {
        Some(number) => {
            let _ = number;
        }
        None => {}
    }
}

/// Does nothing: so is a moment's.
fn time_keeps(time: Option<Timestamp>)
    ensures { IfSome time (λ t. t.0 < 2 ^ 64) }
{
    match time {
        Some(time) => {
            let _ = time.secs();
        }
        None => {}
    }
}

/// Does nothing: a text is UTF-8 and short enough for a string, where there is one.
fn text_keeps(text: &Option<Text>)
    ensures { IfSome text.now IsText }
{
    match text {
        Some(text) => {
            let _ = Piece::text(text);
        }
        None => {}
    }
}

/// Whether the items of a list keep what their type says, where there is a list: always. Only a `prove!` asks it, which is
/// to run nothing of it.
fn list_keeps<T: SshComplexTypeEncode>(list: &Option<List<T>>) -> bool
    ensures always { result ≡ true }
    ensures keeps { IfSome list.now (All T.keeps) }
{
    match list {
        Some(list) => items_keep_their_ranges(list.as_slice()),
        None => true,
    }
}
