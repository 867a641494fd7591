//! The ranges that a certificate's parts keep by their types, each shown by a function that does nothing else.

ghost use Rattle.std.specs.Prelude.{◌≡◌, ◌<◌, ◌^◌, All, true};
ghost use Rattle.picky_keys.specs.Key.{IsKey, IsString, IsText};
ghost use Rattle.picky_cert_parts.specs.Signature.{IsSignature};
ghost use Rattle.picky_cert_blob.specs.Keeps.{IsGrants, IsHead, IsTerms};
ghost use Rattle.picky_cert.specs.Certificate.{said};
ghost use Rattle.picky_cert.specs.Keeps.{IsCertificate};

use crate::certificate::SshCertificate;
use picky_cert_parts::{SshSignature, signature_pieces};
use picky_keys::{SshBasePublicKey, pieces_behind};
use picky_wire::{Bytes, List, Piece, SshComplexTypeEncode, Text, Timestamp};

/// Does nothing: the parts of a certificate have the ranges of their types.
pub fn certificate_keeps_its_ranges(certificate: &SshCertificate)
    ensures { IsCertificate certificate.now }
{
    head_keeps(certificate);
    terms_keep(certificate);
    grants_keep(certificate);
    signature_keeps(&certificate.signature);
    text_keeps(&certificate.comment);
}

/// Does nothing: so have the nonce and the subject's key.
fn head_keeps(certificate: &SshCertificate)
    ensures { IsHead (said certificate.now).head }
{
    bytes_keep(&certificate.nonce);
    key_keeps(&certificate.public_key.inner_key);
}

/// Does nothing: so have the terms.
fn terms_keep(certificate: &SshCertificate)
    ensures { IsTerms (said certificate.now).terms }
{
    number_keeps(certificate.serial);
    text_keeps(&certificate.key_id);
    prove!(list_keeps(&certificate.valid_principals));
    time_keeps(certificate.valid_after);
    time_keeps(certificate.valid_before);
}

/// Does nothing: so have the options, the extensions and the issuer's key.
fn grants_keep(certificate: &SshCertificate)
    ensures { IsGrants (said certificate.now).grants }
{
    prove!(list_keeps(&certificate.critical_options));
    prove!(list_keeps(&certificate.extensions));
    key_keeps(&certificate.signature_key.inner_key);
}

/// Does nothing: so has a public key.
fn key_keeps(key: &SshBasePublicKey)
    ensures { IsKey key.now }
{
    let _ = pieces_behind(Piece::none(), key);
}

/// Does nothing: bytes are short enough for a string.
fn bytes_keep(bytes: &Bytes)
    ensures { IsString bytes.now }
{
    let _ = Piece::bytes(bytes);
}

/// Does nothing: a number of 64 bits is one.
fn number_keeps(number: u64)
    ensures { number < 2 ^ 64 }
{}

/// Does nothing: so is a moment's.
fn time_keeps(time: Timestamp)
    ensures { time.0 < 2 ^ 64 }
{
    let _ = time.secs();
}

/// Does nothing: a text is UTF-8 and short enough for a string.
fn text_keeps(text: &Text)
    ensures { IsText text.now }
{
    let _ = Piece::text(text);
}

/// Does nothing: so has a signature.
fn signature_keeps(signature: &SshSignature)
    ensures { IsSignature signature.now }
{
    let _ = signature_pieces(signature, 0);
}

/// Whether the items of a list keep what their type says: always. Only a `prove!` asks it, which is to run nothing of it.
fn list_keeps<T: SshComplexTypeEncode>(list: &List<T>) -> bool
    ensures always { result ≡ true }
    ensures keeps { All T.keeps list.now }
{
    items_keep_their_ranges(list.as_slice())
}

/// Answers whether each item of a slice keeps what its type says: always. Only a `prove!` asks it, which is to run nothing of it.
pub fn items_keep_their_ranges<T: SshComplexTypeEncode>(items: &[T]) -> bool
    ensures always { result ≡ true }
    ensures keeps { All T.keeps items.now }
{
    'items: for item in items {
        let _ = item.spelling_len();
    }
    true
}
