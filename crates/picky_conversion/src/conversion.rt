//! The conversion of a key text.

ghost use Rattle.std.specs.Prelude.{◌≡◌, ◌⊎◌, Err, IfOk, IsOk};
ghost use Rattle.std.specs.Option.{IfSome, option_copied};
ghost use Rattle.std.specs.Str.{IsUtf8};
ghost use Rattle.picky_wire_base.specs.Outcome.{map_ok};
ghost use Rattle.picky_suite.specs.Asked.{IsAskedAtMost};
ghost use Rattle.picky_suite.specs.Meanings.{Meanings};
ghost use Rattle.picky_cert.specs.Spelled.{signed_of};
ghost use Rattle.picky_wire.specs.Count.{Rose};
ghost use Rattle.picky_key_text.specs.declared.meaning.Meaning.{Meaning as Meant};
ghost use Rattle.picky_key_text.specs.Order.{asks};
ghost use Rattle.picky_key_text.specs.Reads.{Reads};
ghost use Rattle.picky_target.specs.ReadBack.{IsConfig, IsTarget};
ghost use Rattle.picky_conversion.specs.Certify.{IsInputFault, certification, drafting};
ghost use Rattle.picky_conversion.specs.Binds.{Binds, BindsTo};
ghost use Rattle.picky_conversion.specs.Chain.{IsGiven};
ghost use Rattle.picky_conversion.specs.Outside.{outside, outside_of, reader};
ghost use Rattle.picky_conversion.specs.Convert.{AnswersKeyText, IsConversion, LeavesAskedSuite, converting_asks};
ghost use Rattle.picky_conversion.specs.Made.{AnswersMade, AnswersPlain, IsLeft, LeavesAskedSigner, ToSign, is_signed};
ghost use Rattle.picky_conversion.specs.To.{CanConvert, IsConverted, IsFaultTo, IsWay, asks_to, converted, most_asked, way_to};
ghost use Rattle.picky_conversion.specs.Refusal.{input_refusal as input_refusal_of, issuer_refusal as issuer_refusal_of};

use crate::certificate::write_certificate;
use crate::drafting::write_signed_bytes;
use crate::given::ConversionGiven;
use crate::request::CertRequest;
use crate::target::Target;
use picky_key_text::{ReadError, read_text};
use picky_ppk::{PpkEncryptionConfig, PpkLayout};
use picky_suite::{Signer, Suite};
use picky_target::{ConvertError, DEFAULT_ROUNDS, KeyTarget, write_text};
use picky_wire::{Bytes, NoMemory, Text, TryClone};
use std::alloc::Global;

/// The text of the target for the key and the comment that a text means: the key text is read under one passphrase, and what
/// is written is sealed under the other, where there is one and the target keeps the secret, with the fresh bytes. A
/// certificate has the first 32 fresh bytes as its nonce, and the signer's signature.
///
/// Refuses, in order: `Input` as `read_text`; `NoPrivateKey`; `Putty(NotSupported)`; `CommentNotCarried`; `Request` as
/// `RequestTerms::judge`; `Private(HashingError)`; `Putty(Argon2)`; `FreshTooShort`; `TooLong`, a certificate counted without
/// its signature; `TooManyLines`; `Private(SuiteFault)`, `Putty(SuiteFault)`; `Request(SignatureError)`; `TooLong`, where a
/// certificate is too long with a signature of the signer's.
pub fn convert<S: Suite, G: Signer>(
    alloc: Global,
    suite: &mut S,
    signer: &mut G,
    input: &str,
    pass_in: Option<&str>,
    target: &Target,
    pass_out: Option<&str>,
    fresh: &[u8],
) -> Result<Text, ConvertError>
    ensures gives { let o = outside_of (S.meanings suite.old) pass_in.entry pass_out.entry fresh.now in
        AnswersMade (G.signs signer.old) (λ text. text) (converted o (way_to target.now) input.now)
        (λ e. IsFaultTo o (way_to target.now) input.now e (Rose (S.faults suite.old) (S.faults suite.new)))
        (Rose (G.faults signer.old) (G.faults signer.new)) result }
    ensures suite { let o = outside_of (S.meanings suite.old) pass_in.entry pass_out.entry fresh.now in
        LeavesAskedSuite S.meanings S.faults (asks_to o (way_to target.now) input.now) result suite.old suite.new }
    ensures signer { let o = outside_of (S.meanings suite.old) pass_in.entry pass_out.entry fresh.now in
        LeavesAskedSigner G.signs G.faults (is_signed (converted o (way_to target.now) input.now)) result signer.old signer.new }

    // A text is of the one meaning, and is read back; and where no device signs it, it is the one spelling.
    ensures converts { let o = outside_of (S.meanings suite.old) pass_in.entry pass_out.entry fresh.now in
        IfOk result (λ text. IsConverted (G.signs signer.old) o (way_to target.now) input.now text) }

    // It equals another conversion's text exactly where the target keeps the same of both.
    ensures binds { let o = outside_of (S.meanings suite.old) pass_in.entry pass_out.entry fresh.now in
        IfOk result (BindsTo o (way_to target.now) input.now) }

    // What has a text for the target is answered so.
    ensures complete { let o = outside_of (S.meanings suite.old) pass_in.entry pass_out.entry fresh.now in
        (meaning : Meant) → Reads (reader o) input.now meaning → CanConvert o (way_to target.now) meaning
        → IsOk result ⊎ (result ≡ Err ConvertError.NoMemory) ⊎ ((e : ConvertError) × (result ≡ Err e)
        × (IsFaultTo o (way_to target.now) input.now e (Rose (S.faults suite.old) (S.faults suite.new))
        ⊎ IsLeft (G.signs signer.old) (converted o (way_to target.now) input.now) (Rose (G.faults signer.old) (G.faults signer.new)) e)) }
    ensures suite_asked { IsAskedAtMost (most_asked (way_to target.now)) S.calls suite.old suite.new }
    ensures signer_asked { IsAskedAtMost 1 G.calls signer.old signer.new }
{
    is_given(pass_in, pass_out, fresh);
    is_target(target);
    let given = ConversionGiven {
        pass_in,
        pass_out,
        fresh,
    };
    match target.try_clone(alloc) {
        Ok(owned) => convert_owned(alloc, suite, signer, input, owned, given),
        Err(NoMemory) => Err(ConvertError::NoMemory),
    }
}

/// The same to a target that it takes, so that a request is moved into its certificate. Refuses: as `convert`.
pub fn convert_owned<S: Suite, G: Signer>(
    alloc: Global,
    suite: &mut S,
    signer: &mut G,
    input: &str,
    target: Target,
    given: ConversionGiven<'_>,
) -> Result<Text, ConvertError>
    ensures gives { AnswersMade (G.signs signer.old) (λ text. text)
        (converted (outside (S.meanings suite.old) given.entry) (way_to target) input.now)
        (λ e. IsFaultTo (outside (S.meanings suite.old) given.entry) (way_to target) input.now e (Rose (S.faults suite.old) (S.faults suite.new)))
        (Rose (G.faults signer.old) (G.faults signer.new)) result }
    ensures suite { LeavesAskedSuite S.meanings S.faults
        (asks_to (outside (S.meanings suite.old) given.entry) (way_to target) input.now) result suite.old suite.new }
    ensures signer { LeavesAskedSigner G.signs G.faults
        (is_signed (converted (outside (S.meanings suite.old) given.entry) (way_to target) input.now))
        result signer.old signer.new }
    ensures suite_asked { IsAskedAtMost (most_asked (way_to target)) S.calls suite.old suite.new }
    ensures signer_asked { IsAskedAtMost 1 G.calls signer.old signer.new }
{
    match target {
        Target::OpenSsh => {
            convert_key(
                alloc,
                suite,
                input,
                KeyTarget::OpenSsh(DEFAULT_ROUNDS),
                given,
            )
        }
        Target::Ppk(version, config) => {
            convert_key(
                alloc,
                suite,
                input,
                KeyTarget::Ppk(version, config, PpkLayout::Number),
                given,
            )
        }
        Target::OpenSshPublic => convert_key(alloc, suite, input, KeyTarget::OpenSshPublic, given),
        Target::PuttyPublic => convert_key(alloc, suite, input, KeyTarget::PuttyPublic, given),
        Target::Certificate(request) => certify(alloc, suite, signer, input, request, given),
    }
}

/// The text of a target that no device signs for the key and the comment that a text means: OpenSSH's private key with any rounds,
/// and a file for PuTTY in either layout.
///
/// Refuses, in order: as `convert` for a target without a request.
pub fn convert_key_text<S: Suite>(
    alloc: Global,
    suite: &mut S,
    input: &str,
    target: KeyTarget,
    given: ConversionGiven<'_>,
) -> Result<Text, ConvertError>
    ensures gives { AnswersKeyText (λ text. text) (outside (S.meanings suite.old) given.entry) target input.now
        (Rose (S.faults suite.old) (S.faults suite.new)) result }
    ensures suite { LeavesAskedSuite S.meanings S.faults
        (converting_asks (outside (S.meanings suite.old) given.entry) target input.now) result suite.old suite.new }
    ensures asked { IsAskedAtMost 4 S.calls suite.old suite.new }

    // A text is the one spelling of the one meaning, and is read back.
    ensures converts { IfOk result (λ text. IsConversion (outside (S.meanings suite.old) given.entry) target input.now text) }

    // It equals another conversion's text exactly where the target keeps the same of both.
    ensures binds { IfOk result (Binds (outside (S.meanings suite.old) given.entry) target input.now) }
{
    is_given(given.pass_in, given.pass_out, given.fresh);
    is_key_target(target);
    convert_key(alloc, suite, input, target, given)
}

/// The same, without what follows from what is given.
fn convert_key<S: Suite>(
    alloc: Global,
    suite: &mut S,
    input: &str,
    target: KeyTarget,
    given: ConversionGiven<'_>,
) -> Result<Text, ConvertError>
    ensures gives { AnswersKeyText (λ text. text) (outside (S.meanings suite.old) given.entry) target input.now
        (Rose (S.faults suite.old) (S.faults suite.new)) result }
    ensures suite { LeavesAskedSuite S.meanings S.faults
        (converting_asks (outside (S.meanings suite.old) given.entry) target input.now) result suite.old suite.new }
    ensures asked { IsAskedAtMost 4 S.calls suite.old suite.new }
{
    let ConversionGiven {
        pass_in,
        pass_out,
        fresh,
    } = given;
    match read_text(alloc, suite, input, pass_in) {
        Ok(meaning) => write_text(alloc, suite, target, meaning, pass_out, fresh),
        Err(e) => Err(input_refusal(e)),
    }
}

/// The line of the certificate that the request asks of what a text means.
fn certify<S: Suite, G: Signer>(
    alloc: Global,
    suite: &mut S,
    signer: &mut G,
    input: &str,
    request: CertRequest,
    given: ConversionGiven<'_>,
) -> Result<Text, ConvertError>
    ensures gives { AnswersMade (G.signs signer.old) (λ text. text)
        (map_ok ToSign (certification (outside (S.meanings suite.old) given.entry) request input.now))
        (λ e. IsInputFault (outside (S.meanings suite.old) given.entry) input.now e (Rose (S.faults suite.old) (S.faults suite.new)))
        (Rose (G.faults signer.old) (G.faults signer.new)) result }
    ensures suite { LeavesAskedSuite S.meanings S.faults (asks (option_copied given.entry.pass_in) input.now) result suite.old suite.new }
    ensures signer { LeavesAskedSigner G.signs G.faults
        (is_signed (map_ok ToSign (certification (outside (S.meanings suite.old) given.entry) request input.now)))
        result signer.old signer.new }
    ensures suite_asked { IsAskedAtMost 2 S.calls suite.old suite.new }
    ensures signer_asked { IsAskedAtMost 1 G.calls signer.old signer.new }
{
    match read_text(alloc, suite, input, given.pass_in) {
        Ok(meaning) => write_certificate(alloc, signer, request, meaning, given.fresh),
        Err(e) => {
            drop(request);
            Err(input_refusal(e))
        }
    }
}

/// The bytes that a device signs of the certificate that the request asks of what a text means.
///
/// Refuses, in order: `Input` as `read_text`; and as `crate::write_signed_bytes`.
pub fn bytes_to_sign<S: Suite>(
    alloc: Global,
    suite: &mut S,
    input: &str,
    request: CertRequest,
    given: ConversionGiven<'_>,
) -> Result<Bytes, ConvertError>
    ensures gives { AnswersPlain (λ bytes. bytes)
        (map_ok (λ u. signed_of u.certificate) (drafting (outside (S.meanings suite.old) given.entry) request input.now))
        (λ e. IsInputFault (outside (S.meanings suite.old) given.entry) input.now e (Rose (S.faults suite.old) (S.faults suite.new))) result }
    ensures suite { LeavesAskedSuite S.meanings S.faults (asks (option_copied given.entry.pass_in) input.now) result suite.old suite.new }
    ensures asked { IsAskedAtMost 2 S.calls suite.old suite.new }
{
    match read_text(alloc, suite, input, given.pass_in) {
        Ok(meaning) => write_signed_bytes(alloc, request, meaning, given.fresh),
        Err(e) => {
            drop(request);
            Err(input_refusal(e))
        }
    }
}

/// A refusal of the key text as the conversion's, where want of memory is the outer want.
pub fn input_refusal(e: ReadError) -> ConvertError
    ensures { result ≡ input_refusal_of e }
{
    match e {
        ReadError::NoMemory => {
            drop(e);
            ConvertError::NoMemory
        }
        e => ConvertError::Input(e),
    }
}

/// A refusal of the issuer's text as the conversion's, where want of memory is the outer want.
pub fn issuer_refusal(e: ReadError) -> ConvertError
    ensures { result ≡ issuer_refusal_of e }
{
    match e {
        ReadError::NoMemory => {
            drop(e);
            ConvertError::NoMemory
        }
        e => ConvertError::Issuer(e),
    }
}

/// Does nothing: what is given has the ranges of its types.
pub fn is_given(pass_in: Option<&str>, pass_out: Option<&str>, fresh: &[u8])
    ensures { (m : Meanings) → IsGiven (outside_of m pass_in.entry pass_out.entry fresh.now) }
{
    is_text_where_given(pass_in);
    is_text_where_given(pass_out);
    let _ = fresh;
}

/// Does nothing: a target's numbers have the ranges of their types.
fn is_target(target: &Target)
    ensures { IsWay (way_to target.now) }
{
    match target {
        Target::Ppk(_, config) => is_config(*config),
        Target::OpenSsh | Target::OpenSshPublic | Target::PuttyPublic | Target::Certificate(_) => {}
    }
}

/// Does nothing: the same of a target that no device signs.
fn is_key_target(target: KeyTarget)
    ensures { IsTarget target }
{
    match target {
        KeyTarget::OpenSsh(rounds) => {
            let _ = rounds;
        }
        KeyTarget::Ppk(_, config, _) => is_config(config),
        KeyTarget::OpenSshPublic | KeyTarget::PuttyPublic => {}
    }
}

/// Does nothing: a configuration's numbers have the ranges of their types.
fn is_config(config: PpkEncryptionConfig)
    ensures { IsConfig config }
{
    let _ = config;
}

/// Does nothing: a passphrase is a text.
fn is_text_where_given(pass: Option<&str>)
    ensures { IfSome (option_copied pass.entry) IsUtf8 }
{
    match pass {
        Some(pass) => is_text(pass),
        None => {}
    }
}

/// Does nothing: a text is UTF-8.
fn is_text(text: &str)
    ensures { IsUtf8 text.now }
{
    let _ = text;
}
