//! Certificates issued from one source.

ghost use Rattle.std.specs.Prelude.{◌≡◌, IfOk, string_bytes};
ghost use Rattle.std.specs.Option.{option_copied};
ghost use Rattle.picky_wire_base.specs.Outcome.{map_ok};
ghost use Rattle.picky_suite.specs.Asked.{IsAskedAtMost};
ghost use Rattle.picky_suite.specs.Failures.{IsAskedFault};
ghost use Rattle.picky_wire.specs.Count.{Rose};
ghost use Rattle.picky_cert_builder.specs.Draft.{Unsigned};
ghost use Rattle.picky_key_text.specs.Order.{asks};
ghost use Rattle.picky_cert.specs.Spelled.{signed_of};
ghost use Rattle.picky_conversion.specs.Certify.{IsInputFault, drafting, hex_line};
ghost use Rattle.picky_conversion.specs.Convert.{LeavesAskedSuite};
ghost use Rattle.picky_conversion.specs.Issue.{IsIssuingFault, asks_issuer, issued, issued_bytes, issuer_fault};
ghost use Rattle.picky_conversion.specs.Issue.{issuer_read, issuing_asks};
ghost use Rattle.picky_conversion.specs.Made.{AnswersMade, AnswersPlain, LeavesAskedSigner, ToSign, is_signed};
ghost use Rattle.picky_conversion.specs.Outside.{outside};

use crate::conversion::{bytes_to_sign, convert_owned, issuer_refusal};
use crate::given::ConversionGiven;
use crate::request::CertRequest;
use crate::target::Target;
use picky_issuing::{CertOptions, parts_of};
use picky_key_text::{Key, Meaning, read_text};
use picky_suite::{Signer, Suite};
use picky_target::ConvertError;
use picky_wire::Text;
use std::alloc::{AllocError, Global};

/// The line of the certificate that the options ask of the key text, of the issuer whose text stands before it.
///
/// Refuses, in order: `Issuer` as `read_text`; and as `crate::convert` to a certificate.
pub fn issue<S: Suite, G: Signer>(
    alloc: Global,
    suite: &mut S,
    signer: &mut G,
    options: CertOptions,
    input: &str,
    given: ConversionGiven<'_>,
) -> Result<Text, ConvertError>
    ensures gives { AnswersMade (G.signs signer.old) (λ text. text) (map_ok ToSign (issued (outside (S.meanings suite.old) given.entry) options input.now))
        (λ e. IsIssuingFault (outside (S.meanings suite.old) given.entry) input.now e (Rose (S.faults suite.old) (S.faults suite.new)))
        (Rose (G.faults signer.old) (G.faults signer.new)) result }
    ensures suite { LeavesAskedSuite S.meanings S.faults (issuing_asks (outside (S.meanings suite.old) given.entry) input.now) result suite.old suite.new }
    ensures signer { LeavesAskedSigner G.signs G.faults
        (is_signed (map_ok ToSign (issued (outside (S.meanings suite.old) given.entry) options input.now))) result signer.old signer.new }
    ensures suite_asked { IsAskedAtMost 4 S.calls suite.old suite.new }
    ensures signer_asked { IsAskedAtMost 1 G.calls signer.old signer.new }
{
    let parts = parts_of(input);
    match issuer_of(alloc, suite, parts.issuer, given) {
        Ok(issuer) => {
            let target = Target::Certificate(CertRequest::of_options(options, issuer));
            convert_owned(alloc, suite, signer, parts.key, target, given)
        }
        Err(e) => {
            drop(options);
            Err(e)
        }
    }
}

/// What a device signs of the certificate that the options ask of the key text, in lower-case hex, and LF.
///
/// Refuses, in order: `Issuer` and then `Input`, each as `read_text`; and as `crate::write_signed_bytes`.
pub fn print_signed<S: Suite>(
    alloc: Global,
    suite: &mut S,
    options: CertOptions,
    input: &str,
    given: ConversionGiven<'_>,
) -> Result<String, ConvertError>
    ensures gives { AnswersPlain string_bytes (issued_bytes (outside (S.meanings suite.old) given.entry) options input.now)
        (λ e. IsIssuingFault (outside (S.meanings suite.old) given.entry) input.now e (Rose (S.faults suite.old) (S.faults suite.new))) result }
    ensures suite { LeavesAskedSuite S.meanings S.faults (issuing_asks (outside (S.meanings suite.old) given.entry) input.now) result suite.old suite.new }
    ensures asked { IsAskedAtMost 4 S.calls suite.old suite.new }
{
    let parts = parts_of(input);
    match issuer_of(alloc, suite, parts.issuer, given) {
        Ok(issuer) => {
            let request = CertRequest::of_options(options, issuer);
            print_request(alloc, suite, parts.key, request, given)
        }
        Err(e) => {
            drop(options);
            Err(e)
        }
    }
}

/// What is to be signed of a request, in lower-case hex, and LF. Refuses: as `bytes_to_sign`.
fn print_request<S: Suite>(
    alloc: Global,
    suite: &mut S,
    input: &str,
    request: CertRequest,
    given: ConversionGiven<'_>,
) -> Result<String, ConvertError>
    ensures gives { AnswersPlain string_bytes (map_ok hex_line (drafting (outside (S.meanings suite.old) given.entry) request input.now))
        (λ e. IsInputFault (outside (S.meanings suite.old) given.entry) input.now e (Rose (S.faults suite.old) (S.faults suite.new))) result }
    ensures suite { LeavesAskedSuite S.meanings S.faults (asks (option_copied given.entry.pass_in) input.now) result suite.old suite.new }
    ensures asked { IsAskedAtMost 2 S.calls suite.old suite.new }
{
    match bytes_to_sign(alloc, suite, input, request, given) {
        Ok(bytes) => match hex_text(alloc, bytes.as_slice()) {
            Ok(text) => Ok(text),
            Err(_) => Err(ConvertError::NoMemory),
        },
        Err(e) => Err(e),
    }
}

/// The bytes in lower-case hex, and LF.
fn hex_text(alloc: Global, bytes: &[u8]) -> Result<String, AllocError>
    ensures { IfOk result (λ text. (u : Unsigned) → bytes.now ≡ signed_of u.certificate → string_bytes text ≡ hex_line u) }
{
    let mut text = hex::encode(alloc, bytes)?;
    text.push_str("\n")?;
    Ok(text)
}

/// The key that the issuer's text means, where there is one.
fn issuer_of<S: Suite>(
    alloc: Global,
    suite: &mut S,
    issuer: Option<&str>,
    given: ConversionGiven<'_>,
) -> Result<Option<Key>, ConvertError>
    ensures gives { AnswersPlain (λ key. key) (issuer_read (outside (S.meanings suite.old) given.entry) (option_copied issuer.entry))
        (λ e. (e ≡ issuer_fault (option_copied issuer.entry))
        × IsAskedFault (asks_issuer (outside (S.meanings suite.old) given.entry) (option_copied issuer.entry)) (Rose (S.faults suite.old) (S.faults suite.new))) result }
    ensures suite { LeavesAskedSuite S.meanings S.faults
        (asks_issuer (outside (S.meanings suite.old) given.entry) (option_copied issuer.entry)) result suite.old suite.new }
    ensures asked { IsAskedAtMost 2 S.calls suite.old suite.new }
{
    match issuer {
        Some(text) => match read_text(alloc, suite, text, given.pass_in) {
            Ok(meaning) => {
                let Meaning { key, .. } = meaning;
                Ok(Some(key))
            }
            Err(e) => Err(issuer_refusal(e)),
        },
        None => Ok(None),
    }
}
