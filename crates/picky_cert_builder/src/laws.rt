//! The laws of this crate, each as the contract of a function that does nothing else.

ghost use Rattle.std.specs.Prelude.{◌≡◌, ◌≢◌, ◌↔◌, ◌<◌, ◌^◌, ◌++◌, List, ℕ, Ok, Err, length, if◌then◌else◌};
ghost use Rattle.std.specs.Str.{trim_end};
ghost use Rattle.picky_text.specs.Lines.{HasNo};
ghost use Rattle.picky_wire_base.specs.Equality.{IsEquality};
ghost use Rattle.picky_keys.specs.Key.{IsString};
ghost use Rattle.picky_cert.specs.Keeps.{IsCertificate, IsWellFormed};
ghost use Rattle.picky_cert.specs.LineRefusal.{cert_line_meaning, cert_line_text};
ghost use Rattle.picky_cert_parts.specs.declared.error.SshCertificateError.TheVariants as refusals;
ghost use Rattle.picky_keys.specs.LineRefusal.{is_short};
ghost use Rattle.picky_cert.specs.Spelled.{cert_line_of};
ghost use Rattle.picky_cert_builder.specs.declared.builder.SshCertificateBuilder.{SshCertificateBuilder as Builder};
ghost use Rattle.picky_cert_builder.specs.declared.error.SshCertificateGenerationError.{SshCertificateGenerationError as Refused};
ghost use Rattle.picky_cert_builder.specs.declared.terms.FitTerms.{FitTerms as Fit};
ghost use Rattle.picky_cert_builder.specs.declared.terms.RequestTerms.{RequestTerms as Terms};
ghost use Rattle.picky_cert_builder.specs.Draft.{Unsigned, requested, signed_with};
ghost use Rattle.picky_cert_builder.specs.Fit.{IsFit};
ghost use Rattle.picky_cert_builder.specs.Keeps.{IsRequest, without_key_comments};
ghost use Rattle.picky_cert_builder.specs.Terms.{judged_terms};

use crate::builder::SshCertificateBuilder;
use crate::error::SshCertificateGenerationError;
use crate::issuer::IssuerKey;

/// The terms of a request are judged fit exactly where a certificate is made for them.
pub fn terms_are_judged_as_they_fit()
    ensures { (r : Terms) (fit : Fit) → (judged_terms r ≡ Ok fit) ↔ IsFit r fit }
{}

/// A certificate that is made has its parts in their ranges and is well formed, so what is signed of it binds all that it says.
pub fn what_is_made_is_valid()
    ensures ranges { (b : Builder) (nonce : List ℕ) (u : Unsigned) → IsRequest b → IsString nonce → requested b nonce ≡ Ok u
        → IsCertificate u.certificate }
    ensures formed { (b : Builder) (nonce : List ℕ) (u : Unsigned) → requested b nonce ≡ Ok u → IsWellFormed u.certificate }
{}

/// Signed, it is read back from its line, whatever follows that, with all its fields, the comments of its keys aside, where its
/// own comment is one that a line carries.
#[tactic(auto, using(crate::proofs::MadeLaws::signed_is_read_back))]
pub fn what_is_made_is_read_back()
    ensures { (b : Builder) (nonce : List ℕ) (u : Unsigned) (bytes more : List ℕ) → IsRequest b → IsString nonce → IsString bytes
        → requested b nonce ≡ Ok u → HasNo 13 u.certificate.comment → HasNo 10 u.certificate.comment
        → trim_end u.certificate.comment ≡ u.certificate.comment → length (cert_line_of (signed_with u.certificate bytes)) < 2 ^ 32
        → cert_line_meaning (cert_line_of (signed_with u.certificate bytes) ++ more) ≡ Ok (without_key_comments (signed_with u.certificate bytes)) }
{}

/// Signed, its line is refused by its length alone.
#[tactic(auto, using(crate::proofs::MadeLaws::made_line))]
pub fn what_is_signed_is_refused_by_its_length_alone()
    ensures { (b : Builder) (nonce bytes : List ℕ) (u : Unsigned) → requested b nonce ≡ Ok u
        → cert_line_text (signed_with u.certificate bytes)
        ≡ (if is_short (cert_line_of (signed_with u.certificate bytes)) then Ok (cert_line_of (signed_with u.certificate bytes)) else Err refusals.TooLong) }
{}

/// The order of refusals answers neither the device's fault nor want of memory: these are answers of the calls alone.
#[tactic(auto, using(crate::proofs::OwnLaws::requested_is_own))]
pub fn order_answers_no_fault()
    ensures { (b : Builder) (nonce : List ℕ) (e : Refused) → requested b nonce ≡ Err e
        → (e ≢ SshCertificateGenerationError.NoMemory) × (e ≢ SshCertificateGenerationError.SignatureError) }
{}

/// Two values are equal exactly where their contents are.
pub fn equality_is_of_contents()
    ensures error { IsEquality ⟦<SshCertificateGenerationError as PartialEq>⟧.eq }
    ensures issuer { IsEquality ⟦<IssuerKey as PartialEq>⟧.eq }
    ensures builder { IsEquality ⟦<SshCertificateBuilder as PartialEq>⟧.eq }
{}
