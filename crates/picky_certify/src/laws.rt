//! The laws of this crate, each as the contract of a function that does nothing.

ghost use Rattle.std.specs.Prelude.{◌≡◌, ℕ, List, Some, Ok};
ghost use Rattle.picky_wire_base.specs.Outcome.{map_err};
ghost use Rattle.picky_keys.specs.declared.algorithm.SignatureAlgorithm.{SignatureAlgorithm as Algorithm};
ghost use Rattle.picky_keys.specs.declared.public_key.PublicKey.{PublicKey as AKey};
ghost use Rattle.picky_ask.specs.declared.question.Entry.{Entry as AnEntry};
ghost use Rattle.picky_cert_builder.specs.Draft.{Unsigned};
ghost use Rattle.picky_issuing.specs.Options.{options_named};
ghost use Rattle.picky_issuing.specs.Parts.{issuer_text_part, key_part};
ghost use Rattle.picky_issuing.specs.declared.options.CertOptions.{CertOptions as Options};
ghost use Rattle.picky_conversion.specs.Issue.{issued};
ghost use Rattle.picky_certify.specs.Certify.{Given, IsCertifiedLine, certified_in, certified_texts, draft_in, given, plain_outside};
ghost use Rattle.picky_certify.specs.Certified.{SignedBy, question_for};
ghost use Rattle.picky_certify.specs.Refusal.{conversion_refusal};

use picky_suite::Signer;

/// Where each signature that the table gives is good to a device, a line that the table signed is a certificate that the device
/// calls signed.
#[tactic(auto, using(crate::proofs::CertifiedLaws::line_of_more))]
pub fn a_line_is_signed_by_who_answered<G: Signer>()
    ensures { (s : G) (entries : List AnEntry) (g : Given) (line : List ℕ)
        → ((key : AKey) (algorithm : Algorithm) (message signature : List ℕ) → SignedBy entries key algorithm message signature
        → G.signs s key algorithm message signature)
        → IsCertifiedLine (SignedBy entries) g line → IsCertifiedLine (G.signs s) g line }
{}

/// The question is for a signature of the bytes that the draft is.
#[tactic(auto, using(crate::proofs::CertifiedLaws::draft_is_asked))]
pub fn the_draft_is_what_is_asked_for()
    ensures { (g : Given) (answers : List ℕ) (u : Unsigned) → certified_in g answers ≡ Ok u
        → draft_in g ≡ Ok (question_for u).text }
{}

/// Two texts come to what their source does: the issuer's text, a line that is exactly two percent signs, and the key text.
#[tactic(auto, using(crate::proofs::CertifiedLaws::source_comes_to_its_parts))]
pub fn a_source_comes_to_what_its_parts_do()
    ensures { (words : List (List ℕ)) (options : Options) (source issuer fresh : List ℕ) → options_named words ≡ Some options
        → issuer_text_part source ≡ Some issuer
        → certified_texts (given words issuer (key_part source) fresh)
        ≡ map_err conversion_refusal (issued (plain_outside fresh) options source) }
{}
