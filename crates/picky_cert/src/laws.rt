//! The laws of this crate, each as the contract of a function that does nothing else.

ghost use Rattle.std.specs.Prelude.{◌≡◌, ◌++◌, ◌∷◌, List, ℕ, Some, Ok, Err, IsUtf8, ◌<◌, ◌^◌, length, true};
ghost use Rattle.picky_wire_base.specs.Flaw.{Why};
ghost use Rattle.picky_wire_base.specs.Numbers.{IsBytes};
ghost use Rattle.picky_wire_base.specs.Outcome.{map_err};
ghost use Rattle.picky_text.specs.Base64.{base64_of};
ghost use Rattle.picky_text.specs.Words.{after_body, line_in_front};
ghost use Rattle.picky_wire_base.specs.Equality.{IsEquality, IsEqualityOf};
ghost use Rattle.picky_wire_base.specs.View.{Sees};
ghost use Rattle.picky_cert_parts.specs.declared.cert_key_type.SshCertKeyType.{SshCertKeyType as KeyType};
ghost use Rattle.picky_cert_parts.specs.declared.error.SshCertificateError.{SshCertificateError as CertificateError};
ghost use Rattle.picky_cert_blob.specs.declared.part.CertPart.{CertPart as Part};
ghost use Rattle.picky_cert_blob.specs.Keeps.{FitsSubject};
ghost use Rattle.picky_cert_blob.specs.Reason.{cert_why_in};
ghost use Rattle.picky_cert.specs.declared.certificate.SshCertificate.{SshCertificate as Certificate};
ghost use Rattle.picky_cert.specs.declared.view.CertView.{CertView as View};
ghost use Rattle.picky_cert.specs.Certificate.{certificate, certified, refused_part, said, signed_in};
ghost use Rattle.picky_cert.specs.CertRefusal.{cert_error};
ghost use Rattle.picky_cert.specs.Keeps.{IsCertificate, IsWellFormed};
ghost use Rattle.picky_cert.specs.Line.{bare_line, IsCertificateLine, IsReadBackCertificate};
ghost use Rattle.picky_cert.specs.LineRefusal.{cert_line_meaning, cert_line_text, signed_text};
ghost use Rattle.picky_cert.specs.Want.{IsReadFault, WantsMemory};
ghost use Rattle.picky_cert_parts.specs.Signature.{blob_fits, total_of};
ghost use Rattle.picky_cert.specs.Shown.{cert_shown};
ghost use Rattle.picky_cert.specs.SourceLine.{cert_source_meaning};
ghost use Rattle.picky_cert.specs.Spelled.{cert_blob_of, cert_line_of, signed_of};
ghost use Rattle.picky_cert.specs.View.{CertLies, cert_seen};

use crate::certificate::SshCertificate;
use crate::view::CertView;

/// A line means a certificate exactly where it says it, and it says one. The comment of a text is UTF-8.
#[tactic(auto, using(crate::proofs::LawLemmas::line_laws))]
pub fn line_means_what_it_says()
    ensures says { (text : List ℕ) (c : Certificate) → IsBytes text → cert_line_meaning text ≡ Ok c → IsCertificateLine text c }
    ensures means { (text : List ℕ) (c : Certificate) → IsCertificateLine text c → cert_line_meaning text ≡ Ok c }
    ensures one { (text : List ℕ) (c d : Certificate) → IsCertificateLine text c → IsCertificateLine text d → c ≡ d }
    ensures comment { (text : List ℕ) → IsUtf8 text → IsUtf8 (line_in_front (after_body text)) }
{}

/// What is read keeps the ranges of its parts, and its type is for its subject's key. So is what a line says.
#[tactic(auto, using(crate::proofs::LawLemmas::keep_laws))]
pub fn what_is_read_is_valid()
    ensures ranges { (bytes : List ℕ) (c : Certificate) (rest : List ℕ) → IsBytes bytes → certificate.read bytes ≡ Ok (c, rest)
        → IsCertificate c }
    ensures subject { (bytes : List ℕ) (c : Certificate) (rest : List ℕ) → IsBytes bytes → certificate.read bytes ≡ Ok (c, rest)
        → FitsSubject (said c).head }
    ensures line_ranges { (text : List ℕ) (c : Certificate) → IsCertificateLine text c → IsCertificate c }
    ensures line_subject { (text : List ℕ) (c : Certificate) → IsCertificateLine text c → FitsSubject (said c).head }
{}

/// No line is refused, at any depth, for a fault of a source or for want of memory.
#[tactic(auto, using(crate::proofs::LawLemmas::order_laws))]
pub fn order_answers_no_fault()
    ensures fault { (text : List ℕ) (e : CertificateError) → cert_line_meaning text ≡ Err e → IsReadFault e → ⊥ }
    ensures want { (text : List ℕ) (e : CertificateError) → cert_line_meaning text ≡ Err e → WantsMemory e → ⊥ }
{}

/// Of two certificates that are read, what is signed of one is the front of what is signed of the other only where both say
/// the same, over all types, in whatever spelling they were read.
#[tactic(auto, using(crate::proofs::SignedLaws::signed_binds))]
pub fn signed_bytes_bind_what_is_said()
    ensures { (x y : List ℕ) (c d : Certificate) (r s more : List ℕ) → certificate.read x ≡ Ok (c, r)
        → certificate.read y ≡ Ok (d, s) → signed_in y ≡ signed_in x ++ more → said c ≡ said d }
{}

/// A view's part `signed` is all bytes before the signature; of a certificate that is written these are its signed bytes.
#[tactic(auto, using(crate::proofs::SignedLaws::seen_laws))]
pub fn signed_bytes_are_seen()
    ensures part { (blob : List ℕ) (view : View) → CertLies blob view → view.signed.bytes.now ≡ signed_in blob }
    ensures written { (c : Certificate) (more : List ℕ) → IsCertificate c → IsWellFormed c
        → signed_in (signed_of c ++ more) ≡ signed_of c }
{}

/// Of two well-formed certificates, what is signed of one, as it is written, is the front of what is signed of the other only
/// where both say the same.
#[tactic(auto, using(crate::proofs::WrittenLaws::written_binds))]
pub fn written_bytes_bind_what_is_said()
    ensures { (c d : Certificate) (more : List ℕ) → IsCertificate c → IsCertificate d → IsWellFormed c → IsWellFormed d
        → signed_of d ≡ signed_of c ++ more → said c ≡ said d }
{}

/// What `signed_bytes` gives is of a well-formed certificate, and a certificate whose line is read back has that line.
#[tactic(auto, using(crate::proofs::FormedLaws::signed_is_formed, crate::proofs::FormedLaws::kept_is_written))]
pub fn what_is_written_is_formed()
    ensures signed { (c : Certificate) (bytes : List ℕ) → signed_text c ≡ Ok bytes → IsWellFormed c }
    ensures line { (c : Certificate) → IsReadBackCertificate c → cert_line_text c ≡ Ok (cert_line_of c) }
{}

/// The bytes that are written are a piece, and are read back, without the comments that they don't have.
#[tactic(auto, using(crate::proofs::WrittenLaws::written_laws))]
pub fn bytes_are_read_back()
    ensures canonical { (c : Certificate) → IsCertificate c → IsWellFormed c
        → blob_fits c.signature.format c.signature.blob ≡ true → total_of c.signature < 2 ^ 32
        → certificate.piece (certified (said c) c.signature) (cert_blob_of c) }
    ensures back { (c : Certificate) (more : List ℕ) → IsCertificate c → IsWellFormed c
        → blob_fits c.signature.format c.signature.blob ≡ true → total_of c.signature < 2 ^ 32
        → certificate.read (cert_blob_of c ++ more) ≡ Ok (certified (said c) c.signature, more) }
{}

/// Of a line without a comment, which is a type's name, a space and the base64 of bytes, `from_str` answers the certificate that
/// `CertView::read` sees in these bytes, or refuses as the view does. Bytes after the certificate say nothing to either.
///
/// `value` is of `CertView::read`; with `stuck_at` so is `refusal`.
#[tactic(auto, using(crate::proofs::ViewLineLaws::view_line_laws))]
pub fn view_is_the_line_reader()
    ensures value { (key_type : KeyType) (blob : List ℕ) (view : View) (next : ℕ) → IsBytes blob → length (base64_of blob) < 2 ^ 32
        → Sees cert_seen cert_why_in certificate blob 0 (Ok (view, next)) → cert_line_meaning (bare_line key_type blob) ≡ Ok (cert_seen view) }
    ensures refusal { (key_type : KeyType) (blob : List ℕ) (stuck : Why) (part : Part) → IsBytes blob
        → length (base64_of blob) < 2 ^ 32 → map_err cert_why_in (certificate.read blob) ≡ Err stuck
        → refused_part (certificate.read blob) ≡ Some part
        → cert_line_meaning (bare_line key_type blob) ≡ Err (cert_error (part, stuck)) }
{}

/// A line that is written is read back, whatever follows it: as a text, and from a source, where LF and what follows are left.
#[tactic(auto, using(crate::proofs::ReadBackLaws::read_back_laws))]
pub fn line_is_read_back()
    ensures text { (c : Certificate) (more : List ℕ) → IsReadBackCertificate c → cert_line_meaning (cert_line_of c ++ more) ≡ Ok c }
    ensures source { (c : Certificate) (more : List ℕ) → IsReadBackCertificate c
        → cert_source_meaning (cert_line_of c ++ more) ≡ Ok (c, 10 ∷ more) }
{}

/// A line that was read, however it was spelled, is written in its one spelling, which is read back as the same certificate:
/// from a text and from a source, where LF and what follows are left.
#[tactic(auto, using(crate::proofs::CanonicalLaws::canonical_laws))]
pub fn line_is_written_canonically()
    ensures text { (text : List ℕ) (c : Certificate) (line more : List ℕ) → IsBytes text
        → cert_line_meaning text ≡ Ok c → cert_line_text c ≡ Ok line → cert_line_meaning (line ++ more) ≡ Ok c }
    ensures source { (bytes : List ℕ) (c : Certificate) (rest line more : List ℕ) → IsBytes bytes
        → cert_source_meaning bytes ≡ Ok (c, rest) → cert_line_text c ≡ Ok line → cert_source_meaning (line ++ more) ≡ Ok (c, 10 ∷ more) }
{}

/// Two values are equal exactly where their contents are; of views these are their values and where their parts stand.
pub fn equality_is_of_contents()
    ensures view { IsEqualityOf cert_shown ⟦<CertView<'static> as PartialEq>⟧.eq }
    ensures certificate { IsEquality ⟦<SshCertificate as PartialEq>⟧.eq }
{}
