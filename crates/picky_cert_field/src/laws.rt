//! The laws of this crate, each as the contract of a function that does nothing else.

ghost use Rattle.std.specs.Prelude.{◌≡◌, ◌<◌, ◌^◌, ℕ, List, Ok, Some, length, IsUtf8};
ghost use Rattle.picky_keys.specs.Key.{IsKey};
ghost use Rattle.picky_keys.specs.LineRefusal.{line_meaning};
ghost use Rattle.picky_keys.specs.declared.key.SshBasePublicKey.{SshBasePublicKey as AKey};
ghost use Rattle.picky_cert.specs.Certificate.{bare};
ghost use Rattle.picky_cert.specs.Line.{IsReadBackCertificate};
ghost use Rattle.picky_cert.specs.LineRefusal.{cert_line_meaning, cert_line_text};
ghost use Rattle.picky_cert.specs.Spelled.{cert_line_of, signed_of};
ghost use Rattle.picky_cert.specs.declared.certificate.SshCertificate.{SshCertificate as Certificate};
ghost use Rattle.picky_cert_field.specs.declared.field.CertField.{CertField as Field};
ghost use Rattle.picky_cert_field.specs.FieldNumbers.{field_numbered};
ghost use Rattle.picky_cert_field.specs.Fields.{IsFieldOfLine, bare_key_line, field_in, field_of};

/// A field is handed out exactly where the line says a certificate with it, and it is the one.
#[tactic(auto, using(crate::proofs::FieldLaws::field_laws))]
pub fn a_field_is_what_the_line_says()
    ensures says { (field : Field) (line : List ℕ) (place : ℕ) (bytes : List ℕ) → field_in field line place ≡ Ok bytes
        → IsFieldOfLine field line place bytes }
    ensures means { (field : Field) (line : List ℕ) (place : ℕ) (bytes : List ℕ) → IsFieldOfLine field line place bytes
        → field_in field line place ≡ Ok bytes }
{}

/// The fields of a line that was written are those of the certificate, and its issuer signed the bytes that are written for that.
/// The certificate is one whose line is read back, or was read itself.
#[tactic(auto, using(crate::proofs::WrittenLaws::written_laws))]
pub fn fields_are_read_back()
    ensures kept { (field : Field) (c : Certificate) (place : ℕ) → IsReadBackCertificate c
        → field_in field (cert_line_of c) place ≡ field_of field c (signed_of c) place }
    ensures written { (field : Field) (text : List ℕ) (c : Certificate) (line : List ℕ) (place : ℕ) → IsUtf8 text
        → cert_line_meaning text ≡ Ok c → cert_line_text c ≡ Ok line
        → field_in field line place ≡ field_of field c (signed_of c) place }
{}

/// The issuer's line is read as the issuer's key, without a comment.
#[tactic(auto, using(crate::proofs::IssuerLaws::bare_line_reads_back))]
pub fn issuer_line_is_read_back()
    ensures { (key : AKey) → IsKey key → length (bare_key_line key) < 2 ^ 32 → line_meaning (bare_key_line key) ≡ Ok (bare key) }
{}

/// Each field has a number.
#[tactic(auto, using(crate::proofs::NumberLaws::number_of))]
pub fn each_field_has_a_number()
    ensures { (field : Field) → (number : ℕ) × (field_numbered number ≡ Some field) }
{}
