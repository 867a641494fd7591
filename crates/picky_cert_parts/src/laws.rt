//! The laws of this crate, each as the contract of a function that does nothing else.

ghost use Rattle.std.specs.Prelude.{◌≡◌, ◌≢◌, ◌++◌, ◌<◌, ◌^◌, ◌+◌, List, ℕ, Some, None, Ok, Err, true, length};
ghost use Rattle.picky_wire_base.specs.Table.{find_entry};
ghost use Rattle.picky_wire_base.specs.Numbers.{IsBytes};
ghost use Rattle.picky_wire_base.specs.Grammar.{OneFront};
ghost use Rattle.picky_wire_base.specs.Equality.{IsEquality};
ghost use Rattle.picky_cert_parts.specs.CertNumber.{cert_type_number};
ghost use Rattle.picky_cert_parts.specs.NumberTable.{cert_types};
ghost use Rattle.picky_cert_parts.specs.CertType.{cert_type, cert_type_of};
ghost use Rattle.picky_cert_parts.specs.CriticalOption.{critical_option, option_of, IsCriticalOption};
ghost use Rattle.picky_cert_parts.specs.Extension.{extension, extension_of, IsExtension};
ghost use Rattle.picky_cert_parts.specs.Signature.{signature, total_of, behind_total, signature_of, blob_fits};
ghost use Rattle.picky_cert_parts.specs.Signature.{signature_reason, IsSignature};
ghost use Rattle.picky_cert_parts.specs.SignatureSpelled.{SignatureSpelled};
ghost use Rattle.picky_cert_parts.specs.declared.error.SshSignatureError.TheVariants as signature_errors;
ghost use Rattle.picky_cert_parts.specs.declared.cert_type.SshCertType.{SshCertType as CertType};
ghost use Rattle.picky_cert_parts.specs.declared.critical_option.SshCriticalOption.{SshCriticalOption as CriticalOption};
ghost use Rattle.picky_cert_parts.specs.declared.extension.SshExtension.{SshExtension as Extension};
ghost use Rattle.picky_cert_parts.specs.declared.signature.SshSignature.{SshSignature as Signature};

use crate::cert_type::SshCertType;
use crate::critical_option::SshCriticalOption;
use crate::extension::SshExtension;
use crate::signature::{SshSignature, SshSignatureBlob};

/// A number stands for one type of certificates, and no other number does.
#[tactic(auto, using(crate::proofs::LawLemmas::number_laws))]
pub fn each_type_has_one_number()
    ensures number { (t : CertType) → find_entry cert_types (cert_type_number t) ≡ Some t }
    ensures number_only { (n : ℕ) (t : CertType) → find_entry cert_types n ≡ Some t → cert_type_number t ≡ n }
{}

/// What is written is read back whatever follows it. A signature is so behind any total.
#[tactic(auto, using(crate::proofs::LawLemmas::element_laws))]
pub fn parts_are_read_back()
    ensures cert_type { (t : CertType) (rest : List ℕ) → cert_type.read (cert_type_of t ++ rest) ≡ Ok (t, rest) }
    ensures option { (o : CriticalOption) (rest : List ℕ) → IsCriticalOption o → critical_option.read (option_of o ++ rest) ≡ Ok (o, rest) }
    ensures extension { (x : Extension) (rest : List ℕ) → IsExtension x → extension.read (extension_of x ++ rest) ≡ Ok (x, rest) }
    ensures signature { (s : Signature) (rest : List ℕ) → IsSignature s → signature_reason s ≡ None
        → signature.read (signature_of s ++ rest) ≡ Ok (s, rest) }
    ensures any_total { (s : Signature) (total : ℕ) (rest : List ℕ) → IsSignature s → blob_fits s.format s.blob ≡ true → total < 2 ^ 32
        → signature.read (behind_total total s ++ rest) ≡ Ok (s, rest) }
{}

/// Two pieces in front of the same bytes are one piece, which spells one value.
#[tactic(auto, using(crate::proofs::LawLemmas::front_laws))]
pub fn one_front_spells_one_value()
    ensures cert_type { (v w : CertType) (a b x y : List ℕ) → cert_type.piece v a → cert_type.piece w b → a ++ x ≡ b ++ y
        → OneFront v w a b x y }
    ensures option { (v w : CriticalOption) (a b x y : List ℕ) → critical_option.piece v a → critical_option.piece w b → a ++ x ≡ b ++ y
        → OneFront v w a b x y }
    ensures extension { (v w : Extension) (a b x y : List ℕ) → extension.piece v a → extension.piece w b → a ++ x ≡ b ++ y
        → OneFront v w a b x y }
    ensures signature { (v w : Signature) (a b x y : List ℕ) → signature.piece v a → signature.piece w b → a ++ x ≡ b ++ y
        → OneFront v w a b x y }
{}

/// What is read is the one spelling and what follows it; of a signature it is that behind some total.
#[tactic(auto, using(crate::proofs::SpellingLaws::spelling_laws))]
pub fn one_spelling_is_read()
    ensures cert_type { (bytes : List ℕ) (t : CertType) (rest : List ℕ) → IsBytes bytes → cert_type.read bytes ≡ Ok (t, rest)
        → bytes ≡ cert_type_of t ++ rest }
    ensures option { (bytes : List ℕ) (o : CriticalOption) (rest : List ℕ) → IsBytes bytes → critical_option.read bytes ≡ Ok (o, rest)
        → bytes ≡ option_of o ++ rest }
    ensures extension { (bytes : List ℕ) (x : Extension) (rest : List ℕ) → IsBytes bytes → extension.read bytes ≡ Ok (x, rest)
        → bytes ≡ extension_of x ++ rest }
    ensures signature { (bytes : List ℕ) (s : Signature) (rest : List ℕ) → IsBytes bytes → signature.read bytes ≡ Ok (s, rest)
        → SignatureSpelled bytes s rest }
{}

/// What is read keeps what its type keeps, and a signature's blob fits its format.
#[tactic(auto, using(crate::proofs::SpellingLaws::keeping_laws))]
pub fn what_is_read_is_valid()
    ensures option { (bytes : List ℕ) (o : CriticalOption) (rest : List ℕ) → IsBytes bytes → critical_option.read bytes ≡ Ok (o, rest)
        → IsCriticalOption o }
    ensures extension { (bytes : List ℕ) (x : Extension) (rest : List ℕ) → IsBytes bytes → extension.read bytes ≡ Ok (x, rest)
        → IsExtension x }
    ensures signature { (bytes : List ℕ) (s : Signature) (rest : List ℕ) → IsBytes bytes → signature.read bytes ≡ Ok (s, rest)
        → IsSignature s }
    ensures fits { (bytes : List ℕ) (s : Signature) (rest : List ℕ) → IsBytes bytes → signature.read bytes ≡ Ok (s, rest)
        → blob_fits s.format s.blob ≡ true }
{}

/// Reading refuses no signature for a blob that does not fit its format.
#[tactic(auto, using(crate::proofs::MismatchLaws::no_mismatch))]
pub fn reading_gives_no_mismatch()
    ensures { (bytes : List ℕ) → signature.read bytes ≢ Err signature_errors.BlobMismatch }
{}

/// The total that is written is how long what follows it is.
#[tactic(auto, using(crate::proofs::SpellingLaws::total_is_length))]
pub fn total_counts_what_follows()
    ensures { (s : Signature) → length (signature_of s) ≡ 4 + total_of s }
{}

/// Two values are equal exactly where their contents are.
pub fn equality_is_of_contents()
    ensures cert_type { IsEquality ⟦<SshCertType as PartialEq>⟧.eq }
    ensures option { IsEquality ⟦<SshCriticalOption as PartialEq>⟧.eq }
    ensures extension { IsEquality ⟦<SshExtension as PartialEq>⟧.eq }
    ensures blob { IsEquality ⟦<SshSignatureBlob as PartialEq>⟧.eq }
    ensures signature { IsEquality ⟦<SshSignature as PartialEq>⟧.eq }
{}
