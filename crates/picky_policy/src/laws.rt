//! The laws of this crate, each as the contract of a function that does nothing.

ghost use Rattle.std.specs.Prelude.{◌≡◌, ◌↔◌, ◌⊎◌, ◌<◌, ◌≤◌, ◌++◌, ℕ, Bool, List, length, Some, Ok, Err};
ghost use Rattle.std.specs.Str.{IsUtf8};
ghost use Rattle.picky_wire_base.specs.Numbers.{IsBytes};
ghost use Rattle.picky_wire_base.specs.Equality.{IsEquality};
ghost use Rattle.picky_wire.specs.declared.timestamp.Timestamp.{Timestamp as Moment};
ghost use Rattle.picky_input.specs.Input.{input_limit};
ghost use Rattle.picky_input.specs.SourceText.{IsSourceText};
ghost use Rattle.picky_wire.specs.OfWire.{IsErrorOfBytes};
ghost use Rattle.picky_keys.specs.FromWire.{public_key_error};
ghost use Rattle.picky_keys.specs.declared.error.SshPublicKeyError.{SshPublicKeyError as KeyRefusal};
ghost use Rattle.picky_keys.specs.declared.key.SshBasePublicKey.{SshBasePublicKey as BaseKey};
ghost use Rattle.picky_authorized.specs.declared.auth_option.AuthOption.{AuthOption as AnOption};
ghost use Rattle.picky_authorized.specs.declared.entry.AuthEntry.{AuthEntry as Entry};
ghost use Rattle.picky_cert.specs.Certificate.{said};
ghost use Rattle.picky_cert.specs.Want.{IsReadFault};
ghost use Rattle.picky_cert_parts.specs.declared.error.SshCertificateError.{SshCertificateError as CertificateRefusal};
ghost use Rattle.picky_cert.specs.declared.certificate.SshCertificate.{SshCertificate as Certificate};
ghost use Rattle.picky_cert_parts.specs.declared.critical_option.SshCriticalOption.{SshCriticalOption as Critical};
ghost use Rattle.picky_key_text.specs.Want.{IsFault, WantsMemory};
ghost use Rattle.picky_key_text.specs.declared.error.ReadError.{ReadError};
ghost use Rattle.picky_key_text.specs.declared.error.ReadError.TheVariants as reads;
ghost use Rattle.picky_policy.specs.Command.{Asked, Names};
ghost use Rattle.picky_policy.specs.Decided.{line_for, IsLineFor, Line};
ghost use Rattle.picky_policy.specs.Demands.{demands_in, AreDemands, Demands};
ghost use Rattle.picky_policy.specs.Offer.{offer_in, IsOffer};
ghost use Rattle.picky_policy.specs.Rules.{judged_rules, Lets};
ghost use Rattle.picky_policy.specs.Run.{offer_part, offered};
ghost use Rattle.picky_policy.specs.declared.offer.Offer.{Offer as AnOffer};
ghost use Rattle.picky_policy.specs.declared.offer.Offer.TheVariants as offers;

use crate::deciding::DecideError;
use crate::decision::Denial;
use crate::status::PolicyStatus;

/// A text is read as an offer exactly where it is one; so it is one.
pub fn text_is_one_offer()
    ensures { (text : List ℕ) (offer : AnOffer) → IsBytes text → (offer_in text ≡ Ok offer) ↔ IsOffer text offer }
{}

/// An offer is refused for itself: at no depth for a fault of a source or a suite, and never for want of memory.
pub fn offers_are_refused_for_themselves()
    ensures device { (text : List ℕ) (e : ReadError) → offer_in text ≡ Err e → (WantsMemory e → ⊥) × (IsFault e → ⊥) }
    ensures key { (text : List ℕ) (e : KeyRefusal) → offer_in text ≡ Err (reads.Public e) → IsErrorOfBytes public_key_error e }
    ensures certificate { (text : List ℕ) (e : CertificateRefusal) → offer_in text ≡ Err (reads.Certificate e)
        → IsReadFault e → ⊥ }
{}

/// The message that is verified binds all that the certificate says: of two certificates that are offered, the message of one is
/// the prefix of the other's only where both say the same.
pub fn message_binds_what_is_said()
    ensures { (x y : List ℕ) (c d : Certificate) (m more : List ℕ) → IsBytes x → IsBytes y → offer_in x ≡ Ok (offers.Certificate c m)
        → offer_in y ≡ Ok (offers.Certificate d (m ++ more)) → said c ≡ said d }
{}

/// Critical options demand something exactly where none is of a type twice and each payload fits.
pub fn demands_are_of_options()
    ensures { (options : List Critical) (d : Demands) → (demands_in options ≡ Some d) ↔ AreDemands options d }
{}

/// No rule fails exactly where the line lets the certificate in.
pub fn rules_are_kept_exactly()
    ensures { (options : List AnOption) (c : Certificate) (user : List ℕ) (moment : Moment) (d : Demands)
        → (judged_rules options c user moment ≡ Ok d) ↔ Lets options c user moment d }
{}

/// The line for a key is the first.
pub fn line_is_the_first()
    ensures { (authority : Bool) (key : BaseKey) (entries : List Entry) (line : Line)
        → (line_for authority key entries ≡ Some line) ↔ IsLineFor authority key entries line }
{}

/// Words name one thing that is asked for, or none.
pub fn words_name_one_or_none()
    ensures one_or_none { (words : List (List ℕ)) → ((a : Asked) × Names words a) ⊎ ((a : Asked) → Names words a → ⊥) }
    ensures once { (words : List (List ℕ)) (a b : Asked) → Names words a → Names words b → a ≡ b }
{}

/// The bytes of a source are refused exactly where they are too many; or few enough and not UTF-8; or a text whose offer isn't read.
pub fn bytes_are_refused_for_what_they_are()
    ensures too_long { (input : List ℕ) → (offered input ≡ Err PolicyStatus.InputTooLong) ↔ (input_limit < length input) }
    ensures not_utf8 { (input : List ℕ) → (offered input ≡ Err PolicyStatus.InputNotUtf8)
        ↔ ((length input ≤ input_limit) × (IsUtf8 input → ⊥)) }
    ensures bad_offer { (input : List ℕ) → (offered input ≡ Err PolicyStatus.BadOffer)
        ↔ (IsSourceText input × (e : ReadError) × (offer_in (offer_part input) ≡ Err e)) }
{}

/// Two values are equal exactly where their contents are.
pub fn equality_is_of_contents()
    ensures denial { IsEquality ⟦<Denial as PartialEq>⟧.eq }
    ensures error { IsEquality ⟦<DecideError as PartialEq>⟧.eq }
    ensures status { IsEquality ⟦<PolicyStatus as PartialEq>⟧.eq }
{}
