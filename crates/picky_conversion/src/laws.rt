//! The laws of what is written for a key text, each as the contract of a function that does nothing.

ghost use Rattle.std.specs.Prelude.{◌≡◌, ℕ, List, ◌∷◌, Ok, false};
ghost use Rattle.std.specs.Option.{IfSome};
ghost use Rattle.picky_target.specs.Output.{Output as Out};
ghost use Rattle.picky_target.specs.Written.{keeps_secret};
ghost use Rattle.picky_conversion.specs.AnyChain.{AnyStep, Through, pass_after};
ghost use Rattle.picky_conversion.specs.Binds.{Binds};
ghost use Rattle.picky_key_text.specs.Order.{reading};
ghost use Rattle.std.specs.Str.{IsUtf8};
ghost use Rattle.picky_cert_builder.specs.Draft.{Unsigned};
ghost use Rattle.picky_issuing.specs.declared.options.CertOptions.{CertOptions as Options};
ghost use Rattle.picky_key_text.specs.declared.meaning.Meaning.{Meaning as Meant};
ghost use Rattle.picky_key_text.specs.Reads.{Reads};
ghost use Rattle.picky_target.specs.declared.target.KeyTarget.{KeyTarget as To};
ghost use Rattle.picky_target.specs.Carried.{Carries};
ghost use Rattle.picky_target.specs.ReadBack.{IsTarget};
ghost use Rattle.picky_conversion.specs.Certify.{hex_line};
ghost use Rattle.picky_conversion.specs.Chain.{IsGiven, ChainStep, last_of, through};
ghost use Rattle.picky_conversion.specs.Convert.{IsConversion, conversion};
ghost use Rattle.picky_conversion.specs.Issue.{issued, issued_bytes};
ghost use Rattle.picky_conversion.specs.Outside.{Outside, reader};

use picky_suite::Signer;

/// A conversion's text is the one that spells what its key text means, and each key text whose meaning the target carries has
/// one.
pub fn conversion_is_the_text_of_its_input()
    ensures text { (o : Outside) (to : To) (input text : List ℕ) → IsGiven o → IsTarget to → IsUtf8 input → conversion o to input ≡ Ok text
        → IsConversion o to input text }
    ensures valid { (o : Outside) (to : To) (input : List ℕ) (m : Meant) → Reads (reader o) input m → Carries o.output to m
        → (text : List ℕ) × (conversion o to input ≡ Ok text) }
{}

/// A text that was written, converted to the same target under its own passphrase and the same fresh bytes, is itself.
pub fn written_text_is_kept()
    ensures { (o : Outside) (to : To) (input text : List ℕ) → IsGiven o → IsTarget to → IsUtf8 input → conversion o to input ≡ Ok text
        → conversion (record o { pass_in = o.output.pass }) to text ≡ Ok text }
{}

/// A list of conversions through private targets, each read under the passphrase that the one before was written under, gives
/// what the last of them gives of the first key text.
pub fn conversions_through_private_targets_lose_nothing()
    ensures { (o : Outside) (steps : List ChainStep) (step : ChainStep) (input text : List ℕ) → IsGiven o → IsUtf8 input
        → through o (step ∷ steps) input ≡ Ok text
        → conversion (record o { output = (last_of step steps).output }) (last_of step steps).target input ≡ Ok text }
{}

/// What is printed to be signed, in hex, is what the signature is of in the certificate's line that the same options, source,
/// passphrase and fresh bytes give.
pub fn printed_bytes_are_signed()
    ensures { (o : Outside) (options : Options) (input : List ℕ) (u : Unsigned) → issued o options input ≡ Ok u
        → issued_bytes o options input ≡ Ok (hex_line u) }
{}

/// The texts of two conversions to one target, under one output passphrase and the same fresh bytes, are equal exactly where the
/// target keeps the same of both meanings: the comment, and the key or, of a public target, its public part.
pub fn texts_bind_what_is_kept()
    ensures { (o : Outside) (to : To) (input text : List ℕ) → IsGiven o → IsTarget to → IsUtf8 input
        → conversion o to input ≡ Ok text → Binds o to input text }
{}

/// A list of conversions to any targets, certificates among them, each read under the passphrase that the one before was written
/// under, and then to a public target that gives a text: it is the text that this target has for the first key text.
pub fn conversions_through_any_targets_keep_public_parts<G: Signer>()
    ensures { (device : G) (o : Outside) (steps : List AnyStep) (out : Out) (to : To) (input between text : List ℕ)
        → IfSome o.pass_in IsUtf8 → IsUtf8 input → (m : Meant) → reading (reader o) input ≡ Ok m
        → keeps_secret to ≡ false → Through (G.signs device) o steps input between
        → conversion (record o { pass_in = pass_after o.pass_in steps; output = out }) to between ≡ Ok text
        → conversion (record o { output = out }) to input ≡ Ok text }
{}
