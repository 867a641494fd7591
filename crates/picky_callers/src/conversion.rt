//! A key text converted to another.

ghost use Rattle.std.specs.Prelude.{◌≡◌, ◌⊎◌, Err, None, IfErr, IfOk};
ghost use Rattle.picky.specs.Convert.{conversion};
ghost use Rattle.picky.specs.Meanings.{plain};
ghost use Rattle.picky.specs.Reads.{Reads};
ghost use Rattle.picky.specs.declared.convert.Meaning.{Meaning as Meant};
ghost use Rattle.picky_callers.specs.Alone.{alone, to_putty};

use picky::convert::laws::key_text::no_passphrase_asks_no_suite;
use picky::convert::{ConvertError, Target, convert};
use picky::putty::{PpkEncryptionConfig, PpkVersion};
use picky::ssh::{HandedSigner, PlainSuite};
use picky::wire::Text;
use std::alloc::Global;

/// A key text in any form that has the secret and needs no passphrase, as a PuTTY private key file of version 3; neither is encrypted.
pub fn putty_text(alloc: Global, input: &str) -> Result<Text, ConvertError>
    // Both texts mean the same key and comment, and no other.
    ensures ok { IfOk result (λ text. (meaning : Meant)
        × Reads (record { meanings = plain; pass = None }) input.now meaning
        × Reads (record { meanings = plain; pass = None }) text meaning) }

    // Else it is refused in `convert`'s order. No suite is asked, since nothing is opened and nothing sealed.
    ensures refused { IfErr result (λ e. (e ≡ ConvertError.NoMemory) ⊎ (conversion alone to_putty input.now ≡ Err e)) }
{
    no_passphrase_asks_no_suite();
    let target = Target::Ppk(PpkVersion::V3, PpkEncryptionConfig::default());
    let mut suite = PlainSuite::new();
    let mut signer = HandedSigner::new(None);
    let converted = convert(
        alloc,
        &mut suite,
        &mut signer,
        input,
        None,
        &target,
        None,
        &[],
    );
    drop(signer);
    converted
}
