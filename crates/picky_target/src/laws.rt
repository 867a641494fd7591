//! The laws of what a target carries and of what is written, each as the contract of a function that does nothing.

ghost use Rattle.std.specs.Prelude.{◌≡◌, List, ℕ, Ok, Err};
ghost use Rattle.std.specs.Option.{IfSome};
ghost use Rattle.std.specs.Str.{IsUtf8};
ghost use Rattle.picky_wire_base.specs.Numbers.{IsBytes};
ghost use Rattle.picky_suite.specs.Meanings.{Meanings};
ghost use Rattle.picky_wire_base.specs.Equality.{IsEquality};
ghost use Rattle.picky_kv.specs.declared.PpkVersionKey.{PpkVersionKey as Version};
ghost use Rattle.picky_ppk_parts.specs.declared.config.PpkEncryptionConfig.{PpkEncryptionConfig as Config};
ghost use Rattle.picky_ppk_file.specs.declared.file.PpkFile.{PpkFile as File};
ghost use Rattle.picky_ppk.specs.declared.layout.PpkLayout.TheVariants.{Putty};
ghost use Rattle.picky_ppk.specs.Checked.{ppk_meaning};
ghost use Rattle.picky_ppk.specs.PpkLayout.{HasPuttyLayout};
ghost use Rattle.picky_key_text.specs.declared.meaning.Meaning.{Meaning as Meant};
ghost use Rattle.picky_key_text.specs.Kept.{IsKeptMeaning};
ghost use Rattle.picky_key_text.specs.Reads.{Reads};
ghost use Rattle.picky_target.specs.declared.error.ConvertError.{ConvertError as Refused};
ghost use Rattle.picky_target.specs.declared.target.KeyTarget.{KeyTarget as To};
ghost use Rattle.picky_target.specs.declared.target.KeyTarget.TheVariants.{Ppk};
ghost use Rattle.picky_target.specs.Carried.{Carries, Holds, Place};
ghost use Rattle.picky_target.specs.Judged.{judged_meaning, place_refusal};
ghost use Rattle.picky_target.specs.Output.{Output};
ghost use Rattle.picky_target.specs.ReadBack.{IsConfig, IsTarget, kept, under};
ghost use Rattle.picky_target.specs.Texts.{Spells, text_for};

use crate::error::ConvertError;
use crate::target::KeyTarget;

/// A target takes a meaning exactly where it carries it, and its refusal is that of a place that doesn't hold.
pub fn targets_take_what_they_carry()
    ensures carries { (out : Output) (to : To) (m : Meant) → judged_meaning out to m ≡ Ok tt → Carries out to m }
    ensures takes { (out : Output) (to : To) (m : Meant) → Carries out to m → judged_meaning out to m ≡ Ok tt }
    ensures refuses { (out : Output) (to : To) (m : Meant) (e : Refused) → judged_meaning out to m ≡ Err e
        → (place : Place) × (e ≡ place_refusal to place) × (Holds out to m place → ⊥) }
{}

/// A meaning that a target carries has one text there.
pub fn text_is_the_one_spelling()
    ensures spells { (s : Meanings) (out : Output) (to : To) (m : Meant) → Spells s out to m (text_for s out to m) }
    ensures one { (s : Meanings) (out : Output) (to : To) (m : Meant) (text : List ℕ) → Spells s out to m text
        → text ≡ text_for s out to m }
{}

/// A text that spells what its target carries means, under the passphrase that it is sealed with, what the target keeps of it:
/// the key or its public part, and the comment. Every value of `KeyTarget` has numbers as `IsTarget` says.
pub fn text_is_read_back()
    ensures { (s : Meanings) (out : Output) (to : To) (m : Meant) (text : List ℕ) → IsTarget to → IsKeptMeaning m
        → IsBytes out.fresh → IfSome out.pass IsUtf8 → Carries out to m → Spells s out to m text
        → Reads (under s out.pass) text (kept to m) }
{}

/// A text that spells what its target carries in PuTTY's own layout is that of a file of this layout; or, sealed, of one that its
/// passphrase opens to such a file.
pub fn files_for_putty_have_puttys_layout()
    ensures { (s : Meanings) (out : Output) (version : Version) (config : Config) (m : Meant) (text : List ℕ) → IsConfig config
        → IsKeptMeaning m → IsBytes out.fresh → IfSome out.pass IsUtf8 → Carries out (Ppk version config Putty) m
        → Spells s out (Ppk version config Putty) m text
        → (f : File) × (ppk_meaning s text ≡ Ok f) × HasPuttyLayout s out.pass f }
{}

/// Two targets are equal exactly where their contents are, and so are refusals.
pub fn equality_is_of_contents()
    ensures target { IsEquality ⟦<KeyTarget as PartialEq>⟧.eq }
    ensures error { IsEquality ⟦<ConvertError as PartialEq>⟧.eq }
{}
