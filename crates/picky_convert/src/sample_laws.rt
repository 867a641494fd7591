//! The law of the sample texts, as the contract of a function that does nothing.

ghost use Rattle.std.specs.Prelude.{◌^◌, ◌<◌, ℕ};
ghost use Rattle.picky_keys.specs.Key.{is_security_key_kind};
ghost use Rattle.picky_suite.specs.Meanings.{Meanings};
ghost use Rattle.picky_convert.specs.SampleChain.{AreConverted};
ghost use Rattle.picky_convert.specs.SampleKeys.{kind_at};
ghost use Rattle.picky_convert.specs.SampleTexts.{texts_at};

/// The texts of a sample key are its envelope, and behind it what conversions make, each of a text before it.
pub fn sample_texts_are_conversions()
    ensures { (m : Meanings) (i : ℕ) → i < 2 ^ 16 → AreConverted m i (is_security_key_kind (kind_at i)) (texts_at m i) }
{}
