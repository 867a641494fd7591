//! The options of a command line that asks for a certificate, by their words.

ghost use Rattle.std.specs.Prelude.{◌≡◌};
ghost use Rattle.picky_issuing.specs.OptionWord.{option_of_word};

const TYPE: &str = "--type";

const ALGORITHM: &str = "--algorithm";

const KIND: &str = "--kind";

const SERIAL: &str = "--serial";

const AFTER: &str = "--after";

const BEFORE: &str = "--before";

const ID: &str = "--id";

const PRINCIPAL: &str = "--principal";

const CRITICAL: &str = "--critical";

const EXTENSION: &str = "--extension";

/// An option, named by what it gives.
#[derive(Clone, Copy)]
pub enum OptionWord {
    CertKeyType,
    SignatureAlgo,
    CertType,
    Serial,
    ValidAfter,
    ValidBefore,
    KeyId,
    Principal,
    CriticalOption,
    Extension,
}

impl OptionWord {
    /// The option with this word.
    #[tactic(auto, unfolding(crate::specs::OptionWord::type_word, crate::specs::OptionWord::algorithm_word, crate::specs::OptionWord::kind_word, crate::specs::OptionWord::serial_word, crate::specs::OptionWord::after_word, crate::specs::OptionWord::before_word, crate::specs::OptionWord::id_word, crate::specs::OptionWord::principal_word, crate::specs::OptionWord::critical_word, crate::specs::OptionWord::extension_word))]
    pub fn of_word(word: &str) -> Option<OptionWord>
        ensures { result ≡ option_of_word word.now }
    {
        if word == TYPE {
            return Some(OptionWord::CertKeyType);
        }
        if word == ALGORITHM {
            return Some(OptionWord::SignatureAlgo);
        }
        if word == KIND {
            return Some(OptionWord::CertType);
        }
        if word == SERIAL {
            return Some(OptionWord::Serial);
        }
        if word == AFTER {
            return Some(OptionWord::ValidAfter);
        }
        if word == BEFORE {
            return Some(OptionWord::ValidBefore);
        }
        if word == ID {
            return Some(OptionWord::KeyId);
        }
        if word == PRINCIPAL {
            return Some(OptionWord::Principal);
        }
        if word == CRITICAL {
            return Some(OptionWord::CriticalOption);
        }
        if word == EXTENSION {
            return Some(OptionWord::Extension);
        }
        None
    }
}
