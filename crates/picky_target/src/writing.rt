//! A key and a comment written as a target's text.

ghost use Rattle.std.specs.Prelude.{Ok, Err};
ghost use Rattle.std.specs.Option.{option_copied};
ghost use Rattle.picky_suite.specs.Asked.{GivesAsked, IsAskedAtMost, LeavesSuite};
ghost use Rattle.picky_wire.specs.Count.{Rose};
ghost use Rattle.picky_target.specs.Written.{target_fault, written, writing_asks};

use crate::envelope::write_envelope;
use crate::error::ConvertError;
use crate::file::write_file;
use crate::public::{write_line, write_putty};
use crate::target::KeyTarget;
use picky_key_text::{Key, Meaning, public_key};
use picky_suite::Suite;
use picky_wire::Text;
use std::alloc::Global;

/// The text of the target for a key and a comment: of a public target for the public part of the key.
///
/// `OpenSsh` and `Ppk` are sealed where there is a passphrase, an empty one too, with the first of the fresh bytes: a salt of
/// 16 for `OpenSsh`; for `Ppk` in version 3 a salt as long as the configuration says, and then in both versions a padding of
/// 0 to 15, as what the layout has lacks. Refuses, in order: `NoPrivateKey`; `Putty(NotSupported)`, where PuTTY has no such key; `CommentNotCarried`;
/// where it is sealed `Private(HashingError)` for a passphrase or rounds that bcrypt can't be run with, `Putty(Argon2)` where
/// Argon2 can't, and `FreshTooShort`; `TooLong`; `TooManyLines`, where a block of a `Ppk` has more than 3,145,680 bytes; where it is
/// sealed `Private(SuiteFault)` or `Putty(SuiteFault)`.
pub fn write_text<S: Suite>(
    alloc: Global,
    suite: &mut S,
    target: KeyTarget,
    meaning: Meaning,
    pass: Option<&str>,
    fresh: &[u8],
) -> Result<Text, ConvertError>
    ensures gives { GivesAsked ConvertError.NoMemory (target_fault target) (λ text. text) result
        (written (S.meanings suite.old) (record { pass = option_copied pass.entry; fresh = fresh.now }) target meaning)
        (writing_asks (record { pass = option_copied pass.entry; fresh = fresh.now }) target meaning)
        (Rose (S.faults suite.old) (S.faults suite.new)) }
    ensures suite { LeavesSuite S.meanings S.faults (target_fault target)
        (writing_asks (record { pass = option_copied pass.entry; fresh = fresh.now }) target meaning) result suite.old suite.new }
    ensures asked { IsAskedAtMost 2 S.calls suite.old suite.new }
{
    match target {
        KeyTarget::OpenSsh(rounds) => {
            let Meaning { key, comment } = meaning;
            match key {
                Key::Private(key) => {
                    write_envelope(alloc, suite, rounds, key, comment.as_str(), pass, fresh)
                }
                Key::Public(key) => {
                    drop(key);
                    Err(ConvertError::NoPrivateKey)
                }
            }
        }
        KeyTarget::Ppk(version, config, layout) => {
            let Meaning { key, comment } = meaning;
            match key {
                Key::Private(key) => {
                    let text = write_file(
                        alloc, suite, version, config, layout, &key, comment, pass, fresh,
                    );
                    drop(key);
                    text
                }
                Key::Public(key) => {
                    drop(key);
                    Err(ConvertError::NoPrivateKey)
                }
            }
        }
        KeyTarget::OpenSshPublic => write_line(alloc, &public_key(meaning)),
        KeyTarget::PuttyPublic => write_putty(alloc, public_key(meaning)),
    }
}
