//! What C calls.
//!
//! A slice is a pointer and a length to C, and a `Global` is nothing. What holds of them here a caller in C has to see to.

ghost use Rattle.std.specs.Prelude.{[], false};
ghost use Rattle.picky_suite.specs.Meanings.{Meanings, plain};
ghost use Rattle.picky_c.specs.Answer.{AnswersCall};
ghost use Rattle.picky_c.specs.AuthorizedPart.{authorized_part_in};
ghost use Rattle.picky_c.specs.CertificatePart.{IsCertificatePart, certificate_part_in};
ghost use Rattle.picky_c.specs.Calls.{IsConverted, IsFingerprint, IsPart, converted as converted_of, converting_is_asked};
ghost use Rattle.picky_c.specs.Calls.{fingerprint as fingerprint_of, numbered_target, public_part_in, sealed_target};
ghost use Rattle.picky_c.specs.Given.{given};
ghost use Rattle.picky_changed.specs.Comment.{IsCommented};
ghost use Rattle.picky_c.specs.Comment.{commented as commented_of};
ghost use Rattle.picky_c.specs.Shown.{IsShownPart, shown_part_in};
ghost use Rattle.picky_c.specs.Name.{IsNamed, error_name, version};
ghost use Rattle.picky_c.specs.Round.{AnswersRound};

use crate::answer::{PickyAnswer, hand};
use crate::authorized_part::authorized_part;
use crate::certificate_part::certificate_part;
use crate::comment::commented;
use crate::conversion::converted;
use crate::given::{Given, PickyBytes};
use crate::name::{PickyName, name_of, version_name};
use crate::public::{fingerprint, part as part_of_text};
use crate::round::{converted_by, hand_round};
use crate::sealing::{PickySealing, target_of_sealing};
use crate::shown::shown_part;
use crate::target::target_of;
use std::alloc::Global;

/// The text of the target with a number for what a key text means.
///
/// Refuses, in order: `NoSuchTarget`, `TextNotUtf8`, `PassNotUtf8`, as `picky_conversion::convert_key_text`, and `BufferTooSmall`;
/// `NoCipher` where something is to be opened or sealed: it is `picky_convert_by` by no answers, under any ciphers `m`.
#[unsafe(no_mangle)]
pub extern "C" fn picky_convert(
    alloc: Global,
    text: PickyBytes<'_>,
    target: u32,
    pass_in: PickyBytes<'_>,
    pass_out: PickyBytes<'_>,
    fresh: PickyBytes<'_>,
    out: &mut [u8],
) -> PickyAnswer
    ghost m: { Meanings }
    ensures { let all = given text.entry.bytes.now pass_in.entry.bytes.now pass_out.entry.bytes.now fresh.entry.bytes.now [] in
        AnswersCall (converted_of m (numbered_target target) all) (converting_is_asked m (numbered_target target) all)
        (IsConverted m (numbered_target target) all) result out.old out.new }
{
    let outcome = converted(
        alloc,
        text.bytes,
        target,
        pass_in.bytes,
        pass_out.bytes,
        fresh.bytes,
    );
    hand(outcome, out)
}

/// The same by the answers that the caller gives to questions: the text, or, with `Asked`, the question that they lack, as bytes.
/// By `m`, where that gives each answer, it is what a conversion under `m` gives.
///
/// Refuses, in order: `NoSuchTarget`; `Answers` as `picky_ask::Table::read`; as `picky_convert`, with `Answers` for an answer that
/// is none; `BufferTooSmall`, also where a question has no room.
#[unsafe(no_mangle)]
pub extern "C" fn picky_convert_by(
    alloc: Global,
    text: PickyBytes<'_>,
    target: u32,
    pass_in: PickyBytes<'_>,
    pass_out: PickyBytes<'_>,
    fresh: PickyBytes<'_>,
    answers: PickyBytes<'_>,
    out: &mut [u8],
) -> PickyAnswer
    ghost m: { Meanings }
    ensures { AnswersRound m (numbered_target target)
        (given text.entry.bytes.now pass_in.entry.bytes.now pass_out.entry.bytes.now fresh.entry.bytes.now answers.entry.bytes.now)
        result out.old out.new }
{
    let given = Given {
        text: text.bytes,
        pass_in: pass_in.bytes,
        pass_out: pass_out.bytes,
        fresh: fresh.bytes,
        answers: answers.bytes,
    };
    hand_round(converted_by(alloc, target_of(target), given), out)
}

/// The same to a private key's text, sealed as the caller chooses where there is a passphrase.
///
/// Refuses, in order: `NoSuchSealing`, and as `picky_convert_by`.
#[unsafe(no_mangle)]
pub extern "C" fn picky_seal_by(
    alloc: Global,
    text: PickyBytes<'_>,
    sealing: &PickySealing,
    pass_in: PickyBytes<'_>,
    pass_out: PickyBytes<'_>,
    fresh: PickyBytes<'_>,
    answers: PickyBytes<'_>,
    out: &mut [u8],
) -> PickyAnswer
    ghost m: { Meanings }
    ensures { AnswersRound m (sealed_target sealing.now)
        (given text.entry.bytes.now pass_in.entry.bytes.now pass_out.entry.bytes.now fresh.entry.bytes.now answers.entry.bytes.now)
        result out.old out.new }
{
    let given = Given {
        text: text.bytes,
        pass_in: pass_in.bytes,
        pass_out: pass_out.bytes,
        fresh: fresh.bytes,
        answers: answers.bytes,
    };
    hand_round(converted_by(alloc, target_of_sealing(sealing), given), out)
}

/// The SHA-256 fingerprint of the key that a text means, as `ssh-keygen -l` prints it.
///
/// Refuses, in order: `TextNotUtf8`, as `picky_key_text::read_text` without a passphrase, and `BufferTooSmall`.
#[unsafe(no_mangle)]
pub extern "C" fn picky_fingerprint(
    alloc: Global,
    text: PickyBytes<'_>,
    out: &mut [u8],
) -> PickyAnswer
    ensures { AnswersCall (fingerprint_of text.entry.bytes.now) false (IsFingerprint text.entry.bytes.now) result out.old out.new }
{
    let outcome = fingerprint(alloc, text.bytes);
    hand(outcome, out)
}

/// The part with a number of the public key that a text means: its type's name, its blob or the comment.
///
/// Refuses, in order: `NoSuchPart`, and as `picky_fingerprint`.
#[unsafe(no_mangle)]
pub extern "C" fn picky_read_public(
    alloc: Global,
    text: PickyBytes<'_>,
    part: u32,
    out: &mut [u8],
) -> PickyAnswer
    ensures { AnswersCall (public_part_in text.entry.bytes.now part) false (IsPart text.entry.bytes.now part) result out.old out.new }
{
    let outcome = part_of_text(alloc, text.bytes, part);
    hand(outcome, out)
}

/// The part with a number of what a key text shows without a passphrase; no bytes where it has no such thing.
///
/// Refuses, in order: `NoSuchPart`, `TextNotUtf8`, as `picky_shown::show_text`, and `BufferTooSmall`; of the public key line
/// `CommentNotCarried` and `TooLong` before that.
#[unsafe(no_mangle)]
pub extern "C" fn picky_shown_public(
    alloc: Global,
    text: PickyBytes<'_>,
    part: u32,
    out: &mut [u8],
) -> PickyAnswer
    ensures { AnswersCall (shown_part_in text.entry.bytes.now part) false (IsShownPart text.entry.bytes.now part) result out.old out.new }
{
    let outcome = shown_part(alloc, text.bytes, part);
    hand(outcome, out)
}

/// The field with a number of the certificate that a line says; `place` counts the items of a list from 0, and is heeded for an
/// item alone.
///
/// Refuses, in order: `NoSuchPart`, `TextNotUtf8`, as `picky_cert::SshCertificate::from_str`, `NoSuchPlace`, and `BufferTooSmall`.
#[unsafe(no_mangle)]
pub extern "C" fn picky_certificate_part(
    alloc: Global,
    text: PickyBytes<'_>,
    part: u32,
    place: usize,
    out: &mut [u8],
) -> PickyAnswer
    ensures { AnswersCall (certificate_part_in text.entry.bytes.now part place) false
        (IsCertificatePart text.entry.bytes.now part place) result out.old out.new }
{
    let outcome = certificate_part(alloc, text.bytes, part, place);
    hand(outcome, out)
}

/// The field with a number of authorized keys; `place` counts their lines that aren't blank and no comment from 0, and `option` the
/// options of one.
///
/// Refuses, in order: `NoSuchPart`, `TextNotUtf8`, `TooLong`, `NoSuchPlace`, `NoKey`, `NoSuchOption`, and `BufferTooSmall`.
#[unsafe(no_mangle)]
pub extern "C" fn picky_authorized_entry(
    alloc: Global,
    text: PickyBytes<'_>,
    place: usize,
    part: u32,
    option: usize,
    out: &mut [u8],
) -> PickyAnswer
    ensures { AnswersCall (authorized_part_in text.entry.bytes.now part place option) false (λ bytes. Unit {0}) result out.old out.new }
{
    let outcome = authorized_part(alloc, text.bytes, part, place, option);
    hand(outcome, out)
}

/// The key text with another comment, which means the same key.
///
/// Refuses, in order: `TextNotUtf8`, `CommentNotUtf8`, as `picky_changed::with_comment`, and `BufferTooSmall`.
#[unsafe(no_mangle)]
pub extern "C" fn picky_with_comment(
    alloc: Global,
    text: PickyBytes<'_>,
    comment: PickyBytes<'_>,
    out: &mut [u8],
) -> PickyAnswer
    ensures { AnswersCall (commented_of text.entry.bytes.now comment.entry.bytes.now) false
        (IsCommented plain comment.entry.bytes.now text.entry.bytes.now) result out.old out.new }
{
    let outcome = commented(alloc, text.bytes, comment.bytes);
    hand(outcome, out)
}

/// The name of the number that a call answers, and zeros behind it; a number that none answers has none.
#[unsafe(no_mangle)]
pub extern "C" fn picky_error_name(error: u32) -> PickyName
    ensures { IsNamed (error_name error) result.text }
{
    name_of(error)
}

/// The version of this library, and zeros behind it.
#[unsafe(no_mangle)]
pub extern "C" fn picky_version() -> PickyName
    ensures { IsNamed version result.text }
{
    version_name()
}
