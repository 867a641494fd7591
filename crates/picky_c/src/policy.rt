//! Logins, decided by answers.

ghost use Rattle.std.specs.Prelude.{◌≡◌};
ghost use Rattle.picky_ask_verifier.specs.Verdicts.{SignatureTest};
ghost use Rattle.picky_login.specs.Login.{login_given};
ghost use Rattle.picky_c.specs.Policy.{AnswersLogin, HandsLogin, login_refusal as login_refusal_of};

use crate::answer::{PickyAnswer, hand_out, refuse};
use crate::error::{AnswersError, PickyError, table_refusal};
use crate::given::PickyBytes;
use crate::number::number_of;
use picky_login::{Login, LoginError, decide_login};
use picky_target::ConvertError;
use std::alloc::Global;

/// Whether an offer gets in by authorized keys, as a user at a moment, in seconds since 1970-01-01T00:00:00Z: the lines of the
/// grant; with the number of the denial those of the denial; or, with `Asked`, the question whether the issuer's signature is
/// good, which is asked only where no other rule fails. By answers that `test` says, it is the decision under `test`.
///
/// Refuses, in order: as `picky_login::decide_login`, and `BufferTooSmall`, also where a denial or a question has no room.
#[unsafe(no_mangle)]
pub extern "C" fn picky_decide_by(
    alloc: Global,
    authorized: PickyBytes<'_>,
    offer: PickyBytes<'_>,
    user: PickyBytes<'_>,
    moment: u64,
    answers: PickyBytes<'_>,
    out: &mut [u8],
) -> PickyAnswer
    ghost test: { SignatureTest }
    ensures { AnswersLogin test
        (login_given authorized.entry.bytes.now offer.entry.bytes.now user.entry.bytes.now moment answers.entry.bytes.now)
        result out.old out.new }
{
    let login = decide_login(
        alloc,
        authorized.bytes,
        offer.bytes,
        user.bytes,
        moment,
        answers.bytes,
    );
    hand_login(login, out)
}

/// Hands out what a login comes to.
fn hand_login(login: Result<Login, LoginError>, out: &mut [u8]) -> PickyAnswer
    ensures { HandsLogin login result out.old out.new }
{
    match login {
        Ok(Login::Granted(text)) => hand_out(0, text.as_slice(), out),
        Ok(Login::Denied(why, text)) => {
            let denied = PickyError::Denied(why);
            let number = number_of(&denied);
            drop(denied);
            hand_out(number, text.as_slice(), out)
        }
        Ok(Login::Question(bytes)) => hand_out(13, bytes.as_slice(), out),
        Err(e) => refuse(login_refusal(e)),
    }
}

/// Why a login comes to nothing, as the call's refusal.
fn login_refusal(e: LoginError) -> PickyError
    ensures { result ≡ login_refusal_of e }
{
    match e {
        LoginError::AuthorizedNotUtf8 => PickyError::AuthorizedNotUtf8,
        LoginError::OfferNotUtf8 => PickyError::OfferNotUtf8,
        LoginError::UserNotUtf8 => PickyError::UserNotUtf8,
        LoginError::Answers(e) => table_refusal(e),
        LoginError::AuthorizedTooLong => PickyError::Refused(ConvertError::TooLong),
        LoginError::Offer(e) => PickyError::Refused(ConvertError::Input(e)),
        LoginError::WrongLength => PickyError::Answers(AnswersError::WrongLength),
        LoginError::UnknownByte => PickyError::Answers(AnswersError::UnknownByte),
        LoginError::TooLong => PickyError::Answers(AnswersError::TooLong),
        LoginError::NoMemory => PickyError::NoMemory,
    }
}
