//! Logins by answers: what is printed, what is asked, and what is refused.

use crate::answered_verifier::QUESTION;
use crate::row_texts::row_text;
use picky_login::{Login, LoginError, decide_login};
use std::alloc::Global;
use std::mem::ManuallyDrop;
use std::test::Fail;

/// What a login comes to is this: the lines of the decision, `asked` for the plain certificate's question, or the refusal's name.
fn is_said(alloc: Global, login: &Result<Login, LoginError>, wanted: &str) -> Result<bool, Fail> {
    match login {
        Ok(Login::Granted(text) | Login::Denied(_, text)) => Ok(
            text.as_slice() == wanted.as_bytes(),
        ),
        Ok(Login::Question(bytes)) => Ok(wanted == "asked" && bytes.as_slice() == QUESTION),
        Err(e) => {
            let name = ManuallyDrop::new(format!(in alloc; "{e}")?);
            Ok(name.as_str() == wanted)
        }
    }
}

/// The login of `me` at the moment 5, by a table of the plain certificate's question and this answer, or by no answers.
fn comes_to(
    alloc: Global,
    keys: &str,
    offer: &str,
    answer: Option<&[u8]>,
    wanted: &str,
) -> Result<bool, Fail> {
    let keys = ManuallyDrop::new(row_text(alloc, keys)?);
    let offer = ManuallyDrop::new(row_text(alloc, offer)?);
    let mut answers = ManuallyDrop::new(Vec::new(alloc));
    match answer {
        Some(answer) => {
            answers.extend_from_slice(QUESTION)?;
            answers.extend_from_slice(answer)?;
        }
        None => {}
    }
    let login = ManuallyDrop::new(decide_login(
        alloc,
        keys.as_bytes(),
        offer.as_bytes(),
        b"me",
        5,
        answers.as_slice(),
    ));
    is_said(alloc, &login, wanted)
}

/// The texts of authorized keys and of an offer, the answer, and what the login comes to.
type Row = (
    &'static str,
    &'static str,
    Option<&'static [u8]>,
    &'static str,
);

// docs/FORMATS.md, "Policies", has the lines. The fingerprints are those of ssh-keygen -lf: of the key that is offered, or of the
// certificate's subject.
static LOGINS: [Row; 14] = [
    (
        "no-pty ssh-ed25519 B0 k\n",
        "ssh-ed25519 B0 l",
        None,
        "grant 1\noption no-pty\nkey SHA256:kmYcvdi2GkPeWxB6XLjrZB8JHsy2Hm8luHMFp9GMvqk\n",
    ),
    (
        "ssh-ed25519 B0 k\n",
        "<user>",
        None,
        "deny NoLine\nkey SHA256:DfRcYZwyv56wTc7SW1uX8hzwJ3EEWwWlbZyqra3T9z8\n",
    ),
    // A line `%%` is a line of authorized keys as any other, whose options don't fit; no offer is looked for behind it.
    (
        "ssh-ed25519 B0 k\n%%\n<user>\n",
        "ssh-ed25519 B0 k",
        None,
        "grant 1\nkey SHA256:kmYcvdi2GkPeWxB6XLjrZB8JHsy2Hm8luHMFp9GMvqk\n",
    ),
    (
        "%%\n<user>\n",
        "<user>",
        None,
        "grant 2\nkey SHA256:DfRcYZwyv56wTc7SW1uX8hzwJ3EEWwWlbZyqra3T9z8\n",
    ),
    (
        "ssh-ed25519 B0 k\n%%\nssh-ed25519 B0 k",
        "<user>",
        None,
        "deny NoLine\nkey SHA256:DfRcYZwyv56wTc7SW1uX8hzwJ3EEWwWlbZyqra3T9z8\n",
    ),
    ("cert-authority <ca>", "<plain>", None, "asked"),
    (
        "cert-authority <ca>",
        "<plain>",
        Some(b"\0\0\0\x01\x01"),
        "grant 1\nkey SHA256:DfRcYZwyv56wTc7SW1uX8hzwJ3EEWwWlbZyqra3T9z8\n",
    ),
    (
        "cert-authority <ca>",
        "<plain>",
        Some(b"\0\0\0\x01\0"),
        "deny BadSignature\nkey SHA256:DfRcYZwyv56wTc7SW1uX8hzwJ3EEWwWlbZyqra3T9z8\n",
    ),
    (
        "<ca>",
        "<plain>",
        None,
        "deny NoAuthority\nkey SHA256:DfRcYZwyv56wTc7SW1uX8hzwJ3EEWwWlbZyqra3T9z8\n",
    ),
    (
        "cert-authority <ca>",
        "<plain>",
        Some(b"\0\0\0\0"),
        "WrongLength",
    ),
    (
        "cert-authority <ca>",
        "<plain>",
        Some(b"\0\0\0\x01\x02"),
        "UnknownByte",
    ),
    ("cert-authority <ca>", "<plain>", Some(b""), "Answers"),
    ("", "", None, "Offer"),
    ("", "%%\n<user>", None, "Offer"),
];

#[test]
fn decides_logins_by_answers(rt: HostRuntime) -> Result<(), Fail> {
    for (keys, offer, answer, wanted) in &LOGINS {
        assert!(rt;
            comes_to(rt.alloc(), keys, offer, *answer, wanted)?,
            "{keys} {offer}"
        );
    }
    Ok(())
}

// Which argument isn't UTF-8; the first one counts.
static NO_TEXTS: [(&[u8], &[u8], &[u8], &str); 3] = [
    (b"\xff", b"\xff", b"\xff", "AuthorizedNotUtf8"),
    (b"", b"\xff", b"\xff", "OfferNotUtf8"),
    (b"", b"", b"\xff", "UserNotUtf8"),
];

#[test]
fn refuses_logins_of_bytes_that_are_no_text(rt: HostRuntime) -> Result<(), Fail> {
    for (keys, offer, user, wanted) in &NO_TEXTS {
        let login = ManuallyDrop::new(decide_login(rt.alloc(), keys, offer, user, 5, b"x"));
        assert!(rt; is_said(rt.alloc(), &login, wanted)?, "{wanted}");
    }
    Ok(())
}
