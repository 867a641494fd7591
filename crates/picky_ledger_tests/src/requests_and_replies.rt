//! Runs that end well: the ledger that is written, and the replies behind it.

use crate::runs::{FRESH, ends};
use std::alloc::Global;
use std::mem::ManuallyDrop;
use std::test::Fail;

/// A ledger's text, the requests, and the ledger and the replies after them. The issuer is the key of zeros.
struct Talk {
    name: &'static str,
    ledger: &'static str,
    requests: &'static str,
    new_ledger: &'static str,
    replies: &'static str,
}

// What is written is docs/FORMATS.md's, "Ledgers", by hand; the certificates are those of crate::row_texts.
static TALKS: [Talk; 14] = [
    Talk {
        name: "one line twice, and another with its id",
        ledger: "next 1\n",
        requests: "r1 host - 0 0 ssh-ed25519 B0 host\n\
            r1 host - 0 0 ssh-ed25519 B0 host\n\
            r1 host - 0 5 ssh-ed25519 B0 host\n",
        new_ledger: "next 2\nr1 <r1> <n> <c1> host\n",
        replies: "issued r1 1\nagain r1 1\nconflict r1 1\n",
    },
    Talk {
        name: "a line that was kept, and another with its id",
        ledger: "next 2\nr1 <r1> <n> <c1> host\n",
        requests: "r1 host - 0 5 ssh-ed25519 B0 host\nr1 host - 0 0 ssh-ed25519 B0 host\n",
        new_ledger: "next 2\nr1 <r1> <n> <c1> host\n",
        replies: "conflict r1 1\nagain r1 1\n",
    },
    Talk {
        name: "times in the wrong order",
        ledger: "next 1\n",
        requests: "r2 host - 5 0 ssh-ed25519 B0 host\n",
        new_ledger: "next 1\n",
        replies: "refused r2 InvalidTime\n",
    },
    Talk {
        name: "no request",
        ledger: "next 1\n",
        requests: "",
        new_ledger: "next 1\n",
        replies: "",
    },
    Talk {
        name: "empty lines alone",
        ledger: "next 2\nr1 <r1> <n> <c1> host\n",
        requests: "\n\r\n\n\n\n\n",
        new_ledger: "next 2\nr1 <r1> <n> <c1> host\n",
        replies: "",
    },
    // An id that was refused isn't taken.
    Talk {
        name: "a request that is mended",
        ledger: "next 1\n",
        requests: "r1 host - 5 0 ssh-ed25519 B0 host\nr1 host - 0 0 ssh-ed25519 B0 host\n",
        new_ledger: "next 2\nr1 <r1> <n> <c1> host\n",
        replies: "refused r1 InvalidTime\nissued r1 1\n",
    },
    Talk {
        name: "a user, behind a gap in the serials",
        ledger: "next 7\nr1 <r1> <n> <c1> host\n",
        requests: "r2 client me,root 5 10 ssh-ed25519 B0 user two",
        new_ledger: "next 8\nr1 <r1> <n> <c1> host\nr2 <r2>bw== <n> <c7> user two\n",
        replies: "issued r2 7\n",
    },
    // The entry has the line without its end.
    Talk {
        name: "lines that end in CR LF, and empty ones",
        ledger: "next 1\n",
        requests: "\r\n\nr1 host - 0 0 ssh-ed25519 B0 host\r\n\n\nr1 host - 0 0 ssh-ed25519 B0 host\n",
        new_ledger: "next 2\nr1 <r1> <n> <c1> host\n",
        replies: "issued r1 1\nagain r1 1\n",
    },
    Talk {
        name: "a line that is none, with an id",
        ledger: "next 1\n",
        requests: "r1 host - 0 ssh-ed25519 B0 host\n%%\nr1 host - 0 0 ssh-ed25519 B0 host",
        new_ledger: "next 2\nr1 <r1> <n> <c1> host\n",
        replies: "bad\nbad\nissued r1 1\n",
    },
    Talk {
        name: "a space behind the line",
        ledger: "next 2\nr1 <r1> <n> <c1> host\n",
        requests: "r1 host - 0 0 ssh-ed25519 B0 host \n",
        new_ledger: "next 2\nr1 <r1> <n> <c1> host\n",
        replies: "conflict r1 1\n",
    },
    Talk {
        name: "the last serial",
        ledger: "next 18446744073709551614\n",
        requests: "r1 host - 0 0 ssh-ed25519 B0 host\nr1 host - 0 0 ssh-ed25519 B0 host\n\
            r2 client - 0 0 ssh-ed25519 B0\n",
        new_ledger: "next 18446744073709551615\nr1 <r1> <n> <last> host\n",
        replies: "issued r1 18446744073709551614\nagain r1 18446744073709551614\nfull r2\n",
    },
    // A request that would be refused, too.
    Talk {
        name: "no serial is left",
        ledger: "next 18446744073709551615\nr1 <r1> <n> <c1> host\n",
        requests: "r2 host - 5 0 ssh-ed25519 B0\nr1 host - 0 5 ssh-ed25519 B0 host\n\
            r1 host - 0 0 ssh-ed25519 B0 host",
        new_ledger: "next 18446744073709551615\nr1 <r1> <n> <c1> host\n",
        replies: "full r2\nconflict r1 1\nagain r1 1\n",
    },
    // The certificate is another's, and is kept as it stands.
    Talk {
        name: "an entry whose certificate isn't of its request",
        ledger: "next 9\nr1 <r1> <n> <c7> user two\n",
        requests: "r1 host - 0 0 ssh-ed25519 B0 host",
        new_ledger: "next 9\nr1 <r1> <n> <c7> user two\n",
        replies: "again r1 7\n",
    },
    Talk {
        name: "one id is another's front",
        ledger: "next 2\nr1 <r1> <n> <c1> host\n",
        requests: "r host - 5 0 ssh-ed25519 B0 host\nr11 host - 5 0 ssh-ed25519 B0 host",
        new_ledger: "next 2\nr1 <r1> <n> <c1> host\n",
        replies: "refused r InvalidTime\nrefused r11 InvalidTime\n",
    },
];

fn is_answered(alloc: Global, talk: &Talk) -> Result<bool, Fail> {
    let (ledger, requests) = (talk.ledger, talk.requests);
    let row = ManuallyDrop::new(format!(in alloc;
        "{ledger}%%\nssh-ed25519 B0 ca\n%%\n{requests}"
    )?);
    let (ledger, replies) = (talk.new_ledger, talk.replies);
    let out = ManuallyDrop::new(format!(in alloc; "{ledger}%%\n{replies}")?);
    ends(alloc, FRESH, row.as_str(), "Done", out.as_str())
}

#[test]
fn answers_requests_in_order(rt: HostRuntime) -> Result<(), Fail> {
    for talk in &TALKS {
        assert!(rt; is_answered(rt.alloc(), talk)?, "{}", talk.name);
    }
    Ok(())
}
