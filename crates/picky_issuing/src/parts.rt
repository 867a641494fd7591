//! The two parts of the source of a command that issues a certificate.

ghost use Rattle.std.specs.Prelude.{◌≡◌};
ghost use Rattle.std.specs.Option.{option_copied};
ghost use Rattle.picky_issuing.specs.Parts.{issuer_text_part, key_part};

/// The issuer's text, where there is one, and the key text.
#[derive(Clone, Copy)]
pub struct Parts<'a> {
    pub issuer: Option<&'a str>,
    pub key: &'a str,
}

/// The text before its first line that is exactly `%%`, with the LF that ends it, and the text after that line.
///
/// A line ends at LF or with the text, and one CR before that LF is no part of it; a CR before the text's end is.
/// Where no line is the mark, the whole text is the key text, and there is no issuer's text.
pub fn parts_of(text: &str) -> Parts<'_>
    ensures issuer { option_copied result.issuer ≡ issuer_text_part text.now }
    ensures key { result.key.now ≡ key_part text.now }
{
    let mut rest = text;
    'lines: while let Some((line, after)) = rest.split_once('\n') {
        if line == "%%" || line == "%%\r" {
            let (issuer, _) = text.split_at(text.len() - rest.len());
            return Parts {
                issuer: Some(issuer),
                key: after,
            };
        }
        rest = after;
    }
    if rest == "%%" {
        let (issuer, _) = text.split_at(text.len() - rest.len());
        return Parts {
            issuer: Some(issuer),
            key: "",
        };
    }
    Parts {
        issuer: None,
        key: text,
    }
}
