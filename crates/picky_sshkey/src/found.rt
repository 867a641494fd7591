//! A private key that was found in an envelope.

ghost use Rattle.std.specs.Prelude.{◌≡◌, true};
ghost use Rattle.std.specs.Option.{option_copied};
ghost use Rattle.picky_keys.specs.LineRefusal.{is_short_text};
ghost use Rattle.picky_sshkey.specs.inner.Short.{IsShortEnvelope};

use crate::envelope::EnvelopeView;
use picky_sshkey_blob::SshBasePrivateKey;
use picky_wire::Text;

/// A key and its comment, copied, and what they were found in, which isn't.
#[derive(Drop)]
pub struct FoundKey<'a> {
    pub envelope: EnvelopeView<'a>,
    pub pass: Option<&'a str>,
    pub check: u32,
    pub base_key: SshBasePrivateKey,
    pub comment: Text,
    pub ghost short: { IsShortEnvelope envelope },
    pub ghost pass_short: { is_short_text (option_copied pass) ≡ true },
}
