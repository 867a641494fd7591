//! A certificate copied from its bytes, part by part.

ghost use Rattle.std.specs.Prelude.{◌≡◌, [], ◌<◌, ◌^◌, IfOk, IsUtf8, length};
ghost use Rattle.picky_cert_parts.specs.Signature.{IsSignature};
ghost use Rattle.picky_keys.specs.Key.{IsKey};
ghost use Rattle.picky_keys.specs.View.{key_seen};
ghost use Rattle.picky_cert.specs.Certificate.{bare};
ghost use Rattle.picky_cert.specs.Keeps.{IsCertificate};
ghost use Rattle.picky_cert.specs.View.{body_in, cert_seen, signature_in};
ghost use Rattle.picky_cert_blob.specs.Items.{principal_item, option_item, extension_item};
ghost use Rattle.picky_cert_blob.specs.CertSeen.{HasItems, blob_seen, signature_seen};
ghost use Rattle.picky_cert_blob.specs.View.{AreItems, values_in};

use crate::certificate::SshCertificate;
use crate::view::CertView;
use picky_cert_parts::{
    SshCriticalOption, SshExtension, SshSignature, SshSignatureBlob, SshSignatureFormat,
};
use picky_keys::{PublicView, SshPublicKey};
use picky_wire::{List, NoMemory, Part, Text, both, decode_items};
use std::alloc::Global;

impl<'a> CertView<'a> {
    /// A copy of the certificate, which has no comment. Refuses: `NoMemory`.
    pub fn to_certificate(&self, alloc: Global) -> Result<SshCertificate, NoMemory>
        requires is { IsCertificate (cert_seen self.now) }
        requires items { HasItems (body_in self.now) }
        ensures { IfOk result (λ c. c ≡ cert_seen self.now) }
    {
        let key = copied_key(alloc, &self.public_key);
        let subject = both(key, self.nonce.to_bytes(alloc));
        let principals = copied_principals(alloc, &self.valid_principals);
        let terms = both(self.key_id.to_text(alloc), principals);
        let options = copied_options(alloc, &self.critical_options);
        let grants = both(options, copied_extensions(alloc, &self.extensions));
        let issuer = copied_key(alloc, &self.signature_key);
        let signature = copied_signature(alloc, self.format, &self.signature, self.sk);
        let seal = both(issuer, signature);
        let ((subject, terms), (grants, seal)) = both(both(subject, terms), both(grants, seal))?;
        Ok(SshCertificate {
            cert_key_type: self.cert_key_type,
            public_key: subject.0,
            nonce: subject.1,
            serial: self.serial,
            cert_type: self.cert_type,
            key_id: terms.0,
            valid_principals: terms.1,
            valid_after: self.valid_after,
            valid_before: self.valid_before,
            critical_options: grants.0,
            extensions: grants.1,
            signature_key: seal.0,
            signature: seal.1,
            comment: no_text(alloc),
        })
    }
}

/// The text without any bytes. It takes no memory.
fn no_text(alloc: Global) -> Text
    ensures { result ≡ [] }
{
    Text::from_string(String::new(alloc))
}

/// A copy of a key, without a comment.
fn copied_key(alloc: Global, key: &PublicView<'_>) -> Result<SshPublicKey, NoMemory>
    requires { IsKey (key_seen key.now) }
    ensures { IfOk result (λ copy. copy ≡ bare (key_seen key.now)) }
{
    let inner_key = key.to_key(alloc)?;
    Ok(SshPublicKey {
        inner_key,
        comment: no_text(alloc),
    })
}

/// A copy of the principals of a block.
#[tactic(auto, using(picky_cert_blob::proofs::ListLaws::principals_are_read))]
fn copied_principals(alloc: Global, block: &Part<'_>) -> Result<List<Text>, NoMemory>
    requires { AreItems principal_item block.now }
    ensures { IfOk result (λ items. items ≡ values_in principal_item block.now) }
{
    match decode_items::<Text>(alloc, block.bytes) {
        Ok(items) => Ok(items),
        Err(_) => Err(NoMemory),
    }
}

/// A copy of the critical options of a block.
#[tactic(auto, using(picky_cert_blob::proofs::ListLaws::options_are_read))]
fn copied_options(alloc: Global, block: &Part<'_>) -> Result<List<SshCriticalOption>, NoMemory>
    requires { AreItems option_item block.now }
    ensures { IfOk result (λ items. items ≡ values_in option_item block.now) }
{
    match decode_items::<SshCriticalOption>(alloc, block.bytes) {
        Ok(items) => Ok(items),
        Err(e) => {
            drop(e);
            Err(NoMemory)
        }
    }
}

/// A copy of the extensions of a block.
#[tactic(auto, using(picky_cert_blob::proofs::ListLaws::extensions_are_read))]
fn copied_extensions(alloc: Global, block: &Part<'_>) -> Result<List<SshExtension>, NoMemory>
    requires { AreItems extension_item block.now }
    ensures { IfOk result (λ items. items ≡ values_in extension_item block.now) }
{
    match decode_items::<SshExtension>(alloc, block.bytes) {
        Ok(items) => Ok(items),
        Err(_) => Err(NoMemory),
    }
}

/// A copy of a signature.
fn copied_signature(
    alloc: Global,
    format: SshSignatureFormat,
    payload: &Part<'_>,
    sk: Option<(u8, u32)>,
) -> Result<SshSignature, NoMemory>
    requires { length payload.now.bytes.now < 2 ^ 32 }
    ensures { IfOk result (λ copy. copy ≡ record { format = format; blob = blob_seen payload.now sk }) }
{
    let payload = payload.to_bytes(alloc)?;
    let blob = match sk {
        None => SshSignatureBlob::Standard(payload),
        Some((flags, counter)) => SshSignatureBlob::Sk {
            payload,
            flags,
            counter,
        },
    };
    Ok(SshSignature { format, blob })
}
