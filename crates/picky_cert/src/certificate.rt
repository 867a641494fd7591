//! A certificate as a value.

use picky_cert_parts::{
    SshCertKeyType, SshCertType, SshCriticalOption, SshExtension, SshSignature,
};
use picky_keys::SshPublicKey;
use picky_wire::{Bytes, List, NoMemory, Text, Timestamp, TryClone, both};
use std::alloc::Global;

/// A certificate: a key, and what its issuer says of it (OpenSSH's PROTOCOL.certkeys).
#[derive(Debug, Drop, PartialEq, Eq)]
pub struct SshCertificate {
    /// Which type of certificates it is.
    pub cert_key_type: SshCertKeyType,
    /// The subject's key.
    pub public_key: SshPublicKey,
    /// Bytes of the issuer's choice, so that no two certificates are signed alike.
    pub nonce: Bytes,
    pub serial: u64,
    /// Whether it is a user's or a host's.
    pub cert_type: SshCertType,
    pub key_id: Text,
    /// The user or host names that it is for; none are for all.
    pub valid_principals: List<Text>,
    pub valid_after: Timestamp,
    pub valid_before: Timestamp,
    pub critical_options: List<SshCriticalOption>,
    pub extensions: List<SshExtension>,
    /// The issuer's key.
    pub signature_key: SshPublicKey,
    pub signature: SshSignature,
    /// The line's comment.
    pub comment: Text,
}

impl TryClone for SshCertificate {
    fn try_clone(&self, alloc: Global) -> Result<SshCertificate, NoMemory> {
        let key = self.public_key.try_clone(alloc);
        let subject = both(key, self.nonce.try_clone(alloc));
        let principals = self.valid_principals.try_clone(alloc);
        let terms = both(self.key_id.try_clone(alloc), principals);
        let options = self.critical_options.try_clone(alloc);
        let grants = both(options, self.extensions.try_clone(alloc));
        let issuer = self.signature_key.try_clone(alloc);
        let seal = both(issuer, self.signature.try_clone(alloc));
        let copied = both(both(subject, terms), both(grants, seal));
        let comment = self.comment.try_clone(alloc);
        let (((subject, terms), (grants, seal)), comment) = both(copied, comment)?;
        Ok(SshCertificate {
            cert_key_type: self.cert_key_type,
            public_key: subject.0,
            nonce: subject.1,
            serial: self.serial,
            cert_type: self.cert_type,
            key_id: terms.0,
            valid_principals: terms.1,
            valid_after: self.valid_after,
            valid_before: self.valid_before,
            critical_options: grants.0,
            extensions: grants.1,
            signature_key: seal.0,
            signature: seal.1,
            comment,
        })
    }
}
