//! What is asked of a certificate, field by field.

ghost use Rattle.std.specs.Prelude.{◌≡◌, Some};
ghost use Rattle.picky_cert_builder.specs.declared.issuer.IssuerKey.TheVariants as issuers;
ghost use Rattle.picky_cert_builder.specs.Request.{empty, has_some, issuer_kind_in, subject_kind_in, terms_of};

use crate::issuer::IssuerKey;
use crate::terms::RequestTerms;
use picky_cert::SshCertificate;
use picky_cert_parts::{SshCertKeyType, SshCertType, SshCriticalOption, SshExtension};
use picky_keys::{KeyKind, SignatureAlgorithm, SshPublicKey};
use picky_sshkey::SshPrivateKey;
use picky_wire::{List, Text, Timestamp};
use std::mem::replace;

/// A certificate that is to be made. Each field may be unset.
#[derive(Debug, Drop, PartialEq, Eq)]
pub struct SshCertificateBuilder {
    pub cert_key_type: Option<SshCertKeyType>,
    pub public_key: Option<SshPublicKey>,
    pub serial: Option<u64>,
    pub cert_type: Option<SshCertType>,
    pub key_id: Option<Text>,
    pub valid_principals: Option<List<Text>>,
    pub valid_after: Option<Timestamp>,
    pub valid_before: Option<Timestamp>,
    pub critical_options: Option<List<SshCriticalOption>>,
    pub extensions: Option<List<SshExtension>>,
    pub issuer: Option<IssuerKey>,
    pub signature_algo: Option<SignatureAlgorithm>,
    pub comment: Option<Text>,
}

/// What makes certificates, as a method of one.
pub trait BuildCertificate {
    /// A builder without any field set.
    fn builder(&self) -> SshCertificateBuilder
        ensures { result ≡ empty };
}

impl BuildCertificate for SshCertificate {
    fn builder(&self) -> SshCertificateBuilder {
        SshCertificateBuilder::init()
    }
}

impl SshCertificateBuilder {
    /// No field is set.
    pub fn init() -> SshCertificateBuilder
        ensures { result ≡ empty }
    {
        SshCertificateBuilder {
            cert_key_type: None,
            public_key: None,
            serial: None,
            cert_type: None,
            key_id: None,
            valid_principals: None,
            valid_after: None,
            valid_before: None,
            critical_options: None,
            extensions: None,
            issuer: None,
            signature_algo: None,
            comment: None,
        }
    }

    /// The type of certificates.
    pub fn cert_key_type(&mut self, key_type: SshCertKeyType) -> &mut Self
        ensures same { result.ghost_name ≡ self.entry.ghost_name }
        ensures set { result.now ≡ record (self.old) { cert_key_type = Some key_type } }
    {
        self.cert_key_type = Some(key_type);
        self
    }

    /// The subject's key. Its comment is kept in the certificate's value, and isn't printed.
    pub fn key(&mut self, key: SshPublicKey) -> &mut Self
        ensures same { result.ghost_name ≡ self.entry.ghost_name }
        ensures set { result.now ≡ record (self.old) { public_key = Some key } }
    {
        drop(replace(&mut self.public_key, Some(key)));
        self
    }

    /// The serial number; 0 where it is unset.
    pub fn serial(&mut self, serial: u64) -> &mut Self
        ensures same { result.ghost_name ≡ self.entry.ghost_name }
        ensures set { result.now ≡ record (self.old) { serial = Some serial } }
    {
        self.serial = Some(serial);
        self
    }

    /// Whether it is a user's or a host's.
    pub fn cert_type(&mut self, cert_type: SshCertType) -> &mut Self
        ensures same { result.ghost_name ≡ self.entry.ghost_name }
        ensures set { result.now ≡ record (self.old) { cert_type = Some cert_type } }
    {
        self.cert_type = Some(cert_type);
        self
    }

    /// The name by which the issuer logs it; empty where it is unset.
    pub fn key_id(&mut self, key_id: Text) -> &mut Self
        ensures same { result.ghost_name ≡ self.entry.ghost_name }
        ensures set { result.now ≡ record (self.old) { key_id = Some key_id } }
    {
        self.key_id = Some(key_id);
        self
    }

    /// The user or host names that it is for; where none are given, it is for all.
    pub fn principals(&mut self, principals: List<Text>) -> &mut Self
        ensures same { result.ghost_name ≡ self.entry.ghost_name }
        ensures set { result.now ≡ record (self.old) { valid_principals = Some principals } }
    {
        drop(replace(&mut self.valid_principals, Some(principals)));
        self
    }

    /// The moment from which on it is valid no more.
    pub fn valid_before(&mut self, valid_before: Timestamp) -> &mut Self
        ensures same { result.ghost_name ≡ self.entry.ghost_name }
        ensures set { result.now ≡ record (self.old) { valid_before = Some valid_before } }
    {
        self.valid_before = Some(valid_before);
        self
    }

    /// The moment from which on it is valid.
    pub fn valid_after(&mut self, valid_after: Timestamp) -> &mut Self
        ensures same { result.ghost_name ≡ self.entry.ghost_name }
        ensures set { result.now ≡ record (self.old) { valid_after = Some valid_after } }
    {
        self.valid_after = Some(valid_after);
        self
    }

    /// What it demands.
    pub fn critical_options(&mut self, critical_options: List<SshCriticalOption>) -> &mut Self
        ensures same { result.ghost_name ≡ self.entry.ghost_name }
        ensures set { result.now ≡ record (self.old) { critical_options = Some critical_options } }
    {
        drop(replace(&mut self.critical_options, Some(critical_options)));
        self
    }

    /// What it permits; a user's certificate without any gets the five permits.
    pub fn extensions(&mut self, extensions: List<SshExtension>) -> &mut Self
        ensures same { result.ghost_name ≡ self.entry.ghost_name }
        ensures set { result.now ≡ record (self.old) { extensions = Some extensions } }
    {
        drop(replace(&mut self.extensions, Some(extensions)));
        self
    }

    /// The issuer's private key, in place of an issuer that was set before.
    pub fn signature_key(&mut self, signature_key: SshPrivateKey) -> &mut Self
        ensures same { result.ghost_name ≡ self.entry.ghost_name }
        ensures set { result.now ≡ record (self.old) { issuer = Some (issuers.Private signature_key.base_key) } }
    {
        let SshPrivateKey {
            base_key,
            kdf,
            public_key,
            passphrase,
            ..
        } = signature_key;
        drop(kdf);
        drop(public_key);
        drop(passphrase);
        drop(replace(&mut self.issuer, Some(IssuerKey::Private(base_key))));
        self
    }

    /// The public key of an issuer whose secret a device keeps, in place of an issuer that was set before.
    pub fn issuer_public(&mut self, issuer: SshPublicKey) -> &mut Self
        ensures same { result.ghost_name ≡ self.entry.ghost_name }
        ensures set { result.now ≡ record (self.old) { issuer = Some (issuers.Public issuer.inner_key) } }
    {
        let SshPublicKey { inner_key, .. } = issuer;
        drop(replace(&mut self.issuer, Some(IssuerKey::Public(inner_key))));
        self
    }

    /// The algorithm to sign by, where it isn't the type's own.
    pub fn signature_algo(&mut self, signature_algo: SignatureAlgorithm) -> &mut Self
        ensures same { result.ghost_name ≡ self.entry.ghost_name }
        ensures set { result.now ≡ record (self.old) { signature_algo = Some signature_algo } }
    {
        self.signature_algo = Some(signature_algo);
        self
    }

    /// The comment of the line; empty where it is unset.
    pub fn comment(&mut self, comment: Text) -> &mut Self
        ensures same { result.ghost_name ≡ self.entry.ghost_name }
        ensures set { result.now ≡ record (self.old) { comment = Some comment } }
    {
        self.comment = Some(comment);
        self
    }

    /// What is judged of it before anything is made.
    pub fn terms(&self) -> RequestTerms
        ensures { result ≡ terms_of self.now }
    {
        RequestTerms {
            cert_key_type: self.cert_key_type,
            subject: subject_of(&self.public_key),
            cert_type: self.cert_type,
            valid_after: self.valid_after,
            valid_before: self.valid_before,
            has_extensions: has_items(&self.extensions),
            has_critical_options: has_items(&self.critical_options),
            issuer: issuer_of(&self.issuer),
            signature_algo: self.signature_algo,
        }
    }
}

/// The kind of the subject's key, where there is one.
fn subject_of(key: &Option<SshPublicKey>) -> Option<KeyKind>
    ensures { result ≡ subject_kind_in key.now }
{
    match key {
        Some(key) => Some(key.inner_key.kind()),
        None => None,
    }
}

/// The kind of the issuer's key, where there is one.
fn issuer_of(issuer: &Option<IssuerKey>) -> Option<KeyKind>
    ensures { result ≡ issuer_kind_in issuer.now }
{
    match issuer {
        Some(issuer) => Some(issuer.kind()),
        None => None,
    }
}

/// Whether there is a list that isn't empty.
fn has_items<T>(list: &Option<List<T>>) -> bool
    ensures { result ≡ has_some list.now }
{
    match list {
        Some(list) => !list.as_slice().is_empty(),
        None => false,
    }
}
