//! SSH keys, their private key files and their certificates, as OpenSSH has them; and the cryptography that callers hand in.

pub mod laws;

// Keys, their kinds and names (RFC 5656; RFC 8709; OpenSSH's PROTOCOL.u2f).
pub use picky_keys::{
    EcCurve, EcCurveSshExt, EdAlgorithm, EdAlgorithmSshExt, HashAlgorithm, Issuer, KeyKind,
    PrivateKey, PublicKey, PublicKeyRef, SignatureAlgorithm, key_identifier, key_type,
};

// Ciphers, key derivations, MACs and signatures, which callers hand in.
pub use picky_suite::{
    Flavour, HandedSigner, MemorySigner, MemorySuite, PlainSuite, SignError, Signer, Suite,
    argon2_ok, bcrypt_ok, hmac_sha1, hmac_sha256,
};

// Public keys: lines, blobs and fingerprints (RFC 4253, section 6.6; sshd(8)).
pub use picky_keys::{PublicView, SshBasePublicKey, SshPublicKey, SshPublicKeyError};

// Private keys (OpenSSH's PROTOCOL.key).
pub use picky_sshkey::{
    Kdf, KdfOption, Pem, PemError, PrivateKeyRef, PrivateView, SshBasePrivateKey, SshPrivateKey,
    SshPrivateKeyError, parse_pem,
};

// Certificates (OpenSSH's PROTOCOL.certkeys).
pub use picky_cert::{
    CertPart, CertView, OtherName, SshCertKeyType, SshCertType, SshCertTypeError, SshCertificate,
    SshCertificateError, SshCriticalOption, SshCriticalOptionError, SshCriticalOptionType,
    SshExtension, SshExtensionError, SshExtensionType, SshSignature, SshSignatureBlob,
    SshSignatureError, SshSignatureFormat, certificate_keeps_its_ranges, names,
};

// Certificates that are made and signed.
pub use picky_cert_builder::{
    BuildCertificate, CertificateDraft, FitTerms, IssuerKey, RequestTerms, SshCertificateBuilder,
    SshCertificateGenerationError, default_algorithm, format_of, private_issuer,
};
