//! The name of each number that a call answers.

ghost use Rattle.std.specs.Prelude.{◌≡◌, ◌+◌, ◌++◌, ◌≤◌, ◌<◌, ◌/◌, [], length, map};
ghost use Rattle.picky_c.specs.Name.{IsNamed, error_name, leaf_name as leaf_of, names_in, path_to, version};

/// How many bytes a name has room for.
const NAME_LEN: usize = 48;

/// The version of this library.
const VERSION: &str = "0.1.0";

/// The names of a call itself, by number.
const OWN: [&str; 34] = [
    "Ok",
    "BufferTooSmall",
    "NoMemory",
    "TextNotUtf8",
    "PassNotUtf8",
    "NoSuchTarget",
    "NoSuchPart",
    "NoCipher",
    "NoPrivateKey",
    "CommentNotCarried",
    "FreshTooShort",
    "TooLong",
    "TooManyLines",
    "Asked",
    "CommentNotUtf8",
    "NoSuchSealing",
    "NoSuchPlace",
    "NoSuchOption",
    "NoKey",
    "IssuerNotUtf8",
    "WordNotUtf8",
    "BadWords",
    "AuthorizedNotUtf8",
    "OfferNotUtf8",
    "UserNotUtf8",
    "NoMessage",
    "MessageTooLong",
    "NotAdd",
    "SignatureTooLong",
    "LedgerNotUtf8",
    "RequestsNotUtf8",
    "BadLine",
    "LeftNotUtf8",
    "RightNotUtf8",
];

/// The names of an OpenSSH private key, by number.
const PRIVATE: [&str; 18] = [
    "FromUtf8Error",
    "IoError",
    "UnsupportedKeyType",
    "UnsupportedCipher",
    "UnsupportedKdf",
    "InvalidAuthMagicHeader",
    "InvalidKeysAmount",
    "InvalidCheckNumbers",
    "InvalidKeyFormat",
    "DecryptionError",
    "HashingError",
    "MissingPassphrase",
    "KeyError",
    "PemError",
    "SuiteFault",
    "TooLong",
    "NoMemory",
    "PublicKeyMismatch",
];

/// The names of a public key line, by number.
const PUBLIC: [&str; 7] = [
    "IoError",
    "InvalidUtf8",
    "Base64DecodeError",
    "UnknownKeyType",
    "KeyError",
    "TooLong",
    "NoMemory",
];

/// The names of a certificate, by number.
const CERTIFICATE: [&str; 14] = [
    "CertificateProcessingError",
    "UnsupportedCertificateType",
    "SshCriticalOptionError",
    "SshExtensionError",
    "InvalidUtf8",
    "Base64DecodeError",
    "InvalidCertificateType",
    "InvalidCertificateKeyType",
    "InvalidPublicKey",
    "KeyError",
    "SubjectMismatch",
    "SshSignatureError",
    "TooLong",
    "NoMemory",
];

/// The names of PuTTY's texts, by number.
const PUTTY: [&str; 21] = [
    "EndOfInput",
    "InvalidInput",
    "InvalidKeyValueFormat",
    "Aes",
    "Argon2",
    "MacValidation",
    "PublicAndPrivateKeyMismatch",
    "InvalidPrivateKeyData",
    "InvalidPublicKeyData",
    "InvalidPublicKeyContainer",
    "InvalidPublicKeyComment",
    "AlreadyDecrypted",
    "AlreadyEncrypted",
    "Encrypted",
    "NotSupported",
    "SshPublicKey",
    "IoError",
    "SuiteFault",
    "TooLong",
    "TooManyLines",
    "NoMemory",
];

/// The names of answers, by number.
const ANSWERS: [&str; 8] = [
    "EndsInEntry",
    "LengthPastEnd",
    "NoQuestion",
    "WrongLength",
    "Contradiction",
    "Misplaced",
    "TooLong",
    "UnknownByte",
];

/// The names of a request, by number.
const REQUEST: [&str; 12] = [
    "UnsupportedCertificateKeyType",
    "IncorrectSignatureAlgorithm",
    "MissingPublicKey",
    "MissingCertificateType",
    "InvalidTime",
    "MissingSignatureKey",
    "HostCertificateExtensions",
    "HostCertificateCriticalOptions",
    "NoKeyType",
    "SignatureError",
    "TooLong",
    "NoMemory",
];

/// The names of a denial, by number.
const DENIED: [&str; 8] = [
    "NoLine",
    "NoAuthority",
    "NotClient",
    "NotYet",
    "Expired",
    "Principal",
    "CriticalOption",
    "BadSignature",
];

/// The names of an agent's state, by number.
const STATE: [&str; 6] = [
    "TooLong",
    "Short",
    "NotKept",
    "TooMany",
    "NotCanonical",
    "NoMemory",
];

/// A number's name, with zeros behind it.
#[repr(C)]
#[derive(Clone, Copy)]
pub struct PickyName {
    pub text: [u8; NAME_LEN],
}

/// The name of a number.
#[tactic(auto, unfolding(crate::specs::Name::error_name), using(crate::proofs::NameLemmas::leaf_short))]
pub fn name_of(number: u32) -> PickyName
    ensures { IsNamed (error_name number) result.text }
{
    let name = leaf_name(number);
    if name.is_empty() {
        return PickyName {
            text: [0; NAME_LEN],
        };
    }
    PickyName {
        text: joined(path_of(number / 100), name),
    }
}

/// The version, as a name.
pub fn version_name() -> PickyName
    ensures { IsNamed version result.text }
{
    PickyName {
        text: joined("", VERSION),
    }
}

/// The two texts, and zeros behind them.
fn joined(path: &str, name: &str) -> [u8; NAME_LEN]
    requires { length path.now + length name.now ≤ 48 }
    ensures { IsNamed (path.now ++ name.now) result }
{
    let mut text = [0; NAME_LEN];
    let (front, back) = text.split_at_mut(path.len());
    front.copy_from_slice(path.as_bytes());
    let (front, _) = back.split_at_mut(name.len());
    front.copy_from_slice(name.as_bytes());
    text
}

/// The name in its hundred.
fn leaf_name(number: u32) -> &'static str
    ensures { result.now ≡ leaf_of number }
{
    let names = table(number / 100);
    let index = (number % 100) as usize;
    if index < names.len() {
        names[index]
    } else {
        ""
    }
}

/// The names of a hundred.
fn table(group: u32) -> &'static [&'static str]
    ensures { map (λ name. name.now) result.now ≡ names_in group }
{
    if group == 0 {
        return &OWN;
    }
    if group == 1 {
        return &PRIVATE;
    }
    if group == 2 {
        return &PUBLIC;
    }
    if group == 3 {
        return &CERTIFICATE;
    }
    if group == 4 {
        return &PUTTY;
    }
    if group == 5 {
        return &PRIVATE;
    }
    if group == 6 {
        return &PUTTY;
    }
    if group == 7 {
        return &ANSWERS;
    }
    if group == 8 {
        return &REQUEST;
    }
    if group == 9 {
        return &DENIED;
    }
    if group == 10 {
        return &STATE;
    }
    if group == 11 {
        return &PRIVATE;
    }
    if group == 12 {
        return &PUBLIC;
    }
    if group == 13 {
        return &CERTIFICATE;
    }
    if group == 14 {
        return &PUTTY;
    }
    &[]
}

/// The path to the names of a hundred.
fn path_of(group: u32) -> &'static str
    ensures path { result.now ≡ path_to group }
    ensures short { length result.now ≤ 16 }
{
    if group == 1 {
        return "input.private.";
    }
    if group == 2 {
        return "input.public.";
    }
    if group == 3 {
        return "input.cert.";
    }
    if group == 4 {
        return "input.putty.";
    }
    if group == 5 {
        return "output.private.";
    }
    if group == 6 {
        return "output.putty.";
    }
    if group == 7 {
        return "answers.";
    }
    if group == 8 {
        return "request.";
    }
    if group == 9 {
        return "denied.";
    }
    if group == 10 {
        return "state.";
    }
    if group == 11 {
        return "issuer.private.";
    }
    if group == 12 {
        return "issuer.public.";
    }
    if group == 13 {
        return "issuer.cert.";
    }
    if group == 14 {
        return "issuer.putty.";
    }
    ""
}
