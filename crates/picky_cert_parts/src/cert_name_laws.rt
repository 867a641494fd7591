//! The laws of this crate, each as the contract of a function that does nothing else.

ghost use Rattle.std.specs.Prelude.{◌≡◌, IsTrue, List, ℕ, Some, codes, fold};
ghost use Rattle.picky_wire_base.specs.Table.{find_entry};
ghost use Rattle.picky_wire_base.specs.Equality.{IsEquality};
ghost use Rattle.picky_cert_parts.specs.CertNames.{cert_key_type_name, option_name, format_name};
ghost use Rattle.picky_cert_parts.specs.CertNameTables.{cert_key_types, option_types, signature_formats};
ghost use Rattle.picky_cert_parts.specs.ExtensionType.{extension_name, extension_named, IsExtensionType};
ghost use Rattle.picky_cert_parts.specs.declared.cert_key_type.SshCertKeyType.{SshCertKeyType as KeyType};
ghost use Rattle.picky_cert_parts.specs.declared.option_type.SshCriticalOptionType.{SshCriticalOptionType as OptionType};
ghost use Rattle.picky_cert_parts.specs.declared.extension_type.SshExtensionType.{SshExtensionType as ExtensionType};
ghost use Rattle.picky_cert_parts.specs.declared.signature_format.SshSignatureFormat.{SshSignatureFormat as Format};

use crate::cert_key_type::SshCertKeyType;
use crate::error::{
    SshCertTypeError, SshCertificateError, SshCriticalOptionError, SshExtensionError,
    SshSignatureError,
};
use crate::extension_type::{OtherName, SshExtensionType};
use crate::names::{
    CERT_ECDSA_SHA2_NISTP256, CERT_ECDSA_SHA2_NISTP384, CERT_ECDSA_SHA2_NISTP521,
    CERT_RSA_SHA2_256, CERT_RSA_SHA2_512, CERT_SK_ECDSA_SHA2_NISTP256, CERT_SK_SSH_ED25519,
    CERT_SSH_DSS, CERT_SSH_ED25519, CERT_SSH_RSA, ECDSA_SHA2_NISTP256, ECDSA_SHA2_NISTP384,
    ECDSA_SHA2_NISTP521, FORCE_COMMAND, NO_TOUCH_REQUIRED, PERMIT_AGENT_FORWARDING,
    PERMIT_PORT_FORWARDING, PERMIT_PTY, PERMIT_USER_RC, PERMIT_X11_FORWARDING, RSA_SHA2_256,
    RSA_SHA2_512, SK_ECDSA_SHA2_NISTP256, SK_SSH_ED25519, SOURCE_ADDRESS, SSH_ED25519, SSH_RSA,
    VERIFY_REQUIRED,
};
use crate::option_type::SshCriticalOptionType;
use crate::signature_format::SshSignatureFormat;
use std::hash::{Hash, Hasher};

/// A name stands for its entry of each table, and no other name does.
#[tactic(auto, using(crate::proofs::NameLaws::name_laws))]
pub fn each_has_one_name()
    ensures key_type { (t : KeyType) → find_entry cert_key_types (cert_key_type_name t) ≡ Some t }
    ensures key_type_only { (name : List ℕ) (t : KeyType) → find_entry cert_key_types name ≡ Some t → cert_key_type_name t ≡ name }
    ensures option { (t : OptionType) → find_entry option_types (option_name t) ≡ Some t }
    ensures option_only { (name : List ℕ) (t : OptionType) → find_entry option_types name ≡ Some t → option_name t ≡ name }
    ensures format { (t : Format) → find_entry signature_formats (format_name t) ≡ Some t }
    ensures format_only { (name : List ℕ) (t : Format) → find_entry signature_formats name ≡ Some t → format_name t ≡ name }
{}

/// A name stands for one extension, known or not, whose name it is.
#[tactic(auto, using(crate::proofs::ExtensionNames::extension_laws))]
pub fn each_extension_has_one_name()
    ensures named { (t : ExtensionType) → IsExtensionType t → extension_named (extension_name t) ≡ t }
    ensures names { (name : List ℕ) → extension_name (extension_named name) ≡ name }
{}

/// The constants are the names of OpenSSH's types of certificates (PROTOCOL.certkeys), critical options ("Critical options") and
/// extensions ("Extensions"), and of signature formats (RFC 4253, section 6.6; RFC 8332, section 3; RFC 5656, section 3.1.2;
/// RFC 8709, section 6; PROTOCOL.u2f).
pub fn constants_are_the_standards_names()
    ensures cert_ssh_rsa { CERT_SSH_RSA.now ≡ codes "ssh-rsa-cert-v01@openssh.com" }
    ensures cert_ssh_dss { CERT_SSH_DSS.now ≡ codes "ssh-dss-cert-v01@openssh.com" }
    ensures cert_rsa_sha2_256 { CERT_RSA_SHA2_256.now ≡ codes "rsa-sha2-256-cert-v01@openssh.com" }
    ensures cert_rsa_sha2_512 { CERT_RSA_SHA2_512.now ≡ codes "rsa-sha2-512-cert-v01@openssh.com" }
    ensures cert_ecdsa_sha2_nistp256 { CERT_ECDSA_SHA2_NISTP256.now ≡ codes "ecdsa-sha2-nistp256-cert-v01@openssh.com" }
    ensures cert_ecdsa_sha2_nistp384 { CERT_ECDSA_SHA2_NISTP384.now ≡ codes "ecdsa-sha2-nistp384-cert-v01@openssh.com" }
    ensures cert_ecdsa_sha2_nistp521 { CERT_ECDSA_SHA2_NISTP521.now ≡ codes "ecdsa-sha2-nistp521-cert-v01@openssh.com" }
    ensures cert_ssh_ed25519 { CERT_SSH_ED25519.now ≡ codes "ssh-ed25519-cert-v01@openssh.com" }
    ensures cert_sk_ecdsa_sha2_nistp256 { CERT_SK_ECDSA_SHA2_NISTP256.now ≡ codes "sk-ecdsa-sha2-nistp256-cert-v01@openssh.com" }
    ensures cert_sk_ssh_ed25519 { CERT_SK_SSH_ED25519.now ≡ codes "sk-ssh-ed25519-cert-v01@openssh.com" }

    ensures force_command { FORCE_COMMAND.now ≡ codes "force-command" }
    ensures source_address { SOURCE_ADDRESS.now ≡ codes "source-address" }
    ensures verify_required { VERIFY_REQUIRED.now ≡ codes "verify-required" }

    ensures no_touch_required { NO_TOUCH_REQUIRED.now ≡ codes "no-touch-required" }
    ensures permit_x11_forwarding { PERMIT_X11_FORWARDING.now ≡ codes "permit-X11-forwarding" }
    ensures permit_agent_forwarding { PERMIT_AGENT_FORWARDING.now ≡ codes "permit-agent-forwarding" }
    ensures permit_port_forwarding { PERMIT_PORT_FORWARDING.now ≡ codes "permit-port-forwarding" }
    ensures permit_pty { PERMIT_PTY.now ≡ codes "permit-pty" }
    ensures permit_user_rc { PERMIT_USER_RC.now ≡ codes "permit-user-rc" }

    ensures ssh_rsa { SSH_RSA.now ≡ codes "ssh-rsa" }
    ensures rsa_sha2_256 { RSA_SHA2_256.now ≡ codes "rsa-sha2-256" }
    ensures rsa_sha2_512 { RSA_SHA2_512.now ≡ codes "rsa-sha2-512" }
    ensures ecdsa_sha2_nistp256 { ECDSA_SHA2_NISTP256.now ≡ codes "ecdsa-sha2-nistp256" }
    ensures ecdsa_sha2_nistp384 { ECDSA_SHA2_NISTP384.now ≡ codes "ecdsa-sha2-nistp384" }
    ensures ecdsa_sha2_nistp521 { ECDSA_SHA2_NISTP521.now ≡ codes "ecdsa-sha2-nistp521" }
    ensures ssh_ed25519 { SSH_ED25519.now ≡ codes "ssh-ed25519" }
    ensures sk_ecdsa_sha2_nistp256 { SK_ECDSA_SHA2_NISTP256.now ≡ codes "sk-ecdsa-sha2-nistp256@openssh.com" }
    ensures sk_ssh_ed25519 { SK_SSH_ED25519.now ≡ codes "sk-ssh-ed25519@openssh.com" }
{}

/// Equal critical options feed a hasher alike, so that a hasher is left in one state by both.
pub fn equal_options_hash_alike<H: Hasher>(
    a: &SshCriticalOptionType,
    b: &SshCriticalOptionType,
    first: &mut H,
    second: &mut H,
)
    ensures fed { (a b : OptionType) → IsTrue (⟦<SshCriticalOptionType as PartialEq>⟧.eq a b)
        → ⟦<SshCriticalOptionType as Hash>⟧.hash_input a ≡ ⟦<SshCriticalOptionType as Hash>⟧.hash_input b }
    ensures first { first.new ≡ fold H.write first.old (⟦<SshCriticalOptionType as Hash>⟧.hash_input a.now) }
    ensures second { second.new ≡ fold H.write second.old (⟦<SshCriticalOptionType as Hash>⟧.hash_input b.now) }
    ensures state { a.now ≡ b.now → first.old ≡ second.old → first.new ≡ second.new }
{
    a.hash(first);
    b.hash(second);
}

/// Two values are equal exactly where their contents are, and so are two refusals.
pub fn equality_is_of_contents()
    ensures key_type { IsEquality ⟦<SshCertKeyType as PartialEq>⟧.eq }
    ensures option_type { IsEquality ⟦<SshCriticalOptionType as PartialEq>⟧.eq }
    ensures other_name { IsEquality ⟦<OtherName as PartialEq>⟧.eq }
    ensures extension_type { IsEquality ⟦<SshExtensionType as PartialEq>⟧.eq }
    ensures format { IsEquality ⟦<SshSignatureFormat as PartialEq>⟧.eq }
    ensures cert_type_error { IsEquality ⟦<SshCertTypeError as PartialEq>⟧.eq }
    ensures option_error { IsEquality ⟦<SshCriticalOptionError as PartialEq>⟧.eq }
    ensures extension_error { IsEquality ⟦<SshExtensionError as PartialEq>⟧.eq }
    ensures signature_error { IsEquality ⟦<SshSignatureError as PartialEq>⟧.eq }
    ensures certificate_error { IsEquality ⟦<SshCertificateError as PartialEq>⟧.eq }
{}
