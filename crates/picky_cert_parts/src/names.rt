//! The names of types of certificates, critical options, extensions and signature formats.

/// OpenSSH's PROTOCOL.certkeys, as all of these types of certificates.
pub const CERT_SSH_RSA: &str = "ssh-rsa-cert-v01@openssh.com";

pub const CERT_SSH_DSS: &str = "ssh-dss-cert-v01@openssh.com";

pub const CERT_RSA_SHA2_256: &str = "rsa-sha2-256-cert-v01@openssh.com";

pub const CERT_RSA_SHA2_512: &str = "rsa-sha2-512-cert-v01@openssh.com";

pub const CERT_ECDSA_SHA2_NISTP256: &str = "ecdsa-sha2-nistp256-cert-v01@openssh.com";

pub const CERT_ECDSA_SHA2_NISTP384: &str = "ecdsa-sha2-nistp384-cert-v01@openssh.com";

pub const CERT_ECDSA_SHA2_NISTP521: &str = "ecdsa-sha2-nistp521-cert-v01@openssh.com";

pub const CERT_SSH_ED25519: &str = "ssh-ed25519-cert-v01@openssh.com";

pub const CERT_SK_ECDSA_SHA2_NISTP256: &str = "sk-ecdsa-sha2-nistp256-cert-v01@openssh.com";

pub const CERT_SK_SSH_ED25519: &str = "sk-ssh-ed25519-cert-v01@openssh.com";

/// PROTOCOL.certkeys, "Critical options".
pub const FORCE_COMMAND: &str = "force-command";

pub const SOURCE_ADDRESS: &str = "source-address";

pub const VERIFY_REQUIRED: &str = "verify-required";

/// PROTOCOL.certkeys, "Extensions".
pub const NO_TOUCH_REQUIRED: &str = "no-touch-required";

pub const PERMIT_X11_FORWARDING: &str = "permit-X11-forwarding";

pub const PERMIT_AGENT_FORWARDING: &str = "permit-agent-forwarding";

pub const PERMIT_PORT_FORWARDING: &str = "permit-port-forwarding";

pub const PERMIT_PTY: &str = "permit-pty";

pub const PERMIT_USER_RC: &str = "permit-user-rc";

/// RFC 4253, section 6.6; RFC 8332, section 3; RFC 5656, section 3.1.2; RFC 8709, section 6; PROTOCOL.u2f.
pub const SSH_RSA: &str = "ssh-rsa";

pub const RSA_SHA2_256: &str = "rsa-sha2-256";

pub const RSA_SHA2_512: &str = "rsa-sha2-512";

pub const ECDSA_SHA2_NISTP256: &str = "ecdsa-sha2-nistp256";

pub const ECDSA_SHA2_NISTP384: &str = "ecdsa-sha2-nistp384";

pub const ECDSA_SHA2_NISTP521: &str = "ecdsa-sha2-nistp521";

pub const SSH_ED25519: &str = "ssh-ed25519";

pub const SK_ECDSA_SHA2_NISTP256: &str = "sk-ecdsa-sha2-nistp256@openssh.com";

pub const SK_SSH_ED25519: &str = "sk-ssh-ed25519@openssh.com";
