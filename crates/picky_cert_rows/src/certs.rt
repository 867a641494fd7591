//! Certificates of `ssh-keygen`, and what they say.

use crate::cert_keys::{
    CA_ED, CA_P256, CA_P384, CA_P521, CA_RSA, CA_SK_ED, CA_SK_P256, ED, P256, P384, P521, RSA,
    SK_ED, SK_P256,
};
use picky_cert_parts::SshCertType;

/// A certificate's line, and what it says: its type is the line's first word, and its keys are a line's first two.
pub struct CertRow {
    pub name: &'static str,
    pub line: &'static str,
    pub public_key: &'static str,
    pub serial: u64,
    pub cert_type: SshCertType,
    pub key_id: &'static str,
    pub principals: &'static [&'static str],
    pub valid: (u64, u64),
    pub options: &'static [Grant],
    pub extensions: &'static [Grant],
    pub issuer: &'static str,
    pub format: &'static str,
    pub comment: &'static str,
    /// How many bytes are signed.
    pub signed_len: usize,
}

/// A name, and its data.
pub type Grant = (&'static str, &'static [u8]);

/// At no moment is it valid no more.
pub const FOREVER: u64 = u64::MAX;

// ssh-keygen with what stands above a row, the key's comment being NAME@example.org; then cat NAME-cert.pub.
// Each value is as ssh-keygen -L -f shows it, and python3's struct.unpack gives it from the bytes.

// -s ca_ed -I user -n root -z 1 ed.pub
static USER: CertRow = CertRow {
    name: "a user",
    line: "ssh-ed25519-cert-v01@openssh.com AAAAIHNzaC1lZDI1NTE5LWNlcnQtdjAxQG9wZW5zc2guY29tAAAAIDFhWOwVKf6ZHYKH8kQZa0Q2xvP+PdOp5IMC/k8dxb7CAAAAIDSUV/VQz9IVH3nfMvNGTEs4nxb96VWfmHkRaF2f5HlRAAAAAAAAAAEAAAABAAAABHVzZXIAAAAIAAAABHJvb3QAAAAAAAAAAP//////////AAAAAAAAAIIAAAAVcGVybWl0LVgxMS1mb3J3YXJkaW5nAAAAAAAAABdwZXJtaXQtYWdlbnQtZm9yd2FyZGluZwAAAAAAAAAWcGVybWl0LXBvcnQtZm9yd2FyZGluZwAAAAAAAAAKcGVybWl0LXB0eQAAAAAAAAAOcGVybWl0LXVzZXItcmMAAAAAAAAAAAAAADMAAAALc3NoLWVkMjU1MTkAAAAgEvgtHkhRTUdMKQKAWWFAMknpjAgl0V6AbZBQFy/PbbEAAABTAAAAC3NzaC1lZDI1NTE5AAAAQFzwqGcaYaWIU9nTL5tLvsZpMLATXXrcgUsscVTbQtTJKxvYJpAdRkqq3PsCEF6EazqWXBrHS4xgWpH4gtyPqAw= ed25519@example.org",
    public_key: ED,
    serial: 1,
    cert_type: SshCertType::Client,
    key_id: "user",
    principals: &["root"],
    valid: (0, FOREVER),
    options: &[],
    extensions: &[
        ("permit-X11-forwarding", b""),
        ("permit-agent-forwarding", b""),
        ("permit-port-forwarding", b""),
        ("permit-pty", b""),
        ("permit-user-rc", b""),
    ],
    issuer: CA_ED,
    format: "ssh-ed25519",
    comment: "ed25519@example.org",
    signed_len: 353,
};

// -s ca_ed -I 'a host' -h -n first.example.com,second.example.com -V 20200101000000Z:20300101000000Z ed.pub
static HOST: CertRow = CertRow {
    name: "a host",
    line: "ssh-ed25519-cert-v01@openssh.com AAAAIHNzaC1lZDI1NTE5LWNlcnQtdjAxQG9wZW5zc2guY29tAAAAIA6nn5/RM+dBIl+uHajzJEY3HHiS3ehSFWbiTJBkVoegAAAAIDSUV/VQz9IVH3nfMvNGTEs4nxb96VWfmHkRaF2f5HlRAAAAAAAAAAAAAAACAAAABmEgaG9zdAAAACsAAAARZmlyc3QuZXhhbXBsZS5jb20AAAASc2Vjb25kLmV4YW1wbGUuY29tAAAAAF4L4QAAAAAAcNvYgAAAAAAAAAAAAAAAAAAAADMAAAALc3NoLWVkMjU1MTkAAAAgEvgtHkhRTUdMKQKAWWFAMknpjAgl0V6AbZBQFy/PbbEAAABTAAAAC3NzaC1lZDI1NTE5AAAAQMmtfkCOlyYkVy2ZXEJN4ttanhO8dzzzs7pqq2H42rzL/nbtdJn6zBMyFq0xMzQRL24PoF7j9AyJvXIr5qFUTAE= ed25519@example.org",
    public_key: ED,
    serial: 0,
    cert_type: SshCertType::Host,
    key_id: "a host",
    principals: &["first.example.com", "second.example.com"],
    valid: (1577836800, 1893456000),
    options: &[],
    extensions: &[],
    issuer: CA_ED,
    format: "ssh-ed25519",
    comment: "ed25519@example.org",
    signed_len: 260,
};

// -s ca_rsa -I rsa -n a,b,c -z 18446744073709551615 -O clear rsa.pub
static RSA_BY_RSA_SHA512: CertRow = CertRow {
    name: "RSA by RSA with SHA-512",
    line: "ssh-rsa-cert-v01@openssh.com AAAAHHNzaC1yc2EtY2VydC12MDFAb3BlbnNzaC5jb20AAAAgD0qfsOgIeBn4KCXgNCIWFXHyDO18pIfn4i/qUYAKZxYAAAADAQABAAAAgQCz4WwP3WXyxzf9UuDcNP5fruteRI7LXdFuzsmjQYjNyOe4B0paI2j2N/bVYhHWvA/WoD+o+E2qbF7fyVsUWfOVxv2bm9KLEvPwR7ba8SbouceQeM3YOGzwHrdYxiaZgbiS/PhHecYf0RcIo1cmxVrjZAbuamSeIM4KqbcUItCpjf//////////AAAAAQAAAANyc2EAAAAPAAAAAWEAAAABYgAAAAFjAAAAAAAAAAD//////////wAAAAAAAAAAAAAAAAAAAJcAAAAHc3NoLXJzYQAAAAMBAAEAAACBAN0sw9grEek+i9tOMC6lmGvsqo+rvtsGAyUHO96X4rAw9LVBxjFxWSQbhbP1kpDMgPAz2yvvnG5gFAyhy7hRg/CHl7zbQqc6VviNp6f8jiA5ATNSMa8SNLGLZLPxvRhUxjX+yUA26aApHFX1kvUzYpE2XfwYCiMIWT9bmMSHQ+tlAAAAlAAAAAxyc2Etc2hhMi01MTIAAACApnEsYjQDhJH8//gI25hYYSzvCcS5BCvKnYStJkpUbwZPrcVR2Boq0I44f/u5hAYOg4ToEXKmZbl8bm/hiI7gJgSlWcx74ugwF87aNy9SrpWiUA6lfNMC7Z0glXlj+NRL2LoFaIte+MadcYKAZC0Xe878sF5JQvFW9oqf+q3vgcI= rsa@example.org",
    public_key: RSA,
    serial: u64::MAX,
    cert_type: SshCertType::Client,
    key_id: "rsa",
    principals: &["a", "b", "c"],
    valid: (0, FOREVER),
    options: &[],
    extensions: &[],
    issuer: CA_RSA,
    format: "rsa-sha2-512",
    comment: "rsa@example.org",
    signed_len: 429,
};

// -s ca_rsa -t rsa-sha2-256 -I rsa -h -z 2 rsa.pub
static RSA_BY_RSA_SHA256: CertRow = CertRow {
    name: "RSA by RSA with SHA-256",
    line: "ssh-rsa-cert-v01@openssh.com AAAAHHNzaC1yc2EtY2VydC12MDFAb3BlbnNzaC5jb20AAAAgCos//2FcNowp2H1aVChDjwiDv4AKCqeqUmc3b/8J5KAAAAADAQABAAAAgQCz4WwP3WXyxzf9UuDcNP5fruteRI7LXdFuzsmjQYjNyOe4B0paI2j2N/bVYhHWvA/WoD+o+E2qbF7fyVsUWfOVxv2bm9KLEvPwR7ba8SbouceQeM3YOGzwHrdYxiaZgbiS/PhHecYf0RcIo1cmxVrjZAbuamSeIM4KqbcUItCpjQAAAAAAAAACAAAAAgAAAANyc2EAAAAAAAAAAAAAAAD//////////wAAAAAAAAAAAAAAAAAAAJcAAAAHc3NoLXJzYQAAAAMBAAEAAACBAN0sw9grEek+i9tOMC6lmGvsqo+rvtsGAyUHO96X4rAw9LVBxjFxWSQbhbP1kpDMgPAz2yvvnG5gFAyhy7hRg/CHl7zbQqc6VviNp6f8jiA5ATNSMa8SNLGLZLPxvRhUxjX+yUA26aApHFX1kvUzYpE2XfwYCiMIWT9bmMSHQ+tlAAAAlAAAAAxyc2Etc2hhMi0yNTYAAACAWTubY3iGsZVZ4rwvTfj93okTc7hiNesgVT73/vnVmipBEWv0sMcGBWtI7yBygXX4cUK7I6UsBr9do92TTUYiOZTApZ0VEH+On9wXxh44Gc/npzPYGjT9emUHmJ7COYZs/mEhinLAAlsBGuC6dNyFYcdgkoHHJxXiLR+QEytN3yA= rsa@example.org",
    public_key: RSA,
    serial: 2,
    cert_type: SshCertType::Host,
    key_id: "rsa",
    principals: &[],
    valid: (0, FOREVER),
    options: &[],
    extensions: &[],
    issuer: CA_RSA,
    format: "rsa-sha2-256",
    comment: "rsa@example.org",
    signed_len: 414,
};

// -s ca_rsa -t ssh-rsa -I p256 -O clear -O permit-X11-forwarding -O permit-user-rc p256.pub
static P256_BY_RSA_SHA1: CertRow = CertRow {
    name: "NIST P-256 by RSA with SHA-1",
    line: "ecdsa-sha2-nistp256-cert-v01@openssh.com AAAAKGVjZHNhLXNoYTItbmlzdHAyNTYtY2VydC12MDFAb3BlbnNzaC5jb20AAAAg2kBOMIjQPiLXcZM2qY0qKllyeTyIz/adWDQCZDf+B8cAAAAIbmlzdHAyNTYAAABBBPRW0knOeRjCOxdH2kWA/3GkjVdwiuaVP/W8dZHXeCeNDMyQ8jdpIlM1ThL1zBTVMnS2XoGDkta+nzaLIauUzvAAAAAAAAAAAAAAAAEAAAAEcDI1NgAAAAAAAAAAAAAAAP//////////AAAAAAAAADMAAAAVcGVybWl0LVgxMS1mb3J3YXJkaW5nAAAAAAAAAA5wZXJtaXQtdXNlci1yYwAAAAAAAAAAAAAAlwAAAAdzc2gtcnNhAAAAAwEAAQAAAIEA3SzD2CsR6T6L204wLqWYa+yqj6u+2wYDJQc73pfisDD0tUHGMXFZJBuFs/WSkMyA8DPbK++cbmAUDKHLuFGD8IeXvNtCpzpW+I2np/yOIDkBM1IxrxI0sYtks/G9GFTGNf7JQDbpoCkcVfWS9TNikTZd/BgKIwhZP1uYxIdD62UAAACPAAAAB3NzaC1yc2EAAACAa87qo8mjETOlvELQ02oNyz3KkUSZ5LSIyTd+cUtKaQMLlUkhys9J0GU7dc5HUmCIdKCAC8brUPT7rcgsjdN8DctbdbxAuSFa05vwiLOwHbV4PApUxY6wLOHSHexy2WMxHUedXHt82GMe+03Tpf4OI3AmMEfwIykjAHuQe8z2258= p256@example.org",
    public_key: P256,
    serial: 0,
    cert_type: SshCertType::Client,
    key_id: "p256",
    principals: &[],
    valid: (0, FOREVER),
    options: &[],
    extensions: &[("permit-X11-forwarding", b""), ("permit-user-rc", b"")],
    issuer: CA_RSA,
    format: "ssh-rsa",
    comment: "p256@example.org",
    signed_len: 419,
};

// -s ca_p256 -I p384 -n root -O clear -O force-command='ls -l' -O source-address=192.0.2.0/24,2001:db8::/32 -O
// verify-required -O no-touch-required p384.pub
static P384_BY_P256: CertRow = CertRow {
    name: "NIST P-384 by NIST P-256",
    line: "ecdsa-sha2-nistp384-cert-v01@openssh.com AAAAKGVjZHNhLXNoYTItbmlzdHAzODQtY2VydC12MDFAb3BlbnNzaC5jb20AAAAglFtomaDYkKgN8M/X5Vb6Nl98i4ds07P/kcslE4Ib8wIAAAAIbmlzdHAzODQAAABhBKoWsYlfdOo2NbM2PBUYJJLp7GdJ3VEHgDA9Yc/WAOHbZODRlL243VfdxUKJGFKQ2UPsNVIRufPJ/uDqPIXiAV3N+4bNZLNIOD2XdHue5xMvVoBvuVpWxRm1CKnGhmk0EgAAAAAAAAAAAAAAAQAAAARwMzg0AAAACAAAAARyb290AAAAAAAAAAD//////////wAAAGkAAAANZm9yY2UtY29tbWFuZAAAAAkAAAAFbHMgLWwAAAAOc291cmNlLWFkZHJlc3MAAAAeAAAAGjE5Mi4wLjIuMC8yNCwyMDAxOmRiODo6LzMyAAAAD3ZlcmlmeS1yZXF1aXJlZAAAAAAAAAAZAAAAEW5vLXRvdWNoLXJlcXVpcmVkAAAAAAAAAAAAAABoAAAAE2VjZHNhLXNoYTItbmlzdHAyNTYAAAAIbmlzdHAyNTYAAABBBOIMFXdLGT2iGxOmQdZS1T865rmwsykw9Hnf8mI26lRijuSsXy8n1lnCdRF1RsjkTCbWPdZoqi1nN9PpFhzpjnoAAABkAAAAE2VjZHNhLXNoYTItbmlzdHAyNTYAAABJAAAAIQCkZ4tqnihkXz0vyNHYeXeKa/Kv0JUdP4lxqhV8gZbLYQAAACBrzh0zqLBzuyYnjLgFB+AslencHhC08Zs/3mpHfy2UQg== p384@example.org",
    public_key: P384,
    serial: 0,
    cert_type: SshCertType::Client,
    key_id: "p384",
    principals: &["root"],
    valid: (0, FOREVER),
    options: &[
        ("force-command", b"\0\0\0\x05ls -l"),
        ("source-address", b"\0\0\0\x1a192.0.2.0/24,2001:db8::/32"),
        ("verify-required", b""),
    ],
    extensions: &[("no-touch-required", b"")],
    issuer: CA_P256,
    format: "ecdsa-sha2-nistp256",
    comment: "p384@example.org",
    signed_len: 491,
};

// -s ca_p384 -I p521 -n root -O no-port-forwarding -O no-agent-forwarding -O extension:x@y=1 p521.pub
static P521_BY_P384: CertRow = CertRow {
    name: "NIST P-521 by NIST P-384",
    line: "ecdsa-sha2-nistp521-cert-v01@openssh.com AAAAKGVjZHNhLXNoYTItbmlzdHA1MjEtY2VydC12MDFAb3BlbnNzaC5jb20AAAAgvWYbtABfef3t5JSkgu9iv1TS/IEN3U3w+uj7eZg6BSYAAAAIbmlzdHA1MjEAAACFBAFclI/7c1vjHdXbPUKXnPf8aZTQU9jpu1H8k72b+bYqYhcY1gWojPU2tSERS7s427L3UC0sDDy5+RXcnXOxdQVZjgDFiDvr6aHS7YlsEJFKDsex+4M74/0nGDcjD6p5hwWa3dhWQtaUm7RGBvKlmy3Ra0kX5Jl6OuQS+wZI1HQZxJHtjQAAAAAAAAAAAAAAAQAAAARwNTIxAAAACAAAAARyb290AAAAAAAAAAD//////////wAAAAAAAABVAAAAFXBlcm1pdC1YMTEtZm9yd2FyZGluZwAAAAAAAAAKcGVybWl0LXB0eQAAAAAAAAAOcGVybWl0LXVzZXItcmMAAAAAAAAAA3hAeQAAAAUAAAABMQAAAAAAAACIAAAAE2VjZHNhLXNoYTItbmlzdHAzODQAAAAIbmlzdHAzODQAAABhBFz0rt0efuxsim05s46Ijj3zFIJqpaJ5A9IsnBnyILleoF4RIdHPQlJnS3XBFU1sAMgUD6sqNnH0HDusAi+h2KII046m5X9kZfGTaiaUSDHW2nMiFhMisvlCbVkdJi+fZAAAAIUAAAATZWNkc2Etc2hhMi1uaXN0cDM4NAAAAGoAAAAxANhaf+UXeAXk+kELHPPWFrQ2Sa3+DgEzLkyqS/oqgxqsOtSlP861RCwYafQcmQb45wAAADEA4UtUbcbiSdfk5Kb1vzqc1gBp1f2mZAjFVJC+BCi1CIegzJzpFc5BQg8D4RvyvGMe p521@example.org",
    public_key: P521,
    serial: 0,
    cert_type: SshCertType::Client,
    key_id: "p521",
    principals: &["root"],
    valid: (0, FOREVER),
    options: &[],
    extensions: &[
        ("permit-X11-forwarding", b""),
        ("permit-pty", b""),
        ("permit-user-rc", b""),
        ("x@y", b"\0\0\0\x011"),
    ],
    issuer: CA_P384,
    format: "ecdsa-sha2-nistp384",
    comment: "p521@example.org",
    signed_len: 514,
};

// -s ca_p521 -I 'clé n° 1' -n ünï -z 4294967296 -O clear -O no-touch-required sk_p256.pub
static SK_P256_BY_P521: CertRow = CertRow {
    name: "NIST P-256 on a device by NIST P-521",
    line: "sk-ecdsa-sha2-nistp256-cert-v01@openssh.com AAAAK3NrLWVjZHNhLXNoYTItbmlzdHAyNTYtY2VydC12MDFAb3BlbnNzaC5jb20AAAAgaJDxj7Ln4fg3wTvHjIzM1GDqOsaWIy/AmxdH7JGe7PIAAAAIbmlzdHAyNTYAAABBBIXhgRrL/+6rpUfr1ayLNM/ak+f8qNIPSM2aQSB1lVDvNICxT/aMPpPaZQucwv8j8PlNYbBN+WSeLhL/L8fOFi4AAAAEc3NoOgAAAAEAAAAAAAAAAQAAAApjbMOpIG7CsCAxAAAACQAAAAXDvG7DrwAAAAAAAAAA//////////8AAAAAAAAAGQAAABFuby10b3VjaC1yZXF1aXJlZAAAAAAAAAAAAAAArAAAABNlY2RzYS1zaGEyLW5pc3RwNTIxAAAACG5pc3RwNTIxAAAAhQQAbz+j3EZb47FjVRsREY72vtiXWK7kzPGBytmFh24zuPArlSBg2U7fpsdPElLJTGqlb0L5hU8j2uQK1vwpRDagRB0Bpg69cmSY1cgMXyjEmSciFl2ZS/+a90FKrnuh8Jo+nOUCam4naEfSJjPg/OXcdbksnKrTEVD62FDBnYEwdxG9S3QAAACmAAAAE2VjZHNhLXNoYTItbmlzdHA1MjEAAACLAAAAQSmeQQv2XY8pckXwwd4jxTAY23iDMffEMl8SWxoDGReQ70029teKa0f+wYzrOI531c1O+EyCN45nXv3eMMM+h+jhAAAAQgC0tyJUMOq5ZQBejMKcy11CHo3xqH9pzt72C6dpn+nb+QMv0V93+sMJ19ZQ3TbYMHvlb8UYiW1faCxvYQGmWDCdew== token@example.org",
    public_key: SK_P256,
    serial: 4294967296,
    cert_type: SshCertType::Client,
    key_id: "clé n° 1",
    principals: &["ünï"],
    valid: (0, FOREVER),
    options: &[],
    extensions: &[("no-touch-required", b"")],
    issuer: CA_P521,
    format: "ecdsa-sha2-nistp521",
    comment: "token@example.org",
    signed_len: 440,
};

// -s ca_ed -I '' -O clear -O extension:z@y -V always:20300101000000Z sk_ed.pub
static SK_ED_BY_ED: CertRow = CertRow {
    name: "Ed25519 on a device by Ed25519",
    line: "sk-ssh-ed25519-cert-v01@openssh.com AAAAI3NrLXNzaC1lZDI1NTE5LWNlcnQtdjAxQG9wZW5zc2guY29tAAAAILZyLEi7qvaI+loBnXQYqeLGJ0od9UCoKvix4rIFEXvuAAAAIIg9Usy8A/jIZW7J5/gHWUsU9044yU/7idEIs4TaSkxXAAAACnNzaDpsYXB0b3AAAAAAAAAAAAAAAAEAAAAAAAAAAAAAAAAAAAAAAAAAAHDb2IAAAAAAAAAACwAAAAN6QHkAAAAAAAAAAAAAADMAAAALc3NoLWVkMjU1MTkAAAAgEvgtHkhRTUdMKQKAWWFAMknpjAgl0V6AbZBQFy/PbbEAAABTAAAAC3NzaC1lZDI1NTE5AAAAQJdStSlJr4sm9aEc0gF9YaRoplW4KsVbGuHi8UzKYufA7kMhpCoueNePxxJytZ802L3N27OisEsb2/FOGPNXsQM= token@example.org",
    public_key: SK_ED,
    serial: 0,
    cert_type: SshCertType::Client,
    key_id: "",
    principals: &[],
    valid: (0, 1893456000),
    options: &[],
    extensions: &[("z@y", b"")],
    issuer: CA_ED,
    format: "ssh-ed25519",
    comment: "token@example.org",
    signed_len: 239,
};

// by python3: the fields of PROTOCOL.certkeys by struct.pack, and a signature of cryptography; ssh-keygen -L -f
// verifies it; another name of RSA
static RSA_NAMED_SHA256: CertRow = CertRow {
    name: "RSA under the name with SHA-256",
    line: "rsa-sha2-256-cert-v01@openssh.com AAAAIXJzYS1zaGEyLTI1Ni1jZXJ0LXYwMUBvcGVuc3NoLmNvbQAAACBR6OooC0ThaTTU1hGQHz06/EF4mECs3/gZQsL2UAnNUgAAAAMBAAEAAACBALPhbA/dZfLHN/1S4Nw0/l+u615Ejstd0W7OyaNBiM3I57gHSlojaPY39tViEda8D9agP6j4TapsXt/JWxRZ85XG/Zub0osS8/BHttrxJui5x5B4zdg4bPAet1jGJpmBuJL8+Ed5xh/RFwijVybFWuNkBu5qZJ4gzgqptxQi0KmNAAAAAAAAAAcAAAABAAAAA3JzYQAAAAgAAAAEcm9vdAAAAAAAAAAA//////////8AAAAAAAAAEgAAAApwZXJtaXQtcHR5AAAAAAAAAAAAAACXAAAAB3NzaC1yc2EAAAADAQABAAAAgQDdLMPYKxHpPovbTjAupZhr7KqPq77bBgMlBzvel+KwMPS1QcYxcVkkG4Wz9ZKQzIDwM9sr75xuYBQMocu4UYPwh5e820KnOlb4jaen/I4gOQEzUjGvEjSxi2Sz8b0YVMY1/slANumgKRxV9ZL1M2KRNl38GAojCFk/W5jEh0PrZQAAAJQAAAAMcnNhLXNoYTItMjU2AAAAgGENrEzsYfOfonsJhRbTchWeP4xQeXGZBLvS7ujH5xyrjDAU/36CuVYBBgrLkhrK/7TR0nEg8Lhr+v4vSQ9UJbUnA4LwI12yFFZcw+F3WfOeh+t2CIZxx3tBOm75BBQKz8EWhyETvK4Mv6ghLc5/xx18RA5B4k3szfN0p/7Q37xb rsa@example.org",
    public_key: RSA,
    serial: 7,
    cert_type: SshCertType::Client,
    key_id: "rsa",
    principals: &["root"],
    valid: (0, FOREVER),
    options: &[],
    extensions: &[("permit-pty", b"")],
    issuer: CA_RSA,
    format: "rsa-sha2-256",
    comment: "rsa@example.org",
    signed_len: 445,
};

// by python3: the fields of PROTOCOL.certkeys by struct.pack, and a signature of cryptography; ssh-keygen -L -f
// verifies it; another name of RSA
static RSA_NAMED_SHA512: CertRow = CertRow {
    name: "RSA under the name with SHA-512",
    line: "rsa-sha2-512-cert-v01@openssh.com AAAAIXJzYS1zaGEyLTUxMi1jZXJ0LXYwMUBvcGVuc3NoLmNvbQAAACCU+GB5Fd/yXwE+RfwGQvuYMLD7JasKtG1Hfq8QYd7zeQAAAAMBAAEAAACBALPhbA/dZfLHN/1S4Nw0/l+u615Ejstd0W7OyaNBiM3I57gHSlojaPY39tViEda8D9agP6j4TapsXt/JWxRZ85XG/Zub0osS8/BHttrxJui5x5B4zdg4bPAet1jGJpmBuJL8+Ed5xh/RFwijVybFWuNkBu5qZJ4gzgqptxQi0KmNAAAAAAAAAAcAAAABAAAAA3JzYQAAAAgAAAAEcm9vdAAAAAAAAAAA//////////8AAAAAAAAAEgAAAApwZXJtaXQtcHR5AAAAAAAAAAAAAACXAAAAB3NzaC1yc2EAAAADAQABAAAAgQDdLMPYKxHpPovbTjAupZhr7KqPq77bBgMlBzvel+KwMPS1QcYxcVkkG4Wz9ZKQzIDwM9sr75xuYBQMocu4UYPwh5e820KnOlb4jaen/I4gOQEzUjGvEjSxi2Sz8b0YVMY1/slANumgKRxV9ZL1M2KRNl38GAojCFk/W5jEh0PrZQAAAJQAAAAMcnNhLXNoYTItNTEyAAAAgNep8tQqiWO45u9jRmnyxEAfBxv5Hl/FMQRWMLB8Y+AAtY06L6HtZ8eM2pXJO2X484vv/MlD9o+zh8tDMT4JsOJzqJif5tNzmbZsYmpEnqnpA6UqkMycGCfjTZyk72X/sDWbkjJHZdleW9kRDb5b4fxbcfzFJ0dC3NaR9tT6/EnI rsa@example.org",
    public_key: RSA,
    serial: 7,
    cert_type: SshCertType::Client,
    key_id: "rsa",
    principals: &["root"],
    valid: (0, FOREVER),
    options: &[],
    extensions: &[("permit-pty", b"")],
    issuer: CA_RSA,
    format: "rsa-sha2-512",
    comment: "rsa@example.org",
    signed_len: 445,
};

// by python3: the fields of PROTOCOL.certkeys by struct.pack, and a signature of cryptography; ssh-keygen -L -f
// verifies it; the key is a device's
static ED_BY_DEVICE: CertRow = CertRow {
    name: "Ed25519 by a device",
    line: "ssh-ed25519-cert-v01@openssh.com AAAAIHNzaC1lZDI1NTE5LWNlcnQtdjAxQG9wZW5zc2guY29tAAAAIH0ge+a97XVdbfLWEWFePUkdMDeuX37vZdygn0dnB7E1AAAAIDSUV/VQz9IVH3nfMvNGTEs4nxb96VWfmHkRaF2f5HlRAAAAAAAAAAgAAAACAAAAC2J5IGEgZGV2aWNlAAAAFAAAABBob3N0LmV4YW1wbGUuY29tAAAAAAAAAAD//////////wAAAAAAAAAAAAAAAAAAAEoAAAAac2stc3NoLWVkMjU1MTlAb3BlbnNzaC5jb20AAAAgK4gIPMt3ImnLK6McM3NUz6aV/J51K7VlN4SVSoLYev4AAAAEc3NoOgAAAGcAAAAac2stc3NoLWVkMjU1MTlAb3BlbnNzaC5jb20AAABA0sFVCQ9OmrTMU+xoiVcz52jFR9XtXwNZmfZ5vqYC6nTJw7mwIbEaPR/xBqQOwsN2CE2vSYGlHgMvvQPvpIGNBgEAAAEC ",
    public_key: ED,
    serial: 8,
    cert_type: SshCertType::Host,
    key_id: "by a device",
    principals: &["host.example.com"],
    valid: (0, FOREVER),
    options: &[],
    extensions: &[],
    issuer: CA_SK_ED,
    format: "sk-ssh-ed25519@openssh.com",
    comment: "",
    signed_len: 265,
};

// by python3: the fields of PROTOCOL.certkeys by struct.pack, and a signature of cryptography; ssh-keygen -L -f
// verifies it; the key is a device's
static P256_BY_DEVICE: CertRow = CertRow {
    name: "NIST P-256 by a device",
    line: "ecdsa-sha2-nistp256-cert-v01@openssh.com AAAAKGVjZHNhLXNoYTItbmlzdHAyNTYtY2VydC12MDFAb3BlbnNzaC5jb20AAAAgW3INyynMOkHU9LgKN+lbGBmIB/VKUiuLdoHIGhcsOlwAAAAIbmlzdHAyNTYAAABBBPRW0knOeRjCOxdH2kWA/3GkjVdwiuaVP/W8dZHXeCeNDMyQ8jdpIlM1ThL1zBTVMnS2XoGDkta+nzaLIauUzvAAAAAAAAAACQAAAAEAAAALYnkgYSBkZXZpY2UAAAAAAAAAAF4L4QAAAAAAcNvYgAAAAB0AAAANZm9yY2UtY29tbWFuZAAAAAgAAAAEdHJ1ZQAAAAAAAAAAAAAAfwAAACJzay1lY2RzYS1zaGEyLW5pc3RwMjU2QG9wZW5zc2guY29tAAAACG5pc3RwMjU2AAAAQQQgZZtUzuD3BznmhnJQLBnCXXBem29WmhpUTVywscKNEftKTdgtAQt2KAZ8vAEn7InCY/0G3Yl7rGnQcX+RuLJuAAAABHNzaDoAAAB5AAAAInNrLWVjZHNhLXNoYTItbmlzdHAyNTZAb3BlbnNzaC5jb20AAABKAAAAIQDW/k27D7wvP8LKtbmaFHte3qU53+POoRqwf7w/CDclbgAAACEAlhRJcWjoTFhVRPaixvaqZooIRQHq/JKTvTW02WMfGwMF/////w== two words",
    public_key: P256,
    serial: 9,
    cert_type: SshCertType::Client,
    key_id: "by a device",
    principals: &[],
    valid: (1577836800, 1893456000),
    options: &[("force-command", b"\0\0\0\x04true")],
    extensions: &[],
    issuer: CA_SK_P256,
    format: "sk-ecdsa-sha2-nistp256@openssh.com",
    comment: "two words",
    signed_len: 380,
};

/// How many rows there are.
pub const ROW_COUNT: usize = 13;

/// The row with this number. Who calls it sees none of the tables: each is long, and a proof that copied them all would be too
/// long.
pub fn cert_row(number: usize) -> &'static CertRow {
    match number {
        0 => user_row(),
        1 => host_row(),
        2 => rsa_by_rsa_sha512_row(),
        3 => rsa_by_rsa_sha256_row(),
        4 => p256_by_rsa_sha1_row(),
        5 => p384_by_p256_row(),
        6 => p521_by_p384_row(),
        7 => sk_p256_by_p521_row(),
        8 => sk_ed_by_ed_row(),
        9 => rsa_named_sha256_row(),
        10 => rsa_named_sha512_row(),
        11 => ed_by_device_row(),
        _ => p256_by_device_row(),
    }
}

fn user_row() -> &'static CertRow {
    &USER
}

fn host_row() -> &'static CertRow {
    &HOST
}

fn rsa_by_rsa_sha512_row() -> &'static CertRow {
    &RSA_BY_RSA_SHA512
}

fn rsa_by_rsa_sha256_row() -> &'static CertRow {
    &RSA_BY_RSA_SHA256
}

fn p256_by_rsa_sha1_row() -> &'static CertRow {
    &P256_BY_RSA_SHA1
}

fn p384_by_p256_row() -> &'static CertRow {
    &P384_BY_P256
}

fn p521_by_p384_row() -> &'static CertRow {
    &P521_BY_P384
}

fn sk_p256_by_p521_row() -> &'static CertRow {
    &SK_P256_BY_P521
}

fn sk_ed_by_ed_row() -> &'static CertRow {
    &SK_ED_BY_ED
}

fn rsa_named_sha256_row() -> &'static CertRow {
    &RSA_NAMED_SHA256
}

fn rsa_named_sha512_row() -> &'static CertRow {
    &RSA_NAMED_SHA512
}

fn ed_by_device_row() -> &'static CertRow {
    &ED_BY_DEVICE
}

fn p256_by_device_row() -> &'static CertRow {
    &P256_BY_DEVICE
}
