//! A certificate's principals and validity.

ghost use Rattle.std.specs.Prelude.{◌≡◌, ◌⊎◌, ◌↔◌, Err, IfErr, IfOk, IsTrue, Contains};
ghost use Rattle.picky.specs.CertLine.{IsCertificateLine};
ghost use Rattle.picky.specs.CertLineRefusal.{cert_line_meaning};
ghost use Rattle.picky.specs.declared.ssh.SshCertificate.{SshCertificate as Certificate};
ghost use Rattle.picky_callers.specs.Login.{Allows};

use picky::ssh::laws::certificate::line_means_what_it_says;
use picky::ssh::{SshCertType, SshCertificate, SshCertificateError};
use picky::wire::{Text, Timestamp};
use std::alloc::Global;

/// Whether the certificate in a line names the user and is valid at the moment. Its signature isn't verified: who asks has to
/// do that first, over `signed_bytes`, under an issuer's key that is trusted.
pub fn allows_login(
    alloc: Global,
    line: &str,
    user: &str,
    now: Timestamp,
) -> Result<bool, SshCertificateError>
    // The line means one certificate, and the answer is that of its fields.
    ensures ok { IfOk result (λ allowed. (c : Certificate) × IsCertificateLine line.now c
        × (IsTrue allowed ↔ Allows c user.now now)) }

    // A line that means no certificate is refused as `SshCertificate::from_str` refuses it.
    ensures refused { IfErr result (λ e. (e ≡ SshCertificateError.NoMemory) ⊎ (cert_line_meaning line.now ≡ Err e)) }
{
    line_means_what_it_says();
    let certificate = SshCertificate::from_str(alloc, line)?;
    let allowed = allows(&certificate, user, now);
    drop(certificate);
    Ok(allowed)
}

/// Whether the certificate is a user's that names this one, and valid at the moment.
fn allows(certificate: &SshCertificate, user: &str, now: Timestamp) -> bool
    ensures { IsTrue result ↔ Allows certificate.now user.now now }
{
    certificate.cert_type == SshCertType::Client
        && names(certificate.valid_principals.as_slice(), user)
        && certificate.valid_after <= now
        && now < certificate.valid_before
}

/// Whether the user is among the principals.
fn names(principals: &[Text], user: &str) -> bool
    ensures { IsTrue result ↔ Contains principals.now user.now }
{
    principals.iter().any(|name| name.as_str() == user)
}
