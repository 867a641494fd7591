//! The certificate that a request line asks for.

ghost use Rattle.std.specs.Prelude.{◌≡◌, Some, IfOk};
ghost use Rattle.picky_request.specs.Request.{request_in};
ghost use Rattle.picky_ledger.specs.Apply.{issuing, judged_request_line};
ghost use Rattle.picky_ledger_by.specs.inner.Line.{IsDraftFor};

use picky_cert_builder::{CertificateDraft, SshCertificateGenerationError};
use picky_keys::SshPublicKey;
use picky_ledger::{Ledger, entry_named};
use picky_request::CertRequestLine;
use picky_wire::NoMemory;
use std::alloc::Global;

/// The certificate that is to be signed for a request line, where `Ledger::apply` asks a device to sign one. Refuses: `NoMemory`.
#[tactic(auto, unfolding(picky_ledger::specs::Apply::judged_request_line))]
pub fn draft_for(
    alloc: Global,
    ledger: &Ledger,
    issuer: &SshPublicKey,
    line: &str,
    nonce: &[u8; 32],
) -> Result<Option<CertificateDraft>, NoMemory>
    ensures { IfOk result (IsDraftFor
        (judged_request_line (record { issuer = issuer.now.inner_key; nonce = nonce.now }) ledger.now line.now)) }
{
    match CertRequestLine::from_str(alloc, line)? {
        Some(request) => match entry_named(request.id.as_str(), ledger.entries()) {
            Some(_) => {
                drop(request);
                Ok(None)
            }
            None => new_draft(alloc, ledger.next_serial(), issuer, request, nonce),
        },
        None => Ok(None),
    }
}

/// The same of a request whose id is new. Refuses: `NoMemory`.
#[tactic(auto, unfolding(picky_ledger::specs::Apply::issuing))]
fn new_draft(
    alloc: Global,
    serial: u64,
    issuer: &SshPublicKey,
    request: CertRequestLine,
    nonce: &[u8; 32],
) -> Result<Option<CertificateDraft>, NoMemory>
    ensures { IfOk result (IsDraftFor
        (issuing (record { issuer = issuer.now.inner_key; nonce = nonce.now }) serial request)) }
{
    if serial == u64::MAX {
        drop(request);
        return Ok(None);
    }
    let builder = request.builder(alloc, &issuer.inner_key, serial)?;
    match builder.into_draft(alloc, nonce) {
        Ok(draft) => Ok(Some(draft)),
        Err(SshCertificateGenerationError::NoMemory) => Err(NoMemory),
        Err(e) => {
            drop(e);
            Ok(None)
        }
    }
}
