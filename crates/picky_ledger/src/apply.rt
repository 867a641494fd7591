//! A request at a ledger.

ghost use Rattle.std.specs.Prelude.{◌≡◌, ◌+◌, ◌<◌, ◌^◌, ℕ, List, Ok, Err, Some, IfOk, IfErr, length};
ghost use Rattle.std.specs.Str.{IsUtf8};
ghost use Rattle.std.specs.Option.{option_copied};
ghost use Rattle.picky_wire_base.specs.Numbers.{IsBytes};
ghost use Rattle.picky_wire.specs.Count.{Rose};
ghost use Rattle.picky_suite.specs.Asked.{IsAskedAtMost};
ghost use Rattle.picky_cert_parts.specs.Signature.{IsSignature};
ghost use Rattle.picky_cert_builder.specs.Built.{IsBuilt, LeavesSigner as LeavesBuilder};
ghost use Rattle.picky_cert_builder.specs.Draft.{requested};
ghost use Rattle.picky_cert_builder.specs.Keeps.{IsRequest};
ghost use Rattle.picky_request.specs.Builder.{asked_of};
ghost use Rattle.picky_request.specs.Request.{request_in};
ghost use Rattle.picky_ledger.specs.Apply.{added, issuing, judged_request_line, kept_reply as kept_reply_of};
ghost use Rattle.picky_ledger.specs.Apply.{unless_kept, Applies, LeavesLedgerSigner};
ghost use Rattle.picky_ledger.specs.Entry.{entry_of as entry_by, IsEntry};
ghost use Rattle.picky_ledger.specs.State.{entry_named as entry_with_id, IsNew};

use crate::entry::Entry;
use crate::ledger::Ledger;
use crate::reply::Reply;
use picky_cert::SshCertificate;
use picky_cert_builder::{
    SshCertificateBuilder, SshCertificateGenerationError, request_keeps_its_ranges,
    signature_keeps_its_ranges,
};
use picky_keys::SshPublicKey;
use picky_request::CertRequestLine;
use picky_suite::Signer;
use picky_wire::{NoMemory, Text, TryClone};
use std::alloc::Global;
use thiserror::Error;

/// Why a request has no reply.
#[derive(Debug, Drop, PartialEq, Eq, Error)]
pub enum LedgerError {
    /// The device that signs failed, and counted it.
    #[error("SignerFault")]
    SignerFault,
    /// Memory ran out.
    #[error("NoMemory")]
    NoMemory,
}

impl Ledger {
    /// The reply to a request line: what the ledger has of it, or a certificate that the issuer's device signs, which is entered.
    ///
    /// Answers, in order: `BadRequest`, where the line is no request; `Again`, where an entry with its id has this line;
    /// `Conflict`, where it has another; `Full`, where the next serial is 18,446,744,073,709,551,615; `Refused`, as
    /// `SshCertificateBuilder::build` refuses but for the device's fault; `Issued`, which alone changes the ledger. Refuses:
    /// `SignerFault`, with the ledger as it was; `NoMemory`, with the ledger as it was, though the device may have been asked.
    #[tactic(auto, unfolding(crate::specs::Apply::judged_request_line))]
    pub fn apply<G: Signer>(
        &mut self,
        alloc: Global,
        issuer: &SshPublicKey,
        line: &str,
        nonce: &[u8; 32],
        signer: &mut G,
    ) -> Result<Reply, LedgerError>
        ensures applies { Applies (G.signs signer.old) self.old line.now
            (judged_request_line (record { issuer = issuer.now.inner_key; nonce = nonce.now }) self.old line.now)
            (Rose (G.faults signer.old) (G.faults signer.new)) result self.new }
        ensures signer { LeavesLedgerSigner G.signs G.faults
            (judged_request_line (record { issuer = issuer.now.inner_key; nonce = nonce.now }) self.old line.now) result signer.old signer.new }
        ensures asked { IsAskedAtMost 1 G.calls signer.old signer.new }
    {
        match CertRequestLine::from_str(alloc, line) {
            Ok(Some(request)) => self.answer(alloc, issuer, line, request, nonce, signer),
            Ok(None) => Ok(Reply::BadRequest),
            Err(NoMemory) => Err(LedgerError::NoMemory),
        }
    }

    /// The reply to a request, which is this line.
    fn answer<G: Signer>(
        &mut self,
        alloc: Global,
        issuer: &SshPublicKey,
        line: &str,
        request: CertRequestLine,
        nonce: &[u8; 32],
        signer: &mut G,
    ) -> Result<Reply, LedgerError>
        requires { request_in line.now ≡ Some request }
        ensures applies { Applies (G.signs signer.old) self.old line.now
            (unless_kept (record { issuer = issuer.now.inner_key; nonce = nonce.now }) line.now self.old.next request
            (entry_with_id request.id self.old.entries))
            (Rose (G.faults signer.old) (G.faults signer.new)) result self.new }
        ensures signer { LeavesLedgerSigner G.signs G.faults
            (unless_kept (record { issuer = issuer.now.inner_key; nonce = nonce.now }) line.now self.old.next request
            (entry_with_id request.id self.old.entries)) result signer.old signer.new }
        ensures asked { IsAskedAtMost 1 G.calls signer.old signer.new }
    {
        match entry_named(request.id.as_str(), self.entries.as_slice()) {
            Some(entry) => Ok(kept_reply(entry, line)),
            None => self.issue(alloc, issuer, line, request, nonce, signer),
        }
    }

    /// The reply to a new request.
    #[tactic(auto, unfolding(crate::specs::Apply::issuing))]
    fn issue<G: Signer>(
        &mut self,
        alloc: Global,
        issuer: &SshPublicKey,
        line: &str,
        request: CertRequestLine,
        nonce: &[u8; 32],
        signer: &mut G,
    ) -> Result<Reply, LedgerError>
        requires is { request_in line.now ≡ Some request }
        requires new { IsNew request.id self.old.entries }
        ensures applies { Applies (G.signs signer.old) self.old line.now
            (issuing (record { issuer = issuer.now.inner_key; nonce = nonce.now }) self.old.next request)
            (Rose (G.faults signer.old) (G.faults signer.new)) result self.new }
        ensures signer { LeavesLedgerSigner G.signs G.faults
            (issuing (record { issuer = issuer.now.inner_key; nonce = nonce.now }) self.old.next request) result signer.old signer.new }
        ensures asked { IsAskedAtMost 1 G.calls signer.old signer.new }
    {
        if self.next == u64::MAX {
            return Ok(Reply::Full);
        }
        match certificate_for(alloc, issuer, self.next, request, nonce, signer) {
            Ok(certificate) => self.add(alloc, line, certificate),
            Err(SshCertificateGenerationError::NoMemory) => Err(LedgerError::NoMemory),
            Err(SshCertificateGenerationError::SignatureError) => Err(LedgerError::SignerFault),
            Err(e) => Ok(Reply::Refused(e)),
        }
    }

    /// Enters a certificate. Refuses: `NoMemory`, with the ledger as it was.
    fn add(
        &mut self,
        alloc: Global,
        line: &str,
        certificate: SshCertificate,
    ) -> Result<Reply, LedgerError>
        requires entry { IsEntry (entry_by certificate.key_id line.now certificate) }
        requires serial { certificate.serial ≡ self.old.next }
        requires new { IsNew certificate.key_id self.old.entries }
        requires room { self.old.next + 1 < 2 ^ 64 }
        ensures ok { IfOk result (λ reply. (reply ≡ Reply.Issued self.old.next)
            × (self.new ≡ added self.old (entry_by certificate.key_id line.now certificate))) }
        ensures err { IfErr result (λ e. (e ≡ LedgerError.NoMemory) × (self.new ≡ self.old)) }
    {
        match entry_of(alloc, line, certificate) {
            Ok(entry) => match self.entries.push(entry) {
                Ok(()) => {
                    let serial = self.next;
                    self.next += 1;
                    Ok(Reply::Issued(serial))
                }
                Err(_) => Err(LedgerError::NoMemory),
            },
            Err(NoMemory) => Err(LedgerError::NoMemory),
        }
    }
}

/// The entry with this id, where there is one.
#[tactic(auto, unfolding(crate::specs::State::entry_named))]
pub fn entry_named<'a>(id: &str, entries: &'a [Entry]) -> Option<&'a Entry>
    ensures { option_copied result ≡ entry_with_id id.now entries.now }
{
    let mut rest = entries;
    'entries: while let [entry, more @ ..] = rest {
        if entry.id.as_str() == id {
            return Some(entry);
        }
        rest = more;
    }
    None
}

/// The reply to the id of an entry: whether the line is the kept one.
fn kept_reply(entry: &Entry, line: &str) -> Reply
    ensures { result ≡ kept_reply_of line.now entry.now }
{
    if entry.request.as_str() == line {
        return Reply::Again(entry.serial);
    }
    Reply::Conflict(entry.serial)
}

/// The certificate of a request, signed by the device. Refuses as `SshCertificateBuilder::build`.
fn certificate_for<G: Signer>(
    alloc: Global,
    issuer: &SshPublicKey,
    serial: u64,
    request: CertRequestLine,
    nonce: &[u8; 32],
    signer: &mut G,
) -> Result<SshCertificate, SshCertificateGenerationError>
    ensures answers { IsBuilt (G.signs signer.old) (requested (asked_of issuer.now.inner_key serial request) nonce.now)
        (Rose (G.faults signer.old) (G.faults signer.new)) result }
    ensures signer { LeavesBuilder G.signs G.faults (requested (asked_of issuer.now.inner_key serial request) nonce.now) result
        signer.old signer.new }
    ensures fields { IfOk result (λ c. (c.key_id ≡ request.id) × (c.serial ≡ serial)) }
    ensures entry { (line : List ℕ) → IsUtf8 line → request_in line ≡ Some request
        → IfOk result (λ c. IsEntry (entry_by request.id line c)) }
    ensures asked { IsAskedAtMost 1 G.calls signer.old signer.new }
{
    match request.builder(alloc, &issuer.inner_key, serial) {
        Ok(mut builder) => {
            let certificate = built(alloc, &mut builder, nonce, signer);
            drop(builder);
            certificate
        }
        Err(NoMemory) => Err(SshCertificateGenerationError::NoMemory),
    }
}

/// The certificate that is asked for, signed by the device. Refuses as `SshCertificateBuilder::build`.
fn built<G: Signer>(
    alloc: Global,
    builder: &mut SshCertificateBuilder,
    nonce: &[u8; 32],
    signer: &mut G,
) -> Result<SshCertificate, SshCertificateGenerationError>
    ensures answers { IsBuilt (G.signs signer.old) (requested builder.old nonce.now)
        (Rose (G.faults signer.old) (G.faults signer.new)) result }
    ensures signer { LeavesBuilder G.signs G.faults (requested builder.old nonce.now) result signer.old signer.new }

    // The ranges that the types say.
    ensures request { IsRequest builder.old }
    ensures bytes { IsBytes nonce.now }
    ensures len { length nonce.now ≡ 32 }
    ensures signature { IfOk result (λ c. IsSignature c.signature) }
    ensures asked { IsAskedAtMost 1 G.calls signer.old signer.new }
{
    request_keeps_its_ranges(builder);
    match builder.build(alloc, nonce, signer) {
        Ok(certificate) => {
            signature_keeps_its_ranges(&certificate.signature);
            Ok(certificate)
        }
        Err(e) => Err(e),
    }
}

/// The entry of a certificate, whose id is the certificate's key id. Refuses: `NoMemory`.
fn entry_of(alloc: Global, line: &str, certificate: SshCertificate) -> Result<Entry, NoMemory>
    ensures { IfOk result (λ entry. entry ≡ entry_by certificate.key_id line.now certificate) }
{
    let id = certificate.key_id.try_clone(alloc)?;
    match Text::new(alloc, line) {
        Ok(request) => Ok(Entry {
            id,
            serial: certificate.serial,
            request,
            certificate,
        }),
        Err(_) => Err(NoMemory),
    }
}
