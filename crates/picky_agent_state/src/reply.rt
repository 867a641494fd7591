//! The replies, as bytes.

ghost use Rattle.std.specs.Prelude.{◌≡◌, ◌∷◌, ◌++◌, [], ◌^◌, ◌<◌, ◌≤◌, ◌+◌, length, IfOk};
ghost use Rattle.std.specs.Int.{w32, to_be_bytes};
ghost use Rattle.std.specs.List.{concat};
ghost use Rattle.picky_wire_base.specs.Wire.{string_of};
ghost use Rattle.picky_agent_state.specs.Reply.{entry, failure as failure_reply, fitted, signed_reply};
ghost use Rattle.picky_agent_state.specs.Reply.{success as success_reply};
ghost use Rattle.picky_agent_state.specs.Rows.{most_identities};
ghost use Rattle.picky_agent_state.specs.inner.Entry.{HasEntry};

use crate::identity::Identity;
use crate::message_type;
use picky_cert_parts::SshSignatureFormat;
use picky_sshkey_blob::public_bytes;
use picky_wire::{Bytes, MAX_LEN, NoMemory, Piece, Text, push_pieces};
use std::alloc::Global;

/// The failure. Refuses: `NoMemory`.
pub(crate) fn failure(alloc: Global) -> Result<Bytes, NoMemory>
    ensures { IfOk result (λ reply. reply ≡ failure_reply) }
{
    of_type(alloc, message_type::FAILURE)
}

/// The success. Refuses: `NoMemory`.
pub(crate) fn success(alloc: Global) -> Result<Bytes, NoMemory>
    ensures { IfOk result (λ reply. reply ≡ success_reply) }
{
    of_type(alloc, message_type::SUCCESS)
}

/// The type alone. Refuses: `NoMemory`.
fn of_type(alloc: Global, kind: u8) -> Result<Bytes, NoMemory>
    ensures { IfOk result (λ reply. reply ≡ kind ∷ []) }
{
    match Bytes::new(alloc, &[kind]) {
        Ok(reply) => Ok(reply),
        Err(_) => Err(NoMemory),
    }
}

/// The reply, or the failure where it is too long. Refuses: `NoMemory`.
fn fit(alloc: Global, reply: Vec<u8>) -> Result<Bytes, NoMemory>
    ensures { IfOk result (λ bytes. bytes ≡ fitted reply.items) }
{
    if reply.len() > MAX_LEN {
        return failure(alloc);
    }
    Ok(Bytes::from_vec(reply))
}

/// The list that has these entries. Refuses: `NoMemory`.
pub(crate) fn listing_of(alloc: Global, entries: &[Bytes]) -> Result<Bytes, NoMemory>
    requires { length entries.now ≤ most_identities }
    ensures { IfOk result (λ reply. reply ≡ fitted (12 ∷ to_be_bytes w32 (length entries.now) ++ concat entries.now)) }
{
    let mut reply = Vec::new(alloc);
    let head = [
        Piece::byte(message_type::IDENTITIES_ANSWER),
        Piece::uint32(entries.len() as u32),
    ];
    match push_pieces(&mut reply, &head) {
        Ok(()) => {}
        Err(_) => return Err(NoMemory),
    }
    'entries: for entry in entries {
        match reply.extend_from_slice(entry.as_slice()) {
            Ok(()) => {}
            Err(_) => return Err(NoMemory),
        }
    }
    fit(alloc, reply)
}

/// The identity's entry in a list. Refuses: `NoMemory`.
pub(crate) fn entry_of(alloc: Global, identity: &Identity) -> Result<Bytes, NoMemory>
    requires { HasEntry identity.now }
    ensures { IfOk result (λ bytes. bytes ≡ entry identity.now) }
{
    let blob = public_bytes(alloc, &identity.key)?;
    strings_of(alloc, blob.as_slice(), &identity.comment)
}

/// A blob and a comment, each as a string. Refuses: `NoMemory`.
fn strings_of(alloc: Global, blob: &[u8], comment: &Text) -> Result<Bytes, NoMemory>
    requires { length blob.now + length comment.now + 8 < 2 ^ 32 }
    ensures { IfOk result (λ bytes. bytes ≡ string_of blob.now ++ string_of comment.now) }
{
    let len = blob.len() + comment.as_str().len() + 8;
    match Vec::with_capacity(alloc, len) {
        Ok(mut entry) => {
            match push_pieces(&mut entry, &[Piece::string(blob), Piece::text(comment)]) {
                Ok(()) => Ok(Bytes::from_vec(entry)),
                Err(_) => Err(NoMemory),
            }
        }
        Err(_) => Err(NoMemory),
    }
}

/// The signature in its format. Refuses: `NoMemory`.
pub(crate) fn signed_of(
    alloc: Global,
    format: SshSignatureFormat,
    signature: &Bytes,
) -> Result<Bytes, NoMemory>
    ensures { IfOk result (λ reply. reply ≡ fitted (signed_reply format signature.now)) }
{
    let name = format.as_str();
    let len = name.len() + signature.as_slice().len() + 8;
    if len > MAX_LEN {
        return failure(alloc);
    }
    let mut reply = Vec::new(alloc);
    let head = [
        Piece::byte(message_type::SIGN_RESPONSE),
        Piece::uint32(len as u32),
        Piece::string(name.as_bytes()),
    ];
    match push_pieces(&mut reply, &head) {
        Ok(()) => {}
        Err(_) => return Err(NoMemory),
    }
    match push_pieces(&mut reply, &[Piece::bytes(signature)]) {
        Ok(()) => fit(alloc, reply),
        Err(_) => Err(NoMemory),
    }
}
