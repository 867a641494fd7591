//! What a message asks, seen where it stands.

ghost use Rattle.std.specs.Prelude.{◌≡◌, ◌^◌, ◌<◌, ◌≤◌, length, IfOk};
ghost use Rattle.picky_wire_base.specs.View.{Sees, why_in};
ghost use Rattle.picky_keys.specs.View.{key_seen};
ghost use Rattle.picky_agent_state.specs.Keep.{keep_limit};
ghost use Rattle.picky_agent_state.specs.Request.{add_fields, key_string, lock_fields, remove_fields, request_of};
ghost use Rattle.picky_agent_state.specs.Request.{sign_fields, unlock_fields};
ghost use Rattle.picky_agent_state.specs.inner.Asked.{asked_found, asked_seen, KeepsAsked};

use crate::message_type;
use picky_keys::PublicView;
use picky_sshkey_blob::{PrivateView, private_at};
use picky_wire::{Stuck, string_at, uint32_at, word_at};

/// A request whose parts are slices of its message.
#[derive(Clone, Copy)]
pub(crate) enum Asked<'a> {
    Identities,
    Sign {
        key: PublicView<'a>,
        message: &'a [u8],
        flags: u32,
    },
    Add {
        key: PrivateView<'a>,
        comment: &'a str,
    },
    Remove {
        key: PublicView<'a>,
    },
    RemoveAll,
    Lock {
        pass: &'a [u8],
    },
    Unlock {
        pass: &'a [u8],
    },
    /// The type is another one, or the fields aren't there.
    Unfit,
}

/// What the message asks.
#[tactic(auto, unfolding(crate::specs::Request::request_of), using(crate::proofs::AskedLemmas::found_is_read))]
pub(crate) fn read_request<'a>(message: &'a [u8]) -> Asked<'a>
    requires { length message.now ≤ keep_limit }
    ensures request { asked_seen result ≡ request_of message.now }
    ensures keeps { KeepsAsked result }
{
    let (kind, contents) = match message.split_first() {
        Some(parts) => parts,
        None => return Asked::Unfit,
    };
    match *kind {
        message_type::REQUEST_IDENTITIES => Asked::Identities,
        message_type::SIGN_REQUEST => or_unfit(sign_at(contents, 0)),
        message_type::ADD_IDENTITY => or_unfit(add_at(contents, 0)),
        message_type::REMOVE_IDENTITY => or_unfit(remove_at(contents, 0)),
        message_type::REMOVE_ALL_IDENTITIES => Asked::RemoveAll,
        message_type::LOCK => or_unfit(lock_at(contents, 0)),
        message_type::UNLOCK => or_unfit(unlock_at(contents, 0)),
        _ => Asked::Unfit,
    }
}

/// What was found, where something was.
fn or_unfit<'a>(found: Result<(Asked<'a>, usize), Stuck<'a>>) -> Asked<'a>
    ensures { result ≡ asked_found found.entry }
{
    match found {
        Ok((asked, _)) => asked,
        Err(_) => Asked::Unfit,
    }
}

#[tactic(auto, unfolding(crate::specs::Request::sign_fields))]
fn sign_at<'a>(contents: &'a [u8], from: usize) -> Result<(Asked<'a>, usize), Stuck<'a>>
    requires { length contents.now < 2 ^ 32 }
    ensures sees { Sees asked_seen why_in sign_fields contents.now from result }
    ensures keeps { IfOk result (λ found. KeepsAsked found.0) }
{
    let (key, next) = match key_at(contents, from) {
        Ok(found) => found,
        Err(stuck) => return Err(stuck),
    };
    let (message, next) = match string_at(contents, next) {
        Ok(found) => found,
        Err(stuck) => return Err(stuck),
    };
    let (flags, next) = match uint32_at(contents, next) {
        Ok(found) => found,
        Err(stuck) => return Err(stuck),
    };
    let message = message.bytes;
    Ok((
        Asked::Sign {
            key,
            message,
            flags,
        },
        next,
    ))
}

#[tactic(auto, unfolding(crate::specs::Request::add_fields))]
fn add_at<'a>(contents: &'a [u8], from: usize) -> Result<(Asked<'a>, usize), Stuck<'a>>
    requires { length contents.now ≤ keep_limit }
    ensures sees { Sees asked_seen why_in add_fields contents.now from result }
    ensures keeps { IfOk result (λ found. KeepsAsked found.0) }
{
    let (key, next) = match private_at(contents, from) {
        Ok(found) => found,
        Err(stopped) => return Err(stopped.stuck),
    };
    let (comment, next) = match word_at(contents, next) {
        Ok(found) => found,
        Err(stuck) => return Err(stuck),
    };
    let comment = comment.text;
    Ok((Asked::Add { key, comment }, next))
}

#[tactic(auto, unfolding(crate::specs::Request::remove_fields))]
fn remove_at<'a>(contents: &'a [u8], from: usize) -> Result<(Asked<'a>, usize), Stuck<'a>>
    requires { length contents.now < 2 ^ 32 }
    ensures sees { Sees asked_seen why_in remove_fields contents.now from result }
    ensures keeps { IfOk result (λ found. KeepsAsked found.0) }
{
    let (key, next) = match key_at(contents, from) {
        Ok(found) => found,
        Err(stuck) => return Err(stuck),
    };
    Ok((Asked::Remove { key }, next))
}

#[tactic(auto, unfolding(crate::specs::Request::lock_fields))]
fn lock_at<'a>(contents: &'a [u8], from: usize) -> Result<(Asked<'a>, usize), Stuck<'a>>
    ensures sees { Sees asked_seen why_in lock_fields contents.now from result }
    ensures keeps { IfOk result (λ found. KeepsAsked found.0) }
{
    let (pass, next) = match string_at(contents, from) {
        Ok(found) => found,
        Err(stuck) => return Err(stuck),
    };
    let pass = pass.bytes;
    Ok((Asked::Lock { pass }, next))
}

#[tactic(auto, unfolding(crate::specs::Request::unlock_fields))]
fn unlock_at<'a>(contents: &'a [u8], from: usize) -> Result<(Asked<'a>, usize), Stuck<'a>>
    ensures sees { Sees asked_seen why_in unlock_fields contents.now from result }
    ensures keeps { IfOk result (λ found. KeepsAsked found.0) }
{
    let (pass, next) = match string_at(contents, from) {
        Ok(found) => found,
        Err(stuck) => return Err(stuck),
    };
    let pass = pass.bytes;
    Ok((Asked::Unlock { pass }, next))
}

/// The key whose blob a string begins with.
#[tactic(auto, using(crate::proofs::AskedLemmas::key_strings))]
fn key_at<'a>(contents: &'a [u8], from: usize) -> Result<(PublicView<'a>, usize), Stuck<'a>>
    requires { length contents.now < 2 ^ 32 }
    ensures { Sees key_seen why_in key_string contents.now from result }
{
    let (string, next) = match string_at(contents, from) {
        Ok(found) => found,
        Err(stuck) => return Err(stuck),
    };
    match PublicView::read(string.bytes) {
        Ok((key, _)) => Ok((key, next)),
        Err(stuck) => Err(stuck),
    }
}
