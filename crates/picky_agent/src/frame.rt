//! Messages taken from a source.

ghost use Rattle.std.specs.Prelude.{◌≡◌, ◌≤◌, length, IfOk, IfSome};
ghost use Rattle.picky_agent_state.specs.Message.{message_limit};
ghost use Rattle.picky_agent.specs.Frame.{TakesMessage, Walks};
ghost use Rattle.picky_agent.specs.inner.Frame.{Bodies, Lens, first_missing as first_missing_of};
ghost use Rattle.picky_agent.specs.inner.Frame.{frame_error as frame_error_of};

use picky_wire::{Bytes, Source, WireError, fill, read_chunks};
use std::alloc::Global;

/// How many bytes a message has at most.
const MESSAGE_LIMIT: u32 = 262_144;

/// Why no message is taken.
#[derive(Clone, Copy, Debug, PartialEq, Eq)]
pub enum FrameError {
    /// The length is 0, or above 262,144.
    BadFrame,
    /// The stream ends inside the message.
    Cut,
    /// The source failed.
    ReadFault,
    /// Memory ran out.
    NoMemory,
}

/// The next message, where the stream doesn't end before it.
///
/// A `string` of RFC 4251, section 5, of 1 to 262,144 bytes. The buffer grows with what is read, 4,096 bytes at a time.
/// Refuses, in order: `ReadFault`, `Cut` and `BadFrame` of the length, `ReadFault` and `Cut` of the bytes.
pub fn take_message<S: Source>(alloc: Global, source: &mut S) -> Result<Option<Bytes>, FrameError>
    ensures { TakesMessage S.tells S.left S.faults result source.old source.new }
{
    match take_len(source) {
        Ok(Some(len)) => match take_body(alloc, source, len) {
            Ok(message) => Ok(Some(message)),
            Err(e) => Err(e),
        },
        Ok(None) => Ok(None),
        Err(e) => Err(e),
    }
}

/// The length of the next message, where the stream doesn't end before it. Refuses, in order: `ReadFault`, `Cut`, `BadFrame`.
fn take_len<S: Source>(source: &mut S) -> Result<Option<u32>, FrameError>
    ensures lens { S.tells source.old → Lens result (S.left source.old) (S.left source.new) }
    ensures in_range { IfOk result (λ found. IfSome found (λ len. (1 ≤ len) × (len ≤ message_limit))) }
    ensures walks { Walks S.tells S.left S.faults result source.old source.new }
{
    match take_number(source) {
        Ok(Some(len)) => {
            if len == 0 || len > MESSAGE_LIMIT {
                return Err(FrameError::BadFrame);
            }
            Ok(Some(len))
        }
        Ok(None) => Ok(None),
        Err(e) => Err(e),
    }
}

/// A number of four bytes, where the stream doesn't end before it. Refuses, in order: `ReadFault`, `Cut`.
fn take_number<S: Source>(source: &mut S) -> Result<Option<u32>, FrameError>
    ensures lens { S.tells source.old → Lens result (S.left source.old) (S.left source.new) }
    ensures walks { Walks S.tells S.left S.faults result source.old source.new }
{
    let mut first = [0u8; 1];
    match fill(source, &mut first) {
        Ok(()) => {}
        Err(e) => return first_missing(e),
    }
    let mut rest = [0u8; 3];
    match fill(source, &mut rest) {
        Ok(()) => {}
        Err(e) => return Err(frame_error(e)),
    }
    let [a] = first;
    let [b, c, d] = rest;
    Ok(Some(u32::from_be_bytes([a, b, c, d])))
}

/// The bytes of a message of this length. Refuses, in order: `ReadFault`, `Cut`.
fn take_body<S: Source>(alloc: Global, source: &mut S, len: u32) -> Result<Bytes, FrameError>
    requires { len ≤ message_limit }
    ensures bodies { S.tells source.old → Bodies len result (S.left source.old) (S.left source.new) }
    ensures len { IfOk result (λ bytes. length bytes ≡ len) }
    ensures walks { Walks S.tells S.left S.faults result source.old source.new }
{
    match read_chunks(alloc, source, len as usize) {
        Ok(vec) => Ok(Bytes::from_vec(vec)),
        Err(e) => Err(frame_error(e)),
    }
}

/// What a failed read of the first byte says.
fn first_missing(e: WireError) -> Result<Option<u32>, FrameError>
    ensures { result ≡ first_missing_of e }
{
    match e {
        WireError::ReadFault => Err(FrameError::ReadFault),
        WireError::NoMemory => Err(FrameError::NoMemory),
        WireError::UnexpectedEnd
        | WireError::WriteFault
        | WireError::InvalidUtf8
        | WireError::TooLong => Ok(None),
    }
}

/// What a failed read says of a message that was begun.
fn frame_error(e: WireError) -> FrameError
    ensures { result ≡ frame_error_of e }
{
    match e {
        WireError::ReadFault => FrameError::ReadFault,
        WireError::NoMemory => FrameError::NoMemory,
        WireError::UnexpectedEnd
        | WireError::WriteFault
        | WireError::InvalidUtf8
        | WireError::TooLong => FrameError::Cut,
    }
}
