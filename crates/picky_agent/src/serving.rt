//! The messages of a stream, each answered in turn.

ghost use Rattle.std.specs.Prelude.{◌≡◌, ◌≢◌, ◌↔◌, ℕ, List, Err, OnOk};
ghost use Rattle.picky_keys.specs.declared.public_key.PublicKey.{PublicKey};
ghost use Rattle.picky_keys.specs.declared.algorithm.SignatureAlgorithm.{SignatureAlgorithm as Algorithm};
ghost use Rattle.picky_wire_base.specs.Wire.{string_of};
ghost use Rattle.picky_wire.specs.Puts.{Puts};
ghost use Rattle.picky_suite.specs.Asked.{IsAskedAtMost};
ghost use Rattle.picky_agent.specs.Ending.{Ending, EndsAs, HasNoSign, Tells};
ghost use Rattle.picky_agent.specs.Served.{Served, Serves, scene};
ghost use Rattle.picky_agent.specs.inner.Turn.{frame_status as frame_status_of, taken_in};

use crate::frame::{FrameError, take_message};
use crate::status::AgentStatus;
use picky_agent_state::Agent;
use picky_suite::Signer;
use picky_wire::{Bytes, NoMemory, Piece, Sink, Source, write_piece};
use std::alloc::Global;

/// Answers the messages that the source gives, each in a `string` of RFC 4251, section 5, of 1 to 262,144 bytes, until it ends.
///
/// Each reply is written, as such a string, before the next message is read. The signer may be asked for signatures; what else is
/// kept of a message is in the agent. An end that isn't `Done` says why no more is answered.
pub fn serve<G: Signer, I: Source, O: Sink>(
    alloc: Global,
    agent: &mut Agent,
    signer: &mut G,
    source: &mut I,
    out: &mut O,
) -> AgentStatus
    ensures served { Served (G.signs signer.old) (I.tells source.old) (O.tells out.old) result
        (scene agent.old (G.faults signer.old) (I.left source.old) (I.faults source.old) (O.written out.old) (O.faults out.old))
        (scene agent.new (G.faults signer.new) (I.left source.new) (I.faults source.new) (O.written out.new) (O.faults out.new)) }

    // A stream that begins with these messages and ends so is told by the status to end so.
    ensures ending { I.tells source.old → (messages : List (List ℕ)) (ending : Ending) → EndsAs (I.left source.old) messages ending
        → Tells result ending }

    // A stream without a request for a signature leaves the signer untouched.
    ensures unasked { I.tells source.old → HasNoSign (I.left source.old) → signer.new ≡ signer.old }

    // Which signatures are good stays; a source and a sink that tell go on telling.
    ensures signs { (k : PublicKey) (a : Algorithm) (m s : List ℕ) → G.signs signer.new k a m s ↔ G.signs signer.old k a m s }
    ensures source_tells { I.tells source.old → I.tells source.new }
    ensures out_tells { O.tells out.old → O.tells out.new }
{
    'messages: for answered in 0..u64::MAX {
        match serve_one(alloc, agent, signer, source, out) {
            Ok(()) => {}
            Err(status) => return status,
        }
    }
    AgentStatus::TooMany
}

/// Answers the next message. Ends, in order: as `take_message`, or with `Done`; `NoMemory`; `WriteFault`.
fn serve_one<G: Signer, I: Source, O: Sink>(
    alloc: Global,
    agent: &mut Agent,
    signer: &mut G,
    source: &mut I,
    out: &mut O,
) -> Result<(), AgentStatus>
    ensures serves { Serves (G.signs signer.old) (I.tells source.old) (O.tells out.old) result (taken_in result)
        (scene agent.old (G.faults signer.old) (I.left source.old) (I.faults source.old) (O.written out.old) (O.faults out.old))
        (scene agent.new (G.faults signer.new) (I.left source.new) (I.faults source.new) (O.written out.new) (O.faults out.new)) }
    ensures few { result ≢ Err AgentStatus.TooMany }
    ensures unasked { I.tells source.old → HasNoSign (I.left source.old) → signer.new ≡ signer.old }
    ensures goes_on { I.tells source.old → HasNoSign (I.left source.old) → OnOk result (HasNoSign (I.left source.new)) }
    ensures signs { (k : PublicKey) (a : Algorithm) (m s : List ℕ) → G.signs signer.new k a m s ↔ G.signs signer.old k a m s }
    ensures source_tells { I.tells source.old → I.tells source.new }
    ensures out_tells { O.tells out.old → O.tells out.new }
    ensures asked { IsAskedAtMost 1 G.calls signer.old signer.new }
{
    match take_message(alloc, source) {
        Ok(Some(message)) => match agent.answer(signer, message.as_slice()) {
            Ok(reply) => put(out, &reply),
            Err(NoMemory) => Err(AgentStatus::NoMemory),
        },
        Ok(None) => Err(AgentStatus::Done),
        Err(e) => Err(frame_status(e)),
    }
}

/// Writes a reply, or a prefix of it up to a fault. Refuses: `WriteFault`.
fn put<O: Sink>(out: &mut O, reply: &Bytes) -> Result<(), AgentStatus>
    ensures { Puts O.tells O.written O.faults AgentStatus.WriteFault (string_of reply.now) result out.old out.new }
{
    match write_piece(out, &Piece::bytes(reply)) {
        Ok(()) => Ok(()),
        Err(_) => Err(AgentStatus::WriteFault),
    }
}

/// How serving ends where no message is taken.
fn frame_status(e: FrameError) -> AgentStatus
    ensures { result ≡ frame_status_of e }
{
    match e {
        FrameError::BadFrame => AgentStatus::BadFrame,
        FrameError::Cut => AgentStatus::Cut,
        FrameError::ReadFault => AgentStatus::ReadFault,
        FrameError::NoMemory => AgentStatus::NoMemory,
    }
}
