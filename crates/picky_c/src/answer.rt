//! What a call answers, and what it leaves in the caller's buffer.

ghost use Rattle.std.specs.Prelude.{◌≡◌};
ghost use Rattle.picky_wire_base.specs.Outcome.{map_ok};
ghost use Rattle.picky_c.specs.Answer.{Comes, HandsAs};
ghost use Rattle.picky_c.specs.Number.{error_number};

use crate::error::PickyError;
use crate::number::number_of;

/// What a call answers.
#[repr(C)]
#[derive(Clone, Copy)]
pub struct PickyAnswer {
    /// 0, or the number of the reason why nothing was written.
    pub error: u32,
    /// How many bytes there are to hand out; 0 where there are none.
    pub len: usize,
}

/// Hands out what a call comes to.
pub fn hand(outcome: Result<Vec<u8>, PickyError>, out: &mut [u8]) -> PickyAnswer
    ensures { Comes (map_ok (λ bytes. bytes.items) outcome) result out.old out.new }
{
    match outcome {
        Ok(bytes) => hand_out(0, bytes.as_slice(), out),
        Err(e) => refuse(e),
    }
}

/// Answers the number of a reason.
pub fn refuse(e: PickyError) -> PickyAnswer
    ensures error { result.error ≡ error_number e }
    ensures len { result.len ≡ 0 }
{
    let error = number_of(&e);
    drop(e);
    PickyAnswer { error, len: 0 }
}

/// Puts the bytes at the front of the buffer, and a zero behind them, where it has room for both, and answers a number.
pub fn hand_out(error: u32, bytes: &[u8], out: &mut [u8]) -> PickyAnswer
    ensures { HandsAs error bytes.now result out.old out.new }
{
    let len = bytes.len();
    if len >= out.len() {
        let error = number_of(&PickyError::BufferTooSmall);
        return PickyAnswer { error, len };
    }
    let (front, back) = out.split_at_mut(len);
    front.copy_from_slice(bytes);
    back[0] = 0;
    PickyAnswer { error, len }
}
