//! The generator that sample keys are drawn from.

ghost use Rattle.std.specs.Prelude.{◌≡◌, ◌++◌, ◌+◌, IfOk, OnOk};
ghost use Rattle.picky_convert.specs.Generator.{state_after, byte_of, generated, next};

use std::alloc::{AllocError, Global};

const MULTIPLIER: u64 = 6364136223846793005;

const INCREMENT: u64 = 1442695040888963407;

/// A state, from which the next bytes follow.
#[derive(Drop)]
pub struct Generator {
    pub state: u64,
}

impl Generator {
    /// What the key with a number is drawn from.
    pub fn of_key(number: u16) -> Generator
        ensures { result.state ≡ number + 1 }
    {
        Generator {
            state: u64::from(number) + 1,
        }
    }

    /// The next byte.
    fn byte(&mut self) -> u8
        ensures state { self.new.state ≡ next self.old.state }
        ensures byte { result ≡ byte_of (next self.old.state) }
    {
        self.state = self.state.wrapping_mul(MULTIPLIER).wrapping_add(INCREMENT);
        (self.state >> 56) as u8
    }

    /// The next bytes, behind what there is. Refuses: want of memory.
    pub fn append(&mut self, bytes: &mut Vec<u8>, len: usize) -> Result<(), AllocError>
        ensures bytes { OnOk result (bytes.new.items ≡ bytes.old.items ++ generated len self.old.state) }
        ensures state { OnOk result (self.new.state ≡ state_after len self.old.state) }
    {
        'bytes: for at in 0..len {
            let byte = self.byte();
            bytes.push(byte)?;
        }
        Ok(())
    }

    /// The next bytes. Refuses: want of memory.
    pub fn bytes(&mut self, alloc: Global, len: usize) -> Result<Vec<u8>, AllocError>
        ensures bytes { IfOk result (λ bytes. bytes.items ≡ generated len self.old.state) }
        ensures state { OnOk result (self.new.state ≡ state_after len self.old.state) }
    {
        let mut bytes = Vec::new(alloc);
        self.append(&mut bytes, len)?;
        Ok(bytes)
    }

    /// The next 32 bytes.
    pub fn array(&mut self) -> [u8; 32]
        ensures bytes { result ≡ generated 32 self.old.state }
        ensures state { self.new.state ≡ state_after 32 self.old.state }
    {
        let mut bytes = [0; 32];
        'bytes: for at in 0..32 {
            bytes[at] = self.byte();
        }
        bytes
    }
}
