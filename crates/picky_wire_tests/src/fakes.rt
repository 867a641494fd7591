//! Streams that remember what they were asked, and texts that the tests share.

ghost use Rattle.std.specs.Prelude.{None};
ghost use Rattle.std.proofs.Common.{lit<};
ghost use Rattle.picky_wire_base.specs.Numbers.{IsBytes};

use picky_wire::{Failed, SliceSource, Source};
use std::alloc::{AllocError, Global};
use std::io;
use std::io::{ErrorKind, Read, Write};

/// A source that doesn't know what it has left, and remembers the longest buffer that it was given.
#[derive(Drop)]
pub struct Asked<'a> {
    pub bytes: SliceSource<'a>,
    pub most: usize,
}

impl Source for Asked<'_> {
    ghost left = { λ s. s.bytes };

    ghost tells = { λ s. IsBytes s.bytes };

    ghost known = { λ _. None };

    ghost faults = { λ _. 0 };

    ghost knows = { λ s n _ same. Prim.cc same };

    ghost bytes = { λ s told. told };

    ghost in_range = { λ _. lit< tt };

    fn read(&mut self, buffer: &mut [u8]) -> Result<usize, Failed> {
        self.most = self.most.max(buffer.len());
        self.bytes.read(buffer)
    }

    fn known_left(&self) -> Option<usize> {
        None
    }
}

/// What a stream of std does with one call: it moves so many bytes at most, or fails.
#[derive(Clone, Copy)]
pub enum Turn {
    Moves(usize),
    Fails(ErrorKind),
}

/// A stream of std that takes a turn each call, and moves nothing once no turn is left. It remembers
/// how long what it was handed was, call by call.
#[derive(Drop)]
pub struct Turns<'a> {
    turns: &'a [Turn],
    pub handed: Vec<usize>,
}

impl<'a> Turns<'a> {
    /// A stream that takes these turns, and was handed nothing yet.
    pub fn new(alloc: Global, turns: &'a [Turn]) -> Turns<'a> {
        Turns {
            turns,
            handed: Vec::new(alloc),
        }
    }

    /// How many bytes a call that is handed so many may move.
    fn take(&mut self, handed: usize) -> io::Result<usize> {
        self.handed.push(handed)?;
        match self.turns.split_first() {
            Some((turn, later)) => {
                self.turns = later;
                match turn {
                    Turn::Moves(most) => Ok(*most),
                    Turn::Fails(kind) => Err(io::Error::from(*kind)),
                }
            }
            None => Ok(0),
        }
    }
}

/// A reader that gives these bytes by its turns.
#[derive(Drop)]
pub struct TurnReader<'a> {
    pub turns: Turns<'a>,
    pub rest: &'a [u8],
}

impl Read for TurnReader<'_> {
    fn read(&mut self, buffer: &mut [u8]) -> io::Result<usize> {
        let most = self.turns.take(buffer.len())?.min(buffer.len());
        let len = most.min(self.rest.len());
        let (front, rest) = self.rest.split_at(len);
        buffer[..len].copy_from_slice(front);
        self.rest = rest;
        Ok(len)
    }
}

/// A writer that takes bytes by its turns.
#[derive(Drop)]
pub struct TurnWriter<'a> {
    pub turns: Turns<'a>,
    pub written: Vec<u8>,
}

impl Write for TurnWriter<'_> {
    fn write(&mut self, piece: &[u8]) -> io::Result<usize> {
        let len = self.turns.take(piece.len())?.min(piece.len());
        self.written.extend_from_slice(&piece[..len])?;
        Ok(len)
    }

    fn flush(&mut self) -> io::Result<()> {
        Ok(())
    }
}

/// Bytes in hex, in lower case.
pub fn hex_of(alloc: Global, bytes: &[u8]) -> Result<String, AllocError> {
    let mut text = String::new(alloc);
    for byte in bytes {
        write!(text, "{byte:02x}")?;
    }
    Ok(text)
}

/// The bytes are these in hex.
pub fn is_hex(alloc: Global, bytes: &[u8], hex: &str) -> Result<bool, AllocError> {
    Ok(hex_of(alloc, bytes)?.as_str() == hex)
}
