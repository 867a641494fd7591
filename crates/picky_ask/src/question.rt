//! Questions, as values and as bytes, and their answers.

ghost use Rattle.std.specs.Prelude.{◌≡◌, ◌^◌, ◌<◌, ◌≤◌, ◌++◌, length, IfOk, OnOk, IsErrOf};
ghost use Rattle.std.specs.List.{concat};
ghost use Rattle.picky_wire_base.specs.Wire.{string_of};
ghost use Rattle.std.specs.Int.{w8, to_be_bytes};
ghost use Rattle.picky_ask.specs.Head.{head_of, IsHead, two_strings as two_strings_of};
ghost use Rattle.picky_ask.specs.OperationNumber.{operation_number as operation_number_of};
ghost use Rattle.picky_ask.specs.Question.{question_of, IsQuestion};
ghost use Rattle.picky_ask.specs.AlgorithmNumber.{algorithm_kind as algorithm_kind_of, algorithm_hash as algorithm_hash_of};

use crate::operation::{
    AlgorithmKind, Operation, flavour_number, hash_number, kind_number, operation_number,
};
use picky_keys::SignatureAlgorithm;
use picky_suite::Flavour;
use picky_wire::{Bytes, MAX_LEN, NoMemory, Piece, SizeError, push_pieces};
use std::alloc::Global;

/// An operation, and all that it is given but the text.
#[derive(Debug, Drop, PartialEq, Eq)]
pub enum Head {
    /// So many bytes by OpenSSH's bcrypt-pbkdf; the text is the passphrase.
    Bcrypt {
        len: u32,
        rounds: u32,
        salt: Bytes,
    },
    /// The 80 bytes by Argon2 (RFC 9106), with `memory` in KiB; the text is the passphrase.
    Argon2 {
        flavour: Flavour,
        memory: u32,
        passes: u32,
        parallelism: u32,
        salt: Bytes,
    },
    /// The text sealed by AES in CBC mode.
    CbcSeal {
        key: Bytes,
        iv: Bytes,
    },
    /// The text opened by AES in CBC mode.
    CbcOpen {
        key: Bytes,
        iv: Bytes,
    },
    /// The text sealed or opened by AES in CTR mode, whose first counter is the iv.
    Ctr {
        key: Bytes,
        iv: Bytes,
    },
    /// A signature of the text, good under the public key of this blob (RFC 4253, section 6.6).
    Sign {
        algorithm: SignatureAlgorithm,
        key: Bytes,
    },
    /// Whether this is a good signature of the text, under the public key of this blob.
    Verify {
        key: Bytes,
        signature: Bytes,
    },
}

/// A question: a head, and a text.
#[derive(Debug, Drop, PartialEq, Eq)]
pub struct Question {
    pub head: Head,
    pub text: Bytes,
}

/// A question and its answer.
#[derive(Debug, Drop, PartialEq, Eq)]
pub struct Entry {
    pub question: Question,
    pub answer: Bytes,
}

impl Question {
    /// The question's bytes, which are the front of its entry in a table: its head and its text, each as a string.
    ///
    /// Refuses, in order: `TooLong`, where the head has 2^32 bytes or more.
    #[tactic(auto, unfolding(crate::specs::Question::question_of))]
    pub fn to_bytes(&self, alloc: Global) -> Result<Vec<u8>, SizeError>
        ensures ok { IfOk result (λ bytes. bytes.items ≡ question_of self.now) }
        ensures whole { OnOk result (IsQuestion self.now) }
        ensures too_long_only_if_long { IsErrOf result SizeError.TooLong → 2 ^ 32 ≤ length (head_of self.now.head) }
    {
        let head = match head_bytes(alloc, &self.head) {
            Ok(head) => head,
            Err(NoMemory) => return Err(SizeError::NoMemory),
        };
        if head.len() > MAX_LEN {
            return Err(SizeError::TooLong);
        }
        strings(alloc, head.as_slice(), self.text.as_slice())
    }
}

/// Two strings, one after the other. Refuses: `NoMemory`.
fn strings<'a>(alloc: Global, first: &'a [u8], second: &'a [u8]) -> Result<Vec<u8>, SizeError>
    requires first { length first.now < 2 ^ 32 }
    requires second { length second.now < 2 ^ 32 }
    ensures ok { IfOk result (λ bytes. bytes.items ≡ string_of first.now ++ string_of second.now) }
    ensures only { IsErrOf result SizeError.TooLong → ⊥ }
{
    let mut bytes = Vec::new(alloc);
    match push_pieces(&mut bytes, &[Piece::string(first), Piece::string(second)]) {
        Ok(()) => Ok(bytes),
        Err(_) => Err(SizeError::NoMemory),
    }
}

/// The head's one spelling. Refuses: `NoMemory`.
fn head_bytes(alloc: Global, head: &Head) -> Result<Vec<u8>, NoMemory>
    ensures ok { IfOk result (λ bytes. bytes.items ≡ head_of head.now) }
    ensures keeps { OnOk result (IsHead head.now) }
{
    let mut bytes = Vec::new(alloc);
    match push_pieces(&mut bytes, &pieces(head)) {
        Ok(()) => Ok(bytes),
        Err(_) => Err(NoMemory),
    }
}

/// The fields of the head's one spelling.
#[tactic(auto, unfolding(crate::specs::Head::head_of))]
fn pieces(head: &Head) -> [Piece<'_>; 6]
    ensures spelled { concat result ≡ head_of head.now }
    ensures keeps { IsHead head.now }
{
    match head {
        Head::Bcrypt { len, rounds, salt } => [
            operation_piece(Operation::Bcrypt),
            Piece::uint32(*len),
            Piece::uint32(*rounds),
            Piece::bytes(salt),
            Piece::none(),
            Piece::none(),
        ],
        Head::Argon2 {
            flavour,
            memory,
            passes,
            parallelism,
            salt,
        } => [
            operation_piece(Operation::Argon2),
            Piece::byte(flavour_number(*flavour)),
            Piece::uint32(*memory),
            Piece::uint32(*passes),
            Piece::uint32(*parallelism),
            Piece::bytes(salt),
        ],
        Head::CbcSeal { key, iv } => two_strings(Operation::CbcSeal, key, iv),
        Head::CbcOpen { key, iv } => two_strings(Operation::CbcOpen, key, iv),
        Head::Ctr { key, iv } => two_strings(Operation::Ctr, key, iv),
        Head::Sign { algorithm, key } => [
            operation_piece(Operation::Sign),
            Piece::byte(kind_number(algorithm_kind(*algorithm))),
            Piece::byte(algorithm_hash(*algorithm)),
            Piece::bytes(key),
            Piece::none(),
            Piece::none(),
        ],
        Head::Verify { key, signature } => two_strings(Operation::Verify, key, signature),
    }
}

/// Two strings behind an operation.
fn two_strings<'a>(operation: Operation, first: &'a Bytes, second: &'a Bytes) -> [Piece<'a>; 6]
    ensures spelled { concat result ≡ two_strings_of (operation_number_of operation) first.now second.now }
    ensures short { (length first.now < 2 ^ 32) × (length second.now < 2 ^ 32) }
{
    [
        operation_piece(operation),
        Piece::bytes(first),
        Piece::bytes(second),
        Piece::none(),
        Piece::none(),
        Piece::none(),
    ]
}

/// An operation's number, as a byte.
fn operation_piece<'a>(operation: Operation) -> Piece<'a>
    ensures { result ≡ to_be_bytes w8 (operation_number_of operation) }
{
    Piece::byte(operation_number(operation))
}

/// Whether an algorithm is RSA's, ECDSA's or Ed25519.
fn algorithm_kind(algorithm: SignatureAlgorithm) -> AlgorithmKind
    ensures { result ≡ algorithm_kind_of algorithm }
{
    match algorithm {
        SignatureAlgorithm::RsaPkcs1v15(_) => AlgorithmKind::Rsa,
        SignatureAlgorithm::Ecdsa(_) => AlgorithmKind::Ecdsa,
        SignatureAlgorithm::Ed25519 => AlgorithmKind::Ed25519,
    }
}

/// The number of an algorithm's digest; 0 of Ed25519's, which is fixed.
fn algorithm_hash(algorithm: SignatureAlgorithm) -> u8
    ensures { result ≡ algorithm_hash_of algorithm }
{
    match algorithm {
        SignatureAlgorithm::RsaPkcs1v15(hash) | SignatureAlgorithm::Ecdsa(hash) => hash_number(
            hash,
        ),
        SignatureAlgorithm::Ed25519 => 0,
    }
}
