//! The operations of questions, and the numbers that stand for them, for a kind of Argon2 and for a signature algorithm.

ghost use Rattle.std.specs.Prelude.{◌≡◌};
ghost use Rattle.picky_wire_base.specs.Table.{find_entry};
ghost use Rattle.picky_ask.specs.OperationNumber.{operation_number as operation_number_of, flavour_number as flavour_number_of};
ghost use Rattle.picky_ask.specs.Operation.{operations, flavours};
ghost use Rattle.picky_ask.specs.AlgorithmNumber.{kind_number as kind_number_of, hash_number as hash_number_of};
ghost use Rattle.picky_ask.specs.Algorithm.{kinds, hashes};

use picky_keys::HashAlgorithm;
use picky_suite::Flavour;

/// What a question asks for.
#[derive(Clone, Copy)]
pub(crate) enum Operation {
    Bcrypt,
    Argon2,
    CbcSeal,
    CbcOpen,
    Ctr,
    Sign,
    Verify,
}

/// A kind of signature algorithm.
#[derive(Clone, Copy)]
pub(crate) enum AlgorithmKind {
    Rsa,
    Ecdsa,
    Ed25519,
}

/// The operation with this number, where one has it.
#[tactic(auto, unfolding(crate::specs::Operation::operations))]
pub(crate) fn operation_of(number: u8) -> Option<Operation>
    ensures { result ≡ find_entry operations number }
{
    match number {
        1 => Some(Operation::Bcrypt),
        2 => Some(Operation::Argon2),
        3 => Some(Operation::CbcSeal),
        4 => Some(Operation::CbcOpen),
        5 => Some(Operation::Ctr),
        6 => Some(Operation::Sign),
        7 => Some(Operation::Verify),
        _ => None,
    }
}

/// The operation's number.
pub(crate) fn operation_number(operation: Operation) -> u8
    ensures { result ≡ operation_number_of operation }
{
    match operation {
        Operation::Bcrypt => 1,
        Operation::Argon2 => 2,
        Operation::CbcSeal => 3,
        Operation::CbcOpen => 4,
        Operation::Ctr => 5,
        Operation::Sign => 6,
        Operation::Verify => 7,
    }
}

/// The kind of Argon2 with this number, where one has it.
#[tactic(auto, unfolding(crate::specs::Operation::flavours))]
pub(crate) fn flavour_of(number: u8) -> Option<Flavour>
    ensures { result ≡ find_entry flavours number }
{
    match number {
        0 => Some(Flavour::Argon2d),
        1 => Some(Flavour::Argon2i),
        2 => Some(Flavour::Argon2id),
        _ => None,
    }
}

/// The number of a kind of Argon2.
pub(crate) fn flavour_number(flavour: Flavour) -> u8
    ensures { result ≡ flavour_number_of flavour }
{
    match flavour {
        Flavour::Argon2d => 0,
        Flavour::Argon2i => 1,
        Flavour::Argon2id => 2,
    }
}

/// The kind of signature algorithm with this number, where one has it.
#[tactic(auto, unfolding(crate::specs::Algorithm::kinds))]
pub(crate) fn kind_of(number: u8) -> Option<AlgorithmKind>
    ensures { result ≡ find_entry kinds number }
{
    match number {
        1 => Some(AlgorithmKind::Rsa),
        2 => Some(AlgorithmKind::Ecdsa),
        3 => Some(AlgorithmKind::Ed25519),
        _ => None,
    }
}

/// The number of a kind of signature algorithm.
pub(crate) fn kind_number(kind: AlgorithmKind) -> u8
    ensures { result ≡ kind_number_of kind }
{
    match kind {
        AlgorithmKind::Rsa => 1,
        AlgorithmKind::Ecdsa => 2,
        AlgorithmKind::Ed25519 => 3,
    }
}

/// The digest with this number, where one has it.
#[tactic(auto, unfolding(crate::specs::Algorithm::hashes))]
pub(crate) fn hash_of(number: u8) -> Option<HashAlgorithm>
    ensures { result ≡ find_entry hashes number }
{
    match number {
        1 => Some(HashAlgorithm::MD5),
        2 => Some(HashAlgorithm::SHA1),
        3 => Some(HashAlgorithm::SHA2_224),
        4 => Some(HashAlgorithm::SHA2_256),
        5 => Some(HashAlgorithm::SHA2_384),
        6 => Some(HashAlgorithm::SHA2_512),
        _ => None,
    }
}

/// The digest's number.
pub(crate) fn hash_number(hash: HashAlgorithm) -> u8
    ensures { result ≡ hash_number_of hash }
{
    match hash {
        HashAlgorithm::MD5 => 1,
        HashAlgorithm::SHA1 => 2,
        HashAlgorithm::SHA2_224 => 3,
        HashAlgorithm::SHA2_256 => 4,
        HashAlgorithm::SHA2_384 => 5,
        HashAlgorithm::SHA2_512 => 6,
    }
}
