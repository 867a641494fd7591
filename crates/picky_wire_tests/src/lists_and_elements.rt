//! Lists keep their order, and elements are read back.

use crate::keys::{KEY_ROWS, key_of};
use picky_keys::SshBasePublicKey;
use picky_wire::{
    CodecError, List, MemorySink, MemorySource, SliceSource, SshComplexTypeDecode,
    SshComplexTypeEncode, SshElement, SshLayout, Text, Timestamp, TryClone, WireError, decode_list,
    encode_list, laws,
};
use std::alloc::Global;
use std::mem::ManuallyDrop;
use std::test::Fail;

// date -u -d 2026-12-01 +%s; and of the day before, which is less: date -u -d 2026-11-30 +%s
#[test]
fn lists_keep_their_order(rt: HostRuntime) -> Result<(), Fail> {
    let alloc = rt.alloc();
    let moment = Timestamp::from(1796083200).try_clone(alloc)?;
    assert!(rt; moment.secs() == 1796083200);
    assert!(rt; Timestamp(1795996800) < moment);
    let mut moments = List::new(alloc);
    assert!(rt; moments.push(moment).is_ok());
    let copy = List::from_vec(moments.try_clone(alloc)?.into_vec());
    assert!(rt; copy == moments);
    assert!(rt; copy.as_slice() == [Timestamp(1796083200)].as_slice());
    Ok(())
}

// What an element writes is read back, asked as a list's codec asks it.
fn is_read_back<T: SshElement + PartialEq>(
    alloc: Global,
    value: &T,
    len: u64,
) -> Result<bool, <T as SshComplexTypeDecode>::Error> {
    let mut sink = match MemorySink::new(alloc, 100, 3, &[]) {
        Ok(sink) => ManuallyDrop::new(sink),
        Err(_) => return Err(T::refusal(WireError::NoMemory)),
    };
    if value.encode(&mut *sink).is_err() {
        return Err(T::refusal(WireError::WriteFault));
    }
    let mut source = SliceSource::new(sink.written());
    match T::decode(alloc, &mut source) {
        Ok(read) => Ok(read == *value && value.spelling_len() == len && source.rest().is_empty()),
        Err(e) => Err(e),
    }
}

// The bytes of a uint64 and of a string (RFC 4251, section 5):
//     python3 -c 'from struct import pack; print(len(pack(">Q", 258)), len(pack(">I2s", 2, b"ab")))'
#[test]
fn elements_are_read_back(rt: HostRuntime) -> Result<(), Fail> {
    let alloc = rt.alloc();
    assert!(rt; is_read_back(alloc, &Timestamp(258), 8)?);
    assert!(rt; is_read_back(alloc, &Text::new(alloc, "ab")?, 6)?);
    assert!(rt; Text::no_memory(&Text::refusal(WireError::NoMemory)));
    assert!(rt; !Timestamp::no_memory(&Timestamp::refusal(WireError::TooLong)));
    assert!(rt; !WireError::from_wire(WireError::ReadFault).is_no_memory());
    assert!(rt; Text::write_refusal(WireError::TooLong) == WireError::TooLong);
    assert!(rt; Timestamp::write_refusal(WireError::WriteFault) == WireError::WriteFault);
    laws::fields_take_the_standards_pieces::<MemorySource>();
    laws::elements_are_read_one_way::<Timestamp>();
    laws::elements_are_read_back::<Text>();
    laws::blocks_are_refused_at_one_place::<Text>();
    laws::no_piece_is_a_front_of_another::<Timestamp>();
    Ok(())
}

/// A list of the line's key twice.
fn twice(alloc: Global, line: &str) -> Result<List<SshBasePublicKey>, Fail> {
    let key = ManuallyDrop::new(key_of(alloc, line)?);
    let mut keys = ManuallyDrop::new(List::new(alloc));
    keys.push(key.try_clone(alloc)?)?;
    keys.push(ManuallyDrop::into_inner(key))?;
    Ok(ManuallyDrop::into_inner(keys))
}

/// The list is read of the bytes.
fn is_list_of(alloc: Global, bytes: &[u8], keys: &List<SshBasePublicKey>) -> Result<bool, Fail> {
    let mut source = SliceSource::new(bytes);
    let again: List<SshBasePublicKey> = decode_list(alloc, &mut source)?;
    Ok(again == *keys && source.rest().is_empty())
}

/// The list is written and read back.
fn is_list(alloc: Global, keys: &List<SshBasePublicKey>) -> Result<bool, Fail> {
    let mut sink = ManuallyDrop::new(MemorySink::new(alloc, 9999, 100, &[])?);
    encode_list(keys.as_slice(), &mut *sink)?;
    is_list_of(alloc, sink.written(), keys)
}

#[test]
fn makes_lists_of_keys(rt: HostRuntime) -> Result<(), Fail> {
    for row in &KEY_ROWS {
        let keys = ManuallyDrop::new(twice(rt.alloc(), row.line)?);
        assert!(rt; is_list(rt.alloc(), &keys)?, "{}", row.name);
    }
    Ok(())
}
