//! A copy is made where there is memory, and is equal to its value.

use crate::reading_and_writing::private_rows;
use picky_key_rows::{unsealed, zero_key};
use picky_key_text::Key;
use picky_keys::{EcCurve, PublicKey, SshBasePublicKey};
use picky_kv::{
    Base64PpkValue, HexPpkValue, PpkArgon2MemoryValue, PpkArgon2ParallelismValue,
    PpkArgon2PassesValue, PpkCommentValue,
};
use picky_sshkey::{Kdf, Pem, SshBasePrivateKey};
use picky_wire::{Bytes, Mpint, Text, TryClone};
use std::alloc::{AllocGlobal, Global};
use std::mem::ManuallyDrop;
use std::process::Abort;
use std::test::Fail;

fn copies<T: TryClone + Drop + PartialEq>(
    rt: &(impl Abort + AllocGlobal),
    value: T,
) -> Result<(), Fail> {
    let value = ManuallyDrop::new(value);
    let copy = ManuallyDrop::new(value.try_clone(rt.alloc())?);
    assert!(rt; *copy == *value);
    Ok(())
}

#[test]
fn copies_bytes(rt: HostRuntime) -> Result<(), Fail> {
    let bytes = ManuallyDrop::new(Bytes::new(rt.alloc(), b"ab")?);
    let copy = ManuallyDrop::new(bytes.try_clone(rt.alloc())?);
    let vec = ManuallyDrop::into_inner(bytes).into_vec();
    let made = ManuallyDrop::new(Bytes::from_vec(vec));
    assert!(rt; *made == *copy);
    Ok(())
}

#[test]
fn copies_a_text(rt: HostRuntime) -> Result<(), Fail> {
    let text = ManuallyDrop::new(Text::new(rt.alloc(), "ab")?);
    let copy = ManuallyDrop::new(text.try_clone(rt.alloc())?);
    let string = ManuallyDrop::into_inner(text).into_string();
    let made = ManuallyDrop::new(Text::from_string(string));
    assert!(rt; *made == *copy);
    Ok(())
}

#[test]
fn copies_a_number(rt: HostRuntime) -> Result<(), Fail> {
    let number = ManuallyDrop::new(Mpint::from_vec(Vec::from_slice(rt.alloc(), b"\0\x01")?)?);
    let copy = ManuallyDrop::new(number.try_clone(rt.alloc())?);
    assert!(rt; copy.bytes() == b"\x01".as_slice());
    Ok(())
}

#[test]
fn copies_each_kind_of_key(rt: HostRuntime) -> Result<(), Fail> {
    let alloc = rt.alloc();
    let e = ManuallyDrop::new(Mpint::from_be(alloc, &[3])?);
    let n = Mpint::from_be(alloc, &[129])?;
    let e = ManuallyDrop::into_inner(e);
    copies(&rt, PublicKey::Rsa { e, n })?;
    let point = Bytes::new(alloc, &[4])?;
    let curve = EcCurve::NistP256;
    copies(&rt, PublicKey::Ec { curve, point })?;
    copies(&rt, PublicKey::Ed { key: [7; 32] })?;
    copies(&rt, Key::Public(SshBasePublicKey::Ed { key: [7; 32] }))
}

fn base_key_of(alloc: Global, text: &str) -> Result<SshBasePrivateKey, Fail> {
    let key = ManuallyDrop::new(unsealed(alloc, text)?);
    Ok(key.base_key().try_clone(alloc)?)
}

#[test]
fn copies_each_kind_of_private_key(rt: HostRuntime) -> Result<(), Fail> {
    for row in private_rows() {
        copies(&rt, unsealed(rt.alloc(), row.text)?)?;
        copies(&rt, base_key_of(rt.alloc(), row.text)?)?;
    }
    copies(&rt, zero_key(rt.alloc(), Some("password"))?)
}

#[test]
fn copies_the_parts_of_an_envelope(rt: HostRuntime) -> Result<(), Fail> {
    copies(&rt, Pem::new(rt.alloc(), b"content")?)?;
    copies(&rt, Kdf::plain(rt.alloc())?)?;
    let Kdf { name, option } = Kdf::plain(rt.alloc())?;
    drop(name);
    copies(&rt, option)
}

#[test]
fn copies_each_value_of_a_ppk_line(rt: HostRuntime) -> Result<(), Fail> {
    copies(
        &rt,
        PpkCommentValue::from(Text::new(rt.alloc(), "of a test")?),
    )?;
    copies(&rt, Base64PpkValue::from(Bytes::new(rt.alloc(), b"bytes")?))?;
    copies(&rt, HexPpkValue::from(Bytes::new(rt.alloc(), b"bytes")?))?;
    copies(&rt, PpkArgon2MemoryValue::from(7))?;
    copies(&rt, PpkArgon2PassesValue::from(8))?;
    copies(&rt, PpkArgon2ParallelismValue::from(9))
}
