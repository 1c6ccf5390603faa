// Rows in their outer form, written and read, and maps with keys of bytes.
use slon_base::{ByteMap, KeepFault, RowFault, RowIn, RowOut, Text};
use std::alloc::Global;
use std::test::Fail;
use test_words::expect;
use txn_core::BadSnapshot;

/// A number, a byte, a count and a text.
const SPELLED: &[u8] = b"\0\0\0\0\0\0\0\x41\x07\0\0\x01\x02\0\0\0\x03a\xc3\xb1";

/// Writes the parts.
fn spell(out: &mut RowOut) -> Result<(), Fail> {
    out.u64(65)?;
    out.byte(7)?;
    out.count(258)?;
    Ok(out.text("añ".as_bytes())?)
}

#[test]
fn rows_are_spelled(rt: HostRuntime) -> Result<(), Fail> {
    let mut out = RowOut::new(rt.alloc());
    spell(&mut out)?;
    assert!(rt; out.finish().as_slice() == SPELLED);
    Ok(())
}

/// Reads the number, the byte and the count.
fn numbers(row: &mut RowIn) -> Result<(u64, u8, u32), RowFault> {
    Ok((row.u64()?, row.byte()?, row.count()?))
}

#[test]
fn rows_are_read(rt: HostRuntime) -> Result<(), Fail> {
    let mut row = RowIn::new(SPELLED);
    assert!(rt; numbers(&mut row)? == (65, 7, 258));
    assert!(rt; row.end() == Err(RowFault::Trailing));
    let text = row.text(rt.alloc())?;
    assert!(rt; text.as_str() == "añ");
    assert!(rt; row.end() == Ok(()));
    Ok(())
}

/// Bytes that begin with no number, and the faults of a number and of a text that are read of them.
const FAULTS: &[(&[u8], RowFault, RowFault)] = &[
    (b"", RowFault::Short, RowFault::Short),
    (b"\0\0\0\x05", RowFault::Short, RowFault::Short),
    (
        b"\xff\xff\xff\xff\0\0\0\0",
        RowFault::NotCanonical,
        RowFault::Short,
    ),
    (
        b"\x80\0\0\0\0\0\0\0\0",
        RowFault::NotCanonical,
        RowFault::Short,
    ),
];

#[test]
fn faults_are_told(rt: HostRuntime) -> Result<(), Fail> {
    for (bytes, number, text) in FAULTS {
        let mut row = RowIn::new(bytes);
        assert!(rt; row.u64().err() == Some(*number), "{bytes:?}");
        assert!(rt; row.text(rt.alloc()).err() == Some(*text), "{bytes:?}");
    }
    Ok(())
}

/// A row whose text is no UTF-8 is still where it was.
#[test]
fn bad_texts_are_told(rt: HostRuntime) -> Result<(), Fail> {
    let mut row = RowIn::new(b"\0\0\0\x01\xff");
    assert!(rt; row.text(rt.alloc()).err() == Some(RowFault::NotCanonical));
    assert!(rt; row.count() == Ok(1));
    Ok(())
}

#[test]
fn faults_have_numbers(rt: HostRuntime) -> Result<(), Fail> {
    let table = [
        (KeepFault::Failed.number(), 10),
        (KeepFault::NoMemory.number(), 11),
        (RowFault::Short.number(), 1),
        (RowFault::Trailing.number(), 2),
        (RowFault::NotCanonical.number(), 3),
        (RowFault::NoMemory.number(), 11),
        (BadSnapshot::NotCanonical.number(), 20),
        (BadSnapshot::NoMemory.number(), 11),
    ];
    for (number, wanted) in table {
        assert!(rt; number == wanted, "{number}, not {wanted}");
    }
    Ok(())
}

/// Pairs in the order in which they are put.
const PAIRS: &[(&str, &str)] = &[("b", "1"), ("ab", "2"), ("b", "3")];

/// Puts a value at a key.
fn put(alloc: Global, map: &mut ByteMap<Text>, key: &str, value: &str) -> Result<(), Fail> {
    let value = Text::from_str(alloc, value)?;
    map.insert(Vec::from_slice(alloc, key.as_bytes())?, value)?;
    Ok(())
}

/// The values in the order of their keys.
fn values(alloc: Global, map: &ByteMap<Text>) -> Result<String, Fail> {
    let mut shown = String::new(alloc);
    for (_, value) in map.iter() {
        shown.push_str(value.as_str())?;
    }
    Ok(shown)
}

#[test]
fn keys_are_in_order(rt: HostRuntime) -> Result<(), Fail> {
    let mut map = ByteMap::new(rt.alloc());
    for (key, value) in PAIRS {
        put(rt.alloc(), &mut map, key, value)?;
    }
    expect("the map", values(rt.alloc(), &map)?.as_str(), "23")?;
    assert!(rt; map.contains_key(b"ab") && map.get(b"a").is_none());
    assert!(rt; map.len() == 2);
    Ok(())
}
