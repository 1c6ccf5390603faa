// Rows of what nodes know and bodies of events: each is read from its bytes, and spelled as these again. What the bytes
// say is computed from the definitions, beside the worked sessions.
use node_rows::{Body, Fence, NodeRow, SetRow, Subscription, TableRow};
use std::alloc::Global;
use std::test::Fail;
use store_rows::{Spelled, Stop, read_alone, spelling};
use test_words::require;

/// The space of events.
const EVENTS: u8 = 10;

/// Whether the bytes are a row of the space, and what is read of them is spelled so.
fn is_spelled<X: Spelled>(alloc: Global, space: u8, bytes: &[u8]) -> Result<bool, Fail> {
    let row: X = read_alone(alloc, space, bytes)?;
    let again = spelling(alloc, &row)?;
    Ok(again.as_slice() == bytes)
}

/// Bodies in their bytes.
const BODIES: &[&[u8]] = &[
    b"\x01",
    b"\x02\0\0\0\0\0\0\0\x02\0\0\0\x01c",
    b"\x03\0\0\0\0\0\0\0\x02",
    b"\x04\0\0\0\0\0\0\0\x01\0\0\0\0\0\0\0\x02\0\0\0\x08dbname=a",
    b"\x05\0\0\0\0\0\0\0\x01\0\0\0\0\0\0\0\x02",
    b"\x06\0\0\0\0\0\0\0\x05\0\0\0\0\0\0\0\x01\0\0\0\0",
    b"\x07\0\0\0\0\0\0\0\x05",
    b"\x08\0\0\0\0\0\0\0\x05\0\0\0\0\0\0\0\x07\0\0\0\x03s.t\0\0\0\x01c",
    b"\x09\0\0\0\0\0\0\0\x05\0\0\0\0\0\0\0\x01\0\0\0\0\0\0\0\x02\x01",
    b"\x0a\0\0\0\0\0\0\0\x05\0\0\0\0\0\0\0\x01\0\0\0\0\0\0\0\x02\0\0\0\0\0\0\0\0\x03",
    b"\x0b\0\0\0\0\0\0\0\x05\0\0\0\0\0\0\0\x02",
    b"\x0c\0\0\0\0\0\0\0\x05\0\0\0\0\0\0\0\x01\0\0\0\0\0\0\0\x02\0\0\0\0\0\0\0\x03\0\0\
          \0\x02\0\0\0\0\0\0\0\x01\0\0\0\0\0\0\0\x02\x01\0\0\0\0\0\0\0\x03\0\0\0\0\0\0\0\
          \x02\0",
    b"\x0d\0\0\0\0\0\0\0\x05\0\0\0\0\0\0\0\x01\0\0\0\0\0\0\0\x02\0\0\0\0\0\0\0\x03\0\0\
          \0\0\0\0\0\x09",
    b"\x0e\0\0\0\0\0\0\0\x01\0\0\0\0\0\0\0\x09\0\0\0\x02\0\0\0\0\0\0\0\x05\0\0\0\0\0\0\
          \0\x03\0\0\0\x01\0\0\0\0\0\0\0\x03\0\0\0\0\0\0\0\x02\x01\0\0\0\0\0\0\0\x06\0\0\0\
          \0\0\0\0\x02\0\0\0\0",
];

#[test]
fn bodies_are_read(rt: HostRuntime) -> Result<(), Fail> {
    for bytes in BODIES {
        require(is_spelled::<Body>(rt.alloc(), EVENTS, bytes)?, "a body")?;
    }
    Ok(())
}

/// The spaces of rows, and their bytes.
const ROWS: &[(u8, &[u8])] = &[
    (4, b"\x01\0\0\0\x01c"),
    (4, b"\x02\0\0\0\0"),
    (
        6,
        b"\0\0\0\0\0\0\0\x01\0\0\0\0\0\0\0\x02\x01\x02\0\0\0\x01c",
    ),
    (7, b"\0\0\0\0\0\0\0\x05\0\0\0\x03s.t\x01\0\0\0\x01c"),
    (8, b"\0\0\0\0\0\0\0\x01\x01\0\0\0\0\0\0\0\x09"),
    (
        14,
        b"\0\0\0\0\0\0\0\x09\0\0\0\0\0\0\0\x02\x02\0\0\0\x01\0\0\0\0\0\0\0\x05\0\0\0\x02\0\
          \0\0\0\0\0\0\x06\0\0\0\0\0\0\0\x07",
    ),
];

#[test]
fn rows_of_nodes_are_read(rt: HostRuntime) -> Result<(), Fail> {
    for (space, bytes) in ROWS {
        let is_row = match *space {
            4 => is_spelled::<NodeRow>(rt.alloc(), 4, bytes)?,
            6 => is_spelled::<SetRow>(rt.alloc(), 6, bytes)?,
            7 => is_spelled::<TableRow>(rt.alloc(), 7, bytes)?,
            8 => is_spelled::<Subscription>(rt.alloc(), 8, bytes)?,
            _ => is_spelled::<Fence>(rt.alloc(), 14, bytes)?,
        };
        require(is_row, "a row")?;
    }
    Ok(())
}

/// Whether the bytes are no row of the space.
fn is_refused<X: Spelled>(alloc: Global, space: u8, bytes: &[u8]) -> bool {
    let row: Result<X, Stop> = read_alone(alloc, space, bytes);
    matches!(row, Err(Stop::BadRow { .. }))
}

/// Bytes that are no row of the space.
const OTHER_BYTES: &[(u8, &[u8])] = &[
    (10, b"\0"),
    (10, b"\x0f"),
    (10, b""),
    (10, b"\x03\0\0\0\0\0\0\0\0"),
    (10, b"\x03\0\0\0\0\0\0\0\x01\0"),
    (
        10,
        b"\x09\0\0\0\0\0\0\0\x05\0\0\0\0\0\0\0\x01\0\0\0\0\0\0\0\x02\x02",
    ),
    (4, b"\x03\0\0\0\0"),
    (4, b"\0\0\0\0\0"),
    (6, b"\0\0\0\0\0\0\0\x01\0\0\0\0\0\0\0\x02\x02\x01\0\0\0\0"),
    (8, b"\0\0\0\0\x80\0\0\0\x01\0\0\0\0\0\0\0\x09"),
    (8, b"\0\0\0\0\0\0\0\x01\x01\x80\0\0\0\0\0\0\0"),
    (
        14,
        b"\0\0\0\0\0\0\0\x09\0\0\0\0\0\0\0\x02\x04\0\0\0\0\0\0\0\0",
    ),
];

#[test]
fn other_rows_are_refused(rt: HostRuntime) -> Result<(), Fail> {
    for (space, bytes) in OTHER_BYTES {
        let refused = match *space {
            4 => is_refused::<NodeRow>(rt.alloc(), 4, bytes),
            6 => is_refused::<SetRow>(rt.alloc(), 6, bytes),
            8 => is_refused::<Subscription>(rt.alloc(), 8, bytes),
            14 => is_refused::<Fence>(rt.alloc(), 14, bytes),
            _ => is_refused::<Body>(rt.alloc(), EVENTS, bytes),
        };
        require(refused, "other bytes")?;
    }
    Ok(())
}
