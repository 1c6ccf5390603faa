// Snapshots, the counters of ids, and the locks on rows.
use app_store::{Database, Fuse};
use node_keeper::MemKeeper;
use slon_base::Text;
use std::alloc::Global;
use std::test::Fail;
use test_words::{expect, require};
use txn_core::{BadSnapshot, Counters, LockFault, LockTable, Snapshot, XidList};

/// Two snapshots, and whether the first covers the second.
const PAIRS: &[(&str, &str, bool)] = &[
    ("4:7:4,6", "4:7:4,6", true),
    ("4:7:4,6", "4:7:4,5,6", true),
    ("4:7:4,6", "5:8:5", false),
    ("4:7:4,6", "7:7:", false),
    ("9:9:", "4:7:4,6", true),
    ("9:9:", "0:10:0,9", true),
    ("9223372036854775808:9223372036854775808:", "9:10:9", true),
    (
        "18446744073709551614:18446744073709551615:18446744073709551614",
        "18446744073709551615:18446744073709551615:",
        false,
    ),
];

/// Whether a snapshot covers the one of this text.
fn covers(alloc: Global, snapshot: &Snapshot, other: &str) -> Result<bool, Fail> {
    let other = Snapshot::parse(alloc, other.as_bytes())?;
    Ok(snapshot.covers(&other))
}

/// The snapshot covers the other one or not.
fn expect_covers(
    alloc: Global,
    snapshot: &Snapshot,
    other: &str,
    wanted: bool,
) -> Result<(), Fail> {
    require(covers(alloc, snapshot, other)? == wanted, other)
}

/// The snapshot prints as this text, and covers the other one or not.
fn expect_both(
    alloc: Global,
    snapshot: &Snapshot,
    text: &str,
    other: &str,
    wanted: bool,
) -> Result<(), Fail> {
    expect(text, snapshot.print(alloc)?.as_str(), text)?;
    expect_covers(alloc, snapshot, other, wanted)
}

/// The same of the snapshot of this text.
fn expect_pair(alloc: Global, text: &str, other: &str, wanted: bool) -> Result<(), Fail> {
    let snapshot = Snapshot::parse(alloc, text.as_bytes())?;
    let done = expect_both(alloc, &snapshot, text, other, wanted);
    drop(snapshot);
    done
}

#[test]
fn snapshots_are_read_and_printed(rt: HostRuntime) -> Result<(), Fail> {
    for (text, other, covers) in PAIRS {
        expect_pair(rt.alloc(), text, other, *covers)?;
    }
    Ok(())
}

/// A copy of the snapshot of this text, which is let go itself.
fn copy_of(alloc: Global, text: &str) -> Result<Snapshot, Fail> {
    let snapshot = Snapshot::parse(alloc, text.as_bytes())?;
    Ok(snapshot.copy(alloc)?)
}

#[test]
fn snapshots_are_copied(rt: HostRuntime) -> Result<(), Fail> {
    for (text, _, _) in PAIRS {
        let copy = copy_of(rt.alloc(), text)?;
        expect("a copy", copy.print(rt.alloc())?.as_str(), text)?;
    }
    Ok(())
}

/// Texts that are no snapshots.
const OTHER_TEXTS: &[&str] = &[
    "",
    "::",
    "4:7",
    "4:7:4,6:",
    "04:7:4",
    "+4:7:4",
    "4:7:4,",
    "4:7:6,4",
    "3:7:4",
    "4:7:4,7",
    " 4:7:4",
    "4:7:4,4",
    "18446744073709551616:18446744073709551616:",
];

#[test]
fn other_texts_are_no_snapshots(rt: HostRuntime) -> Result<(), Fail> {
    for text in OTHER_TEXTS {
        let refused = matches!(
            Snapshot::parse(rt.alloc(), text.as_bytes()),
            Err(BadSnapshot::NotCanonical)
        );
        require(refused, text)?;
    }
    Ok(())
}

/// A snapshot of any three parts, also one that no database takes.
fn made(alloc: Global, xmin: u64, xmax: u64, running: &[u64]) -> Result<Snapshot, Fail> {
    let mut xids = XidList::new(alloc);
    for xid in running {
        xids.push(*xid)?;
    }
    Ok(Snapshot {
        xmin,
        xmax,
        running: xids,
    })
}

/// The parts of a snapshot, and whether it covers the other one.
type Form = (u64, u64, &'static [u64], &'static str, bool);

const FORMS: &[Form] = &[
    (4, 7, &[6, 5, 4], "4:7:4,5,6", true),
    (4, 7, &[6, 5], "4:7:4,5,6", true),
    (4, 7, &[6, 2, 5], "4:6:4", false),
    (7, 4, &[], "7:7:", true),
    (7, 4, &[], "8:8:", false),
    (4, 7, &[9, 9], "4:8:4,7", true),
];

/// A snapshot of these parts covers the other one or not.
fn expect_form(alloc: Global, form: &Form) -> Result<(), Fail> {
    let (xmin, xmax, running, other, wanted) = form;
    let snapshot = made(alloc, *xmin, *xmax, running)?;
    let done = expect_covers(alloc, &snapshot, other, *wanted);
    drop(snapshot);
    done
}

#[test]
fn snapshots_of_any_form_are_compared(rt: HostRuntime) -> Result<(), Fail> {
    for form in FORMS {
        expect_form(rt.alloc(), form)?;
    }
    Ok(())
}

/// Ids, and whether the snapshot `4:7:4,6` sees them.
const SEEN: &[(u64, bool)] = &[(3, true), (4, false), (5, true), (6, false), (7, false)];

#[test]
fn ids_are_seen(rt: HostRuntime) -> Result<(), Fail> {
    let snapshot = Snapshot::parse(rt.alloc(), b"4:7:4,6")?;
    for (xid, seen) in SEEN {
        assert!(rt; snapshot.sees(*xid) == *seen, "{xid}");
    }
    Ok(())
}

#[test]
fn ids_are_drawn(rt: HostRuntime) -> Result<(), Fail> {
    let mut counters = Counters::resume(65);
    assert!(rt; counters.raise() == 129);
    assert!(rt; counters.draw() == 65);
    assert!(rt; counters.next() == 66);
    Ok(())
}

/// Who takes the lock of which row, and who holds it instead.
const TAKES: &[(u64, &str, &str, Option<u64>)] = &[
    (7, "a.t", "k", None),
    (7, "a.t", "k", None),
    (5, "a.t", "k", Some(7)),
    (5, "a.t", "l", None),
    (5, "b.t", "k", None),
];

/// Who holds the lock of a row that a transaction tries to take.
fn holder(locks: &mut LockTable, xid: u64, table: &str, key: &str) -> Option<u64> {
    match locks.take(xid, table.as_bytes(), key.as_bytes()) {
        Ok(()) => None,
        Err(LockFault::Locked { xid }) => Some(xid),
        Err(LockFault::NoMemory) => Some(0),
    }
}

/// Whether the locks are taken so.
fn all_taken(locks: &mut LockTable) -> bool {
    for (xid, table, key, other) in TAKES {
        if holder(locks, *xid, table, key) != *other {
            return false;
        }
    }
    true
}

#[test]
fn locks_are_held_until_they_are_released(rt: HostRuntime) -> Result<(), Fail> {
    let mut locks = LockTable::new(rt.alloc());
    assert!(rt; all_taken(&mut locks));
    assert!(rt; locks.wrote(b"a.t") == Some(5));
    locks.release_all(5);
    assert!(rt; locks.wrote(b"a.t") == Some(7));
    assert!(rt; locks.holder(b"b.t", b"k") == None);
    Ok(())
}

/// Which transaction begins, which one is aborted then, and the snapshot.
const SNAPSHOTS: &[(&str, Option<&str>, &str)] = &[
    ("c", None, "1:2:1"),
    ("b", None, "1:3:1,2"),
    ("a", Some("b"), "1:4:1,3"),
    ("d", Some("c"), "3:5:3,4"),
    ("e", Some("e"), "3:6:3,4"),
];

/// Whether a transaction of this name begins.
fn begins(alloc: Global, database: &mut Database<MemKeeper>, name: &str) -> Result<bool, Fail> {
    Ok(database.begin(&Text::from_str(alloc, name)?).is_ok())
}

/// Whether the transaction of this name is aborted, if there is a name.
fn aborts(
    alloc: Global,
    database: &mut Database<MemKeeper>,
    name: Option<&str>,
) -> Result<bool, Fail> {
    match name {
        Some(name) => Ok(database.abort(&Text::from_str(alloc, name)?).is_ok()),
        None => Ok(true),
    }
}

/// The snapshot that is taken now.
fn seen(alloc: Global, database: &Database<MemKeeper>) -> Result<Text, Fail> {
    Ok(database.snapshot()?.print(alloc)?)
}

/// The snapshot is this one once a transaction has begun and another one, if there is one, is aborted.
fn expect_snapshot(
    alloc: Global,
    database: &mut Database<MemKeeper>,
    name: &str,
    ends: Option<&str>,
    wanted: &str,
) -> Result<(), Fail> {
    let done = begins(alloc, database, name)? && aborts(alloc, database, ends)?;
    require(done, name)?;
    expect(name, seen(alloc, database)?.as_str(), wanted)
}

/// The snapshots are those of the table.
fn expect_snapshots(alloc: Global, database: &mut Database<MemKeeper>) -> Result<(), Fail> {
    for (name, ends, text) in SNAPSHOTS {
        expect_snapshot(alloc, database, name, *ends, text)?;
    }
    Ok(())
}

/// A database in memory, of which transactions begin and end.
#[test]
fn snapshots_list_open_transactions(rt: HostRuntime) -> Result<(), Fail> {
    let alloc = rt.alloc();
    let store = MemKeeper::new(alloc, Vec::new(alloc), false)?;
    let (mut database, made) = Database::create(alloc, Fuse::new(store));
    require(made.is_ok(), "the database")?;
    expect_snapshots(alloc, &mut database)
}
