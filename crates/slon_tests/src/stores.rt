// Stores, shelves and outputs in memory, used through their traits.
ghost use Rattle.std.specs.Prelude.{◌≡◌, is_some, true, false, OnOk};

use crate::outside::{Piece, answers, enters, named, reads};
use node_keeper::{Files, Fuse, Keeper, MemFiles, MemKeeper, MemShelf, MemSink, Shelf, Sink};
use slon_base::{Bytes, KeepFault, OutFault};
use std::alloc::Global;
use std::test::Fail;

/// A key, and the value at it.
type Pair = (&'static str, &'static str);

/// A space, a key, and the value that is put at it, or none where its pair is taken away.
type Change = (u8, &'static str, Option<&'static str>);

/// What a transaction changes, which pairs its reads find in the space 3, whether it commits, and which pairs are
/// there behind it.
type Transaction = (&'static [Change], &'static [Pair], bool, &'static [Pair]);

fn is_value(found: Option<Bytes>, value: &str) -> bool {
    match found {
        Some(found) => found.as_slice() == value.as_bytes(),
        None => false,
    }
}

fn is_pair(found: Option<(Bytes, Bytes)>, key: &str, value: &str) -> bool {
    match found {
        Some((is, held)) => is.as_slice() == key.as_bytes() && held.as_slice() == value.as_bytes(),
        None => false,
    }
}

/// Whether this pair is behind a key, and its value at its own key.
fn is_behind<K: Keeper>(
    keeper: &mut K,
    space: u8,
    last: &[u8],
    pair: &Pair,
) -> Result<bool, KeepFault>
    ensures { is_some (K.kept keeper.new).pending ≡ is_some (K.kept keeper.old).pending }
{
    let (key, value) = pair;
    let next = keeper.next_after(space, last)?;
    let found = keeper.get(space, key.as_bytes())?;
    Ok(is_pair(next, key, value) && is_value(found, value))
}

/// Whether reads find these pairs in a space, and no others.
fn holds<K: Keeper>(keeper: &mut K, space: u8, pairs: &[Pair]) -> Result<bool, KeepFault>
    ensures { is_some (K.kept keeper.new).pending ≡ is_some (K.kept keeper.old).pending }
{
    let mut last: &[u8] = b"";
    for pair in pairs {
        if !is_behind(keeper, space, last, pair)? {
            return Ok(false);
        }
        last = pair.0.as_bytes();
    }
    let count = keeper.count(space)?;
    let next = keeper.next_after(space, last)?;
    Ok(next.is_none() && count == pairs.len() as u64)
}

/// Begins a transaction and makes these changes.
fn change<K: Keeper>(keeper: &mut K, changes: &[Change]) -> Result<(), KeepFault>
    requires { is_some (K.kept keeper.old).pending ≡ false }
    ensures { OnOk result (is_some (K.kept keeper.new).pending ≡ true) }
{
    keeper.begin()?;
    for (space, key, value) in changes {
        match value {
            Some(value) => keeper.put(*space, key.as_bytes(), value.as_bytes())?,
            None => keeper.del(*space, key.as_bytes())?,
        }
    }
    Ok(())
}

/// Makes the changes of a transaction and ends it. Answers whether its reads found its pairs.
fn attempt<K: Keeper>(keeper: &mut K, transaction: &Transaction) -> Result<bool, KeepFault>
    requires { is_some (K.kept keeper.old).pending ≡ false }
{
    let (changes, seen, commits, _) = transaction;
    change(keeper, changes)?;
    let found = holds(keeper, 3, seen)?;
    if *commits {
        keeper.commit()?;
    }
    Ok(found)
}

/// The same, and what is left of the transaction is rolled back.
fn transact<K: Keeper>(keeper: &mut K, transaction: &Transaction) -> Result<bool, KeepFault>
    requires { is_some (K.kept keeper.old).pending ≡ false }
    ensures { is_some (K.kept keeper.new).pending ≡ false }
{
    let found = attempt(keeper, transaction);
    keeper.rollback()?;
    found
}

/// Whether a store with no pairs makes these transactions, and reads find what is to be there behind each.
fn makes<K: Keeper>(keeper: &mut K, transactions: &[Transaction]) -> Result<bool, KeepFault>
    requires { is_some (K.kept keeper.old).pending ≡ false }
{
    for transaction in transactions {
        let found = transact(keeper, transaction)?;
        if !found || !holds(keeper, 3, transaction.3)? {
            return Ok(false);
        }
    }
    Ok(true)
}

const TRANSACTIONS: &[Transaction] = &[
    (
        &[
            (3, "b", Some("2")),
            (3, "a", Some("1")),
            (4, "b", Some("other")),
        ],
        &[("a", "1"), ("b", "2")],
        true,
        &[("a", "1"), ("b", "2")],
    ),
    (
        &[
            (3, "a", None),
            (3, "a", Some("2")),
            (3, "ab", Some("3")),
            (3, "a", None),
        ],
        &[("ab", "3"), ("b", "2")],
        false,
        &[("a", "1"), ("b", "2")],
    ),
    (
        &[(3, "b", None), (3, "a", Some("2")), (3, "c", None)],
        &[("a", "2")],
        true,
        &[("a", "2")],
    ),
];

#[test]
fn transactions_are_made(rt: HostRuntime) -> Result<(), Fail> {
    let alloc = rt.alloc();
    let mut keeper = Fuse::new(MemKeeper::new(alloc, Vec::new(alloc), false)?);
    assert!(rt; makes(&mut keeper, TRANSACTIONS)?);
    assert!(rt; holds(&mut keeper, 4, &[("b", "other")])?);
    assert!(rt; holds(&mut keeper, 5, &[])?);
    Ok(())
}

const A: &[Pair] = &[("a", "1")];

/// Puts a pair. Its calls are, in order, `begin`, `put`, `next_after`, `get`, `count`, `next_after`, `commit` and
/// `rollback`.
const PUT: Transaction = (&[(3, "a", Some("1"))], A, true, A);

/// The transaction was made, and its reads found its pairs.
const MADE: Result<bool, KeepFault> = Ok(true);

const FAILED: Result<bool, KeepFault> = Err(KeepFault::Failed);

/// What becomes of three transactions that put the pair.
fn made<K: Keeper>(keeper: &mut K) -> [Result<bool, KeepFault>; 3]
    requires { is_some (K.kept keeper.old).pending ≡ false }
{
    [
        transact(keeper, &PUT),
        transact(keeper, &PUT),
        transact(keeper, &PUT),
    ]
}

/// Which calls fail, whether a commit that fails stands, what becomes of three transactions, the pairs that are there
/// then, how many calls and how many commits failed, and how many pairs were put, also where nothing of them stands.
const FAILING: &[(
    &[u64],
    bool,
    [Result<bool, KeepFault>; 3],
    &[Pair],
    (u64, u64),
    u64,
)] = &[
    (&[], false, [MADE, MADE, MADE], A, (0, 0), 3),
    (&[1, 4, 8], false, [FAILED, FAILED, FAILED], &[], (3, 0), 1),
    (&[4, 9, 16], false, [FAILED, FAILED, FAILED], &[], (3, 0), 3),
    (&[6, 12], true, [FAILED, FAILED, MADE], A, (2, 0), 3),
    (&[1, 4, 12], false, [FAILED, FAILED, FAILED], &[], (3, 1), 1),
    (&[1, 4, 12], true, [FAILED, FAILED, FAILED], A, (3, 1), 1),
    (&[8], false, [FAILED, MADE, MADE], A, (1, 0), 3),
];

/// Whether the store counted these numbers of failures of calls and of commits, and holds just these pairs.
fn ends<K: Keeper>(keeper: &mut K, counts: (u64, u64), pairs: &[Pair]) -> Result<bool, KeepFault>
    ensures { is_some (K.kept keeper.new).pending ≡ is_some (K.kept keeper.old).pending }
{
    let counted = keeper.faults() == counts.0 && keeper.doubts() == counts.1;
    Ok(counted && holds(keeper, 3, pairs)?)
}

#[test]
fn fails_as_listed(rt: HostRuntime) -> Result<(), Fail> {
    let alloc = rt.alloc();
    for (fails, keep, each, pairs, counts, puts) in FAILING {
        let mut keeper = MemKeeper::new(alloc, Vec::from_slice(alloc, fails)?, *keep)?;
        assert!(rt; made(&mut keeper) == *each, "{fails:?}");
        assert!(rt; ends(&mut keeper, *counts, pairs)?, "{fails:?}");
        assert!(rt; keeper.puts() == *puts, "{fails:?}");
    }
    Ok(())
}

/// Lets a fuse fail from a call on, or from the next commit on.
fn arm<K: Keeper>(fuse: &mut Fuse<K>, calls: Option<u64>, keep: bool)
    ensures { (K.kept fuse.new.keeper).pending ≡ (K.kept fuse.old.keeper).pending }
{
    match calls {
        Some(calls) => fuse.arm(calls, keep),
        None => fuse.arm_commit(keep),
    }
}

/// How many calls succeed, or none where the next commit is the first that fails; whether a commit that fails stands,
/// what becomes of the transaction, the pairs that are there then, and how many calls and how many commits failed.
const FUSES: &[(
    Option<u64>,
    bool,
    Result<bool, KeepFault>,
    &[Pair],
    (u64, u64),
)] = &[
    (Some(0), false, FAILED, &[], (2, 0)),
    (Some(1), true, FAILED, &[], (2, 0)),
    (Some(2), false, FAILED, &[], (2, 0)),
    (Some(3), true, FAILED, &[], (2, 0)),
    (Some(4), false, FAILED, &[], (2, 0)),
    (Some(5), true, FAILED, &[], (2, 0)),
    (Some(6), false, FAILED, &[], (2, 1)),
    (Some(6), true, FAILED, A, (2, 1)),
    (Some(7), false, FAILED, A, (1, 0)),
    (Some(8), false, MADE, A, (0, 0)),
    (None, false, FAILED, &[], (2, 1)),
    (None, true, FAILED, A, (2, 1)),
];

/// Whether the fuse fails every call from now on, and counts it.
fn is_blown<K: Keeper>(fuse: &mut Fuse<K>) -> bool {
    let before = fuse.faults();
    fuse.arm(0, false);
    fuse.count(3).is_err()
        && fuse.get(3, b"a").is_err()
        && fuse.next_after(3, b"").is_err()
        && fuse.rollback().is_err()
        && fuse.faults() == before.saturating_add(4)
}

#[test]
fn fails_from_a_call_on(rt: HostRuntime) -> Result<(), Fail> {
    let alloc = rt.alloc();
    for (calls, keep, ended, pairs, counts) in FUSES {
        let mut keeper = Fuse::new(MemKeeper::new(alloc, Vec::new(alloc), false)?);
        keeper.arm_commit(!*keep);
        arm(&mut keeper, *calls, *keep);
        assert!(rt; transact(&mut keeper, &PUT) == *ended, "{calls:?}");
        keeper.disarm();
        assert!(rt; ends(&mut keeper, *counts, pairs)?, "{calls:?}");
        assert!(rt; is_blown(&mut keeper), "{calls:?}");
    }
    Ok(())
}

/// Whether a store is given of which the first call fails.
fn gives_failing<S: Shelf>(shelf: &mut S) -> Result<bool, OutFault> {
    let mut store = shelf.give(None, 0)?;
    let fails = store.rollback() == Err(KeepFault::Failed);
    Ok(fails && store.begin() == Ok(()))
}

/// Whether an empty store is given for a folder.
fn gives_empty<S: Shelf>(shelf: &mut S) -> Result<bool, OutFault> {
    let mut store = shelf.give(Some(b"folder"), 1)?;
    Ok(store.rollback() == Ok(()) && store.count(0) == Ok(0))
}

#[test]
fn gives(rt: HostRuntime) -> Result<(), Fail> {
    let alloc = rt.alloc();
    let stores = vec![in alloc; (vec![in alloc; 1]?, false)]?;
    let mut shelf = MemShelf::new(alloc, vec![in alloc; 2]?, stores);
    assert!(rt; gives_failing(&mut shelf)?);
    assert!(rt; shelf.give(None, 1).err() == Some(OutFault::Failed));
    assert!(rt; gives_empty(&mut shelf)?);
    assert!(rt; shelf.faults() == 1);
    Ok(())
}

/// Pieces, and whether the output fails at each.
const PIECES: &[(&[u8], Result<(), OutFault>)] = &[
    (b"one,", Ok(())),
    (b"two", Err(OutFault::Failed)),
    (b"3", Err(OutFault::Failed)),
    (b"", Ok(())),
];

#[test]
fn writes(rt: HostRuntime) -> Result<(), Fail> {
    let alloc = rt.alloc();
    let mut sink = MemSink::new(alloc, vec![in alloc; 2, 3]?, 2);
    assert!(rt; answers(&mut sink, PIECES));
    assert_eq!(rt; sink.written(), b"one,tw3".as_slice());
    assert_eq!(rt; sink.faults(), 2);
    Ok(())
}

/// The files `outer` and `inner`, of whose calls this one fails.
fn two_files(alloc: Global, fails: u64) -> Result<MemFiles, Fail> {
    let files = named(alloc, &[("outer", b"abcde"), ("inner", b"x")])?;
    Ok(MemFiles::new(alloc, files, vec![in alloc; fails]?))
}

const OUTER: &[Piece] = &[(4, b"abcd")];

const INNER: &[Piece] = &[(1, b"x\0\0\0"), (0, b"x\0\0\0")];

const REST: &[Piece] = &[(1, b"e\0\0\0")];

/// Whether a file is entered inside another one and left, and one that is missing is not entered.
fn enters_both<F: Files>(files: &mut F) -> Result<bool, OutFault> {
    if !enters(files, "outer", OUTER)? || !enters(files, "inner", INNER)? {
        return Ok(false);
    }
    files.leave();
    Ok(!files.enter(b"missing")? && reads(files, REST)?)
}

#[test]
fn files_are_entered_and_left(rt: HostRuntime) -> Result<(), Fail> {
    let mut files = two_files(rt.alloc(), 0)?;
    assert!(rt; enters_both(&mut files)?);
    assert!(rt; files.faults() == 0);
    Ok(())
}

/// Whether the inner file is entered where the first try fails.
fn enters_again<F: Files>(files: &mut F) -> Result<bool, OutFault> {
    let outer = enters(files, "outer", OUTER)?;
    let fails = files.enter(b"inner") == Err(OutFault::Failed);
    Ok(outer && fails && enters(files, "inner", INNER)?)
}

#[test]
fn files_are_read_behind_a_fault(rt: HostRuntime) -> Result<(), Fail> {
    let mut files = two_files(rt.alloc(), 3)?;
    assert!(rt; enters_again(&mut files)?);
    assert!(rt; files.faults() == 1);
    Ok(())
}
