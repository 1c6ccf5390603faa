// The open transactions of a database.
ghost use Rattle.std.specs.Prelude.{◌≡◌, ◌<◌, ◌^◌, OnOk, OnErr, IfOk, Some, None, true, [], slice_get};
ghost use Rattle.std.specs.FinMap.{get, insert, remove, empty, entries};
ghost use Rattle.node_state.specs.Known.{is_captured};
ghost use Rattle.slon_model.specs.Logs.{named};
ghost use Rattle.app_store.specs.Taking.{put_xids, wrote_one, writers};
ghost use Rattle.app_store.specs.Written.{with_write, written_at, IsWritten, AreWritten};

use change_capture::Action;
use slon_base::{ByteMap, Bytes, Many, Text};
use std::alloc::{AllocError, Global};
use std::collections::BTreeSet;
use txn_core::XidList;

/// An open transaction: its actions in their order, and the rows that its commit will put or take away, by their
/// spelled keys.
#[derive(Drop)]
pub struct Transaction {
    pub(crate) xid: u64,
    pub(crate) actions: Many<Action>,
    pub(crate) writes: ByteMap<Option<Bytes>>,
}

/// The open transactions of a database by their names.
pub(crate) type Opens = ByteMap<Transaction>;

/// Opens a transaction of this name.
pub(crate) fn open(
    alloc: Global,
    opens: &mut Opens,
    name: &[u8],
    xid: u64,
) -> Result<(), AllocError>
    requires small { xid < 2 ^ 63 }
    ensures opened { OnOk result (opens.new ≡ insert opens.old name.now
        (record { xid = xid; actions = []; writes = empty })) }
    ensures kept { AreWritten opens.old → AreWritten opens.new }
{
    let transaction = Transaction {
        xid,
        actions: Many::new(alloc),
        writes: ByteMap::new(alloc),
    };
    opens.insert(Vec::from_slice(alloc, name)?, transaction)
}

/// Writes a row of this key.
fn write_row(
    alloc: Global,
    writes: &mut ByteMap<Option<Bytes>>,
    key: &[u8],
    value: Option<Bytes>,
) -> Result<(), AllocError>
    ensures { OnOk result (writes.new ≡ insert writes.old key.now value) }
{
    match Vec::from_slice(alloc, key) {
        Ok(key) => writes.insert(key, value),
        Err(fault) => {
            drop(value);
            Err(fault)
        }
    }
}

/// The transaction with this action behind the others, which writes the row of this key. Values with owned parts are
/// let go by name: where they fall out of scope, the check of the function opens all their variants.
fn with_action(
    alloc: Global,
    mut transaction: Transaction,
    key: &[u8],
    value: Option<Bytes>,
    action: Action,
) -> Result<Transaction, AllocError>
    ensures { IfOk result (λ written. written ≡ with_write key.now value action transaction) }
{
    match write_row(alloc, &mut transaction.writes, key, value) {
        Ok(()) => match transaction.actions.push(action) {
            Ok(()) => Ok(transaction),
            Err(fault) => {
                drop(transaction);
                Err(fault)
            }
        },
        Err(fault) => {
            drop((transaction, action));
            Err(fault)
        }
    }
}

/// Puts a transaction under its name.
fn put(
    alloc: Global,
    opens: &mut Opens,
    name: &[u8],
    transaction: Transaction,
) -> Result<(), AllocError>
    ensures ok { OnOk result (opens.new ≡ insert opens.old name.now transaction) }
    ensures err { OnErr result (opens.new ≡ opens.old) }
{
    match Vec::from_slice(alloc, name) {
        Ok(name) => opens.insert(name, transaction),
        Err(fault) => {
            drop(transaction);
            Err(fault)
        }
    }
}

/// Adds an action of the transaction of this name, which writes the row of this key.
pub(crate) fn write(
    alloc: Global,
    opens: &mut Opens,
    name: &[u8],
    key: &[u8],
    value: Option<Bytes>,
    action: Action,
) -> Result<(), AllocError>
    ensures wrote { (t : Transaction) → get opens.old name.now ≡ Some t →
        OnOk result (opens.new ≡ insert (remove opens.old name.now) name.now (with_write key.now value action t)) }
    ensures kept { AreWritten opens.old → IsWritten value → is_captured action ≡ true → AreWritten opens.new }
{
    match opens.remove(name) {
        None => {
            drop((value, action));
            Ok(())
        }
        Some(transaction) => match with_action(alloc, transaction, key, value, action) {
            Ok(written) => put(alloc, opens, name, written),
            Err(fault) => Err(fault),
        },
    }
}

/// What the transaction of this name wrote at this key, if it wrote there.
pub(crate) fn written(
    alloc: Global,
    opens: &Opens,
    name: &[u8],
    key: &[u8],
) -> Result<Option<Option<Bytes>>, AllocError>
    ensures { IfOk result (λ w. w ≡ written_at key.now (get opens.now name.now)) }
{
    match opens.get(name) {
        None => Ok(None),
        Some(transaction) => match transaction.writes.get(key) {
            None => Ok(None),
            Some(written) => Ok(Some(match written {
                None => None,
                Some(value) => Some(value.copy(alloc)?),
            })),
        },
    }
}

/// The ids of the open transactions, ascending.
pub(crate) fn open_xids(alloc: Global, opens: &Opens) -> Result<XidList, AllocError>
    ensures { IfOk result (λ xids. xids ≡ put_xids [] (entries opens.now)) }
{
    let mut xids = BTreeSet::new(alloc);
    for (_, transaction) in opens.iter() {
        xids.insert(transaction.xid)?;
    }
    let mut running = XidList::new(alloc);
    for xid in xids.iter() {
        running.push(*xid)?;
    }
    Ok(running)
}

/// Whether this is one of these names.
fn is_among(name: &Text, names: &[Text]) -> bool
    ensures { result ≡ named name.now names.now }
{
    names
        .iter()
        .any(|other| name.as_slice() == other.as_slice())
}

/// Whether a transaction wrote one of these tables.
fn has_written(transaction: &Transaction, tables: &[Text]) -> bool
    ensures { result ≡ wrote_one tables.now transaction.now }
{
    transaction
        .actions
        .as_slice()
        .iter()
        .any(|action| is_among(&action.table, tables))
}

/// The least id of an open transaction that wrote one of these tables, if one did.
pub(crate) fn least_writer(
    alloc: Global,
    opens: &Opens,
    tables: &[Text],
) -> Result<Option<u64>, AllocError>
    ensures { IfOk result (λ found. found ≡ slice_get (put_xids [] (writers tables.now (entries opens.now))) 0) }
{
    let mut xids = BTreeSet::new(alloc);
    for (_, transaction) in opens.iter() {
        if has_written(transaction, tables) {
            xids.insert(transaction.xid)?;
        }
    }
    Ok(xids.first().copied())
}
