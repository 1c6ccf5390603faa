// Each transaction of the store: its changes and the commit.
ghost use Rattle.std.specs.Prelude.{◌≡◌, ◌<◌, ◌^◌, true, false, is_some, OnOk, IfErr};
ghost use Rattle.std.specs.List.{AllByRecursion};
ghost use Rattle.std.specs.Option.{option_map};
ghost use Rattle.std.specs.FinMap.{entries};
ghost use Rattle.store_rows.specs.declared.stop.Stop.TheVariants.{NoMemory};
ghost use Rattle.store_rows.specs.Steps.{Safe, IsOutside};
ghost use Rattle.slon_base.specs.Keeper.{put_at};
ghost use Rattle.change_capture.specs.Spellings.{CanLogRow};
ghost use Rattle.app_store.specs.Spelled.{put_all, write_all, with_logs};
ghost use Rattle.app_store.specs.Steps.{Starts, Transacts, Finishes};

use crate::layout::ROWS;
use change_capture::LogRow;
use log_switch::append;
use node_state::NodeMemory;
use slon_base::{ByteMap, Bytes, KeepFault, Keeper};
use std::alloc::Global;
use store_rows::{Stop, del_pair, put_pair};

/// What a transaction of the store came to.
#[derive(Clone, Copy, Debug, PartialEq, Eq)]
pub enum Made {
    /// Its commit stands.
    Done,
    /// Its commit failed, so it stands or not.
    InDoubt,
}

/// A pair that a transaction puts.
#[derive(Clone, Copy)]
pub struct Put<'a> {
    pub(crate) space: u8,
    pub(crate) key: &'a [u8],
    pub(crate) value: &'a [u8],
}

impl<'a> Put<'a> {
    /// This value at this key of the space.
    pub(crate) fn new(space: u8, key: &'a [u8], value: &'a [u8]) -> Put<'a>
        ensures space { result.space ≡ space }
        ensures key { result.key.now ≡ key.now }
        ensures value { result.value.now ≡ value.now }
    {
        Put { space, key, value }
    }
}

/// Begins.
#[tactic(auto, using(store_rows::proofs::Causes::stays, store_rows::proofs::Putting::none_more))]
pub fn begin<K: Keeper>(keeper: &mut K) -> Result<(), Stop>
    requires { is_some (K.kept keeper.old).pending ≡ false }
    ensures { Starts (K.kept keeper.old) (K.kept keeper.new) result }
{
    match keeper.begin() {
        Ok(()) => Ok(()),
        Err(KeepFault::Failed) => Err(Stop::Failed),
        Err(KeepFault::NoMemory) => Err(Stop::NoMemory),
    }
}

/// Commits. It stops only where memory ran out.
#[tactic(auto, using(store_rows::proofs::Causes::stays, store_rows::proofs::Putting::none_more))]
pub fn finish<K: Keeper>(keeper: &mut K) -> Result<Made, Stop>
    requires { is_some (K.kept keeper.old).pending ≡ true }
    ensures ends { Finishes (K.kept keeper.old) (K.kept keeper.new) result }
    ensures short { IfErr result (λ stop. stop ≡ NoMemory) }
{
    match keeper.commit() {
        Ok(()) => Ok(Made::Done),
        Err(KeepFault::Failed) => Ok(Made::InDoubt),
        Err(KeepFault::NoMemory) => Err(Stop::NoMemory),
    }
}

/// Puts rows into the transaction that is pending, and takes rows away.
fn write_rows<K: Keeper>(keeper: &mut K, rows: &ByteMap<Option<Bytes>>) -> Result<(), Stop>
    requires { is_some (K.kept keeper.old).pending ≡ true }
    ensures safe { Safe (K.kept keeper.old) (K.kept keeper.new) result }
    ensures only { IfErr result IsOutside }
    ensures put { OnOk result ((K.kept keeper.new).pending ≡
        option_map (option_map (write_all (entries rows.now))) (K.kept keeper.old).pending) }
{
    for (key, value) in rows.iter() {
        match value {
            Some(value) => put_pair(keeper, ROWS, key.as_slice(), value.as_slice())?,
            None => del_pair(keeper, ROWS, key.as_slice())?,
        }
    }
    Ok(())
}

/// Puts pairs into the transaction that is pending.
fn put_pairs<K: Keeper>(keeper: &mut K, puts: &[Put<'_>]) -> Result<(), Stop>
    requires { is_some (K.kept keeper.old).pending ≡ true }
    ensures safe { Safe (K.kept keeper.old) (K.kept keeper.new) result }
    ensures only { IfErr result IsOutside }
    ensures put { OnOk result ((K.kept keeper.new).pending ≡
        option_map (option_map (put_all puts.now)) (K.kept keeper.old).pending) }
{
    for put in puts {
        put_pair(keeper, put.space, put.key, put.value)?;
    }
    Ok(())
}

/// Puts the rows that a node logs into the transaction that is pending.
fn write_logs<K: Keeper>(
    alloc: Global,
    keeper: &mut K,
    node: &NodeMemory,
    logs: &[(u64, LogRow)],
) -> Result<(), Stop>
    requires opened { is_some (K.kept keeper.old).pending ≡ true }
    requires can { AllByRecursion (λ r. (r.0 < 2 ^ 63) × CanLogRow r.1) logs.now }
    ensures safe { Safe (K.kept keeper.old) (K.kept keeper.new) result }
    ensures only { IfErr result IsOutside }
    ensures put { OnOk result ((K.kept keeper.new).pending ≡
        option_map (option_map (with_logs node.now.identity logs.now)) (K.kept keeper.old).pending) }
{
    match &node.identity {
        None => Ok(()),
        Some(identity) => append(alloc, keeper, identity.id, logs),
    }
}

/// Puts pairs in one transaction.
pub(crate) fn transact<K: Keeper>(keeper: &mut K, puts: &[Put<'_>]) -> Result<Made, Stop>
    requires { is_some (K.kept keeper.old).pending ≡ false }
    ensures { Transacts (put_all puts.now) (K.kept keeper.old) (K.kept keeper.new) result }
{
    begin(keeper)?;
    put_pairs(keeper, puts)?;
    finish(keeper)
}

/// Writes rows and what the node logs of them, and then puts a pair, in one transaction.
pub(crate) fn transact_rows<K: Keeper>(
    alloc: Global,
    keeper: &mut K,
    node: &NodeMemory,
    logs: &[(u64, LogRow)],
    rows: &ByteMap<Option<Bytes>>,
    last: &Put<'_>,
) -> Result<Made, Stop>
    requires idle { is_some (K.kept keeper.old).pending ≡ false }
    requires can { AllByRecursion (λ r. (r.0 < 2 ^ 63) × CanLogRow r.1) logs.now }
    ensures { Transacts (λ m. put_at last.now.space last.now.key.now last.now.value.now
        (with_logs node.now.identity logs.now (write_all (entries rows.now) m)))
        (K.kept keeper.old) (K.kept keeper.new) result }
{
    begin(keeper)?;
    write_rows(keeper, rows)?;
    write_logs(alloc, keeper, node, logs)?;
    put_pair(keeper, last.space, last.key, last.value)?;
    finish(keeper)
}
