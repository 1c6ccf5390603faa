// What comes with an event, as it was read, and what that brings.
ghost use Rattle.std.specs.Prelude.{◌≡◌, ◌++◌, OnOk, IfOk, map};
ghost use Rattle.std.specs.List.{AllByRecursion};
ghost use Rattle.node_store.specs.Bringing.{CanBring, CanSync, rows_listed};
ghost use Rattle.remote_worker.specs.Loading.{CanFetch, CanLoad, brought_by, greater, last_logged, last_row};
ghost use Rattle.remote_worker.specs.Loading.{names_fetched, names_listed, names_loaded, rows_fetched, rows_loaded};

use change_capture::LogRow;
use event_store::View;
use node_store::{Brought, SetCopy, SetSync};
use slon_base::{Many, Text, TextList};
use std::alloc::{AllocError, Global};

/// What comes with an event, as it was read.
#[derive(Drop)]
pub enum Load {
    /// A set that is copied.
    Copy(SetCopy),
    /// What was logged of each set that the node keeps, with a SYNC.
    Syncs(Many<SetFetch>),
}

/// What was read of a set that the node keeps, with a SYNC.
#[derive(Drop)]
pub struct SetFetch {
    /// How far the node was in the set as this was read.
    pub before: View,
    /// The ids and the names of the tables to which the node takes rows.
    pub tables: Many<(u32, Text)>,
    /// What it takes.
    pub sync: SetSync,
}

/// How many rows these tables have.
fn count_rows(tables: &[(Text, Many<(Text, TextList)>)]) -> Result<u64, AllocError>
    ensures { IfOk result (λ count. count ≡ rows_listed tables.now) }
{
    let mut count: u64 = 0;
    for (_, rows) in tables {
        let Some(more) = count.checked_add(rows.len() as u64) else {
            return Err(AllocError);
        };
        count = more;
    }
    Ok(count)
}

/// How many rows were logged of these sets.
fn count_logged(fetches: &[SetFetch]) -> Result<u64, AllocError>
    ensures { IfOk result (λ count. count ≡ rows_fetched fetches.now) }
{
    let mut count: u64 = 0;
    for fetch in fetches {
        let Some(more) = count.checked_add(fetch.sync.rows.len() as u64) else {
            return Err(AllocError);
        };
        count = more;
    }
    Ok(count)
}

/// The greater one of this number and that of the last of these rows, which ascend.
fn greater(found: Option<u64>, rows: &[(u64, LogRow)]) -> Option<u64>
    ensures { result ≡ greater found (last_row rows.now) }
{
    let Some((number, _)) = rows.last() else {
        return found;
    };
    match found {
        Some(other) if other > *number => found,
        _ => Some(*number),
    }
}

/// The greatest number of an action that was logged of these sets, if any was.
pub fn last_logged(fetches: &[SetFetch]) -> Option<u64>
    ensures { result ≡ last_logged fetches.now }
{
    let mut found = None;
    for fetch in fetches {
        found = greater(found, fetch.sync.rows.as_slice());
    }
    found
}

/// How many rows there are.
pub(crate) fn count_loaded(load: &Option<Load>) -> Result<u64, AllocError>
    ensures { IfOk result (λ count. count ≡ rows_loaded load.now) }
{
    match load {
        None => Ok(0),
        Some(Load::Copy(copy)) => count_rows(copy.tables.as_slice()),
        Some(Load::Syncs(fetches)) => count_logged(fetches.as_slice()),
    }
}

/// Adds the names of these tables.
fn push_names(
    alloc: Global,
    names: &mut Many<Text>,
    tables: &[(u32, Text)],
) -> Result<(), AllocError>
    ensures { OnOk result (names.new ≡ names.old ++ map (λ t. t.1) tables.now) }
{
    for (_, name) in tables {
        names.push(name.copy(alloc)?)?;
    }
    Ok(())
}

/// The names of the tables to which the node takes rows of these sets.
fn names_fetched(alloc: Global, fetches: &[SetFetch]) -> Result<Many<Text>, AllocError>
    ensures { IfOk result (λ names. names ≡ names_fetched fetches.now) }
{
    let mut names = Many::new(alloc);
    for fetch in fetches {
        push_names(alloc, &mut names, fetch.tables.as_slice())?;
    }
    Ok(names)
}

/// The names of these tables.
fn names_listed(
    alloc: Global,
    tables: &[(Text, Many<(Text, TextList)>)],
) -> Result<Many<Text>, AllocError>
    ensures { IfOk result (λ names. names ≡ names_listed tables.now) }
{
    let mut names = Many::new(alloc);
    for (name, _) in tables {
        names.push(name.copy(alloc)?)?;
    }
    Ok(names)
}

/// The names of the tables that are filled.
pub(crate) fn names_loaded(alloc: Global, load: &Option<Load>) -> Result<Many<Text>, AllocError>
    ensures { IfOk result (λ names. names ≡ names_loaded load.now) }
{
    match load {
        None => Ok(Many::new(alloc)),
        Some(Load::Copy(copy)) => names_listed(alloc, copy.tables.as_slice()),
        Some(Load::Syncs(fetches)) => names_fetched(alloc, fetches.as_slice()),
    }
}

/// What the node takes of these sets.
fn syncs_of(alloc: Global, fetches: Many<SetFetch>) -> Result<Many<SetSync>, AllocError>
    requires { AllByRecursion CanFetch fetches }
    ensures can { IfOk result (AllByRecursion CanSync) }
    ensures is { IfOk result (λ syncs. syncs ≡ map (λ f. f.sync) fetches) }
{
    let mut syncs = Many::new(alloc);
    for fetch in fetches.into_vec() {
        let SetFetch { sync, .. } = fetch;
        syncs.push(sync)?;
    }
    Ok(syncs)
}

/// What it brings to a node.
pub(crate) fn brought_by(alloc: Global, load: Option<Load>) -> Result<Option<Brought>, AllocError>
    requires { CanLoad load }
    ensures can { IfOk result CanBring }
    ensures is { IfOk result (λ brought. brought ≡ brought_by load) }
{
    match load {
        None => Ok(None),
        Some(Load::Copy(copy)) => Ok(Some(Brought::Copy(copy))),
        Some(Load::Syncs(fetches)) => Ok(Some(Brought::Syncs(syncs_of(alloc, fetches)?))),
    }
}
