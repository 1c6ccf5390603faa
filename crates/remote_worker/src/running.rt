// Sets that a node keeps and that are read together, as they have one provider and the node is as far in each of them.
ghost use Rattle.std.specs.Prelude.{◌≡◌, ◌++◌, ◌∷◌, [], IfOk, IsTrue, OnOk};
ghost use Rattle.std.specs.List.{AllByRecursion};
ghost use Rattle.slon_base.specs.Codec.{AllAre};
ghost use Rattle.remote_worker.specs.Keeping.{CanFollow, seen_kept};
ghost use Rattle.remote_worker.specs.Running.{CanGoOn, CanRun, IsBeside, sets_in, sets_of_all, sets_pending, tables_in};

use crate::keeping::KeptSet;
use node_store::is_same;
use slon_base::{Many, Text};
use std::alloc::{AllocError, Global};

/// Sets with one provider, of which the node keeps views with one snapshot.
#[derive(Drop)]
pub struct Run {
    /// The first of them.
    pub first: KeptSet,
    /// The others, in their order.
    pub others: Many<KeptSet>,
}

/// Whether a set has the provider of the first set of a run, and the same snapshot.
fn is_beside(one: &KeptSet, other: &KeptSet) -> bool
    ensures { IsTrue result → IsBeside (seen_kept one.now) (seen_kept other.now) }
{
    other.provider == one.provider && is_same(&other.before.seen, &one.before.seen)
}

/// A run of this set alone.
fn begun(alloc: Global, kept: KeptSet) -> Run
    requires can { CanFollow kept }
    ensures can { CanRun result }
    ensures sets { sets_in result ≡ kept ∷ [] }
{
    Run {
        first: kept,
        others: Many::new(alloc),
    }
}

/// The run with this set at its end.
fn longer(run: Run, kept: KeptSet) -> Result<Run, AllocError>
    requires can { CanRun run × CanFollow kept }
    requires beside { IsBeside (seen_kept run.first) (seen_kept kept) }
    ensures can { IfOk result CanRun }
    ensures sets { IfOk result (λ more. sets_in more ≡ sets_in run ++ kept ∷ []) }
{
    let Run { first, mut others } = run;
    others.push(kept)?;
    Ok(Run { first, others })
}

/// The run with this set at its end, if it can be read with the others. Otherwise the run is at its end, and another
/// one begins.
fn gone_on(alloc: Global, runs: &mut Many<Run>, run: Run, kept: KeptSet) -> Result<Run, AllocError>
    requires can { CanRun run × CanFollow kept }
    ensures can { AllByRecursion CanRun runs.old → OnOk result (AllByRecursion CanRun runs.new) }
    ensures last { IfOk result CanRun }
    ensures sets { IfOk result (λ last.
        sets_of_all runs.new ++ sets_in last ≡ sets_of_all runs.old ++ sets_in run ++ kept ∷ []) }
{
    if is_beside(&run.first, &kept) {
        return longer(run, kept);
    }
    runs.push(run)?;
    Ok(begun(alloc, kept))
}

/// The same where a run may have been begun.
fn joined(
    alloc: Global,
    runs: &mut Many<Run>,
    last: Option<Run>,
    kept: KeptSet,
) -> Result<Run, AllocError>
    requires can { CanGoOn last × CanFollow kept }
    ensures can { AllByRecursion CanRun runs.old → OnOk result (AllByRecursion CanRun runs.new) }
    ensures last { IfOk result CanRun }
    ensures sets { IfOk result (λ run.
        sets_of_all runs.new ++ sets_in run ≡ sets_of_all runs.old ++ sets_pending last ++ kept ∷ []) }
{
    match last {
        Some(run) => gone_on(alloc, runs, run, kept),
        None => Ok(begun(alloc, kept)),
    }
}

/// Adds the run that has been begun, if one has.
fn ended(runs: &mut Many<Run>, last: Option<Run>) -> Result<(), AllocError>
    requires can { CanGoOn last }
    ensures can { AllByRecursion CanRun runs.old → OnOk result (AllByRecursion CanRun runs.new) }
    ensures sets { OnOk result (sets_of_all runs.new ≡ sets_of_all runs.old ++ sets_pending last) }
{
    match last {
        Some(run) => runs.push(run),
        None => Ok(()),
    }
}

/// These sets, cut into runs: sets that follow one another are in one run where they can be read together.
///
/// # Errors
///
/// `AllocError` where there is no memory.
pub fn runs_of(alloc: Global, sets: Many<KeptSet>) -> Result<Many<Run>, AllocError>
    requires can { AllAre CanFollow sets }
    ensures can { IfOk result (AllByRecursion CanRun) }
    ensures sets { IfOk result (λ runs. sets_of_all runs ≡ sets) }
{
    let mut runs = Many::new(alloc);
    let mut last = None;
    for kept in sets.into_vec() {
        last = Some(joined(alloc, &mut runs, last, kept)?);
    }
    ended(&mut runs, last)?;
    Ok(runs)
}

/// Adds these tables.
fn push_tables(
    alloc: Global,
    all: &mut Many<(u32, Text)>,
    tables: &[(u32, Text)],
) -> Result<(), AllocError>
    ensures { OnOk result (all.new ≡ all.old ++ tables.now) }
{
    for (id, name) in tables {
        all.push((*id, name.copy(alloc)?))?;
    }
    Ok(())
}

/// The tables of all sets of a run.
pub(crate) fn tables_of(alloc: Global, run: &Run) -> Result<Many<(u32, Text)>, AllocError>
    ensures { IfOk result (λ tables. tables ≡ tables_in (sets_in run.now)) }
{
    let mut tables = Many::new(alloc);
    push_tables(alloc, &mut tables, run.first.tables.as_slice())?;
    for kept in run.others.as_slice() {
        push_tables(alloc, &mut tables, kept.tables.as_slice())?;
    }
    Ok(tables)
}
