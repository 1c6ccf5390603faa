// Ceilings that are lifted where a draw needs it.
ghost use Rattle.std.specs.Prelude.{◌≡◌, ◌≢◌, ◌<◌, ◌^◌, ◌+◌, ℕ, OnOk, IfErr, Some, false, is_some};
ghost use Rattle.slon_base.specs.Keeper.{Store};
ghost use Rattle.app_store.specs.Steps.{IsSure, IsCounted};
ghost use Rattle.app_store.specs.Works.{Lifts, IsPassing, stopped};

use crate::Stop;
use crate::numbers::raise;
use slon_base::{Keeper, STORED_LIMIT};
use std::alloc::Global;
use txn_core::{BLOCK, Counters};

/// Why a ceiling was not lifted.
#[derive(Clone, Copy, Debug, Drop)]
pub(crate) enum Unlifted {
    /// It or the stamp would pass the limit of stored numbers.
    TooBig,
    /// Work on the store stopped.
    Stopped(Stop),
}

/// Lifts a ceiling, which stands at this key of the store, if the next number is at it.
///
/// # Errors
///
/// `TooBig` where the ceiling or the stamp would pass the limit of stored numbers, else why the store stopped.
pub(crate) fn lift<K: Keeper>(
    alloc: Global,
    keeper: &mut K,
    key: &[u8],
    counters: &mut Counters,
    stamp: &mut u64,
) -> Result<(), Unlifted>
    requires idle { is_some (K.kept keeper.old).pending ≡ false }
    requires small { stamp.old < 2 ^ 63 }
    ensures sure { IsSure (K.kept keeper.old) (K.kept keeper.new) (stopped result) }
    ensures counted { IsCounted (K.kept keeper.old) (K.kept keeper.new) (stopped result) }
    ensures lifts { (m : Store) → (K.kept keeper.old).held ≡ Some m →
        Lifts key.now m counters.old stamp.old result (K.kept keeper.new).held counters.new stamp.new }
    ensures big { IfErr result (IsPassing counters.new stamp.new) }
    ensures ready { OnOk result (counters.new.next ≢ counters.new.ceiling) }
    ensures small { stamp.new < 2 ^ 63 }
    ensures idle { OnOk result (is_some (K.kept keeper.new).pending ≡ false) }
{
    if !counters.must_raise() {
        return Ok(());
    }
    if *stamp >= STORED_LIMIT || counters.ceiling() > STORED_LIMIT - BLOCK {
        return Err(Unlifted::TooBig);
    }
    match raise(alloc, keeper, key, counters, stamp) {
        Ok(()) => Ok(()),
        Err(stop) => Err(Unlifted::Stopped(stop)),
    }
}
