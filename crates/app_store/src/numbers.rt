// The numbers of a database in its store: ceilings that rise, and what is found when it comes up.
ghost use Rattle.std.specs.Prelude.{◌≡◌, ◌<◌, ◌^◌, ◌+◌, ℕ, IfOk, OnOk, Some, false, is_some};
ghost use Rattle.slon_base.specs.Keeper.{Store};
ghost use Rattle.slon_base.specs.Codec.{number_bytes};
ghost use Rattle.app_store.specs.Formed.{AreNumbers, Lacks, Reads};
ghost use Rattle.app_store.specs.Spelled.{meta, HasNumbers, new_ceiling};
ghost use Rattle.app_store.specs.Steps.{IsSure, IsCounted};
ghost use Rattle.app_store.specs.Works.{AreSmall, RaisesTo, RecoversTo};

use crate::look::{Numbers, find_numbers};
use crate::transact::Made;
use crate::work::{found, make_ceiling};
use slon_base::Keeper;
use std::alloc::Global;
use store_rows::Stop;
use txn_core::{BLOCK, Counters};

/// The first number, and the ceilings before the first rows are written.
pub(crate) const FIRST_CEILING: u64 = 1;

/// Raises a ceiling, which stands at this key of the store.
pub(crate) fn raise<K: Keeper>(
    alloc: Global,
    keeper: &mut K,
    key: &[u8],
    counters: &mut Counters,
    stamp: &mut u64,
) -> Result<(), Stop>
    requires idle { is_some (K.kept keeper.old).pending ≡ false }
    requires ceiling { counters.old.ceiling + 64 < 2 ^ 63 }
    requires stamp { stamp.old + 1 < 2 ^ 63 }
    ensures sure { IsSure (K.kept keeper.old) (K.kept keeper.new) result }
    ensures counted { IsCounted (K.kept keeper.old) (K.kept keeper.new) result }
    ensures raises { (m : Store) → (K.kept keeper.old).held ≡ Some m →
        RaisesTo (new_ceiling key.now (number_bytes (counters.old.ceiling + 64))
        (number_bytes (stamp.old + 1))) m result (K.kept keeper.new) }
    ensures next { counters.new.next ≡ counters.old.next }
    ensures ceiling { counters.new.ceiling ≡ counters.old.ceiling + 64 }
    ensures stamp { OnOk result (stamp.new ≡ stamp.old + 1) }
    ensures small { stamp.new < 2 ^ 63 }
    ensures idle { OnOk result (is_some (K.kept keeper.new).pending ≡ false) }
{
    let ceiling = counters.raise();
    match make_ceiling(alloc, keeper, key, ceiling, *stamp + 1)? {
        Made::Done => {
            *stamp += 1;
            Ok(())
        }
        Made::InDoubt => Err(Stop::Failed),
    }
}

/// The numbers of a store that comes up, after its first rows were written where it had none, and the stamp that was
/// found before that.
pub(crate) fn recover<K: Keeper>(
    alloc: Global,
    keeper: &mut K,
) -> Result<(Option<u64>, Numbers), Stop>
    requires { is_some (K.kept keeper.old).pending ≡ false }
    ensures sure { IsSure (K.kept keeper.old) (K.kept keeper.new) result }
    ensures counted { IsCounted (K.kept keeper.old) (K.kept keeper.new) result }
    ensures recovers { (m : Store) (stamp xids numbers : ℕ) → (K.kept keeper.old).held ≡ Some m → stamp < 2 ^ 63 →
        xids < 2 ^ 63 → numbers < 2 ^ 63 → HasNumbers stamp xids numbers (m meta) →
        RecoversTo m stamp xids numbers result (K.kept keeper.new) }
    ensures form { (m : Store) → (K.kept keeper.old).held ≡ Some m → Reads (Lacks meta (AreNumbers m)) result }
    ensures small { IfOk result (λ r. AreSmall (Some r.1)) }
    ensures idle { OnOk result (is_some (K.kept keeper.new).pending ≡ false) }
{
    match find_numbers(keeper)? {
        Some(numbers) => Ok((Some(numbers.stamp), numbers)),
        None => match found(alloc, keeper)? {
            Made::Done => Ok((
                None,
                Numbers {
                    stamp: 1,
                    xid_ceiling: FIRST_CEILING + BLOCK,
                    number_ceiling: FIRST_CEILING + BLOCK,
                },
            )),
            Made::InDoubt => Err(Stop::Failed),
        },
    }
}
