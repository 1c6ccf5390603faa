// The status of the log of a node.
ghost use Rattle.std.specs.Prelude.{◌≡◌, ◌<◌, ℕ, [], ◌∷◌, Some, Ok, OnOk, IfOk, IfErr};
ghost use Rattle.std.specs.FinMap.{get};
ghost use Rattle.slon_base.specs.Keeper.{Store, sight};
ghost use Rattle.store_rows.specs.Steps.{Safe, IsOfSpace, Gives};
ghost use Rattle.store_rows.specs.declared.stop.Stop.TheVariants.{BadRow};

use crate::layout::{LOG_STATUS, META};
use slon_base::Keeper;
use store_rows::{Stop, get_pair};

/// The first number that is no status of a log.
const STATUSES: u8 = 4;

/// The status of the log, a number from 0 to 3: which of its two halves is written, and whether the other one is being
/// emptied.
///
/// # Errors
///
/// `BadRow` where no such number stands in the store, and what stopped the store.
pub fn status<K: Keeper>(keeper: &mut K) -> Result<u8, Stop>
    ensures safe { Safe (K.kept keeper.old) (K.kept keeper.new) result }
    ensures same { OnOk result ((K.kept keeper.new).pending ≡ (K.kept keeper.old).pending) }
    ensures space { IfErr result (IsOfSpace 1) }
    ensures small { IfOk result (λ status. status < 4) }
    ensures found { (m : Store) → sight (K.kept keeper.old) ≡ Some m →
        IfOk result (λ status. get (m 1) (6 ∷ []) ≡ Some (status ∷ [])) }
    ensures gives { (m : Store) (status : ℕ) → sight (K.kept keeper.old) ≡ Some m → status < 4 →
        get (m 1) (6 ∷ []) ≡ Some (status ∷ []) → Gives (λ found. found ≡ status) result }
{
    match get_pair(keeper, META, &LOG_STATUS)? {
        Some(bytes) => read_status(bytes.as_slice()),
        None => Err(Stop::BadRow { space: META }),
    }
}

/// The status that a value spells.
fn read_status(bytes: &[u8]) -> Result<u8, Stop>
    ensures small { IfOk result (λ status. status < 4) }
    ensures found { IfOk result (λ status. bytes.now ≡ status ∷ []) }
    ensures again { (status : ℕ) → status < 4 → bytes.now ≡ status ∷ [] → result ≡ Ok status }
    ensures fault { IfErr result (λ stop. stop ≡ BadRow 1) }
{
    match bytes {
        [status] if *status < STATUSES => Ok(*status),
        _ => Err(Stop::BadRow { space: META }),
    }
}
