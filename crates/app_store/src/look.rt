// What a step reads before it decides.
ghost use Rattle.std.specs.Prelude.{◌≡◌, ◌<◌, ◌^◌, ℕ, List, Option, Some, is_some, false, Ok, OnOk, IfOk, IfErr};
ghost use Rattle.std.specs.Option.{option_map};
ghost use Rattle.std.specs.FinMap.{get};
ghost use Rattle.slon_base.specs.Keeper.{Store, sight};
ghost use Rattle.slon_base.specs.Codec.{number_bytes};
ghost use Rattle.store_rows.specs.Steps.{Safe, IsWithinLimit};
ghost use Rattle.store_rows.specs.declared.stop.Stop.TheVariants.{BadRow};
ghost use Rattle.app_store.specs.Spelled.{meta, rows, IsSmall};
ghost use Rattle.app_store.specs.Formed.{IsNumber, IsCeiling, AreNumbers, Lacks, Reads};
ghost use Rattle.store_rows.specs.Rows.{IsId};
ghost use Rattle.app_store.specs.Finds.{FindsColumns, TellsNode};
ghost use Rattle.app_store.specs.Works.{FindsNumbers, AreSmall};
ghost use Rattle.app_store.specs.Steps.{Looks, Says};

use crate::layout::{ACTION_CEILING, META, ROWS, STAMP, TABLES, XID_CEILING};
use node_state::tell;
use slon_base::{Bytes, Keeper, RowIn};
use slon_model::Answer;
use std::alloc::Global;
use store_rows::{Stop, get_pair};

/// The number that a value of a space spells.
fn read_number(space: u8, bytes: &Bytes) -> Result<u64, Stop>
    ensures again { (n : ℕ) → n < 2 ^ 63 → bytes.now ≡ number_bytes n → result ≡ Ok n }
    ensures found { IfOk result (λ n. bytes.now ≡ number_bytes n) }
    ensures small { IfOk result (λ n. n < 2 ^ 63) }
    ensures fault { IfErr result (λ stop. stop ≡ BadRow space) }
{
    let mut row = RowIn::new(bytes.as_slice());
    let Ok(number) = row.u64() else {
        return Err(Stop::BadRow { space });
    };
    match row.end() {
        Ok(()) => Ok(number),
        Err(_) => Err(Stop::BadRow { space }),
    }
}

/// The number at a key, if there is one.
fn find_number<K: Keeper>(keeper: &mut K, space: u8, key: &[u8]) -> Result<Option<u64>, Stop>
    ensures safe { Safe (K.kept keeper.old) (K.kept keeper.new) result }
    ensures same { OnOk result ((K.kept keeper.new).pending ≡ (K.kept keeper.old).pending) }
    ensures within { IfErr result IsWithinLimit }
    ensures says { (m : Store) (number : Option ℕ) → sight (K.kept keeper.old) ≡ Some m → IsSmall number →
        get (m space) key.now ≡ option_map number_bytes number → Says number result }
    ensures found { (m : Store) → sight (K.kept keeper.old) ≡ Some m →
        IfOk result (λ number. get (m space) key.now ≡ option_map number_bytes number) }
    ensures form { (m : Store) → sight (K.kept keeper.old) ≡ Some m →
        Reads (Lacks space (IsNumber (get (m space) key.now))) result }
    ensures small { IfOk result IsSmall }
{
    match get_pair(keeper, space, key)? {
        None => Ok(None),
        Some(bytes) => Ok(Some(read_number(space, &bytes)?)),
    }
}

/// How many columns a table has, by the spelled name, if there is one.
pub(crate) fn find_columns<K: Keeper>(keeper: &mut K, table: &[u8]) -> Result<Option<u64>, Stop>
    ensures { Looks (FindsColumns table.now) (K.kept keeper.old) (K.kept keeper.new) result }
{
    find_number(keeper, TABLES, table)
}

/// The spelled values of a row of this spelled key, if it is there.
pub(crate) fn read_row<K: Keeper>(keeper: &mut K, key: &[u8]) -> Result<Option<Bytes>, Stop>
    ensures { Looks (λ m result. Says (get (m rows) key.now) result) (K.kept keeper.old) (K.kept keeper.new) result }
{
    get_pair(keeper, ROWS, key)
}

/// The status of the node of this id.
pub(crate) fn read_status<K: Keeper>(
    alloc: Global,
    keeper: &mut K,
    own: u32,
) -> Result<Answer, Stop>
    requires { IsId own }
    ensures { Looks (TellsNode own) (K.kept keeper.old) (K.kept keeper.new) result }
{
    tell(alloc, keeper, own)
}

/// The stamp and the ceilings of a database.
#[derive(Clone, Copy, Debug)]
pub(crate) struct Numbers {
    pub(crate) stamp: u64,
    pub(crate) xid_ceiling: u64,
    pub(crate) number_ceiling: u64,
}

/// A ceiling, which is there where the stamp is.
fn find_ceiling<K: Keeper>(keeper: &mut K, key: &[u8]) -> Result<u64, Stop>
    ensures safe { Safe (K.kept keeper.old) (K.kept keeper.new) result }
    ensures same { OnOk result ((K.kept keeper.new).pending ≡ (K.kept keeper.old).pending) }
    ensures within { IfErr result IsWithinLimit }
    ensures says { (m : Store) (number : ℕ) → sight (K.kept keeper.old) ≡ Some m → number < 2 ^ 63 →
        get (m meta) key.now ≡ Some (number_bytes number) → Says number result }
    ensures found { (m : Store) → sight (K.kept keeper.old) ≡ Some m →
        IfOk result (λ number. get (m meta) key.now ≡ Some (number_bytes number)) }
    ensures form { (m : Store) → sight (K.kept keeper.old) ≡ Some m →
        Reads (Lacks meta (IsCeiling (get (m meta) key.now))) result }
    ensures small { IfOk result (λ n. n < 2 ^ 63) }
{
    match find_number(keeper, META, key)? {
        Some(number) => Ok(number),
        None => Err(Stop::BadRow { space: META }),
    }
}

/// The stamp and the ceilings of a database, if its first rows are there.
pub(crate) fn find_numbers<K: Keeper>(keeper: &mut K) -> Result<Option<Numbers>, Stop>
    ensures safe { Safe (K.kept keeper.old) (K.kept keeper.new) result }
    ensures same { OnOk result ((K.kept keeper.new).pending ≡ (K.kept keeper.old).pending) }
    ensures within { IfErr result IsWithinLimit }
    ensures finds { (m : Store) → sight (K.kept keeper.old) ≡ Some m → FindsNumbers m result }
    ensures form { (m : Store) → sight (K.kept keeper.old) ≡ Some m → Reads (Lacks meta (AreNumbers m)) result }
    ensures small { IfOk result AreSmall }
{
    match find_number(keeper, META, &STAMP)? {
        None => Ok(None),
        Some(stamp) => {
            let xid_ceiling = find_ceiling(keeper, &XID_CEILING)?;
            let number_ceiling = find_ceiling(keeper, &ACTION_CEILING)?;
            Ok(Some(Numbers {
                stamp,
                xid_ceiling,
                number_ceiling,
            }))
        }
    }
}
