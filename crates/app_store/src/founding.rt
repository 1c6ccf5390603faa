// How a database begins: its first rows, and the memory that goes with them.
ghost use Rattle.std.specs.Prelude.{◌≡◌, OnErr, true, false, is_some};
ghost use Rattle.node_keeper.specs.Fused.{fuse_kept};
ghost use Rattle.app_store.specs.Base.{base_with};
ghost use Rattle.app_store.specs.Serves.{Founds, settled};

use crate::falls::fall;
use crate::state::State;
use crate::transact::Made;
use crate::work::make_database;
use node_keeper::{Fuse, Keeper};
use slon_base::Halt;
use slon_model::DbFault;
use std::alloc::Global;

/// Writes the first rows into a store that holds no row yet. The memory is that of a database that is up, or of one
/// that is down where the store was refused or stopped.
pub(crate) fn first_state<K: Keeper>(
    alloc: Global,
    keeper: &mut Fuse<K>,
) -> (State, Result<(), DbFault>)
    ensures founds { Founds (fuse_kept K.kept keeper.old) (settled result.1)
        (base_with (fuse_kept K.kept keeper.new) result.0) }
    ensures idle { result.0.up ≡ true → is_some (fuse_kept K.kept keeper.new).pending ≡ false }
    ensures down { OnErr result.1 (result.0.up ≡ false) }
{
    let _ = keeper.rollback();
    match make_database(alloc, keeper) {
        Ok(made) => match made {
            None => (State::fresh(alloc, false, None), Err(DbFault::NotEmpty)),
            Some(made) => match made {
                Made::Done => (State::fresh(alloc, true, None), Ok(())),
                Made::InDoubt => {
                    let fault = DbFault::Halt(Halt::Doubt);
                    (State::fresh(alloc, false, Some(1)), Err(fault))
                }
            },
        },
        Err(stop) => {
            let mut state = State::fresh(alloc, false, None);
            let fault = fall(alloc, &mut state, keeper, stop);
            (state, Err(fault))
        }
    }
}
