// The commit by which a database becomes a node, and a transaction that is not made.
ghost use Rattle.std.specs.Prelude.{◌≡◌, ◌<◌, ◌^◌, true, is_some};
ghost use Rattle.node_keeper.specs.Fused.{fuse_kept};
ghost use Rattle.app_store.specs.Base.{base_with};
ghost use Rattle.node_store.specs.Finishing.{Becomes, GivesUp};

use app_store::{DbFault, Made, State, fall, finish};
use node_keeper::{Fuse, Keeper};
use node_state::NodeMemory;
use std::alloc::Global;

/// Commits what makes a database this node, with this stamp. Answers whether the commit is in doubt.
pub(crate) fn become_node<K: Keeper>(
    alloc: Global,
    keeper: &mut Fuse<K>,
    state: &mut State,
    node: NodeMemory,
    stamp: u64,
) -> Result<bool, DbFault>
    requires opened { is_some (fuse_kept K.kept keeper.old).pending ≡ true }
    requires small { stamp < 2 ^ 63 }
    ensures { Becomes node stamp (base_with (fuse_kept K.kept keeper.old) state.old) result
        (base_with (fuse_kept K.kept keeper.new) state.new) }
{
    match finish(keeper) {
        Ok(Made::Done) => {
            state.stamp = stamp;
            state.node = node;
            Ok(false)
        }
        Ok(Made::InDoubt) => {
            state.take_down(alloc);
            state.doubt = Some(stamp);
            state.node = node;
            Ok(true)
        }
        Err(stop) => Err(fall(alloc, state, keeper, stop)),
    }
}

/// Takes back what is pending in a store, whose database stays up. That this fails is not told.
pub(crate) fn give_up<K: Keeper>(keeper: &mut Fuse<K>)
    ensures { GivesUp (fuse_kept K.kept keeper.old) (fuse_kept K.kept keeper.new) }
{
    let _ = keeper.rollback();
}
