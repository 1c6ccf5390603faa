// What a database hears, as a node, of how far other nodes are.
ghost use Rattle.std.specs.Prelude.{◌≡◌, true, is_some, map};
ghost use Rattle.slon_base.specs.Codec.{AllAre};
ghost use Rattle.event_store.specs.Telling.{IsOfOther, named};
ghost use Rattle.app_store.specs.Base.{base_of};
ghost use Rattle.app_store.specs.Serves.{answered, trouble};
ghost use Rattle.node_store.specs.Acting.{Acts, HearsAll, joined, own_id};

use crate::writing::write_heard;
use app_store::{Database, DbFault, Made, fall, finish, overflow};
use event_store::Confirmation;
use node_keeper::Keeper;
use slon_base::STORED_LIMIT;

/// The node hears these confirmations of other nodes, in one transaction: each is kept that is above what stood.
/// Answers whether the commit is in doubt.
///
/// # Errors
///
/// `TooBig`, and what stopped the store.
pub fn hear<K: Keeper>(database: &mut Database<K>, rows: &[Confirmation]) -> Result<bool, DbFault>
    requires up { database.old.state.up ≡ true }
    requires node { is_some database.old.state.node.identity ≡ true }
    requires rows { AllAre (IsOfOther (own_id database.old.state.node.identity)) rows.now }
    ensures acts { Acts (trouble (answered joined result)) (base_of K.kept database.old)
        (base_of K.kept database.new) }
    ensures hears { HearsAll (map named rows.now) (base_of K.kept database.old) (answered joined result)
        (base_of K.kept database.new) }
{
    let alloc = database.alloc;
    let Some(own) = database.node_id() else {
        return Err(DbFault::Down);
    };
    if database.state.stamp >= STORED_LIMIT {
        return Err(overflow(alloc, &mut database.state));
    }
    let stamp = database.state.stamp + 1;
    match write_heard(alloc, &mut database.keeper, own, rows, stamp) {
        Ok(()) => match finish(&mut database.keeper) {
            Ok(made) => match made {
                Made::Done => {
                    database.state.stamp = stamp;
                    Ok(false)
                }
                Made::InDoubt => {
                    database.state.take_down(alloc);
                    database.state.doubt = Some(stamp);
                    Ok(true)
                }
            },
            Err(stop) => Err(fall(alloc, &mut database.state, &database.keeper, stop)),
        },
        Err(stop) => Err(fall(alloc, &mut database.state, &database.keeper, stop)),
    }
}
