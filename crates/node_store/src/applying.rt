// Events of other nodes that a database applies, as a node.
ghost use Rattle.std.specs.Prelude.{◌≡◌, List, true, is_some};
ghost use Rattle.store_rows.specs.Spending.{PutsUpTo};
ghost use Rattle.event_store.specs.Keeping.{KeepsViews};
ghost use Rattle.event_store.specs.Seen.{seen_event};
ghost use Rattle.app_store.specs.Base.{base_of};
ghost use Rattle.app_store.specs.Serves.{answered, trouble};
ghost use Rattle.node_store.specs.Acting.{Acts, joined};
ghost use Rattle.node_store.specs.Bringing.{AppliesWith, CanBring, IsSyncWith, puts_allowed};
ghost use Rattle.node_store.specs.declared.bringing.SetSync.{SetSync};

use crate::bringing::Brought;
use crate::writing::write_applied;
use app_store::{Database, DbFault, Made, fall, finish, overflow};
use event_store::Event;
use node_keeper::Keeper;
use slon_base::STORED_LIMIT;

/// The node applies an event of another node, in one transaction: from then on it holds the event and is as far as that
/// in the stream of its origin, which is at once what it confirms to others, and it knows of the cluster what the event
/// says. What comes with the event is kept, and the tables that are filled have these rows alone. Answers whether the
/// commit is in doubt.
///
/// # Errors
///
/// `TooBig`, and what stopped the store.
pub fn apply<K: Keeper>(
    database: &mut Database<K>,
    event: &Event,
    brought: Option<Brought>,
) -> Result<bool, DbFault>
    requires up { database.old.state.up ≡ true }
    requires node { is_some database.old.state.node.identity ≡ true }
    requires keeps { KeepsViews event.now.body }
    requires can { CanBring brought }
    ensures acts { Acts (trouble (answered joined result)) (base_of K.kept database.old)
        (base_of K.kept database.new) }
    ensures applies { AppliesWith (seen_event event.now) brought (base_of K.kept database.old)
        (answered joined result) (base_of K.kept database.new) }
    // As far as the store tells it, with a SYNC so few pairs are put, however it ends.
    ensures puts { (deltas : List SetSync) → IsSyncWith deltas (seen_event event.now) brought →
        PutsUpTo (puts_allowed deltas) (base_of K.kept database.old).kept.puts
        (base_of K.kept database.new).kept.puts }
{
    let alloc = database.alloc;
    let Some(own) = database.node_id() else {
        return Err(DbFault::Down);
    };
    if database.state.stamp >= STORED_LIMIT {
        return Err(overflow(alloc, &mut database.state));
    }
    let stamp = database.state.stamp + 1;
    match write_applied(alloc, &mut database.keeper, own, event, brought, stamp) {
        Ok(()) => match finish(&mut database.keeper) {
            Ok(made) => match made {
                Made::Done => {
                    database.state.stamp = stamp;
                    database.state.node.learn(alloc, &event.body, false)?;
                    Ok(false)
                }
                Made::InDoubt => {
                    database.state.take_down(alloc);
                    database.state.doubt = Some(stamp);
                    Ok(true)
                }
            },
            Err(stop) => Err(fall(alloc, &mut database.state, &database.keeper, stop)),
        },
        Err(stop) => Err(fall(alloc, &mut database.state, &database.keeper, stop)),
    }
}
