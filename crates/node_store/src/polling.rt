// What a node has not heard yet of what it is told.
ghost use Rattle.std.specs.Prelude.{◌≡◌, true, is_some, filter, IfOk};
ghost use Rattle.slon_base.specs.Codec.{AllAre};
ghost use Rattle.app_store.specs.Base.{base_of};
ghost use Rattle.app_store.specs.Parts.{Looks, Remembers};
ghost use Rattle.app_store.specs.Serves.{halts};
ghost use Rattle.event_store.specs.Giving.{IsConfirmation};
ghost use Rattle.event_store.specs.Streams.{streams_of};
ghost use Rattle.event_store.specs.Telling.{is_news, IsOfOther};
ghost use Rattle.node_store.specs.Acting.{Acts, own_id};
ghost use Rattle.node_store.specs.Polling.{OfNode};

use app_store::{Database, DbFault, fall};
use event_store::{Confirmation, news};
use node_keeper::Keeper;
use slon_base::Many;

/// Those of the confirmations that are news for the node of the database: of another node than itself and than the
/// origin, and above what it has.
///
/// # Errors
///
/// What stopped the store; the database is down then.
pub fn news_among<K: Keeper>(
    database: &mut Database<K>,
    rows: &[Confirmation],
) -> Result<Many<Confirmation>, DbFault>
    requires up { database.old.state.up ≡ true }
    requires node { is_some database.old.state.node.identity ≡ true }
    requires rows { AllAre IsConfirmation rows.now }
    ensures acts { Acts (halts result) (base_of K.kept database.old) (base_of K.kept database.new) }
    ensures others { IfOk result (AllAre (IsOfOther (own_id database.old.state.node.identity))) }
    ensures looks { Looks (OfNode (λ n found. found ≡ filter (is_news (streams_of n)) rows.now))
        (base_of K.kept database.old) result (base_of K.kept database.new) }
    ensures same { Remembers (base_of K.kept database.old) result (base_of K.kept database.new) }
{
    let Some(own) = database.node_id() else {
        return Err(DbFault::Down);
    };
    match news(database.alloc, &mut database.keeper, own, rows) {
        Ok(found) => Ok(found),
        Err(stop) => Err(fall(database.alloc, &mut database.state, &database.keeper, stop)),
    }
}
