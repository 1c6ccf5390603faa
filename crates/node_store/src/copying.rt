// What another node copies of a database.
ghost use Rattle.std.specs.Prelude.{◌≡◌, true, IfOk, map};
ghost use Rattle.slon_base.specs.Codec.{AllAre, IsText};
ghost use Rattle.slon_model.specs.Place.{standing_rows};
ghost use Rattle.change_apply.specs.Copied.{AreListed, CanCopyAll};
ghost use Rattle.app_store.specs.Base.{base_of};
ghost use Rattle.app_store.specs.Parts.{Looks, Remembers};
ghost use Rattle.app_store.specs.Serves.{halts};
ghost use Rattle.node_store.specs.Acting.{Acts};

use app_store::{Database, DbFault, fall};
use change_apply::rows_of_tables;
use node_keeper::Keeper;
use slon_base::{Many, Text, TextList};

/// The rows of these tables that are committed, each with its key. What open transactions have written is not among
/// them.
///
/// # Errors
///
/// What stopped the store; the database is down then.
pub fn read_tables<K: Keeper>(
    database: &mut Database<K>,
    names: &[Text],
) -> Result<Many<(Text, Many<(Text, TextList)>)>, DbFault>
    requires up { database.old.state.up ≡ true }
    requires names { AllAre IsText names.now }
    ensures can { IfOk result CanCopyAll }
    ensures acts { Acts (halts result) (base_of K.kept database.old) (base_of K.kept database.new) }
    ensures looks { Looks (λ p rows. AreListed (map (λ name. (name, standing_rows p name)) names.now) rows)
        (base_of K.kept database.old) result (base_of K.kept database.new) }
    ensures same { Remembers (base_of K.kept database.old) result (base_of K.kept database.new) }
{
    match rows_of_tables(database.alloc, &mut database.keeper, names) {
        Ok(rows) => Ok(rows),
        Err(stop) => Err(fall(database.alloc, &mut database.state, &database.keeper, stop)),
    }
}
