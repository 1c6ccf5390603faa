// What a statement of a script asks of the tables and the open transactions of a database.
ghost use Rattle.std.specs.Prelude.{◌≡◌, true, IfOk};
ghost use Rattle.slon_base.specs.Codec.{IsText};
ghost use Rattle.slon_model.specs.Names.{find_named};
ghost use Rattle.slon_model.specs.Place.{Place, is_running};
ghost use Rattle.slon_model.specs.Sessions.{writer_of};
ghost use Rattle.app_store.specs.Base.{base_of};
ghost use Rattle.app_store.specs.Fits.{Ready};
ghost use Rattle.app_store.specs.Parts.{Part, Looks, Remembers};
ghost use Rattle.app_store.specs.Serves.{NeedsNothing};

use crate::database::Database;
use crate::falls::fall;
use crate::look::find_columns;
use crate::opens::least_writer;
use crate::spelling::spell_table;
use node_keeper::Keeper;
use slon_base::Text;
use slon_model::DbFault;
use std::alloc::AllocError;

impl<K: Keeper> Database<K> {
    /// How many columns the table of this name has, if there is one.
    ///
    /// # Errors
    ///
    /// What stopped the store; the database is down then.
    pub fn width(&mut self, table: &Text) -> Result<Option<u64>, DbFault>
        requires up { self.old.state.up ≡ true }
        requires text { IsText table.now }
        ensures part { Part NeedsNothing (base_of K.kept self.old) (base_of K.kept self.new) result }
        ensures looks { Looks (λ p found. found ≡ find_named table.now p.tables) (base_of K.kept self.old)
            result (base_of K.kept self.new) }
        ensures same { Remembers (base_of K.kept self.old) result (base_of K.kept self.new) }
        ensures sure { (base_of K.kept self.new).kept.doubts ≡ (base_of K.kept self.old).kept.doubts }
    {
        let key = spell_table(self.alloc, table)?;
        match find_columns(&mut self.keeper, key.as_slice()) {
            Ok(found) => Ok(found),
            Err(stop) => Err(fall(self.alloc, &mut self.state, &self.keeper, stop)),
        }
    }

    /// The least id of an open transaction that wrote one of these tables, if one did.
    ///
    /// # Errors
    ///
    /// `AllocError` where there is no memory.
    pub fn writer(&self, tables: &[Text]) -> Result<Option<u64>, AllocError>
        ensures { (p : Place) → Ready p (base_of K.kept self.now) → is_running p.standing ≡ true →
            IfOk result (λ found. found ≡ writer_of tables.now p) }
    {
        least_writer(self.alloc, &self.state.opens, tables)
    }
}
