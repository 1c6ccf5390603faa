// The databases of a session.
ghost use Rattle.std.specs.Prelude.{◌≡◌};
ghost use Rattle.std.specs.List.{position};
ghost use Rattle.std.specs.Str.{bytes_eq};

use node_keeper::Keeper;
use node_store::Database;
use slon_base::Text;

/// A database with its name.
#[derive(Drop)]
pub struct Named<K: Keeper> {
    /// Its name.
    pub name: Text,
    /// The database.
    pub database: Database<K>,
}

/// The place of the database of this name, if there is one.
pub fn index_of<K: Keeper>(databases: &[Named<K>], name: &[u8]) -> Option<usize>
    ensures { result ≡ position (λ d. bytes_eq name.now d.name) databases.now }
{
    databases.iter().position(|d| name == d.name.as_slice())
}
