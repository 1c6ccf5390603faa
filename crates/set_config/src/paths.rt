// How nodes connect to one another.
ghost use Rattle.std.specs.Prelude.{◌≡◌, true, is_some};
ghost use Rattle.slon_base.specs.Keeper.{Store};
ghost use Rattle.slon_base.specs.Codec.{IsText};
ghost use Rattle.store_rows.specs.Rows.{IsId};
ghost use Rattle.store_rows.specs.Steps.{Safe};
ghost use Rattle.store_rows.specs.Space.{IsPending, Becomes};
ghost use Rattle.slon_model.specs.Maps.{with_pair, without_pair};
ghost use Rattle.slon_model.specs.Config.{Config};
ghost use Rattle.set_config.specs.Holds.{Shows};

use crate::layout::PATHS;
use slon_base::{Keeper, Text};
use std::alloc::Global;
use store_rows::{Stop, del_row, put_row};

/// A path is stored: how the client connects to the server.
pub(crate) fn store_path<K: Keeper>(
    alloc: Global,
    keeper: &mut K,
    server: u32,
    client: u32,
    conninfo: &Text,
) -> Result<(), Stop>
    requires opened { is_some (K.kept keeper.old).pending ≡ true }
    requires can { IsId server × IsId client × IsText conninfo.now }
    ensures safe { Safe (K.kept keeper.old) (K.kept keeper.new) result }
    ensures turns { (base : Store) (c : Config) → IsPending (Shows base c) (K.kept keeper.old) →
        Becomes (Shows base (record c { paths = with_pair client server conninfo.now c.paths })) (K.kept keeper.new)
        result }
{
    put_row(alloc, keeper, PATHS, &(client, server), conninfo)
}

/// A path is dropped.
pub(crate) fn drop_path<K: Keeper>(
    alloc: Global,
    keeper: &mut K,
    server: u32,
    client: u32,
) -> Result<(), Stop>
    requires opened { is_some (K.kept keeper.old).pending ≡ true }
    requires can { IsId server × IsId client }
    ensures safe { Safe (K.kept keeper.old) (K.kept keeper.new) result }
    ensures turns { (base : Store) (c : Config) → IsPending (Shows base c) (K.kept keeper.old) →
        Becomes (Shows base (record c { paths = without_pair client server c.paths })) (K.kept keeper.new) result }
{
    del_row(alloc, keeper, PATHS, &(client, server))
}
