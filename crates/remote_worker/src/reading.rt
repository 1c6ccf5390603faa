// What a node reads to know which event comes next, and the names of tables.
ghost use Rattle.std.specs.Prelude.{◌≡◌, ◌==◌, ◌+◌, Some, OnOk, IfOk, IfErr, filter, map};
ghost use Rattle.std.specs.List.{list_any};
ghost use Rattle.slon_base.specs.Codec.{AllAre, IsText};
ghost use Rattle.slon_base.specs.Keeper.{Store, sight};
ghost use Rattle.store_rows.specs.Rows.{IsId};
ghost use Rattle.store_rows.specs.Steps.{Safe, IsWithinLimit, Gives};
ghost use Rattle.slon_model.specs.Config.{Config, is_table_of};
ghost use Rattle.slon_model.specs.Deeds as deeds;
ghost use Rattle.slon_model.specs.Deeds.{Node, knowledge};
ghost use Rattle.slon_model.specs.Working.{receives_from};
ghost use Rattle.set_config.specs.Holds.{HoldsConfig};
ghost use Rattle.node_rows.specs.Spellings.{CanTable};
ghost use Rattle.node_state.specs.Held.{NodeHeld};

use event_store::{View, progress};
use node_rows::TableRow;
use node_state::{all_rows, kept_views};
use slon_base::{Keeper, Many, Text};
use std::alloc::{AllocError, Global};
use store_rows::Stop;

/// The space of the tables of sets.
pub(crate) const TABLES: u8 = 7;

/// The number behind that of the last event of the origin that the node `own` has met.
fn next_number<K: Keeper>(alloc: Global, keeper: &mut K, own: u32, origin: u32) -> Result<u64, Stop>
    requires ids { IsId own × IsId origin }
    ensures safe { Safe (K.kept keeper.old) (K.kept keeper.new) result }
    ensures same { OnOk result ((K.kept keeper.new).pending ≡ (K.kept keeper.old).pending) }
    ensures within { IfErr result IsWithinLimit }
    ensures says { (m : Store) (n : Node) → sight (K.kept keeper.old) ≡ Some m → n.id ≡ own → NodeHeld n m →
        Gives (λ number. number ≡ deeds.progress origin (knowledge n) + 1) result }
{
    Ok(progress(alloc, keeper, own, origin)?.unwrap_or(0) + 1)
}

/// Whether a view that is kept is one of a set of this origin.
fn any_of(origin: u32, views: &[(u32, View)]) -> bool
    ensures { result ≡ list_any (λ v. v.1.origin == origin) views.now }
{
    views.iter().any(|(_, view)| view.origin == origin)
}

/// Whether the node keeps how far it is in a set of this origin.
fn receives_from<K: Keeper>(alloc: Global, keeper: &mut K, origin: u32) -> Result<bool, Stop>
    ensures safe { Safe (K.kept keeper.old) (K.kept keeper.new) result }
    ensures same { OnOk result ((K.kept keeper.new).pending ≡ (K.kept keeper.old).pending) }
    ensures within { IfErr result IsWithinLimit }
    ensures says { (m : Store) (n : Node) → sight (K.kept keeper.old) ≡ Some m → NodeHeld n m →
        Gives (λ found. found ≡ receives_from origin (knowledge n)) result }
{
    let views = kept_views(alloc, keeper)?;
    Ok(any_of(origin, views.as_slice()))
}

/// The number of the event of the origin that comes next at the node `own`, and whether the node receives a set of it.
pub(crate) fn next_of<K: Keeper>(
    alloc: Global,
    keeper: &mut K,
    own: u32,
    origin: u32,
) -> Result<(u64, bool), Stop>
    requires ids { IsId own × IsId origin }
    ensures safe { Safe (K.kept keeper.old) (K.kept keeper.new) result }
    ensures same { OnOk result ((K.kept keeper.new).pending ≡ (K.kept keeper.old).pending) }
    ensures within { IfErr result IsWithinLimit }
    ensures says { (m : Store) (n : Node) → sight (K.kept keeper.old) ≡ Some m → n.id ≡ own → NodeHeld n m →
        Gives (λ next. (next.0 ≡ deeds.progress origin (knowledge n) + 1)
        × (next.1 ≡ receives_from origin (knowledge n))) result }
{
    let number = next_number(alloc, keeper, own, origin)?;
    let receives = receives_from(alloc, keeper, origin)?;
    Ok((number, receives))
}

/// The names of those tables with these rows that are live and in this set.
pub(crate) fn names_among(
    alloc: Global,
    set: u32,
    rows: &[(u32, TableRow)],
) -> Result<Many<Text>, AllocError>
    requires { AllAre (λ e. IsId e.0 × CanTable e.1) rows.now }
    ensures texts { IfOk result (AllAre IsText) }
    ensures names { IfOk result (λ names. names ≡ map (λ e. e.1.name) (filter (is_table_of set) rows.now)) }
{
    let mut names = Many::new(alloc);
    for (_, row) in rows {
        if !row.live || row.set_id != set {
            continue;
        }
        names.push(row.name.copy(alloc)?)?;
    }
    Ok(names)
}
