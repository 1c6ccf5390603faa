// A new node of a cluster that stands.
ghost use Rattle.std.specs.Prelude.{◌≡◌, Some, None, true, is_some, OnOk, IfErr};
ghost use Rattle.std.specs.FinMap.{empty};
ghost use Rattle.slon_base.specs.Codec.{IsText};
ghost use Rattle.slon_base.specs.Keeper.{Store, sight};
ghost use Rattle.store_rows.specs.Rows.{IsId};
ghost use Rattle.store_rows.specs.Space.{Becomes};
ghost use Rattle.store_rows.specs.Steps.{IsWithinLimit, IsOfSpace};
ghost use Rattle.slon_model.specs.Maps.{entry_at};
ghost use Rattle.slon_model.specs.Deeds.{Node, knowledge};
ghost use Rattle.slon_model.specs.Membership.{joining};
ghost use Rattle.slon_model.specs.Sessions.{Running};
ghost use Rattle.event_store.specs.Formed.{Lacks, Reads};
ghost use Rattle.event_store.specs.Giving.{AreConfirmations};
ghost use Rattle.node_state.specs.Held.{HoldsNode};
ghost use Rattle.node_change.specs.Becoming.{IsNode};
ghost use Rattle.node_change.specs.Both.{SafeBoth, stopped};
ghost use Rattle.node_change.specs.Pairs.{put_pairs, pairs_of};

use crate::copying::copy_spaces;
use crate::founding::put_identity;
use crate::layout::GIVEN;
use crate::side::{Failed, Side, sided};
use event_store::give_streams;
use slon_base::{Keeper, Text};
use std::alloc::Global;

/// Makes a database that is no node a new node of the cluster of this name, in what is pending in its store. The new
/// node is given what the node `own` of the other store knows of the cluster and holds of the streams, as that store is
/// seen now; nothing of it is changed. Neither the log nor the views are given. That node is to know the new one.
///
/// # Errors
///
/// Which of the two stores stopped, and why: `BadRow` of space 11 exactly where the rows of how far nodes are in
/// streams are not in their form, on the side of the new node, since they are read as its store has them; what stopped
/// the store, and `NoMemory`.
pub fn join_node<F: Keeper, T: Keeper>(
    alloc: Global,
    from: &mut F,
    to: &mut T,
    own: u32,
    new: u32,
    cluster: &Text,
) -> Result<(), Failed>
    requires opened { is_some (T.kept to.old).pending ≡ true }
    requires can { IsId own × IsId new × IsText cluster.now }
    ensures safe { SafeBoth (F.kept from.old) (F.kept from.new) (T.kept to.old) (T.kept to.new) result }
    ensures same { OnOk result ((F.kept from.new).pending ≡ (F.kept from.old).pending) }
    ensures within { IfErr result (λ f. IsWithinLimit f.stop) }
    ensures space { IfErr result (λ f. IsOfSpace 11 f.stop) }
    ensures turns { (n : Node) (run : Running) (m t : Store) → n.id ≡ own → run.cluster ≡ cluster.now →
        sight (F.kept from.old) ≡ Some m → HoldsNode (Some n) m →
        is_some (entry_at new (knowledge n).config.nodes) ≡ true →
        (T.kept to.old).pending ≡ Some (Some t) → HoldsNode None t →
        Becomes (IsNode (joining new n run) t) (T.kept to.new) (stopped result) }
    ensures form { (m t : Store) → sight (F.kept from.old) ≡ Some m → (T.kept to.old).pending ≡ Some (Some t) →
        Reads (Lacks 11 (AreConfirmations (put_pairs 11 (pairs_of (m 11)) t))) (stopped result) }
    ensures alone { (m t : Store) → sight (F.kept from.old) ≡ Some m → (T.kept to.old).pending ≡ Some (Some t) →
        t 11 ≡ empty → Reads (Lacks 11 (AreConfirmations m)) (stopped result) }
{
    copy_spaces(from, to, &GIVEN)?;
    sided(Side::To, give_streams(alloc, to, own, new))?;
    sided(Side::To, put_identity(alloc, to, new, cluster))
}
