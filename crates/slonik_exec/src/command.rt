// A command of a script, by its kind.
ghost use Rattle.std.specs.Prelude.{◌≡◌, true, IfOk};
ghost use Rattle.slon_base.specs.Codec.{IsText};
ghost use Rattle.slon_model.specs.Membership as membership;
ghost use Rattle.slon_model.specs.Scripts as rules;
ghost use Rattle.store_rows.specs.Rows.{IsId};
ghost use Rattle.slonik_exec.specs.Commands.{IsOnReceivers, IsOnSets, IsRunnable, comment_in};
ghost use Rattle.slonik_exec.specs.Databases.{bases_of, Runs};
ghost use Rattle.slonik_exec.specs.Executing.{Executes};
ghost use Rattle.slonik_exec.specs.Heard.{AreDistinct};

use crate::caller::Caller;
use crate::databases::Named;
use crate::dropping::drop_set;
use crate::leaving::drop_node;
use crate::membership::{init_cluster, store_node};
use crate::paths::{drop_path, store_path};
use crate::sets::{NewTable, create_set, set_add_table};
use crate::short::NoMemory;
use crate::subscribing::{NewFeed, subscribe_set};
use crate::syncing::sync;
use crate::unsubscribing::unsubscribe_set;
use node_keeper::Keeper;
use slon_base::Text;
use slon_model::{Refusal, Reply};
use slonik_script::Command;
use std::alloc::Global;

/// The greatest id of a node, a set or a table.
const GREATEST_ID: u32 = 2_147_483_647;

/// The greatest length of a text in a store, in bytes.
const LONGEST_TEXT: usize = 4_294_967_295;

/// A copy of the comment of a command, and an empty text where it has none.
fn comment_of(alloc: Global, command: &Command) -> Result<Text, NoMemory>
    ensures { IfOk result (λ text. text ≡ membership.comment_of (comment_in command.now)) }
{
    match command {
        Command::InitCluster {
            comment: Some(comment),
            ..
        }
        | Command::StoreNode {
            comment: Some(comment),
            ..
        }
        | Command::CreateSet {
            comment: Some(comment),
            ..
        }
        | Command::SetAddTable {
            comment: Some(comment),
            ..
        } => Ok(comment.copy(alloc)?),
        _ => Ok(Text::from_str(alloc, "")?),
    }
}

/// The first word of a command that is not run yet.
fn first_word(command: &Command) -> &'static str
    ensures { result.now ≡ rules.first_word command.now }
{
    match command {
        Command::LockSet { .. } => "lock",
        Command::UnlockSet { .. } => "unlock",
        Command::MoveSet { .. } => "move",
        Command::Failover { .. } => "failover",
        Command::WaitForEvent { .. } => "wait",
        _ => "sleep",
    }
}

/// Whether an id is in the range of ids.
fn is_id(id: u32) -> bool
    ensures { result ≡ true → IsId id }
{
    id >= 1 && id <= GREATEST_ID
}

/// Whether a text can be stored.
fn is_short(text: &Text) -> bool
    ensures { result ≡ true → IsText text.now }
{
    text.as_slice().len() <= LONGEST_TEXT
}

/// Whether the ids of a command are in their range and its texts can be stored, as those of every script are that was
/// read.
fn is_runnable(command: &Command) -> bool
    ensures { result ≡ true → IsRunnable command.now }
{
    match command {
        Command::InitCluster { id, .. } => is_id(*id),
        Command::StoreNode { id, event_node, .. } | Command::DropNode { id, event_node } => {
            is_id(*id) && is_id(*event_node)
        }
        Command::StorePath {
            server,
            client,
            conninfo,
            ..
        } => is_id(*server) && is_id(*client) && is_short(conninfo),
        Command::DropPath { server, client } => is_id(*server) && is_id(*client),
        Command::CreateSet { id, origin, .. } => is_id(*id) && is_id(*origin),
        Command::DropSet { id, origin } => is_id(*id) && is_id(*origin),
        Command::SetAddTable {
            set_id,
            origin,
            id,
            fully_qualified_name,
            ..
        } => is_id(*set_id) && is_id(*origin) && is_id(*id) && is_short(fully_qualified_name),
        Command::SubscribeSet {
            id,
            provider,
            receiver,
            ..
        } => is_id(*id) && is_id(*provider) && is_id(*receiver),
        Command::UnsubscribeSet { id, receiver } => is_id(*id) && is_id(*receiver),
        Command::Sync { id } => is_id(*id),
        _ => true,
    }
}

/// Runs a command on the receivers of a set, or refuses one that is not run yet.
fn run_on_receivers<K: Keeper>(
    alloc: Global,
    databases: &mut [Named<K>],
    caller: Caller<'_>,
    command: &Command,
) -> Result<Reply, NoMemory>
    requires on_receivers { IsOnReceivers command.now }
    requires can { IsRunnable command.now }
    requires distinct { AreDistinct (bases_of K.kept databases.old) }
    ensures runs { IfOk result (λ reply. Runs (bases_of K.kept databases.old) reply
        (bases_of K.kept databases.new)) }
    ensures executes { IfOk result (λ reply. Executes
        (record { lines = caller.entry.lines.now; cluster = caller.entry.cluster.now }) (rules.ordered command.now)
        (bases_of K.kept databases.old) reply (bases_of K.kept databases.new)) }
{
    match command {
        Command::SubscribeSet {
            id,
            provider,
            receiver,
            forward,
        } => {
            let feed = NewFeed {
                set_id: *id,
                provider: *provider,
                receiver: *receiver,
                forward: forward.unwrap_or(false),
            };
            subscribe_set(alloc, databases, caller, feed)
        }
        Command::UnsubscribeSet { id, receiver } => {
            unsubscribe_set(alloc, databases, caller, *id, *receiver)
        }
        _ => {
            let word = Text::from_str(alloc, first_word(command))?;
            Ok(Reply::Refused(Refusal::NotBuilt { word }))
        }
    }
}

/// Runs a command on a set or its receivers, or refuses one that is not run yet.
fn run_on_set<K: Keeper>(
    alloc: Global,
    databases: &mut [Named<K>],
    caller: Caller<'_>,
    command: &Command,
    comment: &Text,
) -> Result<Reply, NoMemory>
    requires on_sets { IsOnSets command.now }
    requires can { IsRunnable command.now × IsText comment.now }
    requires said { comment.now ≡ membership.comment_of (comment_in command.now) }
    requires distinct { AreDistinct (bases_of K.kept databases.old) }
    ensures runs { IfOk result (λ reply. Runs (bases_of K.kept databases.old) reply
        (bases_of K.kept databases.new)) }
    ensures executes { IfOk result (λ reply. Executes
        (record { lines = caller.entry.lines.now; cluster = caller.entry.cluster.now }) (rules.ordered command.now)
        (bases_of K.kept databases.old) reply (bases_of K.kept databases.new)) }
{
    match command {
        Command::CreateSet { id, origin, .. } => {
            create_set(alloc, databases, caller, *id, *origin, comment)
        }
        Command::DropSet { id, origin } => drop_set(alloc, databases, caller, *id, *origin),
        Command::SetAddTable {
            set_id,
            origin,
            id,
            fully_qualified_name,
            ..
        } => {
            let table = NewTable {
                set_id: *set_id,
                id: *id,
                name: fully_qualified_name,
                comment,
            };
            set_add_table(alloc, databases, caller, *origin, table)
        }
        _ => run_on_receivers(alloc, databases, caller, command),
    }
}

/// Runs a command of a script on the databases of a session, and replies. It is refused where the rules refuse it, or
/// its commits are made in their order. `ECHO` and `EXIT` concern no database and are no commands here.
///
/// # Errors
///
/// `NoMemory` where there is none, and for a command with an id out of its range or a text above 4,294,967,295 bytes,
/// which no script has that was read.
pub fn run_command<K: Keeper>(
    alloc: Global,
    databases: &mut [Named<K>],
    caller: Caller<'_>,
    command: &Command,
) -> Result<Reply, NoMemory>
    requires distinct { AreDistinct (bases_of K.kept databases.old) }
    ensures runs { IfOk result (λ reply. Runs (bases_of K.kept databases.old) reply
        (bases_of K.kept databases.new)) }
    ensures executes { IfOk result (λ reply. Executes
        (record { lines = caller.entry.lines.now; cluster = caller.entry.cluster.now }) (rules.ordered command.now)
        (bases_of K.kept databases.old) reply (bases_of K.kept databases.new)) }
{
    let comment = comment_of(alloc, command)?;
    if !is_runnable(command) || !is_short(&comment) || !is_short(caller.cluster) {
        return Err(NoMemory);
    }
    match command {
        Command::InitCluster { id, .. } => init_cluster(alloc, databases, caller, *id, &comment),
        Command::StoreNode { id, event_node, .. } => {
            store_node(alloc, databases, caller, *id, *event_node, &comment)
        }
        Command::DropNode { id, event_node } => {
            drop_node(alloc, databases, caller, *id, *event_node)
        }
        Command::StorePath {
            server,
            client,
            conninfo,
            ..
        } => store_path(alloc, databases, caller, *client, *server, conninfo),
        Command::DropPath { server, client } => {
            drop_path(alloc, databases, caller, *client, *server)
        }
        Command::Sync { id } => sync(alloc, databases, caller, *id),
        _ => run_on_set(alloc, databases, caller, command, &comment),
    }
}
