// The scripts of a session: they begin, run a statement at a time, and end.
ghost use Rattle.std.specs.Prelude.{◌≡◌, ◌<◌, ◌+◌, length, true, None, IfOk, OnOk};
ghost use Rattle.std.specs.FinMap.{insert};
ghost use Rattle.slon_model.specs.Tasks.{ToRead, ToForget};
ghost use Rattle.slon_model.specs.World as world;
ghost use Rattle.slonik_exec.specs.Databases.{bases_of, Runs, told_by};
ghost use Rattle.slonik_exec.specs.Heard.{AreDistinct};
ghost use Rattle.cluster_engine.specs.Walking.{IsPutBack, Keeps, Walks, WalksOn};

use node_keeper::Keeper;
use slon_base::{ByteMap, Text};
use slon_model::{Answer, Reading, Refusal, Reply};
use slonik_exec::{Caller, Named, NoMemory, run_command};
use slonik_script::{Command, Script, Statement};
use std::alloc::{AllocError, Global};

/// A script that runs.
#[derive(Drop)]
pub struct Started {
    /// The script.
    pub script: Script,
    /// How many of its statements were run.
    pub done: usize,
}

/// What a statement came to.
#[derive(Drop)]
pub(crate) struct Walked {
    /// The reply.
    pub(crate) reply: Reply,
    /// Whether the script goes on behind it.
    pub(crate) goes_on: bool,
}

/// Whether a reply says that the command was accepted, and the commit not in doubt.
pub fn is_accepted(reply: &Reply) -> bool
    ensures { result ≡ world.is_accepted reply.now }
{
    match reply {
        Reply::Accepted(_) => true,
        Reply::Refused(_) => false,
        Reply::InDoubt { .. } => false,
    }
}

/// The bytes of a name.
pub(crate) fn key_of(alloc: Global, name: &Text) -> Result<Vec<u8>, AllocError>
    ensures { IfOk result (λ key. key.items ≡ name.now) }
{
    let mut key = Vec::new(alloc);
    key.extend_from_slice(name.as_slice())?;
    Ok(key)
}

/// Begins a script of this name, if there is none and its text was read as one.
pub(crate) fn start_script(
    alloc: Global,
    scripts: &mut ByteMap<Started>,
    name: &Text,
    reading: Reading,
) -> Result<Reply, NoMemory>
    ensures keeps { IfOk result (λ reply. Keeps (ToRead name.now reading) scripts.old reply scripts.new) }
    ensures calm { IfOk result (λ reply. told_by reply ≡ None) }
{
    if scripts.contains_key(name.as_slice()) {
        let name = name.copy(alloc)?;
        return Ok(Reply::Refused(Refusal::ScriptUsed { name }));
    }
    match reading {
        Reading::Wrong(refusal) => Ok(Reply::Refused(Refusal::Script(refusal))),
        Reading::Read(script) => {
            let count = script.statements.len() as u64;
            scripts.insert(key_of(alloc, name)?, Started { script, done: 0 })?;
            Ok(Reply::Accepted(Answer::Statements { count }))
        }
    }
}

/// Ends the script of this name.
pub(crate) fn end_script(
    alloc: Global,
    scripts: &mut ByteMap<Started>,
    name: &Text,
) -> Result<Reply, NoMemory>
    ensures keeps { IfOk result (λ reply. Keeps (ToForget name.now) scripts.old reply scripts.new) }
    ensures calm { IfOk result (λ reply. told_by reply ≡ None) }
{
    let Some(_ended) = scripts.remove(name.as_slice()) else {
        let name = name.copy(alloc)?;
        return Ok(Reply::Refused(Refusal::NoScript { name }));
    };
    Ok(Reply::Accepted(Answer::Done))
}

/// Runs a command of a script on the databases of the session.
fn run_order<K: Keeper>(
    alloc: Global,
    databases: &mut [Named<K>],
    script: &Script,
    order: &Command,
) -> Result<Walked, NoMemory>
    requires distinct { AreDistinct (bases_of K.kept databases.old) }
    ensures runs { IfOk result (λ walked. Runs (bases_of K.kept databases.old) walked.reply
        (bases_of K.kept databases.new)) }
    ensures walks { IfOk result (λ walked. Walks script.now (Statement.Single order.now)
        (bases_of K.kept databases.old) walked (bases_of K.kept databases.new)) }
{
    match order {
        Command::Echo { text } => {
            let reply = Reply::Accepted(Answer::Echoed {
                text: text.copy(alloc)?,
            });
            Ok(Walked {
                reply,
                goes_on: true,
            })
        }
        Command::Exit { status } => {
            let reply = Reply::Accepted(Answer::Ended { status: *status });
            Ok(Walked {
                reply,
                goes_on: false,
            })
        }
        _ => {
            let caller = Caller {
                cluster: &script.cluster,
                lines: &script.nodes,
            };
            let reply = run_command(alloc, databases, caller, order)?;
            let goes_on = is_accepted(&reply);
            Ok(Walked { reply, goes_on })
        }
    }
}

/// Runs a statement of a script. A try block is not run yet.
fn run_statement<K: Keeper>(
    alloc: Global,
    databases: &mut [Named<K>],
    script: &Script,
    statement: &Statement,
) -> Result<Walked, NoMemory>
    requires distinct { AreDistinct (bases_of K.kept databases.old) }
    ensures runs { IfOk result (λ walked. Runs (bases_of K.kept databases.old) walked.reply
        (bases_of K.kept databases.new)) }
    ensures walks { IfOk result (λ walked. Walks script.now statement.now
        (bases_of K.kept databases.old) walked (bases_of K.kept databases.new)) }
{
    match statement {
        Statement::Single(order) => run_order(alloc, databases, script, order),
        Statement::Try(_) => {
            let word = Text::from_str(alloc, "try")?;
            let reply = Reply::Refused(Refusal::NotBuilt { word });
            Ok(Walked {
                reply,
                goes_on: false,
            })
        }
    }
}

/// Runs the next statement of a script; behind its last one it has ended.
pub(crate) fn run_next<K: Keeper>(
    alloc: Global,
    databases: &mut [Named<K>],
    started: &Started,
) -> Result<Walked, NoMemory>
    requires distinct { AreDistinct (bases_of K.kept databases.old) }
    ensures runs { IfOk result (λ walked. Runs (bases_of K.kept databases.old) walked.reply
        (bases_of K.kept databases.new)) }
    ensures walks { IfOk result (λ walked. WalksOn started.now
        (bases_of K.kept databases.old) walked (bases_of K.kept databases.new)) }
    ensures inside { IfOk result (λ walked. walked.goes_on ≡ true →
        started.now.done < length started.now.script.statements) }
{
    match started.script.statements.as_slice().get(started.done) {
        Some(statement) => run_statement(alloc, databases, &started.script, statement),
        None => {
            let reply = Reply::Accepted(Answer::Ended { status: 0 });
            Ok(Walked {
                reply,
                goes_on: false,
            })
        }
    }
}

/// Puts a script back with one statement more that was run.
fn put_next(
    alloc: Global,
    scripts: &mut ByteMap<Started>,
    name: &Text,
    mut started: Started,
) -> Result<(), NoMemory>
    requires { started.done < length started.script.statements }
    ensures { OnOk result (scripts.new ≡ insert scripts.old name.now
        (record { script = started.script; done = started.done + 1 })) }
{
    started.done += 1;
    match key_of(alloc, name) {
        Ok(key) => Ok(scripts.insert(key, started)?),
        Err(_) => {
            drop(started);
            Err(NoMemory)
        }
    }
}

/// Puts a script back behind a statement where it goes on, and hands on the reply.
pub(crate) fn put_back(
    alloc: Global,
    scripts: &mut ByteMap<Started>,
    name: &Text,
    started: Started,
    walked: Result<Walked, NoMemory>,
) -> Result<Reply, NoMemory>
    requires inside { IfOk walked (λ went. went.goes_on ≡ true →
        started.done < length started.script.statements) }
    ensures { IfOk result (λ reply. IsPutBack name.now started scripts.old walked reply scripts.new) }
{
    match walked {
        Ok(Walked { reply, goes_on }) => {
            if !goes_on {
                drop(started);
                return Ok(reply);
            }
            match put_next(alloc, scripts, name, started) {
                Ok(()) => Ok(reply),
                Err(short) => {
                    drop(reply);
                    Err(short)
                }
            }
        }
        Err(short) => {
            drop(started);
            Err(short)
        }
    }
}
