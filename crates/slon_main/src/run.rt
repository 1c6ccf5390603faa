// The run of a session: its commands are read, obeyed and answered one by one.
ghost use Rattle.std.specs.Prelude.{◌≡◌, ℕ, ◌<◌, ◌≤◌, ◌++◌, List, Option, length, true, None, Some, [], IfOk, IfErr};
ghost use Rattle.std.specs.Prelude.{IfSome, IsErrOf, OnOk};
ghost use Rattle.slon_base.specs.Outside.{top, with_piece, WritesPart};
ghost use Rattle.slon_model.specs.declared.command.Command.TheVariants.{Database as DatabaseCommand};
ghost use Rattle.slon_model.specs.Names.{find_named};
ghost use Rattle.slon_model.specs.Printed.{reply_line};
ghost use Rattle.slon_model.specs.Spoken.{IsSpoken};
ghost use Rattle.slon_model.specs.World.{World};
ghost use Rattle.session_text.specs.Handing.{Stays, Comes};
ghost use Rattle.session_text.specs.Reading.{session_limit};
ghost use Rattle.session_text.specs.Replies.{NumbersFit};
ghost use Rattle.session_reader.specs.Sessions.{Between, Session, session_of};
ghost use Rattle.session_reader.specs.Fetching.{to_come};
ghost use Rattle.slonik_exec.specs.Heard.{AreDistinct};
ghost use Rattle.cluster_engine.specs.Agreed.{Follows};
ghost use Rattle.cluster_engine.specs.Calls.{Makes, Obeys, StaysCertain, StaysQuiet, AllCertain, is_sure_reply};
ghost use Rattle.cluster_engine.specs.Clustered.{cluster_of};
ghost use Rattle.cluster_engine.specs.Failing.{Pays};
ghost use Rattle.cluster_engine.specs.Telling.{KeepsTelling};
ghost use Rattle.slon_main.specs.Going.{Came, ComesOn, Running, RunsOn};
ghost use Rattle.slon_main.specs.Running.{Begun, counts, begun, Tells, NeverFails, Shelves, AsksOn, HasCause};
ghost use Rattle.slon_main.specs.Running.{FetchesSo};
ghost use Rattle.slon_main.specs.Running.{Replies, RepliesInPart, Starts, RunsSession, NamesMade, StopsAt};
ghost use Rattle.slon_main.specs.Running.{is_of_store, is_of_output, is_of_command, is_no_store};

use cluster_engine::{Cluster, NoMemory, is_accepted};
use session_reader::{ReadFault, SessionReader};
use session_text::{numbers_fit, print_line};
use slon_base::{Files, OutFault, Shelf, Sink, Text};
use slon_model::{Command, Reply};
use std::alloc::Global;

/// Why a run stopped before the session's end.
#[derive(Drop)]
pub enum Stop {
    /// The line of this number is no command.
    BadLine { number: u64 },
    /// The file failed.
    Read,
    /// The output failed.
    Write,
    /// There was no memory.
    NoMemory,
    /// The shelf gave no store for the database of this name.
    NoStore { name: Text },
    /// The session has too many bytes.
    TooLong,
}

/// Reads the next command of the session, if there is one.
fn fetch<F: Files>(
    alloc: Global,
    reader: &mut SessionReader,
    files: &mut F,
) -> Result<Option<Command>, Stop>
    requires { 0 < length (F.filed files.old).stack }
    ensures files { Stays (F.filed files.old) (F.filed files.new) }
    ensures cause { (shelf out : ℕ) → HasCause (counts (F.filed files.old).faults shelf out)
        (counts (F.filed files.new).faults shelf out) result }
    ensures within { reader.new.lines.taken ≤ session_limit }
    ensures moves { IfOk result (λ found. IfSome found (λ _. reader.old.lines.taken < reader.new.lines.taken)) }
    ensures spoken { IfOk result (λ found. IfSome found IsSpoken) }
    ensures fetches { (names : List ℕ → Option (List ℕ)) → (F.filed files.old).names ≡ Some names →
        (bytes : List ℕ) → Comes reader.old.lines (F.filed files.old) bytes →
        FetchesSo names (to_come names Between reader.old bytes) reader.new (F.filed files.new) result }
{
    match reader.next_command(alloc, files) {
        Ok(found) => Ok(found),
        Err(fault) => match fault {
            ReadFault::BadLine { number } => Err(Stop::BadLine { number }),
            ReadFault::Failed => Err(Stop::Read),
            ReadFault::NoMemory => Err(Stop::NoMemory),
            ReadFault::PastLimit => Err(Stop::TooLong),
        },
    }
}

/// Makes a database over the next store of the shelf.
fn make<S: Shelf>(cluster: &mut Cluster<S::Store>, shelf: &mut S, name: Text) -> Result<Reply, Stop>
    ensures shelf { Shelves (S.shelved shelf.old) (S.shelved shelf.new) }
    ensures asked { AsksOn (S.shelved shelf.old).asked (cluster_of S.Store.kept cluster.old)
        (S.shelved shelf.new).asked (cluster_of S.Store.kept cluster.new) result }
    ensures cause { (files out : ℕ) → HasCause (counts files (S.shelved shelf.old).faults out)
        (counts files (S.shelved shelf.new).faults out) result }
    ensures made { Tells (S.shelved shelf.old) → IfOk result
        (λ reply. Makes name (cluster_of S.Store.kept cluster.old) reply (cluster_of S.Store.kept cluster.new)) }
    ensures certain { NeverFails (S.shelved shelf.old) →
        IfOk result (λ reply. (is_sure_reply reply ≡ true)
        × (AllCertain (cluster_of S.Store.kept cluster.old) → AllCertain (cluster_of S.Store.kept cluster.new))) }
    ensures quiet { IfOk result (λ reply. StaysQuiet reply (cluster_of S.Store.kept cluster.old)
        (cluster_of S.Store.kept cluster.new)) }
    ensures pays { Tells (S.shelved shelf.old) → find_named name (cluster_of S.Store.kept cluster.old).bases ≡ None →
        IfOk result (λ reply. Pays (S.shelved shelf.old).promise (DatabaseCommand name)
        (cluster_of S.Store.kept cluster.old) reply (cluster_of S.Store.kept cluster.new)) }
    ensures tells { find_named name (cluster_of S.Store.kept cluster.old).bases ≡ None →
        IfOk result (λ reply. KeepsTelling (DatabaseCommand name)
        (cluster_of S.Store.kept cluster.old) reply (cluster_of S.Store.kept cluster.new)) }
    ensures named { IfErr result (λ stop. is_no_store stop ≡ true → stop ≡ Stop.NoStore name) }
    ensures unmade { IfErr result (λ stop. is_no_store stop ≡ true →
        cluster_of S.Store.kept cluster.new ≡ cluster_of S.Store.kept cluster.old) }
    ensures stop { IfErr result (λ stop. is_of_store stop ≡ true) }
    ensures distinct { find_named name (cluster_of S.Store.kept cluster.old).bases ≡ None →
        AreDistinct (cluster_of S.Store.kept cluster.old).bases →
        IfOk result (λ reply. AreDistinct (cluster_of S.Store.kept cluster.new).bases) }
{
    match shelf.give(None, cluster.given()) {
        Ok(keeper) => match cluster.adopt(name, keeper) {
            Ok(reply) => Ok(reply),
            Err(NoMemory) => Err(Stop::NoMemory),
        },
        Err(fault) => match fault {
            OutFault::Failed => Err(Stop::NoStore { name }),
            OutFault::NoMemory => Err(Stop::NoMemory),
        },
    }
}

/// Makes the database of this name, if there may be one.
fn make_named<S: Shelf>(
    alloc: Global,
    cluster: &mut Cluster<S::Store>,
    shelf: &mut S,
    name: Text,
) -> Result<Reply, Stop>
    requires spoken { IsSpoken (DatabaseCommand name) }
    requires distinct { AreDistinct (cluster_of S.Store.kept cluster.old).bases }
    ensures shelf { Shelves (S.shelved shelf.old) (S.shelved shelf.new) }
    ensures asked { AsksOn (S.shelved shelf.old).asked (cluster_of S.Store.kept cluster.old)
        (S.shelved shelf.new).asked (cluster_of S.Store.kept cluster.new) result }
    ensures cause { (files out : ℕ) → HasCause (counts files (S.shelved shelf.old).faults out)
        (counts files (S.shelved shelf.new).faults out) result }
    ensures obeys { Tells (S.shelved shelf.old) → IfOk result (λ reply. Obeys (DatabaseCommand name)
        (cluster_of S.Store.kept cluster.old) reply (cluster_of S.Store.kept cluster.new)) }
    ensures certain { NeverFails (S.shelved shelf.old) →
        IfOk result (λ reply. StaysCertain (DatabaseCommand name) (cluster_of S.Store.kept cluster.old) reply
        (cluster_of S.Store.kept cluster.new)) }
    ensures quiet { IfOk result (λ reply. StaysQuiet reply (cluster_of S.Store.kept cluster.old)
        (cluster_of S.Store.kept cluster.new)) }
    ensures pays { Tells (S.shelved shelf.old) → IfOk result (λ reply. Pays (S.shelved shelf.old).promise
        (DatabaseCommand name) (cluster_of S.Store.kept cluster.old) reply (cluster_of S.Store.kept cluster.new)) }
    ensures tells { IfOk result (λ reply. KeepsTelling (DatabaseCommand name)
        (cluster_of S.Store.kept cluster.old) reply (cluster_of S.Store.kept cluster.new)) }
    ensures named { IfErr result (NamesMade (DatabaseCommand name) (cluster_of S.Store.kept cluster.old)) }
    ensures unmade { IfErr result (λ stop. is_no_store stop ≡ true →
        cluster_of S.Store.kept cluster.new ≡ cluster_of S.Store.kept cluster.old) }
    ensures stop { IfErr result (λ stop. is_of_store stop ≡ true) }
    ensures distinct { IfOk result (λ reply. AreDistinct (cluster_of S.Store.kept cluster.new).bases) }
{
    let Ok(copy) = name.copy(alloc) else {
        return Err(Stop::NoMemory);
    };
    let Ok(reply) = cluster.step(Command::Database { name }) else {
        return Err(Stop::NoMemory);
    };
    if !is_accepted(&reply) {
        return Ok(reply);
    }
    drop(reply);
    make(cluster, shelf, copy)
}

/// Runs a command that a session can say, and replies.
fn obey<S: Shelf>(
    alloc: Global,
    cluster: &mut Cluster<S::Store>,
    shelf: &mut S,
    command: Command,
) -> Result<Reply, Stop>
    requires spoken { IsSpoken command }
    requires distinct { AreDistinct (cluster_of S.Store.kept cluster.old).bases }
    ensures shelf { Shelves (S.shelved shelf.old) (S.shelved shelf.new) }
    ensures asked { AsksOn (S.shelved shelf.old).asked (cluster_of S.Store.kept cluster.old)
        (S.shelved shelf.new).asked (cluster_of S.Store.kept cluster.new) result }
    ensures cause { (files out : ℕ) → HasCause (counts files (S.shelved shelf.old).faults out)
        (counts files (S.shelved shelf.new).faults out) result }
    ensures obeys { Tells (S.shelved shelf.old) → IfOk result
        (λ reply. Obeys command (cluster_of S.Store.kept cluster.old) reply (cluster_of S.Store.kept cluster.new)) }
    ensures certain { NeverFails (S.shelved shelf.old) →
        IfOk result (λ reply. StaysCertain command (cluster_of S.Store.kept cluster.old) reply
        (cluster_of S.Store.kept cluster.new)) }
    ensures quiet { IfOk result (λ reply. StaysQuiet reply (cluster_of S.Store.kept cluster.old)
        (cluster_of S.Store.kept cluster.new)) }
    ensures pays { Tells (S.shelved shelf.old) → IfOk result (λ reply. Pays (S.shelved shelf.old).promise command
        (cluster_of S.Store.kept cluster.old) reply (cluster_of S.Store.kept cluster.new)) }
    ensures tells { IfOk result (λ reply. KeepsTelling command
        (cluster_of S.Store.kept cluster.old) reply (cluster_of S.Store.kept cluster.new)) }
    ensures named { IfErr result (NamesMade command (cluster_of S.Store.kept cluster.old)) }
    ensures unmade { IfErr result (λ stop. is_no_store stop ≡ true →
        cluster_of S.Store.kept cluster.new ≡ cluster_of S.Store.kept cluster.old) }
    ensures stop { IfErr result (λ stop. is_of_store stop ≡ true) }
    ensures distinct { IfOk result (λ reply. AreDistinct (cluster_of S.Store.kept cluster.new).bases) }
{
    match command {
        Command::Database { name } => make_named(alloc, cluster, shelf, name),
        other => match cluster.step(other) {
            Ok(reply) => Ok(reply),
            Err(NoMemory) => Err(Stop::NoMemory),
        },
    }
}

/// Writes a reply with its newline, in one piece.
fn answer<O: Sink>(alloc: Global, reply: &Reply, out: &mut O) -> Result<(), Stop>
    ensures cause { (files shelf : ℕ) → HasCause (counts files shelf (O.poured out.old).faults)
        (counts files shelf (O.poured out.new).faults) result }
    ensures later { (O.poured out.old).faults ≤ (O.poured out.new).faults }
    ensures written { OnOk result ((O.poured out.new).pieces ≡ with_piece (reply_line reply.now)
        (O.poured out.old).pieces) }
    ensures fits { NumbersFit reply.now }
    ensures cut { IsErrOf result Stop.Write → WritesPart (reply_line reply.now) (O.poured out.old).pieces
        (O.poured out.new).pieces }
    ensures silent { IsErrOf result Stop.NoMemory → (O.poured out.new).pieces ≡ (O.poured out.old).pieces }
    ensures stop { IfErr result (λ stop. is_of_output stop ≡ true) }
{
    numbers_fit(reply);
    let Ok(line) = print_line(alloc, reply) else {
        return Err(Stop::NoMemory);
    };
    match out.write(line.as_slice()) {
        Ok(()) => Ok(()),
        Err(fault) => Err(match fault {
            OutFault::Failed => Stop::Write,
            OutFault::NoMemory => Stop::NoMemory,
        }),
    }
}

/// Obeys a command that a session can say, and writes the reply.
fn run_command<S: Shelf, O: Sink>(
    alloc: Global,
    command: Command,
    cluster: &mut Cluster<S::Store>,
    shelf: &mut S,
    out: &mut O,
) -> Result<(), Stop>
    requires spoken { IsSpoken command }
    requires distinct { AreDistinct (cluster_of S.Store.kept cluster.old).bases }
    ensures shelf { Shelves (S.shelved shelf.old) (S.shelved shelf.new) }
    ensures asked { AsksOn (S.shelved shelf.old).asked (cluster_of S.Store.kept cluster.old)
        (S.shelved shelf.new).asked (cluster_of S.Store.kept cluster.new) result }
    ensures later { (O.poured out.old).faults ≤ (O.poured out.new).faults }
    ensures cause { (files : ℕ) → HasCause (counts files (S.shelved shelf.old).faults (O.poured out.old).faults)
        (counts files (S.shelved shelf.new).faults (O.poured out.new).faults) result }
    ensures stop { IfErr result (λ stop. is_of_command stop ≡ true) }
    ensures runs { Tells (S.shelved shelf.old) → OnOk result
        ((w : World) → Follows w (cluster_of S.Store.kept cluster.old) →
        Replies (S.shelved shelf.old) command w (O.poured out.old).pieces (O.poured out.new).pieces
        (cluster_of S.Store.kept cluster.old) (cluster_of S.Store.kept cluster.new)) }
    ensures cut { Tells (S.shelved shelf.old) → IsErrOf result Stop.Write →
        (lines : List (List ℕ)) → (O.poured out.old).pieces ≡ Some lines →
        (w : World) → Follows w (cluster_of S.Store.kept cluster.old) →
        RepliesInPart (S.shelved shelf.old) command w lines (O.poured out.new).pieces
        (cluster_of S.Store.kept cluster.old) (cluster_of S.Store.kept cluster.new) }
    ensures silent { IsErrOf result Stop.NoMemory → (O.poured out.new).pieces ≡ (O.poured out.old).pieces }
    ensures named { IfErr result (NamesMade command (cluster_of S.Store.kept cluster.old)) }
    ensures unmade { IfErr result (λ stop. is_no_store stop ≡ true →
        ((O.poured out.new).pieces ≡ (O.poured out.old).pieces)
        × (cluster_of S.Store.kept cluster.new ≡ cluster_of S.Store.kept cluster.old)) }
    ensures distinct { IfOk result (λ _. AreDistinct (cluster_of S.Store.kept cluster.new).bases) }
{
    let reply = obey(alloc, cluster, shelf, command)?;
    answer(alloc, &reply, out)
}

/// Reads the next command of the session and runs it, and says whether there was one.
fn run_next<F: Files, S: Shelf, O: Sink>(
    alloc: Global,
    reader: &mut SessionReader,
    cluster: &mut Cluster<S::Store>,
    files: &mut F,
    shelf: &mut S,
    out: &mut O,
) -> Result<bool, Stop>
    requires entered { 0 < length (F.filed files.old).stack }
    requires distinct { AreDistinct (cluster_of S.Store.kept cluster.old).bases }
    ensures files { Stays (F.filed files.old) (F.filed files.new) }
    ensures shelf { Shelves (S.shelved shelf.old) (S.shelved shelf.new) }
    ensures later { (O.poured out.old).faults ≤ (O.poured out.new).faults }
    ensures cause { HasCause (counts (F.filed files.old).faults (S.shelved shelf.old).faults (O.poured out.old).faults)
        (counts (F.filed files.new).faults (S.shelved shelf.new).faults (O.poured out.new).faults) result }
    ensures asked { AsksOn (S.shelved shelf.old).asked (cluster_of S.Store.kept cluster.old)
        (S.shelved shelf.new).asked (cluster_of S.Store.kept cluster.new) result }
    ensures distinct { IfOk result (λ _. AreDistinct (cluster_of S.Store.kept cluster.new).bases) }
    ensures within { reader.new.lines.taken ≤ session_limit }
    ensures moves { IfOk result (λ more. more ≡ true → reader.old.lines.taken < reader.new.lines.taken) }
    ensures comes { (names : List ℕ → Option (List ℕ)) (said : Session) → (F.filed files.old).names ≡ Some names →
        Came names said reader.old (F.filed files.old) →
        ComesOn names said (record { reader = reader.new; files = F.filed files.new }) result }
    ensures runs { (b : Begun) → (F.filed files.old).names ≡ Some b.names →
        (S.shelved shelf.old).promise ≡ b.shelf.promise → Tells b.shelf →
        Running b (record {
          reader = reader.old;
          files = F.filed files.old;
          output = (O.poured out.old).pieces;
          cluster = cluster_of S.Store.kept cluster.old;
        }) →
        RunsOn b (record {
          reader = reader.new;
          files = F.filed files.new;
          output = (O.poured out.new).pieces;
          cluster = cluster_of S.Store.kept cluster.new;
        }) result }
{
    match fetch(alloc, reader, files)? {
        None => Ok(false),
        Some(command) => {
            run_command(alloc, command, cluster, shelf, out)?;
            Ok(true)
        }
    }
}

/// Runs the session that was entered last, from its first line to its end or to a stop, and writes the reply to each of
/// its commands, with its newline in one piece. The cluster says how many databases there may be. Nothing is written
/// that tells of a stop, and the session is not left.
///
/// # Errors
///
/// What stopped the run: a line that is no command, the session's end beyond its limit, a file, the output or the shelf
/// that failed, or `NoMemory`.
pub fn run_session<F: Files, S: Shelf, O: Sink>(
    alloc: Global,
    cluster: &mut Cluster<S::Store>,
    files: &mut F,
    shelf: &mut S,
    out: &mut O,
) -> Result<(), Stop>
    requires entered { 0 < length (F.filed files.old).stack }
    requires distinct { AreDistinct (cluster_of S.Store.kept cluster.old).bases }
    ensures files { Stays (F.filed files.old) (F.filed files.new) }
    ensures later { (O.poured out.old).faults ≤ (O.poured out.new).faults }
    ensures cause { HasCause (counts (F.filed files.old).faults (S.shelved shelf.old).faults (O.poured out.old).faults)
        (counts (F.filed files.new).faults (S.shelved shelf.new).faults (O.poured out.new).faults) result }
    ensures place { (names : List ℕ → Option (List ℕ)) (bytes : List ℕ) → (F.filed files.old).names ≡ Some names →
        top (F.filed files.old).stack ≡ Some bytes → StopsAt (session_of names bytes) result }
    ensures asked { AsksOn (S.shelved shelf.old).asked (cluster_of S.Store.kept cluster.old)
        (S.shelved shelf.new).asked (cluster_of S.Store.kept cluster.new) result }
    ensures runs { (names : List ℕ → Option (List ℕ)) (bytes : List ℕ) (limit : ℕ) →
        (F.filed files.old).names ≡ Some names → top (F.filed files.old).stack ≡ Some bytes →
        Tells (S.shelved shelf.old) → (O.poured out.old).pieces ≡ Some [] →
        Starts limit (cluster_of S.Store.kept cluster.old) →
        RunsSession (begun (S.shelved shelf.old) limit names bytes) (O.poured out.new).pieces
        (cluster_of S.Store.kept cluster.new) (top (F.filed files.new).stack) result }
{
    let Ok(mut reader) = SessionReader::new(alloc) else {
        return Err(Stop::NoMemory);
    };
    while run_next(alloc, &mut reader, cluster, files, shelf, out)? {}
    Ok(())
}
