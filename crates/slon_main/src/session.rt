// A session from its words to its end.
ghost use Rattle.std.specs.Prelude.{◌≡◌, ℕ, ◌<◌, List, Option, length, true, None, Some, [], is_some};
ghost use Rattle.std.specs.Option.{option_map};
ghost use Rattle.slon_base.specs.Outside.{top};
ghost use Rattle.session_reader.specs.Sessions.{session_of};
ghost use Rattle.session_reader.specs.Sessions.{Ended as ReachesItsEnd};
ghost use Rattle.std.specs.Prelude.{string_bytes, IfOk};
ghost use Rattle.slon_main.specs.Ending as ending;
ghost use Rattle.cluster_engine.specs.Clustered.{cluster_of};
ghost use Rattle.slon_main.specs.Running.{counts, AreAsked, Tells};
ghost use Rattle.slon_main.specs.Ending.{Closes, ClosesAt, hands_back, FaultOnly, NoneRose, Told, told_of, is_run};
ghost use Rattle.slon_main.specs.Ending.{is_whole, is_refused, is_lost, EndsRun, EndsAt, Holds, Lacks, LeavesIt};
ghost use Rattle.slon_main.specs.Ending.{MissingOnly};
ghost use Rattle.slon_main.specs.Ending.{UsageOnly, unread};

use crate::run::{Stop, run_session};
use crate::status::Status;
use cluster_engine::Cluster;
use node_keeper::Keeper;
use slon_base::{Files, OutFault, Shelf, Sink, Text};
use std::alloc::{AllocError, Global};

/// The greatest number of databases of a session.
const DATABASE_LIMIT: u32 = 16;

/// The last line where the words are not one name.
const USAGE: &[u8] = b"usage: slonrun [--store DIR] [--databases N] [--gen N] [SESSION]\n";

/// How a session ended, and its databases as the run left them.
#[derive(Drop)]
pub struct Ended<K: Keeper> {
    /// How it ended.
    pub status: Status,
    /// Its databases, exactly at `Done`, `BadLine`, `ReadFault`, `NoStore` and `TooLong`.
    pub cluster: Option<Cluster<K>>,
}

/// Writes the last line of a session and ends it.
fn close<K: Keeper, O: Sink>(
    line: &[u8],
    status: Status,
    cluster: Option<Cluster<K>>,
    out: &mut O,
) -> Ended<K>
    ensures { Closes line.now status cluster (O.poured out.old) (O.poured out.new) result.status result.cluster }
{
    match out.write(line) {
        Ok(()) => Ended { status, cluster },
        Err(fault) => match fault {
            OutFault::Failed => Ended {
                status: Status::WriteFault,
                cluster: None,
            },
            OutFault::NoMemory => short(),
        },
    }
}

/// The last line of a session whose line of this number is no command.
fn bad_line(alloc: Global, number: u64) -> Result<String, AllocError>
    ensures { IfOk result (λ line. string_bytes line ≡ ending.bad_line number) }
{
    let mut line = String::new(alloc);
    write!(line, "stop line {number}\n")?;
    Ok(line)
}

/// The last line of a session whose database of this name got no store.
fn store_line(alloc: Global, name: &Text) -> Result<String, AllocError>
    ensures { IfOk result (λ line. string_bytes line ≡ ending.store_line name.now) }
{
    let mut line = String::new(alloc);
    let name = name.as_str();
    write!(line, "stop store {name}\n")?;
    Ok(line)
}

/// The last line where no session has this name.
fn missing_line(alloc: Global, name: &Text) -> Result<String, AllocError>
    ensures { IfOk result (λ line. string_bytes line ≡ ending.missing_line name.now) }
{
    let mut line = String::new(alloc);
    let name = name.as_str();
    write!(line, "stop missing {name}\n")?;
    Ok(line)
}

/// The end of a session for want of memory.
fn short<K: Keeper>() -> Ended<K>
    ensures status { result.status ≡ Status.NoMemory }
    ensures cluster { result.cluster ≡ None }
{
    Ended {
        status: Status::NoMemory,
        cluster: None,
    }
}

/// Ends a session at a stop, with its last line.
fn stopped<K: Keeper, O: Sink>(
    alloc: Global,
    stop: Stop,
    cluster: Cluster<K>,
    out: &mut O,
) -> Ended<K>
    ensures { ClosesAt stop cluster (O.poured out.old) (O.poured out.new) result.status result.cluster }
{
    let kept = Some(cluster);
    match stop {
        Stop::BadLine { number } => match bad_line(alloc, number) {
            Ok(line) => close(line.as_str().as_bytes(), Status::BadLine, kept, out),
            Err(_) => short(),
        },
        Stop::Read => close(b"stop read\n".as_slice(), Status::ReadFault, kept, out),
        Stop::Write => Ended {
            status: Status::WriteFault,
            cluster: None,
        },
        Stop::NoMemory => short(),
        Stop::NoStore { name } => match store_line(alloc, &name) {
            Ok(line) => close(line.as_str().as_bytes(), Status::NoStore, kept, out),
            Err(_) => short(),
        },
        Stop::TooLong => close(b"stop long\n".as_slice(), Status::TooLong, kept, out),
    }
}

/// Runs the session that was entered last and ends it.
fn run_entered<F: Files, S: Shelf, O: Sink>(
    alloc: Global,
    files: &mut F,
    shelf: &mut S,
    out: &mut O,
) -> Ended<S::Store>
    requires { 0 < length (F.filed files.old).stack }
    ensures run { is_run result.status ≡ true }
    ensures cluster { is_some result.cluster ≡ hands_back result.status }
    ensures faults { FaultOnly result.status (counts (F.filed files.old).faults (S.shelved shelf.old).faults
        (O.poured out.old).faults) (counts (F.filed files.new).faults (S.shelved shelf.new).faults
        (O.poured out.new).faults) }
    ensures place { (names : List ℕ → Option (List ℕ)) (bytes : List ℕ) → (F.filed files.old).names ≡ Some names →
        top (F.filed files.old).stack ≡ Some bytes → EndsAt result.status (session_of names bytes) }
    ensures ends { (names : List ℕ → Option (List ℕ)) (bytes : List ℕ) → (F.filed files.old).names ≡ Some names →
        top (F.filed files.old).stack ≡ Some bytes → Tells (S.shelved shelf.old) →
        (O.poured out.old).pieces ≡ Some [] → EndsRun (S.shelved shelf.old) result.status (told_of names bytes)
        (O.poured out.new).pieces (unread (F.filed files.old) (F.filed files.new))
        (option_map (cluster_of S.Store.kept) result.cluster) }
    ensures asked { (S.shelved shelf.old).asked ≡ Some [] → AreAsked (S.shelved shelf.new).asked }
    ensures left { LeavesIt (F.filed files.old) (F.filed files.new) }
{
    let mut cluster = Cluster::new(alloc, DATABASE_LIMIT);
    let ran = run_session(alloc, &mut cluster, files, shelf, out);
    files.leave();
    match ran {
        Ok(()) => Ended {
            status: Status::Done,
            cluster: Some(cluster),
        },
        Err(stop) => stopped(alloc, stop, cluster, out),
    }
}

/// The name of the session, where the words are this name and nothing else.
fn session_word(words: &[Text]) -> Option<&Text>
    ensures { option_map (λ word. word.now) result ≡ ending.session_word words.now }
{
    let [word] = words else {
        return None;
    };
    if word.as_slice().first() == Some(&b'-') {
        return None;
    }
    Some(word)
}

/// Runs the session that the words name, and writes the reply to each of its commands.
///
/// The words are the name of a session and nothing else; a word that begins with `-` is no name. The session is read
/// command by command and each is run as it is read; each reply is written with its newline in one piece. The last line
/// written says why a session stopped, and `status` how it ended.
pub fn slon_main<F: Files, S: Shelf, O: Sink>(
    alloc: Global,
    words: &[Text],
    files: &mut F,
    shelf: &mut S,
    out: &mut O,
) -> Ended<S::Store>
    ensures ends { (told : Told) → Holds words.now told (F.filed files.old) → Tells (S.shelved shelf.old) →
        (O.poured out.old).pieces ≡ Some [] → EndsRun (S.shelved shelf.old) result.status told
        (O.poured out.new).pieces (unread (F.filed files.old) (F.filed files.new))
        (option_map (cluster_of S.Store.kept) result.cluster) }
    ensures asked { (S.shelved shelf.old).asked ≡ Some [] → AreAsked (S.shelved shelf.new).asked }
    ensures names { (F.filed files.new).names ≡ (F.filed files.old).names }
    ensures left { (F.filed files.new).stack ≡ (F.filed files.old).stack }
    ensures untouched { ending.session_word words.now ≡ None → (files.new ≡ files.old) × (shelf.new ≡ shelf.old) }
    ensures cluster { is_some result.cluster ≡ hands_back result.status }
    ensures faults { FaultOnly result.status (counts (F.filed files.old).faults (S.shelved shelf.old).faults
        (O.poured out.old).faults) (counts (F.filed files.new).faults (S.shelved shelf.new).faults
        (O.poured out.new).faults) }
    ensures complete { (told : Told) → Holds words.now told (F.filed files.old) → told.said.end ≡ ReachesItsEnd →
        NoneRose (counts (F.filed files.old).faults (S.shelved shelf.old).faults (O.poured out.old).faults)
        (counts (F.filed files.new).faults (S.shelved shelf.new).faults (O.poured out.new).faults) →
        is_whole result.status ≡ true }
    ensures place { (told : Told) → Holds words.now told (F.filed files.old) → EndsAt result.status told.said }
    ensures usage { result.status ≡ Status.Usage → UsageOnly words.now (O.poured out.old) (O.poured out.new) }
    ensures refused { ending.session_word words.now ≡ None → is_refused result.status ≡ true }
    ensures missing { result.status ≡ Status.Missing →
        MissingOnly words.now (F.filed files.old) (O.poured out.old) (O.poured out.new) }
    ensures lost { Lacks words.now (F.filed files.old) → is_lost result.status ≡ true }
{
    let Some(name) = session_word(words) else {
        return close(USAGE, Status::Usage, None, out);
    };
    match files.enter(name.as_slice()) {
        Ok(true) => run_entered(alloc, files, shelf, out),
        Ok(false) => match missing_line(alloc, name) {
            Ok(line) => close(line.as_str().as_bytes(), Status::Missing, None, out),
            Err(_) => short(),
        },
        Err(fault) => match fault {
            OutFault::Failed => {
                let cluster = Cluster::new(alloc, DATABASE_LIMIT);
                stopped(alloc, Stop::Read, cluster, out)
            }
            OutFault::NoMemory => short(),
        },
    }
}
