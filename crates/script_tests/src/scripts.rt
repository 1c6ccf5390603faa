// Scripts and what they are read as.
use crate::served::Served;
use crate::telling::tell_fault;
use slonik_parse::{Command, ParseFault, Script, Statement, parse, tokens};
use std::test::Fail;
use test_words::{expect, require};

/// What most scripts here begin with: five tokens.
const HEAD: &str = "cluster name = c;";

/// Commands with the required options alone and with all options.
const COMMANDS: &[&str] = &[
    "init cluster (id = 1);",
    "init cluster (id = 1, comment = 'x');",
    "store node (id = 2, event node = 1);",
    "store node (id = 2, event node = 1, comment = 'x');",
    "drop node (id = 2, event node = 1);",
    "store path (server = 1, client = 2, conninfo = 'x');",
    "store path (server = 1, client = 2, conninfo = 'x', connretry = 10);",
    "drop path (server = 1, client = 2);",
    "create set (id = 1, origin = 1);",
    "create set (id = 1, origin = 1, comment = 'x');",
    "drop set (id = 1, origin = 1);",
    "set add table (set id = 1, origin = 1, id = 2, fully qualified name = 'a.b');",
    "set add table (comment = 'x', key = 'k', fully qualified name = 'a.b', id = 2, origin = 1, set id = 1);",
    "subscribe set (id = 1, provider = 1, receiver = 2);",
    "subscribe set (id = 1, provider = 1, receiver = 2, forward = yes);",
    "unsubscribe set (id = 1, receiver = 2);",
    "lock set (id = 1, origin = 1);",
    "unlock set (id = 1, origin = 1);",
    "move set (id = 1, old origin = 1, new origin = 2);",
    "failover (id = 1, backup node = 2);",
    "sync (id = 1);",
    "wait for event (origin = all, confirmed = 2, wait on = 1);",
    "wait for event (origin = 1, confirmed = all, wait on = 1, timeout = 60);",
    "sleep (seconds = 5);",
    "echo 'x';",
    "exit 3;",
];

/// Statements, and what the script of the head and them gives.
const STATEMENTS: &[(&str, &str)] = &[
    ("", "ok 0"),
    ("sync (id = 2147483647);", "ok 1"),
    ("sync (id = 007);", "ok 1"),
    ("sync (id = 0);", "81 10"),
    ("sync (id = -0);", "81 10"),
    ("sync (id = 2147483648);", "81 10"),
    ("sync (id = 1)", "81 12"),
    ("sync (id = 1,);", "81 12"),
    ("sleep (seconds = -0);", "ok 1"),
    ("exit 255;", "ok 1"),
    ("exit -128;", "ok 1"),
    ("exit 256;", "81 7"),
    ("exit -129;", "81 7"),
    ("create set id;", "81 8"),
    ("create set ();", "83 id"),
    ("create set (id = 1);", "83 origin"),
    ("create set (origin = 1);", "83 id"),
    ("store path (client = 1);", "83 server"),
    (
        "set add table (set id = 1, origin = 1, id = 2);",
        "83 fully qualified name",
    ),
    (
        "create set (id = 1, origin = 1, colour = 'x');",
        "82 colour",
    ),
    (
        "subscribe set (id = 1, provider = 1, receiver = 2, omit copy = true);",
        "85 omit",
    ),
    (
        "subscribe set (id = 1, provider = 1, receiver = 2, OMIT foo = true);",
        "82 omit",
    ),
    ("set add table (tables = 'x');", "85 tables"),
    ("clone prepare (id = 5, provider = 1);", "85 clone"),
    ("clone foo;", "81 6"),
    ("store foo;", "81 7"),
    ("node 1 foo", "81 8"),
    (
        "node 1 admin conninfo = 'a'; node 2 admin conninfo = 'b'; sync (id = 1);",
        "ok 1",
    ),
    ("sync (id = 1); node 1 admin conninfo = 'a';", "81 13"),
    (
        "try { wait for event (origin = 1, confirmed = 2, wait on = 1); }",
        "86 wait",
    ),
    ("try { failover (id = 1, backup node = 2); }", "86 failover"),
    ("try { sync (id = 1); try { } }", "86 try"),
    (
        "try { sync (id = 1); } on error { echo 'x'; } on success { exit 0; }",
        "ok 1",
    ),
    (
        "try { sync (id = 1); } on success { exit 0; } on error { echo 'x'; };",
        "ok 1",
    ),
    ("try { } on error { } on error { }", "81 14"),
    ("try { } on error { } on success { } on error { }", "81 17"),
    ("try { } on error { try { } }", "81 12"),
    ("try { } sync (id = 1); try { };", "ok 3"),
    ("try { sync (id = 1);", "81 15"),
];

/// The files of most scripts here.
const FILES: &[(&str, &str)] = &[
    ("f1", "include <f2>;"),
    ("f2", "include <f3>;"),
    ("f3", "include <f4>;"),
    ("f4", "include <f5>;"),
    ("f5", "include <f6>;"),
    ("f6", "include <f7>;"),
    ("f7", "include <f8>;"),
    ("f8", ""),
    ("g1", "include <g2>;"),
    ("g2", "include <g3>;"),
    ("g3", "include <g4>;"),
    ("g4", "include <g5>;"),
    ("g5", "include <g6>;"),
    ("g6", "include <g7>;"),
    ("g7", "include <g8>;"),
    ("g8", "include <g9>;"),
    ("self", "include <self>;"),
    ("bad", "sync (id = 1);\necho 'x;\n"),
    ("names", "define one 1;"),
    ("sync", "sync (id = @one);"),
];

/// A script in the manner of the manual.
const MANUAL: &str = "define cluster movies;   # names
define sakai 1;
define chen 2;
define fqn fully qualified name;
cluster name = @cluster;
node @sakai admin conninfo = 'dbname=a host=sakai user=slony';
node @chen admin conninfo = 'dbname=b host=chen user=slony';
init cluster (id = @sakai, comment = 'sakai');
store node (id = @chen, event node = @sakai, comment = 'chen');
store path (server = @sakai, client = @chen, conninfo = 'dbname=a');
store path (server = @chen, client = @sakai, conninfo = 'dbname=b');
try {
  create set (id = 1, origin = @sakai, comment = 'movies');
  set add table (set id = 1, origin = @sakai, id = 1, @fqn = 'public.customers');
  set add table (set id = 1, origin = @sakai, id = 2, @fqn = 'public.films');
} on error { echo 'set not made'; }
try {
  create set (id = 1, origin = @sakai, comment = 'movies');
  set add table (set id = 1, origin = @sakai, id = 1, @fqn = 'public.customers');
} on error { exit -1; }
subscribe set (id = 1, provider = @sakai, receiver = @chen, forward = yes);
wait for event (origin = all, confirmed = all, wait on = @sakai);
";

/// Scripts, and what they give: the number of statements, or the refusal.
const SCRIPTS: &[(&str, &str)] = &[
    (MANUAL, "ok 8"),
    ("cluster name = c; include <f1>;", "ok 0"),
    ("cluster name = c; include <g1>;", "88 g9"),
    ("cluster name = c; include <self>;", "88 self"),
    ("cluster name = c;\ninclude <z>;", "89 z"),
    ("cluster name = c;\ninclude <>;", "89 "),
    ("cluster name = c;\ninclude <bad>;", "80 2"),
    ("cluster name = c;\necho 'x;", "80 2"),
    (
        "cluster name = c;\nnode @q admin conninfo = 'dbname=a';",
        "87 q",
    ),
    (
        "cluster name = c; include <names>; include <sync>; sync (id = @one);",
        "ok 2",
    ),
    ("cluster name = c; try { include <sync>; }", "81 8"),
    ("cluster name = c; include <z>", "81 6"),
    ("cluster name = c; echo '@q'; # @q", "ok 1"),
    ("define x @x;", "87 x"),
    ("", "84"),
    ("cluster", "84"),
    ("name cluster = c;", "84"),
    ("CLUSTER NAME = 'c_1';", "ok 0"),
    ("cluster name = 'c d';", "81 4"),
    ("cluster name = c", "81 5"),
];

/// The script that a text is over the files, of which only the first reads succeed, with this number of bytes left.
fn read(rt: &HostRuntime, text: &str, reads: u64, left: &mut u64) -> Result<Script, ParseFault> {
    let mut files = Served::new(FILES, 4096, reads);
    let found = tokens(rt.alloc(), text.as_bytes())?;
    parse(rt.alloc(), found, &mut files, left)
}

/// Writes what a script is read as, in short: the number of statements, or the refusal.
fn tell(line: &mut String, script: &Result<Script, ParseFault>) -> Result<(), Fail> {
    match script {
        Ok(script) => Ok(write!(line, "ok {}", script.statements.len())?),
        Err(fault) => tell_fault(line, fault),
    }
}

/// Writes what a text is read as.
fn tell_text(
    line: &mut String,
    rt: &HostRuntime,
    text: &str,
    reads: u64,
    left: &mut u64,
) -> Result<(), Fail> {
    let script = read(rt, text, reads, left);
    let told = tell(line, &script);
    drop(script);
    told
}

/// A text gives this.
fn expect_given(
    rt: &HostRuntime,
    text: &str,
    reads: u64,
    left: &mut u64,
    wanted: &str,
) -> Result<(), Fail> {
    let mut seen = String::new(rt.alloc());
    tell_text(&mut seen, rt, text, reads, left)?;
    expect(text, seen.as_str(), wanted)
}

/// A text with a part of it repeated.
fn repeated(
    rt: &HostRuntime,
    front: &str,
    part: &str,
    times: u32,
    end: &str,
) -> Result<String, Fail> {
    let mut text = String::from_str(rt.alloc(), front)?;
    for _ in 0..times {
        text.push_str(part)?;
    }
    text.push_str(end)?;
    Ok(text)
}

/// The head with statements behind it gives this.
fn expect_behind_head(rt: &HostRuntime, statements: &str, wanted: &str) -> Result<(), Fail> {
    let text = repeated(rt, HEAD, statements, 1, "")?;
    expect_given(rt, text.as_str(), 0, &mut 0, wanted)
}

#[test]
fn commands_are_read_in_either_case(rt: HostRuntime) -> Result<(), Fail> {
    for command in COMMANDS {
        let upper = command.to_ascii_uppercase(rt.alloc())?;
        expect_behind_head(&rt, command, "ok 1")?;
        expect_behind_head(&rt, upper.as_str(), "ok 1")?;
    }
    Ok(())
}

#[test]
fn statements_are_read_or_refused(rt: HostRuntime) -> Result<(), Fail> {
    for (statements, wanted) in STATEMENTS {
        expect_behind_head(&rt, statements, wanted)?;
    }
    Ok(())
}

#[test]
fn scripts_are_read_or_refused(rt: HostRuntime) -> Result<(), Fail> {
    for (text, wanted) in SCRIPTS {
        expect_given(&rt, text, 1000, &mut 1000, wanted)?;
    }
    Ok(())
}

/// A file twice, and one that is missing.
const TWICE: &str = "cluster name = c; include <names>; include <names>; include <z>;";

/// How many reads succeed, how many bytes are left before, what that script gives, and how many bytes are left then.
const BOUNDS: &[(u64, u64, &str, u64)] = &[
    (1000, 100, "89 z", 74),
    (1000, 26, "89 z", 0),
    (1000, 25, "the included files are too long", 12),
    (0, 100, "the files failed", 100),
    (3, 100, "the files failed", 87),
];

#[test]
fn files_are_read_within_bounds(rt: HostRuntime) -> Result<(), Fail> {
    for (reads, before, wanted, after) in BOUNDS {
        let mut left = *before;
        expect_given(&rt, TWICE, *reads, &mut left, wanted)?;
        assert!(rt; left == *after, "{left} bytes are left of {before}");
    }
    Ok(())
}

const DEFINE: &str = "cluster name = c; define a sync; ";

/// What a text begins with, what is repeated and how often, its end, and what it gives.
type LongText = (&'static str, &'static str, u32, &'static str, &'static str);

const LONG_TEXTS: &[LongText] = &[
    (HEAD, "{", 8000, "", "81 6"),
    (DEFINE, "define a @a @a; ", 17, "", "ok 0"),
    (DEFINE, "define a @a @a; ", 17, "@a;", "96"),
];

/// The long text gives what it is to give.
fn expect_long(rt: &HostRuntime, long: &LongText) -> Result<(), Fail> {
    let (front, part, times, end, wanted) = long;
    let text = repeated(rt, front, part, *times, end)?;
    expect_given(rt, text.as_str(), 0, &mut 0, wanted)
}

#[test]
fn long_texts_are_read(rt: HostRuntime) -> Result<(), Fail> {
    for long in LONG_TEXTS {
        expect_long(&rt, long)?;
    }
    Ok(())
}

/// The id of the last command, if that is a SYNC.
fn last_sync(script: &Script) -> Option<u32> {
    match script.statements.as_slice() {
        [.., Statement::Single(Command::Sync { id })] => Some(*id),
        _ => None,
    }
}

/// Two values of one thing each.
const LATER: &str = "cluster name = c; node 7 admin conninfo = 'a'; node 7 admin conninfo = 'b'; \
    sync (id = 1, id = 2);";

/// The script has the later value of each thing.
fn expect_later(script: &Script) -> Result<(), Fail> {
    require(script.nodes.len() == 1, "one node")?;
    let conninfo = script.nodes.conninfo(7).map(|text| text.as_str());
    require(conninfo == Some("b"), "the later conninfo")?;
    require(last_sync(script) == Some(2), "the later id")
}

#[test]
fn later_values_count(rt: HostRuntime) -> Result<(), Fail> {
    let script = read(&rt, LATER, 0, &mut 0)?;
    let done = expect_later(&script);
    drop(script);
    done
}
