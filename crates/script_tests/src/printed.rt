// Replies and their lines.
use session_text::{print_line, print_reply};
use slon_base::{Text, TextList};
use slon_model::{Answer, EventKind, KeptList, ProgressList, Refusal, Reply, TableRows};
use slonik_script::ScriptRefusal;
use std::alloc::AllocError;
use std::test::Fail;
use test_words::{expect, require};

/// A name.
fn name(rt: &HostRuntime, name: &str) -> Result<Text, AllocError> {
    Text::from_str(rt.alloc(), name)
}

/// A list of these texts.
fn texts(rt: &HostRuntime, all: &[&str]) -> Result<TextList, AllocError> {
    let mut list = TextList::new(rt.alloc());
    for text in all {
        list.push(name(rt, text)?)?;
    }
    Ok(list)
}

/// Adds a row of a key and its values.
fn push_row(
    rt: &HostRuntime,
    rows: &mut TableRows,
    key: &str,
    values: &[&str],
) -> Result<(), AllocError> {
    let values = texts(rt, values)?;
    rows.push(name(rt, key)?, values)
}

/// The reply of these rows, of a key and its values each.
fn listed(rt: &HostRuntime, all: &[(&str, &[&str])]) -> Result<Reply, AllocError> {
    let mut rows = TableRows::new(rt.alloc());
    for (key, values) in all {
        push_row(rt, &mut rows, key, values)?;
    }
    Ok(Reply::Accepted(Answer::Listed { rows }))
}

/// The reply prints as this line, with and without its newline.
fn expect_line(rt: &HostRuntime, reply: &Reply, line: &str) -> Result<(), Fail> {
    let printed = print_reply(rt.alloc(), reply)?;
    expect("a reply", printed.as_str(), line)?;
    let whole = print_line(rt.alloc(), reply)?;
    require(whole.as_str().strip_suffix('\n') == Some(line), line)
}

/// The same of a reply that is let go.
fn expect_reply(rt: &HostRuntime, reply: Reply, line: &str) -> Result<(), Fail> {
    let printed = expect_line(rt, &reply, line);
    drop(reply);
    printed
}

/// The same of a refusal.
fn expect_refusal(rt: &HostRuntime, refusal: Refusal, line: &str) -> Result<(), Fail> {
    expect_reply(rt, Reply::Refused(refusal), line)
}

/// The same of rows.
fn expect_rows(rt: &HostRuntime, rows: &[(&str, &[&str])], line: &str) -> Result<(), Fail> {
    expect_reply(rt, listed(rt, rows)?, line)
}

/// The same of an answer.
fn expect_answer(rt: &HostRuntime, answer: Answer, line: &str) -> Result<(), Fail> {
    expect_reply(rt, Reply::Accepted(answer), line)
}

#[test]
fn answers_are_printed(rt: HostRuntime) -> Result<(), Fail> {
    expect_answer(&rt, Answer::Done, "ok")?;
    expect_answer(&rt, Answer::Opened { xid: 1 }, "ok xid 1")?;
    expect_answer(&rt, Answer::Acted { number: 1 }, "ok action 1")?;
    expect_answer(&rt, Answer::Unchanged, "ok none")?;
    expect_answer(&rt, Answer::Committed { actions: 1 }, "ok actions 1")?;
    expect_answer(&rt, Answer::Kept, "ok kept")?;
    expect_answer(&rt, Answer::Lost, "ok lost")
}

#[test]
fn answers_of_scripts_are_printed(rt: HostRuntime) -> Result<(), Fail> {
    expect_answer(&rt, Answer::Statements { count: 6 }, "ok statements 6")?;
    expect_answer(&rt, Answer::Emitted { node: 1, number: 4 }, "ok event 1 4")?;
    expect_answer(&rt, Answer::Ended { status: 255 }, "ok ended 255")?;
    let (events, confirms) = (4, 0);
    let heard = Answer::Heard { events, confirms };
    expect_answer(&rt, heard, "ok events 4 confirms 0")?;
    let lost = Answer::LostOnTheWay { events, confirms };
    expect_answer(&rt, lost, "ok lost events 4 confirms 0")
}

/// Each kind of events with its word.
const KINDS: &[(EventKind, &str)] = &[
    (EventKind::Sync, "SYNC"),
    (EventKind::StoreNode, "STORE_NODE"),
    (EventKind::DropNode, "DROP_NODE"),
    (EventKind::StorePath, "STORE_PATH"),
    (EventKind::DropPath, "DROP_PATH"),
    (EventKind::StoreSet, "STORE_SET"),
    (EventKind::DropSet, "DROP_SET"),
    (EventKind::SetAddTable, "SET_ADD_TABLE"),
    (EventKind::SubscribeSet, "SUBSCRIBE_SET"),
    (EventKind::EnableSubscription, "ENABLE_SUBSCRIPTION"),
    (EventKind::UnsubscribeSet, "UNSUBSCRIBE_SET"),
    (EventKind::MoveSet, "MOVE_SET"),
    (EventKind::AcceptSet, "ACCEPT_SET"),
    (EventKind::FailoverSet, "FAILOVER_SET"),
];

/// An event of this kind is printed with this word.
fn expect_applied(rt: &HostRuntime, kind: EventKind, word: &str) -> Result<(), Fail> {
    let wanted = format!(in rt.alloc(); "ok {word} 7 rows 3")?;
    let (number, rows) = (7, 3);
    let applied = Answer::Applied { kind, number, rows };
    expect_answer(rt, applied, wanted.as_str())
}

#[test]
fn applied_events_are_printed(rt: HostRuntime) -> Result<(), Fail> {
    for (kind, word) in KINDS {
        expect_applied(&rt, *kind, word)?;
    }
    Ok(())
}

#[test]
fn fetched_events_are_printed(rt: HostRuntime) -> Result<(), Fail> {
    let fetched = Answer::Fetched { number: 7, rows: 3 };
    expect_answer(&rt, fetched, "ok fetched 7 rows 3")
}

/// The refusal of this code, from 60 on, with the number 7 where it has one.
fn later(code: u32) -> Refusal {
    match code {
        60 => Refusal::Nothing,
        61 => Refusal::NotListed { server: 7 },
        62 => Refusal::NotKnown { node: 7 },
        63 => Refusal::Behind {
            provider: 7,
            progress: 8,
            number: 9,
        },
        66 => Refusal::Busy { xid: 7 },
        67 => Refusal::Off { node: 7 },
        68 => Refusal::Severed { node: 7, other: 7 },
        72 => Refusal::NotActive { node: 7 },
        73 => Refusal::NotForwarding { node: 7 },
        75 => Refusal::NoPath { node: 7 },
        76 => Refusal::StillUsed { set: 7 },
        78 => Refusal::SameNode { node: 7 },
        80 => Refusal::Script(ScriptRefusal::BadToken { line: 7 }),
        81 => Refusal::Script(ScriptRefusal::BadSyntax { place: 7 }),
        84 => Refusal::Script(ScriptRefusal::NoPreamble),
        _ => Refusal::Script(ScriptRefusal::TooMany),
    }
}

/// The refusal of this code, with the number 7 where it has one.
fn numbered(code: u32) -> Refusal {
    match code {
        12 => Refusal::Locked { xid: 7 },
        13 => Refusal::Full { limit: 7 },
        14 => Refusal::BadRow { space: 7 },
        18 => Refusal::IdUsed { id: 7 },
        21 => Refusal::TooBig { space: 7 },
        41 => Refusal::NotInitialised { node: 7 },
        42 => Refusal::OtherNode { node: 7 },
        43 => Refusal::AlreadyNode { node: 7 },
        44 => Refusal::NoNode { node: 7 },
        45 => Refusal::NoConninfo { node: 7 },
        46 => Refusal::HasReceivers { node: 7 },
        47 => Refusal::NoSet { set: 7 },
        54 => Refusal::Duplicate,
        55 => Refusal::NotOrigin { set: 7 },
        56 => Refusal::SetLocked { set: 7 },
        57 => Refusal::BadWidth { columns: 7 },
        59 => Refusal::Loop { set: 7 },
        _ => later(code),
    }
}

/// The codes of these refusals, and their lines.
const NUMBERED: &[(u32, &str)] = &[
    (12, "no 12 locked 7"),
    (13, "no 13 full 7"),
    (14, "no 14 badrow 7"),
    (18, "no 18 idused 7"),
    (21, "no 21 toobig 7"),
    (41, "no 41 notinitialised 7"),
    (42, "no 42 othernode 7"),
    (43, "no 43 alreadynode 7"),
    (44, "no 44 nonode 7"),
    (45, "no 45 noconninfo 7"),
    (46, "no 46 hasreceivers 7"),
    (47, "no 47 noset 7"),
    (54, "no 54 duplicate"),
    (55, "no 55 notorigin 7"),
    (56, "no 56 setlocked 7"),
    (57, "no 57 badwidth 7"),
    (59, "no 59 loop 7"),
    (60, "no 60 nothing"),
    (61, "no 61 notlisted 7"),
    (62, "no 62 notknown 7"),
    (63, "no 63 behind 7 8 9"),
    (66, "no 66 busy 7"),
    (67, "no 67 off 7"),
    (68, "no 68 cut 7 7"),
    (72, "no 72 notactive 7"),
    (73, "no 73 notforwarding 7"),
    (75, "no 75 nopath 7"),
    (76, "no 76 stillused 7"),
    (78, "no 78 samenode 7"),
    (80, "no 80 badtoken 7"),
    (81, "no 81 badsyntax 7"),
    (84, "no 84 nopreamble"),
    (96, "no 96 toomany"),
];

#[test]
fn refusals_are_printed(rt: HostRuntime) -> Result<(), Fail> {
    for (code, line) in NUMBERED {
        expect_refusal(&rt, numbered(*code), line)?;
    }
    Ok(())
}

/// How far a node is that is in the streams of two.
fn progress(rt: &HostRuntime) -> Result<ProgressList, AllocError> {
    let mut progress = ProgressList::new(rt.alloc());
    progress.push(1, 4)?;
    progress.push(2, 0)?;
    Ok(progress)
}

/// The one set of which it keeps progress.
fn kept(rt: &HostRuntime) -> Result<KeptList, AllocError> {
    let mut kept = KeptList::new(rt.alloc());
    kept.push(1, 2, name(rt, "3:5:3,4")?)?;
    Ok(kept)
}

/// What `status` answers of it.
fn status(rt: &HostRuntime) -> Result<Answer, AllocError> {
    let progress = progress(rt)?;
    Ok(Answer::Status {
        node: 2,
        log: 3,
        progress,
        kept: kept(rt)?,
    })
}

#[test]
fn status_is_printed(rt: HostRuntime) -> Result<(), Fail> {
    let line = "ok node 2 log 3 progress 1 4 progress 2 0 set 1 era 2 at 3:5:3,4";
    expect_answer(&rt, status(&rt)?, line)
}

/// Rows, and their line.
const ROWS: &[(&[(&str, &[&str])], &str)] = &[
    (&[], "ok rows 0"),
    (&[("k", &["1"])], "ok rows 1 k=1"),
    (&[("k", &[])], "ok rows 1 k="),
    (
        &[("a", &["1", "2", "3"]), ("b", &["x", "y", "z"])],
        "ok rows 2 a=1,2,3 b=x,y,z",
    ),
];

#[test]
fn rows_are_printed(rt: HostRuntime) -> Result<(), Fail> {
    for (rows, line) in ROWS {
        expect_rows(&rt, rows, line)?;
    }
    Ok(())
}

#[test]
fn a_doubt_is_printed(rt: HostRuntime) -> Result<(), Fail> {
    let database = name(&rt, "a")?;
    let answer = Answer::Committed { actions: 1 };
    let reply = Reply::InDoubt { database, answer };
    expect_reply(&rt, reply, "doubt a ok actions 1")
}

/// The refusal of this code, with this text.
fn worded(code: u32, text: Text) -> Refusal {
    match code {
        15 => Refusal::NotEmpty { database: text },
        16 => Refusal::Down { database: text },
        17 => Refusal::NoDatabase { database: text },
        19 => Refusal::IsUp { database: text },
        50 => Refusal::TableExists { table: text },
        51 => Refusal::NameUsed { name: text },
        52 => Refusal::NoTable { table: text },
        53 => Refusal::NoTransaction { transaction: text },
        58 => Refusal::TableUsed { table: text },
        82 => Refusal::Script(ScriptRefusal::UnknownOption { word: text }),
        83 => Refusal::Script(ScriptRefusal::MissingOption { words: text }),
        85 => Refusal::Script(ScriptRefusal::NotInProfile { word: text }),
        86 => Refusal::Script(ScriptRefusal::NotInTry { word: text }),
        87 => Refusal::Script(ScriptRefusal::Undefined { name: text }),
        88 => Refusal::Script(ScriptRefusal::Depth { path: text }),
        89 => Refusal::Script(ScriptRefusal::NoFile { path: text }),
        93 => Refusal::ScriptUsed { name: text },
        94 => Refusal::NoScript { name: text },
        _ => Refusal::NotBuilt { word: text },
    }
}

/// Codes of refusals, their texts, and their lines.
type Worded = (u32, &'static str, &'static str);

/// Each of the refusals prints as its line.
fn expect_worded(rt: &HostRuntime, all: &[Worded]) -> Result<(), Fail> {
    for (code, text, line) in all {
        expect_refusal(rt, worded(*code, name(rt, text)?), line)?;
    }
    Ok(())
}

/// Refusals that name a database.
const OF_DATABASES: &[Worded] = &[
    (15, "a", "no 15 notempty a"),
    (16, "a", "no 16 down a"),
    (17, "a", "no 17 nodatabase a"),
    (19, "a", "no 19 isup a"),
];

#[test]
fn names_of_databases_are_printed(rt: HostRuntime) -> Result<(), Fail> {
    let database = name(&rt, "a")?;
    expect_refusal(
        &rt,
        Refusal::Fault { database, count: 3 },
        "no 10 fault a 3",
    )?;
    expect_worded(&rt, OF_DATABASES)
}

/// Refusals that name a table, a transaction, or a name that is used.
const OF_TABLES: &[Worded] = &[
    (50, "s.t", "no 50 tableexists s.t"),
    (52, "s.t", "no 52 notable s.t"),
    (51, "x", "no 51 nameused x"),
    (53, "x", "no 53 notransaction x"),
];

#[test]
fn names_of_tables_and_transactions_are_printed(rt: HostRuntime) -> Result<(), Fail> {
    expect_worded(&rt, OF_TABLES)
}

/// Refusals that name something else, or say a text.
const WORDED: &[Worded] = &[
    (58, "s.t", "no 58 tableused s.t"),
    (82, "colour", "no 82 unknownoption colour"),
    (83, "event node", "no 83 missingoption event node"),
    (85, "clone", "no 85 notinprofile clone"),
    (86, "echo", "no 86 notintry echo"),
    (87, "n", "no 87 undefined n"),
    (88, "a b", "no 88 depth a b"),
    (89, "", "no 89 nofile "),
    (93, "s", "no 93 scriptused s"),
    (94, "s", "no 94 noscript s"),
    (98, "move", "no 98 notbuilt move"),
];

#[test]
fn texts_are_printed(rt: HostRuntime) -> Result<(), Fail> {
    expect_worded(&rt, WORDED)?;
    let text = name(&rt, "two words")?;
    expect_answer(&rt, Answer::Echoed { text }, "ok echo two words")
}
