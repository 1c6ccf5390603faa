// The program over files, stores and an output in memory.
use crate::outside::named;
use node_keeper::{MemFiles, MemShelf, MemSink};
use slon_base::Text;
use slon_main::{Status, slon_main};
use std::alloc::Global;
use std::test::Fail;
use test_words::{expect, require};

/// The numbers of the calls that fail, or 0 where none does.
#[derive(Clone, Copy)]
pub struct Fails {
    pub files: u64,
    pub shelf: u64,
    pub store: u64,
    /// Whether a commit of a store that fails stands.
    pub keep: bool,
    pub out: u64,
}

/// No call fails.
pub const NOTHING: Fails = Fails {
    files: 0,
    shelf: 0,
    store: 0,
    keep: false,
    out: 0,
};

/// This call of a store fails, and a commit that fails stands or not.
pub fn failing_at(store: u64, keep: bool) -> Fails {
    Fails {
        store,
        keep,
        ..NOTHING
    }
}

/// Files with these names and these bytes, of which one call may fail.
fn files_of(alloc: Global, files: &[(&str, &[u8])], fails: u64) -> Result<MemFiles, Fail> {
    let names = named(alloc, files)?;
    Ok(MemFiles::new(alloc, names, vec![in alloc; fails]?))
}

/// A shelf whose stores fail.
fn shelf_of(alloc: Global, fails: Fails) -> Result<MemShelf, Fail> {
    let stores = vec![in alloc; (vec![in alloc; fails.store]?, fails.keep)]?;
    Ok(MemShelf::new(alloc, vec![in alloc; fails.shelf]?, stores))
}

/// The words of the program: a file's name, or none.
fn words_of(alloc: Global, word: Option<&str>) -> Result<Vec<Text>, Fail> {
    let mut words = Vec::new(alloc);
    if let Some(word) = word {
        words.push(Text::from_str(alloc, word)?)?;
    }
    Ok(words)
}

/// Runs the program, and tells how it ended.
fn run_on(
    alloc: Global,
    words: &[Text],
    files: &mut MemFiles,
    shelf: &mut MemShelf,
    out: &mut MemSink,
) -> Status {
    let ended = slon_main(alloc, words, files, shelf, out);
    let status = ended.status;
    drop(ended);
    status
}

/// Runs it over a shelf and an output that are made for it. A write that fails takes one byte.
fn run_to_output(
    alloc: Global,
    words: &[Text],
    files: &mut MemFiles,
    fails: Fails,
) -> Result<(Status, MemSink), Fail> {
    let mut shelf = shelf_of(alloc, fails)?;
    let mut out = MemSink::new(alloc, vec![in alloc; fails.out]?, 1);
    let status = run_on(alloc, words, files, &mut shelf, &mut out);
    drop(shelf);
    Ok((status, out))
}

/// Runs the session of this word over these files.
fn run_over(
    alloc: Global,
    word: Option<&str>,
    files: &[(&str, &[u8])],
    fails: Fails,
) -> Result<(Status, MemSink), Fail> {
    let words = words_of(alloc, word)?;
    let mut files = files_of(alloc, files, fails.files)?;
    let ran = run_to_output(alloc, words.as_slice(), &mut files, fails);
    drop((words, files));
    ran
}

/// Runs the session of the file `s` of these bytes.
pub fn run(alloc: Global, session: &[u8], fails: Fails) -> Result<(Status, MemSink), Fail> {
    run_over(alloc, Some("s"), &[("s", session)], fails)
}

/// The output holds these bytes.
fn expect_written(of: &str, out: &MemSink, written: &[u8]) -> Result<(), Fail> {
    expect(of, str::from_utf8(out.written())?, str::from_utf8(written)?)
}

/// The session of this word over these files, which is called so, ends with this status and this output.
pub fn expect_over(
    alloc: Global,
    of: &str,
    word: Option<&str>,
    files: &[(&str, &[u8])],
    fails: Fails,
    status: Status,
    written: &[u8],
) -> Result<(), Fail> {
    let (is, out) = run_over(alloc, word, files, fails)?;
    let seen = expect_written(of, &out, written);
    drop(out);
    seen?;
    require(is == status, of)
}

/// The same of a session `s` of these bytes.
pub fn expect_end(
    alloc: Global,
    word: Option<&str>,
    session: &[u8],
    fails: Fails,
    status: Status,
    written: &[u8],
) -> Result<(), Fail> {
    let of = str::from_utf8(session)?;
    expect_over(alloc, of, word, &[("s", session)], fails, status, written)
}
