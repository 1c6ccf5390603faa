// A command over a store that fails at each of its calls in turn.
use crate::running::{NOTHING, run};
use crate::wanted::{Wanted, is_among, nothing_wanted};
use node_keeper::MemSink;
use slon_main::Status;
use std::alloc::{AllocError, Global};
use std::test::Fail;
use test_words::{keeping, require};

/// A command that is run while the store of a database fails at one of its calls, and how the session may end.
#[derive(Clone, Copy)]
pub struct Sweep {
    /// The databases, with their tables.
    pub databases: &'static str,
    /// The nodes by their databases.
    pub nodes: &'static str,
    /// The statements that make the cluster, or none.
    pub cluster: &'static str,
    /// The lines before the command.
    pub front: [&'static str; 2],
    /// The database of the store, and with how many of its calls the sweep is tried.
    pub database: &'static str,
    pub calls: u32,
    /// The command and the lines behind it.
    pub lines: &'static str,
    /// What is replied to these lines where the call that fails is not reached.
    pub done: &'static str,
    /// Where it fails, and nothing of the command stands.
    pub failed: &'static str,
    /// Where the commit is in doubt, and all of it stands.
    pub kept: &'static str,
    /// Where it is in doubt, and nothing of it stands.
    pub lost: &'static str,
}

impl Sweep {
    /// Adds what stands before the command.
    fn push_front(&self, wanted: &mut Wanted) -> Result<(), AllocError> {
        wanted.push_all(self.databases)?;
        if !self.cluster.is_empty() {
            wanted.push_script(self.nodes, self.cluster)?;
        }
        wanted.push_all(self.front[0])?;
        wanted.push_all(self.front[1])
    }

    /// The session where the store fails behind this number of calls.
    fn session(
        &self,
        alloc: Global,
        front: &str,
        calls: u32,
        keep: bool,
    ) -> Result<String, AllocError> {
        let (database, kept, lines) = (self.database, keeping(keep), self.lines);
        format!(in alloc; "{front}crash {database} after {calls} {kept}\n{lines}")
    }

    /// Whether the crash was told in this output.
    fn tells(&self, is: Status, out: &MemSink, keep: bool) -> Result<bool, Fail> {
        require(is == Status::Done, "a command over a store that fails")?;
        let doubted = if keep { self.kept } else { self.lost };
        let written = str::from_utf8(out.written())?;
        is_among(written, self.done, self.failed, doubted)
    }

    /// Whether the crash was told.
    fn is_told(&self, alloc: Global, front: &str, calls: u32, keep: bool) -> Result<bool, Fail> {
        let session = self.session(alloc, front, calls, keep)?;
        let (is, out) = run(alloc, session.as_bytes(), NOTHING)?;
        let told = self.tells(is, &out, keep);
        drop(out);
        told
    }

    /// A crash at each call: the first calls are told, and those behind are not reached. How many are told.
    fn count(&self, alloc: Global, front: &str, keep: bool) -> Result<u32, Fail> {
        let mut told = 0;
        for calls in 0..self.calls {
            if self.is_told(alloc, front, calls, keep)? {
                require(told == calls, "a call that is not told")?;
                told = calls + 1;
            }
        }
        require(told < self.calls, "fewer calls")?;
        Ok(told)
    }

    /// The same over the session of this sweep, where a commit that fails stands or not.
    pub fn told_at_each(&self, alloc: Global, keep: bool) -> Result<u32, Fail> {
        let mut wanted = nothing_wanted(alloc);
        self.push_front(&mut wanted)?;
        self.count(alloc, wanted.session.as_str(), keep)
    }

    /// How many calls are told where a commit that fails is lost. They are as many where it is kept.
    pub fn told_of_both(&self, alloc: Global) -> Result<u32, Fail> {
        let told = self.told_at_each(alloc, false)?;
        require(self.told_at_each(alloc, true)? == told, "as many calls")?;
        Ok(told)
    }
}
