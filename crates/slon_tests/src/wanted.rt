// Sessions with the replies that are wanted, and sessions that end in one of several ways.
use crate::running::{NOTHING, expect_end};
use slon_main::Status;
use std::alloc::{AllocError, Global};
use std::test::Fail;
use test_words::require;

/// A session and the replies that are wanted.
#[derive(Drop)]
pub struct Wanted {
    pub session: String,
    pub replies: String,
}

/// An empty session.
pub fn nothing_wanted(alloc: Global) -> Wanted {
    Wanted {
        session: String::new(alloc),
        replies: String::new(alloc),
    }
}

/// A statement, or a line of the session, and its reply behind ` => `.
fn parts_of(step: &str) -> (&str, &str) {
    step.split_once(" => ").unwrap_or((step, ""))
}

impl Wanted {
    /// Adds a line with its reply.
    pub fn push(&mut self, line: &str, reply: &str) -> Result<(), AllocError> {
        write!(self.session, "{line}\n")?;
        write!(self.replies, "{reply}\n")
    }

    /// Adds a line with its reply, or a line that has none: a comment, or a line of a script.
    fn push_step(&mut self, step: &str) -> Result<(), AllocError> {
        match step.split_once(" => ") {
            Some((line, reply)) => self.push(line, reply),
            None => write!(self.session, "{step}\n"),
        }
    }

    /// Adds such lines.
    pub fn push_all(&mut self, steps: &str) -> Result<(), AllocError> {
        for step in steps.lines() {
            self.push_step(step)?;
        }
        Ok(())
    }

    /// Adds the statements of a script.
    fn push_statements(&mut self, steps: &str) -> Result<(), AllocError> {
        for step in steps.lines() {
            let (statement, _) = parts_of(step);
            write!(self.session, "{statement}\n")?;
        }
        Ok(())
    }

    /// Adds a step of the script for each of its statements.
    fn push_replies(&mut self, steps: &str) -> Result<(), AllocError> {
        for step in steps.lines() {
            let (_, reply) = parts_of(step);
            self.push("step s", reply)?;
        }
        Ok(())
    }

    /// Adds a script over these nodes, which is run step by step.
    pub fn push_script(&mut self, nodes: &str, steps: &str) -> Result<(), AllocError> {
        write!(self.session, "slonik s <<\n{nodes}")?;
        self.push_statements(steps)?;
        self.session.push_str(">>\n")?;
        write!(self.replies, "ok statements {}\n", steps.lines().count())?;
        self.push_replies(steps)
    }

    /// Adds a script of each of these statements.
    pub fn push_each(&mut self, nodes: &str, steps: &str) -> Result<(), AllocError> {
        for step in steps.lines() {
            self.push_script(nodes, step)?;
        }
        Ok(())
    }
}

/// The session is run to its end, with these replies.
pub fn expect_wanted(alloc: Global, wanted: &Wanted) -> Result<(), Fail> {
    expect_end(
        alloc,
        Some("s"),
        wanted.session.as_bytes(),
        NOTHING,
        Status::Done,
        wanted.replies.as_bytes(),
    )
}

/// The session of these lines, and of more, is run to its end with their replies.
pub fn expect_steps(alloc: Global, steps: &str, more: &str) -> Result<(), Fail> {
    let mut wanted = nothing_wanted(alloc);
    wanted.push_all(steps)?;
    wanted.push_all(more)?;
    expect_wanted(alloc, &wanted)
}

/// The last replies are these.
fn ends_so(written: &str, wanted: &str) -> bool {
    match written.strip_suffix(wanted) {
        Some(front) => front.is_empty() || front.ends_with('\n'),
        None => false,
    }
}

/// Whether the crash was told. The last replies are those of one of the outcomes: it was not, it failed, or it is in
/// doubt.
pub fn is_among(written: &str, done: &str, failed: &str, doubted: &str) -> Result<bool, Fail> {
    if ends_so(written, done) {
        return Ok(false);
    }
    let told = ends_so(written, failed) || ends_so(written, doubted);
    require(told, written)?;
    Ok(true)
}
