// What may be replied over a store of which one call fails.
use std::alloc::Global;
use std::process::Abort;
use std::str::Lines;
use std::test::Fail;

/// A command, its reply where no call fails, and what `rows` answers once its commit stands, if it commits.
pub type Step = (&'static str, &'static str, Option<&'static str>);

/// What `rows` answers before the table is made.
pub const NO_TABLE: &str = "no 52 notable public.t";

/// What a command answers whose call fails.
const FAULT: &str = "no 10 fault a 1";

/// What the replies so far say of a database of which one call fails.
#[derive(Clone, Copy)]
pub struct Known {
    // Which call it is, as the test counts.
    call: u64,
    // Whether a commit that fails stands.
    keep: bool,
    /// Whether a reply told that the call failed.
    pub told: bool,
    down: bool,
    // What the next `up` answers that finds the database down.
    up: &'static str,
    // What `rows` answers.
    rows: &'static str,
}

impl Known {
    /// Nothing is told before the first reply.
    pub fn new(call: u64, keep: bool) -> Known {
        Known {
            call,
            keep,
            told: false,
            down: false,
            up: "ok",
            rows: NO_TABLE,
        }
    }

    /// Stops where the reply is another one.
    pub fn is_reply(&self, rt: &impl Abort, reply: &str, want: &str) {
        let call = self.call;
        assert!(rt; reply == want, "call {call}: {reply}, not {want}");
    }

    /// The call fails, which takes the database down. Stops where that was told before.
    fn fail(&mut self, rt: &impl Abort) {
        let call = self.call;
        assert!(rt; !self.told, "call {call} fails twice");
        self.told = true;
        self.down = true;
    }

    /// The commit that is due this reply, and these rows once it stands, fails and is in doubt.
    fn doubt(
        &mut self,
        rt: &impl Abort,
        alloc: Global,
        reply: &str,
        due: &str,
        rows: &'static str,
    ) -> Result<(), Fail> {
        let doubt = format!(in alloc; "doubt a {due}")?;
        self.is_reply(rt, reply, doubt.as_str());
        self.fail(rt);
        if self.keep {
            self.up = "ok kept";
            self.rows = rows;
        } else {
            self.up = "ok lost";
        }
        Ok(())
    }

    /// Goes on by the reply to a command of a database that is down.
    fn answer_down(&mut self, rt: &impl Abort, command: &str, reply: &str) {
        if command != "up a" {
            self.is_reply(rt, reply, "no 16 down a");
        } else if reply == FAULT {
            self.fail(rt);
        } else {
            self.is_reply(rt, reply, self.up);
            self.down = false;
            self.up = "ok";
        }
    }

    /// Goes on by the reply that was due.
    fn answer_due(&mut self, step: Step) {
        let (command, _, commits) = step;
        self.down = command == "crash a";
        if let Some(rows) = commits {
            self.rows = rows;
        }
    }

    /// Goes on by the reply to a command of a database that is up.
    fn answer_up(
        &mut self,
        rt: &impl Abort,
        alloc: Global,
        step: Step,
        reply: &str,
    ) -> Result<(), Fail> {
        let (command, sure, commits) = step;
        let due = if self.told && command == "rows a public.t" {
            self.rows
        } else {
            sure
        };
        if reply == due {
            self.answer_due(step);
        } else if reply == FAULT {
            self.fail(rt);
        } else if let Some(rows) = commits {
            self.doubt(rt, alloc, reply, due, rows)?;
        } else {
            self.is_reply(rt, reply, due);
        }
        Ok(())
    }

    /// Goes on by the replies to these commands. Stops at one that may not be given.
    pub fn walk(
        &mut self,
        rt: &impl Abort,
        alloc: Global,
        steps: &[Step],
        replies: &mut Lines<'_>,
    ) -> Result<(), Fail> {
        for step in steps {
            let reply = replies.next().unwrap_or("");
            if self.down {
                self.answer_down(rt, step.0, reply);
            } else {
                self.answer_up(rt, alloc, *step, reply)?;
            }
        }
        Ok(())
    }
}
