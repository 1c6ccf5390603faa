// A session is read in pieces through one buffer, and handed over line by line.
ghost use Rattle.std.specs.Prelude.{◌≡◌, ℕ, ◌+◌, ◌-◌, ◌<◌, ◌≤◌, ◌==◌, if◌then◌else◌, Bool, true, false, List, [], ◌++◌};
ghost use Rattle.std.specs.Prelude.{length, take, Some, None, Option, IfOk, OnErr, IsErrOf, vec_len};
ghost use Rattle.std.specs.List.{position};
ghost use Rattle.std.specs.Str.Lines.{strip_carriage_return};
ghost use Rattle.slon_base.specs.Counts.{Rose};
ghost use Rattle.slon_base.specs.Outside.{top};
ghost use Rattle.session_text.specs.Reading.{line_limit, line_size, session_limit};
ghost use Rattle.session_text.specs.Handing.{front, behind, Stays, Comes, Breaks, Measures, Hands};

use slon_base::{Files, OutFault};
use std::alloc::{AllocError, Global};
use std::marker::Model;
use thiserror::Error;

/// The greatest length of a line in bytes, without its newline and one carriage return before that.
pub const LINE_LIMIT: usize = 8192;

/// The greatest length of a session, in bytes.
const SESSION_LIMIT: usize = 16_777_216;

/// How many bytes of a line are kept: a line that has them all is too long, even if the last is a carriage return.
const KEPT_LEN: usize = LINE_LIMIT + 2;

/// The bytes of the buffer.
const BUFFER_LEN: usize = 8192;

/// What a session has next.
#[derive(Clone, Copy, Debug, PartialEq, Eq)]
pub enum NextLine {
    /// A line, which was handed over.
    Line,
    /// A line above the limit, which was read to its end and not handed over.
    TooLong,
    /// The session's end.
    End,
}

/// Why the reading of a session stopped.
#[derive(Clone, Copy, Debug, Drop, Error, PartialEq, Eq)]
pub enum ReadStop {
    /// The file failed, and counted it.
    #[error("the file failed")]
    Failed,
    /// There was no memory.
    #[error("out of memory")]
    NoMemory,
    /// The session has more than 16,777,216 bytes.
    #[error("the session is too long")]
    PastLimit,
}

impl From<AllocError> for ReadStop {
    ghost use Rattle.std.specs.Prelude.{◌≡◌};
    ghost use Rattle.session_text.specs.declared.line_reader.ReadStop.TheVariants.{NoMemory};

    ghost from_gives = { λ _ e. e ≡ NoMemory };

    fn from(_: AllocError) -> Self {
        ReadStop::NoMemory
    }
}

impl From<OutFault> for ReadStop {
    ghost use Rattle.std.specs.Prelude.{◌≡◌};
    ghost use Rattle.session_text.specs.Handing.{stop_of};

    ghost from_gives = { λ fault e. e ≡ stop_of fault };

    fn from(fault: OutFault) -> Self {
        match fault {
            OutFault::Failed => ReadStop::Failed,
            OutFault::NoMemory => ReadStop::NoMemory,
        }
    }
}

/// Reads the file entered last in pieces, and hands it over line by line. Its memory does not grow with the session.
#[derive(Drop)]
pub struct LineReader {
    buffer: Vec<u8>,
    start: usize,
    end: usize,
    taken: usize,
}

impl Model for LineReader {
    ghost use Rattle.std.specs.Prelude.{ℕ, ◌<◌, ◌≤◌, length, slice_range};
    ghost use Rattle.session_text.specs.Reading.{Reading, session_limit};

    ghost Value = { Reading };

    ghost view = { λ r. record { unread = slice_range r.buffer.items r.start r.end; taken = r.taken } };

    ghost invariant = { λ r. (r.start ≤ r.end) × (r.end ≤ length r.buffer.items) × (0 < length r.buffer.items)
        × (r.taken ≤ session_limit) };
}

/// Where the first newline stands.
fn newline_at(bytes: &[u8]) -> Option<usize>
    ensures { result ≡ position (λ c. c == 10) bytes.now }
{
    bytes.iter().position(|b| *b == b'\n')
}

/// Takes one carriage return from the end of a line.
fn drop_carriage_return(line: &mut Vec<u8>)
    ensures { line.new.items ≡ strip_carriage_return line.old.items }
{
    if line.last() == Some(&b'\r') {
        line.pop();
    }
}

/// Whether a line is handed over, by its length.
fn measured(line: &[u8]) -> NextLine
    ensures measures { Measures line.now result }
    ensures short { result ≡ NextLine.Line → length line.now ≤ line_limit }
{
    if line.len() <= LINE_LIMIT {
        NextLine::Line
    } else {
        NextLine::TooLong
    }
}

/// Adds as much of the piece as the line keeps.
fn keep(line: &mut Vec<u8>, piece: &[u8]) -> Result<(), AllocError>
    requires { length line.old.items ≤ KEPT_LEN }
    ensures room { length line.new.items ≤ KEPT_LEN }
    ensures grows { length line.new.items ≤ length line.old.items + length piece.now }
    ensures kept { IfOk result (λ _. line.new.items ≡ take KEPT_LEN (line.old.items ++ piece.now)) }
{
    let room = KEPT_LEN - line.len();
    line.extend_from_slice(&piece[..piece.len().min(room)])?;
    Ok(())
}

impl LineReader {
    /// A reader at the front of a session.
    pub fn new(alloc: Global) -> Result<LineReader, AllocError>
        ensures { IfOk result (λ r. (r.unread ≡ []) × (r.taken ≡ 0)) }
    {
        Ok(LineReader {
            buffer: vec![in alloc; 0; BUFFER_LEN]?,
            start: 0,
            end: 0,
            taken: 0,
        })
    }

    /// How many bytes may still be handed over.
    pub fn left(&self) -> u64
        ensures value { result ≡ session_limit - self.now.taken }
        ensures within { self.now.taken ≤ session_limit }
    {
        (SESSION_LIMIT - self.taken) as u64
    }

    /// From now on that many bytes may still be handed over, since others were read elsewhere.
    pub fn leave(&mut self, left: u64)
        requires { left ≤ session_limit - self.old.taken }
        ensures unread { self.new.unread ≡ self.old.unread }
        ensures taken { self.new.taken ≡ session_limit - left }
        ensures within { self.new.taken ≤ session_limit }
    {
        self.taken = SESSION_LIMIT - left as usize;
    }

    /// Reads on where nothing is unread, and says whether something is now.
    fn fill<F: Files>(&mut self, files: &mut F) -> Result<bool, ReadStop>
        requires { 0 < length (F.filed files.old).stack }
        ensures files { Stays (F.filed files.old) (F.filed files.new) }
        ensures failed { IsErrOf result ReadStop.Failed → Rose (F.filed files.old).faults (F.filed files.new).faults }
        ensures past { IsErrOf result ReadStop.PastLimit → ⊥ }
        ensures taken { self.new.taken ≡ self.old.taken }
        ensures limit { self.new.taken ≤ session_limit }
        ensures some { IfOk result (λ more. more ≡ true → 0 < length self.new.unread) }
        ensures none { IfOk result (λ more. more ≡ false → self.new.unread ≡ []) }
        ensures bytes { (bytes : List ℕ) → Comes self.old (F.filed files.old) bytes →
            IfOk result (λ more. Comes self.new (F.filed files.new) bytes × (more ≡ false → bytes ≡ [])) }
        ensures stuck { OnErr result ((self.old.unread ≡ [])
            × ((F.filed files.new).stack ≡ (F.filed files.old).stack)) }
    {
        if self.start < self.end {
            return Ok(true);
        }
        let count = files.read(self.buffer.as_mut_slice())?;
        self.start = 0;
        self.end = count;
        Ok(count > 0)
    }

    /// Takes what is unread up to its first newline and this newline, or all of it, adds it to the line without the
    /// newline, and says whether there was one.
    fn take_into(&mut self, line: &mut Vec<u8>) -> Result<bool, ReadStop>
        requires { length line.old.items ≤ KEPT_LEN }
        ensures room { length line.new.items ≤ KEPT_LEN }
        ensures past { IsErrOf result ReadStop.PastLimit → session_limit < self.old.taken + line_size self.old.unread }
        ensures failed { IsErrOf result ReadStop.Failed → ⊥ }
        ensures line { IfOk result (λ _. line.new.items ≡ take KEPT_LEN (line.old.items ++ front self.old.unread)) }
        ensures rest { IfOk result (λ ended. behind self.old.unread ≡ (if ended then Some self.new.unread else None)) }
        ensures open { IfOk result (λ ended. ended ≡ false → self.new.unread ≡ []) }
        ensures taken { IfOk result
            (λ _. self.new.taken + length self.new.unread ≡ self.old.taken + length self.old.unread) }
        ensures limit { self.new.taken ≤ session_limit }
        ensures moves { IfOk result
            (λ ended. length line.new.items + self.old.taken + (if ended then 1 else 0)
            ≤ length line.old.items + self.new.taken) }
    {
        let unread = &self.buffer[self.start..self.end];
        let newline = newline_at(unread);
        let len = newline.unwrap_or(unread.len());
        let count = if newline.is_some() { len + 1 } else { len };
        if SESSION_LIMIT - self.taken < count {
            return Err(ReadStop::PastLimit);
        }
        keep(line, &unread[..len])?;
        self.start += count;
        self.taken += count;
        Ok(newline.is_some())
    }

    /// Reads the next line of the file entered last into `line`, whose memory is used again and does not grow above the
    /// limit of a line. A line ends at a newline or at the session's end, and one carriage return before a newline is
    /// no part of it. A line above 8,192 bytes is read to its end, so that what stops the reading comes first.
    ///
    /// # Errors
    ///
    /// `Failed` where the file failed, `PastLimit` where the line ends beyond the first 16,777,216 bytes of the
    /// session, `NoMemory` where there is none.
    pub fn next_line<F: Files>(
        &mut self,
        files: &mut F,
        line: &mut Vec<u8>,
    ) -> Result<NextLine, ReadStop>
        requires { 0 < length (F.filed files.old).stack }
        ensures files { Stays (F.filed files.old) (F.filed files.new) }
        ensures failed { IsErrOf result ReadStop.Failed → Rose (F.filed files.old).faults (F.filed files.new).faults }
        ensures hands { (bytes : List ℕ) → Comes self.old (F.filed files.old) bytes →
            IfOk result (Hands line.new.items bytes self.old self.new (F.filed files.new)) }
        ensures past { (bytes : List ℕ) → Comes self.old (F.filed files.old) bytes → IsErrOf result ReadStop.PastLimit →
            session_limit < self.old.taken + line_size bytes }
        ensures breaks { (bytes : List ℕ) → Comes self.old (F.filed files.old) bytes →
            IsErrOf result ReadStop.Failed → Breaks bytes self.old.taken (F.filed files.new) }
        ensures limit { IfOk result (λ _. self.new.taken ≤ session_limit) }
        ensures within { self.new.taken ≤ session_limit }
        ensures moves { IfOk result (λ next. next ≡ NextLine.Line → self.old.taken < self.new.taken) }
        ensures short { IfOk result (λ next. next ≡ NextLine.Line → length line.new.items ≤ line_limit) }
        ensures room { length line.new.items ≤ line_limit + 2 }
    {
        line.clear();
        while self.fill(files)? {
            if self.take_into(line)? {
                drop_carriage_return(line);
                return Ok(measured(line.as_slice()));
            }
        }
        Ok(if line.is_empty() {
            NextLine::End
        } else {
            measured(line.as_slice())
        })
    }
}
