// A session is read line by line, and handed over command by command.
ghost use Rattle.std.specs.Prelude.{◌≡◌, ℕ, ◌+◌, ◌-◌, ◌<◌, ◌≤◌, ◌++◌, [], ◌∷◌, List, Option, Some, None, length};
ghost use Rattle.std.specs.Prelude.{IfOk, IfSome, IsErrOf, OnOk};
ghost use Rattle.slon_base.specs.Counts.{Rose};
ghost use Rattle.slon_model.specs.Spoken.{IsName, IsReading, IsSpoken};
ghost use Rattle.session_text.specs.Reading.{session_limit};
ghost use Rattle.session_text.specs.Handing.{Stays, Comes, Breaks};
ghost use Rattle.slonik_expand.specs.Ends as stood;
ghost use Rattle.session_reader.specs.Sessions.{Between, Within, block_of, session_of};
ghost use Rattle.session_reader.specs.Fetching.{to_come, left_of, Fetches, FetchesOne, ReadsLine, ReadsText, IsBlock};
ghost use Rattle.session_reader.specs.Fetching.{BreaksOff};

use crate::ReadFault;
use crate::line::{Said, is_closing, is_readable, line_says};
use crate::script::read_text_of;
use crate::texts::is_reading;
use session_text::{LineReader, NextLine};
use slon_base::{Files, Text};
use slon_model::{Command, Reading};
use std::alloc::{AllocError, Global};
use std::marker::Model;

/// Reads the session in the file entered last, and hands its commands over. A script is handed over as one command,
/// with what its text is read as.
#[derive(Drop)]
pub struct SessionReader {
    lines: LineReader,
    line: Vec<u8>,
    number: u64,
}

impl Model for SessionReader {
    ghost use Rattle.std.specs.Prelude.{◌≤◌};
    ghost use Rattle.session_text.specs.Reading.{session_limit};
    ghost use Rattle.session_reader.specs.Fetching.{Fetching};

    ghost Value = { Fetching };

    ghost view = { λ r. record { lines = r.lines; line = r.line.items; number = r.number } };

    ghost invariant = { λ r. r.lines.taken ≤ session_limit };
}

/// Adds a line and its newline to a text.
fn push_line(text: &mut Vec<u8>, line: &[u8]) -> Result<(), AllocError>
    ensures { OnOk result (text.new.items ≡ text.old.items ++ line.now ++ 10 ∷ []) }
{
    text.extend_from_slice(line)?;
    text.push(b'\n')?;
    Ok(())
}

impl SessionReader {
    /// A reader at the front of a session.
    pub fn new(alloc: Global) -> Result<SessionReader, AllocError>
        ensures front { IfOk result (λ r. (r.lines.unread ≡ []) × (r.lines.taken ≡ 0) × (r.number ≡ 1)) }
        ensures says { (names : List ℕ → Option (List ℕ)) (bytes : List ℕ) →
            IfOk result (λ r. to_come names Between r bytes ≡ session_of names bytes) }
    {
        Ok(SessionReader {
            lines: LineReader::new(alloc)?,
            line: Vec::new(alloc),
            number: 1,
        })
    }

    /// Reads the next line, and says which number it has, or that there is none.
    fn read_line<F: Files>(&mut self, files: &mut F) -> Result<Option<u64>, ReadFault>
        requires { 0 < length (F.filed files.old).stack }
        ensures files { Stays (F.filed files.old) (F.filed files.new) }
        ensures failed { IsErrOf result ReadFault.Failed → Rose (F.filed files.old).faults (F.filed files.new).faults }
        ensures within { self.new.lines.taken ≤ session_limit }
        ensures moves { IfOk result (λ found. IfSome found (λ _. self.old.lines.taken < self.new.lines.taken)) }
        ensures reads { (bytes : List ℕ) → Comes self.old.lines (F.filed files.old) bytes →
            ReadsLine bytes self.old self.new (F.filed files.new) result }
        ensures breaks { (bytes : List ℕ) → Comes self.old.lines (F.filed files.old) bytes →
            IsErrOf result ReadFault.Failed → Breaks bytes self.old.lines.taken (F.filed files.new) }
    {
        let number = self.number;
        match self.lines.next_line(files, &mut self.line)? {
            NextLine::End => Ok(None),
            NextLine::TooLong => Err(ReadFault::BadLine { number }),
            NextLine::Line => {
                let Some(following) = number.checked_add(1) else {
                    return Err(ReadFault::NoMemory);
                };
                self.number = following;
                Ok(Some(number))
            }
        }
    }

    /// Reads the lines of a script that was opened in the line of this number, and the line that closes it.
    fn read_text<F: Files>(
        &mut self,
        alloc: Global,
        files: &mut F,
        opened: u64,
    ) -> Result<Vec<u8>, ReadFault>
        requires { 0 < length (F.filed files.old).stack }
        ensures files { Stays (F.filed files.old) (F.filed files.new) }
        ensures failed { IsErrOf result ReadFault.Failed → Rose (F.filed files.old).faults (F.filed files.new).faults }
        ensures within { self.new.lines.taken ≤ session_limit }
        ensures moves { IfOk result (λ _. self.old.lines.taken ≤ self.new.lines.taken) }
        ensures reads { (names : List ℕ → Option (List ℕ)) (name bytes : List ℕ) →
            Comes self.old.lines (F.filed files.old) bytes →
            ReadsText (λ v. v.items) names name (to_come names (Within name opened []) self.old bytes) self.new
            (F.filed files.new) result }
        ensures breaks { (names : List ℕ → Option (List ℕ)) (name bytes : List ℕ) →
            Comes self.old.lines (F.filed files.old) bytes →
            BreaksOff names (to_come names (Within name opened []) self.old bytes) self.new (F.filed files.new)
            result }
    {
        let mut text = Vec::new(alloc);
        while let Some(number) = self.read_line(files)? {
            if is_closing(&self.line) {
                return Ok(text);
            }
            if !is_readable(&self.line) {
                return Err(ReadFault::BadLine { number });
            }
            push_line(&mut text, &self.line)?;
        }
        Err(ReadFault::BadLine { number: opened })
    }

    /// Reads the text of a script, and takes the bytes of its included files off those that are left.
    fn read_script<F: Files>(
        &mut self,
        alloc: Global,
        files: &mut F,
        text: &[u8],
    ) -> Result<Reading, ReadFault>
        ensures files { stood.Stays (F.filed files.old) (F.filed files.new) }
        ensures failed { IsErrOf result ReadFault.Failed → Rose (F.filed files.old).faults (F.filed files.new).faults }
        ensures within { self.new.lines.taken ≤ session_limit }
        ensures moves { self.old.lines.taken ≤ self.new.lines.taken }
        ensures unread { self.new.lines.unread ≡ self.old.lines.unread }
        ensures number { self.new.number ≡ self.old.number }
        ensures spoken { IfOk result IsReading }
        ensures exact { (names : List ℕ → Option (List ℕ)) → (F.filed files.old).names ≡ Some names
            → IsBlock (block_of names (left_of self.old) text.now) result (left_of self.new) }
    {
        let mut left = self.lines.left();
        let reading = read_text_of(alloc, text, files, &mut left)?;
        // Nothing that is read gives bytes back, and no token holds a newline.
        if left > self.lines.left() || !is_reading(&reading) {
            return Err(ReadFault::NoMemory);
        }
        self.lines.leave(left);
        Ok(reading)
    }

    /// Reads the script of this name that was opened in the line of this number.
    fn read_block<F: Files>(
        &mut self,
        alloc: Global,
        files: &mut F,
        name: Text,
        opened: u64,
    ) -> Result<Command, ReadFault>
        requires entered { 0 < length (F.filed files.old).stack }
        requires named { IsName name }
        ensures files { Stays (F.filed files.old) (F.filed files.new) }
        ensures failed { IsErrOf result ReadFault.Failed → Rose (F.filed files.old).faults (F.filed files.new).faults }
        ensures within { self.new.lines.taken ≤ session_limit }
        ensures moves { IfOk result (λ _. self.old.lines.taken ≤ self.new.lines.taken) }
        ensures spoken { IfOk result IsSpoken }
        ensures reads { (names : List ℕ → Option (List ℕ)) → (F.filed files.old).names ≡ Some names →
            (bytes : List ℕ) → Comes self.old.lines (F.filed files.old) bytes →
            FetchesOne names (to_come names (Within name opened []) self.old bytes) self.new (F.filed files.new)
            result }
        ensures breaks { (names : List ℕ → Option (List ℕ)) → (F.filed files.old).names ≡ Some names →
            (bytes : List ℕ) → Comes self.old.lines (F.filed files.old) bytes →
            BreaksOff names (to_come names (Within name opened []) self.old bytes) self.new (F.filed files.new)
            result }
    {
        let text = self.read_text(alloc, files, opened)?;
        let reading = self.read_script(alloc, files, &text)?;
        Ok(Command::Slonik {
            script: name,
            reading,
        })
    }

    /// Reads on up to the end of the next command, and hands it over, or `None` at the end of the session. The line
    /// `slonik NAME <<` opens a script, whose text ends before a line that is exactly `>>`; it is read when it is
    /// closed. After an error nothing more is to be read.
    ///
    /// # Errors
    ///
    /// `BadLine` with the number of the first line that is no command, that is a line of a script and too long or no
    /// text, or that opens a script which is not closed; `PastLimit` where the session and the files that its scripts
    /// include, in the order in which the lines need them, have more than 16,777,216 bytes; `Failed` where the files
    /// failed; `NoMemory` where there is none.
    pub fn next_command<F: Files>(
        &mut self,
        alloc: Global,
        files: &mut F,
    ) -> Result<Option<Command>, ReadFault>
        requires { 0 < length (F.filed files.old).stack }
        ensures files { Stays (F.filed files.old) (F.filed files.new) }
        ensures failed { IsErrOf result ReadFault.Failed → Rose (F.filed files.old).faults (F.filed files.new).faults }
        ensures within { self.new.lines.taken ≤ session_limit }
        ensures moves { IfOk result (λ found. IfSome found (λ _. self.old.lines.taken < self.new.lines.taken)) }
        ensures spoken { IfOk result (λ found. IfSome found IsSpoken) }
        ensures fetches { (names : List ℕ → Option (List ℕ)) → (F.filed files.old).names ≡ Some names →
            (bytes : List ℕ) → Comes self.old.lines (F.filed files.old) bytes →
            Fetches names (to_come names Between self.old bytes) self.new (F.filed files.new) result }
        ensures breaks { (names : List ℕ → Option (List ℕ)) → (F.filed files.old).names ≡ Some names →
            (bytes : List ℕ) → Comes self.old.lines (F.filed files.old) bytes →
            BreaksOff names (to_come names Between self.old bytes) self.new (F.filed files.new) result }
    {
        while let Some(number) = self.read_line(files)? {
            match line_says(alloc, &self.line, number)? {
                Said::Nothing => {}
                Said::Command(command) => return Ok(Some(command)),
                Said::Opening(name) => {
                    return Ok(Some(self.read_block(alloc, files, name, number)?));
                }
            }
        }
        Ok(None)
    }
}
