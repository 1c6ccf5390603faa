// The events that wait at a node until it applies them.
ghost use Rattle.std.specs.Prelude.{◌≡◌, ◌==◌, ◌++◌, if◌then◌else◌, nat_lt, max, true, false, [], ◌∷◌, ℕ, List};
ghost use Rattle.std.specs.Prelude.{filter, length, is_ok, IfOk, OnOk, OnErr};
ghost use Rattle.std.specs.List.{find};
ghost use Rattle.std.specs.Option.{option_copied};
ghost use Rattle.event_store.specs.Lines.{AreLines, are_rising, newest, is_above, with_event};

use crate::event::Event;
use std::alloc::{AllocError, Global};
use std::collections::{BTreeMap, VecDeque};

/// The events that were delivered to a node and that it has not applied yet: of each origin those behind the last one
/// that it applied, ascending by number. An event is stored once, and never copied.
#[derive(Drop)]
pub struct Queue {
    alloc: Global,
    lines: BTreeMap<u32, VecDeque<Event>>,
    ghost lined: { AreLines lines },
}

/// The number of the last of these events, or 0.
fn newest_of(line: &VecDeque<Event>) -> u64
    ensures { result ≡ newest line.now.items }
{
    match line.back() {
        Some(event) => event.number,
        None => 0,
    }
}

/// Puts the event behind the others if its number is above theirs, and answers whether it did.
///
/// # Errors
///
/// There is no memory. Nothing has changed then.
fn append(line: &mut VecDeque<Event>, event: Event) -> Result<bool, AllocError>
    ensures put { IfOk result (λ put. put ≡ is_above event.number line.old.items) }
    ensures items { line.new.items ≡ (if is_ok result then with_event event line.old.items else line.old.items) }
{
    if event.number <= newest_of(line) {
        return Ok(false);
    }
    line.push_back(event)?;
    Ok(true)
}

/// The event with this number, found in time that grows as the logarithm of how many there are.
fn find_in(line: &VecDeque<Event>, number: u64) -> Option<&Event>
    requires { are_rising 0 line.now.items ≡ true }
    ensures { option_copied result ≡ find (λ e. e.number == number) line.now.items }
{
    match line.binary_search_by_key(&number, |event| event.number) {
        Ok(place) => line.get(place),
        Err(_) => None,
    }
}

/// Takes the first events away, up to this number.
fn drop_first(line: &mut VecDeque<Event>, number: u64)
    requires { are_rising 0 line.old.items ≡ true }
    ensures { line.new.items ≡ filter (λ e. nat_lt number e.number) line.old.items }
{
    while let Some(event) = line.front() {
        if event.number > number {
            return;
        }
        drop(line.pop_front());
    }
}

impl Queue {
    ghost use Rattle.event_store.specs.Queueing.{waiting};

    /// An empty queue.
    pub fn new(alloc: Global) -> Queue
        ensures { (origin : ℕ) → waiting origin result ≡ [] }
    {
        Queue {
            alloc,
            lines: BTreeMap::new(alloc),
        }
    }

    /// Puts the event behind the others of its origin if its number is above theirs, and answers whether it did.
    ///
    /// # Errors
    ///
    /// There is no memory. The same events wait as before then.
    pub fn put(&mut self, event: Event) -> Result<bool, AllocError>
        ensures put { IfOk result (λ put. put ≡ is_above event.number (waiting event.origin self.old)) }
        ensures ok { OnOk result ((origin : ℕ) → waiting origin self.new ≡ (if event.origin == origin
            then with_event event (waiting origin self.old) else waiting origin self.old)) }
        ensures err { OnErr result ((origin : ℕ) → waiting origin self.new ≡ waiting origin self.old) }
    {
        let origin = event.origin;
        match self.lines.get_mut(&origin) {
            Some(line) => append(line, event),
            None => {
                let mut line = VecDeque::new(self.alloc);
                let put = append(&mut line, event)?;
                self.lines.insert(origin, line)?;
                Ok(put)
            }
        }
    }

    /// The event of this origin with this number, if it waits. It is found in time that grows as the logarithm of how
    /// many wait.
    pub fn get(&self, origin: u32, number: u64) -> Option<&Event>
        ensures { option_copied result ≡ find (λ e. e.number == number) (waiting origin self.now) }
    {
        match self.lines.get(&origin) {
            Some(line) => find_in(line, number),
            None => None,
        }
    }

    /// The greater of this number and the greatest one that waits for the origin.
    pub fn reach(&self, origin: u32, base: u64) -> u64
        ensures { result ≡ max base (newest (waiting origin self.now)) }
    {
        match self.lines.get(&origin) {
            Some(line) => base.max(newest_of(line)),
            None => base,
        }
    }

    /// How many events of the origin wait.
    pub fn len(&self, origin: u32) -> usize
        ensures { result ≡ length (waiting origin self.now) }
    {
        match self.lines.get(&origin) {
            Some(line) => line.len(),
            None => 0,
        }
    }

    /// Takes the events of the origin away whose numbers are not above this one. It goes over these alone.
    pub fn drop_to(&mut self, origin: u32, number: u64)
        ensures dropped { waiting origin self.new ≡ filter (λ e. nat_lt number e.number) (waiting origin self.old) }
        ensures others { (other : ℕ) → (origin == other) ≡ false → waiting other self.new ≡ waiting other self.old }
    {
        if let Some(line) = self.lines.get_mut(&origin) {
            drop_first(line, number);
        }
    }

    /// Takes all events away.
    pub fn clear(&mut self)
        ensures { (origin : ℕ) → waiting origin self.new ≡ [] }
    {
        self.lines.clear();
    }
}
