// A counter that gives numbers below a ceiling that was stored before, so that none is given twice.
ghost use Rattle.std.specs.Prelude.{◌≡◌, ◌≢◌, ◌+◌, ◌<◌, ◌≤◌, ◌^◌, ◌==◌};

use std::marker::Model;

/// By how much a ceiling is raised.
pub const BLOCK: u64 = 64;

/// A counter of numbers and its ceiling, which no number reaches. Whoever stores each ceiling before a number below it
/// is used, and resumes from what is stored, is given no number twice.
#[derive(Debug, Drop)]
pub struct Counters {
    next: u64,
    ceiling: u64,
}

impl Model for Counters {
    ghost use Rattle.std.specs.Prelude.{◌≤◌, ◌<◌, ◌^◌};
    ghost use Rattle.slon_model.specs.Place.{Counter};

    ghost Value = { Counter };

    ghost view = { λ c. record { next = c.next; ceiling = c.ceiling } };

    ghost invariant = { λ c. (c.next ≤ c.ceiling) × (c.ceiling < 2 ^ 63) };
}

impl Counters {
    /// Goes on from the ceiling that was stored.
    pub fn resume(ceiling: u64) -> Counters
        requires { ceiling < 2 ^ 63 }
        ensures next { result.next ≡ ceiling }
        ensures ceiling { result.ceiling ≡ ceiling }
    {
        Counters {
            next: ceiling,
            ceiling,
        }
    }

    /// Whether the ceiling has to be raised before a number is drawn.
    pub fn must_raise(&self) -> bool
        ensures { result ≡ (self.now.next == self.now.ceiling) }
    {
        self.next == self.ceiling
    }

    /// Raises the ceiling by a block, and answers it.
    pub fn raise(&mut self) -> u64
        requires { self.old.ceiling + 64 < 2 ^ 63 }
        ensures value { result ≡ self.old.ceiling + 64 }
        ensures ceiling { self.new.ceiling ≡ self.old.ceiling + 64 }
        ensures next { self.new.next ≡ self.old.next }
    {
        self.ceiling += BLOCK;
        self.ceiling
    }

    /// Gives the next number.
    pub fn draw(&mut self) -> u64
        requires { self.old.next ≢ self.old.ceiling }
        ensures value { result ≡ self.old.next }
        ensures small { result < 2 ^ 63 }
        ensures next { self.new.next ≡ self.old.next + 1 }
        ensures ceiling { self.new.ceiling ≡ self.old.ceiling }
    {
        let number = self.next;
        self.next += 1;
        number
    }

    /// The number that is given next.
    pub fn next(&self) -> u64
        ensures value { result ≡ self.now.next }
        ensures within { self.now.next ≤ self.now.ceiling }
        ensures small { self.now.next < 2 ^ 63 }
    {
        self.next
    }

    /// The ceiling.
    pub fn ceiling(&self) -> u64
        ensures value { result ≡ self.now.ceiling }
        ensures small { self.now.ceiling < 2 ^ 63 }
    {
        self.ceiling
    }
}
