// How a session ends.
/// How a session ended.
#[derive(Clone, Copy, Debug, PartialEq, Eq)]
pub enum Status {
    /// The session was read to its end.
    Done = 0,
    /// The words are not one name of a session.
    Usage = 2,
    /// A line is no command.
    BadLine = 3,
    /// A file failed.
    ReadFault = 4,
    /// The output failed.
    WriteFault = 5,
    /// There was no memory.
    NoMemory = 6,
    /// The shelf gave no store.
    NoStore = 7,
    /// There is no such session.
    Missing = 8,
    /// The session has more than 16,777,216 bytes.
    TooLong = 9,
}

impl Status {
    ghost use Rattle.std.specs.Prelude.{◌≡◌};
    ghost use Rattle.slon_main.specs.Statuses.{number_of};

    /// Its number, which is the exit status of the program.
    pub fn number(self) -> u8
        ensures { result ≡ number_of self }
    {
        self as u8
    }
}
