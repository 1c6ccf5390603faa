// Why a token does not go on with a script.
use crate::form::OptionName;
use slon_base::Text;
use std::alloc::{AllocError, AllocFailed};

/// Why a token does not go on with a script.
#[derive(Drop)]
pub enum Misparse {
    /// No script goes on with it.
    Misfit,
    /// No option of the command begins with this word.
    UnknownOption { word: Text },
    /// This option is missing.
    MissingOption { option: OptionName },
    /// A command or an option that is left out begins with this word.
    NotInProfile { word: Text },
    /// A command that is not allowed in a try block begins with this word.
    NotInTry { word: Text },
    /// There was no memory.
    NoMemory,
}

impl From<AllocError> for Misparse {
    ghost use Rattle.std.specs.Prelude.{◌≡◌};
    ghost use Rattle.slonik_parse.specs.declared.misparse.Misparse.TheVariants.{NoMemory};

    ghost from_gives = { λ _ e. e ≡ NoMemory };

    fn from(_: AllocError) -> Self {
        Misparse::NoMemory
    }
}

impl<T: Drop> From<AllocFailed<T>> for Misparse {
    ghost use Rattle.std.specs.Prelude.{◌≡◌};
    ghost use Rattle.slonik_parse.specs.declared.misparse.Misparse.TheVariants.{NoMemory};

    ghost from_gives = { λ _ e. e ≡ NoMemory };

    fn from(_: AllocFailed<T>) -> Self {
        Misparse::NoMemory
    }
}
