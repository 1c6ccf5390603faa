// The rows of the log.
use crate::SpelledTexts;
use slon_base::{RowFault, RowIn, RowOut};
use std::alloc::{AllocError, Global};
use store_rows::Spelled;

/// How many parts a table's name has.
const NAMES: u32 = 2;

/// What the write of a row of the log does to its table.
#[derive(Clone, Copy, Debug, Drop, PartialEq, Eq)]
pub enum LogCommand {
    /// It puts a row.
    Insert,
    /// It gives columns of a row new values.
    Update,
    /// It takes a row away.
    Delete,
}

/// A row of the log.
#[derive(Debug, Drop)]
pub struct LogRow {
    /// The transaction of the write.
    pub xid: u64,
    /// The id of the table.
    pub table: u32,
    /// The two parts of the table's name, the one in front of the dot and the one behind it.
    pub names: SpelledTexts,
    /// What the write does.
    pub command: LogCommand,
    /// How many columns get new values, where a row is changed.
    pub columns: u64,
    /// The number of a column and its value, for one column after another.
    pub arguments: SpelledTexts,
}

/// One byte: `I`, `U` or `D`.
impl Spelled for LogCommand {
    ghost use Rattle.std.specs.Prelude.{◌∷◌, []};
    ghost use Rattle.change_capture.specs.Spellings.{command_byte};

    ghost bytes = { λ command. command_byte command ∷ [] };

    ghost Can = { λ command. Unit {0} };

    fn spell(&self, out: &mut RowOut) -> Result<(), AllocError> {
        out.byte(match self {
            LogCommand::Insert => b'I',
            LogCommand::Update => b'U',
            LogCommand::Delete => b'D',
        })
    }

    fn read(alloc: Global, row: &mut RowIn<'_>) -> Result<LogCommand, RowFault> {
        match row.byte() {
            Ok(b'I') => Ok(LogCommand::Insert),
            Ok(b'U') => Ok(LogCommand::Update),
            Ok(b'D') => Ok(LogCommand::Delete),
            Ok(_) => Err(RowFault::NotCanonical),
            Err(fault) => Err(fault),
        }
    }
}

/// The fields in their order.
impl Spelled for LogRow {
    ghost use Rattle.change_capture.specs.Spellings.{log_row_bytes, CanLogRow};

    ghost bytes = { log_row_bytes };

    ghost Can = { CanLogRow };

    #[tactic(auto, using(std::proofs::Common::append_assoc))]
    fn spell(&self, out: &mut RowOut) -> Result<(), AllocError> {
        self.xid.spell(out)?;
        self.table.spell(out)?;
        self.names.spell_all(out)?;
        self.command.spell(out)?;
        self.columns.spell(out)?;
        self.arguments.spell(out)
    }

    #[tactic(auto, using(std::proofs::Common::append_assoc))]
    fn read(alloc: Global, row: &mut RowIn<'_>) -> Result<LogRow, RowFault> {
        let xid = u64::read(alloc, row)?;
        let table = u32::read(alloc, row)?;
        let names = SpelledTexts::read_all(alloc, row, NAMES)?;
        let command = LogCommand::read(alloc, row)?;
        let columns = u64::read(alloc, row)?;
        let arguments = SpelledTexts::read(alloc, row)?;
        Ok(LogRow {
            xid,
            table,
            names,
            command,
            columns,
            arguments,
        })
    }
}
