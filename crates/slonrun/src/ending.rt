// How the program ends.
ghost use Rattle.std.specs.Prelude.{◌≡◌, Result, OnOk, Ok, Err};

use slon_base::OutFault;
use slon_main::Status;

/// The status of the program: that of the run, or where the last replies could not be written, why not.
pub(crate) fn last_status(status: Status, flushed: Result<(), OutFault>) -> Status
    ensures written { OnOk flushed (result ≡ status) }
    ensures failed { flushed ≡ Err OutFault.Failed → result ≡ Status.WriteFault }
    ensures no_memory { flushed ≡ Err OutFault.NoMemory → result ≡ Status.NoMemory }
{
    match flushed {
        Ok(()) => status,
        Err(OutFault::Failed) => Status::WriteFault,
        Err(OutFault::NoMemory) => Status::NoMemory,
    }
}
