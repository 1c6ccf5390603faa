// How a database goes down because work on its store stopped, or a number would be too big.
ghost use Rattle.std.specs.Prelude.{◌≡◌};
ghost use Rattle.node_keeper.specs.Fused.{fuse_kept};
ghost use Rattle.app_store.specs.Base.{memory_of, GoesDown};
ghost use Rattle.app_store.specs.Parts.{halt_of};

use crate::Stop;
use crate::layout::META;
use crate::state::State;
use node_keeper::{Fuse, Keeper};
use slon_base::Halt;
use slon_model::DbFault;
use std::alloc::Global;

/// Takes a database down because work on its store stopped, and says why, as its caller is told.
pub fn fall<K: Keeper>(alloc: Global, state: &mut State, keeper: &Fuse<K>, stop: Stop) -> DbFault
    ensures down { GoesDown (memory_of state.old) (memory_of state.new) }
    ensures fault { result ≡ halt_of stop (fuse_kept K.kept keeper.now).faults }
{
    state.take_down(alloc);
    DbFault::Halt(match stop {
        Stop::Failed => Halt::Fault {
            count: keeper.faults(),
        },
        Stop::NoMemory => Halt::NoMemory,
        Stop::BadRow { space } => Halt::BadRow { space },
        Stop::TooBig { space } => Halt::TooBig { space },
    })
}

/// Takes a database down because a number would pass the limit of stored numbers.
pub fn overflow(alloc: Global, state: &mut State) -> DbFault
    ensures down { GoesDown (memory_of state.old) (memory_of state.new) }
    ensures fault { result ≡ DbFault.Halt (Halt.TooBig 1) }
{
    state.take_down(alloc);
    DbFault::Halt(Halt::TooBig { space: META })
}
