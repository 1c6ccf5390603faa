// Where transactions began among the actions. It tells from which action on a log is to be read for a snapshot.
ghost use Rattle.std.specs.Prelude.{◌≡◌};
ghost use Rattle.app_store.specs.Begun.{start_at};

use slon_base::Many;

/// A transaction, and the number of the action that came next as it began.
#[derive(Clone, Copy, Debug, Drop)]
pub struct Begun {
    pub(crate) xid: u64,
    pub(crate) number: u64,
}

/// The number of the action that came next as the last one of these transactions began whose id is at most this one, or
/// 0 where there is none. It looks at those behind that one.
pub(crate) fn number_at(begun: &[Begun], xid: u64) -> u64
    ensures { result ≡ start_at xid begun.now }
{
    match begun.iter().rev().find(|begun| begun.xid <= xid) {
        Some(begun) => begun.number,
        None => 0,
    }
}
