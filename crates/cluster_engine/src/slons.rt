// What a session switches: the nodes whose slon is on, and the pairs of nodes that are cut off from one another. There
// are few of both, so each is looked for one by one. And what nodes hold in
// memory.
ghost use Rattle.std.specs.Prelude.{◌≡◌, ◌&&◌, not, if◌then◌else◌, OnOk};
ghost use Rattle.std.specs.FinMap.{remove};
ghost use Rattle.slon_model.specs.Turns.{with_started, without_started, with_cut, without_cut};

use slon_base::{ByteMap, Text};
use slon_turns::{Held, are_cut, is_between};
use std::alloc::AllocError;

/// Adds a node, if it is not there.
pub(crate) fn add_slon(started: &mut Vec<u32>, node: u32) -> Result<(), AllocError>
    ensures { OnOk result (started.new.items ≡ with_started node started.old.items) }
{
    if !started.contains(&node) {
        started.push(node)?;
    }
    Ok(())
}

/// Takes a node away, if it is there.
pub(crate) fn remove_slon(started: &mut Vec<u32>, node: u32)
    ensures { started.new.items ≡ without_started node started.old.items }
{
    started.retain(|other| *other != node);
}

/// Cuts two nodes off from one another, if they are not.
pub(crate) fn add_cut(cuts: &mut Vec<(u32, u32)>, node: u32, other: u32) -> Result<(), AllocError>
    ensures { OnOk result (cuts.new.items ≡ with_cut node other cuts.old.items) }
{
    if !are_cut(cuts.as_slice(), node, other) {
        cuts.push((node, other))?;
    }
    Ok(())
}

/// Joins two nodes again, if they are cut off from one another.
pub(crate) fn remove_cut(cuts: &mut Vec<(u32, u32)>, node: u32, other: u32)
    ensures { cuts.new.items ≡ without_cut node other cuts.old.items }
{
    cuts.retain(|cut| !is_between(cut, node, other));
}

/// Whether a database came up that was up, or not, before.
pub(crate) fn came_up(was_up: bool, is_up: bool) -> bool
    ensures { result ≡ (is_up && not was_up) }
{
    is_up && !was_up
}

/// Takes away what is held at the database of this name, if that is gone.
pub(crate) fn forget(held: &mut ByteMap<Held>, name: &Text, gone: bool)
    ensures { held.new ≡ (if gone then remove held.old name.now else held.old) }
{
    if gone {
        let _held = held.remove(name.as_slice());
    }
}
