// What a node knows of the transactions of other nodes, by what it read of the logs.
ghost use Rattle.std.specs.Prelude.{◌≡◌, nat_le, filter, IfOk, Ok, OnOk};
ghost use Rattle.store_rows.specs.Space.{AllOf};
ghost use Rattle.event_store.specs.Seen.{seen_event};
ghost use Rattle.slon_turns.specs.Bounds as rules;
ghost use Rattle.slon_turns.specs.Bounds.{IsKnownBy};

use event_store::Event;
use slon_model::Reply;
use slonik_exec::NoMemory;
use std::alloc::AllocError;

/// All actions of the origin with a number below this one are of transactions with an id below this one.
#[derive(Clone, Copy)]
pub struct Bound {
    /// The id of the origin.
    pub origin: u32,
    /// The id.
    pub xid: u64,
    /// The number.
    pub number: u64,
}

/// This number, or a greater one that is known of the origin with an id up to `xmin`.
fn raised(start: u64, bound: &Bound, origin: u32, xmin: u64) -> u64
    ensures { result ≡ rules.raised origin xmin start bound.now }
{
    if bound.origin == origin && bound.xid <= xmin && start < bound.number {
        return bound.number;
    }
    start
}

/// The greatest number that is known of the origin with an id up to `xmin`, or 0: all actions below it are of
/// transactions below that id.
pub(crate) fn start_of(bounds: &[Bound], origin: u32, xmin: u64) -> u64
    ensures { result ≡ rules.start_of origin xmin bounds.now }
{
    let mut start = 0;
    for bound in bounds {
        start = raised(start, bound, origin, xmin);
    }
    start
}

/// This number, or a lower one that is known of the origin and is above the start.
fn nearer(next: u64, bound: &Bound, origin: u32, start: u64) -> u64
    ensures { result ≡ rules.nearer origin start next bound.now }
{
    if bound.origin == origin && start < bound.number && bound.number < next {
        return bound.number;
    }
    next
}

/// The least number that is known of the origin and is above the start.
fn next_of(bounds: &[Bound], origin: u32, start: u64) -> u64
    ensures { result ≡ rules.next_of origin start bounds.now }
{
    let mut next = u64::MAX;
    for bound in bounds {
        next = nearer(next, bound, origin, start);
    }
    next
}

/// What is known by an event whose snapshot sees the action with this number: that is of a transaction below the
/// `xmax` of the snapshot, and so are all before it.
pub(crate) fn known_by(event: &Event, last: Option<u64>) -> Option<Bound>
    ensures { AllOf (IsKnownBy (seen_event event.now) last) result }
{
    let Some(last) = last else {
        return None;
    };
    let Some(number) = last.checked_add(1) else {
        return None;
    };
    Some(Bound {
        origin: event.origin,
        xid: event.taken.xmax,
        number,
    })
}

/// Whether this is known by what is known already.
fn tells_nothing(bounds: &[Bound], known: &Bound) -> bool
    ensures { result ≡ nat_le known.now.number (rules.start_of known.now.origin known.now.xid bounds.now) }
{
    known.number <= start_of(bounds, known.origin, known.xid)
}

/// Whether it is one of another origin, or has one of these two numbers.
fn is_kept(bound: &Bound, origin: u32, start: u64, next: u64) -> bool
    ensures { result ≡ rules.is_kept origin start next bound.now }
{
    bound.origin != origin || bound.number == start || bound.number == next
}

/// Keeps of an origin those with one of these two numbers.
fn keep_two(bounds: &mut Vec<Bound>, origin: u32, start: u64, next: u64)
    ensures { bounds.new.items ≡ filter (λ b. rules.is_kept origin start next b) bounds.old.items }
{
    bounds.retain(|bound| is_kept(bound, origin, start, next));
}

/// Adds what is known of an origin, unless that tells nothing new. Of the others of that origin it keeps the one that
/// serves for a snapshot with this `xmin`, and the one behind it, which serves as soon as the transactions have ended
/// that were open then. So there are never more than a few of an origin.
fn add_bound(bounds: &mut Vec<Bound>, known: Bound, xmin: u64) -> Result<(), AllocError>
    ensures { OnOk result (bounds.new.items ≡ rules.with_bound xmin known bounds.old.items) }
{
    if tells_nothing(bounds.as_slice(), &known) {
        return Ok(());
    }
    let start = start_of(bounds.as_slice(), known.origin, xmin);
    let next = next_of(bounds.as_slice(), known.origin, start);
    keep_two(bounds, known.origin, start, next);
    bounds.push(known)?;
    Ok(())
}

/// The same of what is known, if anything is.
fn learn(bounds: &mut Vec<Bound>, known: Option<Bound>, xmin: u64) -> Result<(), AllocError>
    ensures { OnOk result (bounds.new.items ≡ rules.learned xmin known bounds.old.items) }
{
    match known {
        Some(known) => add_bound(bounds, known, xmin),
        None => Ok(()),
    }
}

/// The same behind a turn, whose reply is handed on.
pub(crate) fn learn_behind(
    bounds: &mut Vec<Bound>,
    known: Option<Bound>,
    xmin: u64,
    turned: Result<Reply, NoMemory>,
) -> Result<Reply, NoMemory>
    ensures { IfOk result (λ reply.
        (turned ≡ Ok reply) × (bounds.new.items ≡ rules.learned xmin known bounds.old.items)) }
{
    match turned {
        Ok(reply) => match learn(bounds, known, xmin) {
            Ok(()) => Ok(reply),
            Err(_) => {
                drop(reply);
                Err(NoMemory)
            }
        },
        Err(short) => Err(short),
    }
}
