// The order of keys.
ghost use Rattle.std.specs.Prelude.{◌≡◌, ◌≤◌, ◌+◌, ◌^◌, ◌<◌, ◌++◌, length, drop, bytes_eq, nat_eq, IsTrue};
ghost use Rattle.std.specs.List.{starts_with};
ghost use Rattle.std.specs.Ordering.{nat_cmp};
ghost use Rattle.slon_base.specs.Codec.{number_bytes};
ghost use Rattle.slon_base.specs.Compact.{bytes_at, IsPadded};
ghost use Rattle.slon_base.specs.Keeper.{key_cmp};

use crate::compact::{Compact, INLINE_LEN, front};
use std::cmp::Ordering;

/// How many bytes are compared at once.
const AT_ONCE: usize = 8;

/// Whether two lists of bytes are the same. Of few bytes this takes less than the comparison of slices.
pub fn are_same(left: &[u8], right: &[u8]) -> bool
    ensures { result ≡ bytes_eq left.now right.now }
{
    order_of_bytes(left, right).is_eq()
}

/// Whether the bytes begin with these.
pub fn begin_with(bytes: &[u8], prefix: &[u8]) -> bool
    ensures value { result ≡ starts_with nat_eq bytes.now prefix.now }
    ensures len { IsTrue result → length prefix.now ≤ length bytes.now }
{
    are_same(prefix, front(bytes, prefix.len()))
}

/// The order of two keys by their bytes. Those in the values themselves are compared with the zeros behind them, as a
/// whole of one length, and only where these are the same by how many they are. All else is kept out of line, so that
/// a search for a key has these few comparisons in its loop.
#[inline(always)]
pub(crate) fn order(left: &Compact, right: &Compact) -> Ordering
    requires { IsPadded left.now × IsPadded right.now }
    ensures { result ≡ key_cmp (bytes_at left.now) (bytes_at right.now) }
{
    match left {
        Compact::Inline { bytes, .. } => match right {
            Compact::Inline { bytes: others, .. } => {
                let padded = order_of_padded(bytes, others);
                if padded != Ordering::Equal {
                    return padded;
                }
                order_of_lengths(left, right)
            }
            Compact::Heap(_) => order_anywhere(left, right),
        },
        Compact::Heap(_) => order_anywhere(left, right),
    }
}

/// The order of two keys, wherever their bytes stand.
#[inline(never)]
fn order_anywhere(left: &Compact, right: &Compact) -> Ordering
    ensures { result ≡ key_cmp (bytes_at left.now) (bytes_at right.now) }
{
    order_of_bytes(left.as_slice(), right.as_slice())
}

/// The order of the lengths of two keys.
#[inline(never)]
fn order_of_lengths(left: &Compact, right: &Compact) -> Ordering
    ensures { result ≡ nat_cmp (length (bytes_at left.now)) (length (bytes_at right.now)) }
{
    left.as_slice().len().cmp(&right.as_slice().len())
}

/// The order of as many bytes on both sides.
#[inline(always)]
fn order_of_padded(left: &[u8; INLINE_LEN], right: &[u8; INLINE_LEN]) -> Ordering
    ensures order { result ≡ key_cmp left.now right.now }
    ensures len { length left.now ≡ length right.now }
{
    order_of_bytes(left, right)
}

/// The order of two lists of bytes. Eight of these at a time are compared as one number, since keys of a store are
/// short and most of them begin alike. The last eight that both have may overlap those before them.
#[inline(always)]
fn order_of_bytes(left: &[u8], right: &[u8]) -> Ordering
    ensures { result ≡ key_cmp left.now right.now }
{
    let common = left.len().min(right.len());
    if common < AT_ONCE {
        return left.cmp(right);
    }
    let last = common - AT_ONCE;
    let mut at = 0;
    while at < last {
        let (here, there) = (number_from(left, at), number_from(right, at));
        if here != there {
            return here.cmp(&there);
        }
        at += AT_ONCE;
    }
    let (here, there) = (number_from(left, last), number_from(right, last));
    if here != there {
        return here.cmp(&there);
    }
    left.len().cmp(&right.len())
}

/// The number that the eight bytes from this place on spell.
fn number_from(bytes: &[u8], at: usize) -> u64
    requires { at + 8 ≤ length bytes.now }
    ensures { (result < 2 ^ 64) × (drop at bytes.now ≡ number_bytes result ++ drop (at + 8) bytes.now) }
{
    let (_, behind) = bytes.split_at(at);
    let (eight, _) = behind.split_at(AT_ONCE);
    u64::from_be_bytes([
        eight[0], eight[1], eight[2], eight[3], eight[4], eight[5], eight[6], eight[7],
    ])
}
