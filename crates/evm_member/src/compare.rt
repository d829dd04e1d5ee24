//! How one row stands to a cell or to a point.
ghost use Rattle.std.specs.Prelude.{◌≡◌, ◌<◌, ◌≤◌, Some, None, if◌then◌else◌, IfSome, int_le, length};
ghost use Rattle.evm_cells.specs.Places.{each};
ghost use Rattle.evm_member.specs.Levels.{level_axes, starts_above};

use std::cmp::Ordering;

/// Whether the row is above the place on the first axis. Then so are all rows after it.
#[inline(always)]
pub fn is_past(row: &[i32], place: &[i32]) -> bool
    requires row { 0 < length row.now }
    requires place { 0 < length place.now }
    ensures { result ≡ starts_above row.now place.now }
{
    row[0] > place[0]
}

/// Whether the row is above the place on no axis.
#[inline(always)]
pub fn is_below(row: &[i32], place: &[i32]) -> bool
    requires { length row.now ≡ length place.now }
    ensures { result ≡ each int_le row.now place.now }
{
    for (x, top) in row.iter().zip(place) {
        if x > top {
            return false;
        }
    }
    true
}

/// The axes on which the row has the coordinate of the point, as bits from the first axis on; none if the row is above
/// the point on some axis.
#[inline(always)]
pub fn level_with(row: &[i32], point: &[i32]) -> Option<u32>
    requires long { length row.now ≡ length point.now }
    requires few { length point.now ≤ 6 }
    ensures axes { result
        ≡ (if each int_le row.now point.now then Some (level_axes 1 row.now point.now) else None) }
    ensures few { IfSome result (λ axes. axes < 64) }
{
    let mut axes = 0u32;
    let mut bit = 1u32;
    for (x, y) in row.iter().zip(point) {
        match x.cmp(y) {
            Ordering::Less => {}
            Ordering::Equal => axes += bit,
            Ordering::Greater => return None,
        }
        bit *= 2;
    }
    Some(axes)
}
