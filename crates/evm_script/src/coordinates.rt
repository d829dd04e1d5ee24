//! Numbers of a line that lie between two bounds, as 32-bit integers.

ghost use Rattle.std.specs.Prelude.{◌≡◌, ◌≤◌, length, take, true, false, MatchOption};
ghost use Rattle.std.specs.List.{list_all};
ghost use Rattle.evm_script.specs.Coordinates.{is_between};

use super::numbers::{NUMS_MAX, Num, Nums};
use std::marker::Model;

/// At most twelve numbers that 32 bits hold. It owns them, in place, and takes no other memory.
#[derive(Debug, Drop)]
pub struct Coordinates {
    values: [i32; NUMS_MAX],
    len: usize,
}

impl Model for Coordinates {
    ghost use Rattle.std.specs.Prelude.{List, ℤ, ◌≤◌, take};
    ghost use Rattle.evm_script.specs.Words.{nums_max};

    ghost Value = { List ℤ };

    ghost view = { λ a. take a.len a.values };

    ghost invariant = { λ a. a.len ≤ nums_max };
}

impl Coordinates {
    /// The numbers, in order.
    pub fn values(&self) -> &[i32]
        ensures { result.now ≡ self.now }
    {
        &self.values[..self.len]
    }
}

/// A number from `low` to `high`, or `None` exactly where it is not.
fn narrowed(n: i64, low: i32, high: i32) -> Option<i32>
    ensures { MatchOption result (is_between low high n ≡ false)
        (λ x. (is_between low high n ≡ true) × (x ≡ n)) }
{
    if i64::from(low) <= n && n <= i64::from(high) {
        Some(n as i32)
    } else {
        None
    }
}

/// Numbers from `low` to `high`, with zeros after them, or `None` exactly where one is not.
fn all_narrowed(numbers: &[i64], low: i32, high: i32) -> Option<[i32; NUMS_MAX]>
    requires { length numbers.now ≤ NUMS_MAX }
    ensures { MatchOption result (list_all (is_between low high) numbers.now ≡ false)
        (λ made. (list_all (is_between low high) numbers.now ≡ true)
        × (take (length numbers.now) made ≡ numbers.now)) }
{
    let mut made = [0i32; NUMS_MAX];
    for (i, n) in numbers.iter().enumerate() {
        match narrowed(*n, low, high) {
            Some(x) => made[i] = x,
            None => return None,
        }
    }
    Some(made)
}

impl Num {
    /// The number, or `None` exactly where it is not from `low` to `high`.
    pub fn between(&self, low: i32, high: i32) -> Option<i32>
        ensures { MatchOption result (is_between low high self.now ≡ false)
            (λ x. (is_between low high self.now ≡ true) × (x ≡ self.now)) }
    {
        narrowed(self.value(), low, high)
    }
}

impl Nums {
    /// Whether each number is from `low` to `high`.
    pub fn are_between(&self, low: i32, high: i32) -> bool
        ensures { result ≡ list_all (is_between low high) self.now }
    {
        self.values()
            .iter()
            .all(|n| i64::from(low) <= *n && *n <= i64::from(high))
    }

    /// The numbers, or `None` exactly where one is not from `low` to `high`.
    pub fn between(&self, low: i32, high: i32) -> Option<Coordinates>
        ensures { MatchOption result (list_all (is_between low high) self.now ≡ false)
            (λ found. (list_all (is_between low high) self.now ≡ true) × (found ≡ self.now)) }
    {
        let numbers = self.values();
        match all_narrowed(numbers, low, high) {
            Some(values) => Some(Coordinates {
                values,
                len: numbers.len(),
            }),
            None => None,
        }
    }
}
