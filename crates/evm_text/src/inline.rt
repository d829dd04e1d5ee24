//! Bytes that lie in the value itself.

ghost use Rattle.std.specs.Prelude.{◌≡◌, ◌<◌, ◌≤◌, length, MatchOption};

use std::marker::Model;

/// At most `N` bytes, which lie in the value itself: it takes no other memory.
#[derive(Clone, Copy, Debug, PartialEq, Eq)]
pub struct InlineBytes<const N: usize> {
    bytes: [u8; N],
    len: usize,
}

impl<const N: usize> Model for InlineBytes<N> {
    ghost use Rattle.std.specs.Prelude.{List, ℕ, ◌++◌, ◌-◌, length, take, replicate};
    ghost use Rattle.evm_text.specs.Padding.{Padded, padded_length, padded_cells};

    ghost Value = { List ℕ };

    ghost view = { λ a. take a.len a.bytes };

    ghost invariant = { λ a. Padded 0 N a.bytes a.len };

    ghost inverse = { λ v. record { bytes = v ++ replicate (N - length v) 0; len = length v } };

    ghost inverse_ok = { λ a h i. record { bytes = padded_cells 0 N a.bytes a.len h i; len = padded_length 0 N a.bytes a.len h i } };
}

impl<const N: usize> InlineBytes<N> {
    /// These bytes, or `None` exactly where there are more than `N`.
    pub fn of(bytes: &[u8]) -> Option<InlineBytes<N>>
        ensures { MatchOption result (N < length bytes.now)
            (λ kept. (length bytes.now ≤ N) × (kept ≡ bytes.now)) }
    {
        if bytes.len() > N {
            return None;
        }
        let mut kept = [0u8; N];
        kept[..bytes.len()].copy_from_slice(bytes);
        Some(InlineBytes {
            bytes: kept,
            len: bytes.len(),
        })
    }

    /// How many bytes it has: at most `N`.
    pub fn len(&self) -> usize
        ensures length { result ≡ length self.now }
        ensures few { result ≤ N }
    {
        self.len
    }

    /// The bytes.
    pub fn bytes(&self) -> &[u8]
        ensures { result.now ≡ self.now }
    {
        &self.bytes[..self.len]
    }
}
