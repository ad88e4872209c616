//! The bytes about the place where a piece ends.
ghost use Rattle.std.specs.Prelude.{◌≡◌, ◌+◌, ◌≤◌, ◌++◌, [], length};
ghost use Rattle.item_actions.specs.declared.edge.TheConstants.{EDGE_BYTES};

use crate::MAX_NEEDLE_BYTES;
use std::marker::Model;

/// The most bytes that are joined: the last ones of what came, and the first ones of a piece.
pub(crate) const EDGE_BYTES: usize = 2 * MAX_NEEDLE_BYTES;

/// At most `EDGE_BYTES` bytes.
#[derive(Drop)]
pub struct Edge {
    bytes: [u8; EDGE_BYTES],
    len: usize,
}

impl Model for Edge {
    ghost use Rattle.std.specs.Prelude.{ℕ, List, ◌≤◌, take};
    ghost use Rattle.item_actions.specs.declared.edge.TheConstants.{EDGE_BYTES};

    ghost Value = { List ℕ };

    ghost view = { λ e. take e.len e.bytes };

    ghost invariant = { λ e. e.len ≤ EDGE_BYTES };
}

impl Edge {
    /// No bytes.
    pub(crate) fn new() -> Edge
        ensures { result ≡ [] }
    {
        Edge {
            bytes: [0; EDGE_BYTES],
            len: 0,
        }
    }

    /// These bytes.
    pub(crate) fn of(bytes: &[u8]) -> Edge
        requires { length bytes.now ≤ EDGE_BYTES }
        ensures { result ≡ bytes.now }
    {
        let mut edge = Edge::new();
        edge.push(bytes);
        edge
    }

    /// Puts bytes behind the bytes.
    pub(crate) fn push(&mut self, bytes: &[u8])
        requires { length self.old + length bytes.now ≤ EDGE_BYTES }
        ensures { self.new ≡ self.old ++ bytes.now }
    {
        let end = self.len + bytes.len();
        self.bytes[self.len..end].copy_from_slice(bytes);
        self.len = end;
    }

    /// The bytes.
    pub(crate) fn bytes(&self) -> &[u8]
        ensures { result.now ≡ self.now }
    {
        &self.bytes[..self.len]
    }
}
