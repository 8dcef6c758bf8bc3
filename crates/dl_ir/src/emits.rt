//! The numbers that an operation emits.

ghost use Rattle.std.specs.Prelude.{◌≡◌, [], ◌∷◌, ◌++◌, ◌<◌, ◌≤◌, ◌↔◌, IsTrue, length};

use std::marker::Model;

/// The numbers that an operation emitted, at most 16, in the order in which it did. They take no memory of their own.
#[derive(Clone, Copy, Debug, PartialEq, Eq)]
pub struct Emits {
    // From `len` on each cell is 0.
    cells: [i64; 16],
    len: usize,
}

impl Model for Emits {
    ghost use Rattle.std.specs.Prelude.{ℤ, List, take, length};
    ghost use Rattle.std.specs.Coded.{coded_list, coded_ℤ};
    ghost use Rattle.dl_ir.specs.Padding.{padded, IsPadded};
    ghost use Rattle.std.proofs.Common.{sym, arith, length-take-le};

    ghost Value = { List ℤ };

    ghost coded = { coded_list coded_ℤ };

    ghost view = { λ e. take e.len e.cells };

    ghost invariant = { λ e. IsPadded e.cells e.len };

    ghost inverse = { λ numbers. record { cells = padded 16 numbers; len = length numbers } };

    ghost inverse_ok = { λ e kept i. record { cells = sym kept.rest i; len = length-take-le e.len e.cells (omega (arith, kept.few, kept.sixteen)) i } };
}

impl Emits {
    pub fn new() -> Emits
        ensures { result ≡ [] }
    {
        Emits {
            cells: [0; 16],
            len: 0,
        }
    }

    /// Adds a number behind the others.
    pub fn push(&mut self, number: i64)
        requires { length self.old < 16 }
        ensures { self.new ≡ self.old ++ number ∷ [] }
    {
        let at = self.len;
        self.cells[at] = number;
        self.len = at + 1;
    }

    /// Whether there are 16, and so none may be added.
    pub fn is_full(&self) -> bool
        ensures { IsTrue result ↔ (16 ≤ length self.now) }
    {
        self.len >= 16
    }

    pub fn len(&self) -> usize
        ensures { result ≡ length self.now }
    {
        self.as_slice().len()
    }

    pub fn is_empty(&self) -> bool
        ensures { IsTrue result ↔ (self.now ≡ []) }
    {
        self.as_slice().is_empty()
    }

    pub fn as_slice(&self) -> &[i64]
        ensures value { result.now ≡ self.now }
        ensures few { length result.now ≤ 16 }
    {
        &self.cells[..self.len]
    }
}
