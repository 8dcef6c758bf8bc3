//! The two parts in which the values of an object's fields are kept: the first four, and those behind them.

ghost use Rattle.std.specs.Prelude.{◌≡◌, ◌∷◌, ◌++◌, ◌<◌, ◌≤◌, [], length, map, slice_get, slice_set};
ghost use Rattle.dl_ir.specs.Cells.{value_in};

use crate::cells::{Cell, cell_of, value_of};
use crate::names::Value;
use std::marker::Model;

/// The values of the first fields of an object, at most four.
#[derive(Debug, Drop)]
pub struct Near {
    // Before the cells, so that it lies beside the first of them in memory.
    len: usize,
    cells: [Cell; 4],
}

impl Model for Near {
    ghost use Rattle.std.specs.Prelude.{List, map, take, ◌≤◌};
    ghost use Rattle.std.specs.Coded.{coded_list};
    ghost use Rattle.dl_ir.specs.declared.names.Value.{Value as Held};
    ghost use Rattle.dl_ir.specs.Cells.{value_in};
    ghost use Rattle.dl_ir.specs.Values.{coded_value};

    ghost Value = { List Held };

    ghost coded = { coded_list coded_value };

    ghost view = { λ a. map value_in (take a.len a.cells) };

    ghost invariant = { λ a. a.len ≤ 4 };
}

impl Near {
    pub fn new() -> Near
        ensures { result ≡ [] }
    {
        Near {
            len: 0,
            cells: [Cell::Int(0); 4],
        }
    }

    /// Adds a value behind the others.
    #[inline(always)]
    pub fn push(&mut self, value: Value)
        requires { length self.old < 4 }
        ensures { self.new ≡ self.old ++ value ∷ [] }
    {
        let at = self.len;
        self.cells[at] = cell_of(value);
        self.len = at + 1;
    }

    /// The value with this number, if there is one.
    #[inline(always)]
    pub fn get(&self, at: usize) -> Option<Value>
        ensures { result ≡ slice_get self.now at }
    {
        if at < self.len {
            Some(value_of(self.cells[at]))
        } else {
            None
        }
    }

    /// Writes the value with this number, if there is one, and answers the value that was there.
    #[inline(always)]
    pub fn replace(&mut self, at: usize, value: Value) -> Option<Value>
        ensures before { result ≡ slice_get self.old at }
        ensures written { self.new ≡ slice_set self.old at value }
    {
        if at < self.len {
            let before = value_of(self.cells[at]);
            self.cells[at] = cell_of(value);
            Some(before)
        } else {
            None
        }
    }

    /// The number of values.
    #[inline(always)]
    pub fn len(&self) -> usize
        ensures value { result ≡ length self.now }
        ensures few { result ≤ 4 }
    {
        self.held().len()
    }

    /// The cells that hold a value.
    #[inline(always)]
    pub fn held(&self) -> &[Cell]
        ensures value { map value_in result.now ≡ self.now }
        ensures few { length result.now ≤ 4 }
    {
        &self.cells[..self.len]
    }
}

/// The values of the fields of an object behind the fourth, at most twelve.
#[derive(Debug, Drop)]
pub struct Far {
    len: usize,
    cells: [Cell; 12],
}

impl Model for Far {
    ghost use Rattle.std.specs.Prelude.{List, map, take, ◌≤◌};
    ghost use Rattle.std.specs.Coded.{coded_list};
    ghost use Rattle.dl_ir.specs.declared.names.Value.{Value as Held};
    ghost use Rattle.dl_ir.specs.Cells.{value_in};
    ghost use Rattle.dl_ir.specs.Values.{coded_value};

    ghost Value = { List Held };

    ghost coded = { coded_list coded_value };

    ghost view = { λ a. map value_in (take a.len a.cells) };

    ghost invariant = { λ a. a.len ≤ 12 };
}

impl Far {
    pub fn new() -> Far
        ensures { result ≡ [] }
    {
        Far {
            len: 0,
            cells: [Cell::Int(0); 12],
        }
    }

    /// Adds a value behind the others.
    pub fn push(&mut self, value: Value)
        requires { length self.old < 12 }
        ensures { self.new ≡ self.old ++ value ∷ [] }
    {
        let at = self.len;
        self.cells[at] = cell_of(value);
        self.len = at + 1;
    }

    /// The value with this number, if there is one.
    pub fn get(&self, at: usize) -> Option<Value>
        ensures { result ≡ slice_get self.now at }
    {
        if at < self.len {
            Some(value_of(self.cells[at]))
        } else {
            None
        }
    }

    /// Writes the value with this number, if there is one, and answers the value that was there.
    pub fn replace(&mut self, at: usize, value: Value) -> Option<Value>
        ensures before { result ≡ slice_get self.old at }
        ensures written { self.new ≡ slice_set self.old at value }
    {
        if at < self.len {
            let before = value_of(self.cells[at]);
            self.cells[at] = cell_of(value);
            Some(before)
        } else {
            None
        }
    }

    /// The number of values.
    pub fn len(&self) -> usize
        ensures value { result ≡ length self.now }
        ensures few { result ≤ 12 }
    {
        self.held().len()
    }

    /// The cells that hold a value.
    pub fn held(&self) -> &[Cell]
        ensures value { map value_in result.now ≡ self.now }
        ensures few { length result.now ≤ 12 }
    {
        &self.cells[..self.len]
    }
}
