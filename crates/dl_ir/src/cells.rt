//! How the value of a field lies in memory.

ghost use Rattle.std.specs.Prelude.{◌≡◌};
ghost use Rattle.dl_ir.specs.Cells.{cell_of, value_in};

use crate::names::{Name, Value};

/// The value of a field, in half of the memory that a `Value` takes.
#[derive(Clone, Copy, Debug)]
pub enum Cell {
    Int(i64),
    Null,
    // The index comes first, so that it lies beside the number of the variant.
    Ref { index: u32, ticket: u64 },
}

/// A value as a cell.
pub(crate) fn cell_of(value: Value) -> Cell
    ensures { result ≡ cell_of value }
{
    match value {
        Value::Int(number) => Cell::Int(number),
        Value::Ref(None) => Cell::Null,
        Value::Ref(Some(name)) => Cell::Ref {
            index: name.index,
            ticket: name.ticket,
        },
    }
}

/// The value in a cell.
pub(crate) fn value_of(cell: Cell) -> Value
    ensures { result ≡ value_in cell }
{
    match cell {
        Cell::Int(number) => Value::Int(number),
        Cell::Null => Value::Ref(None),
        Cell::Ref { index, ticket } => Value::Ref(Some(Name { ticket, index })),
    }
}
