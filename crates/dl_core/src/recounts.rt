// How many fields refer to the objects that a caller holds.
ghost use Rattle.std.specs.Prelude.{◌≡◌, ℕ, ◌+◌, ◌<◌, ◌^◌, None, Some};
ghost use Rattle.std.specs.FinMap as finite;
ghost use Rattle.dl_core.specs.declared.stages.Booked.{Booked};
ghost use Rattle.dl_core.specs.Frames.{lowered, raised};

use crate::stages::Booked;
use dl_ir::{Name, Table};

// What the caller knows of an object that it holds.
fn booked_in(book: &Table<Booked>, name: Name) -> Option<Booked>
    ensures { result ≡ finite.get book.now.rows name }
{
    match book.get(name) {
        Some(booked) => Some(*booked),
        None => None,
    }
}

/// One field less refers to the object.
pub fn lower(target: Option<Name>, book: &mut Table<Booked>)
    ensures { book.new ≡ record book.old { rows = lowered target book.old.rows } }
{
    if let Some(name) = target {
        match booked_in(book, name) {
            Some(booked) => {
                let fields = booked.fields.saturating_sub(1);
                book.put(name, Booked { fields, ..booked });
            }
            None => {}
        }
    }
}

/// One field more refers to the object.
pub fn raise(target: Option<Name>, book: &mut Table<Booked>)
    requires { (name : Name) (booked : Booked) → target ≡ Some name → finite.get book.old.rows name ≡ Some booked → booked.fields + 1 < 2 ^ 32 }
    ensures { book.new ≡ record book.old { rows = raised target book.old.rows } }
{
    if let Some(name) = target {
        match booked_in(book, name) {
            Some(booked) => {
                let fields = booked.fields + 1;
                book.put(name, Booked { fields, ..booked });
            }
            None => {}
        }
    }
}
