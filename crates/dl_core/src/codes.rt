// What the machine looks up in the code.
ghost use Rattle.std.specs.Prelude.{◌≡◌, ℕ, ℤ, List, ◌+◌, ◌<◌, ◌≤◌, ◌^◌, None, Some, [], OnSome, slice_get, get_or, drop, length};
ghost use Rattle.std.specs.Option.{option_copied};
ghost use Rattle.dl_ir.specs.declared.modules.KindDecl.{KindDecl};
ghost use Rattle.dl_core.specs.declared.stages.Booked.{Booked};
ghost use Rattle.dl_core.specs.Plans.{Plan, allocs_of as allocs_in, reference_from as reference_in, first_reference as reference_first, fields_of as fields_in};
ghost use Rattle.dl_core.specs.Shown.{with_code, HasFewFields};

use dl_instr::{Code, Step};
use dl_ir::{FieldDecl, Ty};

/// The step at a place of the code of an operation, if there is one.
pub fn step_at(code: &Code, op: u32, place: usize) -> Option<&Step>
    ensures step { option_copied result ≡ slice_get (get_or code.now.ops op []) place }
    ensures small { OnSome result (place + 1 < 2 ^ 64) }
{
    match code.steps(op as usize) {
        Some(steps) => {
            let steps = steps.as_slice();
            if place < steps.len() {
                Some(&steps[place])
            } else {
                None
            }
        }
        None => None,
    }
}

/// The number of objects that an operation may make.
pub fn allocs_of(code: &Code, op: u32) -> u32
    ensures { (plan : Plan) (args : List ℤ) → plan.code ≡ code.now → allocs_in plan (record { op = op; args = args }) ≡ result }
{
    match code.source().ops.get(op as usize) {
        Some(op) => op.allocs,
        None => 0,
    }
}

/// The number of the first field of a kind, from this number on, that holds a reference, if one does.
pub fn reference_from(code: &Code, kind: u32, from: u32) -> Option<u32>
    requires { HasFewFields code.now }
    ensures field { (plan : Plan) → plan.code ≡ code.now → result ≡ reference_in plan kind from }
    ensures small { (at : ℕ) → result ≡ Some at → at < 16 }
{
    match code.source().kinds.get(kind as usize) {
        Some(declared) => {
            let fields = declared.fields.as_slice();
            if (from as usize) < fields.len() {
                first_reference(from, &fields[from as usize..])
            } else {
                None
            }
        }
        None => None,
    }
}

// The number of the first of these fields that holds a reference, if one does; the first of them has this number.
fn first_reference(at: u32, fields: &[FieldDecl]) -> Option<u32>
    requires { at + length fields.now < 2 ^ 32 }
    ensures field { result ≡ reference_first at fields.now }
    ensures within { (number : ℕ) → result ≡ Some number → number < at + length fields.now }
{
    match fields {
        [] => None,
        [first, rest @ ..] => match first.ty {
            Ty::Of(_) => Some(at),
            Ty::Int => first_reference(at + 1, rest),
        },
    }
}
