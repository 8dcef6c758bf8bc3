// The distinct roots among the arguments of a call.
ghost use Rattle.std.specs.Prelude.{◌≡◌, ℕ, None, Some, [], ◌<◌, ◌≤◌, insert, length};
ghost use Rattle.std.specs.List.{zip};
ghost use Rattle.dl_core.specs.Arguments.{CanHold, AllHeld};
ghost use Rattle.dl_core.specs.Plans.{put_in as puts_in, put_root as puts_root, roots_among};

use crate::lists::Row;
use dl_ir::{LocalDecl, Ty};

// Where a number is to be put into a rising list; none where it is there.
fn place_in(number: u32, roots: &[u32]) -> Option<usize>
    ensures there { result ≡ None → puts_in number roots.now ≡ roots.now }
    ensures within { (at : ℕ) → result ≡ Some at → at ≤ length roots.now }
    ensures place { (at : ℕ) → result ≡ Some at → puts_in number roots.now ≡ insert roots.now at number }
{
    match roots {
        [] => Some(0),
        [first, rest @ ..] => {
            if number == *first {
                None
            } else if number < *first {
                Some(0)
            } else {
                match place_in(number, rest) {
                    Some(at) => Some(at + 1),
                    None => None,
                }
            }
        }
    }
}

// A number is put into a rising list, unless it is there.
fn put_in(number: u32, roots: &mut Row<u32>)
    requires { length roots.old.items < roots.old.room }
    ensures { roots.new ≡ record roots.old { items = puts_in number roots.old.items } }
{
    match place_in(number, roots.as_slice()) {
        Some(at) => roots.insert(at, number),
        None => {}
    }
}

// The root that an argument names is put into a rising list, where the parameter is one of references.
fn put_root(ty: Ty, argument: i64, roots: &mut Row<u32>)
    requires held { CanHold ty argument }
    requires room { length roots.old.items < roots.old.room }
    ensures { roots.new ≡ record roots.old { items = puts_root ty argument roots.old.items } }
{
    match ty {
        Ty::Int => {}
        Ty::Of(_) => put_in(argument as u32, roots),
    }
}

/// Puts the distinct roots among arguments into an empty list, in rising order.
pub fn put_roots(params: &[LocalDecl], args: &[i64], roots: &mut Row<u32>)
    requires held { AllHeld params.now args.now }
    requires room { length args.now ≤ roots.old.room }
    requires none { roots.old.items ≡ [] }
    ensures { roots.new ≡ record roots.old { items = roots_among (zip params.now args.now) } }
{
    match params {
        [] => {}
        [param, params @ ..] => match args {
            [] => {}
            [argument, args @ ..] => {
                put_roots(params, args, roots);
                put_root(param.ty, *argument, roots);
            }
        },
    }
}
