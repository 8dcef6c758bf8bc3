//! Names and values at the front of a text.

ghost use Rattle.std.specs.Prelude.{◌≡◌, MatchOption, Some, None, codes};
ghost use Rattle.dl_heapfile.specs.Reading as spec;

use crate::numbers::{integer, number};
use dl_ir::{Name, Ty, Value};

/// What is behind some bytes, if they come next.
pub fn behind<'a>(word: &[u8], text: &'a [u8]) -> Option<&'a [u8]>
    ensures { MatchOption result (spec.behind word.now text.now ≡ None) (λ rest. spec.behind word.now text.now ≡ Some rest.now) }
{
    text.strip_prefix(word)
}

// A name by its ticket, from its index on.
fn name_behind(ticket: u64, text: &[u8]) -> Option<(Name, &[u8])>
    ensures { MatchOption result (spec.name_behind ticket text.now ≡ None) (λ found. spec.name_behind ticket text.now ≡ Some (found.0, found.1.now)) }
{
    let (index, rest) = number(text, 4294967295)?;
    let name = Name {
        ticket,
        index: index as u32,
    };
    Some((name, rest))
}

/// The name of an object, and what is behind it.
pub fn name(text: &[u8]) -> Option<(Name, &[u8])>
    ensures { MatchOption result (spec.name text.now ≡ None) (λ found. spec.name text.now ≡ Some (found.0, found.1.now)) }
{
    let (ticket, rest) = number(text, 18446744073709551615)?;
    let rest = behind(b".", rest)?;
    name_behind(ticket, rest)
}

// Null or a name, and what is behind it.
fn reference(text: &[u8]) -> Option<(Value, &[u8])>
    ensures { MatchOption result (spec.reference text.now ≡ None) (λ found. spec.reference text.now ≡ Some (found.0, found.1.now)) }
{
    match text {
        [] => None,
        [b'-', rest @ ..] => Some((Value::Ref(None), rest)),
        _ => {
            let (target, rest) = name(text)?;
            Some((Value::Ref(Some(target)), rest))
        }
    }
}

/// A value of a type, and what is behind it.
pub fn typed(ty: Ty, text: &[u8]) -> Option<(Value, &[u8])>
    ensures { MatchOption result (spec.typed ty text.now ≡ None) (λ found. spec.typed ty text.now ≡ Some (found.0, found.1.now)) }
{
    match ty {
        Ty::Int => {
            let (n, rest) = integer(text)?;
            Some((Value::Int(n), rest))
        }
        Ty::Of(_) => reference(text),
    }
}
