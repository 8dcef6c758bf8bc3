//! The lines of the heap part behind its heap line, up to its last.

ghost use Rattle.std.specs.Prelude.{◌≡◌, ◌≢◌, ◌≤◌, ◌<◌, ◌+◌, ◌^◌, ◌↔◌, ℕ, List, [], All, MatchOption, MatchResult, IfOk, Ok, Err, IsTrue, false, length};
ghost use Rattle.std.specs.declared.cmp.Ordering.TheVariants.{Less};
ghost use Rattle.dl_ir.specs.declared.names.Name.{Name as OneName};
ghost use Rattle.dl_ir.specs.declared.objects.Obj.{Obj as OneObj};
ghost use Rattle.dl_ir.specs.Heap.{HasStart, StandInRow, IsRootOf, IsNodeKind, name_cmp, root, roots_of};
ghost use Rattle.dl_heapfile.specs.Form.{root_count, MayFollow, IsNext, IsLast, Tells, AreListed, AreInPlace};
ghost use Rattle.dl_heapfile.specs.Names.{HasNames};

use crate::entries::Entries;
use crate::fault::HeapFault;
use crate::lines::next_object;
use crate::values::behind;
use dl_ir::{KindDecl, Module, Name, Obj};
use sqlite_items::Items;
use std::alloc::Global;

// The number of roots of these kinds.
fn count_roots(kinds: &[KindDecl]) -> usize
    requires { StandInRow 0 kinds.now }
    ensures { result ≡ length (roots_of 0 kinds.now) }
{
    let mut count = 0;
    for declared in kinds {
        count += declared.count as usize;
    }
    count
}

// The number of roots of a module.
fn root_count(source: &Module) -> usize
    requires { HasStart source.now }
    ensures { result ≡ root_count source.now }
{
    count_roots(source.kinds.as_slice())
}

// Whether a name is that of a root of the kind.
fn is_root_of(source: &Module, kind: u32, name: Name) -> bool
    ensures { IsTrue result ↔ IsRootOf source.now kind name }
{
    match source.kinds.get(kind as usize) {
        Some(declared) => {
            declared.is_root
                && name.ticket == 0
                && declared.first <= name.index
                && name.index - declared.first < declared.count
        }
        None => false,
    }
}

fn is_node_kind(source: &Module, kind: u32) -> bool
    ensures { IsTrue result ↔ IsNodeKind source.now kind }
{
    match source.kinds.get(kind as usize) {
        Some(declared) => !declared.is_root,
        None => false,
    }
}

fn is_less(a: Name, b: Name) -> bool
    ensures { IsTrue result ↔ (name_cmp a b ≡ Less) }
{
    a.ticket < b.ticket || (a.ticket == b.ticket && a.index < b.index)
}

// Whether a name is above those of all these objects, which are in rising names: only the last is looked at.
fn is_above(source: &Module, before: &[(Name, Obj)], name: Name) -> bool
    requires { AreListed source.now before.now }
    ensures { IsTrue result ↔ All (λ (earlier : OneName × OneObj). name_cmp earlier.0 name ≡ Less) before.now }
{
    match before.last() {
        Some(last) => is_less(last.0, name),
        None => true,
    }
}

// Whether this is the root with this number, of its kind and unsealed.
fn is_next_root(source: &Module, at: usize, name: Name, object: &Obj) -> bool
    ensures { IsTrue result ↔ ((name ≡ root at) × (IsRootOf source.now object.now.kind name × (object.now.sealed ≡ false))) }
{
    name.ticket == 0
        && name.index as usize == at
        && !object.sealed
        && is_root_of(source, object.kind, name)
}

// Whether a name keeps the limits of the names of hidden objects.
fn is_hidden_name(name: Name) -> bool
    ensures { IsTrue result ↔ ((1 ≤ name.ticket) × ((name.ticket ≤ 4611686018427387904) × ((1 ≤ name.index) × (name.index ≤ 64)))) }
{
    1 <= name.ticket && name.ticket <= 4611686018427387904 && 1 <= name.index && name.index <= 64
}

// Whether this is a hidden object with a name above those of these objects.
fn is_next_hidden(source: &Module, before: &[(Name, Obj)], name: Name, object: &Obj) -> bool
    requires { AreListed source.now before.now }
    ensures { IsTrue result ↔ (((1 ≤ name.ticket) × ((name.ticket ≤ 4611686018427387904) × ((1 ≤ name.index) × (name.index ≤ 64)))) × (IsNodeKind source.now object.now.kind × All (λ (earlier : OneName × OneObj). name_cmp earlier.0 name ≡ Less) before.now)) }
{
    is_hidden_name(name) && is_node_kind(source, object.kind) && is_above(source, before, name)
}

// Whether an object may stand behind these.
fn may_follow(source: &Module, before: &[(Name, Obj)], name: Name, object: &Obj) -> bool
    requires start { HasStart source.now }
    requires listed { AreListed source.now before.now }
    ensures { IsTrue result ↔ MayFollow source.now before.now (name, object.now) }
{
    if before.len() < root_count(source) {
        is_next_root(source, before.len(), name, object)
    } else {
        is_next_hidden(source, before, name, object)
    }
}

// The object whose line comes next and that may stand behind these, and what follows.
fn next_entry<'a>(
    source: &Module,
    before: &Entries,
    text: &'a [u8],
) -> Option<((Name, Obj), &'a [u8])>
    requires start { HasStart source.now }
    requires names { HasNames source.now }
    requires listed { AreListed source.now before.now }
    ensures { MatchOption result ((entry : OneName × OneObj) (rest : List ℕ) → IsNext source.now before.now text.now entry rest → ⊥) (λ found. IsNext source.now before.now text.now found.0 found.1.now) }
{
    let Some((entry, rest)) = next_object(source, text) else {
        return None;
    };
    if may_follow(source, before.as_slice(), entry.0, &entry.1) {
        Some((entry, rest))
    } else {
        None
    }
}

// What is told where no object comes next: these objects, where the last line does and nothing is behind it.
fn end_of(source: &Module, entries: Entries, line: u32, text: &[u8]) -> Result<Entries, HeapFault>
    requires start { HasStart source.now }
    requires no_object { (entry : OneName × OneObj) (rest : List ℕ) → IsNext source.now entries text.now entry rest → ⊥ }
    requires short { line + length text.now < 2 ^ 32 }
    ensures { Tells source.now entries line text.now result }
{
    if entries.len() < root_count(source) {
        return Err(HeapFault::BadLine { line });
    }
    match behind(b"end\n", text) {
        Some([]) => Ok(entries),
        Some(_) => Err(HeapFault::BadLine { line: line + 1 }),
        None => Err(HeapFault::BadLine { line }),
    }
}

/// The objects that the lines of a text tell, or the first line that is not of the form. The first line of the text has
/// this number.
pub fn read_objects(
    alloc: Global,
    source: &Module,
    first: u32,
    text: &[u8],
) -> Result<Entries, HeapFault>
    requires start { HasStart source.now }
    requires names { HasNames source.now }
    requires short { first + length text.now < 2 ^ 32 }
    ensures told { MatchResult result (λ entries. Tells source.now [] first text.now (Ok entries)) (λ fault. fault ≢ HeapFault.Memory → Tells source.now [] first text.now (Err fault)) }
    ensures in_place { IfOk result (AreInPlace source.now) }
    ensures few { IfOk result (λ entries. first + length entries < 2 ^ 32) }
{
    let mut entries = Items::new(alloc);
    let mut line = first;
    let mut rest = text;
    'objects: while let Some((entry, more)) = next_entry(source, &entries, rest) {
        entries.push(entry)?;
        line += 1;
        rest = more;
    }
    end_of(source, entries, line, rest)
}
