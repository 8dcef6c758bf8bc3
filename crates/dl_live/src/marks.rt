//! Marks at places.

ghost use Rattle.std.specs.Prelude.{◌≡◌, ◌<◌, ◌⊎◌, ◌↔◌, ℕ, IfOk, false, true, length, slice_set};
ghost use Rattle.dl_live.specs.Marks.{is_marked, unmarked};

use sqlite_items::Items;
use std::alloc::{AllocError, Global};

/// One truth value for each place of a list.
pub type Marks = Items<bool>;

/// Whether a place is marked.
pub fn is_marked(marks: &Marks, at: usize) -> bool
    ensures { result ≡ is_marked marks.now at }
{
    match marks.get(at) {
        None => false,
        Some(mark) => *mark,
    }
}

/// Marks at this number of places, none of them set.
pub fn no_marks(alloc: Global, count: usize) -> Result<Marks, AllocError>
    ensures same { IfOk result (λ marks. length marks ≡ count) }
    ensures none { IfOk result (λ marks. (at : ℕ) → is_marked marks at ≡ false) }
{
    let mut marks = Items::new(alloc);
    for _at in 0..count {
        marks.push(false)?;
    }
    Ok(marks)
}

/// Marks a place, if it is one of the list.
pub fn mark(marks: &mut Marks, at: usize)
    ensures same { length marks.new ≡ length marks.old }
    ensures marked { at < length marks.old → is_marked marks.new at ≡ true }
    ensures fewer { at < length marks.old → is_marked marks.old at ≡ false → unmarked marks.new < unmarked marks.old }
    ensures kept { (to : ℕ) → is_marked marks.old to ≡ true → is_marked marks.new to ≡ true }
    ensures exact { (to : ℕ) → is_marked marks.new to ≡ true → (is_marked marks.old to ≡ true) ⊎ (to ≡ at) }
{
    if at < marks.len() {
        marks.set(at, true);
    }
}
