//! What is removed and what is sealed when an operation has ended.

ghost use Rattle.std.specs.Prelude.{◌≡◌};
ghost use Rattle.dl_shape.specs.Settling.{trim, sealed_heap, settled, breach_of, OrderDoesNotMatter};

use dl_ir::{Heap, Name};

/// Removes what is loose, seals what two fields or more then refer to, and answers the least name newly sealed.
/// It takes no memory, and touches only what it removes, what that refers to, and what it seals.
pub fn settle(heap: &mut Heap) -> Option<Name>
    ensures heap { heap.new ≡ record heap.old { objects = settled heap.old.objects } }
    ensures breach { result ≡ breach_of heap.old.objects }
{
    trim(heap);
    let breach = heap.first_shared();
    seal_shared(heap);
    breach
}

/// That loose objects may be removed in any order: what is left in the end is the same.
pub fn order_of_removals()
    ensures { OrderDoesNotMatter }
{}

// Removes loose objects until none is left.
fn trim(heap: &mut Heap)
    ensures { heap.new ≡ record heap.old { objects = trim heap.old.objects } }
{
    while let Some(name) = heap.first_loose() {
        heap.remove(name);
    }
}

// Seals shared objects until none is left.
fn seal_shared(heap: &mut Heap)
    ensures { heap.new ≡ record heap.old { objects = sealed_heap heap.old.objects } }
{
    while let Some(name) = heap.first_shared() {
        heap.seal(name);
    }
}
