//! What holds of every text that is read as a heap, and which texts are.

ghost use Rattle.std.specs.Prelude.{◌≡◌, ℕ, ℤ, Some, slice_get};
ghost use Rattle.dl_ir.specs.declared.names.Value.TheVariants.{Int};
ghost use Rattle.dl_heapfile.specs.Lines.{IsSmall};
ghost use Rattle.dl_heapfile.specs.Laws.{HoldsSmall, IsReadOnce, IsSpeltOnce, WhatIsReadIsSpelt, WhatIsSpeltIsRead};

use dl_ir::{FieldsRef, Heap, Value};

/// That a heap which is read is one from which a run may start, and that the text has its printed part.
pub fn what_is_read_is_spelt()
    ensures { WhatIsReadIsSpelt }
{}

/// That the printed part of each heap from which a run may start is read as that heap.
pub fn what_is_spelt_is_read()
    ensures { WhatIsSpeltIsRead }
{}

/// That a text is read in one way alone.
pub fn is_read_once()
    ensures { IsReadOnce }
{}

/// That a text has the printed part of one heap alone.
pub fn is_spelt_once()
    ensures { IsSpeltOnce }
{}

fn number_is_small(number: i64)
    ensures { IsSmall number }
{}

fn value_is_small(value: Value)
    ensures { (number : ℤ) → value ≡ Int number → IsSmall number }
{
    if let Value::Int(number) = value {
        number_is_small(number);
    }
}

fn fields_are_small(fields: &FieldsRef<'_>)
    ensures { (at : ℕ) (number : ℤ) → slice_get fields.now at ≡ Some (Int number) → IsSmall number }
{
    for value in fields.iter() {
        value_is_small(value);
    }
}

/// That the numbers in the fields of each heap of the program are such as the laws above ask for.
pub fn heaps_hold_small(heap: &Heap)
    ensures { HoldsSmall heap.now.objects }
{
    for (_, object) in heap.iter() {
        fields_are_small(&object.fields());
    }
}
