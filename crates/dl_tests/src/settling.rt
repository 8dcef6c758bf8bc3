//! Settling: what is removed, and what is sealed.

use dl_ir::{Fields, Heap, Name, Obj, Value};
use dl_shape::{has_countable_fields, is_forest, order_of_removals, refs, settle};
use std::test::Fail;

fn object(kind: u32, fields: Fields) -> Obj {
    Obj {
        kind,
        sealed: false,
        fields,
    }
}

fn put(heap: &mut Heap, name: Name, object: Obj) {
    if !heap.is_full() {
        heap.put(name, object);
    }
}

// A root whose two fields refer to one object, and beside it two objects that only refer to each other in a row.
#[test]
fn seals_what_two_fields_of_a_pair_refer_to(rt: HostRuntime) -> Result<(), Fail> {
    let alloc = rt.alloc();
    order_of_removals();
    let root = Name {
        ticket: 0,
        index: 0,
    };
    let item = Name {
        ticket: 1,
        index: 1,
    };
    let lost = Name {
        ticket: 1,
        index: 2,
    };
    let behind = Name {
        ticket: 1,
        index: 3,
    };
    let mut heap = Heap::new(alloc, 4)?;
    let mut pair = Fields::new();
    pair.push(Value::Ref(Some(item)));
    pair.push(Value::Ref(Some(item)));
    put(&mut heap, root, object(0, pair));
    put(&mut heap, item, object(1, Fields::new()));
    put(&mut heap, behind, object(1, Fields::new()));
    let mut link = Fields::new();
    link.push(Value::Ref(Some(behind)));
    put(&mut heap, lost, object(1, link));
    for (name, count) in [(item, 2), (behind, 1), (lost, 0), (root, 0)] {
        let found = if has_countable_fields(&heap) {
            Some(refs(&heap, name))
        } else {
            None
        };
        assert_eq!(rt; found, Some(count));
    }
    assert!(rt; !is_forest(&heap));
    assert_eq!(rt; settle(&mut heap), Some(item));
    assert_eq!(rt; heap.len(), 2);
    assert!(rt; is_forest(&heap));
    assert_eq!(rt; settle(&mut heap), None);
    Ok(())
}
