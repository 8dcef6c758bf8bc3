//! The heap: objects in the order of names, their memory, and the roots at the start.

use dl_ir::{FieldDecl, Fields, Heap, KindDecl, Module, Name, Obj, Ty, Value};
use sqlite_items::Items;
use std::test::Fail;

#[test]
fn keeps_objects_in_the_order_of_names(rt: HostRuntime) -> Result<(), Fail> {
    let mut heap = Heap::new(rt.alloc(), 2)?;
    assert!(rt; heap.is_empty());
    for index in [2, 1] {
        let mut fields = Fields::new();
        fields.push(Value::Int(7));
        if !heap.is_full() {
            let name = Name { ticket: 1, index };
            heap.put(
                name,
                Obj {
                    kind: 1,
                    sealed: false,
                    fields,
                },
            );
        }
    }
    let first = Name {
        ticket: 1,
        index: 1,
    };
    let second = Name {
        ticket: 1,
        index: 2,
    };
    heap.set_field(second, 0, Value::Ref(Some(first)));
    assert!(rt; heap.is_full());
    let mut names = heap.iter().map(|(name, _)| name);
    assert_eq!(rt;
        [names.next(), names.next(), names.next()],
        [Some(first), Some(second), None]
    );
    assert_eq!(rt; heap.refs(first), 1);
    assert_eq!(rt; heap.first_loose(), Some(second));
    let held = heap.get(second).and_then(|object| object.fields().get(0));
    assert_eq!(rt; held, Some(Value::Ref(Some(first))));
    heap.seal(second);
    assert_eq!(rt; heap.first_loose(), None);
    heap.remove(first);
    assert_eq!(rt; heap.len(), 1);
    assert_eq!(rt;
        heap.get(second).map(|object| object.is_sealed()),
        Some(true)
    );
    assert!(rt; heap.get(first).is_none());
    Ok(())
}

// Names are put and removed until the memory has been filled several times over.
#[test]
fn gives_memory_of_removed_objects_back(rt: HostRuntime) -> Result<(), Fail> {
    let mut heap = Heap::new(rt.alloc(), 2)?;
    for ticket in 1..=9 {
        if heap.is_full() {
            break;
        }
        let name = Name { ticket, index: 1 };
        heap.put(
            name,
            Obj {
                kind: 1,
                sealed: ticket == 1,
                fields: Fields::new(),
            },
        );
        assert_eq!(rt; heap.first_loose(), (ticket > 1).then_some(name));
        if ticket > 1 {
            heap.remove(name);
        }
    }
    assert!(rt; !heap.is_full());
    assert_eq!(rt; heap.len(), 1);
    assert_eq!(rt; heap.iter().map(|(name, _)| name.ticket).last(), Some(1));
    Ok(())
}

#[test]
fn starts_with_the_roots_in_a_row(rt: HostRuntime) -> Result<(), Fail> {
    let alloc = rt.alloc();
    let mut fields = Items::new(alloc);
    fields.push(FieldDecl {
        name: Items::from_slice(alloc, b"count")?,
        ty: Ty::Int,
    })?;
    fields.push(FieldDecl {
        name: Items::from_slice(alloc, b"head")?,
        ty: Ty::Of(1),
    })?;
    let mut kinds = Items::new(alloc);
    kinds.push(KindDecl {
        name: Items::from_slice(alloc, b"LIST")?,
        is_root: true,
        first: 0,
        count: 2,
        fields,
    })?;
    let declared = Module {
        version: 1,
        kinds,
        ops: Items::new(alloc),
    };
    let heap = Heap::start(alloc, &declared, 3)?;
    let last = Name {
        ticket: 0,
        index: 1,
    };
    assert_eq!(rt; heap.len(), 2);
    assert!(rt; !heap.is_full());
    let values = heap
        .get(last)
        .map(|object| (object.fields().get(0), object.fields().get(1)));
    assert_eq!(rt; values, Some((Some(Value::Int(0)), Some(Value::Ref(None)))));
    Ok(())
}
