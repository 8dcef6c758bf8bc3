//! The numbers that an operation emits.

use dl_ir::Emits;
use std::test::Fail;

#[test]
fn keeps_sixteen_numbers(rt: HostRuntime) -> Result<(), Fail> {
    let mut emitted = Emits::new();
    assert!(rt; emitted.is_empty());
    for number in 1..=20 {
        if !emitted.is_full() {
            emitted.push(number);
        }
    }
    assert!(rt; emitted.is_full());
    assert_eq!(rt; emitted.len(), 16);
    assert_eq!(rt;
        emitted.as_slice(),
        [1, 2, 3, 4, 5, 6, 7, 8, 9, 10, 11, 12, 13, 14, 15, 16].as_slice()
    );
    Ok(())
}

#[test]
fn numbers_are_equal_where_their_lists_are(rt: HostRuntime) -> Result<(), Fail> {
    let mut first = Emits::new();
    first.push(-7);
    let mut second = first;
    assert!(rt; first == second);
    second.push(0);
    assert!(rt; first != second);
    Ok(())
}
