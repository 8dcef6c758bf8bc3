//! Tests of which codes with added drops are codes of a module.

use crate::built_modules::{bump, is_less, is_there, lists, sum};
use dl_instr::{Content, Origin, Step, Steps, instrument, is_code_of};
use dl_ir::{Block, Cond, Expr, Op, RefSide, Stmt};
use sqlite_items::Items;
use std::alloc::{AllocError, Global};
use std::test::Fail;

// Whether steps are a code of a module of lists with one operation, whose body is given twice.
fn is_code(alloc: Global, body: Block, again: Block, steps: Steps) -> Result<bool, Fail> {
    let source = lists(alloc, b"f", body)?;
    let code = instrument(alloc, &lists(alloc, b"f", again)?)?;
    let code = code.with_ops(Items::from_vec(vec![in alloc; steps]?));
    Ok(is_code_of(&source, &code))
}

fn read(local: u32, field: u32) -> Step {
    Step::Read { local, field }
}

fn set(local: u32) -> Step {
    let from = Origin::Hand;
    Step::Set { local, from }
}

fn drop_of(local: u32) -> Step {
    Step::Drop { local }
}

fn give(n: i64) -> Step {
    let value = Expr::Num(n);
    Step::Give { value }
}

// `c = r.head; return 0;`
fn follow(alloc: Global) -> Result<Block, AllocError> {
    let body = vec![in alloc;
        Stmt::Follow { p: 2, q: 0, f: 0 },
        Stmt::Return { e: Expr::Num(0) },
    ]?;
    Ok(Items::from_vec(body))
}

fn follows(alloc: Global, steps: Steps) -> Result<bool, Fail> {
    is_code(alloc, follow(alloc)?, follow(alloc)?, steps)
}

#[test]
fn drops_stand_where_they_may(rt: HostRuntime) -> Result<(), Fail> {
    let alloc = rt.alloc();
    let plain = vec![in alloc; read(0, 0), Step::Want, set(2), give(0), give(0)]?;
    assert!(rt; follows(alloc, Items::from_vec(plain))?);
    let both = vec![in alloc;
        read(0, 0),
        Step::Want,
        set(2),
        drop_of(2),
        drop_of(0),
        give(0),
        give(0),
    ]?;
    assert!(rt; follows(alloc, Items::from_vec(both))?);
    let equal = vec![in alloc;
        drop_of(2),
        read(0, 0),
        Step::Want,
        set(2),
        drop_of(2),
        drop_of(2),
        drop_of(2),
        give(0),
        drop_of(2),
        give(0),
    ]?;
    assert!(rt; follows(alloc, Items::from_vec(equal))?);
    Ok(())
}

#[test]
fn drops_in_wrong_places(rt: HostRuntime) -> Result<(), Fail> {
    let alloc = rt.alloc();
    let before_want = vec![in alloc;
        read(0, 0),
        drop_of(0),
        Step::Want,
        set(2),
        give(0),
        give(0),
    ]?;
    assert!(rt; !follows(alloc, Items::from_vec(before_want))?);
    let before_set = vec![in alloc;
        read(0, 0),
        Step::Want,
        drop_of(0),
        set(2),
        give(0),
        give(0),
    ]?;
    assert!(rt; !follows(alloc, Items::from_vec(before_set))?);
    let live = vec![in alloc;
        drop_of(0),
        read(0, 0),
        Step::Want,
        set(2),
        give(0),
        give(0),
    ]?;
    assert!(rt; !follows(alloc, Items::from_vec(live))?);
    let number = vec![in alloc;
        read(0, 0),
        Step::Want,
        set(2),
        drop_of(3),
        give(0),
        give(0),
    ]?;
    assert!(rt; !follows(alloc, Items::from_vec(number))?);
    let behind_all = vec![in alloc;
        read(0, 0),
        Step::Want,
        set(2),
        give(0),
        give(0),
        drop_of(2),
    ]?;
    assert!(rt; !follows(alloc, Items::from_vec(behind_all))?);
    let left_out = vec![in alloc; read(0, 0), Step::Want, set(2), give(0)]?;
    assert!(rt; !follows(alloc, Items::from_vec(left_out))?);
    Ok(())
}

// `r.head = null;`
fn cut(alloc: Global) -> Result<Block, AllocError> {
    Ok(Items::from_vec(vec![in alloc; Stmt::Cut { q: 0, f: 0 }]?))
}

#[test]
fn no_drop_before_a_write(rt: HostRuntime) -> Result<(), Fail> {
    let alloc = rt.alloc();
    let local = 0;
    let field = 0;
    let content = Content::Null;
    let steps = vec![in alloc;
        read(0, 0),
        Step::Want,
        drop_of(2),
        Step::Write {
            local,
            field,
            content
        },
        give(0),
    ]?;
    assert!(rt; !is_code(alloc, cut(alloc)?, cut(alloc)?, Items::from_vec(steps))?);
    let steps = vec![in alloc;
        read(0, 0),
        Step::Want,
        Step::Write {
            local,
            field,
            content
        },
        drop_of(2),
        give(0),
    ]?;
    assert!(rt; is_code(alloc, cut(alloc)?, cut(alloc)?, Items::from_vec(steps))?);
    Ok(())
}

// `if (x < n) { c = null; } return 0;`
fn guarded(alloc: Global) -> Result<Block, AllocError> {
    let guard = Stmt::If {
        c: is_less(),
        yes: Items::from_vec(vec![in alloc; Stmt::Null { p: 2 }]?),
        no: Items::new(alloc),
    };
    let body = vec![in alloc; guard, Stmt::Return { e: Expr::Num(0) }]?;
    Ok(Items::from_vec(body))
}

// The test going on at a place, and two equal drops.
fn guards(alloc: Global, place: usize) -> Result<bool, Fail> {
    let cond = is_less();
    let is_turn = false;
    let steps = vec![in alloc;
        Step::Test {
            cond,
            is_turn,
            place
        },
        drop_of(2),
        drop_of(2),
        give(0),
        give(0),
    ]?;
    is_code(
        alloc,
        guarded(alloc)?,
        guarded(alloc)?,
        Items::from_vec(steps),
    )
}

#[test]
fn either_of_two_drops_may_be_the_added_one(rt: HostRuntime) -> Result<(), Fail> {
    let alloc = rt.alloc();
    assert!(rt; !guards(alloc, 1)?);
    assert!(rt; guards(alloc, 2)?);
    assert!(rt; guards(alloc, 3)?);
    assert!(rt; !guards(alloc, 4)?);
    Ok(())
}

fn is_null() -> Cond {
    Cond::Refs {
        same: true,
        left: RefSide::Local(2),
        right: RefSide::Null,
    }
}

// `c = r.head; if (c == null) { } c = null; if (c == null) { return 1; }`
fn tested_twice(alloc: Global) -> Result<Block, AllocError> {
    let first = Stmt::If {
        c: is_null(),
        yes: Items::new(alloc),
        no: Items::new(alloc),
    };
    let second = Stmt::If {
        c: is_null(),
        yes: Items::from_vec(vec![in alloc; Stmt::Return { e: Expr::Num(1) }]?),
        no: Items::new(alloc),
    };
    let body = vec![in alloc;
        Stmt::Follow { p: 2, q: 0, f: 0 },
        first,
        Stmt::Null { p: 2 },
        second,
    ]?;
    Ok(Items::from_vec(body))
}

#[test]
fn only_the_last_of_equal_drops_may_be_plain(rt: HostRuntime) -> Result<(), Fail> {
    let alloc = rt.alloc();
    let cond = is_null();
    let is_turn = false;
    let first = Step::Test {
        cond,
        is_turn,
        place: 4,
    };
    let cond = is_null();
    let second = Step::Test {
        cond,
        is_turn,
        place: 8,
    };
    let steps = vec![in alloc;
        read(0, 0),
        Step::Want,
        set(2),
        first,
        drop_of(2),
        drop_of(2),
        second,
        give(1),
        give(0),
    ]?;
    assert!(rt;
        is_code(
            alloc,
            tested_twice(alloc)?,
            tested_twice(alloc)?,
            Items::from_vec(steps)
        )?
    );
    Ok(())
}

// The body of `bump` without its `r = null;`
fn walk(alloc: Global) -> Result<Block, AllocError> {
    let mut body = bump(alloc)?;
    if body.len() > 1 {
        let _null = body.remove(1);
    }
    Ok(body)
}

// The code of `walk` with drops: this step at place 3, and at place 14 a jump to a place.
fn walks(alloc: Global, third: Step, back: usize) -> Result<bool, Fail> {
    let cond = is_there();
    let is_turn = true;
    let e = sum(alloc, Op::Add, Expr::Local(3), Expr::Local(1))?;
    let local = 2;
    let field = 0;
    let content = Content::Number;
    let steps = vec![in alloc;
        read(0, 0),
        Step::Want,
        set(2),
        third,
        Step::Test {
            cond,
            is_turn,
            place: 15
        },
        read(2, 0),
        set(3),
        Step::Eval { value: e },
        set(3),
        Step::Eval {
            value: Expr::Local(3)
        },
        Step::Write {
            local,
            field,
            content
        },
        read(2, 1),
        Step::Want,
        set(2),
        Step::Jump { place: back },
        drop_of(2),
        give(0),
        give(0),
    ]?;
    is_code(alloc, walk(alloc)?, walk(alloc)?, Items::from_vec(steps))
}

#[test]
fn walk_lets_its_root_go_early(rt: HostRuntime) -> Result<(), Fail> {
    let alloc = rt.alloc();
    assert!(rt; walks(alloc, drop_of(0), 3)?);
    assert!(rt; !walks(alloc, drop_of(0), 4)?, "a jump past the drop");
    assert!(rt; !walks(alloc, drop_of(2), 3)?, "the loop's test reads c");
    Ok(())
}

#[test]
fn code_of_another_module(rt: HostRuntime) -> Result<(), Fail> {
    let alloc = rt.alloc();
    let source = lists(alloc, b"bump", bump(alloc)?)?;
    let code = instrument(alloc, &source)?;
    assert!(rt; is_code_of(&source, &code));
    assert!(rt; !is_code_of(&lists(alloc, b"walk", bump(alloc)?)?, &code));
    assert!(rt; !is_code_of(&lists(alloc, b"bump", walk(alloc)?)?, &code));
    Ok(())
}
