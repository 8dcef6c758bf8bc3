//! The rows of one seat, two joined seats, and two threads.
ghost use Rattle.std.specs.Prelude.{◌≡◌};

use crate::{
    Setting, claim_own, deal_own, give_own, join_own, learn_own, note_own, open, reserve_alone,
    reserve_own, two_threads, vacate_own,
};
use dl_pool::{Claim, Layout, Reserve};
use std::test::Fail;

// Three places, for so many callers.
fn three(callers: u32) -> Setting
    ensures layout { (result.layout.first ≡ 1) × (result.layout.step ≡ 1) × (result.layout.places ≡ 3) }
    ensures callers { result.callers ≡ callers }
{
    let layout = Layout {
        first: 1,
        step: 1,
        places: 3,
    };
    Setting { layout, callers }
}

#[test]
fn rows(rt: HostRuntime) -> Result<(), Fail> {
    let setting = three(1);
    let (table, mut dealer) = open(rt.alloc(), &setting)?;
    let words = &table.shared;
    let layout = &setting.layout;
    let mut seat = deal_own(words, &mut dealer);
    let got = reserve_own(words, &mut seat, 2);
    assert!(rt; matches!(got, Reserve::Got { version: 1 }));
    let refused = reserve_own(words, &mut seat, 2);
    assert!(rt;
        matches!(
            refused,
            Reserve::NoRoom {
                need: 2,
                found: 1,
                version: 1
            }
        )
    );
    let back = give_own(words, &mut seat, 1);
    assert_eq!(rt; back, 2);
    let again = reserve_own(words, &mut seat, 2);
    assert!(rt; matches!(again, Reserve::Got { version: 3 }));
    let claim = claim_own(words, &mut seat, layout, 1, 0);
    assert!(rt; matches!(claim, Claim::Got));
    let looked = claim_own(words, &mut seat, layout, 1, 0);
    assert!(rt; matches!(looked, Claim::Looked));
    vacate_own(words, &mut seat, layout, 0);
    let all = give_own(words, &mut seat, 3);
    assert_eq!(rt; all, 4);
    let closed = table.close_with(seat);
    assert_eq!(rt; closed.word(0), 4 * 16777216 + 3);
    closed.free();
    Ok(())
}

#[test]
fn alone(rt: HostRuntime) -> Result<(), Fail> {
    let (table, mut dealer) = open(rt.alloc(), &three(1))?;
    let words = &table.shared;
    let mut seat = deal_own(words, &mut dealer);
    assert!(rt; reserve_alone(words, &mut seat, 4).is_none());
    assert_eq!(rt; reserve_alone(words, &mut seat, 3), Some(1));
    Ok(())
}

// The second caller has claimed the place 1 when its seat is joined.
#[test]
fn joined_seats(rt: HostRuntime) -> Result<(), Fail> {
    let setting = three(2);
    let (table, mut dealer) = open(rt.alloc(), &setting)?;
    let words = &table.shared;
    let layout = &setting.layout;
    let mut one = deal_own(words, &mut dealer);
    let mut two = deal_own(words, &mut dealer);
    let first = reserve_own(words, &mut one, 1);
    assert!(rt; matches!(first, Reserve::Got { version: 1 }));
    let note = note_own(words, &mut one);
    learn_own(words, &mut two, note);
    let second = reserve_own(words, &mut two, 2);
    assert!(rt; matches!(second, Reserve::Got { version: 2 }));
    let claim = claim_own(words, &mut two, layout, 2, 1);
    assert!(rt; matches!(claim, Claim::Got));
    join_own(words, &mut one, two);
    let looked = claim_own(words, &mut one, layout, 1, 1);
    assert!(rt; matches!(looked, Claim::Looked));
    let back = give_own(words, &mut one, 2);
    assert_eq!(rt; back, 3);
    let closed = table.close_with(one);
    assert_eq!(rt; closed.word(0), 3 * 16777216 + 2);
    assert_eq!(rt; closed.word(2), 3);
    closed.free();
    Ok(())
}

#[test]
fn threads(rt: HostRuntime) -> Result<(), Fail> {
    let totals = two_threads(&rt, rt.alloc(), &three(2), 1000)?;
    let made = totals.made as u64;
    assert!(rt; made > 0);
    assert_eq!(rt; totals.word, 2 * made * 16777216 + 3);
    Ok(())
}
