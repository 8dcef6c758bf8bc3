//! Two passes of a ground, of which one tells the other what tickets it has drawn. They are used in turn, by one thread.

ghost use Rattle.std.specs.Prelude.{◌≡◌, [], ◌∷◌, IfOk, IfSome};
ghost use Rattle.dl_core.specs.Passes.{MayTake, learnt_by, told_by};
ghost use Rattle.dl_coarse_tests.specs.Meetings.{AreOpened, HasServed, IsFresh, IsReadyFor, IsRested, IsServed, MayMeet};

use dl_core::{Ground, Progress};
use dl_instr::Code;
use dl_ir::{Call, Closed, Entry};
use std::alloc::{AllocError, Global};
use std::test::Fail;

/// What two passes came to.
#[derive(Drop)]
pub struct Meeting {
    /// What the first pass carried out, before the second began.
    pub first: Vec<Entry>,
    /// What the second carried out, when it had learnt of the first.
    pub second: Vec<Entry>,
    pub fronts: Fronts,
}

/// The fronts of two passes, as they go on.
#[derive(Clone, Copy, Debug, PartialEq, Eq)]
pub struct Fronts {
    /// The first pass has carried out its calls.
    pub first: u64,
    /// The second has not learnt of it.
    pub unlearnt: u64,
    /// It has learnt of it.
    pub learnt: u64,
    /// It has carried out its calls.
    pub second: u64,
    /// It has learnt the same once more.
    pub learnt_again: u64,
    /// The first has learnt of the second.
    pub told: u64,
}

/// The calls of two passes.
#[derive(Clone, Copy)]
pub struct Files<'a> {
    pub first: &'a [Call],
    pub second: &'a [Call],
}

/// How many places the grounds have.
pub const PLACES: u32 = 4096;

// Carries out a call, under one turn for it.
fn serve<G: Ground>(ground: &G, pass: &mut G::Pass, call: &Call) -> Result<Entry, Fail>
    requires of { G.is_of ground.now pass.old }
    requires may { MayTake (G.plan ground.now) (G.view pass.old) call.now }
    ensures of { G.is_of ground.now pass.new }
    ensures served { IfOk result (λ entry. IsServed (G.view pass.old) call.now entry (G.view pass.new)) }
{
    ground.begin(pass, call);
    match ground.advance(pass) {
        Progress::Done { entry } => Ok(entry),
        _ => Err(Fail::from("the operation is not finished")),
    }
}

// Carries out calls, one after the other.
fn serve_all<G: Ground>(
    alloc: Global,
    ground: &G,
    pass: &mut G::Pass,
    calls: &[Call],
) -> Result<Vec<Entry>, Fail>
    requires of { G.is_of ground.now pass.old }
    requires ready { IsReadyFor (G.plan ground.now) calls.now (G.view pass.old) }
    ensures of { G.is_of ground.now pass.new }
    ensures served { IfOk result (λ entries. HasServed (G.view pass.old) entries.items (G.view pass.new)) }
{
    let mut entries = Vec::new(alloc);
    'calls: for call in calls {
        entries.push(serve(ground, pass, call)?)?;
    }
    Ok(entries)
}

// A pass tells another of the tickets and versions that it knows.
fn tell<G: Ground>(ground: &G, teller: &mut G::Pass, learner: &mut G::Pass)
    requires of { G.is_of ground.now teller.old × G.is_of ground.now learner.old }
    ensures of { G.is_of ground.now teller.new × G.is_of ground.now learner.new }
    ensures teller { G.view teller.new ≡ G.view teller.old }
    ensures learner { G.view learner.new ≡ learnt_by (told_by (G.view teller.old)) (G.view learner.old) }
{
    let note = ground.note(teller);
    ground.learn(learner, note);
}

// The first pass carries out its calls. The second learns of it, and carries out its own.
fn meet<G: Ground>(
    alloc: Global,
    ground: &G,
    first: &mut G::Pass,
    second: &mut G::Pass,
    files: Files<'_>,
) -> Result<Meeting, Fail>
    requires of { G.is_of ground.now first.old × G.is_of ground.now second.old }
    requires first { IsReadyFor (G.plan ground.now) files.first.now (G.view first.old) }
    requires second { IsReadyFor (G.plan ground.now) files.second.now (G.view second.old) }
    ensures of { G.is_of ground.now first.new × G.is_of ground.now second.new }
    ensures rested { IfOk result (λ meeting. IsRested (G.view first.old) (G.view first.new) × IsRested (G.view second.old) (G.view second.new)) }
    ensures fresh { IfOk result (λ meeting. IsFresh meeting.fronts.first meeting.first.items meeting.second.items) }
{
    let before = serve_all(alloc, ground, first, files.first)?;
    let first_front = ground.front(first);
    let unlearnt = ground.front(second);
    tell(ground, first, second);
    let learnt = ground.front(second);
    let after = serve_all(alloc, ground, second, files.second)?;
    let second_front = ground.front(second);
    tell(ground, first, second);
    let learnt_again = ground.front(second);
    tell(ground, second, first);
    let told = ground.front(first);
    Ok(Meeting {
        first: before,
        second: after,
        fronts: Fronts {
            first: first_front,
            unlearnt,
            learnt,
            second: second_front,
            learnt_again,
            told,
        },
    })
}

// A ground with fresh passes for two files.
fn open<G: Ground + Drop>(
    alloc: Global,
    code: Code,
    files: Files<'_>,
) -> Result<(G, G::Pass, G::Pass), Fail>
    requires may { MayMeet code files.first.now files.second.now }
    ensures { IfOk result (λ opened. AreOpened (G.plan opened.0) (G.is_of opened.0) G.view code files.entry.first.now files.entry.second.now opened.1 opened.2) }
{
    let sizes = [files.first.len() as u32, files.second.len() as u32];
    let (ground, passes) = G::start(alloc, code, PLACES, &sizes)?;
    match two(passes) {
        Some((first, second)) => Ok((ground, first, second)),
        None => Err(Fail::from("not two passes")),
    }
}

// The two that there are.
fn two<P: Drop>(passes: Vec<P>) -> Option<(P, P)>
    ensures { IfSome result (λ both. passes.items ≡ both.0 ∷ both.1 ∷ []) }
{
    let mut passes = passes;
    let second = passes.pop()?;
    let first = passes.pop()?;
    if passes.is_empty() {
        Some((first, second))
    } else {
        None
    }
}

fn both<P: Drop>(alloc: Global, first: P, second: P) -> Result<Vec<P>, AllocError>
    ensures { IfOk result (λ passes. passes.items ≡ first ∷ second ∷ []) }
{
    let mut passes = Vec::with_capacity(alloc, 2)?;
    passes.push_reserved(first);
    passes.push_reserved(second);
    Ok(passes)
}

/// What two passes of a new ground come to, and what they leave.
pub fn meet_on<G: Ground + Drop>(
    alloc: Global,
    code: Code,
    files: Files<'_>,
) -> Result<(Meeting, Closed), Fail>
    requires may { MayMeet code files.first.now files.second.now }
    ensures fresh { IfOk result (λ met. IsFresh met.0.fronts.first met.0.first.items met.0.second.items) }
{
    let (ground, first, second) = open::<G>(alloc, code, files)?;
    let (mut first, mut second) = (first, second);
    let meeting = meet(alloc, &ground, &mut first, &mut second, files)?;
    let passes = both(alloc, first, second)?;
    Ok((meeting, ground.close(passes)))
}
