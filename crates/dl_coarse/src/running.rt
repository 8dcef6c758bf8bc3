// The table with one turn is a ground.
ghost use Rattle.std.specs.Prelude.{◌≡◌, ◌≤◌, length, map, vec_capacity};
ghost use Rattle.dl_core.specs.Closing.{AreIdle, EndsOn};

use crate::closings::close_all;
use crate::machines::Machine;
use crate::openings::open;
use crate::passes::{Coarse, Note, Pass};
use crate::rule::Hold;
use crate::turns::take_turn;
use atomic_table::{Join, Split};
use dl_core::{Ground, Lock, Progress};
use dl_instr::Code;
use dl_ir::{Call, Closed, Heap};
use std::alloc::{AllocError, Global};

pub(crate) struct Notes;

impl Split<Hold> for Notes {
    ghost use Rattle.dl_coarse.specs.Sights.{note_of};

    ghost left = { λ sight. sight };

    ghost right = { note_of };
}

impl Join<Hold> for Notes {
    ghost use Rattle.dl_coarse.specs.Sights.{together, blank};

    ghost both = { together };

    ghost spent = { blank };
}

// Puts what is given in the place of what is there.
fn refill(args: &mut Vec<i64>, given: &[i64])
    requires { length given.now ≤ vec_capacity args.old }
    ensures items { args.new.items ≡ given.now }
    ensures capacity { vec_capacity args.new ≡ vec_capacity args.old }
{
    args.clear();
    for one in given {
        args.push_reserved(*one);
    }
}

impl<M: Machine + Send> Ground for Coarse<M> {
    ghost use Rattle.dl_core.specs.Passes.{OneTurn};
    ghost use Rattle.dl_coarse.specs.Passes.{IsOf, IsNote, plan_in, view_of, told_of};

    type Pass = Pass<M>;

    type Note = Note<M>;

    ghost manner = { OneTurn };

    ghost plan = { plan_in M.opening };

    ghost is_of = { IsOf M.opening };

    ghost view = { view_of };

    ghost is_note = { IsNote M.opening };

    ghost told = { told_of };

    fn start(
        alloc: Global,
        code: Code,
        places: u32,
        sizes: &[u32],
    ) -> Result<(Self, Vec<Self::Pass>), AllocError> {
        let machine = M::start(alloc, code, places, sizes)?;
        open(alloc, machine, sizes.len())
    }

    fn over(
        alloc: Global,
        code: Code,
        heap: &Heap,
        places: u32,
        sizes: &[u32],
    ) -> Result<(Self, Vec<Self::Pass>), AllocError> {
        let machine = M::over(alloc, code, heap, places, sizes)?;
        open(alloc, machine, sizes.len())
    }

    fn begin(&self, pass: &mut Self::Pass, call: &Call) {
        refill(&mut pass.args, call.args.as_slice());
        pass.op = call.op;
        pass.busy = true;
    }

    fn advance(&self, pass: &mut Self::Pass) -> Progress {
        if !pass.busy {
            return Progress::Idle;
        }
        match take_turn(
            &self.table.shared,
            &mut pass.seat,
            pass.number,
            pass.op,
            pass.args.as_slice(),
        ) {
            Err(by) => Progress::Waiting {
                lock: Lock::Turn,
                by: by as u32,
            },
            Ok(answer) => {
                pass.busy = false;
                if let Progress::Done { entry } = &answer {
                    pass.front = pass.front.max(entry.ticket);
                }
                answer
            }
        }
    }

    fn caller(&self, pass: &Self::Pass) -> u32 {
        pass.number
    }

    fn front(&self, pass: &Self::Pass) -> u64 {
        pass.front
    }

    fn note(&self, pass: &mut Self::Pass) -> Self::Note {
        let seat = self.table.shared.split_seat::<Notes>(&mut pass.seat);
        Note {
            seat,
            front: pass.front,
        }
    }

    fn learn(&self, pass: &mut Self::Pass, note: Self::Note) {
        let Note { seat, front } = note;
        self.table.shared.join_seat::<Notes>(&mut pass.seat, seat);
        pass.front = pass.front.max(front);
    }

    fn close(self, passes: Vec<Self::Pass>) -> Closed
        requires idle { AreIdle (plan_in M.opening self) (IsOf M.opening self) view_of passes.items }
        ensures { EndsOn (plan_in M.opening self) (map view_of passes.items) result }
    {
        close_all(self, passes)
    }
}
