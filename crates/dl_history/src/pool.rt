//! The part of a report that tells of the pool.

ghost use Rattle.std.specs.Prelude.{◌≡◌, ◌++◌, decimal, false, length};
ghost use Rattle.std.specs.List.{flat_map};
ghost use Rattle.dl_text.specs.Writing.{Puts};
ghost use Rattle.dl_history.specs.Report.{change_text, step_text, move_line, pool_part};

use crate::pieces::put_head;
use dl_ir::Move;
use dl_text::{Failed, Out, Sink};

fn put_signed<K: Sink>(out: &mut Out, sink: &mut K, sign: &[u8], number: u64) -> Result<(), Failed>
    requires { out.old.failed ≡ false }
    ensures { Puts (K.taken sink.old) out.old (sign.now ++ decimal number) result (K.taken sink.new) out.new }
{
    out.put(sink, sign)?;
    out.put_number(sink, number)
}

fn put_change<K: Sink>(out: &mut Out, sink: &mut K, change: &i64) -> Result<(), Failed>
    requires { out.old.failed ≡ false }
    ensures { Puts (K.taken sink.old) out.old (change_text change.now) result (K.taken sink.new) out.new }
{
    if *change < 0 {
        put_signed(out, sink, b"-", change.unsigned_abs())
    } else {
        put_signed(out, sink, b"+", change.unsigned_abs())
    }
}

fn put_step<K: Sink>(out: &mut Out, sink: &mut K, change: Move) -> Result<(), Failed>
    requires { out.old.failed ≡ false }
    ensures { Puts (K.taken sink.old) out.old (step_text change) result (K.taken sink.new) out.new }
{
    out.put_number(sink, change.version)?;
    out.put(sink, b" ")?;
    put_change(out, sink, &change.change)
}

fn put_move<K: Sink>(out: &mut Out, sink: &mut K, change: Move) -> Result<(), Failed>
    requires { out.old.failed ≡ false }
    ensures { Puts (K.taken sink.old) out.old (move_line change) result (K.taken sink.new) out.new }
{
    put_step(out, sink, change)?;
    out.put(sink, b" ")?;
    out.put_number(sink, change.ticket)?;
    out.put(sink, b"\n")
}

fn put_moves<K: Sink>(out: &mut Out, sink: &mut K, moves: &[Move]) -> Result<(), Failed>
    requires { out.old.failed ≡ false }
    ensures { Puts (K.taken sink.old) out.old (flat_map move_line moves.now) result (K.taken sink.new) out.new }
{
    'moves: for change in moves {
        put_move(out, sink, *change)?;
    }
    Ok(())
}

/// Puts the number of moves, and a line for each.
pub fn put_pool<K: Sink>(out: &mut Out, sink: &mut K, moves: &[Move]) -> Result<(), Failed>
    requires { out.old.failed ≡ false }
    ensures { Puts (K.taken sink.old) out.old (pool_part moves.now) result (K.taken sink.new) out.new }
{
    put_head(out, sink, b"pool ", moves.len())?;
    put_moves(out, sink, moves)
}
