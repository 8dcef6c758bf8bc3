//! The report as a whole.

ghost use Rattle.std.specs.Prelude.{◌≡◌, false};
ghost use Rattle.dl_ir.specs.Cover.{Covers};
ghost use Rattle.dl_shape.specs.Pool.{moves_of, in_rising_versions};
ghost use Rattle.dl_text.specs.Writing.{Puts};
ghost use Rattle.dl_history.specs.Histories.{joined, AreByCaller};
ghost use Rattle.dl_history.specs.Report.{report, operations_part, state_part, AreFew};

use crate::heap_lines::put_heap;
use crate::histories::History;
use crate::operations::{put_answers, put_history};
use crate::pieces::put_head;
use crate::pool::put_pool;
use dl_ir::{Calls, Closed, Heap, Module, Move, Refusal};
use dl_text::{Failed, Out, Sink};
use sqlite_items::Items;

fn put_operations<K: Sink>(
    out: &mut Out,
    sink: &mut K,
    source: &Module,
    files: &[Calls],
    history: &History,
    refusals: &[Items<Refusal>],
) -> Result<(), Failed>
    requires works { out.old.failed ≡ false }
    requires few { AreFew files.now }
    requires by_caller { AreByCaller refusals.now }
    requires covers { Covers files.now history.now.entries (joined refusals.now) }
    ensures { Puts (K.taken sink.old) out.old (operations_part source.now files.now history.now.entries (joined refusals.now)) result (K.taken sink.new) out.new }
{
    put_head(out, sink, b"domlock report ", source.version as usize)?;
    put_answers(out, sink, files, history, refusals)?;
    put_history(out, sink, source, files, history.entries())
}

fn put_state<K: Sink>(
    out: &mut Out,
    sink: &mut K,
    source: &Module,
    moves: &[Move],
    heap: &Heap,
) -> Result<(), Failed>
    requires { out.old.failed ≡ false }
    ensures { Puts (K.taken sink.old) out.old (state_part source.now moves.now heap.now.objects) result (K.taken sink.new) out.new }
{
    put_pool(out, sink, moves)?;
    put_heap(out, sink, source, heap)?;
    out.put(sink, b"end\n")
}

/// Puts the report of a history, and of what the run left: the refusals, and the heap at the end. The form is told in
/// docs/FORMATS.md. It takes no memory, and fails only where the sink does.
pub fn write_report<K: Sink>(
    source: &Module,
    files: &[Calls],
    history: &History,
    closed: &Closed,
    out: &mut Out,
    sink: &mut K,
) -> Result<(), Failed>
    requires works { out.old.failed ≡ false }
    requires few { AreFew files.now }
    requires by_caller { AreByCaller closed.now.refusals }
    requires covers { Covers files.now history.now.entries (joined closed.now.refusals) }
    requires moves { history.now.moves ≡ in_rising_versions (moves_of source.now files.now history.now.entries) }
    ensures { Puts (K.taken sink.old) out.old (report source.now files.now history.now.entries (joined closed.now.refusals) closed.now.heap.objects) result (K.taken sink.new) out.new }
{
    put_operations(
        out,
        sink,
        source,
        files,
        history,
        closed.refusals.as_slice(),
    )?;
    put_state(out, sink, source, history.moves(), &closed.heap)
}
