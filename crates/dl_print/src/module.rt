//! How a whole module is put.
ghost use Rattle.std.specs.Prelude.{◌≡◌, false};
ghost use Rattle.dl_text.specs.Writing.{Puts};
ghost use Rattle.dl_print.specs.Canonical.{canonical};

use crate::declarations::{put_kinds, put_ops};
use crate::words::put_count;
use dl_grammar::Tree;
use dl_text::{Failed, Out, Sink};

/// Puts the canonical text of a module. It takes no memory, and fails only where the sink does.
pub fn print_module<K: Sink>(tree: &Tree, out: &mut Out, sink: &mut K) -> Result<(), Failed>
    requires { out.old.failed ≡ false }
    ensures { Puts (K.taken sink.old) out.old (canonical tree.now) result (K.taken sink.new) out.new }
{
    out.put(sink, b"domlock ")?;
    put_count(tree.version, out, sink)?;
    out.put(sink, b"\n")?;
    put_kinds(tree.kinds.as_slice(), out, sink)?;
    put_ops(tree.ops.as_slice(), out, sink)
}
