//! What `show` writes.

ghost use Rattle.std.specs.Prelude.{◌≡◌, ◌++◌, [], false, OnOk};
ghost use Rattle.dl_instr.specs.Listing.{listing};
ghost use Rattle.dl_print.specs.Canonical.{canonical};
ghost use Rattle.dl_text.specs.Writing.{Puts};
ghost use Rattle.dl_command.specs.Promise.{Prints};

use crate::status::Status;
use dl_grammar::Tree;
use dl_instr::{Code, print_code};
use dl_io::{Failed, Sink};
use dl_print::print_module;
use dl_text::Out;

// Puts and writes the canonical text of a module and the listing of a code.
fn put_shown<K: Sink>(tree: &Tree, code: &Code, out: &mut Out, sink: &mut K) -> Result<(), Failed>
    requires { out.old.failed ≡ false }
    ensures puts { Puts (K.taken sink.old) out.old (canonical tree.now ++ listing code.now) result (K.taken sink.new) out.new }
    ensures empty { OnOk result (out.new.bytes ≡ []) }
{
    print_module(tree, out, sink)?;
    print_code(code, out, sink)?;
    out.flush(sink)
}

/// Writes the canonical text of a module and the listing of its code.
pub fn write_shown<K: Sink>(tree: &Tree, code: &Code, sink: &mut K) -> Status
    ensures { Prints result (canonical tree.now ++ listing code.now) (K.taken sink.old) (K.taken sink.new) }
{
    let mut out = Out::new();
    match put_shown(tree, code, &mut out, sink) {
        Ok(()) => Status::Done,
        Err(Failed) => Status::WriteFault,
    }
}
