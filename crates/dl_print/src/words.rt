//! How names, counts and the indentation of lines are put.
ghost use Rattle.std.specs.Prelude.{◌≡◌, false, [], ◌∷◌};
ghost use Rattle.dl_text.specs.Writing.{Puts};
ghost use Rattle.dl_grammar.specs.declared.lexeme.Fixed.TheVariants.{Dot};
ghost use Rattle.dl_print.specs.Canonical as spec;
ghost use Rattle.dl_print.specs.Canonical.{text_of};
ghost use Rattle.dl_print.specs.Levels.{depth};

use dl_grammar::Word;
use dl_text::{Failed, Out, Sink};

/// How far in a line stands: at the margin, or one level further in than the lines around it.
#[derive(Clone, Copy)]
pub enum Level<'a> {
    Margin,
    Inside(&'a Level<'a>),
}

/// Puts a name.
pub fn put_name<K: Sink>(word: &Word, out: &mut Out, sink: &mut K) -> Result<(), Failed>
    requires { out.old.failed ≡ false }
    ensures { Puts (K.taken sink.old) out.old (text_of (spec.Name word.now.text ∷ [])) result (K.taken sink.new) out.new }
{
    out.put(sink, word.text.as_slice())
}

/// Puts a number that stands for a count.
pub fn put_count<K: Sink>(count: u32, out: &mut Out, sink: &mut K) -> Result<(), Failed>
    requires { out.old.failed ≡ false }
    ensures { Puts (K.taken sink.old) out.old (text_of (spec.Number count ∷ [])) result (K.taken sink.new) out.new }
{
    out.put_number(sink, count)
}

/// Puts the spaces before a line.
pub fn put_indent<K: Sink>(level: &Level, out: &mut Out, sink: &mut K) -> Result<(), Failed>
    requires { out.old.failed ≡ false }
    ensures { Puts (K.taken sink.old) out.old (text_of (spec.Indent (depth level.now) ∷ [])) result (K.taken sink.new) out.new }
{
    match level {
        Level::Margin => out.put(sink, b""),
        Level::Inside(outer) => {
            out.put(sink, b"  ")?;
            put_indent(outer, out, sink)
        }
    }
}

/// Puts the name of a field behind that of a local.
pub fn put_path<K: Sink>(p: &Word, f: &Word, out: &mut Out, sink: &mut K) -> Result<(), Failed>
    requires { out.old.failed ≡ false }
    ensures { Puts (K.taken sink.old) out.old (text_of (spec.Name p.now.text ∷ spec.Word Dot ∷ spec.Name f.now.text ∷ [])) result (K.taken sink.new) out.new }
{
    put_name(p, out, sink)?;
    out.put(sink, b".")?;
    put_name(f, out, sink)
}
