//! The lines that tell of objects.

ghost use Rattle.std.specs.Prelude.{◌≡◌, ◌≤◌, ◌<◌, ◌^◌, ◌++◌, ◌∷◌, List, ℕ, MatchOption, Some, None, IfSome, All, length, codes, drop};
ghost use Rattle.std.specs.List.{prefix_len, take_while};
ghost use Rattle.dl_ir.specs.declared.modules.KindDecl.{KindDecl as Declared};
ghost use Rattle.dl_ir.specs.declared.names.Name.{Name as OneName};
ghost use Rattle.dl_ir.specs.declared.objects.Obj.{Obj as OneObj};
ghost use Rattle.dl_text.specs.Bytes.{is_word, AllAre};
ghost use Rattle.dl_heapfile.specs.Lines.{BeginsWith, TellsOf, is_within};
ghost use Rattle.dl_heapfile.specs.Names.{HasNames};
ghost use Rattle.dl_heapfile.specs.Reading as spec;

use crate::numbers::word_len;
use crate::values::{behind, name, typed};
use dl_ir::{FieldDecl, Fields, KindDecl, Module, Name, Obj, Value};

// A field with its name, and what is behind it.
fn field<'a>(decl: &FieldDecl, text: &'a [u8]) -> Option<(Value, &'a [u8])>
    ensures { MatchOption result (spec.field decl.now text.now ≡ None) (λ found. spec.field decl.now text.now ≡ Some (found.0, found.1.now)) }
{
    let rest = behind(b" ", text)?;
    let rest = behind(decl.name.as_slice(), rest)?;
    let rest = behind(b"=", rest)?;
    typed(decl.ty, rest)
}

// Fields one after another, and what is behind them.
fn fields<'a>(decls: &[FieldDecl], text: &'a [u8]) -> Option<(Fields, &'a [u8])>
    requires { length decls.now ≤ 16 }
    ensures { MatchOption result (spec.fields decls.now text.now ≡ None) (λ found. spec.fields decls.now text.now ≡ Some (found.0, found.1.now)) }
{
    let mut held = Fields::new();
    let mut rest = text;
    for decl in decls {
        let (value, more) = field(decl, rest)?;
        held.push(value);
        rest = more;
    }
    Some((held, rest))
}

// The mark of a sealed object, where a space or nothing follows, and what is behind it.
fn seal(text: &[u8]) -> (bool, &[u8])
    ensures { spec.seal text.now ≡ (result.0, result.1.now) }
{
    match behind(b" sealed", text) {
        Some(rest @ ([] | [b' ', ..])) => (true, rest),
        _ => (false, text),
    }
}

// The first kind of this name, with its number.
fn kind_named<'a>(kinds: &'a [KindDecl], word: &[u8]) -> Option<(u32, &'a KindDecl)>
    requires { length kinds.now ≤ 16 }
    ensures { MatchOption result (spec.kind_named 0 word.now kinds.now ≡ None) (λ found. spec.kind_named 0 word.now kinds.now ≡ Some (found.0, found.1.now)) }
{
    for (at, kind) in kinds.iter().enumerate() {
        if kind.name.as_slice() == word {
            return Some((at as u32, kind));
        }
    }
    None
}

// The mark and the fields of an object of a kind, up to the end.
fn object_of(kind: u32, declared: &KindDecl, text: &[u8]) -> Option<Obj>
    requires { length declared.now.fields ≤ 16 }
    ensures { result ≡ spec.object_of text.now (kind, declared.now) }
{
    let (sealed, rest) = seal(text);
    let (fields, rest) = fields(declared.fields.as_slice(), rest)?;
    if !rest.is_empty() {
        return None;
    }
    Some(Obj {
        kind,
        sealed,
        fields,
    })
}

// An object by the name of its kind.
fn object(source: &Module, text: &[u8]) -> Option<Obj>
    requires few_kinds { length source.now.kinds ≤ 16 }
    requires few_fields { All (λ (k : Declared). length k.fields ≤ 16) source.now.kinds }
    ensures { result ≡ spec.object source.now.kinds text.now }
{
    let (word, rest) = text.split_at(word_len(text));
    let (kind, declared) = kind_named(source.kinds.as_slice(), word)?;
    object_of(kind, declared, rest)
}

// What a line, without its end, tells, piece by piece.
fn entry(source: &Module, line: &[u8]) -> Option<(Name, Obj)>
    requires few_kinds { length source.now.kinds ≤ 16 }
    requires few_fields { All (λ (k : Declared). length k.fields ≤ 16) source.now.kinds }
    ensures { result ≡ spec.entry source.now line.now }
{
    let (name, rest) = name(line)?;
    let rest = behind(b" ", rest)?;
    let object = object(source, rest)?;
    Some((name, object))
}

// What a line of a heap part, without its end, tells: an object under its name. It tells at most one.
fn read_entry(source: &Module, line: &[u8]) -> Option<(Name, Obj)>
    requires few_kinds { length source.now.kinds ≤ 16 }
    requires few_fields { All (λ (k : Declared). length k.fields ≤ 16) source.now.kinds }
    requires names { HasNames source.now }

    // What is answered is told, and what is told is answered.
    ensures found { IfSome result (TellsOf source.now line.now) }
    ensures only { (told : OneName × OneObj) → TellsOf source.now line.now told → result ≡ Some told }
{
    entry(source, line)
}

// How many bytes come before the first line feed.
fn line_len(bytes: &[u8]) -> usize
    ensures run { result ≡ prefix_len is_within bytes.now }
    ensures within { result ≤ length bytes.now }
{
    bytes.iter().take_while(|b| **b != b'\n').count()
}

/// The first line of a text, without its line feed, and what follows that; none where there is no line feed.
pub fn first_line(text: &[u8]) -> Option<(&[u8], &[u8])>
    ensures { MatchOption result (AllAre is_within text.now) (λ cut. AllAre is_within cut.0.now × (text.now ≡ cut.0.now ++ (10 ∷ cut.1.now))) }
{
    let (line, rest) = text.split_at(line_len(text));
    match rest {
        [_, more @ ..] => Some((line, more)),
        [] => None,
    }
}

/// The object whose line comes next in a text, under its name, and what follows.
pub fn next_object<'a>(source: &Module, text: &'a [u8]) -> Option<((Name, Obj), &'a [u8])>
    requires few_kinds { length source.now.kinds ≤ 16 }
    requires few_fields { All (λ (k : Declared). length k.fields ≤ 16) source.now.kinds }
    requires names { HasNames source.now }
    ensures found { IfSome result (λ found. BeginsWith source.now text.now found.0 found.1.now) }
    ensures only { (told : OneName × OneObj) (rest : List ℕ) → BeginsWith source.now text.now told rest → MatchOption result ⊥ (λ found. (found.0 ≡ told) × (found.1.now ≡ rest)) }
{
    let (line, rest) = first_line(text)?;
    let entry = read_entry(source, line)?;
    Some((entry, rest))
}
