//! The calls that an operation file says, or its first fault.

ghost use Rattle.std.specs.Prelude.{◌≡◌, ◌≢◌, ◌≤◌, ◌<◌, ◌+◌, ◌^◌, List, length, slice_get, find, IfOk, IfErr, IfSome, MatchResult, OnOk, []};
ghost use Rattle.dl_ir.specs.declared.calls.Call.{Call as CallOf};
ghost use Rattle.dl_ir.specs.CallForms.{AreCallsOf};
ghost use Rattle.dl_syntax.specs.declared.calls.CallsFault.{CallsFault as FaultOf};
ghost use Rattle.dl_syntax.specs.Line.{is_wrong, words_of, lines_of};
ghost use Rattle.dl_syntax.specs.Calls as spec;
ghost use Rattle.dl_syntax.specs.Calls.{Gives};
ghost use Rattle.dl_syntax.specs.Rules.{IsCallsFile, IsCallsFault, with_call};

use crate::calls::CallsFault;
use crate::number::numbers;
use crate::words::{before_comment, count_words, first_line, next_word};
use dl_ir::{Call, Calls, LocalDecl, Module, Ty};
use sqlite_items::Items;
use std::alloc::{AllocError, Global};

/// How many operations a file may have.
const MAX_CALLS: usize = 65536;

fn is_wrong(byte: u8) -> bool
    ensures { result ≡ is_wrong byte }
{
    match byte {
        b'\t' | b'\r' => false,
        127.. => true,
        _ => byte < 32,
    }
}

/// The first byte of a line that no operation file has.
pub fn wrong_byte(line: &[u8]) -> Option<u8>
    ensures { result ≡ find is_wrong line.now }
{
    line.iter().copied().find(|b| is_wrong(*b))
}

fn byte_fault(line: u32, byte: u8) -> CallsFault
    ensures { result ≡ spec.byte_fault line byte }
{
    if byte >= 128 {
        CallsFault::NotAscii { line }
    } else {
        CallsFault::BadByte { line }
    }
}

/// Whether an argument may be given for a parameter of this type.
fn fits(source: &Module, ty: Ty, argument: i64) -> bool
    ensures { result ≡ spec.fits source.now ty argument }
{
    let Ty::Of(kind) = ty else {
        return true;
    };
    match (source.kinds.get(kind as usize), u64::try_from(argument)) {
        (Some(kind), Ok(n)) => kind.is_root
            && kind.first as u64 <= n
            && n < kind.first as u64 + kind.count as u64,
        _ => false,
    }
}

fn all_fit(source: &Module, params: &[LocalDecl], args: &[i64]) -> bool
    ensures { result ≡ spec.all_fit source.now params.now args.now }
{
    let mut left = args;
    for param in params {
        let [argument, rest @ ..] = left else {
            return false;
        };
        if !fits(source, param.ty, *argument) {
            return false;
        }
        left = rest;
    }
    left.is_empty()
}

/// The number of the operation of this name.
fn op_named(source: &Module, name: &[u8]) -> Option<usize>
    ensures found { result ≡ spec.op_named source.now name.now }
    ensures within { IfSome result (λ op. op < length source.now.ops) }
{
    source
        .ops
        .as_slice()
        .iter()
        .position(|op| op.name.as_slice() == name)
}

/// The call of an operation with the words as its arguments.
#[tactic(auto, using(crate::proofs::Numbers::as_many))]
fn call_of_op(
    alloc: Global,
    source: &Module,
    line: u32,
    op: usize,
    words: &[u8],
) -> Result<Option<Call>, CallsFault>
    requires { op < 2 ^ 32 }
    ensures { Gives (spec.call_of_op source.now line (words_of words.now) op (slice_get source.now.ops op)) result }
{
    let Some(decl) = source.ops.get(op) else {
        return Err(CallsFault::NoOp { line });
    };
    let Some(args) = numbers(alloc, decl.params.len(), words)? else {
        if count_words(words) != decl.params.len() {
            return Err(CallsFault::ArgCount { line });
        }
        return Err(CallsFault::NotNumber { line });
    };
    if args.len() != decl.params.len() {
        return Err(CallsFault::ArgCount { line });
    }
    if !all_fit(source, decl.params.as_slice(), args.as_slice()) {
        return Err(CallsFault::NoRoot { line });
    }
    Ok(Some(Call {
        op: op as u32,
        args,
    }))
}

/// The call that the words of a line say, behind so many calls.
fn call_of_words(
    alloc: Global,
    source: &Module,
    line: u32,
    before: usize,
    words: &[u8],
) -> Result<Option<Call>, CallsFault>
    requires { length source.now.ops ≤ 64 }
    ensures { Gives (spec.call_of_words source.now line before (words_of words.now)) result }
{
    let Some((name, rest)) = next_word(words) else {
        return Ok(None);
    };
    if before >= MAX_CALLS {
        return Err(CallsFault::TooMany { line });
    }
    match op_named(source, name) {
        Some(op) => call_of_op(alloc, source, line, op, rest),
        None => Err(CallsFault::NoOp { line }),
    }
}

/// The call that a line says, behind so many calls.
fn call_of_line(
    alloc: Global,
    source: &Module,
    line: u32,
    before: usize,
    text: &[u8],
) -> Result<Option<Call>, CallsFault>
    requires { length source.now.ops ≤ 64 }
    ensures { Gives (spec.call_of_line source.now line before text.now) result }
{
    match wrong_byte(text) {
        Some(byte) => Err(byte_fault(line, byte)),
        None => call_of_words(alloc, source, line, before, before_comment(text)),
    }
}

/// Adds the call of a line, if it says one.
fn add_call(calls: &mut Calls, call: Option<Call>) -> Result<(), AllocError>
    ensures { OnOk result (calls.new ≡ with_call calls.old call) }
{
    match call {
        Some(call) => calls.push(call),
        None => Ok(()),
    }
}

/// The calls that the lines of a text say.
fn calls_of(alloc: Global, source: &Module, bytes: &[u8]) -> Result<Calls, CallsFault>
    requires few_ops { length source.now.ops ≤ 64 }
    requires short { length bytes.now ≤ 4294967294 }
    ensures { Gives (spec.calls_from source.now 1 [] (lines_of bytes.now)) result }
{
    let mut calls = Items::new(alloc);
    let mut line: u32 = 1;
    let mut rest = bytes;
    while !rest.is_empty() {
        let (text, more) = first_line(rest);
        let call = call_of_line(alloc, source, line, calls.len(), text)?;
        add_call(&mut calls, call)?;
        rest = more;
        line += 1;
    }
    Ok(calls)
}

/// Reads an operation file of a module: an operation a line, by its name and its arguments. The first line at fault
/// decides; at a fault nothing is answered of the lines before it.
pub fn read_calls(alloc: Global, bytes: &[u8], source: &Module) -> Result<Calls, CallsFault>
    requires few_ops { length source.now.ops ≤ 64 }
    requires short { length bytes.now ≤ 4294967294 }

    // What is read is said so, and what is said so is read, unless memory runs out.
    ensures found { IfOk result (IsCallsFile source.now bytes.now) }
    ensures only { (calls : List CallOf) → IsCallsFile source.now bytes.now calls → MatchResult result (λ found. found ≡ calls) (λ fault. fault ≡ CallsFault.Memory) }

    // A fault is the first one, and where there is one it is answered.
    ensures fault { IfErr result (λ fault. fault ≢ CallsFault.Memory → IsCallsFault source.now bytes.now fault) }
    ensures only_fault { (fault : FaultOf) → IsCallsFault source.now bytes.now fault → MatchResult result (λ _. ⊥) (λ found. found ≢ CallsFault.Memory → found ≡ fault) }

    ensures of_module { IfOk result (AreCallsOf source.now) }
{
    calls_of(alloc, source, bytes)
}
