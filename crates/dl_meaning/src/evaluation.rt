//! The values of expressions and of conditions.

ghost use Rattle.std.specs.Prelude.{◌≡◌, slice_get, neg_ℤ};
ghost use Rattle.dl_ir.specs.Evaluation.{number_of, target_of, in_range, applied, value_of, relates, is_same, side_of, holds_of};

use dl_ir::{Cond, Expr, Fault, Name, Op, RefSide, Rel, Value};

/// The value of an expression at these locals, or its first fault.
#[inline(always)]
pub fn evaluate(e: &Expr, locals: &[Value]) -> Result<i64, Fault>
    ensures { result ≡ value_of e.now locals.now }
{
    match e {
        Expr::Num(n) => Ok(*n),
        Expr::Local(x) => Ok(number_at(locals, *x)),
        _ => evaluate_deep(e, locals),
    }
}

// The value of an expression of any depth.
fn evaluate_deep(e: &Expr, locals: &[Value]) -> Result<i64, Fault>
    ensures { result ≡ value_of e.now locals.now }
{
    match e {
        Expr::Num(n) => Ok(*n),
        Expr::Local(x) => Ok(number_at(locals, *x)),
        Expr::Neg(inner) => {
            let x = evaluate_deep(inner.get(), locals)?;
            negate(x)
        }
        Expr::Bin { op, left, right } => {
            let x = evaluate_deep(left.get(), locals)?;
            let y = evaluate_deep(right.get(), locals)?;
            apply(*op, x, y)
        }
    }
}

/// The value of a condition at these locals, or its first fault.
#[inline(always)]
pub fn test(c: &Cond, locals: &[Value]) -> Result<bool, Fault>
    ensures { result ≡ holds_of c.now locals.now }
{
    match c {
        Cond::Ints { rel, left, right } => {
            let x = evaluate(left, locals)?;
            let y = evaluate(right, locals)?;
            Ok(relate(*rel, x, y))
        }
        Cond::Refs { same, left, right } => {
            let equal = same_target(side(*left, locals), side(*right, locals));
            Ok(if *same { equal } else { !equal })
        }
    }
}

/// The number that a local holds; 0 where it holds none.
#[inline(always)]
pub fn number_at(locals: &[Value], x: u32) -> i64
    ensures { result ≡ number_of (slice_get locals.now x) }
{
    match locals.get(x as usize) {
        Some(Value::Int(n)) => *n,
        _ => 0,
    }
}

/// What a local refers to; null where it holds no reference.
#[inline(always)]
pub fn target_at(locals: &[Value], p: u32) -> Option<Name>
    ensures { result ≡ target_of (slice_get locals.now p) }
{
    match locals.get(p as usize) {
        Some(Value::Ref(target)) => *target,
        _ => None,
    }
}

fn negate(x: i64) -> Result<i64, Fault>
    ensures { result ≡ in_range (neg_ℤ x) }
{
    x.checked_neg().ok_or(Fault::Overflow)
}

fn apply(op: Op, x: i64, y: i64) -> Result<i64, Fault>
    ensures { result ≡ applied op x y }
{
    match op {
        Op::Add => x.checked_add(y).ok_or(Fault::Overflow),
        Op::Sub => x.checked_sub(y).ok_or(Fault::Overflow),
        Op::Mul => x.checked_mul(y).ok_or(Fault::Overflow),
        Op::Div => divide(x, y),
        Op::Rem => remainder(x, y),
    }
}

fn divide(x: i64, y: i64) -> Result<i64, Fault>
    ensures { result ≡ applied Op.Div x y }
{
    if y == 0 {
        Err(Fault::DivZero)
    } else {
        x.checked_div(y).ok_or(Fault::Overflow)
    }
}

// Every number leaves the remainder 0 by -1, also the least, which `%` refuses.
fn remainder(x: i64, y: i64) -> Result<i64, Fault>
    ensures { result ≡ applied Op.Rem x y }
{
    if y == 0 {
        Err(Fault::DivZero)
    } else if y == -1 {
        Ok(0)
    } else {
        Ok(x % y)
    }
}

#[inline(always)]
fn relate(rel: Rel, x: i64, y: i64) -> bool
    ensures { result ≡ relates rel x y }
{
    match rel {
        Rel::Less => x < y,
        Rel::LessEq => x <= y,
        Rel::Equal => x == y,
        Rel::NotEqual => x != y,
    }
}

#[inline(always)]
fn side(side: RefSide, locals: &[Value]) -> Option<Name>
    ensures { result ≡ side_of side locals.now }
{
    match side {
        RefSide::Null => None,
        RefSide::Local(p) => target_at(locals, p),
    }
}

#[inline(always)]
fn same_target(a: Option<Name>, b: Option<Name>) -> bool
    ensures { result ≡ is_same a b }
{
    match (a, b) {
        (None, None) => true,
        (Some(a), Some(b)) => a.ticket == b.ticket && a.index == b.index,
        _ => false,
    }
}
