//! Whether two modules, or parts of them, are the same.

ghost use Rattle.std.specs.Prelude.{◌≡◌, ◌↔◌, IsTrue};

use dl_ir::{Block, Cond, Expr, FieldDecl, KindDecl, LocalDecl, Module, OpDecl, Stmt, Text};

pub(crate) fn same_expr(a: &Expr, b: &Expr) -> bool
    ensures { IsTrue result ↔ (a.now ≡ b.now) }
{
    match a {
        Expr::Num(n) => match b {
            Expr::Num(m) => n == m,
            _ => false,
        },
        Expr::Local(x) => match b {
            Expr::Local(y) => x == y,
            _ => false,
        },
        Expr::Neg(operand) => match b {
            Expr::Neg(other) => same_expr(operand.get(), other.get()),
            _ => false,
        },
        Expr::Bin { op, left, right } => match b {
            Expr::Bin {
                op: other,
                left: first,
                right: second,
            } => {
                op == other
                    && same_expr(left.get(), first.get())
                    && same_expr(right.get(), second.get())
            }
            _ => false,
        },
    }
}

pub(crate) fn same_cond(a: &Cond, b: &Cond) -> bool
    ensures { IsTrue result ↔ (a.now ≡ b.now) }
{
    match a {
        Cond::Ints { rel, left, right } => match b {
            Cond::Ints {
                rel: other,
                left: first,
                right: second,
            } => rel == other && same_expr(left, first) && same_expr(right, second),
            Cond::Refs { .. } => false,
        },
        Cond::Refs { same, left, right } => match b {
            Cond::Refs {
                same: other,
                left: first,
                right: second,
            } => same == other && left == first && right == second,
            Cond::Ints { .. } => false,
        },
    }
}

#[cycle(same)]
fn same_stmt(a: &Stmt, b: &Stmt) -> bool
    ensures { IsTrue result ↔ (a.now ≡ b.now) }
{
    match a {
        Stmt::SetInt { x, e } => match b {
            Stmt::SetInt { x: y, e: f } => x == y && same_expr(e, f),
            _ => false,
        },
        Stmt::Load { x, p, f } => match b {
            Stmt::Load { x: y, p: q, f: g } => x == y && p == q && f == g,
            _ => false,
        },
        Stmt::Store { p, f, e } => match b {
            Stmt::Store { p: q, f: g, e: h } => p == q && f == g && same_expr(e, h),
            _ => false,
        },
        Stmt::Copy { p, q } => match b {
            Stmt::Copy { p: r, q: s } => p == r && q == s,
            _ => false,
        },
        Stmt::Null { p } => match b {
            Stmt::Null { p: q } => p == q,
            _ => false,
        },
        Stmt::Follow { p, q, f } => match b {
            Stmt::Follow { p: r, q: s, f: g } => p == r && q == s && f == g,
            _ => false,
        },
        Stmt::New { p, kind } => match b {
            Stmt::New { p: q, kind: other } => p == q && kind == other,
            _ => false,
        },
        Stmt::Link { q, f, p } => match b {
            Stmt::Link { q: r, f: g, p: s } => q == r && f == g && p == s,
            _ => false,
        },
        Stmt::Cut { q, f } => match b {
            Stmt::Cut { q: r, f: g } => q == r && f == g,
            _ => false,
        },
        Stmt::If { c, yes, no } => match b {
            Stmt::If {
                c: d,
                yes: first,
                no: second,
            } => same_cond(c, d) && same_block(yes, first) && same_block(no, second),
            _ => false,
        },
        Stmt::While { c, body } => match b {
            Stmt::While { c: d, body: other } => same_cond(c, d) && same_block(body, other),
            _ => false,
        },
        Stmt::Return { e } => match b {
            Stmt::Return { e: f } => same_expr(e, f),
            _ => false,
        },
        Stmt::Emit { e } => match b {
            Stmt::Emit { e: f } => same_expr(e, f),
            _ => false,
        },
    }
}

#[cycle(same)]
fn same_block(a: &Block, b: &Block) -> bool
    ensures { IsTrue result ↔ (a.now ≡ b.now) }
{
    if a.len() != b.len() {
        return false;
    }
    for (i, s) in a.as_slice().iter().enumerate() {
        match b.get(i) {
            None => return false,
            Some(t) => {
                if !same_stmt(s, t) {
                    return false;
                }
            }
        }
    }
    true
}

// What a list may be compared of.
trait Same {
    fn same(&self, other: &Self) -> bool
        ensures { IsTrue result ↔ (self.now ≡ other.now) };
}

fn same_lists<T: Same>(a: &[T], b: &[T]) -> bool
    ensures { IsTrue result ↔ (a.now ≡ b.now) }
{
    if a.len() != b.len() {
        return false;
    }
    for (i, s) in a.iter().enumerate() {
        match b.get(i) {
            None => return false,
            Some(t) => {
                if !s.same(t) {
                    return false;
                }
            }
        }
    }
    true
}

impl Same for u8 {
    fn same(&self, other: &Self) -> bool {
        *self == *other
    }
}

fn same_text(a: &Text, b: &Text) -> bool
    ensures { IsTrue result ↔ (a.now ≡ b.now) }
{
    same_lists(a.as_slice(), b.as_slice())
}

impl Same for FieldDecl {
    fn same(&self, other: &Self) -> bool {
        same_text(&self.name, &other.name) && self.ty == other.ty
    }
}

impl Same for LocalDecl {
    fn same(&self, other: &Self) -> bool {
        same_text(&self.name, &other.name) && self.ty == other.ty
    }
}

impl Same for KindDecl {
    fn same(&self, other: &Self) -> bool {
        same_text(&self.name, &other.name)
            && self.is_root == other.is_root
            && self.first == other.first
            && self.count == other.count
            && same_lists(self.fields.as_slice(), other.fields.as_slice())
    }
}

impl Same for OpDecl {
    fn same(&self, other: &Self) -> bool {
        same_text(&self.name, &other.name)
            && same_lists(self.params.as_slice(), other.params.as_slice())
            && same_lists(self.vars.as_slice(), other.vars.as_slice())
            && self.allocs == other.allocs
            && self.fuel == other.fuel
            && same_block(&self.body, &other.body)
    }
}

/// Whether two modules are the same.
pub(crate) fn same_module(a: &Module, b: &Module) -> bool
    ensures { IsTrue result ↔ (a.now ≡ b.now) }
{
    a.version == b.version
        && same_lists(a.kinds.as_slice(), b.kinds.as_slice())
        && same_lists(a.ops.as_slice(), b.ops.as_slice())
}
