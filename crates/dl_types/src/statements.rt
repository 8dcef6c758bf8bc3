//! What statements are, or the first fault in them.

ghost use Rattle.std.specs.Prelude.{◌≡◌, map};
ghost use Rattle.dl_types.specs.Checks.{Gives};
ghost use Rattle.dl_types.specs.Names.{is_root_kind};
ghost use Rattle.dl_types.specs.Statements as spec;

use crate::fault::TypeFault;
use crate::operands::{Given, Scope};
use dl_grammar::{Rhs, Side, TreeCond, TreeExpr, TreeStmt, What, Word};
use dl_ir::{Block, Cond, Expr, RefSide, Rel, Stmt, Ty};
use sqlite_items::Items;
use std::alloc::Global;

impl Scope<'_> {
    fn is_root_kind(&self, kind: u32) -> bool
        ensures { result ≡ is_root_kind self.now.kinds.now kind }
    {
        match self.kinds.get(kind as usize) {
            Some(kind) => kind.is_root,
            None => false,
        }
    }

    fn refers_to_root(&self, ty: Ty) -> bool
        ensures { result ≡ spec.refers_to_root self.now.kinds.now ty }
    {
        match ty {
            Ty::Int => false,
            Ty::Of(kind) => self.is_root_kind(kind),
        }
    }

    fn is_new_root(&self, what: &Given) -> bool
        ensures { result ≡ spec.is_new_root self.now.kinds.now what.now }
    {
        match what {
            Given::New { kind } => self.is_root_kind(*kind),
            _ => false,
        }
    }

    /// An assignment to a local of this type, whose names are known.
    fn assign_checked(&self, line: u32, x: u32, ty: Ty, what: Given) -> Result<Stmt, TypeFault>
        ensures { result ≡ spec.assign_checked self.now.kinds.now line (x, ty) what }
    {
        if self.refers_to_root(ty) && !is_null(&what) {
            return Err(TypeFault::AssignRoot { line });
        }
        if self.is_new_root(&what) {
            return Err(TypeFault::NewRoot { line });
        }
        assigned(x, ty, what).ok_or(TypeFault::KindClash { line })
    }

    fn assign_typed(
        &self,
        alloc: Global,
        line: u32,
        x: &Word,
        right: &Rhs,
    ) -> Result<Stmt, TypeFault>
        ensures { Gives (spec.assign_typed self.now.kinds.now self.now.params.now self.now.vars.now line x.now right.now) result }
    {
        let (x, ty) = self.local(x)?;
        let what = self.right_side(alloc, right)?;
        self.assign_checked(line, x, ty, what)
    }

    fn store_typed(
        &self,
        alloc: Global,
        line: u32,
        p: &Word,
        f: &Word,
        right: &Side,
    ) -> Result<Stmt, TypeFault>
        ensures { Gives (spec.store_typed self.now.kinds.now self.now.params.now self.now.vars.now line p.now f.now right.now) result }
    {
        let place = self.place(p, f)?;
        let what = self.side(alloc, right)?;
        stored(place, what).ok_or(TypeFault::KindClash { line })
    }

    fn cond_typed(&self, alloc: Global, line: u32, c: &TreeCond) -> Result<Cond, TypeFault>
        ensures { Gives (spec.cond_typed self.now.params.now self.now.vars.now line c.now) result }
    {
        let left = self.side(alloc, &c.left)?;
        let right = self.side(alloc, &c.right)?;
        compared(c.rel, left, right).ok_or(TypeFault::KindClash { line })
    }

    fn return_typed(&self, alloc: Global, line: u32, e: &TreeExpr) -> Result<Stmt, TypeFault>
        ensures { Gives (spec.return_typed self.now.params.now self.now.vars.now line e.now) result }
    {
        let number = self.numbers(alloc, e)?;
        match number {
            Some(e) => Ok(Stmt::Return { e }),
            None => Err(TypeFault::KindClash { line }),
        }
    }

    fn emit_typed(&self, alloc: Global, line: u32, e: &TreeExpr) -> Result<Stmt, TypeFault>
        ensures { Gives (spec.emit_typed self.now.params.now self.now.vars.now line e.now) result }
    {
        let number = self.numbers(alloc, e)?;
        match number {
            Some(e) => Ok(Stmt::Emit { e }),
            None => Err(TypeFault::KindClash { line }),
        }
    }

    /// A statement, with the statements in it.
    #[cycle(statements)]
    pub fn stmt_typed(&self, alloc: Global, s: &TreeStmt) -> Result<Stmt, TypeFault>
        ensures { Gives (spec.stmt_typed self.now.kinds.now self.now.params.now self.now.vars.now s.now) result }
    {
        let line = s.line;
        match &s.what {
            What::Assign { x, rhs } => self.assign_typed(alloc, line, x, rhs),
            What::Store { p, f, rhs } => self.store_typed(alloc, line, p, f, rhs),
            What::If { c, yes, no } => {
                let c = self.cond_typed(alloc, line, c)?;
                let yes = self.block_typed(alloc, yes)?;
                let no = self.block_typed(alloc, no)?;
                Ok(Stmt::If { c, yes, no })
            }
            What::While { c, body } => {
                let c = self.cond_typed(alloc, line, c)?;
                let body = self.block_typed(alloc, body)?;
                Ok(Stmt::While { c, body })
            }
            What::Return { e } => self.return_typed(alloc, line, e),
            What::Emit { e } => self.emit_typed(alloc, line, e),
        }
    }

    /// The statements of a block, up to the first fault.
    #[cycle(statements)]
    pub fn block_typed(&self, alloc: Global, block: &Items<TreeStmt>) -> Result<Block, TypeFault>
        ensures { Gives (spec.block_typed self.now.kinds.now self.now.params.now self.now.vars.now block.now) result }
    {
        let mut typed = Items::new(alloc);
        for s in block.as_slice() {
            let next = self.stmt_typed(alloc, s)?;
            typed.push(next)?;
        }
        Ok(typed)
    }
}

fn is_null(what: &Given) -> bool
    ensures { result ≡ spec.is_null what.now }
{
    matches!(what, Given::Null)
}

fn field_assigned(x: u32, ty: Ty, p: u32, f: u32, of: Ty) -> Option<Stmt>
    ensures { result ≡ spec.field_assigned x ty p f of }
{
    match (ty, of) {
        (Ty::Int, Ty::Int) => Some(Stmt::Load { x, p, f }),
        (Ty::Of(kind), Ty::Of(other)) => {
            if kind == other {
                Some(Stmt::Follow { p: x, q: p, f })
            } else {
                None
            }
        }
        _ => None,
    }
}

fn is_of_kind(ty: Ty, kind: u32) -> bool
    ensures { result ≡ spec.is_of_kind ty kind }
{
    match ty {
        Ty::Int => false,
        Ty::Of(other) => other == kind,
    }
}

fn number_assigned(x: u32, ty: Ty, e: Expr) -> Option<Stmt>
    ensures { result ≡ spec.number_assigned x ty e }
{
    match ty {
        Ty::Int => Some(Stmt::SetInt { x, e }),
        Ty::Of(_) => None,
    }
}

fn null_assigned(p: u32, ty: Ty) -> Option<Stmt>
    ensures { result ≡ spec.null_assigned p ty }
{
    match ty {
        Ty::Int => None,
        Ty::Of(_) => Some(Stmt::Null { p }),
    }
}

/// The assignment to a local of this type, if the types fit.
fn assigned(x: u32, ty: Ty, what: Given) -> Option<Stmt>
    ensures { result ≡ spec.assigned x ty what }
{
    match what {
        Given::Null => null_assigned(x, ty),
        Given::New { kind } => {
            if is_of_kind(ty, kind) {
                Some(Stmt::New { p: x, kind })
            } else {
                None
            }
        }
        Given::Field { p, f, ty: of } => field_assigned(x, ty, p, f, of),
        Given::Number(e) => number_assigned(x, ty, e),
        Given::Reference { p, kind } => {
            if is_of_kind(ty, kind) {
                Some(Stmt::Copy { p: x, q: p })
            } else {
                None
            }
        }
        Given::Unfit => None,
    }
}

/// What is stored into a field of this type, if it fits.
fn stored_as(q: u32, f: u32, ty: Ty, what: Given) -> Option<Stmt>
    ensures { result ≡ spec.stored_as q f ty what }
{
    match (ty, what) {
        (Ty::Int, Given::Number(e)) => Some(Stmt::Store { p: q, f, e }),
        (Ty::Of(_), Given::Null) => Some(Stmt::Cut { q, f }),
        (Ty::Of(kind), Given::Reference { p, kind: other }) => {
            if kind == other {
                Some(Stmt::Link { q, f, p })
            } else {
                None
            }
        }
        _ => None,
    }
}

/// What is stored into a place, if it fits.
fn stored(place: Given, what: Given) -> Option<Stmt>
    ensures { result ≡ spec.stored place what }
{
    match place {
        Given::Field { p, f, ty } => stored_as(p, f, ty, what),
        _ => None,
    }
}

/// Whether references are to be the same or not, if they may be compared so.
fn sameness(rel: Rel) -> Option<bool>
    ensures { result ≡ spec.sameness rel }
{
    match rel {
        Rel::Less | Rel::LessEq => None,
        Rel::Equal => Some(true),
        Rel::NotEqual => Some(false),
    }
}

/// A comparison of references, if they may be compared.
fn refs_compared(same: bool, left: Given, right: Given) -> Option<Cond>
    ensures { result ≡ spec.refs_compared same left right }
{
    match (left, right) {
        (Given::Reference { p, kind }, Given::Reference { p: q, kind: other }) => {
            if kind != other {
                return None;
            }
            Some(Cond::Refs {
                same,
                left: RefSide::Local(p),
                right: RefSide::Local(q),
            })
        }
        (Given::Reference { p, .. }, Given::Null) => Some(Cond::Refs {
            same,
            left: RefSide::Local(p),
            right: RefSide::Null,
        }),
        (Given::Null, Given::Reference { p, .. }) => Some(Cond::Refs {
            same,
            left: RefSide::Null,
            right: RefSide::Local(p),
        }),
        _ => None,
    }
}

/// A comparison, if its sides fit.
fn compared(rel: Rel, left: Given, right: Given) -> Option<Cond>
    ensures { result ≡ spec.compared rel left right }
{
    match (left, right) {
        (Given::Number(left), Given::Number(right)) => Some(Cond::Ints { rel, left, right }),
        (left, right) => match sameness(rel) {
            Some(same) => refs_compared(same, left, right),
            None => None,
        },
    }
}
