//! What expressions, fields and sides of conditions are, before it is known whether they fit.

ghost use Rattle.std.specs.Prelude.{◌≡◌, ◌+◌, ◌<◌, ◌≤◌, ◌^◌, length, All};
ghost use Rattle.dl_ir.specs.declared.modules.KindDecl.{KindDecl as Kind};
ghost use Rattle.dl_types.specs.Checks.{Gives};
ghost use Rattle.dl_types.specs.Names.{fields_of};
ghost use Rattle.dl_types.specs.Statements as spec;

use crate::fault::TypeFault;
use crate::names::{field_named, kind_named, local_of};
use dl_grammar::{Rhs, Side, TreeExpr, Word};
use dl_ir::{Expr, FieldDecl, KindDecl, LocalDecl, Op, Ty};
use sqlite_items::Boxed;
use std::alloc::Global;

/// What stands on the right side of an assignment, in a store or on a side of a condition.
#[derive(Debug, Drop)]
pub enum Given {
    Null,
    /// A new object of this kind.
    New { kind: u32 },
    /// A field of this number and type, of the object that a local refers to.
    Field { p: u32, f: u32, ty: Ty },
    /// An expression of numbers.
    Number(Expr),
    /// A local alone that refers to an object of this kind.
    Reference { p: u32, kind: u32 },
    /// What fits nowhere: a field of a number, or a reference among numbers.
    Unfit,
}

/// What the names in the body of an operation mean.
#[derive(Clone, Copy, Drop)]
pub struct Scope<'a> {
    pub kinds: &'a [KindDecl],
    pub params: &'a [LocalDecl],
    pub vars: &'a [LocalDecl],
    ghost few_kinds: { length kinds.now ≤ 16 },
    ghost few_fields: { All (λ (k : Kind). length k.fields ≤ 16) kinds.now },
    ghost few_locals: { length params.now + length vars.now ≤ 32 },
}

impl Scope<'_> {
    /// The local that a word names, with its type.
    pub fn local(&self, word: &Word) -> Result<(u32, Ty), TypeFault>
        ensures { result ≡ spec.local_typed self.now.params.now self.now.vars.now word.now }
    {
        local_of(self.params, self.vars, word.text.as_slice()).ok_or(TypeFault::Unknown {
            line: word.line,
        })
    }

    /// An expression of numbers; none where a local in it holds a reference.
    pub fn numbers(&self, alloc: Global, e: &TreeExpr) -> Result<Option<Expr>, TypeFault>
        ensures { Gives (spec.number_typed self.now.params.now self.now.vars.now e.now) result }
    {
        match e {
            TreeExpr::Num(n) => Ok(Some(Expr::Num(*n))),
            TreeExpr::Name(word) => {
                let (x, ty) = self.local(word)?;
                Ok(number_local(x, ty))
            }
            TreeExpr::Neg(inner) => {
                let inner = self.numbers(alloc, inner.get())?;
                negated(alloc, inner)
            }
            TreeExpr::Bin { op, left, right } => {
                let left = self.numbers(alloc, left.get())?;
                let right = self.numbers(alloc, right.get())?;
                both(alloc, *op, left, right)
            }
        }
    }

    /// An expression: a local alone may refer to an object.
    pub fn sum(&self, alloc: Global, e: &TreeExpr) -> Result<Given, TypeFault>
        ensures { Gives (spec.sum_given self.now.params.now self.now.vars.now e.now) result }
    {
        if let TreeExpr::Name(word) = e {
            let (x, ty) = self.local(word)?;
            return Ok(local_given(x, ty));
        }
        let numbers = self.numbers(alloc, e)?;
        Ok(number_given(numbers))
    }

    /// What is stored, or a side of a condition.
    pub fn side(&self, alloc: Global, side: &Side) -> Result<Given, TypeFault>
        ensures { Gives (spec.side_given self.now.params.now self.now.vars.now side.now) result }
    {
        match side {
            Side::Null => Ok(Given::Null),
            Side::Sum(e) => self.sum(alloc, e),
        }
    }

    fn fields(&self, kind: u32) -> &[FieldDecl]
        ensures fields { result.now ≡ fields_of self.now.kinds.now kind }
        ensures few { length result.now ≤ 16 }
    {
        match self.kinds.get(kind as usize) {
            Some(kind) => kind.fields.as_slice(),
            None => &[],
        }
    }

    /// A field of the object that a local of this type refers to.
    fn field(&self, p: u32, ty: Ty, word: &Word) -> Result<Given, TypeFault>
        ensures { result ≡ spec.field_given self.now.kinds.now p ty word.now }
    {
        let Ty::Of(kind) = ty else {
            return Ok(Given::Unfit);
        };
        match field_named(self.fields(kind), word.text.as_slice()) {
            Some((f, ty)) => Ok(Given::Field { p, f, ty }),
            None => Err(TypeFault::Unknown { line: word.line }),
        }
    }

    /// A field of a local.
    pub fn place(&self, p: &Word, f: &Word) -> Result<Given, TypeFault>
        ensures { result ≡ spec.place_given self.now.kinds.now self.now.params.now self.now.vars.now p.now f.now }
    {
        let (local, ty) = self.local(p)?;
        self.field(local, ty, f)
    }

    /// The right side of an assignment.
    pub fn right_side(&self, alloc: Global, rhs: &Rhs) -> Result<Given, TypeFault>
        ensures { Gives (spec.rhs_given self.now.kinds.now self.now.params.now self.now.vars.now rhs.now) result }
    {
        match rhs {
            Rhs::Null => Ok(Given::Null),
            Rhs::New(word) => match kind_named(self.kinds, word.text.as_slice()) {
                Some((kind, _)) => Ok(Given::New { kind }),
                None => Err(TypeFault::Unknown { line: word.line }),
            },
            Rhs::Field { p, f } => self.place(p, f),
            Rhs::Sum(e) => self.sum(alloc, e),
        }
    }
}

fn number_local(x: u32, ty: Ty) -> Option<Expr>
    ensures { result ≡ spec.number_local x ty }
{
    match ty {
        Ty::Int => Some(Expr::Local(x)),
        Ty::Of(_) => None,
    }
}

fn negated(alloc: Global, e: Option<Expr>) -> Result<Option<Expr>, TypeFault>
    ensures { Gives (Ok (spec.negated e)) result }
{
    match e {
        Some(e) => Ok(Some(Expr::Neg(Boxed::new(alloc, e)?))),
        None => Ok(None),
    }
}

fn both(
    alloc: Global,
    op: Op,
    left: Option<Expr>,
    right: Option<Expr>,
) -> Result<Option<Expr>, TypeFault>
    ensures { Gives (Ok (spec.both op left right)) result }
{
    match (left, right) {
        (Some(left), Some(right)) => Ok(Some(Expr::Bin {
            op,
            left: Boxed::new(alloc, left)?,
            right: Boxed::new(alloc, right)?,
        })),
        _ => Ok(None),
    }
}

fn local_given(x: u32, ty: Ty) -> Given
    ensures { result ≡ spec.local_given x ty }
{
    match ty {
        Ty::Int => Given::Number(Expr::Local(x)),
        Ty::Of(kind) => Given::Reference { p: x, kind },
    }
}

fn number_given(e: Option<Expr>) -> Given
    ensures { result ≡ spec.number_given e }
{
    match e {
        Some(e) => Given::Number(e),
        None => Given::Unfit,
    }
}
