//! What kinds, fields, parameters and vars declare, or the first fault in them.

ghost use Rattle.std.specs.Prelude.{◌≡◌, ◌+◌, ◌<◌, ◌≤◌, ◌^◌, length, [], sum_by, codes, IfOk, All};
ghost use Rattle.std.specs.List.{AllByRecursion, list_any};
ghost use Rattle.std.specs.Str.{bytes_eq};
ghost use Rattle.dl_ir.specs.declared.modules.KindDecl.{KindDecl as Kind};
ghost use Rattle.dl_ir.specs.Checked.{is_reference_local};
ghost use Rattle.dl_grammar.specs.declared.tree.TreeKind.{TreeKind as TreeKindOf};
ghost use Rattle.dl_types.specs.Checks.{Gives, each};
ghost use Rattle.dl_types.specs.Names.{kind_named, tree_kind_named};
ghost use Rattle.dl_types.specs.Declarations as spec;

use crate::fault::TypeFault;
use crate::names::{field_named, kind_named, local_named, local_of, tree_kind_named};
use dl_grammar::{TreeField, TreeKind, Word};
use dl_ir::{FieldDecl, KindDecl, LocalDecl, Text, Ty};
use sqlite_items::Items;
use std::alloc::{AllocError, Global};

/// Where a type stands.
#[derive(Clone, Copy, Debug)]
pub enum Place {
    InField,
    InParam,
    InVar,
}

impl Place {
    /// Whether a type here may refer to a kind of this sort: a parameter to roots, all others to nodes.
    fn takes(self, is_root: bool) -> bool
        ensures { result ≡ spec.takes self is_root }
    {
        match self {
            Place::InParam => is_root,
            Place::InField | Place::InVar => !is_root,
        }
    }

    /// The fault of a type that refers to a kind of the other sort.
    fn sort_fault(self, line: u32) -> TypeFault
        ensures { result ≡ spec.sort_fault self line }
    {
        match self {
            Place::InField => TypeFault::RootInField { line },
            Place::InParam | Place::InVar => TypeFault::KindClash { line },
        }
    }
}

pub fn text_of(alloc: Global, word: &Word) -> Result<Text, AllocError>
    ensures { IfOk result (λ text. text ≡ word.now.text) }
{
    Items::from_slice(alloc, word.text.as_slice())
}

fn is_int(word: &Word) -> bool
    ensures { result ≡ bytes_eq word.now.text (codes "int") }
{
    word.text.as_slice() == b"int".as_slice()
}

/// The type that refers to a kind, which is of a sort that may stand here.
fn kind_type(place: Place, line: u32, kind: Option<(u32, bool)>) -> Result<Ty, TypeFault>
    ensures { result ≡ spec.kind_type place line kind }
{
    match kind {
        None => Err(TypeFault::Unknown { line }),
        Some((number, is_root)) => {
            if place.takes(is_root) {
                Ok(Ty::Of(number))
            } else {
                Err(place.sort_fault(line))
            }
        }
    }
}

fn field_type(kinds: &[TreeKind], word: &Word) -> Result<Ty, TypeFault>
    requires { length kinds.now < 2 ^ 32 }
    ensures { result ≡ spec.type_of (tree_kind_named 0 kinds.now) Place.InField word.now }
{
    if is_int(word) {
        return Ok(Ty::Int);
    }
    kind_type(
        Place::InField,
        word.line,
        tree_kind_named(kinds, word.text.as_slice()),
    )
}

/// The type that a word means as that of a parameter or a var.
fn local_type(kinds: &[KindDecl], place: Place, word: &Word) -> Result<Ty, TypeFault>
    requires { length kinds.now < 2 ^ 32 }
    ensures { result ≡ spec.type_of (kind_named 0 kinds.now) place word.now }
{
    if is_int(word) {
        return Ok(Ty::Int);
    }
    kind_type(place, word.line, kind_named(kinds, word.text.as_slice()))
}

fn field_typed(
    alloc: Global,
    kinds: &[TreeKind],
    before: &[FieldDecl],
    field: &TreeField,
) -> Result<FieldDecl, TypeFault>
    requires few_kinds { length kinds.now < 2 ^ 32 }
    requires few_fields { length before.now < 2 ^ 32 }
    ensures { Gives (spec.field_typed kinds.now before.now field.now) result }
{
    if field_named(before, field.name.text.as_slice()).is_some() {
        return Err(TypeFault::Twice {
            line: field.name.line,
        });
    }
    let ty = field_type(kinds, &field.ty)?;
    let name = text_of(alloc, &field.name)?;
    Ok(FieldDecl { name, ty })
}

fn fields_typed(
    alloc: Global,
    kinds: &[TreeKind],
    fields: &[TreeField],
) -> Result<Items<FieldDecl>, TypeFault>
    requires few_kinds { length kinds.now < 2 ^ 32 }
    requires few_fields { length fields.now ≤ 16 }
    ensures gives { Gives (each (spec.field_typed kinds.now) [] fields.now) result }
    ensures count { IfOk result (λ typed. length typed ≡ length fields.now) }
{
    let mut typed = Items::new(alloc);
    for field in fields {
        let next = field_typed(alloc, kinds, typed.as_slice(), field)?;
        typed.push(next)?;
    }
    Ok(typed)
}

/// A kind, whose first root has this number if it is a root kind.
fn kind_typed(
    alloc: Global,
    kinds: &[TreeKind],
    before: &[KindDecl],
    next: u32,
    kind: &TreeKind,
) -> Result<KindDecl, TypeFault>
    requires few_kinds { length kinds.now < 2 ^ 32 }
    requires few_before { length before.now < 2 ^ 32 }
    requires few_fields { length kind.now.fields ≤ 16 }
    requires next { next ≡ sum_by (λ (k : Kind). k.count) before.now }
    ensures gives { Gives (spec.kind_typed kinds.now before.now kind.now) result }
    ensures few_fields { IfOk result (λ declared. length declared.fields ≤ 16) }
    ensures count { IfOk result (λ declared. declared.count ≤ kind.now.count) }
{
    if kind_named(before, kind.name.text.as_slice()).is_some() {
        return Err(TypeFault::Twice {
            line: kind.name.line,
        });
    }
    let fields = fields_typed(alloc, kinds, kind.fields.as_slice())?;
    let name = text_of(alloc, &kind.name)?;
    let (first, count) = if kind.is_root {
        (next, kind.count)
    } else {
        (0, 0)
    };
    Ok(KindDecl {
        name,
        is_root: kind.is_root,
        first,
        count,
        fields,
    })
}

/// The kinds of a tree.
pub fn kinds_typed(alloc: Global, kinds: &[TreeKind]) -> Result<Items<KindDecl>, TypeFault>
    requires few_kinds { length kinds.now ≤ 16 }
    requires few_fields { AllByRecursion (λ (kind : TreeKindOf). length kind.fields ≤ 16) kinds.now }
    requires few_roots { sum_by (λ (kind : TreeKindOf). kind.count) kinds.now ≤ 1024 }
    ensures gives { Gives (each (spec.kind_typed kinds.now) [] kinds.now) result }
    ensures count { IfOk result (λ typed. length typed ≡ length kinds.now) }
    ensures few_fields { IfOk result (All (λ (k : Kind). length k.fields ≤ 16)) }
{
    let mut typed = Items::new(alloc);
    let mut next = 0;
    for kind in kinds {
        let declared = kind_typed(alloc, kinds, typed.as_slice(), next, kind)?;
        next += declared.count;
        typed.push(declared)?;
    }
    Ok(typed)
}

fn param_typed(
    alloc: Global,
    kinds: &[KindDecl],
    before: &[LocalDecl],
    param: &TreeField,
) -> Result<LocalDecl, TypeFault>
    requires few_kinds { length kinds.now < 2 ^ 32 }
    requires few_before { length before.now < 2 ^ 32 }
    ensures { Gives (spec.param_typed kinds.now before.now param.now) result }
{
    if local_named(0, before, param.name.text.as_slice()).is_some() {
        return Err(TypeFault::Twice {
            line: param.name.line,
        });
    }
    let ty = local_type(kinds, Place::InParam, &param.ty)?;
    let name = text_of(alloc, &param.name)?;
    Ok(LocalDecl { name, ty })
}

/// The parameters of an operation.
pub fn params_typed(
    alloc: Global,
    kinds: &[KindDecl],
    params: &[TreeField],
) -> Result<Items<LocalDecl>, TypeFault>
    requires few_kinds { length kinds.now < 2 ^ 32 }
    requires few_params { length params.now ≤ 32 }
    ensures gives { Gives (each (spec.param_typed kinds.now) [] params.now) result }
    ensures count { IfOk result (λ typed. length typed ≡ length params.now) }
{
    let mut typed = Items::new(alloc);
    for param in params {
        let next = param_typed(alloc, kinds, typed.as_slice(), param)?;
        typed.push(next)?;
    }
    Ok(typed)
}

fn var_typed(
    alloc: Global,
    kinds: &[KindDecl],
    params: &[LocalDecl],
    before: &[LocalDecl],
    var: &TreeField,
) -> Result<LocalDecl, TypeFault>
    requires few_kinds { length kinds.now < 2 ^ 32 }
    requires few_before { length params.now + length before.now < 2 ^ 32 }
    ensures { Gives (spec.var_typed kinds.now params.now before.now var.now) result }
{
    if local_of(params, before, var.name.text.as_slice()).is_some() {
        return Err(TypeFault::Twice {
            line: var.name.line,
        });
    }
    let ty = local_type(kinds, Place::InVar, &var.ty)?;
    let name = text_of(alloc, &var.name)?;
    Ok(LocalDecl { name, ty })
}

/// The vars of an operation with these parameters.
pub fn vars_typed(
    alloc: Global,
    kinds: &[KindDecl],
    params: &[LocalDecl],
    vars: &[TreeField],
) -> Result<Items<LocalDecl>, TypeFault>
    requires few_kinds { length kinds.now < 2 ^ 32 }
    requires few_locals { length params.now + length vars.now ≤ 32 }
    ensures gives { Gives (each (spec.var_typed kinds.now params.now) [] vars.now) result }
    ensures count { IfOk result (λ typed. length typed ≡ length vars.now) }
{
    let mut typed = Items::new(alloc);
    for var in vars {
        let next = var_typed(alloc, kinds, params, typed.as_slice(), var)?;
        typed.push(next)?;
    }
    Ok(typed)
}

/// Whether a parameter refers to a root.
pub fn has_root(params: &[LocalDecl]) -> bool
    ensures { result ≡ list_any is_reference_local params.now }
{
    params.iter().any(|param| matches!(param.ty, Ty::Of(_)))
}
