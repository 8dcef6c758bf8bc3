//! What a name stands for: the first declaration of it in its name space.

ghost use Rattle.std.specs.Prelude.{◌≡◌, ◌+◌, ◌<◌, ◌≤◌, ◌^◌, length};
ghost use Rattle.dl_types.specs.Names.{field_named, local_named, kind_named, tree_kind_named, has_op, local_of};

use dl_grammar::TreeKind;
use dl_ir::{FieldDecl, KindDecl, LocalDecl, OpDecl, Ty};

/// The number and the type of the field of this name, if there is one.
pub fn field_named(fields: &[FieldDecl], name: &[u8]) -> Option<(u32, Ty)>
    requires { length fields.now < 2 ^ 32 }
    ensures { result ≡ field_named 0 fields.now name.now }
{
    let mut number: u32 = 0;
    for field in fields {
        if field.name.as_slice() == name {
            return Some((number, field.ty));
        }
        number += 1;
    }
    None
}

/// The number and the type of the local of this name, where the list is numbered from here on.
pub fn local_named(from: u32, locals: &[LocalDecl], name: &[u8]) -> Option<(u32, Ty)>
    requires { from + length locals.now < 2 ^ 32 }
    ensures { result ≡ local_named from locals.now name.now }
{
    let mut number = from;
    for local in locals {
        if local.name.as_slice() == name {
            return Some((number, local.ty));
        }
        number += 1;
    }
    None
}

/// The number and the type of the parameter or the var of this name; parameters are numbered first.
pub fn local_of(params: &[LocalDecl], vars: &[LocalDecl], name: &[u8]) -> Option<(u32, Ty)>
    requires { length params.now + length vars.now < 2 ^ 32 }
    ensures { result ≡ local_of params.now vars.now name.now }
{
    match local_named(0, params, name) {
        Some(found) => Some(found),
        None => local_named(params.len() as u32, vars, name),
    }
}

/// The number of the kind of this name, and whether it is a root kind.
pub fn kind_named(kinds: &[KindDecl], name: &[u8]) -> Option<(u32, bool)>
    requires { length kinds.now < 2 ^ 32 }
    ensures { result ≡ kind_named 0 kinds.now name.now }
{
    let mut number: u32 = 0;
    for kind in kinds {
        if kind.name.as_slice() == name {
            return Some((number, kind.is_root));
        }
        number += 1;
    }
    None
}

/// The number of the kind of this name in a tree, and whether it is a root kind.
pub fn tree_kind_named(kinds: &[TreeKind], name: &[u8]) -> Option<(u32, bool)>
    requires { length kinds.now < 2 ^ 32 }
    ensures { result ≡ tree_kind_named 0 kinds.now name.now }
{
    let mut number: u32 = 0;
    for kind in kinds {
        if kind.name.text.as_slice() == name {
            return Some((number, kind.is_root));
        }
        number += 1;
    }
    None
}

/// Whether there is an operation of this name.
pub fn has_op(ops: &[OpDecl], name: &[u8]) -> bool
    ensures { result ≡ has_op ops.now name.now }
{
    for op in ops {
        if op.name.as_slice() == name {
            return true;
        }
    }
    false
}
