//! The module that a tree is, or its first fault: operations one behind another.

ghost use Rattle.std.specs.Prelude.{◌≡◌, ◌≢◌, ◌+◌, ◌<◌, ◌≤◌, ◌^◌, length, [], All, IfOk, IfErr, MatchResult};
ghost use Rattle.std.specs.List.{AllByRecursion, list_any};
ghost use Rattle.dl_ir.specs.declared.modules.KindDecl.{KindDecl as Kind};
ghost use Rattle.dl_ir.specs.declared.modules.Module.{Module as ModuleOf};
ghost use Rattle.dl_ir.specs.Checked.{IsChecked, is_root};
ghost use Rattle.dl_types.specs.declared.fault.TypeFault.{TypeFault as FaultOf};
ghost use Rattle.dl_types.specs.Checks.{Gives, each};
ghost use Rattle.dl_grammar.specs.Limits.{IsInLimits, IsOpInLimits};
ghost use Rattle.dl_types.specs.Limits.{IsBounded, TypedIsChecked};
ghost use Rattle.dl_types.specs.Statements.{block_typed};
ghost use Rattle.dl_types.specs.Rules.{Types, IsTypeFault};
ghost use Rattle.dl_types.specs.Typing as spec;

use crate::declarations::{has_root, kinds_typed, params_typed, text_of, vars_typed};
use crate::fault::TypeFault;
use crate::names::has_op;
use crate::operands::Scope;
use dl_grammar::{Tree, TreeOp};
use dl_ir::{Block, KindDecl, LocalDecl, Module, OpDecl};
use sqlite_items::Items;
use std::alloc::Global;

/// The body of an operation with these parameters and vars.
fn body_typed(
    alloc: Global,
    kinds: &[KindDecl],
    params: &[LocalDecl],
    vars: &[LocalDecl],
    op: &TreeOp,
) -> Result<Block, TypeFault>
    requires few_kinds { length kinds.now ≤ 16 }
    requires few_fields { All (λ (k : Kind). length k.fields ≤ 16) kinds.now }
    requires few_locals { length params.now + length vars.now ≤ 32 }
    ensures { Gives (block_typed kinds.now params.now vars.now op.now.body) result }
{
    let scope = Scope {
        kinds,
        params,
        vars,
    };
    scope.block_typed(alloc, &op.body)
}

/// An operation with these parameters: its vars, then its body.
fn op_behind(
    alloc: Global,
    kinds: &[KindDecl],
    op: &TreeOp,
    params: Items<LocalDecl>,
) -> Result<OpDecl, TypeFault>
    requires few_kinds { length kinds.now ≤ 16 }
    requires few_fields { All (λ (k : Kind). length k.fields ≤ 16) kinds.now }
    requires few_locals { length params + length op.now.vars ≤ 32 }
    ensures { Gives (spec.op_behind kinds.now op.now params) result }
{
    let vars = vars_typed(alloc, kinds, params.as_slice(), op.vars.as_slice())?;
    let body = body_typed(alloc, kinds, params.as_slice(), vars.as_slice(), op)?;
    let name = text_of(alloc, &op.name)?;
    Ok(OpDecl {
        name,
        params,
        vars,
        allocs: op.allocs,
        fuel: op.fuel,
        body,
    })
}

/// An operation with these parameters, one of which has to refer to a root.
fn op_with(
    alloc: Global,
    kinds: &[KindDecl],
    op: &TreeOp,
    params: Items<LocalDecl>,
) -> Result<OpDecl, TypeFault>
    requires few_kinds { length kinds.now ≤ 16 }
    requires few_fields { All (λ (k : Kind). length k.fields ≤ 16) kinds.now }
    requires few_locals { length params + length op.now.vars ≤ 32 }
    ensures { Gives (spec.op_with kinds.now op.now params) result }
{
    if has_root(params.as_slice()) {
        op_behind(alloc, kinds, op, params)
    } else {
        Err(TypeFault::KindClash { line: op.name.line })
    }
}

/// An operation, behind those before it.
fn op_typed(
    alloc: Global,
    kinds: &[KindDecl],
    before: &[OpDecl],
    op: &TreeOp,
) -> Result<OpDecl, TypeFault>
    requires few_kinds { length kinds.now ≤ 16 }
    requires few_fields { All (λ (k : Kind). length k.fields ≤ 16) kinds.now }
    requires in_limits { IsOpInLimits op.now }
    ensures { Gives (spec.op_typed kinds.now before.now op.now) result }
{
    if has_op(before, op.name.text.as_slice()) {
        return Err(TypeFault::Twice { line: op.name.line });
    }
    let params = params_typed(alloc, kinds, op.params.as_slice())?;
    op_with(alloc, kinds, op, params)
}

/// The operations of a tree.
fn ops_typed(alloc: Global, kinds: &[KindDecl], ops: &[TreeOp]) -> Result<Items<OpDecl>, TypeFault>
    requires few_kinds { length kinds.now ≤ 16 }
    requires few_fields { All (λ (k : Kind). length k.fields ≤ 16) kinds.now }
    requires in_limits { AllByRecursion IsOpInLimits ops.now }
    ensures { Gives (each (spec.op_typed kinds.now) [] ops.now) result }
{
    let mut typed = Items::new(alloc);
    for op in ops {
        let next = op_typed(alloc, kinds, typed.as_slice(), op)?;
        typed.push(next)?;
    }
    Ok(typed)
}

fn has_root_kind(kinds: &[KindDecl]) -> bool
    ensures { result ≡ list_any is_root kinds.now }
{
    kinds.iter().any(|kind| kind.is_root)
}

fn module_typed(alloc: Global, tree: &Tree) -> Result<Module, TypeFault>
    requires { IsBounded tree.now }
    ensures { Gives (spec.typed tree.now) result }
{
    let kinds = kinds_typed(alloc, tree.kinds.as_slice())?;
    let ops = ops_typed(alloc, kinds.as_slice(), tree.ops.as_slice())?;
    if has_root_kind(kinds.as_slice()) {
        Ok(Module {
            version: tree.version,
            kinds,
            ops,
        })
    } else {
        Err(TypeFault::NoRoots { line: tree.last })
    }
}

/// Checks the names and the types of a tree, and answers the module that it is. The first fault in the order of the
/// text decides. `docs/LANGUAGE.md` tells the rules.
pub fn check(alloc: Global, tree: &Tree) -> Result<Module, TypeFault>
    requires { IsInLimits tree.now }

    // What is answered is the module that the tree is, and the module that a tree is, is answered, unless memory runs out.
    ensures found { IfOk result (Types tree.now) }
    ensures only { (source : ModuleOf) → Types tree.now source → MatchResult result (λ found. found ≡ source) (λ fault. fault ≡ TypeFault.Memory) }

    // A fault is the first one, and where there is one it is answered.
    ensures fault { IfErr result (λ fault. fault ≢ TypeFault.Memory → IsTypeFault tree.now fault) }
    ensures only_fault { (fault : FaultOf) → IsTypeFault tree.now fault → MatchResult result (λ _. ⊥) (λ found. found ≢ TypeFault.Memory → found ≡ fault) }

    // What is answered is a checked module.
    ensures checked { IfOk result IsChecked }
{
    module_typed(alloc, tree)
}

/// That the module that a tree is, is checked: all that it names by a number is there, types fit, and limits hold.
pub fn checked_modules()
    ensures { TypedIsChecked }
{}
