//! Modules, as they are once read and checked.

use crate::statements::Block;
use sqlite_items::Items;

/// The bytes of a name in a declaration.
pub type Text = Items<u8>;

/// What a field or a local may hold: a number, or a reference to an object of the kind of this number.
#[derive(Clone, Copy, Debug, PartialEq, Eq)]
pub enum Ty {
    Int,
    Of(u32),
}

/// A module. Kinds, fields, operations and locals are named by their numbers from 0 in the order of declaration,
/// an operation's parameters before its vars.
#[derive(Debug, Drop)]
pub struct Module {
    /// The version of the language.
    pub version: u32,
    pub kinds: Items<KindDecl>,
    pub ops: Items<OpDecl>,
}

/// The declaration of a kind of objects.
#[derive(Debug, Drop)]
pub struct KindDecl {
    pub name: Text,
    pub is_root: bool,
    /// The number of the first root of a root kind in the row of all roots; 0 for a node kind.
    pub first: u32,
    /// The number of roots of a root kind; 0 for a node kind.
    pub count: u32,
    pub fields: Items<FieldDecl>,
}

/// The declaration of a field.
#[derive(Debug, Drop)]
pub struct FieldDecl {
    pub name: Text,
    pub ty: Ty,
}

/// The declaration of an operation.
#[derive(Debug, Drop)]
pub struct OpDecl {
    pub name: Text,
    pub params: Items<LocalDecl>,
    pub vars: Items<LocalDecl>,
    /// The number of objects that the operation may make, and so of places that it reserves.
    pub allocs: u32,
    /// The number of turns that the operation has: each loop test takes one.
    pub fuel: u32,
    pub body: Block,
}

/// The declaration of a parameter or a var.
#[derive(Debug, Drop)]
pub struct LocalDecl {
    pub name: Text,
    pub ty: Ty,
}
