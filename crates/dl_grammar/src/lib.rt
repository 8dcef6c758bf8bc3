//! The module language: its grammar with its limits, its trees, and the reader of module texts, which accepts what the
//! grammar spells and nothing else, and else names the first fault. `docs/LANGUAGE.md` tells the grammar.
#![tactic(auto)]

mod cursor;
mod declarations;
mod expressions;
mod fault;
mod lexeme;
mod module;
mod sides;
mod statements;
mod tree;

pub use declarations::Declared;
pub use fault::{Bound, Fault, SyntaxFault, Which};
pub use lexeme::{Fixed, Lexeme, Lexis};
pub use module::{one_module, read_module};
pub use tree::{
    Rhs, Side, Tree, TreeBlock, TreeCond, TreeExpr, TreeField, TreeKind, TreeOp, TreeStmt, What,
    Word,
};
