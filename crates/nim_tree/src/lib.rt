//! The trees of a module.
#![tactic(auto)]

mod count;
mod depth;
mod expr;
mod laws;
mod name;
mod part_count;
mod part_depth;
mod stmt;
mod term_depth;
mod types;

pub use count::nodes;
pub use depth::block_depth;
pub use expr::{BinaryOp, Choice, Expr, UnaryOp};
pub use laws::{expr_trees, statement_trees, type_trees};
pub use name::{Declared, Name, Pragma, PragmaKind};
pub use stmt::{
    AssignOp, Binding, Branch, Def, Handler, Import, Module, Over, Param, ParamMode, ProcHead, Stmt,
};
pub use term_depth::expr_depth;
pub use types::{Field, TypeBody, TypeDef, TypeTree};
