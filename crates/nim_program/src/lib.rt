//! The typed program: its tree, its table of operations, and what is summed up over it.
#![tactic(auto)]

mod counts;
mod expr;
mod finds;
mod fold;
mod fold_exprs;
mod fold_stmts;
mod laws;
mod laws_of_ints;
mod nodes;
mod operation;
mod program;
mod sizes;
mod stmt;
mod text_sizes;
mod typed;

pub use counts::{Count, count_block, count_expr, count_operands, count_path, count_stmt};
pub use expr::{Choice, Expr, Label, Literal, Node, Operand, Path, Pick};
pub use finds::{Find, find_in_block, find_in_expr};
pub use fold::Fold;
pub use fold_exprs::{total, total_at, totals};
pub use fold_stmts::total_of;
pub use laws::{fold_examples, typed_examples};
pub use laws_of_ints::ints;
pub use nodes::{MOST_NODES, find_node, greatest_node, node_count};
pub use operation::{Comparison, Measure, Operation, Operator, Short, UnaryOperator, Use};
pub use program::{ACTIVE_CALLS, Body, HookOf, Mode, Param, Proc, Program};
pub use sizes::{MOST_BYTES, body_bytes, global_marks};
pub use stmt::{Branch, CaseBranch, Handler, Kind, Leaving, PlaceDecl, Stmt};
pub use text_sizes::{MOST_DATA, text_bytes};
