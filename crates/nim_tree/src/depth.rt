// How deep blocks stand inside one another.
ghost use Rattle.std.specs.Prelude.{◌≡◌, ◌-◌, ◌^◌, min};
ghost use Rattle.nim_tree.specs.Statements.{tree_of, statement_of, statements_of, branches_of, handlers_of};
ghost use Rattle.nim_tree.specs.Statements.{block_levels_of, block_levels, levels_if_block, branch_block_levels};
ghost use Rattle.nim_tree.specs.Statements.{handler_block_levels};

use crate::{Branch, Handler, Module, Stmt};

/// The most blocks that stand inside one another, or 4,294,967,295 where there are more.
pub fn block_depth(tree: &Module) -> u32
    ensures { result ≡ min (block_levels (tree_of tree.now)) (2 ^ 32 - 1) }
{
    blocks_in(&tree.body)
}

#[cycle(blocks)]
fn blocks_of(statement: &Stmt) -> u32
    ensures { result ≡ min (block_levels_of (statement_of statement.now)) (2 ^ 32 - 1) }
{
    match statement {
        Stmt::Discard { .. }
        | Stmt::Return { .. }
        | Stmt::Raise { .. }
        | Stmt::Break { .. }
        | Stmt::Continue { .. }
        | Stmt::Import { .. }
        | Stmt::Eval { .. }
        | Stmt::Assign { .. }
        | Stmt::Command { .. }
        | Stmt::Define { .. }
        | Stmt::Types { .. } => 0,
        Stmt::If { .. } | Stmt::Case { .. } => blocks_in_branches(statement.branches())
            .max(blocks_in(statement.closing()))
            .saturating_add(1),
        Stmt::While { .. } | Stmt::For { .. } | Stmt::Defer { .. } => {
            blocks_in(statement.body()).saturating_add(1)
        }
        Stmt::Try { .. } => blocks_in(statement.body())
            .max(blocks_in_handlers(statement.handlers()))
            .max(blocks_in(statement.closing()))
            .saturating_add(1),
        Stmt::Proc { .. } => blocks_with(statement.body()),
    }
}

// The blocks of the statement that has most.
#[cycle(blocks)]
fn blocks_in(statements: &[Stmt]) -> u32
    ensures { result ≡ min (block_levels (statements_of statements.now)) (2 ^ 32 - 1) }
{
    let mut most = 0;
    for statement in statements {
        most = blocks_of(statement).max(most);
    }
    most
}

// The block itself too, where it is there.
#[cycle(blocks)]
#[tactic(auto, using(crate::proofs::Blocks::block_there))]
fn blocks_with(block: &[Stmt]) -> u32
    ensures { result ≡ min (levels_if_block (statements_of block.now)) (2 ^ 32 - 1) }
{
    if block.is_empty() {
        0
    } else {
        blocks_in(block).saturating_add(1)
    }
}

#[cycle(blocks)]
fn blocks_in_branches(branches: &[Branch]) -> u32
    ensures { result ≡ min (branch_block_levels (branches_of branches.now)) (2 ^ 32 - 1) }
{
    let mut most = 0;
    for branch in branches {
        most = blocks_in(&branch.body).max(most);
    }
    most
}

#[cycle(blocks)]
fn blocks_in_handlers(handlers: &[Handler]) -> u32
    ensures { result ≡ min (handler_block_levels (handlers_of handlers.now)) (2 ^ 32 - 1) }
{
    let mut most = 0;
    for handler in handlers {
        most = blocks_in(&handler.body).max(most);
    }
    most
}
