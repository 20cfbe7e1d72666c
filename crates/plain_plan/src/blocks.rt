// The sites of statements.
ghost use Rattle.std.specs.Prelude.{◌≡◌};
ghost use Rattle.nim_program.specs.Program.{Empty, NoArg};
ghost use Rattle.nim_program.specs.View.{declared_of, kind_of, operands_of, if_value, stmt_before};
ghost use Rattle.nim_program.specs.View.{stmts_of, branch_conditions, branch_blocks, branch_labels};
ghost use Rattle.nim_program.specs.View.{case_blocks};
ghost use Rattle.plain_plan.specs.Adding.{Adds};
ghost use Rattle.nim_meaning.specs.TreeSites.{declared_sites, condition_sites, element_sites};
ghost use Rattle.nim_meaning.specs.TreeSites.{loop_sites, block_sites, branch_sites, arm_sites};
ghost use Rattle.plain_plan.specs.Views.{types_of, facts_of, modes_of, is_defer};

use crate::around::{Around, Uses};
use crate::found::Found;
use crate::known::{has_path_node, is_hooked};
use crate::values::{add_operands, add_selector, add_value};
use nim_program::{Branch, CaseBranch, Expr, Kind, Operand, PlaceDecl, Stmt, Use};

fn is_defer(stmt: &Stmt) -> bool
    ensures { result ≡ is_defer stmt.now }
{
    matches!(stmt, Stmt::Defer { .. })
}

/// Adds the sites of a block. Behind a `defer` nothing has acts yet.
#[cycle(blocks)]
pub fn add_block(found: &mut Found, around: &Around, block: &Vec<Stmt>)
    ensures { Adds found.old found.new (block_sites (facts_of around.now) (modes_of around.now)
        (stmts_of (types_of around.now) block.now.items)) }
{
    for stmt in block {
        if is_defer(stmt) {
            return;
        }
        add_stmt(found, around, stmt);
    }
}

// A statement alone.
#[cycle(blocks)]
fn add_stmt(found: &mut Found, around: &Around, stmt: &Stmt)
    ensures { Adds found.old found.new (block_sites (facts_of around.now) (modes_of around.now)
        (stmt_before (types_of around.now) stmt.now Empty)) }
{
    match stmt {
        Stmt::Do { value } => add_value(found, around, value, Use::Owned),
        Stmt::Give { value, .. } => add_value(found, around, value, Use::Given),
        Stmt::Declare { value, .. } => add_declared(found, around, value),
        Stmt::If {
            branches,
            otherwise,
            ..
        } => {
            add_branches(found, around, branches);
            add_block(found, around, otherwise)
        }
        Stmt::Case {
            selector,
            branches,
            otherwise,
            ..
        } => {
            add_selector(found, around, selector);
            add_arms(found, around, branches);
            add_block(found, around, otherwise)
        }
        Stmt::Loop {
            kind,
            head,
            body,
            ..
        } => {
            add_loop(found, around, kind, head);
            add_block(found, around, body)
        }
        Stmt::Idle { .. }
        | Stmt::Leave { .. }
        | Stmt::Raise { .. }
        | Stmt::Try { .. }
        | Stmt::Defer { .. } => {}
    }
}

// Of the value of a declared place, where it has one.
fn add_declared(found: &mut Found, around: &Around, value: &Option<Expr>)
    ensures { Adds found.old found.new (declared_sites (facts_of around.now)
        (modes_of around.now) (if_value (types_of around.now) value.now)) }
{
    match value {
        None => {}
        Some(value) => add_value(found, around, value, Use::Given),
    }
}

#[cycle(blocks)]
fn add_branches(found: &mut Found, around: &Around, branches: &Vec<Branch>)
    ensures { Adds found.old found.new (branch_sites (facts_of around.now) (modes_of around.now)
        (branch_conditions (types_of around.now) branches.now.items)
        (branch_blocks (types_of around.now) branches.now.items Empty)) }
{
    for branch in branches {
        add_value(found, around, &branch.condition, Use::Owned);
        add_block(found, around, &branch.body);
    }
}

#[cycle(blocks)]
fn add_arms(found: &mut Found, around: &Around, branches: &Vec<CaseBranch>)
    ensures { Adds found.old found.new (arm_sites (facts_of around.now) (modes_of around.now)
        (branch_labels branches.now.items)
        (case_blocks (types_of around.now) branches.now.items Empty)) }
{
    for branch in branches {
        add_block(found, around, &branch.body);
    }
}

// ---- loops

// Of the head of a loop, and of what its turns begin with.
fn add_loop(found: &mut Found, around: &Around, kind: &Kind, head: &Vec<Operand>)
    ensures { Adds found.old found.new (loop_sites (facts_of around.now) (modes_of around.now)
        (kind_of (types_of around.now) kind.now)
        (operands_of (types_of around.now) head.now.items)) }
{
    match kind {
        Kind::While => add_condition(found, around, head),
        Kind::Count { .. } => add_operands(found, around, head, Uses::All(Use::Owned)),
        Kind::Each { variable } => {
            add_operands(found, around, head, Uses::All(Use::Owned));
            add_element(found, around, variable, head)
        }
    }
}

fn add_condition(found: &mut Found, around: &Around, head: &Vec<Operand>)
    ensures { Adds found.old found.new (condition_sites (facts_of around.now)
        (modes_of around.now) (operands_of (types_of around.now) head.now.items)) }
{
    if head.is_empty() {
        return;
    }
    match &head[0] {
        Operand::Value(condition) => add_value(found, around, condition, Use::Owned),
        Operand::At(_) => {}
    }
}

// Where a turn borrows or copies an element.
fn add_element(found: &mut Found, around: &Around, variable: &PlaceDecl, head: &Vec<Operand>)
    ensures { Adds found.old found.new (element_sites (facts_of around.now)
        (modes_of around.now) (declared_of (types_of around.now) variable.now)
        (operands_of (types_of around.now) head.now.items)) }
{
    if head.is_empty() {
        return;
    }
    match &head[0] {
        Operand::At(path) => {
            if is_hooked(around, variable.ty) && has_path_node(path) {
                found.add(path.node().number)
            }
        }
        Operand::Value(_) => {}
    }
}
