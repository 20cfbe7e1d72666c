// The first node of a program that is left out of what is built.
ghost use Rattle.std.specs.Prelude.{◌≡◌, ◌∷◌, [], false, List, map, option_map};
ghost use Rattle.nim_types.specs.Types.{Ty};
ghost use Rattle.nim_types.specs.Table.{type_at};
ghost use Rattle.nim_program.specs.Program.{Stmts};
ghost use Rattle.nim_program.specs.Program as trees;
ghost use Rattle.nim_program.specs.Folds.{if_declared, loop_places};
ghost use Rattle.nim_program.specs.View.{stmt_before, stmts_of, if_value, operands_of};
ghost use Rattle.nim_program.specs.View.{branch_conditions, branch_blocks, case_blocks, kind_of};
ghost use Rattle.nim_program.specs.View.{declared_of, param_of, body_of, proc_of, program_under};
ghost use Rattle.nim_meaning.specs.Unbuilt.{is_unbuilt, gives_unbuilt};
ghost use Rattle.nim_meaning.specs.LeftOut.{left_out_in_args, left_out_in_block};
ghost use Rattle.nim_meaning.specs.LeftOut.{left_out_in_blocks, left_out_in_head};
ghost use Rattle.nim_meaning.specs.LeftOut.{left_out_in_body, left_out_in_procs, first_of};
ghost use Rattle.nim_meaning.specs.LeftOut.{any_place_unbuilt, first_unbuilt, first_left_out};
ghost use Rattle.nim_meaning.specs.LeftOut.{earlier, out_if, ◌or_then◌};
ghost use Rattle.program_limits.specs.Known.{known_types, known_facts};

use crate::known::Known;
use crate::lacking::{of_expr, of_operand, of_operands, operand_type};
use crate::parts::{earlier, either, if_unbuilt, or_then, out_if};
use crate::types::{gives_unbuilt, is_unbuilt};
use arc_base::Place;
use nim_program::{
    Body, Branch, CaseBranch, Expr, Kind, Node, Operand, Param, PlaceDecl, Proc, Program, Stmt,
};

// ---- statements

fn of_value(known: &Known, value: &Option<Expr>) -> Option<Node>
    ensures { result ≡ left_out_in_args (known_facts known.now)
        (if_value (known_types known.now) value.now) }
{
    match value {
        None => None,
        Some(value) => of_expr(known, value),
    }
}

// Whether the first condition has no code.
fn first_unbuilt(known: &Known, branches: &Vec<Branch>) -> bool
    ensures { result ≡ first_unbuilt (known_facts known.now)
        (trees.types_in (branch_conditions (known_types known.now) branches.now.items)) }
{
    if branches.is_empty() {
        return false;
    }
    gives_unbuilt(known, branches[0].condition.ty())
}

// Whether the first part of a loop's head has no code.
fn head_unbuilt(known: &Known, head: &Vec<Operand>) -> bool
    ensures { result ≡ first_unbuilt (known_facts known.now)
        (trees.types_in (operands_of (known_types known.now) head.now.items)) }
{
    if head.is_empty() {
        return false;
    }
    gives_unbuilt(known, operand_type(&head[0]))
}

// Whether the variable of a loop has no code.
fn variable_unbuilt(known: &Known, kind: &Kind) -> bool
    ensures { result ≡ any_place_unbuilt (known_facts known.now)
        (loop_places (kind_of (known_types known.now) kind.now)) }
{
    match kind {
        Kind::While => false,
        Kind::Count { variable, .. } => is_unbuilt(known, variable.ty),
        Kind::Each { variable } => is_unbuilt(known, variable.ty),
    }
}

#[cycle(plain)]
fn of_stmt(known: &Known, stmt: &Stmt) -> Option<Node>
    ensures { (rest : Stmts) → left_out_in_block (known_facts known.now)
        (stmt_before (known_types known.now) stmt.now rest)
        ≡ (result or_then left_out_in_block (known_facts known.now) rest) }
{
    match stmt {
        Stmt::Do { value } => of_expr(known, value),
        Stmt::Idle { parts, .. } => of_operands(known, parts),
        Stmt::Give { value, .. } => of_expr(known, value),
        Stmt::Leave { parts, .. } => of_operands(known, parts),
        Stmt::Declare {
            node,
            place,
            value,
            ..
        } => or_then(if_unbuilt(known, place.ty, *node), of_value(known, value)),
        Stmt::If {
            node,
            branches,
            otherwise,
        } => {
            let here = out_if(first_unbuilt(known, branches), *node);
            let blocks = or_then(of_branches(known, branches), of_block(known, otherwise));
            or_then(here, earlier(of_conditions(known, branches), blocks))
        }
        Stmt::Case {
            node,
            selector,
            branches,
            otherwise,
        } => {
            let here = out_if(gives_unbuilt(known, operand_type(selector)), *node);
            let blocks = or_then(of_arms(known, branches), of_block(known, otherwise));
            or_then(here, earlier(of_operand(known, selector), blocks))
        }
        Stmt::Loop {
            node,
            kind,
            head,
            body,
        } => {
            let unbuilt = either(variable_unbuilt(known, kind), head_unbuilt(known, head));
            let here = out_if(unbuilt, *node);
            let inside = or_then(of_operands(known, head), of_block(known, body));
            or_then(here, inside)
        }
        Stmt::Raise { node, .. } | Stmt::Try { node, .. } | Stmt::Defer { node, .. } => {
            Some(*node)
        }
    }
}

#[cycle(plain)]
fn of_block(known: &Known, block: &Vec<Stmt>) -> Option<Node>
    ensures { result ≡ left_out_in_block (known_facts known.now)
        (stmts_of (known_types known.now) block.now.items) }
{
    for stmt in block {
        if let Some(node) = of_stmt(known, stmt) {
            return Some(node);
        }
    }
    None
}

fn of_conditions(known: &Known, branches: &Vec<Branch>) -> Option<Node>
    ensures { result ≡ left_out_in_args (known_facts known.now)
        (branch_conditions (known_types known.now) branches.now.items) }
{
    for branch in branches {
        if let Some(node) = of_expr(known, &branch.condition) {
            return Some(node);
        }
    }
    None
}

#[cycle(plain)]
fn of_branches(known: &Known, branches: &Vec<Branch>) -> Option<Node>
    ensures { (rest : Stmts) → left_out_in_blocks (known_facts known.now)
        (branch_blocks (known_types known.now) branches.now.items rest)
        ≡ (result or_then left_out_in_block (known_facts known.now) rest) }
{
    for branch in branches {
        if let Some(node) = of_block(known, &branch.body) {
            return Some(node);
        }
    }
    None
}

#[cycle(plain)]
fn of_arms(known: &Known, arms: &Vec<CaseBranch>) -> Option<Node>
    ensures { (rest : Stmts) → left_out_in_blocks (known_facts known.now)
        (case_blocks (known_types known.now) arms.now.items rest)
        ≡ (result or_then left_out_in_block (known_facts known.now) rest) }
{
    for arm in arms {
        if let Some(node) = of_block(known, &arm.body) {
            return Some(node);
        }
    }
    None
}

// ---- bodies

/// The number of the first node of a block; 0 of one without any.
pub fn first_number(block: &Vec<Stmt>) -> u32
    ensures { (ts : List Ty) → result ≡ first_of (stmts_of ts block.now.items) }
{
    if block.is_empty() {
        return 0;
    }
    block[0].node().number
}

// A place of a head, which counts as the first node of the body.
fn of_place(known: &Known, number: u32, place: &PlaceDecl) -> Option<Node>
    ensures { result ≡ out_if (is_unbuilt (known_facts known.now)
        (type_at (known_types known.now) place.now.ty))
        (record { number = number; at = place.now.at }) }
{
    let node = Node {
        number,
        at: place.at,
    };
    if_unbuilt(known, place.ty, node)
}

fn of_params(known: &Known, number: u32, params: &[Param]) -> Option<Node>
    ensures { result ≡ left_out_in_head (known_facts known.now) number
        (map (λ param. param.place) (map (param_of (known_types known.now)) params.now)) }
{
    for param in params {
        if let Some(node) = of_place(known, number, &param.place) {
            return Some(node);
        }
    }
    None
}

fn of_result(known: &Known, number: u32, place: &Option<PlaceDecl>) -> Option<Node>
    ensures { result ≡ left_out_in_head (known_facts known.now) number
        (if_declared (option_map (declared_of (known_types known.now)) place.now)) }
{
    match place {
        None => None,
        Some(place) => of_place(known, number, place),
    }
}

fn of_body(known: &Known, params: &[Param], body: &Body) -> Option<Node>
    ensures { result ≡ left_out_in_body (known_facts known.now)
        (map (param_of (known_types known.now)) params.now)
        (body_of (known_types known.now) body.now) }
{
    let number = first_number(&body.stmts);
    or_then(
        of_params(known, number, params),
        or_then(
            of_result(known, number, &body.result),
            of_block(known, &body.stmts),
        ),
    )
}

// ---- programs

fn of_proc(known: &Known, proc: &Proc) -> Option<Node>
    ensures { result ≡ left_out_in_procs (known_facts known.now)
        (proc_of (known_types known.now) proc.now ∷ []) }
{
    match &proc.body {
        None => None,
        Some(body) => of_body(known, proc.params.as_slice(), body),
    }
}

fn of_procs(known: &Known, procs: &Vec<Proc>) -> Option<Node>
    ensures { result ≡ left_out_in_procs (known_facts known.now)
        (map (proc_of (known_types known.now)) procs.now.items) }
{
    let mut found = None;
    for proc in procs {
        found = earlier(found, of_proc(known, proc));
    }
    found
}

/// Where the first node in order of text stands whose meaning isn't built: refs,
/// exceptions and hooks. None where the whole meaning of the program is built.
pub fn first_left_out(known: &Known, program: &Program) -> Option<Place>
    ensures { result ≡ first_left_out
        (program_under (known_types known.now) (known_facts known.now) program.now) }
{
    let found = earlier(
        of_procs(known, &program.procs),
        of_body(known, &[], &program.start),
    );
    match found {
        None => None,
        Some(node) => Some(node.at),
    }
}
