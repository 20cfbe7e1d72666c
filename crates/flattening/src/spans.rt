// How many numbers the parts of a body have, and which come behind them. None where there are more
// parts than a source can have.
ghost use Rattle.std.specs.Prelude.{◌≡◌, ◌≤◌, ◌+◌, suc, Bool, List, length, IfSome};
ghost use Rattle.nim_types.specs.Types.{Ty};
ghost use Rattle.nim_program.specs.View.{expr_of, path_of, operand_before, operands_of, kind_of};
ghost use Rattle.nim_program.specs.View.{stmt_before, stmts_of};
ghost use Rattle.nim_program.specs.Program.{Label, ByLabels, NoArg, Empty};
ghost use Rattle.nim_program.specs.Folds.{Choosing, Looping, numbers, capped, looked_type};
ghost use Rattle.nim_program.specs.FoldParts.{seen_of, seen_at, seen_first, own_if};
ghost use Rattle.flattening.specs.Numbering.{looked_count, read_count, part_width, own_width, width, width_at};
ghost use Rattle.flattening.specs.Numbering.{widths, width_of, selector_from, behind_selector, label};
ghost use Rattle.flattening.specs.Views.{types_of, behind, is_defer};
ghost use Rattle.flattening.specs.declared.spans.TheConstants.{MOST};

use crate::around::Around;
use crate::numbers::{PURPOSES, Purpose};
use nim_program::{
    CaseBranch, Count, Expr, Kind, Operand, Path, Pick, PlaceDecl, Stmt, count_block, count_expr,
    count_operands, count_path, count_stmt,
};

/// The greatest number of a temporary.
pub const MOST: u32 = 1_073_741_823;

// Counts parts.
#[derive(Drop)]
struct Parts<'a> {
    around: &'a Around<'a>,
}

impl<'a> Count for Parts<'a> {
    ghost most = { λ s. MOST };

    ghost types = { λ s. types_of s.around.now };

    ghost own = { λ s. own_width };

    fn most(&self) -> u32 {
        MOST
    }

    fn of_expr(&self, expr: &Expr) -> u32 {
        expr_width(expr)
    }

    fn of_path(&self, path: &Path, read: bool) -> u32 {
        path_width(path, read)
    }

    fn of_stmt(&self, stmt: &Stmt) -> u32 {
        stmt_width(stmt)
    }

    fn of_handler(&self, _name: &Option<PlaceDecl>) -> u32 {
        1
    }
}

// Of an expression alone.
fn expr_width(expr: &Expr) -> u32
    ensures { (ts : List Ty) → result ≡ capped MOST
        (own_if numbers own_width (seen_of (expr_of ts expr.now))) }
{
    match expr {
        Expr::Read { .. } => 0,
        Expr::Case {
            selector,
            branches,
            ..
        } => {
            let selector = &**selector;
            case_width(selector, branches.len())
        }
        _ => 1,
    }
}

// Of the value of a path that is read.
fn read_count(read: bool) -> u32
    ensures count { result ≡ read_count read }
    ensures small { result ≤ 1 }
{
    if read { 1 } else { 0 }
}

// Of a step of a path.
fn path_width(path: &Path, read: bool) -> u32
    ensures { (ts : List Ty) → result ≡ capped MOST
        (own_width (seen_at read (path_of ts path.now))) }
{
    1 + read_count(read)
}

// Of a statement alone.
fn stmt_width(stmt: &Stmt) -> u32
    ensures { (ts : List Ty) → result ≡ capped MOST
        (own_if numbers own_width (seen_first (stmt_before ts stmt.now Empty))) }
{
    match stmt {
        Stmt::Do { .. } => 0,
        Stmt::Case {
            selector,
            branches,
            ..
        } => case_width(selector, branches.len()),
        Stmt::Loop { kind, .. } => loop_width(kind),
        _ => 1,
    }
}

// Of the value of a selector that is read in place.
fn looked_count(selector: &Operand) -> u32
    ensures count { (ts : List Ty) (labels : List (List Label)) → result ≡ looked_count
        (looked_type (ByLabels labels) (operand_before ts selector.now NoArg)) }
    ensures small { result ≤ 1 }
{
    match selector {
        Operand::Value(_) => 0,
        Operand::At(path) => match path.ty() {
            None => 0,
            Some(_) => 1,
        },
    }
}

// Of a `case` alone, with so many arms.
fn case_width(selector: &Operand, arms: usize) -> u32
    ensures { (ts : List Ty) (labels : List (List Label)) → length labels ≡ arms → result ≡ capped MOST
        (part_width (Choosing (ByLabels labels)
        (looked_type (ByLabels labels) (operand_before ts selector.now NoArg)))) }
{
    if arms >= MOST as usize {
        return MOST + 1;
    }
    1 + arms as u32 + looked_count(selector)
}

// Of a loop alone.
fn loop_width(kind: &Kind) -> u32
    ensures { (ts : List Ty) (headed : Bool) → result ≡ capped MOST
        (part_width (Looping (kind_of ts kind.now) headed)) }
{
    match kind {
        Kind::While | Kind::Count { .. } => 1,
        Kind::Each { .. } => 3,
    }
}

/// A number that comes so many behind another one.
pub fn behind(t: u32, width: u32) -> Option<u32>
    ensures number { IfSome result (λ u. u ≡ t + width) }
    ensures small { IfSome result (λ u. width ≤ MOST) }
{
    if width > MOST || t > MOST - width {
        return None;
    }
    Some(t + width)
}

/// The next number.
pub fn next(t: u32) -> Option<u32>
    ensures { IfSome result (λ u. u ≡ suc t) }
{
    behind(t, 1)
}

/// Behind a value whose numbers begin with t.
pub fn behind_value(around: &Around, t: u32, value: &Expr) -> Option<u32>
    ensures { IfSome result (λ u. u ≡ t + width (expr_of (types_of around.now) value.now)) }
{
    behind(t, count_expr(&Parts { around }, value))
}

/// Behind a path that is looked up.
pub fn behind_path(around: &Around, t: u32, path: &Path) -> Option<u32>
    ensures { IfSome result (λ u. u ≡ t + width_at (path_of (types_of around.now) path.now)) }
{
    behind(t, count_path(&Parts { around }, path, false))
}

/// Behind an operand.
pub fn behind_operand(around: &Around, t: u32, operand: &Operand) -> Option<u32>
    ensures { IfSome result (λ u. u
        ≡ behind (operand_before (types_of around.now) operand.now NoArg) t) }
{
    match operand {
        Operand::Value(value) => behind_value(around, t, value),
        Operand::At(path) => behind_path(around, t, path),
    }
}

/// Behind operands.
pub fn behind_operands(around: &Around, t: u32, operands: &Vec<Operand>) -> Option<u32>
    ensures { IfSome result (λ u. u
        ≡ t + widths (operands_of (types_of around.now) operands.now.items)) }
{
    behind(t, count_operands(&Parts { around }, operands))
}

/// Where the part of a selector begins whose value has number s: behind that of one that is read in
/// place.
pub fn selector_from(s: u32, selector: &Operand) -> Option<u32>
    ensures { (ts : List Ty) → IfSome result (λ u. u
        ≡ selector_from (operand_before ts selector.now NoArg) s) }
{
    behind(s, looked_count(selector))
}

/// Behind a selector whose value has number s.
pub fn behind_selector(around: &Around, s: u32, selector: &Operand) -> Option<u32>
    ensures { IfSome result (λ u. u
        ≡ behind_selector (operand_before (types_of around.now) selector.now NoArg) s) }
{
    match selector_from(s, selector) {
        None => None,
        Some(from) => behind_operand(around, from, selector),
    }
}

/// Behind the numbers of the arms of a `case` that gives a value, one for each.
pub fn behind_picks(t: u32, branches: &Vec<Pick>) -> Option<u32>
    ensures { IfSome result (λ u. u ≡ t + length branches.now.items) }
{
    if branches.len() > MOST as usize {
        return None;
    }
    behind(t, branches.len() as u32)
}

/// Behind the numbers of the arms of a `case`, one for each.
pub fn behind_cases(t: u32, branches: &Vec<CaseBranch>) -> Option<u32>
    ensures { IfSome result (λ u. u ≡ t + length branches.now.items) }
{
    if branches.len() > MOST as usize {
        return None;
    }
    behind(t, branches.len() as u32)
}

/// Behind a statement.
pub fn behind_stmt(around: &Around, t: u32, stmt: &Stmt) -> Option<u32>
    ensures { IfSome result (λ u. u
        ≡ t + width_of (stmt_before (types_of around.now) stmt.now Empty)) }
{
    behind(t, count_stmt(&Parts { around }, stmt))
}

/// Behind a block.
pub fn behind_block(around: &Around, t: u32, block: &Vec<Stmt>) -> Option<u32>
    ensures { IfSome result (λ u. u
        ≡ t + width_of (stmts_of (types_of around.now) block.now.items)) }
{
    behind(t, count_block(&Parts { around }, block))
}

/// Whether it is a `defer`, behind which nothing has lines yet.
pub fn is_defer(stmt: &Stmt) -> bool
    ensures { result ≡ is_defer stmt.now }
{
    matches!(stmt, Stmt::Defer { .. })
}

/// The label of a number for a purpose.
pub fn label(purpose: Purpose, t: u32) -> Option<u32>
    ensures { IfSome result (λ name. name ≡ label purpose t) }
{
    if t > MOST {
        return None;
    }
    let start = PURPOSES * t;
    Some(match purpose {
        Purpose::Arm => start,
        Purpose::End => start + 1,
        Purpose::Next => start + 2,
        Purpose::Turn => start + 3,
    })
}
