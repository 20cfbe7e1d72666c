// Assignments.
ghost use Rattle.std.specs.Prelude.{◌≡◌, ◌<◌, ℕ, [], ◌∷◌, List, length, IfOk, IfErr, Ok};
ghost use Rattle.arc_base.specs.declared.place.Stop.TheVariants as Stop;
ghost use Rattle.arc_base.specs.Refusal.{Answers, and_then};
ghost use Rattle.nim_tree.specs.declared.stmt.AssignOp.TheVariants.{Set, Join};
ghost use Rattle.nim_tree.specs.Statements as tree;
ghost use Rattle.nim_tree.specs.Terms.{term_of};
ghost use Rattle.nim_types.specs.Types.{Ty, Facts};
ghost use Rattle.nim_types.specs.Table.{type_at, meant};
ghost use Rattle.nim_program.specs.Nodes.{update};
ghost use Rattle.nim_program.specs.View.{expr_of, path_of as path_in};
ghost use Rattle.expr_rules.specs.Answers.{Valued};
ghost use Rattle.expr_rules.specs.Builtins.{write_rule};
ghost use Rattle.expr_rules.specs.Paths.{path_of};
ghost use Rattle.expr_parts.specs.View.{Under, env_of, valued_of, want_of};
ghost use Rattle.expr_parts.specs.ViewReady.{WantWithin};
ghost use Rattle.decl_rules.specs.State.{Around as Near, ResultPlace as Gives, did, does};
ghost use Rattle.decl_rules.specs.Stated.{stated};
ghost use Rattle.decl_rules.specs.Values.{is_target, target_rule, target_at, source_want};
ghost use Rattle.decl_rules.specs.Values.{is_source, source_rule, assigned};
ghost use Rattle.decl_written.specs.ViewWritten.{numbered_of};
ghost use Rattle.decl_parts.specs.View.{steps_of, Ready, AllStatedSo};
ghost use Rattle.decl_stmts.specs.ViewStated.{is_char, assign_source};
ghost use Rattle.decl_stmts.specs.ViewStated.{assign_checked, assign_behind};

use arc_base::{Code, Place, Stop};
use decl_parts::nodes::{does_two, idle_with_two};
use decl_parts::same::is_itself;
use decl_parts::state::State;
use decl_parts::typing::{value_at, value_first};
use decl_parts::values::accepted_if;
use decl_written::values::Numbered;
use expr_parts::kinds::{entry, is_int, is_same, is_text};
use expr_parts::paths::path_of;
use expr_parts::scope::Scope;
use expr_parts::value::{Value, Want, refusal};
use expr_steps::writable::can_be_written;
use nim_program::{Expr, Node, Operand, Operation, Operator, Path, Stmt};
use nim_tree::{AssignOp, Expr as Tree};
use nim_types::{TypeDef, TypeId, TypeTable};
use std::alloc::Global;

fn is_target(op: AssignOp, def: &TypeDef) -> bool
    ensures { (ts : List Ty) → is_target op (meant ts def.now) ≡ result }
{
    match op {
        AssignOp::Set => true,
        AssignOp::Plus | AssignOp::Minus | AssignOp::Times => is_int(def),
        AssignOp::Join => is_text(def),
    }
}

/// A value that an assignment may write to.
fn target_rule(types: &TypeTable, op: AssignOp, value: Value) -> Result<Value, Stop>
    requires { value.ty < length types.now }
    ensures answers { (ts : List Ty) (facts : Facts) → Under types.now ts facts
        → Answers (valued_of ts) (target_rule op (valued_of ts value)) result }
    ensures same { IfOk result (λ v. v ≡ value) }
{
    accepted_if(is_target(op, entry(types, value.ty)), value)
}

// What is written has to be a path that can be.
fn check_target(alloc: Global, scope: &Scope, tree: &Tree, expr: &Expr) -> Result<(), Stop>
    ensures { (ts : List Ty) (facts : Facts) (v : Valued) → v.expr ≡ expr_of ts expr.now
        → Answers (λ _. tt) (write_rule (target_at (env_of ts facts scope.now) (term_of tree.now)
        v)) result }
{
    let writable = can_be_written(alloc, scope, tree, expr)?;
    if !writable {
        return Err(refusal(Code::NotAssignable, expr.node().at));
    }
    Ok(())
}

/// What is wanted behind `=`, `+=` and their like.
fn source_want(op: AssignOp, ty: TypeId) -> Want
    ensures want { (ts : List Ty) → want_of ts result ≡ source_want op (type_at ts ty) }
    ensures within { (n : ℕ) → ty < n → WantWithin n result }
{
    match op {
        AssignOp::Set => Want::Whole(ty),
        AssignOp::Plus => Want::Inner(ty),
        AssignOp::Minus => Want::Inner(ty),
        AssignOp::Times => Want::Inner(ty),
        AssignOp::Join => Want::Inner(ty),
    }
}

fn is_char(def: &TypeDef) -> bool
    ensures { (ts : List Ty) → is_char (meant ts def.now) ≡ result }
{
    matches!(def, TypeDef::Char)
}

// A string takes chars too.
fn is_joined(types: &TypeTable, target: TypeId, ty: TypeId) -> bool
    requires target { target < length types.now }
    requires ty { ty < length types.now }
    ensures { (ts : List Ty) (facts : Facts) → Under types.now ts facts
        → is_source Join (type_at ts target) (type_at ts ty) ≡ result }
{
    if is_char(entry(types, ty)) {
        return true;
    }
    is_same(types, target, ty)
}

fn is_source(types: &TypeTable, op: AssignOp, target: TypeId, ty: TypeId) -> bool
    requires target { target < length types.now }
    requires ty { ty < length types.now }
    ensures { (ts : List Ty) (facts : Facts) → Under types.now ts facts
        → is_source op (type_at ts target) (type_at ts ty) ≡ result }
{
    match op {
        AssignOp::Join => is_joined(types, target, ty),
        _ => is_same(types, target, ty),
    }
}

// What is assigned to itself stays as it is.
fn set(alloc: Global, node: Node, path: Path, value: Expr) -> Result<Vec<Stmt>, Stop>
    ensures list { IfOk result (λ all. (ts : List Ty) → steps_of ts all.items
        ≡ does (assigned Set node (path_in ts path) (expr_of ts value)) ∷ []) }
    ensures memory { IfErr result (λ stop. stop ≡ Stop.Memory) }
{
    if is_itself(&path, &value) {
        return idle_with_two(alloc, node, path, value);
    }
    does_two(
        alloc,
        node,
        Operation::Assign,
        Operand::At(path),
        Operand::Value(value),
    )
}

fn updated(
    alloc: Global,
    node: Node,
    operator: Operator,
    path: Path,
    value: Expr,
) -> Result<Vec<Stmt>, Stop>
    ensures list { IfOk result (λ all. (ts : List Ty) → steps_of ts all.items
        ≡ does (update node operator (path_in ts path) (expr_of ts value)) ∷ []) }
    ensures memory { IfErr result (λ stop. stop ≡ Stop.Memory) }
{
    let operation = Operation::Update(operator);
    does_two(
        alloc,
        node,
        operation,
        Operand::At(path),
        Operand::Value(value),
    )
}

// The statement that writes a value to a path.
fn written(
    alloc: Global,
    node: Node,
    op: AssignOp,
    path: Path,
    value: Expr,
) -> Result<Vec<Stmt>, Stop>
    ensures list { IfOk result (λ all. (ts : List Ty) → steps_of ts all.items
        ≡ does (assigned op node (path_in ts path) (expr_of ts value)) ∷ []) }
    ensures memory { IfErr result (λ stop. stop ≡ Stop.Memory) }
{
    match op {
        AssignOp::Set => set(alloc, node, path, value),
        AssignOp::Plus => updated(alloc, node, Operator::Add, path, value),
        AssignOp::Minus => updated(alloc, node, Operator::Subtract, path, value),
        AssignOp::Times => updated(alloc, node, Operator::Multiply, path, value),
        AssignOp::Join => {
            does_two(
                alloc,
                node,
                Operation::Append,
                Operand::At(path),
                Operand::Value(value),
            )
        }
    }
}

// With the value, where that has been typed.
fn assignment(
    alloc: Global,
    state: &mut State,
    node: Node,
    op: AssignOp,
    target: Value,
    source: Numbered,
) -> Result<Vec<Stmt>, Stop>
    requires ready { Ready state.old }
    requires target { target.ty < length state.old.types }
    requires source { source.value.ty < length state.old.types }
    ensures { AllStatedSo state.old state.new (λ ts st. and_then (source_rule op
        (type_at ts target.ty) (valued_of ts source.value)) (λ v. Ok (did st (assigned op node
        (path_of (expr_of ts target.expr)) v.expr) source.next))) result }
{
    if !is_source(&state.types, op, target.ty, source.value.ty) {
        let at = source.value.expr.node().at;
        drop(target);
        drop(source);
        return Err(refusal(Code::NotTyped, at));
    }
    let path = match path_of(alloc, target.expr) {
        Ok(path) => path,
        Err(stop) => {
            drop(source);
            return Err(stop);
        }
    };
    state.node = source.next;
    written(alloc, node, op, path, source.value.expr)
}

// Behind what is written, whose nodes end before the first number.
fn assign_from(
    alloc: Global,
    state: &mut State,
    node: Node,
    op: AssignOp,
    target: Value,
    first: u32,
    value: &Tree,
) -> Result<Vec<Stmt>, Stop>
    requires ready { Ready state.old }
    requires target { target.ty < length state.old.types }
    ensures { AllStatedSo state.old state.new (λ ts st. assign_source st node op
        (term_of value.now) (valued_of ts target) first) result }
{
    match value_at(alloc, state, source_want(op, target.ty), first, value) {
        Ok(source) => assignment(alloc, state, node, op, target, source),
        Err(stop) => {
            drop(target);
            Err(stop)
        }
    }
}

// Where what is written has been typed, and may be.
fn assign_checked(
    alloc: Global,
    state: &mut State,
    node: Node,
    op: AssignOp,
    tree: &Tree,
    target: Value,
    first: u32,
    value: &Tree,
) -> Result<Vec<Stmt>, Stop>
    requires ready { Ready state.old }
    requires target { target.ty < length state.old.types }
    ensures { AllStatedSo state.old state.new (λ ts st. assign_checked st node op
        (term_of tree.now) (term_of value.now) (valued_of ts target) first) result }
{
    match check_target(alloc, &state.scope, tree, &target.expr) {
        Ok(()) => assign_from(alloc, state, node, op, target, first, value),
        Err(stop) => {
            drop(target);
            Err(stop)
        }
    }
}

// Where what is written has been typed.
fn assign_to(
    alloc: Global,
    state: &mut State,
    node: Node,
    op: AssignOp,
    tree: &Tree,
    given: Numbered,
    value: &Tree,
) -> Result<Vec<Stmt>, Stop>
    requires ready { Ready state.old }
    requires given { given.value.ty < length state.old.types }
    ensures { AllStatedSo state.old state.new (λ ts st. assign_behind st node op
        (term_of tree.now) (term_of value.now) (numbered_of ts given)) result }
{
    let first = given.next;
    match target_rule(&state.types, op, given.value) {
        Ok(target) => assign_checked(alloc, state, node, op, tree, target, first, value),
        Err(stop) => Err(stop),
    }
}

/// An assignment.
pub fn assign(
    alloc: Global,
    state: &mut State,
    at: Place,
    op: AssignOp,
    target: &Tree,
    value: &Tree,
) -> Result<Vec<Stmt>, Stop>
    requires ready { Ready state.old }
    ensures { (a : List Ty → Near) (ends : List Ty → Gives) → AllStatedSo state.old state.new
        (λ ts st. stated (a ts) (ends ts) st (tree.assigns at op (term_of target.now)
        (term_of value.now))) result }
{
    let node = Node {
        number: state.node,
        at,
    };
    match value_first(alloc, state, Want::Nothing, target) {
        Ok(given) => assign_to(alloc, state, node, op, target, given, value),
        Err(stop) => Err(stop),
    }
}
