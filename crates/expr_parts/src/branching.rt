// Values of branches: all of one type, or all without a value.
ghost use Rattle.std.specs.Prelude.{◌≡◌, ◌<◌, ℕ, List, length, IfOk, Some};
ghost use Rattle.arc_base.specs.Refusal.{Answers};
ghost use Rattle.nim_types.specs.Types.{Ty, Facts};
ghost use Rattle.nim_types.specs.Table.{IsBelow};
ghost use Rattle.nim_program.specs.View.{expr_of, if_type};
ghost use Rattle.expr_rules.specs.Answers.{value_of, inner_by, within, wanted};
ghost use Rattle.expr_rules.specs.Choices.{branch_want, same_value, agrees, branching_behind};
ghost use Rattle.expr_rules.specs.Choices.{branch_value, gives_in};
ghost use Rattle.expr_parts.specs.View.{Under, number_of, want_of, branching_of, valued_of};
ghost use Rattle.expr_parts.specs.View.{BranchingWithin};
ghost use Rattle.expr_parts.specs.ViewReady.{WantWithin, BranchesWithin};

use crate::kinds::is_same;
use crate::nodes::type_number;
use crate::value::{Value, Want, refusal};
use arc_base::{Code, Stop};
use nim_program::Expr;
use nim_types::{TypeId, TypeTable};

/// What is known of the values of branches.
#[derive(Clone, Copy)]
pub enum Branching {
    /// There is no branch yet.
    Undecided(Want),
    /// As the first branch, with what is wanted of it.
    Decided(Want, Option<TypeId>),
}

/// What is wanted of a branch, by what the place of all gives.
pub fn inner_by(ty: Option<TypeId>) -> Want
    ensures want { (ts : List Ty) → want_of ts result ≡ inner_by (if_type ts ty) }
    ensures within { (n : ℕ) → IsBelow n ty → WantWithin n result }
{
    match ty {
        Some(ty) => Want::Inner(ty),
        None => Want::Nothing,
    }
}

/// The type that a place gives.
pub fn wanted(want: Want) -> Option<TypeId>
    ensures ty { (ts : List Ty) → if_type ts result ≡ wanted (want_of ts want) }
    ensures within { (n : ℕ) → WantWithin n want → IsBelow n result }
{
    match want {
        Want::Nothing => None,
        Want::Whole(ty) | Want::Inner(ty) => Some(ty),
    }
}

impl Branching {
    /// What is wanted of the next branch.
    pub fn want(self) -> Want
        ensures want { (ts : List Ty) → want_of ts result ≡ branch_want (branching_of ts self) }
    {
        match self {
            Branching::Undecided(want) => want,
            Branching::Decided(Want::Nothing, ty) => inner_by(ty),
            Branching::Decided(want, _) => want,
        }
    }

    /// Behind a branch whose value has the type.
    pub fn behind(self, ty: Option<TypeId>) -> Branching
        ensures branching { (ts : List Ty) →
            branching_of ts result ≡ branching_behind (branching_of ts self) (if_type ts ty) }
        ensures within { (n : ℕ) → IsBelow n ty → BranchesWithin n self
            → BranchesWithin n result }
    {
        match self {
            Branching::Undecided(want) => Branching::Decided(want, ty),
            decided => decided,
        }
    }

    /// The type that all branches have.
    pub fn gives(self) -> Option<TypeId>
        ensures ty { (ts : List Ty) → if_type ts result ≡ gives_in (branching_of ts self) }
        ensures within { (n : ℕ) → BranchesWithin n self → IsBelow n result }
    {
        match self {
            Branching::Undecided(_) => None,
            Branching::Decided(_, ty) => ty,
        }
    }
}

fn same_value(types: &TypeTable, a: Option<TypeId>, b: Option<TypeId>) -> bool
    requires a { IsBelow (length types.now) a }
    requires b { IsBelow (length types.now) b }
    ensures { (ts : List Ty) (facts : Facts) → Under types.now ts facts
        → same_value (if_type ts a) (if_type ts b) ≡ result }
{
    match (a, b) {
        (None, None) => true,
        (Some(a), Some(b)) => is_same(types, a, b),
        _ => false,
    }
}

fn agrees(types: &TypeTable, branching: Branching, ty: Option<TypeId>) -> bool
    requires branching { BranchingWithin (length types.now) branching }
    requires ty { IsBelow (length types.now) ty }
    ensures { (ts : List Ty) (facts : Facts) → Under types.now ts facts
        → agrees (branching_of ts branching) (if_type ts ty) ≡ result }
{
    match branching {
        Branching::Undecided(_) => true,
        Branching::Decided(_, first) => same_value(types, first, ty),
    }
}

/// The value of a branch, which is refused where it isn't as the first one.
pub fn branch_value(types: &TypeTable, branching: Branching, expr: Expr) -> Result<Expr, Stop>
    requires branching { BranchingWithin (length types.now) branching }
    requires expr { IsBelow (length types.now) (number_of expr) }
    ensures answers { (ts : List Ty) (facts : Facts) → Under types.now ts facts
        → Answers (expr_of ts) (branch_value (branching_of ts branching) (expr_of ts expr)) result }
    ensures same { IfOk result (λ e. e ≡ expr) }
{
    if !agrees(types, branching, type_number(&expr)) {
        let at = expr.node().at;
        drop(expr);
        return Err(refusal(Code::NotTyped, at));
    }
    Ok(expr)
}

/// An expression that has to give a value.
pub fn value_of(expr: Expr) -> Result<Value, Stop>
    ensures answers { (ts : List Ty) → Answers (valued_of ts) (value_of (expr_of ts expr)) result }
    ensures number { IfOk result (λ v. number_of expr ≡ Some v.ty) }
{
    match type_number(&expr) {
        Some(ty) => Ok(Value {
            expr,
            ty,
            writable: false,
        }),
        None => {
            let at = expr.node().at;
            drop(expr);
            Err(refusal(Code::NotTyped, at))
        }
    }
}
