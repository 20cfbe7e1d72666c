// Values in statements.
ghost use Rattle.std.specs.Prelude.{◌≡◌, ◌<◌, ℕ, List, length, IfOk, Ok, Some};
ghost use Rattle.arc_base.specs.Refusal.{Answers, and_then};
ghost use Rattle.nim_types.specs.Types.{Ty, Facts};
ghost use Rattle.nim_types.specs.Table.{type_at, meant, IsBelow};
ghost use Rattle.nim_program.specs.View.{expr_of, if_type};
ghost use Rattle.expr_rules.specs.Answers.{value_of};
ghost use Rattle.expr_rules.specs.Demands.{is_selector};
ghost use Rattle.expr_parts.specs.View.{Under, KindsIn, want_of, valued_of};
ghost use Rattle.expr_parts.specs.View.{number_of};
ghost use Rattle.expr_parts.specs.ViewReady.{WantWithin};
ghost use Rattle.decl_rules.specs.Values.{accepted_if, selector_rule};
ghost use Rattle.decl_rules.specs.Values.{result_want, type_given, given_want, returned, has_type};
ghost use Rattle.decl_rules.specs.Values.{element_rule};
ghost use Rattle.decl_written.specs.ViewWritten.{numbered_of};
ghost use Rattle.decl_parts.specs.View.{no_other_type, result_place, if_result};
ghost use Rattle.decl_parts.specs.View.{ResultWithin};

use crate::state::ResultPlace;
use arc_base::{Code, Stop};
use decl_written::values::Numbered;
use expr_parts::branching::value_of;
use expr_parts::kinds::{entry, is_ordinal, is_same, is_text};
use expr_parts::parts::element_type;
use expr_parts::scope::Kinds;
use expr_parts::value::{Value, Want, refusal};
use nim_program::Expr;
use nim_types::{TypeDef, TypeId, TypeTable};

/// A value that its place accepts, else no rule fits at it.
pub fn accepted_if(accepts: bool, value: Value) -> Result<Value, Stop>
    ensures answers { (ts : List Ty) →
        Answers (valued_of ts) (accepted_if accepts (valued_of ts value)) result }
    ensures same { IfOk result (λ v. v ≡ value) }
{
    if !accepts {
        let at = value.expr.node().at;
        drop(value);
        return Err(refusal(Code::NotTyped, at));
    }
    Ok(value)
}

/// A numbered value that its place accepts.
pub fn numbered_if(accepts: bool, given: Numbered) -> Result<Numbered, Stop>
    ensures answers { (ts : List Ty) → Answers (numbered_of ts) (and_then (accepted_if accepts
        (valued_of ts given.value)) (λ _. Ok (numbered_of ts given))) result }
    ensures same { IfOk result (λ v. v ≡ given) }
{
    if !accepts {
        let at = given.value.expr.node().at;
        drop(given);
        return Err(refusal(Code::NotTyped, at));
    }
    Ok(given)
}

/// Whether a definition with a type that is written, or none, takes a value of a type.
pub fn is_annotated(types: &TypeTable, ty: Option<TypeId>, of: TypeId) -> bool
    requires ty { IsBelow (length types.now) ty }
    requires of { of < length types.now }
    ensures { (ts : List Ty) (facts : Facts) → Under types.now ts facts
        → no_other_type (if_type ts ty) (type_at ts of) ≡ result }
{
    match ty {
        Some(ty) => is_same(types, ty, of),
        None => true,
    }
}

/// The type that a definition wants of its value.
pub fn result_want(gives: Option<TypeId>) -> Want
    ensures want { (ts : List Ty) → want_of ts result ≡ result_want (if_type ts gives) }
    ensures within { (n : ℕ) → IsBelow n gives → WantWithin n result }
{
    match gives {
        Some(ty) => Want::Whole(ty),
        None => Want::Nothing,
    }
}

/// The type of a result.
pub fn type_given(gives: Option<ResultPlace>) -> Option<TypeId>
    ensures ty { (ts : List Ty) → if_type ts result ≡ type_given (if_result ts gives) }
    ensures within { (n : ℕ) → ResultWithin n gives → IsBelow n result }
{
    match gives {
        Some(place) => Some(place.ty),
        None => None,
    }
}

/// What the place of a result wants.
pub fn given_want(gives: Option<ResultPlace>) -> Want
    ensures want { (ts : List Ty) → want_of ts result ≡ given_want (if_result ts gives) }
    ensures within { (n : ℕ) → ResultWithin n gives → WantWithin n result }
{
    match gives {
        Some(place) => Want::Whole(place.ty),
        None => Want::Nothing,
    }
}

fn is_selector(def: &TypeDef) -> bool
    ensures { (ts : List Ty) → is_selector (meant ts def.now) ≡ result }
{
    is_ordinal(def) || is_text(def)
}

/// What a `case` selects by.
pub fn selector_rule(types: &TypeTable, value: Value) -> Result<Value, Stop>
    requires { value.ty < length types.now }
    ensures answers { (ts : List Ty) (facts : Facts) → Under types.now ts facts
        → Answers (valued_of ts) (selector_rule (valued_of ts value)) result }
    ensures same { IfOk result (λ v. v ≡ value) }
{
    accepted_if(is_selector(entry(types, value.ty)), value)
}

/// What is returned has the type of the result.
pub fn returned(types: &TypeTable, gives: Option<ResultPlace>, expr: Expr) -> Result<Value, Stop>
    requires gives { ResultWithin (length types.now) gives }
    requires expr { IsBelow (length types.now) (number_of expr) }
    ensures { (ts : List Ty) (facts : Facts) → Under types.now ts facts
        → Answers (valued_of ts) (returned (if_result ts gives) (expr_of ts expr)) result }
{
    match gives {
        Some(place) => returned_as(types, place, expr),
        None => {
            let at = expr.node().at;
            drop(expr);
            Err(refusal(Code::NotTyped, at))
        }
    }
}

fn returned_as(types: &TypeTable, place: ResultPlace, expr: Expr) -> Result<Value, Stop>
    requires place { place.ty < length types.now }
    requires expr { IsBelow (length types.now) (number_of expr) }
    ensures { (ts : List Ty) (facts : Facts) → Under types.now ts facts
        → Answers (valued_of ts) (returned (Some (result_place ts place)) (expr_of ts expr))
        result }
{
    match value_of(expr) {
        Ok(value) => accepted_if(is_same(types, place.ty, value.ty), value),
        Err(stop) => Err(stop),
    }
}

/// Whether a body that gives a result may end with a value of the type.
pub fn has_type(types: &TypeTable, ends: Option<ResultPlace>, ty: TypeId) -> bool
    requires ends { ResultWithin (length types.now) ends }
    requires ty { ty < length types.now }
    ensures { (ts : List Ty) (facts : Facts) → Under types.now ts facts
        → has_type (if_result ts ends) (type_at ts ty) ≡ result }
{
    match ends {
        Some(place) => is_same(types, place.ty, ty),
        None => false,
    }
}

/// The type of the elements that a `for` goes over.
pub fn element_rule(types: &TypeTable, kinds: Kinds, value: &Value) -> Result<TypeId, Stop>
    requires kinds { KindsIn types.now kinds }
    requires value { value.now.ty < length types.now }
    ensures answers { (ts : List Ty) (facts : Facts) → Under types.now ts facts
        → Answers (type_at ts) (element_rule (valued_of ts value.now)) result }
    ensures within { IfOk result (λ ty. ty < length types.now) }
{
    match element_type(kinds.char, entry(types, value.ty)) {
        Some(ty) => Ok(ty),
        None => Err(refusal(Code::NotTyped, value.expr.node().at)),
    }
}
