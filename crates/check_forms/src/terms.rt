// The first form of an expression that has no rule.
ghost use Rattle.std.specs.Prelude.{◌≡◌, option_map};
ghost use Rattle.nim_tree.specs.Terms.{term_of, parts_of, choices_of};
ghost use Rattle.decl_rules.specs.LeftOut.{callee_left, left_in, left_in_parts, left_in_choices};
ghost use Rattle.decl_rules.specs.LeftOut.{if_left_in};
ghost use Rattle.check_forms.specs.Waiting.{names_in};

use crate::names::{Waiting, is_hook_name, only_there, or_later, waits};
use arc_base::Place;
use nim_tree::{Choice, Expr};

/// What is called by its name.
pub fn of_callee(names: Waiting, at: Place, callee: &Expr) -> Option<Place>
    ensures { result ≡ callee_left (names_in names) at (term_of callee.now) }
{
    match callee {
        Expr::Name { text, .. } => only_there(waits(names, text.as_slice()), at),
        _ => None,
    }
}

/// The first form of an expression that has no rule.
#[cycle(terms)]
pub fn of_term(names: Waiting, tree: &Expr) -> Option<Place>
    ensures { result ≡ left_in (names_in names) (term_of tree.now) }
{
    match tree {
        Expr::Int { .. } | Expr::Char { .. } | Expr::Text { .. } | Expr::Name { .. } => None,
        Expr::Quoted { at, text } => only_there(is_hook_name(text.as_slice()), *at),
        Expr::Nil { at } => Some(*at),
        Expr::Paren { inner, .. } => of_term(names, inner),
        Expr::Tuple { .. } | Expr::Array { .. } | Expr::Sequence { .. } | Expr::Construct { .. } =>
            { of_parts(names, tree.parts()) }
        Expr::Named { value, .. } => of_term(names, value),
        Expr::Field { at, base, text } => {
            let here = only_there(waits(names, text.as_slice()), *at);
            or_later(here, of_term(names, base))
        }
        Expr::Call { at, base, .. } => {
            let inside = or_later(of_term(names, base), of_parts(names, tree.parts()));
            or_later(of_callee(names, *at, base), inside)
        }
        Expr::Index { base, .. } => {
            or_later(of_term(names, base), of_parts(names, tree.parts()))
        }
        Expr::Unary { operand, .. } => of_term(names, operand),
        Expr::Binary { left, right, .. } => or_later(of_term(names, left), of_term(names, right)),
        Expr::If { otherwise, .. } => {
            or_later(
                of_choices(names, tree.branches()),
                of_term(names, otherwise),
            )
        }
        Expr::Case {
            selector,
            otherwise: None,
            ..
        } => or_later(of_term(names, selector), of_choices(names, tree.branches())),
        Expr::Case {
            selector,
            otherwise: Some(value),
            ..
        } => {
            let last = or_later(of_choices(names, tree.branches()), of_term(names, value));
            or_later(of_term(names, selector), last)
        }
        Expr::Range { low, high, .. } => or_later(of_term(names, low), of_term(names, high)),
    }
}

/// The first form in several expressions that has no rule.
#[cycle(terms)]
pub fn of_parts(names: Waiting, parts: &[Expr]) -> Option<Place>
    ensures { result ≡ left_in_parts (names_in names) (parts_of parts.now) }
{
    for part in parts {
        if let Some(at) = of_term(names, part) {
            return Some(at);
        }
    }
    None
}

#[cycle(terms)]
fn of_choices(names: Waiting, choices: &[Choice]) -> Option<Place>
    ensures { result ≡ left_in_choices (names_in names) (choices_of choices.now) }
{
    for choice in choices {
        if let Some(at) = of_parts(names, &choice.tests) {
            return Some(at);
        }
        if let Some(at) = of_term(names, &choice.value) {
            return Some(at);
        }
    }
    None
}

/// The same of a value that may be missing.
pub fn of_value(names: Waiting, value: &Option<Expr>) -> Option<Place>
    ensures { result ≡ if_left_in (names_in names) (option_map term_of value.now) }
{
    match value {
        Some(value) => of_term(names, value),
        None => None,
    }
}
