// The first form of what a statement holds beside its blocks that has no rule: definitions, heads and courses.
ghost use Rattle.std.specs.Prelude.{◌≡◌, map};
ghost use Rattle.nim_tree.specs.Statements.{definition_of, parameters_of, head_of, course_of};
ghost use Rattle.decl_rules.specs.LeftOut.{is_cursor, has_cursor, at_first, left_in_definitions};
ghost use Rattle.decl_rules.specs.LeftOut.{left_in_parameters, is_hook_name, is_left_head};
ghost use Rattle.decl_rules.specs.LeftOut.{left_in_head, left_in_course};
ghost use Rattle.check_forms.specs.Waiting.{names_in};

use crate::names::{Waiting, is_hook_name, only_there, or_later};
use crate::terms::{of_term, of_value};
use crate::types::{is_some_name, of_annotation, of_type};
use arc_base::Place;
use nim_tree::{Declared, Def, Over, Param, Pragma, PragmaKind, ProcHead};

fn is_cursor(kind: PragmaKind) -> bool
    ensures { result ≡ is_cursor kind }
{
    match kind {
        PragmaKind::Cursor => true,
        _ => false,
    }
}

fn has_cursor(pragmas: &[Pragma]) -> bool
    ensures { result ≡ has_cursor pragmas.now }
{
    for pragma in pragmas {
        if is_cursor(pragma.kind) {
            return true;
        }
    }
    false
}

// The place of the first name, where a condition holds.
fn at_first(here: bool, declared: &[Declared]) -> Option<Place>
    ensures { result ≡ at_first here declared.now }
{
    if declared.is_empty() {
        return None;
    }
    only_there(here, declared[0].at)
}

/// The first form in definitions that has no rule.
pub fn of_definitions(names: Waiting, defs: &[Def]) -> Option<Place>
    ensures { result ≡ left_in_definitions (names_in names) (map definition_of defs.now) }
{
    for def in defs {
        if let Some(at) = at_first(has_cursor(&def.pragmas), &def.names) {
            return Some(at);
        }
        if let Some(at) = of_annotation(names, &def.annotation) {
            return Some(at);
        }
        if let Some(at) = of_value(names, &def.value) {
            return Some(at);
        }
    }
    None
}

fn of_params(names: Waiting, params: &[Param]) -> Option<Place>
    ensures { result ≡ left_in_parameters (names_in names) (map parameters_of params.now) }
{
    for param in params {
        if let Some(at) = of_type(names, &param.of) {
            return Some(at);
        }
    }
    None
}

// The name of a hook.
fn names_hook(name: &Declared) -> bool
    ensures { result ≡ is_hook_name name.now }
{
    name.quoted && is_hook_name(name.text.as_slice())
}

fn is_left_head(head: &ProcHead) -> bool
    ensures { result ≡ is_left_head (head_of head.now) }
{
    is_some_name(&head.generics) || names_hook(&head.name) || has_cursor(&head.pragmas)
}

/// The first form in a procedure's head that has no rule; one that is left out as a whole stands at `proc`.
pub fn of_head(names: Waiting, at: Place, head: &ProcHead) -> Option<Place>
    ensures { result ≡ left_in_head (names_in names) at (head_of head.now) }
{
    let here = only_there(is_left_head(head), at);
    let inside = or_later(
        of_params(names, &head.params),
        of_annotation(names, &head.gives),
    );
    or_later(here, inside)
}

/// The first form that has no rule in what a `for` goes over.
pub fn of_course(names: Waiting, over: &Over) -> Option<Place>
    ensures { result ≡ left_in_course (names_in names) (course_of over.now) }
{
    match over {
        Over::Each(value) => of_term(names, value),
        Over::UpTo(first, last) => or_later(of_term(names, first), of_term(names, last)),
        Over::Below(first, end) => or_later(of_term(names, first), of_term(names, end)),
    }
}
