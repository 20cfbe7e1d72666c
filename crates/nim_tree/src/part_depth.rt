// How deep the expressions of the parts of a statement are.
ghost use Rattle.std.specs.Prelude.{◌≡◌, ◌-◌, ◌^◌, min, map, option_map};
ghost use Rattle.nim_tree.specs.Lists.{highest, if_there};
ghost use Rattle.nim_tree.specs.Terms.{term_of, levels};
ghost use Rattle.nim_tree.specs.Statements.{definition_of, course_of, definition_term_levels, course_term_levels};

use crate::{Def, Expr, Over};

pub(crate) fn in_value(value: &Option<Expr>) -> u32
    ensures { result ≡ min (if_there levels (option_map term_of value.now)) (2 ^ 32 - 1) }
{
    match value {
        Some(value) => value.levels(),
        None => 0,
    }
}

pub(crate) fn in_definitions(defs: &[Def]) -> u32
    ensures { result ≡ min (highest definition_term_levels (map definition_of defs.now)) (2 ^ 32 - 1) }
{
    let mut most = 0;
    for def in defs {
        most = in_value(&def.value).max(most);
    }
    most
}

pub(crate) fn in_course(over: &Over) -> u32
    ensures { result ≡ min (course_term_levels (course_of over.now)) (2 ^ 32 - 1) }
{
    match over {
        Over::Each(value) => value.levels(),
        Over::UpTo(first, last) => first.levels().max(last.levels()),
        Over::Below(first, end) => first.levels().max(end.levels()),
    }
}
