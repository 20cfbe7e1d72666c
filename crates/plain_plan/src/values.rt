// The sites of values.
ghost use Rattle.std.specs.Prelude.{[], option_map};
ghost use Rattle.nim_program.specs.Program.{Fresh, NoArg};
ghost use Rattle.nim_program.specs.View.{expr_of, path_of, operand_before, operands_of};
ghost use Rattle.nim_program.specs.View.{choices_of, picks_of, pick_labels, if_value};
ghost use Rattle.plain_plan.specs.Adding.{Adds};
ghost use Rattle.nim_meaning.specs.TreeSites.{own_site, value_sites, path_sites, operand_sites};
ghost use Rattle.nim_meaning.specs.TreeSites.{choice_sites, pick_sites, selector_sites};
ghost use Rattle.plain_plan.specs.Views.{types_of, facts_of, modes_of, uses_of};

use crate::around::{Around, Uses};
use crate::found::Found;
use crate::known::{gives_hooked, has_node, is_taken, use_at};
use nim_program::{Choice, Expr, Operand, Path, Pick, Use};

// That of a path that is read.
fn add_own(found: &mut Found, around: &Around, path: &Path, how: Use)
    ensures { Adds found.old found.new (own_site (facts_of around.now) (modes_of around.now)
        (path_of (types_of around.now) path.now) how) }
{
    if has_node(path) && (gives_hooked(around, path.ty()) && is_taken(how)) {
        found.add(path.node().number)
    }
}

/// Adds the sites of a value.
#[cycle(values)]
pub fn add_value(found: &mut Found, around: &Around, value: &Expr, how: Use)
    ensures { Adds found.old found.new (value_sites (facts_of around.now) (modes_of around.now)
        (expr_of (types_of around.now) value.now) how) }
{
    match value {
        Expr::Apply {
            operation,
            operands,
            ..
        } => add_operands(found, around, operands, Uses::Of(*operation)),
        Expr::Call { proc, operands, .. } => {
            add_operands(found, around, operands, Uses::OfParams(*proc))
        }
        Expr::Construct { operands, .. } => {
            add_operands(found, around, operands, Uses::All(Use::Held))
        }
        Expr::Constant { .. } => {}
        Expr::Read { path } => {
            add_path(found, around, path);
            add_own(found, around, path, how)
        }
        Expr::Early { left, right, .. } => {
            let left = &**left;
            let right = &**right;
            add_value(found, around, left, Use::Owned);
            add_value(found, around, right, Use::Owned)
        }
        Expr::If {
            branches,
            otherwise,
            ..
        } => {
            let otherwise = &**otherwise;
            add_choices(found, around, branches);
            add_value(found, around, otherwise, Use::Owned)
        }
        Expr::Case {
            selector,
            branches,
            otherwise,
            ..
        } => {
            let selector = &**selector;
            add_selector(found, around, selector);
            add_picks(found, around, branches);
            add_else(found, around, otherwise)
        }
    }
}

/// Adds the sites of what a path needs before it is looked up.
#[cycle(values)]
pub fn add_path(found: &mut Found, around: &Around, path: &Path)
    ensures { Adds found.old found.new (path_sites (facts_of around.now) (modes_of around.now)
        (path_of (types_of around.now) path.now)) }
{
    match path {
        Path::Variable { .. } => {}
        Path::Fresh { value } => add_fresh(found, around, &**value),
        Path::Field { base, .. } => add_path(found, around, &**base),
        Path::Deref { base, .. } => add_path(found, around, &**base),
        Path::Element { base, index, .. } => {
            let base = &**base;
            let index = &**index;
            add_path(found, around, base);
            add_value(found, around, index, Use::Owned)
        }
    }
}

// Of a value that a path begins with. A constant stands in the data.
#[cycle(values)]
fn add_fresh(found: &mut Found, around: &Around, value: &Expr)
    ensures { Adds found.old found.new (path_sites (facts_of around.now) (modes_of around.now)
        (Fresh (expr_of (types_of around.now) value.now))) }
{
    match value {
        Expr::Constant { .. } => {}
        _ => add_value(found, around, value, Use::Looked),
    }
}

/// Adds the sites of the selector of a `case`.
#[cycle(values)]
pub fn add_selector(found: &mut Found, around: &Around, selector: &Operand)
    ensures { Adds found.old found.new (selector_sites (facts_of around.now)
        (modes_of around.now) (operand_before (types_of around.now) selector.now NoArg)) }
{
    match selector {
        Operand::Value(value) => add_value(found, around, value, Use::Looked),
        Operand::At(path) => add_path(found, around, path),
    }
}

#[cycle(values)]
fn add_operand(found: &mut Found, around: &Around, operand: &Operand, how: Use)
    ensures { Adds found.old found.new (operand_sites (facts_of around.now)
        (modes_of around.now) (operand_before (types_of around.now) operand.now NoArg)
        (λ i. how) 0) }
{
    match operand {
        Operand::Value(value) => add_value(found, around, value, how),
        Operand::At(path) => add_path(found, around, path),
    }
}

/// Adds the sites of operands.
#[cycle(values)]
pub fn add_operands(found: &mut Found, around: &Around, operands: &Vec<Operand>, uses: Uses)
    ensures { Adds found.old found.new (operand_sites (facts_of around.now)
        (modes_of around.now) (operands_of (types_of around.now) operands.now.items)
        (uses_of (modes_of around.now) uses) 0) }
{
    let mut position = 0;
    for operand in operands {
        let how = use_at(around, uses, position);
        add_operand(found, around, operand, how);
        position += 1;
    }
}

// ---- choices

#[cycle(values)]
fn add_choices(found: &mut Found, around: &Around, choices: &Vec<Choice>)
    ensures { Adds found.old found.new (choice_sites (facts_of around.now)
        (modes_of around.now) (choices_of (types_of around.now) choices.now.items NoArg)) }
{
    for choice in choices {
        add_value(found, around, &choice.condition, Use::Owned);
        add_value(found, around, &choice.value, Use::Owned);
    }
}

#[cycle(values)]
fn add_picks(found: &mut Found, around: &Around, picks: &Vec<Pick>)
    ensures { Adds found.old found.new (pick_sites (facts_of around.now) (modes_of around.now)
        (pick_labels picks.now.items) (picks_of (types_of around.now) picks.now.items NoArg)) }
{
    for pick in picks {
        add_value(found, around, &pick.value, Use::Owned);
    }
}

// Of the value of `else`, where there is one.
#[cycle(values)]
fn add_else(found: &mut Found, around: &Around, otherwise: &Option<Box<Expr>>)
    ensures { Adds found.old found.new (pick_sites (facts_of around.now) (modes_of around.now) []
        (if_value (types_of around.now) (option_map (λ e. e.value) otherwise.now))) }
{
    match otherwise {
        None => {}
        Some(value) => add_value(found, around, &**value, Use::Owned),
    }
}
