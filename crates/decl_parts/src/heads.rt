// What a head of a procedure says, and whether it fits.
ghost use Rattle.std.specs.Prelude.{◌≡◌, ◌<◌, ℕ, List, [], ◌∷◌, Option, length, map};
ghost use Rattle.nim_types.specs.Types.{Ty, Facts};
ghost use Rattle.nim_types.specs.Table.{type_at, IsBelow};
ghost use Rattle.nim_program.specs.View.{if_type};
ghost use Rattle.expr_rules.specs.Env.{Parameter as Given};
ghost use Rattle.expr_parts.specs.View.{Under, ParametersWithin, parameter_of};
ghost use Rattle.decl_rules.specs.Heads.{mode_of, is_written, is_result_name, is_dollar};
ghost use Rattle.decl_rules.specs.Heads.{is_comparison, same_mode, same_types, same_modes};
ghost use Rattle.decl_rules.specs.Heads.{has_pragma, is_borrow, is_error, is_var, is_plain};
ghost use Rattle.decl_rules.specs.Heads.{is_shower, takes_first, name_fits};
ghost use Rattle.decl_parts.specs.View.{is_text_type};

use expr_parts::borrowed::comparison_named;
use expr_parts::kinds::{entry, is_same, is_text};
use expr_parts::names::is_word;
use expr_parts::scope::Parameter;
use nim_program::Mode;
use nim_tree::{ParamMode, Pragma, PragmaKind};
use nim_types::{TypeId, TypeTable};

/// How a parameter takes its argument.
pub fn mode_of(mode: ParamMode) -> Mode
    ensures { mode_of mode ≡ result }
{
    match mode {
        ParamMode::Plain => Mode::Plain,
        ParamMode::Var => Mode::Var,
        ParamMode::Sink => Mode::Sink,
    }
}

/// Whether a parameter can be written.
pub fn is_written(mode: Mode) -> bool
    ensures { is_written mode ≡ result }
{
    matches!(mode, Mode::Sink | Mode::Var)
}

/// Whether a name, in normal form, is that of the result, where there is one.
pub fn is_result_name(has_result: bool, name: &[u8]) -> bool
    ensures { is_result_name has_result name.now ≡ result }
{
    has_result && is_word(name, b"result")
}

/// Whether it is the sign of `$`.
pub fn is_dollar(name: &[u8]) -> bool
    ensures { is_dollar name.now ≡ result }
{
    is_word(name, b"$")
}

/// Whether it is the sign of a comparison.
pub fn is_comparison(name: &[u8]) -> bool
    ensures { is_comparison name.now ≡ result }
{
    comparison_named(name).is_some()
}

fn same_mode(a: Mode, b: Mode) -> bool
    ensures { same_mode a b ≡ result }
{
    matches!(
        (a, b),
        (Mode::Plain, Mode::Plain) | (Mode::Sink, Mode::Sink) | (Mode::Var, Mode::Var)
    )
}

/// Whether parameters have equal types.
pub fn same_types(types: &TypeTable, ps: &[Parameter], qs: &[Parameter]) -> bool
    requires ps { ParametersWithin (length types.now) ps.now }
    requires qs { ParametersWithin (length types.now) qs.now }
    ensures { (ts : List Ty) (facts : Facts) → Under types.now ts facts
        → same_types (map (parameter_of ts) ps.now) (map (parameter_of ts) qs.now) ≡ result }
{
    let mut left = ps;
    let mut right = qs;
    while let Some((p, more_left)) = left.split_first() {
        match right.split_first() {
            Some((q, more_right)) => {
                if !is_same(types, p.ty, q.ty) {
                    return false;
                }
                left = more_left;
                right = more_right;
            }
            None => return false,
        }
    }
    right.is_empty()
}

/// Whether parameters have equal modes.
pub fn same_modes(ps: &[Parameter], qs: &[Parameter]) -> bool
    ensures { (ts : List Ty) → same_modes (map (parameter_of ts) ps.now)
        (map (parameter_of ts) qs.now) ≡ result }
{
    let mut left = ps;
    let mut right = qs;
    while let Some((p, more_left)) = left.split_first() {
        match right.split_first() {
            Some((q, more_right)) => {
                if !same_mode(p.mode, q.mode) {
                    return false;
                }
                left = more_left;
                right = more_right;
            }
            None => return false,
        }
    }
    right.is_empty()
}

fn is_borrow(kind: PragmaKind) -> bool
    ensures { is_borrow kind ≡ result }
{
    matches!(kind, PragmaKind::Borrow)
}

fn is_error(kind: PragmaKind) -> bool
    ensures { is_error kind ≡ result }
{
    matches!(kind, PragmaKind::Error)
}

/// Whether there is a pragma `borrow`.
pub fn has_borrow(pragmas: &[Pragma]) -> bool
    ensures { has_pragma is_borrow pragmas.now ≡ result }
{
    for pragma in pragmas {
        if is_borrow(pragma.kind) {
            return true;
        }
    }
    false
}

/// Whether there is a pragma `error`.
pub fn has_error(pragmas: &[Pragma]) -> bool
    ensures { has_pragma is_error pragmas.now ≡ result }
{
    for pragma in pragmas {
        if is_error(pragma.kind) {
            return true;
        }
    }
    false
}

fn is_var(mode: Mode) -> bool
    ensures { is_var mode ≡ result }
{
    matches!(mode, Mode::Var)
}

/// Whether a parameter is neither written nor taken.
pub fn is_plain(mode: Mode) -> bool
    ensures { is_plain mode ≡ result }
{
    matches!(mode, Mode::Plain)
}

/// Whether a result is a text.
pub fn gives_text(types: &TypeTable, gives: Option<TypeId>) -> bool
    requires { IsBelow (length types.now) gives }
    ensures { (ts : List Ty) (facts : Facts) → Under types.now ts facts
        → is_text_type (if_type ts gives) ≡ result }
{
    match gives {
        Some(ty) => is_text(entry(types, ty)),
        None => false,
    }
}

fn shows_one(types: &TypeTable, param: Parameter, gives: Option<TypeId>) -> bool
    requires gives { IsBelow (length types.now) gives }
    ensures { (ts : List Ty) (facts : Facts) → Under types.now ts facts
        → is_shower (parameter_of ts param ∷ []) (if_type ts gives) ≡ result }
{
    if !gives_text(types, gives) {
        return false;
    }
    !is_var(param.mode)
}

fn shows(types: &TypeTable, param: Parameter, more: &[Parameter], gives: Option<TypeId>) -> bool
    requires gives { IsBelow (length types.now) gives }
    ensures { (ts : List Ty) (facts : Facts) → Under types.now ts facts
        → is_shower (parameter_of ts param ∷ map (parameter_of ts) more.now) (if_type ts gives)
        ≡ result }
{
    match more.split_first() {
        Some((_second, _rest)) => false,
        None => shows_one(types, param, gives),
    }
}

/// Whether a procedure can show a value.
pub fn is_shower(types: &TypeTable, params: &[Parameter], gives: Option<TypeId>) -> bool
    requires gives { IsBelow (length types.now) gives }
    ensures { (ts : List Ty) (facts : Facts) → Under types.now ts facts
        → is_shower (map (parameter_of ts) params.now) (if_type ts gives) ≡ result }
{
    match params.split_first() {
        Some((param, more)) => shows(types, *param, more, gives),
        None => false,
    }
}

/// Whether the first parameter has a type.
pub fn takes_first(types: &TypeTable, ty: TypeId, params: &[Parameter]) -> bool
    requires ty { ty < length types.now }
    requires params { ParametersWithin (length types.now) params.now }
    ensures { (ts : List Ty) (facts : Facts) → Under types.now ts facts
        → takes_first (type_at ts ty) (map (parameter_of ts) params.now) ≡ result }
{
    match params.split_first() {
        Some((param, _more)) => is_same(types, ty, param.ty),
        None => false,
    }
}

/// Whether a name in backticks may have the parameters.
pub fn name_fits(quoted: bool, dollar: bool, shower: bool, borrowed: bool) -> bool
    ensures { (x : List ℕ) (params : List Given) (gives : Option Ty) → is_dollar x ≡ dollar
        → is_shower params gives ≡ shower → name_fits quoted x borrowed params gives ≡ result }
{
    if !quoted {
        return true;
    }
    if dollar { shower } else { borrowed }
}
