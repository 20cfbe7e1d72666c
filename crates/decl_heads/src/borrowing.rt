// What a head in backticks, or one that borrows, has to be.
ghost use Rattle.std.specs.Prelude.{◌≡◌, ◌<◌, ◌&&◌, not, Bool, List, [], ◌∷◌, length, map, Some};
ghost use Rattle.nim_tree.specs.Statements.{head_of};
ghost use Rattle.nim_types.specs.Types.{Ty, Facts, same};
ghost use Rattle.nim_types.specs.Table.{type_at, IsBelow};
ghost use Rattle.nim_program.specs.View.{if_type};
ghost use Rattle.expr_rules.specs.Env.{callable, known_behind, unknown};
ghost use Rattle.expr_rules.specs.Constructions.{base_of};
ghost use Rattle.expr_parts.specs.View.{Under, ParametersWithin, DeclsWithin};
ghost use Rattle.expr_parts.specs.View.{parameter_of, entry_of, env_of};
ghost use Rattle.decl_rules.specs.Heads.{borrows_for, has_base, is_borrowing, borrow_fits};
ghost use Rattle.decl_rules.specs.Heads.{is_borrow, head_fits, procedure_name, has_pragma};
ghost use Rattle.decl_rules.specs.Heads.{is_dollar, is_comparison, is_plain, takes_first};
ghost use Rattle.decl_heads.specs.ViewHeads.{is_bool_type};

use decl_parts::heads::{
    gives_text, has_borrow, has_error, is_comparison, is_dollar, is_plain, is_shower, name_fits,
    takes_first,
};
use expr_parts::decls::Decls;
use expr_parts::kinds::{base_of, entry, is_bool, is_same, is_shown};
use expr_parts::scope::{Parameter, Procedure, Scope};
use nim_tree::ProcHead;
use nim_types::{TypeId, TypeTable};

fn gives_bool(types: &TypeTable, gives: Option<TypeId>) -> bool
    requires { IsBelow (length types.now) gives }
    ensures { (ts : List Ty) (facts : Facts) → Under types.now ts facts
        → is_bool_type (if_type ts gives) ≡ result }
{
    match gives {
        Some(ty) => is_bool(entry(types, ty)),
        None => false,
    }
}

fn both(a: bool, b: bool) -> bool
    ensures { (a && b) ≡ result }
{
    a && b
}

// Whether a procedure borrows for the type.
fn borrows(types: &TypeTable, ty: TypeId, procedure: &Procedure) -> bool
    requires ty { ty < length types.now }
    requires params { ParametersWithin (length types.now) procedure.now.params }
    ensures { (ts : List Ty) (facts : Facts) → Under types.now ts facts
        → (procedure.now.borrowed && takes_first (type_at ts ty) (map (parameter_of ts)
        procedure.now.params)) ≡ result }
{
    both(
        procedure.borrowed,
        takes_first(types, ty, procedure.params.as_slice()),
    )
}

// Whether a procedure of the name borrows for the type.
fn borrows_for(types: &TypeTable, decls: &Decls, name: &[u8], ty: TypeId) -> bool
    requires ty { ty < length types.now }
    requires decls { DeclsWithin (length types.now) decls.now }
    ensures { (ts : List Ty) (facts : Facts) → Under types.now ts facts
        → borrows_for (type_at ts ty) (callable (known_behind unknown name.now
        (map (entry_of ts) decls.now))) ≡ result }
{
    let mut next = decls.last(name);
    while let Some(number) = next {
        match decls.get(number).what.procedure() {
            Some(procedure) => {
                if borrows(types, ty, procedure) {
                    return true;
                }
                next = decls.before(number, name);
            }
            None => return false,
        }
    }
    false
}

// Whether the base of a distinct type has the operation of the name.
fn has_base(types: &TypeTable, scope: &Scope, name: &[u8], base: Option<TypeId>) -> bool
    requires decls { DeclsWithin (length types.now) scope.now.decls }
    requires base { IsBelow (length types.now) base }
    ensures { (ts : List Ty) (facts : Facts) → Under types.now ts facts
        → has_base (env_of ts facts scope.now) name.now (if_type ts base) ≡ result }
{
    match base {
        Some(ty) => shows(types, scope, name, ty),
        None => false,
    }
}

// The same of a type that is there.
fn shows(types: &TypeTable, scope: &Scope, name: &[u8], ty: TypeId) -> bool
    requires decls { DeclsWithin (length types.now) scope.now.decls }
    requires ty { ty < length types.now }
    ensures { (ts : List Ty) (facts : Facts) → Under types.now ts facts
        → has_base (env_of ts facts scope.now) name.now (Some (type_at ts ty)) ≡ result }
{
    if is_shown(entry(types, ty)) {
        return true;
    }
    borrows_for(types, &scope.decls, name, ty)
}

// The same of the base of a type.
fn base_has(types: &TypeTable, scope: &Scope, name: &[u8], ty: TypeId) -> bool
    requires decls { DeclsWithin (length types.now) scope.now.decls }
    requires ty { ty < length types.now }
    ensures { (ts : List Ty) (facts : Facts) → Under types.now ts facts
        → has_base (env_of ts facts scope.now) name.now (base_of facts (type_at ts ty)) ≡ result }
{
    has_base(types, scope, name, base_of(entry(types, ty)))
}

// `$`, for one distinct type that is neither written nor taken.
fn borrows_dollar(types: &TypeTable, scope: &Scope, name: &[u8], param: Parameter) -> bool
    requires decls { DeclsWithin (length types.now) scope.now.decls }
    requires param { param.ty < length types.now }
    ensures { (ts : List Ty) (facts : Facts) → Under types.now ts facts
        → (is_dollar name.now && (is_plain param.mode && has_base (env_of ts facts scope.now)
        name.now (base_of facts (type_at ts param.ty)))) ≡ result }
{
    both(
        is_dollar(name),
        both(is_plain(param.mode), base_has(types, scope, name, param.ty)),
    )
}

// A comparison, for one distinct type that is neither written nor taken.
fn borrows_comparison(
    types: &TypeTable,
    scope: &Scope,
    name: &[u8],
    left: Parameter,
    right: Parameter,
) -> bool
    requires decls { DeclsWithin (length types.now) scope.now.decls }
    requires left { left.ty < length types.now }
    requires right { right.ty < length types.now }
    ensures { (ts : List Ty) (facts : Facts) → Under types.now ts facts
        → (is_comparison name.now && ((is_plain left.mode && is_plain right.mode)
        && (same (type_at ts left.ty) (type_at ts right.ty)
        && has_base (env_of ts facts scope.now) name.now (base_of facts (type_at ts left.ty)))))
        ≡ result }
{
    let plain = both(is_plain(left.mode), is_plain(right.mode));
    let one = is_same(types, left.ty, right.ty);
    let of_base = base_has(types, scope, name, left.ty);
    both(is_comparison(name), both(plain, both(one, of_base)))
}

// Whether the head is that of an operation that a distinct type may borrow.
fn is_borrowing(
    types: &TypeTable,
    scope: &Scope,
    name: &[u8],
    params: &[Parameter],
    gives: Option<TypeId>,
) -> bool
    requires decls { DeclsWithin (length types.now) scope.now.decls }
    requires params { ParametersWithin (length types.now) params.now }
    requires gives { IsBelow (length types.now) gives }
    ensures { (ts : List Ty) (facts : Facts) → Under types.now ts facts
        → is_borrowing (env_of ts facts scope.now) name.now (map (parameter_of ts) params.now)
        (if_type ts gives) ≡ result }
{
    let Some((first, others)) = params.split_first() else {
        return false;
    };
    with_first(types, scope, name, *first, others, gives)
}

fn with_first(
    types: &TypeTable,
    scope: &Scope,
    name: &[u8],
    first: Parameter,
    others: &[Parameter],
    gives: Option<TypeId>,
) -> bool
    requires decls { DeclsWithin (length types.now) scope.now.decls }
    requires first { first.ty < length types.now }
    requires others { ParametersWithin (length types.now) others.now }
    requires gives { IsBelow (length types.now) gives }
    ensures { (ts : List Ty) (facts : Facts) → Under types.now ts facts
        → is_borrowing (env_of ts facts scope.now) name.now (parameter_of ts first
        ∷ map (parameter_of ts) others.now) (if_type ts gives) ≡ result }
{
    match others.split_first() {
        Some((second, more)) => with_second(types, scope, name, first, *second, more, gives),
        None => of_one(types, scope, name, first, gives),
    }
}

fn with_second(
    types: &TypeTable,
    scope: &Scope,
    name: &[u8],
    first: Parameter,
    second: Parameter,
    more: &[Parameter],
    gives: Option<TypeId>,
) -> bool
    requires decls { DeclsWithin (length types.now) scope.now.decls }
    requires first { first.ty < length types.now }
    requires second { second.ty < length types.now }
    requires gives { IsBelow (length types.now) gives }
    ensures { (ts : List Ty) (facts : Facts) → Under types.now ts facts
        → is_borrowing (env_of ts facts scope.now) name.now (parameter_of ts first
        ∷ parameter_of ts second ∷ map (parameter_of ts) more.now) (if_type ts gives) ≡ result }
{
    match more.split_first() {
        Some((_third, _rest)) => false,
        None => of_two(types, scope, name, first, second, gives),
    }
}

fn of_one(
    types: &TypeTable,
    scope: &Scope,
    name: &[u8],
    param: Parameter,
    gives: Option<TypeId>,
) -> bool
    requires decls { DeclsWithin (length types.now) scope.now.decls }
    requires param { param.ty < length types.now }
    requires gives { IsBelow (length types.now) gives }
    ensures { (ts : List Ty) (facts : Facts) → Under types.now ts facts
        → is_borrowing (env_of ts facts scope.now) name.now (parameter_of ts param ∷ [])
        (if_type ts gives) ≡ result }
{
    if !gives_text(types, gives) {
        return false;
    }
    borrows_dollar(types, scope, name, param)
}

fn of_two(
    types: &TypeTable,
    scope: &Scope,
    name: &[u8],
    left: Parameter,
    right: Parameter,
    gives: Option<TypeId>,
) -> bool
    requires decls { DeclsWithin (length types.now) scope.now.decls }
    requires left { left.ty < length types.now }
    requires right { right.ty < length types.now }
    requires gives { IsBelow (length types.now) gives }
    ensures { (ts : List Ty) (facts : Facts) → Under types.now ts facts
        → is_borrowing (env_of ts facts scope.now) name.now (parameter_of ts left
        ∷ parameter_of ts right ∷ []) (if_type ts gives) ≡ result }
{
    if !gives_bool(types, gives) {
        return false;
    }
    borrows_comparison(types, scope, name, left, right)
}

// Whether a head borrows, and may do so.
fn borrow_fits(
    types: &TypeTable,
    scope: &Scope,
    borrowed: bool,
    alone: bool,
    name: &[u8],
    params: &[Parameter],
    gives: Option<TypeId>,
) -> bool
    requires decls { DeclsWithin (length types.now) scope.now.decls }
    requires params { ParametersWithin (length types.now) params.now }
    requires gives { IsBelow (length types.now) gives }
    ensures { (ts : List Ty) (facts : Facts) (quoted has_body : Bool) → Under types.now ts facts
        → (quoted && not has_body) ≡ alone
        → borrow_fits (env_of ts facts scope.now) borrowed quoted has_body name.now
        (map (parameter_of ts) params.now) (if_type ts gives) ≡ result }
{
    if !borrowed {
        return true;
    }
    if !alone {
        return false;
    }
    is_borrowing(types, scope, name, params, gives)
}

/// Whether pragmas and a name in backticks fit the parameters and the result of a head.
pub fn head_fits(
    types: &TypeTable,
    scope: &Scope,
    head: &ProcHead,
    has_body: bool,
    name: &[u8],
    params: &[Parameter],
    gives: Option<TypeId>,
) -> bool
    requires decls { DeclsWithin (length types.now) scope.now.decls }
    requires params { ParametersWithin (length types.now) params.now }
    requires gives { IsBelow (length types.now) gives }
    ensures { (ts : List Ty) (facts : Facts) → Under types.now ts facts
        → name.now ≡ procedure_name head.now.name
        → head_fits (env_of ts facts scope.now) (head_of head.now)
        (has_pragma is_borrow head.now.pragmas.items) has_body (map (parameter_of ts) params.now)
        (if_type ts gives) ≡ result }
{
    let borrowed = has_borrow(&head.pragmas);
    let quoted = head.name.quoted;
    let alone = stands_alone(quoted, has_body);
    let shower = is_shower(types, params, gives);
    let named = name_fits(quoted, is_dollar(name), shower, borrowed);
    let may_borrow = borrow_fits(types, scope, borrowed, alone, name, params, gives);
    no_error(has_error(&head.pragmas), named, may_borrow)
}

// In backticks, and without a body.
fn stands_alone(quoted: bool, has_body: bool) -> bool
    ensures { (quoted && not has_body) ≡ result }
{
    quoted && !has_body
}

fn no_error(error: bool, named: bool, may_borrow: bool) -> bool
    ensures { (not error && (named && may_borrow)) ≡ result }
{
    !error && named && may_borrow
}
