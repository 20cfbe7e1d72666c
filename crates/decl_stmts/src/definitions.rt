// Definitions of variables. Their names are declared behind the whole definition.
ghost use Rattle.std.specs.Prelude.{◌≡◌, ◌<◌, ℕ, suc, List, [], ◌∷◌, ◌++◌, length, map, option_map};
ghost use Rattle.std.specs.Prelude.{IfOk, IfErr, OnOk, Ok, Some};
ghost use Rattle.arc_base.specs.declared.place.Stop.TheVariants as Stop;
ghost use Rattle.arc_base.specs.Refusal.{Answers, and_then};
ghost use Rattle.indent_scanner.specs.Words.{normal};
ghost use Rattle.nim_tree.specs.Statements.{definition_of};
ghost use Rattle.nim_tree.specs.Terms.{term_of};
ghost use Rattle.nim_tree.specs.Types.{written_of};
ghost use Rattle.nim_types.specs.Types.{Ty};
ghost use Rattle.nim_types.specs.Table.{type_at, IsBelow};
ghost use Rattle.nim_program.specs.View.{declared_of, if_type};
ghost use Rattle.expr_rules.specs.Env.{variable};
ghost use Rattle.expr_parts.specs.View.{entry_of, WhatWithin, DeclsWithin};
ghost use Rattle.decl_rules.specs.Definitions.{is_var_binding, initialised, default_rule};
ghost use Rattle.decl_rules.specs.Definitions.{if_global, names_rule, variable_rule};
ghost use Rattle.decl_rules.specs.Definitions.{variables_rule, definition_value};
ghost use Rattle.decl_rules.specs.Definitions.{definition_rule, definitions_rule};
ghost use Rattle.decl_rules.specs.Written.{if_written};
ghost use Rattle.decl_parts.specs.View.{around_of, env_in, state_of, place_of};
ghost use Rattle.decl_written.specs.ViewWritten.{numbered_of};
ghost use Rattle.decl_parts.specs.View.{Beside, Over, Ready, Typing, Stating, AllStatedSo};
ghost use Rattle.decl_stmts.specs.ViewDefinitions.{counting, news_as, Kept, Still, Defining};

use arc_base::{Code, Place, Stop};
use decl_parts::names::{all_fit, check_names, is_whole, place_of};
use decl_parts::state::{Around, State, after};
use decl_parts::stmts::{append, list_of};
use decl_parts::typing::definition_first;
use decl_parts::written::written_type;
use decl_written::values::Numbered;
use expr_parts::scope::{Decl, What};
use expr_parts::value::refusal;
use indent_scanner::normal_form;
use nim_program::{Node, PlaceDecl, Stmt};
use nim_tree::{Binding, Declared, Def, Expr as Tree, TypeTree};
use nim_types::TypeId;
use std::alloc::Global;

/// Variables of a definition, whose declarations wait for its end.
#[derive(Drop)]
pub struct News {
    pub stmts: Vec<Stmt>,
    pub waits: Vec<Decl>,
}

/// A variable, whose declaration waits for the end of its definition.
#[derive(Drop)]
pub struct New {
    pub stmts: Vec<Stmt>,
    pub decl: Decl,
}

// Where the statement stands at the outermost level of its module, the variable is a global.
fn note_global(
    alloc: Global,
    state: &mut State,
    outermost: bool,
    number: u32,
    name: &Declared,
    ty: TypeId,
) -> Result<(), Stop>
    ensures globals { OnOk result ((ts : List Ty) → map (declared_of ts) state.new.globals
        ≡ map (declared_of ts) state.old.globals ++ if_global outermost
        (place_of number name.now.text name.now.at (type_at ts ty))) }
    ensures same { state.new ≡ record state.old { globals = state.new.globals } }
    ensures memory { IfErr result (λ stop. stop ≡ Stop.Memory) }
{
    if !outermost {
        return Ok(());
    }
    let global = place_of(alloc, number, name.text.as_slice(), name.at, ty)?;
    state.globals.push(global)?;
    Ok(())
}

// The place of a further variable, and the next node.
fn begin_variable(
    alloc: Global,
    state: &mut State,
    outermost: bool,
    name: &Declared,
    ty: TypeId,
    next: u32,
) -> Result<PlaceDecl, Stop>
    ensures place { IfOk result (λ p. (ts : List Ty) → declared_of ts p
        ≡ place_of state.old.place name.now.text name.now.at (type_at ts ty)) }
    ensures number { IfOk result (λ p. p.number ≡ state.old.place) }
    ensures behind { OnOk result ((ts : List Ty) (b : Beside)
        → state_of ts b state.new ≡ counting (state_of ts b state.old) outermost
        name.now (type_at ts ty) next) }
    ensures kept { Kept state.old state.new }
    ensures memory { IfErr result (λ stop. stop ≡ Stop.Memory) }
{
    let number = state.place;
    let further = after(number)?;
    note_global(alloc, state, outermost, number, name, ty)?;
    let place = place_of(alloc, number, name.text.as_slice(), name.at, ty)?;
    state.place = further;
    state.node = next;
    Ok(place)
}

fn is_var(binding: Binding) -> bool
    ensures { is_var_binding binding ≡ result }
{
    matches!(binding, Binding::Var)
}

// The declaration of a variable.
fn variable(
    alloc: Global,
    outermost: bool,
    binding: Binding,
    name: &[u8],
    number: u32,
    ty: TypeId,
) -> Result<Decl, Stop>
    ensures entry { IfOk result (λ d. (ts : List Ty) → entry_of ts d ≡ variable (normal name.now)
        number (type_at ts ty) (is_var_binding binding) outermost) }
    ensures within { IfOk result (λ d. (n : ℕ) → ty < n → WhatWithin n d.what) }
    ensures memory { IfErr result (λ stop. stop ≡ Stop.Memory) }
{
    let name = normal_form(alloc, name)?;
    Ok(Decl {
        name,
        what: What::Variable {
            place: number,
            ty,
            writable: is_var(binding),
            global: outermost,
        },
    })
}

fn new_of(alloc: Global, stmt: Stmt, decl: Decl) -> Result<New, Stop>
    ensures stmts { IfOk result (λ n. n.stmts.items ≡ stmt ∷ []) }
    ensures decl { IfOk result (λ n. n.decl ≡ decl) }
    ensures memory { IfErr result (λ stop. stop ≡ Stop.Memory) }
{
    match list_of(alloc, stmt) {
        Ok(stmts) => Ok(New { stmts, decl }),
        Err(stop) => {
            drop(decl);
            Err(stop)
        }
    }
}

// A variable with a value, which has been typed.
fn with_value(
    alloc: Global,
    state: &mut State,
    around: Around,
    at: Place,
    binding: Binding,
    given: Numbered,
    name: &Declared,
) -> Result<New, Stop>
    requires given { given.value.ty < length state.old.types }
    ensures { Defining state.old state.new (λ ts env st. Ok (initialised (around_of ts around) at
        binding (numbered_of ts given) st name.now)) result }
{
    let node = Node {
        number: state.node,
        at,
    };
    let ty = given.value.ty;
    let place = match begin_variable(alloc, state, around.outermost, name, ty, given.next) {
        Ok(place) => place,
        Err(stop) => {
            drop(given);
            return Err(stop);
        }
    };
    let word = name.text.as_slice();
    let decl = match variable(alloc, around.outermost, binding, word, place.number, ty) {
        Ok(decl) => decl,
        Err(stop) => {
            drop(given);
            return Err(stop);
        }
    };
    let stmt = Stmt::Declare {
        node,
        place,
        cursor: false,
        value: Some(given.value.expr),
    };
    new_of(alloc, stmt, decl)
}

// A variable that starts at the default of its type.
fn without_value(
    alloc: Global,
    state: &mut State,
    around: Around,
    at: Place,
    binding: Binding,
    ty: TypeId,
    name: &Declared,
) -> Result<New, Stop>
    requires ty { ty < length state.old.types }
    ensures { Defining state.old state.new (λ ts env st. default_rule (around_of ts around) at
        binding (Some (type_at ts ty)) st name.now) result }
{
    let node = Node {
        number: state.node,
        at,
    };
    let next = after(state.node)?;
    let place = begin_variable(alloc, state, around.outermost, name, ty, next)?;
    let decl = variable(
        alloc,
        around.outermost,
        binding,
        name.text.as_slice(),
        place.number,
        ty,
    )?;
    let stmt = Stmt::Declare {
        node,
        place,
        cursor: false,
        value: None,
    };
    new_of(alloc, stmt, decl)
}

fn initialised(
    alloc: Global,
    state: &mut State,
    around: Around,
    at: Place,
    binding: Binding,
    ty: Option<TypeId>,
    value: &Tree,
    name: &Declared,
) -> Result<New, Stop>
    requires ready { Ready state.old }
    requires ty { IsBelow (length state.old.types) ty }
    ensures { Defining state.old state.new (λ ts env st. and_then (definition_value env
        (if_type ts ty) (suc st.node) (term_of value.now)) (λ v. Ok (initialised
        (around_of ts around) at binding v st name.now))) result }
{
    match definition_first(alloc, state, ty, value) {
        Ok(given) => with_value(alloc, state, around, at, binding, given, name),
        Err(stop) => Err(stop),
    }
}

fn defaulted(
    alloc: Global,
    state: &mut State,
    around: Around,
    at: Place,
    binding: Binding,
    ty: Option<TypeId>,
    name: &Declared,
) -> Result<New, Stop>
    requires ty { IsBelow (length state.old.types) ty }
    ensures { Defining state.old state.new (λ ts env st. default_rule (around_of ts around) at
        binding (if_type ts ty) st name.now) result }
{
    match ty {
        Some(ty) => without_value(alloc, state, around, at, binding, ty, name),
        None => Err(refusal(Code::NotTyped, name.at)),
    }
}

// A name of a definition, which is a definition of its own.
fn variable_of(
    alloc: Global,
    state: &mut State,
    around: Around,
    at: Place,
    binding: Binding,
    ty: Option<TypeId>,
    def: &Def,
    name: &Declared,
) -> Result<New, Stop>
    requires ready { Ready state.old }
    requires ty { IsBelow (length state.old.types) ty }
    ensures { Defining state.old state.new (λ ts env st. variable_rule (around_of ts around) at
        binding env (if_type ts ty) (option_map term_of def.now.value) st name.now) result }
{
    match &def.value {
        Some(value) => initialised(alloc, state, around, at, binding, ty, value, name),
        None => defaulted(alloc, state, around, at, binding, ty, name),
    }
}

fn add_new(all: &mut News, new: New) -> Result<(), Stop>
    ensures stmts { OnOk result (all.new.stmts.items ≡ all.old.stmts.items ++ new.stmts.items) }
    ensures waits { OnOk result (all.new.waits.items ≡ all.old.waits.items ++ new.decl ∷ []) }
    ensures memory { IfErr result (λ stop. stop ≡ Stop.Memory) }
{
    all.waits.push(new.decl)?;
    append(&mut all.stmts, new.stmts)
}

// The variables of a definition. Their declarations wait.
fn variables(
    alloc: Global,
    state: &mut State,
    around: Around,
    at: Place,
    binding: Binding,
    ty: Option<TypeId>,
    def: &Def,
) -> Result<News, Stop>
    requires ready { Ready state.old }
    requires ty { IsBelow (length state.old.types) ty }
    ensures still { Still state.old state.new }
    ensures answers { (ts : List Ty) (b : Beside) → Over state.new ts
        → Answers (news_as ts b state.new) (variables_rule (around_of ts around) at binding
        (env_in ts state.old) (if_type ts ty) (option_map term_of def.now.value)
        (state_of ts b state.old) def.now.names.items) result }
    ensures fits { IfOk result (λ n. DeclsWithin (length state.new.types) n.waits.items) }
{
    let stmts = Vec::new(alloc);
    let waits = Vec::new(alloc);
    let mut all = News { stmts, waits };
    for name in &def.names {
        match variable_of(alloc, state, around, at, binding, ty, def, name) {
            Ok(new) => add_new(&mut all, new)?,
            Err(stop) => return Err(stop),
        }
    }
    Ok(all)
}

// Declares what waits.
fn declare_all(state: &mut State, waits: Vec<Decl>) -> Result<(), Stop>
    ensures ok { OnOk result (state.new.scope.decls ≡ state.old.scope.decls ++ waits.items) }
    ensures kinds { state.new.scope.kinds ≡ state.old.scope.kinds }
    ensures home { state.new.scope.home ≡ state.old.scope.home }
    ensures same { state.new ≡ record state.old { scope = state.new.scope } }
    ensures memory { IfErr result (λ stop. stop ≡ Stop.Memory) }
{
    for decl in waits {
        state.scope.declare(decl)?;
    }
    Ok(())
}

// The type that is written at a definition, where one is.
pub(crate) fn annotation(
    alloc: Global,
    state: &mut State,
    def: &Def,
) -> Result<Option<TypeId>, Stop>
    requires ready { Ready state.old }
    ensures { Typing state.old state.new if_type (λ ts env. if_written env
        (option_map written_of def.now.annotation)) IsBelow result }
{
    match &def.annotation {
        Some(tree) => some_type(alloc, state, tree),
        None => Ok(None),
    }
}

fn some_type(alloc: Global, state: &mut State, tree: &TypeTree) -> Result<Option<TypeId>, Stop>
    requires ready { Ready state.old }
    ensures { Typing state.old state.new if_type (λ ts env. if_written env
        (Some (written_of tree.now))) IsBelow result }
{
    match written_type(alloc, state, tree) {
        Ok(ty) => Ok(Some(ty)),
        Err(stop) => Err(stop),
    }
}

// The variables of a definition, with the type that is written.
fn define_as(
    alloc: Global,
    state: &mut State,
    around: Around,
    at: Place,
    binding: Binding,
    ty: Option<TypeId>,
    def: &Def,
) -> Result<Vec<Stmt>, Stop>
    requires ready { Ready state.old }
    requires ty { IsBelow (length state.old.types) ty }
    ensures { AllStatedSo state.old state.new (λ ts st. variables_rule (around_of ts around) at
        binding st.env (if_type ts ty) (option_map term_of def.now.value) st
        def.now.names.items) result }
{
    match variables(alloc, state, around, at, binding, ty, def) {
        Ok(news) => {
            declare_all(state, news.waits)?;
            Ok(news.stmts)
        }
        Err(stop) => Err(stop),
    }
}

// A definition whose names are new.
fn define(
    alloc: Global,
    state: &mut State,
    around: Around,
    at: Place,
    binding: Binding,
    def: &Def,
) -> Result<Vec<Stmt>, Stop>
    requires ready { Ready state.old }
    ensures { AllStatedSo state.old state.new (λ ts st. and_then (if_written st.env
        (option_map written_of def.now.annotation)) (λ ty. variables_rule (around_of ts around) at
        binding st.env ty (option_map term_of def.now.value) st def.now.names.items)) result }
{
    match annotation(alloc, state, def) {
        Ok(ty) => define_as(alloc, state, around, at, binding, ty, def),
        Err(stop) => Err(stop),
    }
}

// The names of a definition are new in their scope.
pub(crate) fn new_names(
    alloc: Global,
    state: &mut State,
    binding: Binding,
    def: &Def,
) -> Result<(), Stop>
    requires ready { Ready state.old }
    ensures names { Stating state.old state.new (λ ts b x. x) (λ ts b. names_rule
        (state_of ts b state.old) binding (definition_of def.now)) result }
    ensures same { OnOk result (state.new ≡ state.old) }
{
    let whole = is_whole(binding, def);
    let fits = all_fit(&def.pragmas);
    let outside = state.outside;
    check_names(alloc, &mut state.scope, outside, &def.names, whole, fits)
}

fn definition(
    alloc: Global,
    state: &mut State,
    around: Around,
    at: Place,
    binding: Binding,
    def: &Def,
) -> Result<Vec<Stmt>, Stop>
    requires ready { Ready state.old }
    ensures { AllStatedSo state.old state.new (λ ts st. definition_rule (around_of ts around) at
        binding st (definition_of def.now)) result }
{
    match new_names(alloc, state, binding, def) {
        Ok(()) => define(alloc, state, around, at, binding, def),
        Err(stop) => Err(stop),
    }
}

/// Definitions of variables.
pub fn definitions(
    alloc: Global,
    state: &mut State,
    around: Around,
    at: Place,
    binding: Binding,
    defs: &[Def],
) -> Result<Vec<Stmt>, Stop>
    requires ready { Ready state.old }
    ensures { AllStatedSo state.old state.new (λ ts st. definitions_rule (around_of ts around) at
        binding st (map definition_of defs.now)) result }
{
    let mut all = Vec::new(alloc);
    for def in defs {
        match definition(alloc, state, around, at, binding, def) {
            Ok(more) => append(&mut all, more)?,
            Err(stop) => return Err(stop),
        }
    }
    Ok(all)
}
