// What operators and calls demand of their operands.
ghost use Rattle.std.specs.Prelude.{◌≡◌, ◌||◌, if◌then◌else◌, ℕ, List, [], IfOk, IfErr, codes};
ghost use Rattle.arc_base.specs.declared.place.Stop.TheVariants as Stop;
ghost use Rattle.arc_base.specs.declared.place.Place.{Place};
ghost use Rattle.nim_tree.specs.Terms.{Term, Parts, part, index, sequence, term_of, parts_of};
ghost use Rattle.nim_types.specs.Types.{Ty, Facts, same_text};
ghost use Rattle.expr_rules.specs.Env.{Known, known_as, known_next};
ghost use Rattle.expr_rules.specs.Names.{is_single};
ghost use Rattle.expr_rules.specs.Demands.{demand_behind, operator_demand, bare, is_a_type};
ghost use Rattle.expr_rules.specs.Demands.{is_input, is_name_of, is_one_type, takes_type};
ghost use Rattle.expr_rules.specs.Demands.{takes_input};
ghost use Rattle.expr_rules.specs.Demands.{call_demand, begins_type, receiver_demand, open_at};
ghost use Rattle.expr_rules.specs.Demands.{special, is_former, former_of, one_type, receiver};
ghost use Rattle.expr_rules.specs.Demands.{open_or_ordinary};
ghost use Rattle.expr_parts.specs.View.{env_of, entry_by};
ghost use Rattle.expr_steps.specs.ViewDemands.{demand_of, special_of, demand_with, SameDemand};
ghost use Rattle.expr_steps.specs.ViewDemands.{as_receiver_with};

use arc_base::{Place, Stop};
use expr_parts::names::{former_of, is_default, is_echo, is_word, makes_types};
use expr_parts::operators::is_comparison;
use expr_parts::scope::{Scope, What};
use indent_scanner::normal_form;
use nim_tree::{BinaryOp, Expr as Tree};
use std::alloc::Global;

/// What is demanded of operands.
#[derive(Clone, Copy)]
pub enum Demand {
    /// Values alone.
    Closed,
    /// Values, or `@[]` whose type the other operand gives.
    Comparands,
    /// Values and `@[]`.
    Arguments,
    /// The same, which `echo` shows.
    Echoed,
    /// What stands before a dot and a name that may be that of a field.
    Receiver {
        /// Whether it is the name of `echo`.
        of_echo: bool,
    },
    OneType,
    /// Standard input, and then values and `@[]`.
    InputFirst,
}

impl Demand {
    /// Of what follows an operand.
    pub fn behind(self) -> Demand
        ensures { demand_of result ≡ demand_behind (demand_of self) }
    {
        match self {
            Demand::InputFirst => Demand::Arguments,
            other => other,
        }
    }
}

/// What an operator demands.
pub fn operator_demand(op: BinaryOp) -> Demand
    ensures { demand_of result ≡ operator_demand op }
{
    if is_comparison(op) {
        Demand::Comparands
    } else {
        Demand::Closed
    }
}

/// What stands in parentheses.
#[cycle(bare)]
pub fn bare(tree: &Tree) -> &Tree
    ensures { term_of result.now ≡ bare (term_of tree.now) }
{
    match tree {
        Tree::Paren { inner, .. } => bare(inner),
        other => other,
    }
}

fn is_type_name(what: &What) -> bool
    ensures { (ts : List Ty) (before : Known) (x : List ℕ)
        → is_a_type (known_next before (entry_by ts x what.now)) ≡ result }
{
    match what {
        What::Type(_) => true,
        _ => false,
    }
}

// Whether a name, in normal form, is that of a type.
fn is_type(scope: &Scope, name: &[u8]) -> bool
    ensures { (ts : List Ty) (facts : Facts)
        → is_a_type (known_as (env_of ts facts scope.now) name.now) ≡ result }
{
    match scope.find(name) {
        Some(decl) => is_type_name(&decl.what),
        None => false,
    }
}

fn is_input_name(what: &What) -> bool
    ensures { (ts : List Ty) (before : Known) (x : List ℕ)
        → is_input (known_next before (entry_by ts x what.now)) ≡ result }
{
    match what {
        What::Input => true,
        _ => false,
    }
}

// Whether a name, in normal form, is that of standard input.
fn is_input(scope: &Scope, name: &[u8]) -> bool
    ensures { (ts : List Ty) (facts : Facts)
        → is_input (known_as (env_of ts facts scope.now) name.now) ≡ result }
{
    match scope.find(name) {
        Some(decl) => is_input_name(&decl.what),
        None => false,
    }
}

fn names_type(alloc: Global, scope: &Scope, tree: &Tree) -> Result<bool, Stop>
    ensures is { IfOk result (λ holds. (ts : List Ty) (facts : Facts)
        → is_name_of is_a_type (env_of ts facts scope.now) (term_of tree.now) ≡ holds) }
    ensures memory { IfErr result (λ stop. stop ≡ Stop.Memory) }
{
    match tree {
        Tree::Name { text, .. } => {
            let name = normal_form(alloc, text.as_slice())?;
            Ok(is_type(scope, name.as_slice()))
        }
        _ => Ok(false),
    }
}

fn names_input(alloc: Global, scope: &Scope, tree: &Tree) -> Result<bool, Stop>
    ensures is { IfOk result (λ holds. (ts : List Ty) (facts : Facts)
        → is_name_of is_input (env_of ts facts scope.now) (term_of tree.now) ≡ holds) }
    ensures memory { IfErr result (λ stop. stop ≡ Stop.Memory) }
{
    match tree {
        Tree::Name { text, .. } => {
            let name = normal_form(alloc, text.as_slice())?;
            Ok(is_input(scope, name.as_slice()))
        }
        _ => Ok(false),
    }
}

// ---- calls

/// Whether an operand is the only one, where these are behind it.
pub fn is_alone(rest: &[Tree]) -> bool
    ensures { (first : Term) → is_single (part first (parts_of rest.now)) ≡ result }
{
    match rest.split_first() {
        Some((_second, _others)) => false,
        None => true,
    }
}

// Whether an operation of the name takes types.
fn takes_types(name: &[u8]) -> bool
    ensures { same_text name.now (codes "low") || same_text name.now (codes "high") ≡ result }
{
    is_word(name, b"low") || is_word(name, b"high")
}

// Whether an operand, alone or not, is the only one and the name of a type.
fn names_type_alone(alloc: Global, scope: &Scope, first: &Tree, alone: bool) -> Result<bool, Stop>
    ensures is { IfOk result (λ holds. (ts : List Ty) (facts : Facts) (rest : Parts)
        → is_single (part (term_of first.now) rest) ≡ alone
        → is_one_type (env_of ts facts scope.now) (part (term_of first.now) rest) ≡ holds) }
    ensures memory { IfErr result (λ stop. stop ≡ Stop.Memory) }
{
    if !alone {
        return Ok(false);
    }
    names_type(alloc, scope, bare(first))
}

// Whether a call by the name, in normal form, takes the name of a type, which the first operand has
// to be, alone.
fn takes_type(
    alloc: Global,
    scope: &Scope,
    name: &[u8],
    first: &Tree,
    alone: bool,
) -> Result<bool, Stop>
    ensures is { IfOk result (λ holds. (ts : List Ty) (facts : Facts) (rest : Parts)
        → is_single (part (term_of first.now) rest) ≡ alone
        → takes_type (env_of ts facts scope.now) name.now (part (term_of first.now) rest)
        ≡ holds) }
    ensures memory { IfErr result (λ stop. stop ≡ Stop.Memory) }
{
    if !takes_types(name) {
        return Ok(false);
    }
    if is_type(scope, name) {
        return Ok(false);
    }
    names_type_alone(alloc, scope, first, alone)
}

// Whether a call by the name, in normal form, takes standard input, which the first operand has to
// be.
fn takes_input(alloc: Global, scope: &Scope, name: &[u8], first: &Tree) -> Result<bool, Stop>
    ensures is { IfOk result (λ holds. (ts : List Ty) (facts : Facts) (rest : Parts)
        → takes_input (env_of ts facts scope.now) name.now (part (term_of first.now) rest)
        ≡ holds) }
    ensures memory { IfErr result (λ stop. stop ≡ Stop.Memory) }
{
    if !is_word(name, b"readline") {
        return Ok(false);
    }
    if is_type(scope, name) {
        return Ok(false);
    }
    names_input(alloc, scope, bare(first))
}

fn demand_by(name: &[u8], takes_type: bool, takes_input: bool) -> Demand
    ensures { demand_of result ≡ demand_with name.now takes_type takes_input }
{
    if is_echo(name) {
        Demand::Echoed
    } else if is_default(name) || takes_type {
        Demand::OneType
    } else if takes_input {
        Demand::InputFirst
    } else {
        Demand::Arguments
    }
}

/// What a call by a name, in normal form, demands of its operands, of which this is the first.
pub fn method_demand(
    alloc: Global,
    scope: &Scope,
    name: &[u8],
    first: &Tree,
    alone: bool,
) -> Result<Demand, Stop>
    ensures demand { IfOk result (λ demand. (ts : List Ty) (facts : Facts) (rest : Parts)
        → is_single (part (term_of first.now) rest) ≡ alone
        → call_demand (env_of ts facts scope.now) name.now (part (term_of first.now) rest)
        ≡ demand_of demand) }
    ensures memory { IfErr result (λ stop. stop ≡ Stop.Memory) }
{
    let takes_type = takes_type(alloc, scope, name, first, alone)?;
    let takes_input = takes_input(alloc, scope, name, first)?;
    Ok(demand_by(name, takes_type, takes_input))
}

/// What a call by a name, in normal form, demands of its operands.
pub fn call_demand(
    alloc: Global,
    scope: &Scope,
    name: &[u8],
    parts: &[Tree],
) -> Result<Demand, Stop>
    ensures demand { IfOk result (λ demand. (ts : List Ty) (facts : Facts)
        → call_demand (env_of ts facts scope.now) name.now (parts_of parts.now)
        ≡ demand_of demand) }
    ensures memory { IfErr result (λ stop. stop ≡ Stop.Memory) }
{
    match parts.split_first() {
        Some((first, rest)) => method_demand(alloc, scope, name, first, is_alone(rest)),
        None => Ok(demand_by(name, false, false)),
    }
}

// ---- what stands before a dot

/// Whether it is the name of a type, or what makes types of others with something in brackets.
pub fn begins_type(alloc: Global, scope: &Scope, tree: &Tree) -> Result<bool, Stop>
    ensures is { IfOk result (λ holds. (ts : List Ty) (facts : Facts)
        → begins_type (env_of ts facts scope.now) (term_of tree.now) ≡ holds) }
    ensures memory { IfErr result (λ stop. stop ≡ Stop.Memory) }
{
    match tree {
        Tree::Name { .. } => names_type(alloc, scope, tree),
        Tree::Index { base, .. } => forms_type(alloc, scope, base),
        _ => Ok(false),
    }
}

// Whether it is a name that may stand before types in brackets.
fn forms_type(alloc: Global, scope: &Scope, tree: &Tree) -> Result<bool, Stop>
    ensures is { IfOk result (λ holds. (ts : List Ty) (facts : Facts) (at : Place) (given : Parts)
        → begins_type (env_of ts facts scope.now) (index at (term_of tree.now) given) ≡ holds) }
    ensures memory { IfErr result (λ stop. stop ≡ Stop.Memory) }
{
    match tree {
        Tree::Name { text, .. } => {
            let name = normal_form(alloc, text.as_slice())?;
            Ok(is_former(scope, name.as_slice()))
        }
        _ => Ok(false),
    }
}

fn is_former(scope: &Scope, name: &[u8]) -> bool
    ensures { (ts : List Ty) (facts : Facts)
        → is_a_type (known_as (env_of ts facts scope.now) name.now)
        || is_former (former_of (env_of ts facts scope.now) name.now) ≡ result }
{
    if is_type(scope, name) {
        return true;
    }
    makes_types(former_of(scope, name))
}

// What stands before a dot, by what a call of the name demands.
fn as_receiver(name: &[u8], demand: Demand) -> Demand
    ensures { demand_of result ≡ as_receiver_with name.now (demand_of demand) }
{
    match demand {
        Demand::OneType => Demand::OneType,
        Demand::InputFirst => Demand::InputFirst,
        _ => Demand::Receiver {
            of_echo: is_echo(name),
        },
    }
}

fn type_or_receiver(begins: bool) -> Demand
    ensures { demand_of result ≡ if begins then one_type else receiver [] }
{
    if begins {
        Demand::OneType
    } else {
        Demand::Receiver { of_echo: false }
    }
}

// Before `default`.
fn default_receiver(alloc: Global, scope: &Scope, tree: &Tree) -> Result<Demand, Stop>
    ensures demand { IfOk result (λ demand. (ts : List Ty) (facts : Facts)
        → demand_of demand ≡ if begins_type (env_of ts facts scope.now) (bare (term_of tree.now))
        then one_type else receiver []) }
    ensures memory { IfErr result (λ stop. stop ≡ Stop.Memory) }
{
    let begins = begins_type(alloc, scope, bare(tree))?;
    Ok(type_or_receiver(begins))
}

/// What is demanded of what stands before a dot and a name, in normal form.
pub fn receiver_demand(
    alloc: Global,
    scope: &Scope,
    name: &[u8],
    tree: &Tree,
) -> Result<Demand, Stop>
    ensures demand { IfOk result (λ demand. (ts : List Ty) (facts : Facts)
        → SameDemand (env_of ts facts scope.now)
        (receiver_demand (env_of ts facts scope.now) name.now (term_of tree.now))
        (demand_of demand)) }
    ensures memory { IfErr result (λ stop. stop ≡ Stop.Memory) }
{
    if is_default(name) {
        return default_receiver(alloc, scope, tree);
    }
    let demand = method_demand(alloc, scope, name, tree, true)?;
    Ok(as_receiver(name, demand))
}

// ---- what a term is under a demand

/// What a term is under a demand.
#[derive(Clone, Copy)]
pub enum Special {
    Ordinary,
    /// `@[]`, at its place.
    Open(Place),
    Type,
    Input,
}

// The place of `@[]`, by its parts.
fn open_in(at: Place, parts: &[Tree]) -> Option<Place>
    ensures { open_at (sequence at (parts_of parts.now)) ≡ result }
{
    match parts.split_first() {
        Some((_first, _others)) => None,
        None => Some(at),
    }
}

// The place of `@[]`, also in parentheses.
#[cycle(open)]
fn open_at(tree: &Tree) -> Option<Place>
    ensures { open_at (term_of tree.now) ≡ result }
{
    match tree {
        Tree::Paren { inner, .. } => open_at(inner),
        Tree::Sequence { at, parts } => open_in(*at, parts),
        _ => None,
    }
}

fn open_or_ordinary(place: Option<Place>) -> Special
    ensures { open_or_ordinary place ≡ special_of result }
{
    match place {
        Some(at) => Special::Open(at),
        None => Special::Ordinary,
    }
}

/// What a term is under a demand.
pub fn special_at(demand: Demand, tree: &Tree) -> Special
    ensures { special (demand_of demand) (term_of tree.now) ≡ special_of result }
{
    match demand {
        Demand::Closed => Special::Ordinary,
        Demand::OneType => Special::Type,
        Demand::InputFirst => Special::Input,
        _ => open_or_ordinary(open_at(tree)),
    }
}
