// The declared places of bodies, in order of text.
ghost use Rattle.std.specs.Prelude.{◌≡◌, false, ℕ, List, Option, slice_index_or, map, option_map};
ghost use Rattle.nim_types.specs.Types.{Ty};
ghost use Rattle.nim_program.specs.declared.expr.Node.{Node as NodeOf};
ghost use Rattle.nim_program.specs.Program.{Empty, Stmts};
ghost use Rattle.flat_code.specs.declared.place.FlatPlace.{FlatPlace as PlaceOf};
ghost use Rattle.nim_program.specs.View.{declared_of, param_of, stmt_before, stmts_of, kind_of};
ghost use Rattle.nim_program.specs.View.{branch_blocks, case_blocks, handlers_of};
ghost use Rattle.flattening.specs.Places.{taken_as, kind_of_param, of_declared, param_places, result_places};
ghost use Rattle.flattening.specs.Views.{types_of, facts_of, modes_of};
ghost use Rattle.flattening.specs.PlaceViews.{marked, kind_declared, declared_in};
ghost use Rattle.flattening.specs.PlaceViews.{declared_first, declared_in_blocks, declared_in_handlers};
ghost use Rattle.flattening.specs.PlaceViews.{loop_variable, caught};
ghost use Rattle.flattening.specs.Written.{IsPut, one};
ghost use Rattle.flattening.specs.PlaceViews.{in_front};

use crate::around::Around;
use crate::known::mode_of;
use crate::temporaries::put_place;
use crate::written::Written;
use flat_code::{FlatPlace, PlaceKind};
use nim_program::{Branch, CaseBranch, Handler, Kind, Mode, Param, PlaceDecl, Stmt};

// A declared place of a kind.
fn put_declared(
    places: &mut Written<FlatPlace>,
    around: &Around,
    kind: PlaceKind,
    place: &PlaceDecl,
)
    ensures { IsPut places.old places.new (one (of_declared (types_of around.now) (facts_of around.now) (modes_of around.now) kind
        (declared_of (types_of around.now) place.now))) }
{
    put_place(places, around, place.number, place.at, kind, place.ty, None)
}

// How a parameter takes its argument that is declared so, under a plan.
fn taken_as(declared: Mode, planned: Mode) -> Mode
    ensures { result ≡ taken_as declared planned }
{
    match declared {
        Mode::Var => Mode::Var,
        Mode::Plain => planned,
        Mode::Sink => planned,
    }
}

// What kind of place a parameter has.
fn kind_of_param(around: &Around, param: &Param) -> PlaceKind
    ensures { (ts : List Ty) → result ≡ kind_of_param around.now.sinks.now (param_of ts param.now) }
{
    let planned = mode_of(around.sinks.as_slice(), param);
    PlaceKind::Param(taken_as(param.mode, planned))
}

/// Parameters.
pub fn put_params(places: &mut Written<FlatPlace>, around: &Around, params: &[Param])
    ensures { IsPut places.old places.new (in_front (param_places (types_of around.now) (facts_of around.now) (modes_of around.now) around.now.sinks.now
        (map (param_of (types_of around.now)) params.now))) }
{
    for param in params {
        put_declared(places, around, kind_of_param(around, param), &param.place);
    }
}

/// The result.
pub fn put_result_place(places: &mut Written<FlatPlace>, around: &Around, place: &Option<PlaceDecl>)
    ensures { IsPut places.old places.new (in_front (result_places (types_of around.now) (facts_of around.now) (modes_of around.now)
        (option_map (declared_of (types_of around.now)) place.now))) }
{
    match place {
        None => {}
        Some(place) => put_declared(places, around, PlaceKind::Result, place),
    }
}

// What kind of place a declaration makes, where some numbers are those of globals.
fn kind_declared(globals: &Vec<bool>, number: u32, cursor: bool) -> PlaceKind
    ensures { result ≡ kind_declared (marked globals.now.items) number cursor }
{
    match globals.get(number as usize) {
        Some(true) => PlaceKind::Global,
        _ => {
            if cursor {
                PlaceKind::Cursor
            } else {
                PlaceKind::Local
            }
        }
    }
}

/// What a block declares. The numbers of globals are marked.
#[cycle(declared)]
pub fn declare_block(
    places: &mut Written<FlatPlace>,
    around: &Around,
    globals: &Vec<bool>,
    block: &Vec<Stmt>,
)
    ensures { IsPut places.old places.new (in_front (declared_in (types_of around.now) (facts_of around.now) (modes_of around.now)
        (marked globals.now.items) (stmts_of (types_of around.now) block.now.items))) }
{
    for stmt in block {
        declare_stmt(places, around, globals, stmt);
    }
}

// What a statement declares.
#[cycle(declared)]
fn declare_stmt(places: &mut Written<FlatPlace>, around: &Around, globals: &Vec<bool>, stmt: &Stmt)
    ensures { IsPut places.old places.new (in_front (declared_first (types_of around.now) (facts_of around.now) (modes_of around.now)
        (marked globals.now.items) (stmt_before (types_of around.now) stmt.now Empty))) }
{
    match stmt {
        Stmt::Declare { place, cursor, .. } => {
            let kind = kind_declared(globals, place.number, *cursor);
            put_declared(places, around, kind, place)
        }
        Stmt::If {
            branches,
            otherwise,
            ..
        } => {
            declare_branches(places, around, globals, branches);
            declare_block(places, around, globals, otherwise)
        }
        Stmt::Case {
            branches,
            otherwise,
            ..
        } => {
            declare_cases(places, around, globals, branches);
            declare_block(places, around, globals, otherwise)
        }
        Stmt::Loop { kind, body, .. } => {
            put_variable(places, around, kind);
            declare_block(places, around, globals, body)
        }
        Stmt::Try {
            body,
            handlers,
            last,
            ..
        } => {
            declare_block(places, around, globals, body);
            declare_handlers(places, around, globals, handlers);
            declare_block(places, around, globals, last)
        }
        Stmt::Defer { last, .. } => declare_block(places, around, globals, last),
        Stmt::Do { .. }
        | Stmt::Idle { .. }
        | Stmt::Give { .. }
        | Stmt::Leave { .. }
        | Stmt::Raise { .. } => {}
    }
}

// The variable of a loop.
fn put_variable(places: &mut Written<FlatPlace>, around: &Around, kind: &Kind)
    ensures { IsPut places.old places.new (in_front (loop_variable (types_of around.now) (facts_of around.now) (modes_of around.now)
        (kind_of (types_of around.now) kind.now))) }
{
    match kind {
        Kind::While => {}
        Kind::Count { variable, .. } | Kind::Each { variable } => {
            put_declared(places, around, PlaceKind::ForVar, variable)
        }
    }
}

// What the blocks of an `if` declare, before the last one.
#[cycle(declared)]
fn declare_branches(
    places: &mut Written<FlatPlace>,
    around: &Around,
    globals: &Vec<bool>,
    branches: &Vec<Branch>,
)
    ensures { (last : Stmts) (end : Option (List PlaceOf)) →
        IsPut places.new end (in_front (declared_in (types_of around.now) (facts_of around.now) (modes_of around.now)
        (marked globals.now.items) last)) →
        IsPut places.old end (in_front (declared_in_blocks (types_of around.now) (facts_of around.now) (modes_of around.now)
        (marked globals.now.items) (branch_blocks (types_of around.now) branches.now.items last))) }
{
    for branch in branches {
        declare_block(places, around, globals, &branch.body);
    }
}

// What the blocks of a `case` declare, before the last one.
#[cycle(declared)]
fn declare_cases(
    places: &mut Written<FlatPlace>,
    around: &Around,
    globals: &Vec<bool>,
    branches: &Vec<CaseBranch>,
)
    ensures { (last : Stmts) (end : Option (List PlaceOf)) →
        IsPut places.new end (in_front (declared_in (types_of around.now) (facts_of around.now) (modes_of around.now)
        (marked globals.now.items) last)) →
        IsPut places.old end (in_front (declared_in_blocks (types_of around.now) (facts_of around.now) (modes_of around.now)
        (marked globals.now.items) (case_blocks (types_of around.now) branches.now.items last))) }
{
    for branch in branches {
        declare_block(places, around, globals, &branch.body);
    }
}

// What handlers declare.
#[cycle(declared)]
fn declare_handlers(
    places: &mut Written<FlatPlace>,
    around: &Around,
    globals: &Vec<bool>,
    handlers: &Vec<Handler>,
)
    ensures { IsPut places.old places.new (in_front (declared_in_handlers (types_of around.now) (facts_of around.now) (modes_of around.now)
        (marked globals.now.items)
        (handlers_of (types_of around.now) handlers.now.items))) }
{
    for handler in handlers {
        put_caught(places, around, &handler.name);
        declare_block(places, around, globals, &handler.body);
    }
}

// The name of an exception that is handled.
fn put_caught(places: &mut Written<FlatPlace>, around: &Around, name: &Option<PlaceDecl>)
    ensures { IsPut places.old places.new (in_front (caught (types_of around.now) (facts_of around.now) (modes_of around.now)
        (option_map (declared_of (types_of around.now)) name.now))) }
{
    match name {
        None => {}
        Some(name) => put_declared(places, around, PlaceKind::Caught, name),
    }
}
