// Flat code of a program.
ghost use Rattle.std.specs.Prelude.{◌≡◌, [], IfOk, map, option_map};
ghost use Rattle.nim_types.specs.Table.{types_in, facts_in};
ghost use Rattle.nim_program.specs.declared.program.Proc.{Proc as RustProc};
ghost use Rattle.nim_program.specs.Sizes.{HaveForms};
ghost use Rattle.nim_program.specs.View.{body_of, param_of, program_under};
ghost use Rattle.flat_code.specs.Codes.{procs_of};
ghost use Rattle.flat_code.specs.Scene.{known_in};
ghost use Rattle.flattening.specs.StmtLines.{body_lines};
ghost use Rattle.flattening.specs.Flattened.{code_of};
ghost use Rattle.flattening.specs.Given.{flat_procs};
ghost use Rattle.flattening.specs.Views.{types_of, facts_of, modes_of};
ghost use Rattle.flattening.specs.PlaceViews.{marked, listed_body, code_body, code_proc};

use crate::around::Around;
use crate::declared_places::{declare_block, put_params, put_result_place};
use crate::ends::param_ends;
use crate::stmt_code::add_block;
use crate::stmt_places::list_block;
use crate::ways::{Ways, put_leave};
use crate::written::Written;
use arc_base::{Items, Memory};
use flat_code::{Code, CodeProc, Flat, FlatPlace, Line};
use nim_plan::Plan;
use nim_program::{Body, HookOf, Leaving, Param, Proc, Program, global_marks};
use nim_types::type_forms;
use std::alloc::Global;

// The lines of a body, whose result is the one of `around`.
fn lines_of_body(
    alloc: Global,
    around: &Around,
    params: &[Param],
    body: &Body,
) -> Result<Items<Line>, Memory>
    ensures { around.now.result.now ≡ body.now.result → IfOk result (λ lines. lines
        ≡ body_lines (types_of around.now) (facts_of around.now) (modes_of around.now)
        (map (param_of (types_of around.now)) params.now)
        (body_of (types_of around.now) body.now)) }
{
    let mut code = Written::new(alloc);
    let ends = param_ends(alloc, around, params)?;
    let ways = Ways::Body(ends.as_slice());
    add_block(alloc, &mut code, around, &ways, &body.stmts, 0);
    put_leave(alloc, &mut code, around, &ways, Leaving::Return);
    code.finish()
}

// The places of a body. The numbers of globals are marked.
fn places_of_body(
    alloc: Global,
    around: &Around,
    globals: &Vec<bool>,
    params: &[Param],
    body: &Body,
) -> Result<Items<FlatPlace>, Memory>
    ensures { IfOk result (λ places. places ≡ listed_body (types_of around.now)
        (facts_of around.now) (modes_of around.now) around.now.sinks.now
        (marked globals.now.items) (map (param_of (types_of around.now)) params.now)
        (body_of (types_of around.now) body.now)) }
{
    let mut places = Written::new(alloc);
    put_params(&mut places, around, params);
    put_result_place(&mut places, around, &body.result);
    declare_block(&mut places, around, globals, &body.stmts);
    list_block(&mut places, around, &body.stmts, 0);
    places.finish()
}

// A body. What `around` says of results doesn't matter.
fn flat_body(
    alloc: Global,
    around: &Around,
    globals: &Vec<bool>,
    hook: Option<HookOf>,
    params: &[Param],
    body: &Body,
) -> Result<CodeProc<Line>, Memory>
    ensures { IfOk result (λ proc. proc ≡ code_body (types_of around.now) (facts_of around.now)
        (modes_of around.now) around.now.sinks.now (marked globals.now.items) hook
        (map (param_of (types_of around.now)) params.now)
        (body_of (types_of around.now) body.now)) }
{
    let own = Around {
        types: around.types,
        procs: around.procs,
        sinks: around.sinks,
        result: &body.result,
    };
    let lines = lines_of_body(alloc, &own, params, body)?;
    let places = places_of_body(alloc, &own, globals, params, body)?;
    Ok(CodeProc {
        first: body.first,
        span: body.places,
        places,
        lines,
        hook,
    })
}

fn flat_proc(
    alloc: Global,
    around: &Around,
    globals: &Vec<bool>,
    proc: &Proc,
) -> Result<CodeProc<Line>, Memory>
    ensures { IfOk result (λ flat. flat ≡ code_proc (types_of around.now) (facts_of around.now)
        (modes_of around.now) around.now.sinks.now (marked globals.now.items) proc.now.hook
        (map (param_of (types_of around.now)) proc.now.params)
        (option_map (body_of (types_of around.now)) proc.now.body)) }
{
    match &proc.body {
        None => Ok(CodeProc {
            first: 0,
            span: 0,
            places: Items::new(alloc),
            lines: Items::new(alloc),
            hook: proc.hook,
        }),
        Some(body) => flat_body(
            alloc,
            around,
            globals,
            proc.hook,
            proc.params.as_slice(),
            body,
        ),
    }
}

// The procedures by number.
fn each_proc(
    alloc: Global,
    around: &Around,
    globals: &Vec<bool>,
    procs: &Vec<Proc>,
) -> Result<Items<CodeProc<Line>>, Memory>
    ensures { IfOk result (λ all. all ≡ map (λ (proc : RustProc).
        code_proc (types_of around.now) (facts_of around.now) (modes_of around.now)
        around.now.sinks.now (marked globals.now.items) proc.hook
        (map (param_of (types_of around.now)) proc.params)
        (option_map (body_of (types_of around.now)) proc.body)) procs.now.items) }
{
    let mut all = Items::new(alloc);
    for proc in procs {
        all.push(flat_proc(alloc, around, globals, proc)?)?;
    }
    Ok(all)
}

/// Flat code of a typed program under a plan: of each procedure the places and the lines that it
/// has by the definitions, and at last those of the start code. It means what its laws say
/// (`flat_code`).
///
/// `Memory` where none was found; also for a body of more parts than the 2^30 that temporaries can
/// be numbered by, and for a constant of 2^32 parts, which take gigabytes.
pub fn flatten(alloc: Global, program: &Program, plan: &Plan) -> Result<Flat, Memory>
    requires forms { HaveForms program.now.types }
    ensures procs { IfOk result (λ flat. flat.procs ≡ flat_procs (program_under
        (types_in program.now.types) (facts_in program.now.types) program.now) plan.now) }
    ensures code { IfOk result (λ flat. procs_of (known_in program.now.types) flat
        ≡ code_of (program_under (types_in program.now.types) (facts_in program.now.types)
        program.now) plan.now) }
{
    type_forms();
    let around = Around {
        types: &program.types,
        procs: &program.procs,
        sinks: &plan.sinks,
        result: &program.start.result,
    };
    let globals = global_marks(alloc, program.globals.as_slice())?;
    let mut procs = each_proc(alloc, &around, &globals, &program.procs)?;
    let start = flat_body(alloc, &around, &globals, None, &[], &program.start)?;
    procs.push(start)?;
    Ok(Code { procs })
}
