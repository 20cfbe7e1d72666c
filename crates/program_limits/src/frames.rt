// When a procedure is too large to be called.
ghost use Rattle.std.specs.Prelude.{◌≡◌, [], ◌∷◌, map, option_map, slice_index_or, false, ℕ, List, IfOk};
ghost use Rattle.nim_types.specs.Types.{Ty};
ghost use Rattle.nim_program.specs.Program.{Declared};
ghost use Rattle.nim_program.specs.Folds.{if_declared, param_places};
ghost use Rattle.nim_program.specs.Sizes.{HaveForms, is_global};
ghost use Rattle.nim_program.specs.View.{declared_of, param_of, body_of, proc_of};
ghost use Rattle.nim_program.specs.View.{program_under};
ghost use Rattle.nim_meaning.specs.LeftOut.{out_if, ◌or_then◌};
ghost use Rattle.program_limits.specs.Known.{known_types, known_facts};
ghost use Rattle.program_limits.specs.Frames.{deep_place, own_deep, body_fault, procs_fault};
ghost use Rattle.program_limits.specs.Frames.{start_fault, frame_fault};

use crate::known::Known;
use crate::parts::{earlier, or_then, out_if};
use crate::plain::first_number;
use crate::types::{gives_deep, is_deep};
use arc_base::{Memory, Place};
use nim_program::{
    Body, Expr, Find, Kind, MOST_BYTES, Node, Param, Path, PlaceDecl, Proc, Program, Stmt,
    body_bytes, find_in_block, global_marks,
};
use std::alloc::Global;

// ---- levels

// A place under a node.
fn deep_place(known: &Known, number: u32, place: &PlaceDecl) -> Option<Node>
    ensures one { result ≡ deep_place (known_facts known.now) number
        (declared_of (known_types known.now) place.now ∷ []) }
    ensures before { (rest : List Declared) → deep_place (known_facts known.now) number
        (declared_of (known_types known.now) place.now ∷ rest)
        ≡ (result or_then deep_place (known_facts known.now) number rest) }
{
    let node = Node {
        number,
        at: place.at,
    };
    out_if(is_deep(known, place.ty), node)
}

// Finds the first part of a tree whose type has too many levels.
#[derive(Drop)]
struct Deep<'a> {
    known: &'a Known<'a>,
}

impl<'a> Find for Deep<'a> {
    type Found = Node;

    ghost types = { λ s. known_types s.known.now };

    ghost own = { λ s. own_deep (known_facts s.known.now) };

    fn of_expr(&self, expr: &Expr) -> Option<Node> {
        match expr {
            Expr::Read { .. } => None,
            _ => out_if(gives_deep(self.known, expr.ty()), expr.node()),
        }
    }

    fn of_path(&self, path: &Path, _read: bool) -> Option<Node> {
        match path {
            Path::Fresh { value } => match &**value {
                Expr::Constant { node, ty, .. } => out_if(is_deep(self.known, *ty), *node),
                _ => None,
            },
            Path::Deref { .. } => None,
            _ => out_if(gives_deep(self.known, path.ty()), path.node()),
        }
    }

    fn of_stmt(&self, stmt: &Stmt) -> Option<Node> {
        match stmt {
            Stmt::Declare { node, place, .. } => deep_place(self.known, node.number, place),
            Stmt::Loop { node, kind, .. } => match kind {
                Kind::While => None,
                Kind::Count { variable, .. } | Kind::Each { variable } => {
                    deep_place(self.known, node.number, variable)
                }
            },
            _ => None,
        }
    }

    fn of_handler(&self, _name: &Option<PlaceDecl>) -> Option<Node> {
        None
    }
}

// ---- bodies

// The globals of a program, by their numbers, and what is known of its types.
#[derive(Drop)]
struct Around<'a> {
    known: &'a Known<'a>,
    globals: &'a [PlaceDecl],
    marks: &'a [bool],
    ghost marked: { (ts : List Ty) (n : ℕ) → slice_index_or marks.now n false
        ≡ is_global (map (declared_of ts) globals.now) n },
}

fn deep_params(known: &Known, number: u32, params: &[Param]) -> Option<Node>
    ensures { result ≡ deep_place (known_facts known.now) number
        (param_places (map (param_of (known_types known.now)) params.now)) }
{
    for param in params {
        if let Some(node) = deep_place(known, number, &param.place) {
            return Some(node);
        }
    }
    None
}

fn deep_result(known: &Known, number: u32, place: &Option<PlaceDecl>) -> Option<Node>
    ensures { result ≡ deep_place (known_facts known.now) number
        (if_declared (option_map (declared_of (known_types known.now)) place.now)) }
{
    match place {
        None => None,
        Some(place) => deep_place(known, number, place),
    }
}

fn body_fault(around: &Around, params: &[Param], whole: Node, body: &Body) -> Option<Node>
    requires { HaveForms around.now.known.now.types.now }
    ensures { result ≡ body_fault (known_facts around.now.known.now)
        (map (declared_of (known_types around.now.known.now)) around.now.globals.now)
        (map (param_of (known_types around.now.known.now)) params.now) whole
        (body_of (known_types around.now.known.now) body.now) }
{
    let known = around.known;
    let bytes = body_bytes(known.types, around.globals, around.marks, params, body);
    if bytes > MOST_BYTES {
        return Some(whole);
    }
    let number = first_number(&body.stmts);
    or_then(
        or_then(
            deep_params(known, number, params),
            deep_result(known, number, &body.result),
        ),
        find_in_block(&Deep { known }, &body.stmts),
    )
}

fn proc_fault(around: &Around, proc: &Proc) -> Option<Node>
    requires { HaveForms around.now.known.now.types.now }
    ensures { result ≡ procs_fault (known_facts around.now.known.now)
        (map (declared_of (known_types around.now.known.now)) around.now.globals.now)
        (proc_of (known_types around.now.known.now) proc.now ∷ []) }
{
    match &proc.body {
        None => None,
        Some(body) => {
            let whole = Node {
                number: first_number(&body.stmts),
                at: proc.at,
            };
            body_fault(around, proc.params.as_slice(), whole, body)
        }
    }
}

fn procs_fault(around: &Around, procs: &Vec<Proc>) -> Option<Node>
    requires { HaveForms around.now.known.now.types.now }
    ensures { result ≡ procs_fault (known_facts around.now.known.now)
        (map (declared_of (known_types around.now.known.now)) around.now.globals.now)
        (map (proc_of (known_types around.now.known.now)) procs.now.items) }
{
    let mut found = None;
    for proc in procs {
        found = earlier(found, proc_fault(around, proc));
    }
    found
}

fn start_fault(around: &Around, start: &Body) -> Option<Node>
    requires { HaveForms around.now.known.now.types.now }
    ensures { result ≡ start_fault (known_facts around.now.known.now)
        (map (declared_of (known_types around.now.known.now)) around.now.globals.now)
        (body_of (known_types around.now.known.now) start.now) }
{
    let whole = Node {
        number: 0,
        at: Place {
            module: 0,
            line: 1,
            column: 1,
        },
    };
    body_fault(around, &[], whole, start)
}

/// Where the first procedure in order of text stands that is too large, or the first type that has
/// too many levels.
pub fn frame_fault(alloc: Global, known: &Known, program: &Program) -> Result<Option<Place>, Memory>
    requires { HaveForms known.now.types.now }
    ensures { IfOk result (λ found. found ≡ frame_fault
        (program_under (known_types known.now) (known_facts known.now) program.now)) }
{
    let globals = program.globals.as_slice();
    let marks = global_marks(alloc, globals)?;
    let around = Around {
        known,
        globals,
        marks: &marks,
    };
    let found = earlier(
        procs_fault(&around, &program.procs),
        start_fault(&around, &program.start),
    );
    match found {
        None => Ok(None),
        Some(node) => Ok(Some(node.at)),
    }
}
