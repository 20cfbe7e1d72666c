// What is known around a part of a body: of types, and of the parameters of procedures.
ghost use Rattle.std.specs.Prelude.{◌≡◌, List};
ghost use Rattle.nim_types.specs.Types.{Ty};
ghost use Rattle.nim_types.specs.Table.{type_at};
ghost use Rattle.nim_program.specs.View.{path_of, if_type};
ghost use Rattle.nim_program.specs.Uses.{use_by, use_for};
ghost use Rattle.nim_meaning.specs.Here.{is_hooked, gives_hooked};
ghost use Rattle.nim_meaning.specs.Shapes.{has_node};
ghost use Rattle.nim_meaning.specs.ActsOf.{site_at};
ghost use Rattle.nim_program.specs.Program.{node_at};
ghost use Rattle.nim_meaning.specs.TreeSites.{is_taken, site_if, if_site};
ghost use Rattle.plain_plan.specs.Views.{types_of, facts_of, modes_of, uses_of};

use crate::around::{Around, Uses};
use nim_program::{Mode, Operation, Path, Use};
use nim_types::TypeId;

/// Whether values of a type have something to do when they are copied, moved or destroyed.
pub fn is_hooked(around: &Around, ty: TypeId) -> bool
    ensures { result ≡ is_hooked (facts_of around.now) (type_at (types_of around.now) ty) }
{
    if ty >= around.types.count() {
        return false;
    }
    around.types.is_hooked(ty)
}

/// The same, where there is a type.
pub fn gives_hooked(around: &Around, ty: Option<TypeId>) -> bool
    ensures { result ≡ gives_hooked (facts_of around.now) (if_type (types_of around.now) ty) }
{
    match ty {
        None => false,
        Some(ty) => is_hooked(around, ty),
    }
}

/// Whether a path is a node of its own, where it is read.
pub fn has_node(path: &Path) -> bool
    ensures { (ts : List Ty) → has_node (path_of ts path.now) ≡ result }
{
    matches!(
        path,
        Path::Variable { .. } | Path::Field { .. } | Path::Element { .. }
    )
}

/// Whether a path is no fresh value alone.
pub fn has_path_node(path: &Path) -> bool
    ensures { (ts : List Ty) → site_if result (node_at (path_of ts path.now)).number
        ≡ if_site (site_at (path_of ts path.now)) }
{
    !matches!(path, Path::Fresh { .. })
}

/// Whether a value with hooks is copied or handed on, and not read where it stands.
pub fn is_taken(how: Use) -> bool
    ensures { result ≡ is_taken how }
{
    !matches!(how, Use::Looked)
}

// How a parameter of a procedure takes its argument.
fn mode_at(around: &Around, proc: u32, position: usize) -> Mode
    ensures { result ≡ modes_of around.now proc position }
{
    match around.procs.get(proc as usize) {
        None => Mode::Plain,
        Some(proc) => match proc.params.as_slice().get(position) {
            None => Mode::Plain,
            Some(param) => param.mode,
        },
    }
}

fn use_for(mode: Mode) -> Use
    ensures { result ≡ use_for mode }
{
    match mode {
        Mode::Plain => Use::Lent,
        Mode::Sink => Use::Held,
        Mode::Var => Use::Lent,
    }
}

/// What becomes of the operand at a position.
pub fn use_at(around: &Around, uses: Uses, position: usize) -> Use
    ensures { result ≡ uses_of (modes_of around.now) uses position }
{
    match uses {
        Uses::All(how) => how,
        Uses::Of(operation) => use_by(operation),
        Uses::OfParams(proc) => use_for(mode_at(around, proc, position)),
    }
}

// What becomes of each operand of an operation.
fn use_by(operation: Operation) -> Use
    ensures { result ≡ use_by operation }
{
    match operation {
        Operation::Convert => Use::Owned,
        Operation::Make | Operation::Sequence | Operation::Add => Use::Held,
        Operation::Assign => Use::Given,
        Operation::Compare(_) | Operation::Join | Operation::Echo | Operation::Append => Use::Lent,
        _ => Use::Looked,
    }
}
