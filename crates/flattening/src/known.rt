// What is known around a part of a body: of types by their numbers, and of the parameters of
// procedures.
ghost use Rattle.std.specs.Prelude.{◌≡◌, ◌≤◌, ◌<◌, true, false, List, Some};
ghost use Rattle.nim_types.specs.Types.{Ty, int, same};
ghost use Rattle.nim_types.specs.Table.{type_at, types_in, meant};
ghost use Rattle.nim_program.specs.Program.{constant_in};
ghost use Rattle.nim_program.specs.View.{expr_of, path_of, if_type, param_of};
ghost use Rattle.nim_program.specs.Uses.{use_by};
ghost use Rattle.nim_meaning.specs.Here.{is_hooked, gives_hooked};
ghost use Rattle.nim_meaning.specs.Shapes.{has_node, is_read, is_text, waits, is_sink, mode_of, is_covered};
ghost use Rattle.flattening.specs.ExprLines.{has_hooks, is_copied, is_lent_at, is_one_text, is_lent_text};
ghost use Rattle.flattening.specs.ExprLines.{waits_at, branch_use};
ghost use Rattle.flattening.specs.Numbering.{type_number, if_number};
ghost use Rattle.flattening.specs.Views.{types_of, facts_of, modes_of, uses_of, act_of};

use crate::around::{Around, Uses};
use nim_program::{Expr, Literal, Mode, Operation, Param, Path, Use};
use nim_types::{TypeDef, TypeId, TypeTable, entry};

fn is_int(def: &TypeDef) -> bool
    ensures { (ts : List Ty) → same (meant ts def.now) int ≡ result }
{
    matches!(def, TypeDef::Int)
}

/// The number of the type of ints; where the table hasn't it, how many types there are.
pub fn int_number(types: &TypeTable) -> u32
    ensures { result ≡ type_number (types_in types.now) int }
{
    for id in 0..types.count() {
        if is_int(types.get(id)) {
            return id;
        }
    }
    types.count()
}

/// The number of a type of a tree. (One beyond the table, which no typed program has, stands for an
/// int.)
pub fn type_number(around: &Around, ty: TypeId) -> TypeId
    ensures { result ≡ type_number (types_of around.now) (type_at (types_of around.now) ty) }
{
    if ty >= around.types.count() {
        return int_number(around.types);
    }
    ty
}

/// The same, where there is a type.
pub fn if_number(around: &Around, ty: Option<TypeId>) -> Option<TypeId>
    ensures { result ≡ if_number (types_of around.now) (if_type (types_of around.now) ty) }
{
    match ty {
        None => None,
        Some(ty) => Some(type_number(around, ty)),
    }
}

/// Whether values of a type have something to do when they are copied, moved or destroyed.
pub fn is_hooked(around: &Around, ty: TypeId) -> bool
    ensures { result ≡ is_hooked (facts_of around.now) (type_at (types_of around.now) ty) }
{
    if ty >= around.types.count() {
        return false;
    }
    around.types.is_hooked(ty)
}

/// The same, where there is a type.
pub fn gives_hooked(around: &Around, ty: Option<TypeId>) -> bool
    ensures { result ≡ gives_hooked (facts_of around.now) (if_type (types_of around.now) ty) }
{
    match ty {
        None => false,
        Some(ty) => is_hooked(around, ty),
    }
}

/// Whether the value of an expression has hooks.
pub fn has_hooks(around: &Around, value: &Expr) -> bool
    ensures { result ≡ has_hooks (facts_of around.now) (expr_of (types_of around.now) value.now) }
{
    gives_hooked(around, value.ty())
}

/// Whether a path is a node of its own, where it is read.
pub fn has_node(path: &Path) -> bool
    ensures { (ts : List Ty) → has_node (path_of ts path.now) ≡ result }
{
    matches!(
        path,
        Path::Variable { .. } | Path::Field { .. } | Path::Element { .. }
    )
}

fn is_read(value: &Expr) -> bool
    ensures { (ts : List Ty) → is_read (expr_of ts value.now) ≡ result }
{
    match value {
        Expr::Read { path } => has_node(path),
        _ => false,
    }
}

fn is_text(value: &Expr) -> bool
    ensures read { (ts : List Ty) → is_text (expr_of ts value.now) ≡ result }
    ensures constant { (ts : List Ty) → is_one_text (constant_in (expr_of ts value.now)) ≡ result }
{
    match value {
        Expr::Constant { value, .. } => matches!(value, Literal::Text(_)),
        _ => false,
    }
}

/// Whether a value waits, for its operation or for the end of its group.
pub fn waits(how: Use) -> bool
    ensures { result ≡ waits how }
{
    !matches!(how, Use::Owned | Use::Given)
}

/// Whether a place gets a copy of what stands at the path that is read.
pub fn is_copied(around: &Around, how: Use, value: &Expr) -> bool
    ensures { result ≡ is_copied (facts_of around.now) how (expr_of (types_of around.now) value.now) }
{
    has_hooks(around, value) && (matches!(how, Use::Given) && is_read(value))
}

/// Whether a value is lent where it waits.
pub fn is_lent_at(around: &Around, uses: Uses, how: Use, value: &Expr) -> bool
    ensures { result ≡ is_lent_at (facts_of around.now) (act_of uses) how
        (expr_of (types_of around.now) value.now) }
{
    has_hooks(around, value)
        && (matches!(how, Use::Lent) && (matches!(uses, Uses::OfParams(_)) || !is_text(value)))
}

/// Whether a value is the text of a literal that a call is lent, which stands in the data.
pub fn is_lent_text(around: &Around, uses: Uses, how: Use, value: &Expr) -> bool
    ensures { result ≡ is_lent_text (facts_of around.now) (act_of uses) how
        (expr_of (types_of around.now) value.now) }
{
    is_lent_at(around, uses, how, value) && is_text(value)
}

/// The node at which a value with hooks waits. Nobody owns the text of a literal.
pub fn waits_at(around: &Around, value: &Expr) -> Option<u32>
    ensures { result ≡ waits_at (facts_of around.now) (expr_of (types_of around.now) value.now) }
{
    if has_hooks(around, value) && !is_text(value) {
        Some(value.node().number)
    } else {
        None
    }
}

/// What the value of a branch is used for: one with hooks waits until it is taken up.
pub fn branch_use(around: &Around, value: &Expr) -> Use
    ensures { result ≡ branch_use (types_of around.now) (facts_of around.now)
        (modes_of around.now) (expr_of (types_of around.now) value.now) }
{
    if has_hooks(around, value) {
        Use::Held
    } else {
        Use::Owned
    }
}

// Whether labels cover a type, where there is no `else`: all but that of texts.
fn covers(def: &TypeDef) -> bool
    ensures { (ts : List Ty) → is_covered (Some (meant ts def.now)) ≡ result }
{
    !matches!(def, TypeDef::Text)
}

/// Whether the labels of a `case` over this type cover it, where it has no `else`.
pub fn is_covered(around: &Around, ty: Option<TypeId>) -> bool
    ensures { result ≡ is_covered (if_type (types_of around.now) ty) }
{
    match ty {
        None => true,
        Some(ty) => match entry(around.types, ty) {
            None => true,
            Some(def) => covers(def),
        },
    }
}

fn is_sink(sinks: &[u32], place: u32) -> bool
    ensures { result ≡ is_sink sinks.now place }
{
    for sink in sinks {
        if *sink == place {
            return true;
        }
    }
    false
}

/// How a parameter takes its argument under a plan.
pub fn mode_of(sinks: &[u32], param: &Param) -> Mode
    ensures { (ts : List Ty) → result ≡ mode_of sinks.now (param_of ts param.now) }
{
    if is_sink(sinks, param.place.number) {
        Mode::Sink
    } else {
        param.mode
    }
}

/// How a parameter of a procedure takes its argument.
fn mode_at(around: &Around, proc: u32, position: usize) -> Mode
    ensures { result ≡ modes_of around.now proc position }
{
    match around.procs.get(proc as usize) {
        None => Mode::Plain,
        Some(proc) => match proc.params.as_slice().get(position) {
            None => Mode::Plain,
            Some(param) => mode_of(around.sinks.as_slice(), param),
        },
    }
}

/// What becomes of the operand at a position.
pub fn use_at(around: &Around, uses: Uses, position: usize) -> Use
    ensures { result ≡ uses_of (modes_of around.now) uses position }
{
    match uses {
        Uses::All(how) => how,
        Uses::Of(operation) => use_by(operation),
        Uses::OfParams(proc) => match mode_at(around, proc, position) {
            Mode::Plain => Use::Lent,
            Mode::Sink => Use::Held,
            Mode::Var => Use::Lent,
        },
    }
}

/// What becomes of each operand of an operation.
fn use_by(operation: Operation) -> Use
    ensures { result ≡ use_by operation }
{
    match operation {
        Operation::Convert => Use::Owned,
        Operation::Make | Operation::Sequence | Operation::Add => Use::Held,
        Operation::Assign => Use::Given,
        Operation::Compare(_) | Operation::Join | Operation::Echo | Operation::Append => Use::Lent,
        _ => Use::Looked,
    }
}

/// Whether a branch of a `case` is for all else, where so many of all come up to it and it.
pub fn is_last(closes: bool, position: usize, count: usize) -> bool
    ensures closes { result ≡ true → closes ≡ true }
    ensures last { result ≡ true → count ≤ position }
    ensures more { result ≡ false → closes ≡ true → position < count }
{
    closes && position >= count
}
