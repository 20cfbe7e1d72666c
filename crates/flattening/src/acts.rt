// Lines of what is done with operands, and of values.
ghost use Rattle.std.specs.Prelude.{◌≡◌, ◌∷◌, [], IfOk};
ghost use Rattle.nim_types.specs.Table.{type_at};
ghost use Rattle.nim_program.specs.declared.operation.Use.TheVariants.{Held};
ghost use Rattle.nim_program.specs.Program.{types_in, Doing, Calling};
ghost use Rattle.nim_program.specs.View.{operands_of, if_type, literal_of, path_of};
ghost use Rattle.flat_code.specs.declared.line.Line.{Line};
ghost use Rattle.flat_code.specs.declared.line.Line.TheVariants as L;
ghost use Rattle.flat_code.specs.Pieces.{pieces_of};
ghost use Rattle.flattening.specs.Numbering.{type_number, if_number};
ghost use Rattle.flattening.specs.ExprLines.{act_line, back_line, none_fits, handed_on};
ghost use Rattle.flattening.specs.Views.{types_of, facts_of, modes_of, sources, get_line};
ghost use Rattle.flattening.specs.declared.around.Uses.TheVariants.{All, Of, OfParams};
ghost use Rattle.flattening.specs.Written.{IsPut, one};

use crate::around::{Around, Uses};
use crate::known::{gives_hooked, if_number, type_number, waits};
use crate::operand_lists::{froms, operand_types};
use crate::pieces::add_pieces;
use crate::written::Written;
use arc_base::{Items, Memory};
use flat_code::{From, Line, Owning, Piece, UseAt};
use nim_program::{Literal, Operand, Operation, Path, Use};
use nim_types::TypeId;
use std::alloc::Global;

// A line that was made, or that no memory was found for.
fn put_made(code: &mut Written<Line>, made: Result<Line, Memory>)
    ensures { (line : Line) → IfOk made (λ l. l ≡ line) → IsPut code.old code.new (one line) }
{
    match made {
        Ok(line) => code.put(line),
        Err(_) => code.lose(),
    }
}

fn operation_line(
    alloc: Global,
    around: &Around,
    t: u32,
    operation: Operation,
    how: UseAt,
    ty: Option<TypeId>,
    operands: &Vec<Operand>,
    u: u32,
) -> Result<Line, Memory>
    ensures { IfOk result (λ line. line ≡ act_line (types_of around.now) (facts_of around.now)
        (modes_of around.now) t (Doing operation) how (if_type (types_of around.now) ty)
        (types_in (operands_of (types_of around.now) operands.now.items))
        (sources around.now (Of operation) operands.now.items u)) }
{
    let ty = if_number(around, ty);
    let of = operand_types(alloc, around, operands)?;
    let from = froms(alloc, around, operands, Uses::Of(operation), u)?;
    Ok(Line::Apply {
        to: t,
        operation,
        how,
        ty,
        of,
        from,
    })
}

/// A row of the table on operands whose numbers begin with u.
pub fn put_operation(
    alloc: Global,
    code: &mut Written<Line>,
    around: &Around,
    t: u32,
    operation: Operation,
    how: UseAt,
    ty: Option<TypeId>,
    operands: &Vec<Operand>,
    u: u32,
)
    ensures { IsPut code.old code.new (one (act_line (types_of around.now) (facts_of around.now)
        (modes_of around.now) t (Doing operation) how (if_type (types_of around.now) ty)
        (types_in (operands_of (types_of around.now) operands.now.items))
        (sources around.now (Of operation) operands.now.items u))) }
{
    let made = operation_line(alloc, around, t, operation, how, ty, operands, u);
    put_made(code, made)
}

fn call_line(
    alloc: Global,
    around: &Around,
    t: u32,
    proc: u32,
    how: UseAt,
    ty: Option<TypeId>,
    operands: &Vec<Operand>,
    u: u32,
) -> Result<Line, Memory>
    ensures { IfOk result (λ line. line ≡ L.Call t how
        (if_number (types_of around.now) (if_type (types_of around.now) ty)) proc
        (sources around.now (OfParams proc) operands.now.items u)) }
{
    let ty = if_number(around, ty);
    let from = froms(alloc, around, operands, Uses::OfParams(proc), u)?;
    Ok(Line::Call {
        to: t,
        how,
        ty,
        proc,
        from,
    })
}

/// A call, whose value waits, if it does.
pub fn put_call(
    alloc: Global,
    code: &mut Written<Line>,
    around: &Around,
    t: u32,
    proc: u32,
    how: UseAt,
    ty: Option<TypeId>,
    operands: &Vec<Operand>,
    u: u32,
)
    ensures { IsPut code.old code.new (λ k. L.Call t how
        (if_number (types_of around.now) (if_type (types_of around.now) ty)) proc
        (sources around.now (OfParams proc) operands.now.items u)
        ∷ back_line (types_of around.now) (facts_of around.now) (modes_of around.now) t
        (Calling proc []) how (if_type (types_of around.now) ty) k) }
{
    let made = call_line(alloc, around, t, proc, how, ty, operands, u);
    put_made(code, made);
    put_back(alloc, code, around, t, how, ty)
}

fn copied(alloc: Global, numbers: &[u32]) -> Result<Items<u32>, Memory>
    ensures { IfOk result (λ copy. copy ≡ numbers.now) }
{
    let mut copy = Items::new(alloc);
    for number in numbers {
        copy.push(*number)?;
    }
    Ok(copy)
}

fn object_line(
    alloc: Global,
    around: &Around,
    t: u32,
    fields: &Items<u32>,
    how: UseAt,
    ty: TypeId,
    operands: &Vec<Operand>,
    u: u32,
) -> Result<Line, Memory>
    ensures { IfOk result (λ line. line ≡ L.Construct t how
        (type_number (types_of around.now) (type_at (types_of around.now) ty)) fields.now
        (sources around.now (All Held) operands.now.items u)) }
{
    let ty = type_number(around, ty);
    let fields = copied(alloc, fields.as_slice())?;
    let from = froms(alloc, around, operands, Uses::All(Use::Held), u)?;
    Ok(Line::Construct {
        to: t,
        how,
        ty,
        fields,
        from,
    })
}

/// An object from values of fields.
pub fn put_object(
    alloc: Global,
    code: &mut Written<Line>,
    around: &Around,
    t: u32,
    fields: &Items<u32>,
    how: UseAt,
    ty: TypeId,
    operands: &Vec<Operand>,
    u: u32,
)
    ensures { IsPut code.old code.new (one (L.Construct t how
        (type_number (types_of around.now) (type_at (types_of around.now) ty)) fields.now
        (sources around.now (All Held) operands.now.items u))) }
{
    let made = object_line(alloc, around, t, fields, how, ty, operands, u);
    put_made(code, made)
}

fn pieces_of(alloc: Global, literal: &Literal) -> Result<Items<Piece>, Memory>
    ensures { IfOk result (λ pieces. pieces ≡ pieces_of (literal_of literal.now)) }
{
    let mut pieces = Items::new(alloc);
    add_pieces(alloc, &mut pieces, literal)?;
    Ok(pieces)
}

fn constant_line(
    alloc: Global,
    around: &Around,
    t: u32,
    literal: &Literal,
    how: UseAt,
    ty: TypeId,
) -> Result<Line, Memory>
    ensures { IfOk result (λ line. line ≡ L.Constant t how
        (type_number (types_of around.now) (type_at (types_of around.now) ty))
        (pieces_of (literal_of literal.now))) }
{
    let ty = type_number(around, ty);
    let pieces = pieces_of(alloc, literal)?;
    Ok(Line::Constant {
        to: t,
        how,
        ty,
        pieces,
    })
}

/// The value of a constant.
pub fn put_constant(
    alloc: Global,
    code: &mut Written<Line>,
    around: &Around,
    t: u32,
    literal: &Literal,
    how: UseAt,
    ty: TypeId,
)
    ensures { IsPut code.old code.new (one (L.Constant t how
        (type_number (types_of around.now) (type_at (types_of around.now) ty))
        (pieces_of (literal_of literal.now)))) }
{
    let made = constant_line(alloc, around, t, literal, how, ty);
    put_made(code, made)
}

fn standing_line(
    alloc: Global,
    around: &Around,
    t: u32,
    literal: &Literal,
    ty: TypeId,
) -> Result<Line, Memory>
    ensures { IfOk result (λ line. line ≡ L.Standing t
        (type_number (types_of around.now) (type_at (types_of around.now) ty))
        (pieces_of (literal_of literal.now))) }
{
    let ty = type_number(around, ty);
    let pieces = pieces_of(alloc, literal)?;
    Ok(Line::Standing { to: t, ty, pieces })
}

/// A constant where it stands.
pub fn put_standing(
    alloc: Global,
    code: &mut Written<Line>,
    around: &Around,
    t: u32,
    literal: &Literal,
    ty: TypeId,
)
    ensures { IsPut code.old code.new (one (L.Standing t
        (type_number (types_of around.now) (type_at (types_of around.now) ty))
        (pieces_of (literal_of literal.now)))) }
{
    let made = standing_line(alloc, around, t, literal, ty);
    put_made(code, made)
}

/// The value at a path that is looked up to the next temporary.
pub fn put_get(code: &mut Written<Line>, around: &Around, path: &Path, how: Use, t: u32, from: u32)
    ensures { IsPut code.old code.new
        (one (get_line (types_of around.now) (path_of (types_of around.now) path.now) how t from)) }
{
    let node = path.node().number;
    code.put(Line::Get {
        to: t,
        from,
        how: UseAt { how, node },
        ty: if_number(around, path.ty()),
    })
}

/// The value of a branch is handed on, and that of the whole used.
pub fn put_handed_on(
    code: &mut Written<Line>,
    around: &Around,
    t: u32,
    from: u32,
    how: UseAt,
    ty: Option<TypeId>,
)
    ensures { IsPut code.old code.new (one (handed_on (types_of around.now) (facts_of around.now)
        (modes_of around.now) t from how (if_type (types_of around.now) ty))) }
{
    code.put(Line::Pass {
        to: t,
        from,
        how,
        ty: if_number(around, ty),
    })
}

/// The default of the type, where no branch is chosen.
pub fn put_none_fits(
    alloc: Global,
    code: &mut Written<Line>,
    around: &Around,
    t: u32,
    ty: Option<TypeId>,
    how: UseAt,
)
    ensures { IsPut code.old code.new (one (none_fits (types_of around.now) (facts_of around.now)
        (modes_of around.now) t (if_type (types_of around.now) ty) how)) }
{
    code.put(Line::Apply {
        to: t,
        operation: Operation::Default,
        how,
        ty: if_number(around, ty),
        of: Items::new(alloc),
        from: Items::new(alloc),
    })
}

/// Something is done with a value that somebody owns.
pub fn put_own(alloc: Global, code: &mut Written<Line>, what: Owning)
    ensures { IsPut code.old code.new (one (L.Own what [])) }
{
    code.put(Line::Own {
        what,
        from: Items::new(alloc),
    })
}

fn own_line(alloc: Global, what: Owning, operand: From) -> Result<Line, Memory>
    ensures { IfOk result (λ line. line ≡ L.Own what (operand ∷ [])) }
{
    let mut from = Items::new(alloc);
    from.push(operand)?;
    Ok(Line::Own { what, from })
}

/// The same with an operand.
pub fn put_own_from(alloc: Global, code: &mut Written<Line>, what: Owning, operand: From)
    ensures { IsPut code.old code.new (one (L.Own what (operand ∷ []))) }
{
    let made = own_line(alloc, what, operand);
    put_made(code, made)
}

// The value of a call waits, if it does.
fn put_back(
    alloc: Global,
    code: &mut Written<Line>,
    around: &Around,
    t: u32,
    how: UseAt,
    ty: Option<TypeId>,
)
    ensures { IsPut code.old code.new (back_line (types_of around.now) (facts_of around.now)
        (modes_of around.now) t (Calling 0 []) how (if_type (types_of around.now) ty)) }
{
    if gives_hooked(around, ty) && waits(how.how) {
        put_own_from(
            alloc,
            code,
            Owning::Waits { node: how.node },
            From::Value(t),
        )
    }
}
