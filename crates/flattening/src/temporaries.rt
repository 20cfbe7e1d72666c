// The temporaries of expressions and paths.
ghost use Rattle.std.specs.Prelude.{◌≡◌, List};
ghost use Rattle.nim_types.specs.Types.{Ty};
ghost use Rattle.nim_types.specs.Table.{type_at};
ghost use Rattle.nim_program.specs.Program.{is_written};
ghost use Rattle.nim_program.specs.Program.{NoArg};
ghost use Rattle.nim_program.specs.View.{path_of, operand_before, if_type};
ghost use Rattle.flattening.specs.Places.{kind_of_path, waits_by, place, temporary, value_at, read_place, location};
ghost use Rattle.flattening.specs.Places.{selector_place};
ghost use Rattle.flattening.specs.Views.{types_of, facts_of, modes_of, act_of};
ghost use Rattle.flattening.specs.PlaceViews.{in_front, lent_first};
ghost use Rattle.flattening.specs.Written.{IsPut, one};

use crate::around::{Around, Uses};
use crate::known::{is_hooked, is_lent_at, type_number};
use crate::written::Written;
use arc_base::Place;
use flat_code::{FlatPlace, PlaceKind};
use nim_program::{Node, Operand, Path, Use};
use nim_types::TypeId;

/// A place.
pub fn put_place(
    places: &mut Written<FlatPlace>,
    around: &Around,
    number: u32,
    at: Place,
    kind: PlaceKind,
    ty: TypeId,
    waits: Option<u32>,
)
    ensures { IsPut places.old places.new (one (place (types_of around.now) (facts_of around.now) (modes_of around.now) waits number at kind
        (type_at (types_of around.now) ty))) }
{
    places.put(FlatPlace {
        number,
        at,
        kind,
        ty: type_number(around, ty),
        hooked: is_hooked(around, ty),
        resource: false,
        copies: true,
        waits,
    })
}

fn waits_by(may: bool, hooked: bool, node: u32) -> Option<u32>
    ensures { result ≡ waits_by may hooked node }
{
    if may && hooked { Some(node) } else { None }
}

/// Where a path leads, where that has a type.
pub fn put_temporary(
    places: &mut Written<FlatPlace>,
    around: &Around,
    node: Node,
    ty: Option<TypeId>,
    kind: PlaceKind,
    t: u32,
)
    ensures { IsPut places.old places.new (in_front (temporary (types_of around.now) (facts_of around.now) (modes_of around.now) node
        (if_type (types_of around.now) ty) kind t)) }
{
    match ty {
        None => {}
        Some(ty) => put_place(places, around, t, node.at, kind, ty, None),
    }
}

/// The value of a node, which may wait there, where it has a type.
pub fn put_value(
    places: &mut Written<FlatPlace>,
    around: &Around,
    may_wait: bool,
    node: Node,
    ty: Option<TypeId>,
    t: u32,
)
    ensures { IsPut places.old places.new (in_front (value_at (types_of around.now) (facts_of around.now) (modes_of around.now) may_wait node
        (if_type (types_of around.now) ty) t)) }
{
    match ty {
        None => {}
        Some(ty) => {
            let waits = waits_by(may_wait, is_hooked(around, ty), node.number);
            put_place(places, around, t, node.at, PlaceKind::Temp, ty, waits)
        }
    }
}

// Whether a path begins at a place or passes through a ref.
#[cycle(written)]
fn is_written(path: &Path) -> bool
    ensures { (ts : List Ty) → result ≡ is_written (path_of ts path.now) }
{
    match path {
        Path::Variable { .. } | Path::Deref { .. } => true,
        Path::Fresh { .. } => false,
        Path::Field { base, .. } | Path::Element { base, .. } => is_written(&**base),
    }
}

/// What kind of place it is where a path leads.
pub fn kind_of_path(path: &Path) -> PlaceKind
    ensures { (ts : List Ty) → result ≡ kind_of_path (path_of ts path.now) }
{
    if is_written(path) {
        PlaceKind::Location
    } else {
        PlaceKind::Within
    }
}

/// The value at a path that is read.
pub fn put_read(
    places: &mut Written<FlatPlace>,
    around: &Around,
    may_wait: bool,
    path: &Path,
    t: u32,
)
    ensures { IsPut places.old places.new (in_front (read_place (types_of around.now) (facts_of around.now) (modes_of around.now) may_wait
        (path_of (types_of around.now) path.now) t)) }
{
    put_value(places, around, may_wait, path.node(), path.ty(), t)
}

/// Where a path leads.
pub fn put_location(places: &mut Written<FlatPlace>, around: &Around, path: &Path, t: u32)
    ensures { IsPut places.old places.new (in_front (location (types_of around.now) (facts_of around.now) (modes_of around.now)
        (path_of (types_of around.now) path.now) t)) }
{
    put_temporary(
        places,
        around,
        path.node(),
        path.ty(),
        kind_of_path(path),
        t,
    )
}

/// The value of a selector that is read in place.
pub fn put_selector(places: &mut Written<FlatPlace>, around: &Around, selector: &Operand, s: u32)
    ensures { IsPut places.old places.new (in_front (selector_place (types_of around.now) (facts_of around.now) (modes_of around.now)
        (operand_before (types_of around.now) selector.now NoArg) s)) }
{
    match selector {
        Operand::Value(_) => {}
        Operand::At(path) => put_read(places, around, false, path, s),
    }
}

/// Where an operand is lent that is a value.
pub fn put_lent(
    places: &mut Written<FlatPlace>,
    around: &Around,
    uses: Uses,
    how: Use,
    operand: &Operand,
    t: u32,
)
    ensures { IsPut places.old places.new (in_front (lent_first (types_of around.now)
        (facts_of around.now) (modes_of around.now) (act_of uses) how
        (operand_before (types_of around.now) operand.now NoArg) t)) }
{
    match operand {
        Operand::Value(value) => {
            if is_lent_at(around, uses, how, value) {
                put_temporary(
                    places,
                    around,
                    value.node(),
                    value.ty(),
                    PlaceKind::Within,
                    t,
                )
            }
        }
        Operand::At(_) => {}
    }
}
