// How many bytes the places and nodes of a procedure take, as far as it matters.
ghost use Rattle.std.specs.Prelude.{◌≡◌, ◌≤◌, ◌+◌, ℕ, List, [], ◌∷◌, Bool, false, length, map, option_map, IfOk};
ghost use Rattle.std.specs.Prelude.{OnOk};
ghost use Rattle.std.specs.Prelude.{slice_index_or};
ghost use Rattle.nim_types.specs.Types.{Ty};
ghost use Rattle.nim_types.specs.Table.{type_at, types_in, facts_in};
ghost use Rattle.nim_program.specs.View.{if_type, declared_of, param_of, body_of, kind_of};
ghost use Rattle.nim_program.specs.Folds.{Step, Leading, capped, loop_places};
ghost use Rattle.nim_program.specs.Sizes.{type_bytes, value_bytes, if_place_bytes, loop_bytes};
ghost use Rattle.nim_program.specs.Sizes.{node_bytes, with_locals};
ghost use Rattle.nim_program.specs.Sizes.{is_global, own_bytes, params_sum, body_sum, HaveForms, HaveSizes};
ghost use Rattle.nim_program.specs.declared.sizes.TheConstants.{MOST_BYTES};

use crate::counts::{Count, count_block};
use crate::expr::{Expr, Path};
use crate::program::{Body, Param};
use crate::stmt::{Kind, PlaceDecl, Stmt};
use arc_base::Memory;
use nim_types::{TypeId, TypeTable, WORD_BYTES, type_forms};
use std::alloc::Global;

/// How many bytes the places and nodes of a procedure may have.
pub const MOST_BYTES: u32 = 16_384;

/// What a path takes in place, for each of its nodes.
const IN_PLACE: u32 = 8;

/// What each `for` takes beside its variable.
const FOR_BYTES: u32 = 8;

// ---- globals by number

// At least so many marks.
fn make_room(marks: &mut Vec<bool>, len: usize) -> Result<(), Memory>
    ensures enough { OnOk result (len ≤ length marks.new.items) }
    ensures kept { (n : ℕ) → slice_index_or marks.new.items n false
        ≡ slice_index_or marks.old.items n false }
{
    while marks.len() < len {
        marks.push(false)?;
    }
    Ok(())
}

/// Which places are globals, by their numbers.
pub fn global_marks(alloc: Global, globals: &[PlaceDecl]) -> Result<Vec<bool>, Memory>
    ensures { IfOk result (λ marks. (ts : List Ty) (n : ℕ) → slice_index_or marks.items n false
        ≡ is_global (map (declared_of ts) globals.now) n) }
{
    let mut marks = Vec::new(alloc);
    for place in globals {
        let number = place.number as usize;
        make_room(&mut marks, number + 1)?;
        marks[number] = true;
    }
    Ok(marks)
}

// ---- places and nodes

fn bytes_of(types: &TypeTable, ty: TypeId) -> u32
    requires { HaveSizes types.now }
    ensures { result ≡ capped MOST_BYTES
        (type_bytes (facts_in types.now) (type_at (types_in types.now) ty)) }
{
    if ty >= types.count() {
        return WORD_BYTES;
    }
    let bytes = types.size_of(ty);
    if bytes > MOST_BYTES {
        MOST_BYTES + 1
    } else {
        bytes
    }
}

fn value_bytes(types: &TypeTable, ty: Option<TypeId>) -> u32
    requires { HaveSizes types.now }
    ensures { result ≡ capped MOST_BYTES
        (value_bytes (facts_in types.now) (if_type (types_in types.now) ty)) }
{
    match ty {
        None => 0,
        Some(ty) => bytes_of(types, ty),
    }
}

fn place_bytes(types: &TypeTable, place: &Option<PlaceDecl>) -> u32
    requires { HaveSizes types.now }
    ensures { result ≡ capped MOST_BYTES (if_place_bytes (facts_in types.now)
        (option_map (declared_of (types_in types.now)) place.now)) }
{
    match place {
        None => 0,
        Some(place) => bytes_of(types, place.ty),
    }
}

fn plus(a: u32, b: u32) -> u32
    ensures { result ≡ capped MOST_BYTES (a + b) }
{
    let sum = u64::from(a) + u64::from(b);
    if sum > u64::from(MOST_BYTES) {
        MOST_BYTES + 1
    } else {
        sum as u32
    }
}

/// Counts the bytes of a body, where these are the globals and their marks.
#[derive(Drop)]
struct BodyBytes<'a> {
    types: &'a TypeTable,
    globals: &'a [PlaceDecl],
    marks: &'a [bool],
    ghost sizes: { HaveSizes types.now },
    ghost marked: { (n : ℕ) → slice_index_or marks.now n false
        ≡ is_global (map (declared_of (types_in types.now)) globals.now) n },
}

impl<'a> Count for BodyBytes<'a> {
    ghost most = { λ s. MOST_BYTES };

    ghost types = { λ s. types_in s.types.now };

    ghost own = { λ s. own_bytes (facts_in s.types.now)
        (map (declared_of (types_in s.types.now)) s.globals.now) };

    fn most(&self) -> u32 {
        MOST_BYTES
    }

    fn of_expr(&self, expr: &Expr) -> u32 {
        match expr {
            Expr::Read { .. } => 0,
            _ => value_bytes(self.types, expr.ty()),
        }
    }

    fn of_path(&self, path: &Path, read: bool) -> u32 {
        match path {
            Path::Fresh { value } => match &**value {
                Expr::Constant { ty, .. } => self.step_bytes(Some(*ty), read),
                _ => 0,
            },
            Path::Deref { .. } => 0,
            _ => self.step_bytes(path.ty(), read),
        }
    }

    fn of_stmt(&self, stmt: &Stmt) -> u32 {
        match stmt {
            Stmt::Declare { place, .. } => self.local_bytes(place),
            Stmt::Loop { kind, .. } => self.loop_bytes(kind),
            _ => 0,
        }
    }

    fn of_handler(&self, name: &Option<PlaceDecl>) -> u32 {
        match name {
            None => 0,
            Some(place) => bytes_of(self.types, place.ty),
        }
    }
}

impl<'a> BodyBytes<'a> {
    fn is_global(&self, number: u32) -> bool
        ensures { result ≡ is_global
            (map (declared_of (types_in self.now.types.now)) self.now.globals.now) number }
    {
        match self.marks.get(number as usize) {
            Some(mark) => *mark,
            None => false,
        }
    }

    // Of a step of a path, by its type.
    fn step_bytes(&self, ty: Option<TypeId>, read: bool) -> u32
        ensures { (written : Bool) (step : Step) → result ≡ capped MOST_BYTES
            (node_bytes (facts_in self.now.types.now) (Leading read written step)
            (if_type (types_in self.now.types.now) ty)) }
    {
        if read {
            value_bytes(self.types, ty)
        } else {
            IN_PLACE
        }
    }

    // Of a place, unless it is one of the globals.
    fn local_bytes(&self, place: &PlaceDecl) -> u32
        ensures { result ≡ capped MOST_BYTES (with_locals (facts_in self.now.types.now)
            (map (declared_of (types_in self.now.types.now)) self.now.globals.now)
            (declared_of (types_in self.now.types.now) place.now ∷ []) 0) }
    {
        if self.is_global(place.number) {
            0
        } else {
            bytes_of(self.types, place.ty)
        }
    }

    // Of a loop and its variable, which is no global.
    fn loop_bytes(&self, kind: &Kind) -> u32
        ensures { result ≡ capped MOST_BYTES (with_locals (facts_in self.now.types.now) []
            (loop_places (kind_of (types_in self.now.types.now) kind.now))
            (loop_bytes (kind_of (types_in self.now.types.now) kind.now))) }
    {
        match kind {
            Kind::While => 0,
            Kind::Count { variable, .. } | Kind::Each { variable } => {
                plus(bytes_of(self.types, variable.ty), FOR_BYTES)
            }
        }
    }
}

fn params_sum(types: &TypeTable, params: &[Param]) -> u32
    requires { HaveSizes types.now }
    ensures { result ≡ capped MOST_BYTES (params_sum (facts_in types.now)
        (map (param_of (types_in types.now)) params.now)) }
{
    let mut all = 0;
    let mut i = params.len();
    while i > 0 {
        i -= 1;
        all = plus(bytes_of(types, params[i].place.ty), all);
    }
    all
}

/// The bytes of a procedure with these parameters, or of the start code, as far as they matter: of
/// its places and nodes, where these are the globals and their marks.
pub fn body_bytes(
    types: &TypeTable,
    globals: &[PlaceDecl],
    marks: &[bool],
    params: &[Param],
    body: &Body,
) -> u32
    requires forms { HaveForms types.now }
    requires marked { (n : ℕ) → slice_index_or marks.now n false
        ≡ is_global (map (declared_of (types_in types.now)) globals.now) n }
    ensures { result ≡ capped MOST_BYTES (body_sum (facts_in types.now)
        (map (declared_of (types_in types.now)) globals.now)
        (map (param_of (types_in types.now)) params.now)
        (body_of (types_in types.now) body.now)) }
{
    type_forms();
    let count = BodyBytes {
        types,
        globals,
        marks,
    };
    let result = place_bytes(types, &body.result);
    let stmts = count_block(&count, &body.stmts);
    plus(plus(params_sum(types, params), result), stmts)
}
