// How many bytes of data a program has, as far as it matters: one more than the most stands for all
// above.
ghost use Rattle.std.specs.Prelude.{◌≡◌, ◌+◌, map, nat_le, IfOk};
ghost use Rattle.nim_types.specs.Table.{type_at, types_in, facts_in};
ghost use Rattle.nim_program.specs.Sizes.{type_bytes, HaveForms};
ghost use Rattle.nim_program.specs.View.{declared_of, program_under};
ghost use Rattle.nim_program.specs.Sizes.{globals_size};
ghost use Rattle.nim_program.specs.TextSizes.{all_bytes};
ghost use Rattle.program_limits.specs.Data.{names_size, entry_names};
ghost use Rattle.program_limits.specs.Data.{data_counted};
ghost use Rattle.nim_program.specs.declared.text_sizes.TheConstants.{MOST_DATA};
ghost use Rattle.nim_program.specs.Folds.{capped};

use crate::block_texts::texts_size;
use arc_base::{Bytes, Memory};
use nim_program::{MOST_DATA, PlaceDecl, Program, text_bytes};
use nim_types::{TypeDef, TypeId, TypeTable, WORD_BYTES, type_forms};
use std::alloc::Global;

/// The bytes of the names of the six exceptions that every program has.
const GIVEN_NAMES: u32 = 84;

fn capped(bytes: u64) -> u32
    ensures { result ≡ capped MOST_DATA bytes }
{
    if bytes > u64::from(MOST_DATA) {
        MOST_DATA + 1
    } else {
        bytes as u32
    }
}

/// The sum of two.
pub fn plus(a: u32, b: u32) -> u32
    ensures { result ≡ capped MOST_DATA (a + b) }
{
    capped(u64::from(a) + u64::from(b))
}

// ---- globals

fn bytes_of(types: &TypeTable, ty: TypeId) -> u32
    requires { HaveForms types.now }
    ensures { result ≡ capped MOST_DATA (type_bytes (facts_in types.now) (type_at (types_in types.now) ty)) }
{
    type_forms();
    if ty >= types.count() {
        return WORD_BYTES;
    }
    capped(u64::from(types.size_of(ty)))
}

fn globals_size(types: &TypeTable, globals: &[PlaceDecl]) -> u32
    requires { HaveForms types.now }
    ensures { result ≡ capped MOST_DATA (globals_size (facts_in types.now)
        (map (declared_of (types_in types.now)) globals.now)) }
{
    let mut sum = 0;
    for global in globals {
        sum = plus(sum, bytes_of(types, global.ty));
    }
    sum
}

// ---- names

fn all_bytes(names: &[Bytes]) -> u32
    ensures { result ≡ capped MOST_DATA (all_bytes names.now) }
{
    let mut sum = 0;
    for name in names {
        sum = plus(sum, text_bytes(name));
    }
    sum
}

fn entry_names(def: &TypeDef) -> u32
    ensures { result ≡ capped MOST_DATA (entry_names def.now) }
{
    match def {
        TypeDef::Enum { members, .. } => all_bytes(members.as_slice()),
        TypeDef::Exception { name, .. } => text_bytes(name),
        _ => 0,
    }
}

fn names_size(types: &TypeTable) -> u32
    ensures { result ≡ capped MOST_DATA (names_size (facts_in types.now)) }
{
    let mut sum = 0;
    for ty in 0..types.count() {
        sum = plus(sum, entry_names(types.get(ty)));
    }
    sum
}

// ---- all

/// Whether a program has no more bytes of data than it may.
pub fn data_fits(alloc: Global, program: &Program) -> Result<bool, Memory>
    requires { HaveForms program.now.types }
    ensures { IfOk result (λ fits. fits ≡ nat_le (data_counted (program_under
        (types_in program.now.types) (facts_in program.now.types) program.now)) MOST_DATA) }
{
    let texts = texts_size(alloc, program)?;
    let names = plus(names_size(&program.types), plus(GIVEN_NAMES, texts));
    let globals = globals_size(&program.types, program.globals.as_slice());
    Ok(plus(globals, names) <= MOST_DATA)
}
