// What is assigned to itself, and a value that is the result itself.
ghost use Rattle.std.specs.Prelude.{◌≡◌, List, Some};
ghost use Rattle.nim_types.specs.Types.{Ty};
ghost use Rattle.nim_program.specs.Program.{Read};
ghost use Rattle.nim_program.specs.SelfAssignment as itself;
ghost use Rattle.nim_program.specs.View.{expr_of, path_of};
ghost use Rattle.decl_parts.specs.View.{result_place, if_result};

use crate::state::ResultPlace;
use nim_program::{Expr, Path};

fn equal_constants(i: Option<i32>, j: Option<i32>) -> bool
    ensures { result ≡ itself.equal_constants i j }
{
    match i {
        None => false,
        Some(i) => match j {
            None => false,
            Some(j) => i == j,
        },
    }
}

// The same name, the same fields, dereferences and equal constant indexes.
fn equal_paths(path: &Path, other: &Path) -> bool
    ensures { (ts : List Ty) →
        result ≡ itself.equal_paths (path_of ts path.now) (path_of ts other.now) }
{
    match path {
        Path::Variable { place, .. } => match other {
            Path::Variable { place: other, .. } => *place == *other,
            Path::Fresh { .. } => false,
            Path::Field { .. } => false,
            Path::Element { .. } => false,
            Path::Deref { .. } => false,
        },
        Path::Fresh { .. } => false,
        Path::Field { base, field, .. } => match other {
            Path::Variable { .. } => false,
            Path::Fresh { .. } => false,
            Path::Field {
                base: other_base,
                field: other_field,
                ..
            } => *field == *other_field && equal_paths(&**base, &**other_base),
            Path::Element { .. } => false,
            Path::Deref { .. } => false,
        },
        Path::Element { base, constant, .. } => match other {
            Path::Variable { .. } => false,
            Path::Fresh { .. } => false,
            Path::Field { .. } => false,
            Path::Element {
                base: other_base,
                constant: other_constant,
                ..
            } => {
                equal_constants(*constant, *other_constant) && equal_paths(&**base, &**other_base)
            }
            Path::Deref { .. } => false,
        },
        Path::Deref { base, .. } => match other {
            Path::Variable { .. } => false,
            Path::Fresh { .. } => false,
            Path::Field { .. } => false,
            Path::Element { .. } => false,
            Path::Deref {
                base: other_base,
                ..
            } => equal_paths(&**base, &**other_base),
        },
    }
}

/// Whether what is assigned is the very path that gets it.
pub fn is_itself(path: &Path, value: &Expr) -> bool
    ensures { (ts : List Ty) →
        result ≡ itself.is_itself (path_of ts path.now) (expr_of ts value.now) }
{
    match value {
        Expr::Read { path: other } => equal_paths(path, other),
        Expr::Apply { .. }
        | Expr::Call { .. }
        | Expr::Construct { .. }
        | Expr::Constant { .. }
        | Expr::Early { .. }
        | Expr::If { .. }
        | Expr::Case { .. } => false,
    }
}

fn is_place(place: ResultPlace, path: &Path) -> bool
    ensures { (ts : List Ty) →
        result ≡ itself.is_result (Some (result_place ts place)) (Read (path_of ts path.now)) }
{
    match path {
        Path::Variable { place: number, .. } => *number == place.number,
        Path::Fresh { .. } => false,
        Path::Field { .. } => false,
        Path::Element { .. } => false,
        Path::Deref { .. } => false,
    }
}

/// Whether a value is the result itself.
pub fn is_result(gives: Option<ResultPlace>, value: &Expr) -> bool
    ensures { (ts : List Ty) →
        result ≡ itself.is_result (if_result ts gives) (expr_of ts value.now) }
{
    match gives {
        None => false,
        Some(place) => match value {
            Expr::Read { path } => is_place(place, path),
            Expr::Apply { .. }
            | Expr::Call { .. }
            | Expr::Construct { .. }
            | Expr::Constant { .. }
            | Expr::Early { .. }
            | Expr::If { .. }
            | Expr::Case { .. } => false,
        },
    }
}
