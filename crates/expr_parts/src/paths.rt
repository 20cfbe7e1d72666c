// Paths: a name or a fresh value, followed by fields and elements.
ghost use Rattle.std.specs.Prelude.{◌≡◌, List, IfOk, IfErr};
ghost use Rattle.arc_base.specs.declared.place.Stop.TheVariants as Stop;
ghost use Rattle.nim_types.specs.Types.{Ty};
ghost use Rattle.nim_program.specs.Program.{Fresh};
ghost use Rattle.nim_program.specs.View.{expr_of, path_of as path_in};
ghost use Rattle.expr_rules.specs.Paths.{path_of, root_of};
ghost use Rattle.arc_base.specs.Refusal.{Answers};
ghost use Rattle.expr_rules.specs.Builtins.{written};
ghost use Rattle.expr_parts.specs.View.{valued_of};

use crate::value::{Value, refusal};
use arc_base::{Code, Stop};
use nim_program::{Expr, Path};
use std::alloc::Global;

/// An expression as the beginning of a path.
pub fn path_of(alloc: Global, expr: Expr) -> Result<Path, Stop>
    ensures path { IfOk result (λ p. (ts : List Ty) → path_in ts p ≡ path_of (expr_of ts expr)) }
    ensures memory { IfErr result (λ stop. stop ≡ Stop.Memory) }
{
    match expr {
        Expr::Read { path } => Ok(path),
        other => fresh(alloc, other),
    }
}

/// The path that a statement writes.
pub fn written(alloc: Global, value: Value) -> Result<Path, Stop>
    ensures { (ts : List Ty) → Answers (path_in ts) (written (valued_of ts value)) result }
{
    let writable = value.writable;
    if !writable {
        let at = value.expr.node().at;
        drop(value);
        return Err(refusal(Code::NotAssignable, at));
    }
    path_of(alloc, value.expr)
}

fn fresh(alloc: Global, expr: Expr) -> Result<Path, Stop>
    ensures path { IfOk result (λ p. (ts : List Ty) → path_in ts p ≡ Fresh (expr_of ts expr)) }
    ensures memory { IfErr result (λ stop. stop ≡ Stop.Memory) }
{
    let value = Box::new(alloc, expr)?;
    Ok(Path::Fresh { value })
}

/// The place at the root of a path, None where that is a fresh value.
pub fn root_of(path: &Path) -> Option<u32>
    ensures { (ts : List Ty) → root_of (path_in ts path.now) ≡ result }
{
    match path {
        Path::Variable { place, .. } => Some(*place),
        Path::Fresh { .. } => None,
        Path::Field { base, .. } | Path::Element { base, .. } | Path::Deref { base, .. } => {
            root_of(base)
        }
    }
}
