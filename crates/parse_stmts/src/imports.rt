// The modules that a module imports.
ghost use Rattle.std.specs.Prelude.{◌≡◌, ◌++◌, ◌∷◌, [], map, IfOk, IfErr};
ghost use Rattle.arc_base.specs.declared.place.Stop.TheVariants.{Memory};
ghost use Rattle.nim_tree.specs.Statements.{statement_of, statements_of, imports_in, imports_of, import_of};

use arc_base::{Bytes, Stop};
use nim_tree::{Import, Name, Stmt};
use std::alloc::Global;

/// The names behind `import` of these statements, in order.
pub(crate) fn imports_in(alloc: Global, body: &[Stmt]) -> Result<Vec<Import>, Stop>
    ensures ok { IfOk result (λ all. all.items ≡ imports_in (statements_of body.now)) }
    ensures err { IfErr result (λ stop. stop ≡ Memory) }
{
    let mut all = Vec::new(alloc);
    for statement in body {
        all = and_imports(alloc, all, statement)?;
    }
    Ok(all)
}

// With those of a statement behind.
fn and_imports(alloc: Global, some: Vec<Import>, statement: &Stmt) -> Result<Vec<Import>, Stop>
    ensures ok { IfOk result (λ all. all.items ≡ some.items ++ imports_of (statement_of statement.now)) }
    ensures err { IfErr result (λ stop. stop ≡ Memory) }
{
    match statement {
        Stmt::Import { names, .. } => and_names(alloc, some, names),
        _ => Ok(some),
    }
}

// With these names behind.
fn and_names(alloc: Global, some: Vec<Import>, names: &[Name]) -> Result<Vec<Import>, Stop>
    ensures ok { IfOk result (λ all. all.items ≡ some.items ++ map import_of names.now) }
    ensures err { IfErr result (λ stop. stop ≡ Memory) }
{
    let mut all = some;
    for name in names {
        all = and_import(alloc, all, name)?;
    }
    Ok(all)
}

fn and_import(alloc: Global, some: Vec<Import>, name: &Name) -> Result<Vec<Import>, Stop>
    ensures ok { IfOk result (λ all. all.items ≡ some.items ++ import_of name.now ∷ []) }
    ensures err { IfErr result (λ stop. stop ≡ Memory) }
{
    let text = Bytes::from_slice(alloc, name.text.as_slice())?;
    let mut all = some;
    all.push(Import { at: name.at, text })?;
    Ok(all)
}
