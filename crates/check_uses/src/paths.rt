// The globals at paths.
ghost use Rattle.std.specs.Prelude.{◌≡◌, ◌++◌, [], OnOk};
ghost use Rattle.nim_program.specs.View.{path_of};
ghost use Rattle.decl_rules.specs.Occurrences.{global_if, root_if, global_root, hands_if, hands_by};
ghost use Rattle.check_uses.specs.Uses.{seen};

use crate::uses::Occurrence;
use arc_base::{Items, Memory, Place};
use nim_program::Path;

/// Adds a use of a place, which counts where it is a global.
pub fn add_variable(uses: &mut Items<Occurrence>, global: bool, place: u32) -> Result<(), Memory>
    ensures { OnOk result (seen uses.new ≡ seen uses.old ++ global_if global place) }
{
    if global {
        uses.push(Occurrence::Global { place })?;
    }
    Ok(())
}

fn root_if(global: bool, place: u32) -> Option<u32>
    ensures { result ≡ root_if global place }
{
    if global { Some(place) } else { None }
}

// The global at the root of a path; none through a ref.
fn global_root(path: &Path) -> Option<u32>
    ensures { result ≡ global_root (path_of [] path.now) }
{
    match path {
        Path::Variable { place, global, .. } => root_if(*global, *place),
        Path::Fresh { .. } | Path::Deref { .. } => None,
        Path::Field { base, .. } | Path::Element { base, .. } => global_root(&**base),
    }
}

fn add_root(
    uses: &mut Items<Occurrence>,
    proc: u32,
    at: Place,
    root: Option<u32>,
) -> Result<(), Memory>
    ensures { OnOk result (seen uses.new ≡ seen uses.old ++ hands_if proc at root) }
{
    if let Some(global) = root {
        uses.push(Occurrence::Hands { proc, at, global })?;
    }
    Ok(())
}

/// Adds that what is called is handed what stands at a path, which counts where that is a procedure
/// and a global is the path's root.
pub fn add_handed(
    uses: &mut Items<Occurrence>,
    callee: Option<u32>,
    path: &Path,
) -> Result<(), Memory>
    ensures { OnOk result (seen uses.new ≡ seen uses.old ++ hands_by callee (path_of [] path.now)) }
{
    match callee {
        None => Ok(()),
        Some(proc) => add_root(uses, proc, path.node().at, global_root(path)),
    }
}
