// Overlap of two paths.
ghost use Rattle.std.specs.Prelude.{◌≡◌, ◌++◌, List, [], map, IfOk, IfErr, OnOk};
ghost use Rattle.arc_base.specs.declared.place.Stop.TheVariants as Stop;
ghost use Rattle.nim_types.specs.Types.{Ty};
ghost use Rattle.nim_program.specs.View.{path_of as path_in};
ghost use Rattle.expr_rules.specs.Paths.{overlap, overlaps_any, same_root};
ghost use Rattle.expr_parts.specs.View.{steps_in, are_other_fields, differ_in, paths_in, paths_of};

use crate::paths::root_of;
use arc_base::{Items, Stop};
use nim_program::{Operand as Argument, Path};
use std::alloc::Global;

/// A step of a path behind its root.
#[derive(Clone, Copy)]
pub enum Step {
    Field(u32),
    Element,
}

fn push_steps(steps: &mut Items<Step>, path: &Path) -> Result<(), Stop>
    ensures steps { OnOk result (steps.new ≡ steps.old ++ steps_in path.now) }
    ensures memory { IfErr result (λ stop. stop ≡ Stop.Memory) }
{
    match path {
        Path::Variable { .. } | Path::Fresh { .. } => Ok(()),
        Path::Deref { base, .. } => push_steps(steps, base),
        Path::Field { base, field, .. } => {
            push_steps(steps, base)?;
            steps.push(Step::Field(*field))?;
            Ok(())
        }
        Path::Element { base, .. } => {
            push_steps(steps, base)?;
            steps.push(Step::Element)?;
            Ok(())
        }
    }
}

fn are_other_fields(a: Step, b: Step) -> bool
    ensures { are_other_fields a b ≡ result }
{
    match (a, b) {
        (Step::Field(i), Step::Field(j)) => i != j,
        _ => false,
    }
}

// Whether some step of one is a field, and the same step of the other is another field.
fn differ(a: &[Step], b: &[Step]) -> bool
    ensures { differ_in a.now b.now ≡ result }
{
    let Some((x, a)) = a.split_first() else {
        return false;
    };
    let Some((y, b)) = b.split_first() else {
        return false;
    };
    are_other_fields(*x, *y) || differ(a, b)
}

fn is_same_root(a: Option<u32>, b: Option<u32>) -> bool
    ensures { same_root a b ≡ result }
{
    match (a, b) {
        (Some(p), Some(q)) => p == q,
        _ => false,
    }
}

fn steps_differ(alloc: Global, a: &Path, b: &Path) -> Result<bool, Stop>
    ensures differ { IfOk result (λ r. differ_in (steps_in a.now) (steps_in b.now) ≡ r) }
    ensures memory { IfErr result (λ stop. stop ≡ Stop.Memory) }
{
    let mut left = Items::new(alloc);
    push_steps(&mut left, a)?;
    let mut right = Items::new(alloc);
    push_steps(&mut right, b)?;
    Ok(differ(left.as_slice(), right.as_slice()))
}

/// Whether two paths have one root and no differing field.
pub fn overlap(alloc: Global, a: &Path, b: &Path) -> Result<bool, Stop>
    ensures overlap { IfOk result (λ r. (ts : List Ty) →
        overlap (path_in ts a.now) (path_in ts b.now) ≡ r) }
    ensures memory { IfErr result (λ stop. stop ≡ Stop.Memory) }
{
    if !is_same_root(root_of(a), root_of(b)) {
        return Ok(false);
    }
    Ok(!steps_differ(alloc, a, b)?)
}

/// Whether a path overlaps one of the arguments that are passed as `var`.
pub fn overlaps_any(alloc: Global, path: &Path, args: &[Argument]) -> Result<bool, Stop>
    ensures overlap { IfOk result (λ r. (ts : List Ty) →
        overlaps_any (path_in ts path.now) (map (path_in ts) (paths_in args.now)) ≡ r) }
    ensures memory { IfErr result (λ stop. stop ≡ Stop.Memory) }
{
    let Some((first, rest)) = args.split_first() else {
        return Ok(false);
    };
    if overlaps(alloc, path, first)? {
        return Ok(true);
    }
    overlaps_any(alloc, path, rest)
}

fn overlaps(alloc: Global, path: &Path, arg: &Argument) -> Result<bool, Stop>
    ensures overlap { IfOk result (λ r. (ts : List Ty) →
        overlaps_any (path_in ts path.now) (map (path_in ts) (paths_of arg.now)) ≡ r) }
    ensures memory { IfErr result (λ stop. stop ≡ Stop.Memory) }
{
    match arg {
        Argument::At(other) => overlap(alloc, path, other),
        Argument::Value(_) => Ok(false),
    }
}
