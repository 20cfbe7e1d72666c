// Where the lines of label code stand.
ghost use Rattle.std.specs.Prelude.{◌≡◌, ◌≤◌, ◌+◌, ◌%◌, ◌++◌, ◌∷◌, List, ℕ, length, IfOk, OnOk};
ghost use Rattle.std.specs.List.{slice_get};
ghost use Rattle.std.specs.Option.{unwrap_or};
ghost use Rattle.rv32_isa.specs.declared.label.LabelLine.{LabelLine as Line};
ghost use Rattle.rv32_isa.specs.Hooks.{code_at};
ghost use Rattle.rv32_codegen.specs.Layout.{Far, all_far, line_size, left_at, reaches, branch_to, too_far, code_size, laid_at, target};
ghost use Rattle.rv32_codegen.specs.Places.{label_of, key_of, AreLabels, AreSizes, IsLayout};

use crate::layout::BRANCH_REACH;
use arc_base::Memory;
use rv32_isa::{CODE_AT, LabelLine, LabelName};
use std::alloc::Global;
use std::collections::HashMap;

// For the name of each label how many lines there are from it on.
type Labels = HashMap<(u32, Option<u32>), usize>;

/// Where labels and lines stand.
#[derive(Drop)]
pub(crate) struct Layout {
    labels: Labels,
    // For each number of lines at the end of the code how many bytes they have if all branches are
    // laid out as too far.
    far: Vec<u64>,
    // The same where only those are that are too far.
    sizes: Vec<u64>,
    /// The bytes of all.
    pub(crate) total: u64,
}

// What a name is looked up by.
fn key_of(name: LabelName) -> (u32, Option<u32>)
    ensures { result ≡ key_of name }
{
    match name {
        LabelName::Entry { procedure } => (procedure, None),
        LabelName::Inner { procedure, name } => (procedure, Some(name)),
    }
}

// The name of the label that a line is.
fn label_of(line: &LabelLine) -> Option<LabelName>
    ensures { result ≡ label_of line.now }
{
    match *line {
        LabelLine::Label { name, .. } => Some(name),
        _ => None,
    }
}

// Adds the label that a line is, the first of so many at the end of the code.
fn put_label(labels: &mut Labels, line: &LabelLine, left: usize) -> Result<(), Memory>
    ensures { OnOk result ((lines : List Line) → AreLabels lines labels.old →
        left ≡ length (line.now ∷ lines) → AreLabels (line.now ∷ lines) labels.new) }
{
    match label_of(line) {
        Some(name) => {
            labels.insert(key_of(name), left)?;
            Ok(())
        }
        None => Ok(()),
    }
}

// The first of several labels of one name counts, so the code is gone over from its end.
fn labels_of(alloc: Global, code: &[LabelLine]) -> Result<Labels, Memory>
    ensures { IfOk result (λ labels. AreLabels code.now labels) }
{
    let mut labels = HashMap::new(alloc);
    let mut i = code.len();
    while i > 0 {
        i -= 1;
        let line = &code[i];
        put_label(&mut labels, line, code.len() - i)?;
    }
    Ok(labels)
}

// How many bytes a line has.
fn line_size(is_far: bool, line: &LabelLine) -> u64
    ensures is { result ≡ line_size is_far line.now }
    ensures most { result ≤ 8 }
{
    match *line {
        LabelLine::Label { .. } => 0,
        LabelLine::Do { .. } | LabelLine::Jump { .. } => 4,
        LabelLine::Branch { .. } => if is_far { 8 } else { 4 },
    }
}

// The bytes of lines, where all branches are too far.
fn far_sizes(alloc: Global, code: &[LabelLine]) -> Result<Vec<u64>, Memory>
    ensures { IfOk result (λ sizes. AreSizes all_far code.now sizes.items) }
{
    let mut sizes = Vec::new(alloc);
    sizes.push(0)?;
    let mut left: u64 = 0;
    let mut i = code.len();
    while i > 0 {
        i -= 1;
        let line = &code[i];
        left += line_size(true, line);
        sizes.push(left)?;
    }
    Ok(sizes)
}

// The bytes of so many lines at the end of the code.
fn size_at(sizes: &[u64], left: usize) -> Option<u64>
    ensures { result ≡ slice_get sizes.now left }
{
    sizes.get(left).copied()
}

// The same, or another number where there are not so many.
fn size_or(sizes: &[u64], left: usize, other: u64) -> u64
    ensures { result ≡ unwrap_or (slice_get sizes.now left) other }
{
    size_at(sizes, left).unwrap_or(other)
}

// How many bytes there are from a label on.
fn left_at(labels: &Labels, sizes: &[u64], name: LabelName) -> Option<u64>
    ensures { (far : Far) (code : List Line) → AreLabels code labels.now →
        AreSizes far code sizes.now → result ≡ left_at far code name }
{
    match labels.get(&key_of(name)) {
        Some(left) => size_at(sizes, *left),
        None => None,
    }
}

// Whether a branch with so many bytes from it on reaches a label with so many.
fn reaches(from: u64, to: Option<u64>) -> bool
    ensures { result ≡ reaches from to }
{
    match to {
        Some(to) => to.saturating_sub(from) <= BRANCH_REACH
            && from.saturating_sub(to) < BRANCH_REACH,
        None => false,
    }
}

// Where a branch leads.
fn branch_to(line: &LabelLine) -> Option<LabelName>
    ensures { result ≡ branch_to line.now }
{
    match *line {
        LabelLine::Branch { to, .. } => Some(to),
        _ => None,
    }
}

// Whether a line, the first of so many at the end of the code, is a branch that is too far.
fn is_too_far(labels: &Labels, far: &[u64], left: usize, line: &LabelLine) -> bool
    ensures { (code before lines : List Line) → code ≡ before ++ line.now ∷ lines →
        left ≡ length (line.now ∷ lines) → AreLabels code labels.now →
        AreSizes all_far code far.now → result ≡ too_far code (line.now ∷ lines) }
{
    match branch_to(line) {
        Some(to) => {
            let from = size_or(far, left, 0);
            !reaches(from, left_at(labels, far, to))
        }
        None => false,
    }
}

// The bytes of lines, where branches that reach are laid out as one instruction.
fn near_sizes(
    alloc: Global,
    code: &[LabelLine],
    labels: &Labels,
    far: &[u64],
) -> Result<Vec<u64>, Memory>
    requires labels { AreLabels code.now labels.now }
    requires far { AreSizes all_far code.now far.now }
    ensures { IfOk result (λ sizes. AreSizes (too_far code.now) code.now sizes.items) }
{
    let mut sizes = Vec::new(alloc);
    sizes.push(0)?;
    let mut left: u64 = 0;
    let mut i = code.len();
    while i > 0 {
        i -= 1;
        let line = &code[i];
        let is_far = is_too_far(labels, far, code.len() - i, line);
        left += line_size(is_far, line);
        sizes.push(left)?;
    }
    Ok(sizes)
}

/// Where the lines of code stand.
pub(crate) fn layout_of(alloc: Global, code: &[LabelLine]) -> Result<Layout, Memory>
    ensures { IfOk result (λ layout. IsLayout code.now layout) }
{
    let labels = labels_of(alloc, code)?;
    let far = far_sizes(alloc, code)?;
    let sizes = near_sizes(alloc, code, &labels, &far)?;
    let total = sizes[code.len()];
    Ok(Layout {
        labels,
        far,
        sizes,
        total,
    })
}

impl Layout {
    /// Whether a line, the first of so many at the end of the code, is a branch that is too far.
    pub(crate) fn is_far(&self, left: usize, line: &LabelLine) -> bool
        ensures { (code before lines : List Line) → code ≡ before ++ line.now ∷ lines →
            left ≡ length (line.now ∷ lines) → IsLayout code self.now →
            result ≡ too_far code (line.now ∷ lines) }
    {
        is_too_far(&self.labels, &self.far, left, line)
    }

    /// The address of so many lines at the end of the code.
    pub(crate) fn address(&self, code: &[LabelLine], left: usize) -> u32
        requires layout { IsLayout code.now self.now }
        requires small { code_size code.now ≤ 524288 }
        ensures is { (before lines : List Line) → code.now ≡ before ++ lines → left ≡ length lines →
            result ≡ laid_at (too_far code.now) code.now lines }
        ensures low { code_at ≤ result }
        ensures high { result ≤ code_at + 524288 }
        ensures whole { result % 4 ≡ 0 }
    {
        let bytes = size_or(&self.sizes, left, self.total);
        CODE_AT + self.total.saturating_sub(bytes) as u32
    }

    /// The address of a label; where code begins, if it isn't there.
    pub(crate) fn target(&self, code: &[LabelLine], name: LabelName) -> u32
        requires layout { IsLayout code.now self.now }
        requires small { code_size code.now ≤ 524288 }
        ensures is { result ≡ target (too_far code.now) code.now name }
        ensures low { code_at ≤ result }
        ensures high { result ≤ code_at + 524288 }
        ensures whole { result % 4 ≡ 0 }
    {
        match self.labels.get(&key_of(name)) {
            Some(left) => self.address(code, *left),
            None => CODE_AT,
        }
    }
}
