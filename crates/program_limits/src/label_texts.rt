// The texts of labels, which a selector is compared with, in the same way.
ghost use Rattle.std.specs.Prelude.{ℕ, List, map};
ghost use Rattle.nim_program.specs.View.{label_of, pick_labels, branch_labels};
ghost use Rattle.program_limits.specs.Meeting.{Met, Found, label_before, branch_before, labels_before};

use crate::texts::{Texts, keep};
use nim_program::{CaseBranch, Label, Pick};
use std::alloc::Global;

fn of_label(alloc: Global, texts: &mut Texts, label: &Label)
    ensures { (met : Found) → Met texts.old met
        → Met texts.new (label_before (label_of label.now) met) }
{
    match label {
        Label::Ordinals { .. } => {}
        Label::Text(text) => keep(alloc, texts, text),
    }
}

// Those of one branch.
fn of_labels(alloc: Global, texts: &mut Texts, labels: &[Label])
    ensures { (met : Found) → Met texts.old met
        → Met texts.new (branch_before (map label_of labels.now) met) }
{
    let mut i = labels.len();
    while i > 0 {
        i -= 1;
        of_label(alloc, texts, &labels[i]);
    }
}

/// Those of the branches of an expression.
pub fn of_pick_labels(alloc: Global, texts: &mut Texts, picks: &Vec<Pick>)
    ensures { (met : Found) → Met texts.old met
        → Met texts.new (labels_before (pick_labels picks.now.items) met) }
{
    let mut i = picks.len();
    while i > 0 {
        i -= 1;
        of_labels(alloc, texts, picks[i].labels.as_slice());
    }
}

/// Those of the branches of a statement.
pub fn of_branch_labels(alloc: Global, texts: &mut Texts, branches: &Vec<CaseBranch>)
    ensures { (met : Found) → Met texts.old met
        → Met texts.new (labels_before (branch_labels branches.now.items) met) }
{
    let mut i = branches.len();
    while i > 0 {
        i -= 1;
        of_labels(alloc, texts, branches[i].labels.as_slice());
    }
}
