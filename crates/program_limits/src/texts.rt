// The texts of a program's constants, literals and labels, each distinct one once. They are met from the
// last one to the first, since a part is put before all that stands behind it.
ghost use Rattle.std.specs.Prelude.{◌≡◌, ◌+◌, ◌∷◌, ◌++◌, [], ℕ, Bool, true, false, List, option_map};
ghost use Rattle.std.specs.Prelude.{if◌then◌else◌, OnOk, Some};
ghost use Rattle.std.specs.HashSet.{contains};
ghost use Rattle.nim_types.specs.Types.{Ty, same_text};
ghost use Rattle.nim_program.specs.declared.text_sizes.TheConstants.{MOST_DATA};
ghost use Rattle.nim_program.specs.Folds.{capped, total, total_at, totals};
ghost use Rattle.nim_program.specs.Program.{Args, constant_in};
ghost use Rattle.nim_program.specs.View.{literal_of, literals_of, expr_of, path_of};
ghost use Rattle.nim_program.specs.View.{operand_before, operands_of, choices_of, picks_of};
ghost use Rattle.nim_program.specs.View.{if_value};
ghost use Rattle.program_limits.specs.Data.{literal_bytes, parts_bytes, texts_size};
ghost use Rattle.program_limits.specs.Meeting.{Met, Found, before, own_before};
ghost use Rattle.program_limits.specs.Meeting.{none_found, with_text, with_linked, given_before};
ghost use Rattle.program_limits.specs.Meeting.{literal_before, all_before, standing_before};

use crate::data::plus;
use crate::label_texts::of_pick_labels;
use crate::links::{has_links, linked_bytes};
use arc_base::{Bytes, Memory};
use nim_program::{Choice, Expr, Literal, MOST_DATA, Operand, Path, Pick, text_bytes};
use nim_types::WORD_BYTES;
use std::alloc::Global;
use std::collections::HashSet;

/// So many texts have handles of their own without counting for them (E25).
pub const FEW_TEXTS: u32 = 512;

/// The texts that were met, how many they are and their bytes, as far as they matter.
#[derive(Drop)]
pub struct Texts {
    pub kept: HashSet<Bytes>,
    pub many: u32,
    pub bytes: u32,
    /// The bytes of constants with texts or sequences inside, wherever one is used.
    pub linked: u32,
    /// Whether there was no memory for one.
    pub lost: bool,
}

/// None yet.
pub fn no_texts(alloc: Global) -> Texts
    ensures { Met result none_found }
{
    Texts {
        kept: HashSet::new(alloc),
        many: 0,
        bytes: 0,
        linked: 0,
        lost: false,
    }
}

fn put(alloc: Global, kept: &mut HashSet<Bytes>, text: &Bytes) -> Result<(), Memory>
    ensures { OnOk result ((other : List ℕ) → contains same_text kept.new other
        ≡ (if same_text text.now other then true else contains same_text kept.old other)) }
{
    let copy = Bytes::from_slice(alloc, text.as_slice())?;
    kept.insert(copy)?;
    Ok(())
}

/// One more.
pub fn keep(alloc: Global, texts: &mut Texts, text: &Bytes)
    ensures { (met : Found) → Met texts.old met → Met texts.new (with_text text.now met) }
{
    if texts.kept.contains(text) {
        return;
    }
    match put(alloc, &mut texts.kept, text) {
        Ok(()) => {
            texts.many = plus(texts.many, 1);
            texts.bytes = plus(texts.bytes, text_bytes(text))
        }
        Err(_) => texts.lost = true,
    }
}

// The bytes of a constant with texts or sequences inside, where one is used.
fn link(texts: &mut Texts, linked: u32)
    ensures { (bytes : ℕ) (met : Found) → linked ≡ capped MOST_DATA bytes → Met texts.old met
        → Met texts.new (with_linked bytes met) }
{
    texts.linked = plus(texts.linked, linked);
}

// The bytes of those that were met, with a word for each beyond the first `FEW_TEXTS`.
fn kept_size(texts: &Texts) -> u32
    ensures { (met : Found) → texts.now.lost ≡ false → Met texts.now met
        → result ≡ capped MOST_DATA (texts_size met.texts) }
{
    if texts.many <= FEW_TEXTS {
        return texts.bytes;
    }
    if texts.many > MOST_DATA {
        return MOST_DATA + 1;
    }
    plus(texts.bytes, WORD_BYTES * (texts.many - FEW_TEXTS))
}

/// The bytes of all that was met.
pub fn all_size(texts: &Texts) -> u32
    ensures { (met : Found) → texts.now.lost ≡ false → Met texts.now met
        → result ≡ capped MOST_DATA (texts_size met.texts + met.linked) }
{
    plus(kept_size(texts), texts.linked)
}

#[cycle(literals)]
fn of_literal(alloc: Global, texts: &mut Texts, literal: &Literal)
    ensures { (met : Found) → Met texts.old met
        → Met texts.new (literal_before (literal_of literal.now) met) }
{
    match literal {
        Literal::Ordinal(_) | Literal::Nil => {}
        Literal::Text(text) => keep(alloc, texts, text),
        Literal::Parts(all) => of_literals(alloc, texts, all),
        Literal::Elements(all) => of_literals(alloc, texts, all),
    }
}

#[cycle(literals)]
fn of_literals(alloc: Global, texts: &mut Texts, all: &Vec<Literal>)
    ensures { (met : Found) → Met texts.old met
        → Met texts.new (all_before (literals_of all.now.items) met) }
{
    let mut i = all.len();
    while i > 0 {
        i -= 1;
        of_literal(alloc, texts, &all[i]);
    }
}

// Those of a constant, and its bytes where texts or sequences stand in it.
fn of_constant(alloc: Global, texts: &mut Texts, literal: &Literal)
    ensures { (met : Found) → Met texts.old met
        → Met texts.new (given_before (literal_of literal.now) met) }
{
    of_literal(alloc, texts, literal);
    link(texts, linked_bytes(literal))
}

// Adds the bytes of a constant.
#[cycle(literal_bytes)]
fn push_literal(bytes: &mut Bytes, literal: &Literal) -> Result<(), Memory>
    ensures { OnOk result (bytes.new ≡ bytes.old ++ literal_bytes (literal_of literal.now)) }
{
    match literal {
        Literal::Ordinal(z) => bytes.append(&z.cast_unsigned().to_le_bytes()),
        Literal::Text(_) | Literal::Nil | Literal::Elements(_) => Ok(()),
        Literal::Parts(all) => push_parts(bytes, all),
    }
}

#[cycle(literal_bytes)]
fn push_parts(bytes: &mut Bytes, all: &Vec<Literal>) -> Result<(), Memory>
    ensures { OnOk result (bytes.new ≡ bytes.old ++ parts_bytes (literals_of all.now.items)) }
{
    if all.is_empty() {
        return bytes.append(&0_u32.to_le_bytes());
    }
    for part in all {
        push_literal(bytes, part)?;
    }
    Ok(())
}

// The bytes of a constant that is read in place, without texts or sequences.
fn keep_bytes(alloc: Global, texts: &mut Texts, literal: &Literal)
    ensures { (met : Found) → Met texts.old met
        → Met texts.new (with_text (literal_bytes (literal_of literal.now)) met) }
{
    let mut bytes = Bytes::new(alloc);
    match push_literal(&mut bytes, literal) {
        Ok(()) => keep(alloc, texts, &bytes),
        Err(_) => texts.lost = true,
    }
}

// A constant that is read in place: its bytes, once more where texts or sequences stand in it.
fn keep_standing(alloc: Global, texts: &mut Texts, literal: &Literal)
    ensures { (met : Found) → Met texts.old met
        → Met texts.new (standing_before (Some (literal_of literal.now)) met) }
{
    if has_links(literal) {
        link(texts, linked_bytes(literal))
    } else {
        keep_bytes(alloc, texts, literal)
    }
}

// The value that a path begins with, where it is a constant.
fn of_standing(alloc: Global, texts: &mut Texts, value: &Expr)
    ensures { (ts : List Ty) (met : Found) → Met texts.old met
        → Met texts.new (standing_before (constant_in (expr_of ts value.now)) met) }
{
    match value {
        Expr::Constant { value, .. } => keep_standing(alloc, texts, value),
        _ => {}
    }
}

/// Those of an expression.
#[cycle(exprs)]
pub fn of_expr(alloc: Global, texts: &mut Texts, expr: &Expr)
    ensures { (ts : List Ty) (met : Found) → Met texts.old met
        → Met texts.new (total before own_before (expr_of ts expr.now) met) }
{
    match expr {
        Expr::Apply { operands, .. } => of_operands(alloc, texts, operands),
        Expr::Call { operands, .. } => of_operands(alloc, texts, operands),
        Expr::Construct { operands, .. } => of_operands(alloc, texts, operands),
        Expr::Constant { value, .. } => of_constant(alloc, texts, value),
        Expr::Read { path } => of_path(alloc, texts, path),
        Expr::Early { left, right, .. } => {
            of_expr(alloc, texts, &**right);
            of_expr(alloc, texts, &**left)
        }
        Expr::If {
            branches,
            otherwise,
            ..
        } => {
            of_expr(alloc, texts, &**otherwise);
            of_choices(alloc, texts, branches)
        }
        Expr::Case {
            selector,
            branches,
            otherwise,
            ..
        } => {
            of_else(alloc, texts, otherwise);
            of_picks(alloc, texts, branches);
            of_operand(alloc, texts, &**selector);
            of_pick_labels(alloc, texts, branches)
        }
    }
}

/// Those of a path.
#[cycle(exprs)]
pub fn of_path(alloc: Global, texts: &mut Texts, path: &Path)
    ensures { (ts : List Ty) (read : Bool) (met : Found) → Met texts.old met
        → Met texts.new (total_at before own_before read (path_of ts path.now) met) }
{
    match path {
        Path::Variable { .. } => {}
        Path::Fresh { value } => {
            let begun = &**value;
            of_expr(alloc, texts, begun);
            of_standing(alloc, texts, begun)
        }
        Path::Field { base, .. } => of_path(alloc, texts, &**base),
        Path::Element { base, index, .. } => {
            of_expr(alloc, texts, &**index);
            of_path(alloc, texts, &**base)
        }
        Path::Deref { base, .. } => of_path(alloc, texts, &**base),
    }
}

/// Those of an operand before others.
#[cycle(exprs)]
pub fn of_operand(alloc: Global, texts: &mut Texts, operand: &Operand)
    ensures { (ts : List Ty) (rest : Args) (met : Found)
        → Met texts.old (totals before own_before rest met)
        → Met texts.new (totals before own_before (operand_before ts operand.now rest) met) }
{
    match operand {
        Operand::Value(value) => of_expr(alloc, texts, value),
        Operand::At(path) => of_path(alloc, texts, path),
    }
}

/// Those of operands.
#[cycle(exprs)]
pub fn of_operands(alloc: Global, texts: &mut Texts, operands: &Vec<Operand>)
    ensures { (ts : List Ty) (met : Found) → Met texts.old met
        → Met texts.new (totals before own_before (operands_of ts operands.now.items) met) }
{
    let mut i = operands.len();
    while i > 0 {
        i -= 1;
        of_operand(alloc, texts, &operands[i]);
    }
}

#[cycle(exprs)]
fn of_choices(alloc: Global, texts: &mut Texts, choices: &Vec<Choice>)
    ensures { (ts : List Ty) (rest : Args) (met : Found)
        → Met texts.old (totals before own_before rest met)
        → Met texts.new (totals before own_before (choices_of ts choices.now.items rest) met) }
{
    let mut i = choices.len();
    while i > 0 {
        i -= 1;
        let choice = &choices[i];
        of_expr(alloc, texts, &choice.value);
        of_expr(alloc, texts, &choice.condition);
    }
}

#[cycle(exprs)]
fn of_picks(alloc: Global, texts: &mut Texts, picks: &Vec<Pick>)
    ensures { (ts : List Ty) (rest : Args) (met : Found)
        → Met texts.old (totals before own_before rest met)
        → Met texts.new (totals before own_before (picks_of ts picks.now.items rest) met) }
{
    let mut i = picks.len();
    while i > 0 {
        i -= 1;
        of_expr(alloc, texts, &picks[i].value);
    }
}

// Those of the value of `else`, where there is one.
#[cycle(exprs)]
fn of_else(alloc: Global, texts: &mut Texts, otherwise: &Option<Box<Expr>>)
    ensures { (ts : List Ty) (met : Found) → Met texts.old met
        → Met texts.new (totals before own_before
        (if_value ts (option_map (λ e. e.value) otherwise.now)) met) }
{
    match otherwise {
        None => {}
        Some(value) => of_expr(alloc, texts, &**value),
    }
}
