// Whether homes are right: which variable each register holds in front of each line.
ghost use Rattle.std.specs.Prelude.{◌≡◌, ◌<◌, ◌+◌, ℕ, true};
ghost use Rattle.reg_scan.specs.Fine as spec;

use crate::effects::{Effect, effect_of};
use crate::homes::{Home, home_at};
use std::collections::HashMap;
use word_code::WordInstr;

/// Stands where a register holds no variable.
pub(crate) const NO_VARIABLE: u32 = 4_294_967_295;

/// Where labels stand.
pub(crate) type Labels = HashMap<u32, usize>;

/// Where the table has what a register holds in front of a line.
pub(crate) fn place(position: usize, register: u32) -> usize
    ensures { result ≡ spec.place position register }
{
    position.wrapping_mul(32).wrapping_add(register as usize)
}

fn known(variable: Option<u32>) -> Option<u32>
    ensures { result ≡ spec.known variable }
{
    match variable {
        Some(variable) => if variable == NO_VARIABLE {
            None
        } else {
            Some(variable)
        },
        None => None,
    }
}

// The variable that a register holds in front of a line.
fn holder(of: &[u32], position: usize, register: u32) -> Option<u32>
    ensures { result ≡ spec.holder of.now position register }
{
    known(of.get(place(position, register)).copied())
}

// The position that is noted for a label.
fn label_at(labels: &Labels, name: u32) -> usize
    ensures { result ≡ spec.label_at labels.now name }
{
    match labels.get(&name) {
        Some(position) => *position,
        None => 0,
    }
}

fn is_one(held: Option<u32>, variable: u32) -> bool
    ensures { result ≡ spec.is_one held variable }
{
    match held {
        Some(other) => other == variable,
        None => false,
    }
}

// What is held is nothing, or the same.
fn is_within(inner: Option<u32>, outer: Option<u32>) -> bool
    ensures { result ≡ spec.is_within inner outer }
{
    match inner {
        Some(variable) => is_one(outer, variable),
        None => true,
    }
}

fn is_register(home: Home, register: u32) -> bool
    ensures { result ≡ spec.is_register home register }
{
    match home {
        Home::Reg(number) => number == register,
        Home::Frame(_) => false,
    }
}

// A variable, if there is one, has that register.
fn has_register(homes: &[Home], variable: Option<u32>, register: u32) -> bool
    ensures { result ≡ spec.has_register homes.now variable register }
{
    match variable {
        Some(variable) => is_register(home_at(homes, variable), register),
        None => false,
    }
}

// What a register holds behind a line it holds in front of it, or it is what the line sets.
fn stays(effect: Effect, here: Option<u32>, behind: Option<u32>) -> bool
    ensures { result ≡ spec.stays effect here behind }
{
    !effect.goes_on || (is_within(behind, here) || is_within(behind, effect.to))
}

// Where a line sets a register, or calls, it holds nothing else behind it.
fn sets(effect: Effect, in_it: bool, behind: Option<u32>) -> bool
    ensures { result ≡ spec.sets effect in_it behind }
{
    !(effect.calls || in_it) || is_within(behind, effect.to)
}

// A variable that is read is in its register.
fn is_held(in_it: bool, variable: Option<u32>, here: Option<u32>) -> bool
    ensures { result ≡ spec.is_held in_it variable here }
{
    !in_it || is_within(variable, here)
}

// The label that a line is.
fn label_of(line: WordInstr) -> Option<u32>
    ensures { result ≡ spec.label_of line }
{
    match line {
        WordInstr::Label { name } => Some(name),
        _ => None,
    }
}

// The position that is noted for a label, if there is one.
fn position_of(labels: &Labels, name: Option<u32>) -> Option<usize>
    ensures { result ≡ spec.position_of labels.now name }
{
    match name {
        Some(name) => Some(label_at(labels, name)),
        None => None,
    }
}

// What is held in front of the line to which one leads, if it leads to one.
fn held_at(of: &[u32], position: Option<usize>, register: u32) -> Option<u32>
    ensures { result ≡ spec.held_at of.now position register }
{
    match position {
        Some(position) => holder(of, position, register),
        None => None,
    }
}

// What a label's register holds is noted.
fn is_noted(of: &[u32], own: Option<usize>, register: u32, here: Option<u32>) -> bool
    ensures { result ≡ spec.is_noted of.now own register here }
{
    match own {
        Some(position) => is_within(here, holder(of, position, register)),
        None => true,
    }
}

fn is_right_by(
    of: &[u32],
    homes: &[Home],
    effect: Effect,
    there: Option<usize>,
    register: u32,
    here: Option<u32>,
    behind: Option<u32>,
) -> bool
    ensures { result ≡ spec.is_right_by of.now homes.now effect there register here behind }
{
    stays(effect, here, behind)
        && (sets(effect, has_register(homes, effect.to, register), behind)
            && (is_within(held_at(of, there, register), here)
                && (is_held(
                    has_register(homes, effect.first, register),
                    effect.first,
                    here,
                ) && is_held(
                    has_register(homes, effect.second, register),
                    effect.second,
                    here,
                ))))
}

// A register is right at a line that does this, leads there and is noted as that position.
fn is_right(
    of: &[u32],
    homes: &[Home],
    effect: Effect,
    there: Option<usize>,
    own: Option<usize>,
    position: usize,
    register: u32,
) -> bool
    requires { position < 18446744073709551615 }
    ensures { result ≡ spec.is_right_at of.now homes.now effect there own position register }
{
    let here = holder(of, position, register);
    let behind = holder(of, position + 1, register);
    is_right_by(of, homes, effect, there, register, here, behind)
        && is_noted(of, own, register, here)
}

// All registers are right at a line.
fn are_right(of: &[u32], labels: &Labels, homes: &[Home], line: WordInstr, position: usize) -> bool
    requires { position < 18446744073709551615 }
    ensures { result ≡ true → (register : ℕ) → register < 32 →
        spec.is_right of.now homes.now labels.now line position register ≡ true }
{
    let effect = effect_of(line);
    let there = position_of(labels, effect.label);
    let own = position_of(labels, label_of(line));
    for register in 0..32 {
        if !is_right(of, homes, effect, there, own, position, register) {
            return false;
        }
    }
    true
}

// They are right at all lines.
fn all_right(of: &[u32], labels: &Labels, homes: &[Home], lines: &[WordInstr]) -> bool
    ensures { result ≡ true → spec.AllRight of.now homes.now labels.now lines.now }
{
    for position in 0..lines.len() {
        if !are_right(of, labels, homes, lines[position], position) {
            return false;
        }
    }
    true
}

// What is held is no parameter.
fn is_past(held: Option<u32>, params: u32) -> bool
    ensures { result ≡ spec.is_past held params }
{
    match held {
        Some(variable) => params <= variable,
        None => true,
    }
}

// In front of all lines registers hold no parameter.
fn none_first(of: &[u32], params: u32) -> bool
    ensures { result ≡ true → spec.NoneFirst of.now params }
{
    for register in 0..32 {
        if !is_past(holder(of, 0, register), params) {
            return false;
        }
    }
    true
}

/// Whether homes are right, where registers hold these variables in front of lines.
pub(crate) fn is_fine(
    of: &[u32],
    labels: &Labels,
    homes: &[Home],
    params: u32,
    lines: &[WordInstr],
) -> bool
    ensures right { result ≡ true → spec.AllRight of.now homes.now labels.now lines.now }
    ensures first { result ≡ true → spec.NoneFirst of.now params }
{
    all_right(of, labels, homes, lines) && none_first(of, params)
}
