// Which register each variable gets. Nothing is promised of it: `is_fine` tests what comes out.
use crate::chains::{Chains, filled};
use crate::effects::{Effect, effect_of};
use crate::fine::{Labels, NO_VARIABLE, place};
use arc_base::Memory;
use std::alloc::Global;
use std::collections::HashMap;
use word_code::{WordInstr, WordProc};

/// The registers that variables may have, a bit for each.
const FREE: u32 = 0xFFFD_E300;

/// How much is looked at for each line, so that the time grows with the lines alone.
const WORK_OF_LINE: usize = 64;

/// What was chosen for a procedure.
#[derive(Drop)]
pub(crate) struct Choice {
    /// The register of each variable that has one.
    pub(crate) registers: Vec<Option<u32>>,
    /// The variable that each register holds in front of each line.
    pub(crate) held: Vec<u32>,
    /// Where labels stand.
    pub(crate) labels: Labels,
}

// What lines do, and from which lines control comes to each.
#[derive(Drop)]
struct Flow {
    effects: Vec<Effect>,
    // For each line that is a label those that lead to it.
    jumps: Chains,
    // For each variable the lines that read it: line i reads two at most, 2 * i and 2 * i + 1.
    reads: Chains,
    // For each variable the lines that set it.
    sets: Chains,
}

// Where one variable is alive, while this is found out.
#[derive(Drop)]
struct Alive {
    // For each line the variable for which it was last found, and one more.
    stamps: Vec<u32>,
    // The lines in front of which the variable is alive.
    found: Vec<usize>,
    // Whether a call lies between.
    crosses: bool,
}

// Where labels stand: the first of each name.
fn labels_of(alloc: Global, lines: &[WordInstr]) -> Result<Labels, Memory> {
    let mut labels = HashMap::new(alloc);
    for behind in 0..lines.len() {
        let i = lines.len() - 1 - behind;
        if let WordInstr::Label { name } = lines[i] {
            labels.insert(name, i)?;
        }
    }
    Ok(labels)
}

// A variable that a line reads.
fn note(chains: &mut Chains, variable: Option<u32>, entry: usize) {
    if let Some(variable) = variable {
        chains.add(variable as usize, entry);
    }
}

// The line to which one leads.
fn note_jump(jumps: &mut Chains, labels: &Labels, label: Option<u32>, line: usize) {
    if let Some(name) = label {
        if let Some(target) = labels.get(&name) {
            jumps.add(*target, line);
        }
    }
}

fn flow_of(alloc: Global, vars: u32, lines: &[WordInstr], labels: &Labels) -> Result<Flow, Memory> {
    let mut effects = Vec::new(alloc);
    let mut jumps = Chains::new(alloc, lines.len(), lines.len())?;
    let mut reads = Chains::new(alloc, vars as usize, lines.len().saturating_mul(2))?;
    let mut sets = Chains::new(alloc, vars as usize, lines.len())?;
    for i in 0..lines.len() {
        let effect = effect_of(lines[i]);
        note(&mut reads, effect.first, i.saturating_mul(2));
        note(
            &mut reads,
            effect.second,
            i.saturating_mul(2).saturating_add(1),
        );
        note(&mut sets, effect.to, i);
        note_jump(&mut jumps, labels, effect.label, i);
        effects.push(effect)?;
    }
    Ok(Flow {
        effects,
        jumps,
        reads,
        sets,
    })
}

// A variable is alive in front of a line.
fn visit(alive: &mut Alive, line: usize, variable: u32) -> Result<(), Memory> {
    if let Some(stamp) = alive.stamps.get_mut(line) {
        if *stamp != variable.wrapping_add(1) {
            *stamp = variable.wrapping_add(1);
            alive.found.push(line)?;
        }
    }
    Ok(())
}

// A variable is alive behind a line from which control comes.
fn go_back(flow: &Flow, alive: &mut Alive, line: usize, variable: u32) -> Result<(), Memory> {
    let effect = flow.effects.get(line).copied();
    if let Some(effect) = effect {
        if effect.to != Some(variable) {
            if effect.calls {
                alive.crosses = true;
            }
            return visit(alive, line, variable);
        }
    }
    Ok(())
}

// What is before a line in front of which a variable is alive.
fn go_back_from(flow: &Flow, alive: &mut Alive, line: usize, variable: u32) -> Result<(), Memory> {
    if line > 0 {
        let before = flow.effects.get(line - 1).copied();
        if before.is_some_and(|effect| effect.goes_on) {
            go_back(flow, alive, line - 1, variable)?;
        }
    }
    let mut jump = flow.jumps.first(line);
    for _ in 0..flow.effects.len() {
        match jump {
            Some(from) => {
                go_back(flow, alive, from, variable)?;
                jump = flow.jumps.next(from);
            }
            None => {
                return Ok(());
            }
        }
    }
    Ok(())
}

// Where a variable is alive.
fn find_alive(flow: &Flow, alive: &mut Alive, variable: u32) -> Result<(), Memory> {
    alive.found.clear();
    alive.crosses = false;
    let mut read = flow.reads.first(variable as usize);
    for _ in 0..flow.effects.len().saturating_mul(2) {
        match read {
            Some(entry) => {
                visit(alive, entry / 2, variable)?;
                read = flow.reads.next(entry);
            }
            None => {
                break;
            }
        }
    }
    for at in 0..flow.effects.len() {
        let line = alive.found.get(at).copied();
        match line {
            Some(line) => go_back_from(flow, alive, line, variable)?,
            None => {
                return Ok(());
            }
        }
        if alive.crosses {
            return Ok(());
        }
    }
    Ok(())
}

// How many loops are around each line: those of lines that lead back to it or a line before it.
fn depths_of(alloc: Global, flow: &Flow, labels: &Labels) -> Result<Vec<u32>, Memory> {
    let lines = flow.effects.len();
    let mut begins = filled(alloc, 0_u32, lines)?;
    let mut ends = filled(alloc, 0_u32, lines)?;
    for i in 0..lines {
        if let Some(name) = flow.effects[i].label {
            if let Some(target) = labels.get(&name) {
                if *target <= i {
                    add_one(&mut begins, *target);
                    add_one(&mut ends, i);
                }
            }
        }
    }
    let mut depths = Vec::new(alloc);
    let mut depth: u32 = 0;
    for i in 0..lines {
        depth = depth.saturating_add(begins.get(i).copied().unwrap_or(0));
        depths.push(depth)?;
        depth = depth.saturating_sub(ends.get(i).copied().unwrap_or(0));
    }
    Ok(depths)
}

fn add_one(counts: &mut Vec<u32>, at: usize) {
    if let Some(count) = counts.get_mut(at) {
        *count = count.saturating_add(1);
    }
}

// A variable is named in so many loops.
fn weigh(weights: &mut Vec<u64>, variable: Option<u32>, depth: u32) {
    if let Some(variable) = variable {
        if let Some(weight) = weights.get_mut(variable as usize) {
            *weight = weight.saturating_add(8_u64.saturating_pow(depth));
        }
    }
}

// The variables that lines name, those of the innermost loops first.
fn order_of(
    alloc: Global,
    vars: u32,
    flow: &Flow,
    labels: &Labels,
) -> Result<Vec<(u64, u32)>, Memory> {
    let depths = depths_of(alloc, flow, labels)?;
    let mut weights = filled(alloc, 0_u64, vars as usize)?;
    for i in 0..flow.effects.len() {
        let effect = flow.effects[i];
        let depth = depths.get(i).copied().unwrap_or(0);
        weigh(&mut weights, effect.first, depth);
        weigh(&mut weights, effect.second, depth);
        weigh(&mut weights, effect.to, depth);
    }
    let mut order = Vec::new(alloc);
    for variable in 0..vars {
        let weight = weights.get(variable as usize).copied().unwrap_or(0);
        if weight > 0 {
            order.push((u64::MAX - weight, variable))?;
        }
    }
    order.sort()?;
    Ok(order)
}

// The registers, a bit for each, that have variables where one is alive, or behind lines that set it.
fn taken(flow: &Flow, alive: &Alive, busy: &[u32], variable: u32) -> u32 {
    let mut registers = 0;
    for line in &alive.found {
        registers |= busy.get(*line).copied().unwrap_or(0);
    }
    let mut set = flow.sets.first(variable as usize);
    for _ in 0..busy.len() {
        match set {
            Some(line) => {
                registers |= busy.get(line.saturating_add(1)).copied().unwrap_or(0);
                set = flow.sets.next(line);
            }
            None => {
                return registers;
            }
        }
    }
    registers
}

fn take_at(busy: &mut Vec<u32>, line: usize, bit: u32) {
    if let Some(registers) = busy.get_mut(line) {
        *registers |= bit;
    }
}

// A register has a variable where it is alive, and behind lines that set it.
fn take(flow: &Flow, alive: &Alive, busy: &mut Vec<u32>, variable: u32, bit: u32) {
    for line in &alive.found {
        take_at(busy, *line, bit);
    }
    let mut set = flow.sets.first(variable as usize);
    for _ in 0..flow.effects.len() {
        match set {
            Some(line) => {
                take_at(busy, line.saturating_add(1), bit);
                set = flow.sets.next(line);
            }
            None => {
                return;
            }
        }
    }
}

// Notes the register of a variable, and where it holds it.
fn note_choice(choice: &mut Choice, alive: &Alive, variable: u32, register: u32) {
    if let Some(chosen) = choice.registers.get_mut(variable as usize) {
        *chosen = Some(register);
    }
    for line in &alive.found {
        if let Some(held) = choice.held.get_mut(place(*line, register)) {
            *held = variable;
        }
    }
}

// A register for a variable, if there is one that is free wherever it is alive. A variable that is
// alive behind a call, or a parameter that is alive in front of all lines, gets none.
fn choose_one(
    flow: &Flow,
    alive: &mut Alive,
    busy: &mut Vec<u32>,
    choice: &mut Choice,
    params: u32,
    variable: u32,
) -> Result<(), Memory> {
    find_alive(flow, alive, variable)?;
    let is_first = alive.stamps.get(0).copied() == Some(variable.wrapping_add(1));
    if alive.crosses || is_first && variable < params {
        return Ok(());
    }
    let free = FREE & !taken(flow, alive, busy, variable);
    if free != 0 {
        let register = free.trailing_zeros();
        take(flow, alive, busy, variable, 1_u32.wrapping_shl(register));
        note_choice(choice, alive, variable, register);
    }
    Ok(())
}

/// Registers for the variables of a procedure: first for those that are named most, in loops.
pub(crate) fn choose(alloc: Global, proc: &WordProc) -> Result<Choice, Memory> {
    let lines = proc.lines.as_slice();
    let labels = labels_of(alloc, lines)?;
    let flow = flow_of(alloc, proc.vars, lines, &labels)?;
    let order = order_of(alloc, proc.vars, &flow, &labels)?;
    let mut busy = filled(alloc, 0_u32, lines.len())?;
    let mut alive = Alive {
        stamps: filled(alloc, 0_u32, lines.len())?,
        found: Vec::new(alloc),
        crosses: false,
    };
    let mut choice = Choice {
        registers: filled(alloc, None, proc.vars as usize)?,
        held: filled(alloc, NO_VARIABLE, lines.len().saturating_mul(32))?,
        labels,
    };
    let mut work = lines.len().saturating_mul(WORK_OF_LINE);
    for i in 0..order.len() {
        let variable = order[i].1;
        choose_one(
            &flow,
            &mut alive,
            &mut busy,
            &mut choice,
            proc.params,
            variable,
        )?;
        if work < alive.found.len() {
            break;
        }
        work -= alive.found.len();
    }
    Ok(choice)
}
