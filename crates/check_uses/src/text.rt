// The text in order: bodies that are missing, and globals as `var` arguments.
ghost use Rattle.std.specs.Prelude.{◌≡◌, ◌<◌, ◌∷◌, [], List, map, length, slice_get, OnOk};
ghost use Rattle.arc_base.specs.Refusal.{Answers, and_then};
ghost use Rattle.nim_types.specs.Types.{Ty};
ghost use Rattle.nim_program.specs.declared.program.Proc.{Proc as RustProc};
ghost use Rattle.nim_program.specs.View.{proc_of, stmts_of};
ghost use Rattle.expr_rules.specs.Answers.{Answer};
ghost use Rattle.decl_rules.specs.State.{Item as RuleItem};
ghost use Rattle.decl_rules.specs.Occurrences.{in_block};
ghost use Rattle.decl_rules.specs.Whole.{text_rule, item_rule, occurrences_rule, if_in_time};
ghost use Rattle.check_uses.specs.View.{item_of, items_of};
ghost use Rattle.check_uses.specs.Known.{all_procs};
ghost use Rattle.check_uses.specs.InTime.{AreInTime};

use crate::known::{Known, known_of, uses_of};
use crate::names::check_each;
use crate::stmts::{add_part, declares_any, part};
use arc_base::{Code, Items, Memory, Place, Stop};
use nim_program::{Proc, Stmt};
use number_sets::Numbers;
use std::alloc::Global;

/// The text in order, as far as what needs the whole of it asks.
#[derive(Clone, Copy)]
pub enum Item {
    /// The first declaration, at the word `proc`, of a procedure that needs a body.
    Announces { proc: u32, at: Place },
    /// The body of a procedure.
    Completes { proc: u32 },
    /// So many statements of the start code, from a number on.
    Code { first: u32, count: u32 },
}

// ---- an item

fn if_in_time(holds: bool, at: Place) -> Result<(), Stop>
    ensures { Answers (λ _. tt) (if_in_time holds at) result }
{
    if holds {
        Ok(())
    } else {
        Err(Stop::Refused {
            code: Code::MissingBody,
            at,
        })
    }
}

fn check_start(
    alloc: Global,
    known: &Known,
    reached: &mut Numbers,
    stmts: &[Stmt],
) -> Result<(), Stop>
    ensures { Answers (λ _. tt)
        (occurrences_rule (all_procs known.now) (in_block (stmts_of [] stmts.now))) result }
{
    let mut uses = Items::new(alloc);
    add_part(&mut uses, stmts)?;
    check_each(known, reached, uses.as_slice())
}

// An item before others, which complete `later` before they declare a further global.
fn check_item(
    alloc: Global,
    known: &Known,
    reached: &mut Numbers,
    later: &Numbers,
    start: &Vec<Stmt>,
    item: Item,
) -> Result<(), Stop>
    ensures { (rest : List RuleItem) → AreInTime later.now rest → Answers (λ _. tt)
        (item_rule (all_procs known.now)
        (item_of [] known.now.procs.now.items start.now.items item) rest) result }
{
    match item {
        Item::Announces { proc, at } => if_in_time(later.has(proc), at),
        Item::Completes { proc } => check_each(known, reached, uses_of(&known.uses, proc)),
        Item::Code { first, count } => {
            let stmts = part(start.as_slice(), first as usize, count as usize);
            check_start(alloc, known, reached, stmts)
        }
    }
}

// The procedures that are completed before a further global is declared, from an item on.
fn pass(later: &mut Numbers, start: &Vec<Stmt>, item: Item) -> Result<(), Memory>
    ensures { OnOk result ((procs : List RustProc) (rest : List RuleItem)
        → AreInTime later.old rest
        → AreInTime later.new (item_of [] procs start.now.items item ∷ rest)) }
{
    match item {
        Item::Announces { .. } => Ok(()),
        Item::Completes { proc } => later.add(proc),
        Item::Code { first, count } => {
            if declares_any(part(start.as_slice(), first as usize, count as usize)) {
                later.clear();
            }
            Ok(())
        }
    }
}

// ---- all items

// What is answered first counts.
fn before(first: Result<(), Stop>, later: Result<(), Stop>) -> Result<(), Stop>
    ensures { (a b : Answer (Unit {0})) → Answers (λ _. tt) a first → Answers (λ _. tt) b later
        → Answers (λ _. tt) (and_then a (λ _. b)) result }
{
    match first {
        Ok(()) => later,
        Err(stop) => Err(stop),
    }
}

fn item_at(text: &[Item], i: usize) -> Item
    requires { i < length text.now }
    ensures { slice_get text.now i ≡ Some result }
{
    text[i]
}

// From the last item to the first.
fn check_items(alloc: Global, known: &Known, text: &[Item], start: &Vec<Stmt>) -> Result<(), Stop>
    ensures { Answers (λ _. tt) (text_rule (all_procs known.now)
        (items_of [] known.now.procs.now.items start.now.items text.now)) result }
{
    let mut reached = Numbers::new(alloc);
    let mut later = Numbers::new(alloc);
    let mut answer = Ok(());
    let mut left = text.len();
    while left > 0 {
        left -= 1;
        let item = item_at(text, left);
        let first = check_item(alloc, known, &mut reached, &later, start, item);
        answer = before(first, answer);
        pass(&mut later, start, item)?;
    }
    answer
}

/// Checks what has to be known of the whole text, in order: each procedure that is announced has a
/// body before a further global is declared (E26), and no `var` argument is a global that its
/// procedure names, in its body or in those that it calls (E15).
pub fn check_text(
    alloc: Global,
    procs: &Vec<Proc>,
    text: &[Item],
    start: &Vec<Stmt>,
) -> Result<(), Stop>
    ensures { (ts : List Ty) → Answers (λ _. tt) (text_rule (map (proc_of ts) procs.now.items)
        (items_of ts procs.now.items start.now.items text.now)) result }
{
    let known = known_of(alloc, procs)?;
    check_items(alloc, &known, text, start)
}
