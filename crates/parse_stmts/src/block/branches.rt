// `if` and `case`.
ghost use Rattle.std.specs.Prelude.{◌≡◌, suc, ◌<◌, ◌≤◌, ◌^◌, length, IfOk, IfErr};
ghost use Rattle.arc_base.specs.declared.place.Stop.TheVariants.{Memory};
ghost use Rattle.nim_tree.specs.Terms.{term_of, parts_of};
ghost use Rattle.nim_tree.specs.Statements.{statement_of, no_branches, and_branch};
ghost use Rattle.parse_exprs.specs.declared.layout.Layout.TheVariants.{Lines};
ghost use Rattle.parse_exprs.specs.Look.{past_colon};
ghost use Rattle.parse_exprs.specs.Input.{from_at, origin_of};
ghost use Rattle.parse_decls.specs.Gives.{Comes};
ghost use Rattle.parse_stmts.specs.Run.{run_if, run_branch, run_elifs, run_else, run_case, run_branches, run_of, run_ofs, branch_level};
ghost use Rattle.parse_stmts.specs.Blocks.{block_of, chosen_of};

use crate::block::statements::read_body;
use crate::heads::{read_label, read_labels};
use crate::marks::{Word, branch_on};
use crate::values::read_here;
use arc_base::{Place, Stop};
use indent_scanner::Token;
use nim_tree::{Branch, Expr, Stmt};
use parse_decls::{Reading, and_one, stuck};
use parse_exprs::{Input, Layout};
use std::alloc::Global;

// No branch yet.
fn no_branches(alloc: Global) -> Vec<Branch>
    ensures { chosen_of result ≡ no_branches }
{
    Vec::new(alloc)
}

// With one more branch.
fn and_branch(
    some: Vec<Branch>,
    at: Place,
    tests: Vec<Expr>,
    body: Vec<Stmt>,
) -> Result<Vec<Branch>, Stop>
    ensures ok { IfOk result (λ all. chosen_of all ≡ and_branch (chosen_of some) at (parts_of tests.items) (block_of body)) }
    ensures err { IfErr result (λ stop. stop ≡ Memory) }
{
    and_one(some, Branch { at, tests, body })
}

// ---- `if`

/// `if`, its `elif` branches, and `else`.
#[cycle(statements)]
pub(crate) fn read_if(
    alloc: Global,
    input: &Input,
    at: usize,
    token: Token,
    spaces: u32,
    left: u32,
) -> Result<Reading<Stmt>, Stop>
    requires few { length input.now.tokens.now < 2 ^ 32 }
    requires within { at < length input.now.tokens.now }
    ensures { Comes statement_of (λ k. run_if k (origin_of input.now) spaces left token (from_at input.now (suc at))) input.now (suc at) result }
{
    let place = input.place_at(token);
    let first = read_branch(
        alloc,
        input,
        no_branches(alloc),
        place,
        at + 1,
        spaces,
        left,
    )?;
    let all = read_elifs(alloc, input, first, spaces, left)?;
    let other = read_else(alloc, input, all.next, spaces, left)?;
    Ok(Reading {
        value: Stmt::If {
            at: place,
            branches: all.value,
            otherwise: other.value,
        },
        next: other.next,
    })
}

// A condition, a colon and a block, behind some others.
#[cycle(statements)]
fn read_branch(
    alloc: Global,
    input: &Input,
    some: Vec<Branch>,
    place: Place,
    at: usize,
    spaces: u32,
    left: u32,
) -> Result<Reading<Vec<Branch>>, Stop>
    requires few { length input.now.tokens.now < 2 ^ 32 }
    ensures { Comes chosen_of (λ k. run_branch k (origin_of input.now) spaces left (chosen_of some) place (from_at input.now at)) input.now (suc at) result }
{
    let condition = read_here(alloc, input, at, spaces)?;
    let tests = and_one(Vec::new(alloc), condition.value)?;
    let block = read_body(alloc, input, condition.next, spaces, left)?;
    Ok(Reading {
        value: and_branch(some, place, tests, block.value)?,
        next: block.next,
    })
}

// The `elif` branches behind the first.
#[cycle(statements)]
fn read_elifs(
    alloc: Global,
    input: &Input,
    first: Reading<Vec<Branch>>,
    spaces: u32,
    left: u32,
) -> Result<Reading<Vec<Branch>>, Stop>
    requires few { length input.now.tokens.now < 2 ^ 32 }
    requires within { first.next ≤ length input.now.tokens.now }
    ensures { Comes chosen_of
        (λ k. run_elifs k (origin_of input.now) spaces left (chosen_of first.value)
        (from_at input.now first.next)) input.now first.next result }
{
    let mut all = first.value;
    let mut next = first.next;
    while let Some(place) = branch_on(input, next, spaces, Word::Elif) {
        let more = read_branch(alloc, input, all, place, next + 1, spaces, left)?;
        all = more.value;
        next = more.next;
    }
    Ok(Reading { value: all, next })
}

// `else`, a colon and a block, where there is one.
#[cycle(statements)]
fn read_else(
    alloc: Global,
    input: &Input,
    at: usize,
    spaces: u32,
    left: u32,
) -> Result<Reading<Vec<Stmt>>, Stop>
    requires few { length input.now.tokens.now < 2 ^ 32 }
    requires within { at ≤ length input.now.tokens.now }
    ensures { Comes block_of (λ k. run_else k (origin_of input.now) spaces left (from_at input.now at)) input.now at result }
{
    match branch_on(input, at, spaces, Word::Else) {
        Some(_) => read_body(alloc, input, at + 1, spaces, left),
        None => Ok(Reading {
            value: Vec::new(alloc),
            next: at,
        }),
    }
}

// ---- `case`

/// `case`, its `of` branches, and `else`.
#[cycle(statements)]
pub(crate) fn read_case(
    alloc: Global,
    input: &Input,
    at: usize,
    token: Token,
    spaces: u32,
    left: u32,
) -> Result<Reading<Stmt>, Stop>
    requires few { length input.now.tokens.now < 2 ^ 32 }
    requires within { at < length input.now.tokens.now }
    ensures { Comes statement_of (λ k. run_case k (origin_of input.now) spaces left token (from_at input.now (suc at))) input.now (suc at) result }
{
    let selector = read_here(alloc, input, at + 1, spaces)?;
    read_branches(alloc, input, at, token, selector, spaces, left)
}

fn branch_level(spaces: u32, indent: Option<u32>) -> u32
    ensures { result ≡ branch_level spaces indent }
{
    indent.unwrap_or(spaces)
}

// The branches of `case` behind what it selects by.
#[cycle(statements)]
fn read_branches(
    alloc: Global,
    input: &Input,
    at: usize,
    token: Token,
    selector: Reading<Expr>,
    spaces: u32,
    left: u32,
) -> Result<Reading<Stmt>, Stop>
    requires few { length input.now.tokens.now < 2 ^ 32 }
    requires goes { suc at ≤ selector.next }
    requires within { selector.next ≤ length input.now.tokens.now }
    ensures { Comes statement_of
        (λ k. run_branches k (origin_of input.now) spaces left token (term_of selector.value)
        (past_colon (Lines spaces) (from_at input.now selector.next))) input.now (suc at) result }
{
    let layout = Layout::Lines(spaces);
    let next = input.past_colon(selector.next, layout);
    let Some(first) = input.first_of_at(next, layout) else {
        drop(selector);
        return Err(stuck(input, next));
    };
    let level = branch_level(spaces, first.indent);
    let all = match read_ofs(alloc, input, next, level, left) {
        Ok(all) => all,
        Err(stop) => {
            drop(selector);
            return Err(stop);
        }
    };
    let other = match read_else(alloc, input, all.next, level, left) {
        Ok(other) => other,
        Err(stop) => {
            drop(selector);
            return Err(stop);
        }
    };
    let place = input.place_at(token);
    Ok(Reading {
        value: Stmt::Case {
            at: place,
            selector: selector.value,
            branches: all.value,
            otherwise: other.value,
        },
        next: other.next,
    })
}

// Labels, a colon and a block, behind some others.
#[cycle(statements)]
fn read_of(
    alloc: Global,
    input: &Input,
    some: Vec<Branch>,
    place: Place,
    at: usize,
    spaces: u32,
    left: u32,
) -> Result<Reading<Vec<Branch>>, Stop>
    requires few { length input.now.tokens.now < 2 ^ 32 }
    ensures { Comes chosen_of (λ k. run_of k (origin_of input.now) spaces left (chosen_of some) place (from_at input.now at)) input.now (suc at) result }
{
    if !input.stays(at, Layout::Lines(spaces)) {
        return Err(stuck(input, at));
    }
    let first = read_label(alloc, input, at, spaces)?;
    let labels = read_labels(alloc, input, first, spaces)?;
    let block = read_body(alloc, input, labels.next, spaces, left)?;
    Ok(Reading {
        value: and_branch(some, place, labels.value, block.value)?,
        next: block.next,
    })
}

// The `of` branches.
#[cycle(statements)]
fn read_ofs(
    alloc: Global,
    input: &Input,
    at: usize,
    spaces: u32,
    left: u32,
) -> Result<Reading<Vec<Branch>>, Stop>
    requires few { length input.now.tokens.now < 2 ^ 32 }
    requires within { at ≤ length input.now.tokens.now }
    ensures { Comes chosen_of (λ k. run_ofs k (origin_of input.now) spaces left no_branches (from_at input.now at)) input.now at result }
{
    let mut all = no_branches(alloc);
    let mut next = at;
    while let Some(place) = branch_on(input, next, spaces, Word::Of) {
        let more = read_of(alloc, input, all, place, next + 1, spaces, left)?;
        all = more.value;
        next = more.next;
    }
    Ok(Reading { value: all, next })
}
