// Names.
ghost use Rattle.std.specs.Prelude.{◌≡◌, ◌<◌, ◌≤◌, suc, length, IfOk, IfErr, IfSome};
ghost use Rattle.arc_base.specs.declared.place.Stop.TheVariants.{Memory};
ghost use Rattle.parse_exprs.specs.Look.{name_on};
ghost use Rattle.parse_exprs.specs.Input.{origin_of, from_at};
ghost use Rattle.parse_decls.specs.Look.{name_of, declared_of, is_quoted, proc_name_on};
ghost use Rattle.parse_decls.specs.Run.{run_name, run_names, run_shown, run_declareds, run_generics};
ghost use Rattle.parse_decls.specs.Gives.{Comes};

use crate::look::{is_quoted, opens_at, past_star, proc_name_on, star_at};
use crate::reading::{Reading, and_one, stuck};
use arc_base::{Bytes, Stop};
use indent_scanner::Token;
use nim_tree::{Declared, Name};
use parse_exprs::{Bracket, Input, Layout};
use std::alloc::Global;

// The name that a token is.
fn name_of(alloc: Global, input: &Input, token: Token) -> Result<Name, Stop>
    ensures ok { IfOk result (λ name. name ≡ name_of (origin_of input.now) token) }
    ensures err { IfErr result (λ stop. stop ≡ Memory) }
{
    let text = Bytes::from_slice(alloc, input.spelling(token))?;
    Ok(Name {
        at: input.place_at(token),
        text,
    })
}

/// A name.
pub fn read_name(
    alloc: Global,
    input: &Input,
    at: usize,
    layout: Layout,
) -> Result<Reading<Name>, Stop>
    ensures { Comes (λ name. name) (λ k. run_name (origin_of input.now) layout (from_at input.now at)) input.now (suc at) result }
{
    let Some(token) = input.name_on(at, layout) else {
        return Err(stuck(input, at));
    };
    Ok(Reading {
        value: name_of(alloc, input, token)?,
        next: at + 1,
    })
}

/// Names with commas between them.
pub(crate) fn read_names(
    alloc: Global,
    input: &Input,
    at: usize,
    layout: Layout,
) -> Result<Reading<Vec<Name>>, Stop>
    ensures { Comes (λ names. names.items) (λ k. run_names k (origin_of input.now) layout (from_at input.now at)) input.now (suc at) result }
{
    let first = read_name(alloc, input, at, layout)?;
    let mut names = and_one(Vec::new(alloc), first.value)?;
    let mut next = first.next;
    while input.comma_at(next, layout) {
        let one = read_name(alloc, input, next + 1, Layout::Brackets)?;
        names = and_one(names, one.value)?;
        next = one.next;
    }
    Ok(Reading { value: names, next })
}

// The declared name that a token is.
fn declared_of(alloc: Global, input: &Input, token: Token, shown: bool) -> Result<Declared, Stop>
    ensures ok { IfOk result (λ name. name ≡ declared_of (origin_of input.now) token (is_quoted token.kind) shown) }
    ensures err { IfErr result (λ stop. stop ≡ Memory) }
{
    let text = Bytes::from_slice(alloc, input.spelling(token))?;
    Ok(Declared {
        at: input.place_at(token),
        text,
        quoted: is_quoted(token.kind),
        shown,
    })
}

// A declared name, where it stands there, and `*`.
fn read_shown(
    alloc: Global,
    input: &Input,
    at: usize,
    name: Option<Token>,
    layout: Layout,
) -> Result<Reading<Declared>, Stop>
    requires within { IfSome name (λ token. at < length input.now.tokens.now) }
    ensures { Comes (λ name. name) (λ k. run_shown (origin_of input.now) layout name (from_at input.now at)) input.now (suc at) result }
{
    let Some(token) = name else {
        return Err(stuck(input, at));
    };
    let behind = at + 1;
    let shown = star_at(input, behind, layout);
    Ok(Reading {
        value: declared_of(alloc, input, token, shown)?,
        next: past_star(input, behind, layout),
    })
}

/// A declared name and `*`. The name goes on in one layout, and the `*` in another.
pub(crate) fn read_declared(
    alloc: Global,
    input: &Input,
    at: usize,
    before: Layout,
    layout: Layout,
) -> Result<Reading<Declared>, Stop>
    ensures { Comes (λ name. name)
        (λ k. run_shown (origin_of input.now) layout (name_on before (from_at input.now at))
        (from_at input.now at)) input.now (suc at) result }
{
    let name = input.name_on(at, before);
    read_shown(alloc, input, at, name, layout)
}

/// The name of a procedure and `*`.
pub(crate) fn read_proc_name(
    alloc: Global,
    input: &Input,
    at: usize,
    layout: Layout,
) -> Result<Reading<Declared>, Stop>
    ensures { Comes (λ name. name)
        (λ k. run_shown (origin_of input.now) layout (proc_name_on layout (from_at input.now at))
        (from_at input.now at)) input.now (suc at) result }
{
    let name = proc_name_on(input, at, layout);
    read_shown(alloc, input, at, name, layout)
}

/// Declared names with commas between them. The first goes on in one layout, and what follows it in another.
pub(crate) fn read_declareds(
    alloc: Global,
    input: &Input,
    at: usize,
    before: Layout,
    layout: Layout,
) -> Result<Reading<Vec<Declared>>, Stop>
    ensures { Comes (λ names. names.items) (λ k. run_declareds k (origin_of input.now) before layout (from_at input.now at)) input.now (suc at) result }
{
    let first = read_declared(alloc, input, at, before, layout)?;
    let mut names = and_one(Vec::new(alloc), first.value)?;
    let mut next = first.next;
    while input.comma_at(next, layout) {
        let one = read_declared(alloc, input, next + 1, Layout::Brackets, layout)?;
        names = and_one(names, one.value)?;
        next = one.next;
    }
    Ok(Reading { value: names, next })
}

/// Type parameters in brackets, where there are any.
pub(crate) fn read_generics(
    alloc: Global,
    input: &Input,
    at: usize,
    layout: Layout,
) -> Result<Reading<Vec<Name>>, Stop>
    requires within { at ≤ length input.now.tokens.now }
    ensures { Comes (λ names. names.items) (λ k. run_generics k (origin_of input.now) layout (from_at input.now at)) input.now at result }
{
    if !opens_at(input, at, layout, Bracket::Square) {
        return Ok(Reading {
            value: Vec::new(alloc),
            next: at,
        });
    }
    let names = read_names(alloc, input, at + 1, Layout::Brackets)?;
    if !input.closes_at(Bracket::Square, names.next) {
        return Err(stuck(input, names.next));
    }
    Ok(Reading {
        value: names.value,
        next: names.next + 1,
    })
}
