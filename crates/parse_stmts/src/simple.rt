// Simple statements.
ghost use Rattle.std.specs.Prelude.{◌≡◌, suc, ◌<◌, ◌≤◌, ◌^◌, ◌∷◌, [], length};
ghost use Rattle.nim_tree.specs.Statements.{statement_of};
ghost use Rattle.parse_exprs.specs.Look.{place_at};
ghost use Rattle.parse_exprs.specs.Input.{from_at, origin_of};
ghost use Rattle.parse_decls.specs.Gives.{Comes};
ghost use Rattle.parse_stmts.specs.declared.look.Simple.TheVariants as S;
ghost use Rattle.parse_stmts.specs.Look.{has_slash, slash_on, path_at};
ghost use Rattle.parse_stmts.specs.Run.{run_simple, run_simple_by, run_bound, run_module_name, run_more_modules};

use crate::look::{Simple, simple_of};
use crate::marks::past_comma;
use crate::plain::read_plain;
use crate::values::read_optional;
use arc_base::Stop;
use indent_scanner::{Tok, Token};
use nim_tree::{Binding, Name, Stmt};
use parse_decls::{Reading, and_one, definition, left_out, read_name, stuck};
use parse_exprs::{Input, Layout, goes_on, is_name};
use std::alloc::Global;

/// A simple statement.
pub(crate) fn read_simple(
    alloc: Global,
    input: &Input,
    at: usize,
    spaces: u32,
) -> Result<Reading<Stmt>, Stop>
    requires few { length input.now.tokens.now < 2 ^ 32 }
    ensures { Comes statement_of (λ k. run_simple k (origin_of input.now) spaces (from_at input.now at)) input.now (suc at) result }
{
    let Some(token) = input.head(at) else {
        return Err(stuck(input, at));
    };
    match simple_of(token.kind) {
        Simple::Discard => read_discard(alloc, input, at + 1, token, spaces),
        Simple::Return => read_return(alloc, input, at + 1, token, spaces),
        Simple::Raise => read_raise(alloc, input, at + 1, token, spaces),
        Simple::Break => Ok(Reading {
            value: Stmt::Break {
                at: input.place_at(token),
            },
            next: at + 1,
        }),
        Simple::Continue => Ok(Reading {
            value: Stmt::Continue {
                at: input.place_at(token),
            },
            next: at + 1,
        }),
        Simple::Import => read_import(alloc, input, at + 1, token, spaces),
        Simple::Let => read_bound(alloc, input, at + 1, token, Binding::Let, spaces),
        Simple::Var => read_bound(alloc, input, at + 1, token, Binding::Var, spaces),
        Simple::Const => read_bound(alloc, input, at + 1, token, Binding::Const, spaces),
        Simple::Plain => read_plain(alloc, input, at, spaces),
    }
}

// ---- `discard`, `return` and `raise`, behind the keyword

fn read_discard(
    alloc: Global,
    input: &Input,
    at: usize,
    token: Token,
    spaces: u32,
) -> Result<Reading<Stmt>, Stop>
    requires few { length input.now.tokens.now < 2 ^ 32 }
    requires within { at ≤ length input.now.tokens.now }
    ensures { Comes statement_of (λ k. run_simple_by k S.Discard (origin_of input.now) spaces token (from_at input.now at)) input.now at result }
{
    let one = read_optional(alloc, input, at, spaces)?;
    Ok(Reading {
        value: Stmt::Discard {
            at: input.place_at(token),
            value: one.value,
        },
        next: one.next,
    })
}

fn read_return(
    alloc: Global,
    input: &Input,
    at: usize,
    token: Token,
    spaces: u32,
) -> Result<Reading<Stmt>, Stop>
    requires few { length input.now.tokens.now < 2 ^ 32 }
    requires within { at ≤ length input.now.tokens.now }
    ensures { Comes statement_of (λ k. run_simple_by k S.Return (origin_of input.now) spaces token (from_at input.now at)) input.now at result }
{
    let one = read_optional(alloc, input, at, spaces)?;
    Ok(Reading {
        value: Stmt::Return {
            at: input.place_at(token),
            value: one.value,
        },
        next: one.next,
    })
}

fn read_raise(
    alloc: Global,
    input: &Input,
    at: usize,
    token: Token,
    spaces: u32,
) -> Result<Reading<Stmt>, Stop>
    requires few { length input.now.tokens.now < 2 ^ 32 }
    requires within { at ≤ length input.now.tokens.now }
    ensures { Comes statement_of (λ k. run_simple_by k S.Raise (origin_of input.now) spaces token (from_at input.now at)) input.now at result }
{
    let one = read_optional(alloc, input, at, spaces)?;
    Ok(Reading {
        value: Stmt::Raise {
            at: input.place_at(token),
            value: one.value,
        },
        next: one.next,
    })
}

// ---- `import`

fn has_slash(spelling: &[u8]) -> bool
    ensures { result ≡ has_slash spelling.now }
{
    spelling.contains(&b'/')
}

// Whether operators with a `/` go on there.
fn slash_on(input: &Input, at: usize, layout: Layout) -> bool
    ensures { result ≡ slash_on (origin_of input.now) layout (from_at input.now at) }
{
    let Some(token) = input.head(at) else {
        return false;
    };
    match token.kind {
        Tok::Op => goes_on(layout, token.indent) && has_slash(input.spelling(token)),
        _ => false,
    }
}

// Whether a path with a `/` begins there in place of the name of a module.
fn path_at(input: &Input, at: usize, layout: Layout) -> bool
    ensures { result ≡ path_at (origin_of input.now) layout (from_at input.now at) }
{
    let Some(token) = input.head(at) else {
        return false;
    };
    if slash_on(input, at, layout) {
        return true;
    }
    goes_on(layout, token.indent) && is_name(token.kind) && slash_on(input, at + 1, layout)
}

fn read_module_name(
    alloc: Global,
    input: &Input,
    at: usize,
    layout: Layout,
) -> Result<Reading<Name>, Stop>
    ensures { Comes (λ name. name) (λ k. run_module_name (origin_of input.now) layout (from_at input.now at)) input.now (suc at) result }
{
    if path_at(input, at, layout) {
        Err(left_out(input, at))
    } else {
        read_name(alloc, input, at, layout)
    }
}

fn read_import(
    alloc: Global,
    input: &Input,
    at: usize,
    token: Token,
    spaces: u32,
) -> Result<Reading<Stmt>, Stop>
    ensures { Comes statement_of (λ k. run_simple_by k S.Import (origin_of input.now) spaces token (from_at input.now at)) input.now at result }
{
    let first = read_module_name(alloc, input, at, Layout::Lines(spaces))?;
    let names = read_more_modules(alloc, input, first, spaces)?;
    Ok(Reading {
        value: Stmt::Import {
            at: input.place_at(token),
            names: names.value,
        },
        next: names.next,
    })
}

// The names of modules behind the first.
fn read_more_modules(
    alloc: Global,
    input: &Input,
    first: Reading<Name>,
    spaces: u32,
) -> Result<Reading<Vec<Name>>, Stop>
    requires within { first.next ≤ length input.now.tokens.now }
    ensures { Comes (λ names. names.items)
        (λ k. run_more_modules k (origin_of input.now) spaces (first.value ∷ [])
        (from_at input.now first.next)) input.now first.next result }
{
    let mut names = and_one(Vec::new(alloc), first.value)?;
    let mut next = first.next;
    while let Some(behind) = past_comma(input, next, spaces) {
        let one = read_module_name(alloc, input, behind, Layout::Brackets)?;
        names = and_one(names, one.value)?;
        next = one.next;
    }
    Ok(Reading { value: names, next })
}

// ---- `let`, `var` and `const` with a definition on their line

fn read_bound(
    alloc: Global,
    input: &Input,
    at: usize,
    token: Token,
    binding: Binding,
    spaces: u32,
) -> Result<Reading<Stmt>, Stop>
    requires few { length input.now.tokens.now < 2 ^ 32 }
    ensures { Comes statement_of
        (λ k. run_bound k binding (origin_of input.now) spaces (place_at (origin_of input.now) token)
        (from_at input.now at)) input.now at result }
{
    let one = definition(alloc, input, at, spaces)?;
    Ok(Reading {
        value: Stmt::Define {
            at: input.place_at(token),
            binding,
            defs: and_one(Vec::new(alloc), one.value)?,
        },
        next: one.next,
    })
}
