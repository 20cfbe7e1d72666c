// What the scanner and the parsers make of a source.
ghost use Rattle.std.specs.Prelude.{◌<◌, ◌≤◌, ◌^◌, length};
ghost use Rattle.parse_stmts.specs.Parsed.{AreTokens};

use crate::text::Text;
use crate::trees::{show_defs, show_expr, show_head, show_names, show_stmts, show_typedefs};
use arc_base::Stop;
use indent_scanner::{Token, characters_of, scan, text_of};
use nim_tree::{Def, Module, Name, ProcHead, TypeDef, block_depth, expr_depth, nodes};
use parse_decls::{
    Reading, definition, definition_block, names, procedure_head, type_declarations,
};
use parse_exprs::{Input, Layout, Parsed, callee, expr};
use parse_stmts::parse;
use std::alloc::Global;

/// The spaces before a statement of which a part is read.
const SPACES: u32 = 2;

// The kinds of the tokens, with a space before each.
fn show_kinds(alloc: Global, tokens: &[Token], out: &mut Text) {
    for token in tokens {
        out.say(" ");
        out.say_made(format!(in alloc; "{:?}", token.kind));
    }
}

// Where tokens stand: the first byte and the number of bytes of each, its place, and the spaces around it, where it has
// some; and the spaces before the first one of a line.
fn show_places(tokens: &[Token], out: &mut Text) {
    for token in tokens {
        out.say(if token.space_before { "[_" } else { "[" });
        out.pair(token.start, "+", token.len);
        out.say(" ");
        out.pair(token.line, ":", token.column);
        out.say(if token.space_after { "_" } else { "" });
        if let Some(count) = token.indent {
            out.say(" in ");
            out.number(i64::from(count));
        }
        out.say("]");
    }
}

// What a module is: its tree in short; that it isn't refused; its levels of blocks and of expressions and its nodes; or
// what it imports.
fn show_module(name: &str, module: &Module, out: &mut Text) {
    match name {
        "refusal" => out.say("none"),
        "counts" => {
            out.pair(block_depth(module), " ", expr_depth(module));
            out.say(" ");
            out.number(i64::from(nodes(module)));
        }
        "imports" => {
            for import in &module.imports {
                out.say(" ");
                out.put(import.text.as_slice());
                out.at(import.at);
            }
        }
        _ => show_stmts(&module.body, out),
    }
}

// The expression that was read, and the number of the token behind it, or that number alone.
fn show_parsed(name: &str, read: Result<Parsed, Stop>, out: &mut Text) {
    match read {
        Ok(parsed) => {
            if name != "expr end" {
                show_expr(&parsed.tree, out);
                out.say(" to ");
            }
            out.number(i64::from(parsed.next));
        }
        Err(stop) => out.stop(stop),
    }
}

fn show_read_names(read: Result<Reading<Vec<Name>>, Stop>, out: &mut Text) {
    match read {
        Ok(read) => {
            show_names(&read.value, out);
            out.end(read.next);
        }
        Err(stop) => out.stop(stop),
    }
}

fn show_read_def(read: Result<Reading<Def>, Stop>, out: &mut Text) {
    match read {
        Ok(Reading { value, next }) => {
            show_defs(&[value], out);
            out.end(next);
        }
        Err(stop) => out.stop(stop),
    }
}

fn show_read_defs(read: Result<Reading<Vec<Def>>, Stop>, out: &mut Text) {
    match read {
        Ok(read) => {
            show_defs(&read.value, out);
            out.end(read.next);
        }
        Err(stop) => out.stop(stop),
    }
}

fn show_read_types(read: Result<Reading<Vec<TypeDef>>, Stop>, out: &mut Text) {
    match read {
        Ok(read) => {
            show_typedefs(&read.value, out);
            out.end(read.next);
        }
        Err(stop) => out.stop(stop),
    }
}

fn show_read_head(read: Result<Reading<ProcHead>, Stop>, out: &mut Text) {
    match read {
        Ok(read) => {
            show_head(&read.value, out);
            out.end(read.next);
        }
        Err(stop) => out.stop(stop),
    }
}

// What is read of a statement from its second token on, and the number of the token behind it.
fn show_declaration(alloc: Global, input: &Input, name: &str, out: &mut Text)
    requires few { length input.now.tokens.now < 2 ^ 32 }
    requires some { 1 ≤ length input.now.tokens.now }
{
    match name {
        "names" => show_read_names(names(alloc, input, 1, Layout::Lines(SPACES)), out),
        "definition" => show_read_def(definition(alloc, input, 1, SPACES), out),
        "definitions" => show_read_defs(definition_block(alloc, input, 1, SPACES), out),
        "types" => show_read_types(type_declarations(alloc, input, 1, SPACES), out),
        _ => show_read_head(procedure_head(alloc, input, 1, SPACES), out),
    }
}

fn show_tree(name: &str, read: Result<Module, Stop>, out: &mut Text) {
    match read {
        Ok(module) => show_module(name, &module, out),
        Err(stop) => out.stop(stop),
    }
}

// What the parsers make of the tokens of a source.
fn show_tokens(alloc: Global, source: &[u8], tokens: &[Token], name: &str, out: &mut Text)
    requires are { AreTokens source.now tokens.now }
    requires few { length tokens.now < 2 ^ 32 }
    requires some { 1 ≤ length tokens.now }
{
    match name {
        "tokens" => show_kinds(alloc, tokens, out),
        "places" => show_places(tokens, out),
        "tree" | "refusal" | "counts" | "imports" => {
            show_tree(name, parse(alloc, source, tokens, 0), out)
        }
        "expr" | "expr end" => show_parsed(name, expr(alloc, source, tokens, 0, 0), out),
        "callee" => show_parsed(name, callee(alloc, source, tokens, 0, 0, 0), out),
        _ => show_declaration(
            alloc,
            &Input {
                source,
                tokens,
                module: 0,
            },
            name,
            out,
        ),
    }
}

/// Whether a part is of what the scanner or the parsers make of a source, with places or without.
pub fn is_of_source(name: &str) -> bool {
    matches!(
        name,
        "tokens"
            | "places"
            | "tree"
            | "refusal"
            | "counts"
            | "imports"
            | "expr"
            | "expr end"
            | "callee"
            | "names"
            | "definition"
            | "definitions"
            | "types"
            | "head"
    )
}

/// What the scanner or the parsers make of a source.
pub fn show_source(alloc: Global, source: &[u8], name: &str, out: &mut Text)
    requires { length source.now < 2 ^ 20 }
{
    match scan(alloc, source, 0) {
        Ok(tokens) => show_tokens(alloc, source, tokens.as_slice(), name, out),
        Err(stop) => out.stop(stop),
    }
}

/// The text of the first token of a source.
pub fn show_text(alloc: Global, source: &[u8], out: &mut Text)
    requires { length source.now < 2 ^ 20 }
{
    match scan(alloc, source, 0) {
        Ok(tokens) => match tokens.as_slice() {
            [first, ..] => out.say_read(text_of(alloc, source, first)),
            [] => {}
        },
        Err(stop) => out.stop(stop),
    }
}

/// The characters of a text that is written with these bytes.
pub fn show_characters(alloc: Global, text: &[u8], out: &mut Text) {
    out.say_read(characters_of(alloc, text));
}
