// Statements in short.
use crate::text::Text;
use crate::trees::exprs::{show_each, show_expr, show_parts};
use crate::trees::types::{
    show_all_declared, show_declared, show_name, show_names, show_pragmas, show_type, show_typedefs,
};
use arc_base::Place;
use nim_tree::{
    AssignOp, Binding, Branch, Def, Expr, Handler, Over, Param, ParamMode, ProcHead, Stmt,
};

fn assign_text(op: AssignOp) -> &'static str {
    match op {
        AssignOp::Set => "(= ",
        AssignOp::Plus => "(+= ",
        AssignOp::Minus => "(-= ",
        AssignOp::Times => "(*= ",
        AssignOp::Join => "(&= ",
    }
}

fn binding_text(binding: Binding) -> &'static str {
    match binding {
        Binding::Let => "(let",
        Binding::Var => "(var",
        Binding::Const => "(const",
    }
}

fn mode_text(mode: ParamMode) -> &'static str {
    match mode {
        ParamMode::Plain => " (",
        ParamMode::Var => " (var ",
        ParamMode::Sink => " (sink ",
    }
}

// A value behind its word, where there is one.
fn show_optional(word: &str, value: &Option<Expr>, out: &mut Text) {
    if let Some(value) = value {
        out.say(word);
        show_expr(value, out);
    }
}

/// Definitions, with a space before each.
pub fn show_defs(defs: &[Def], out: &mut Text) {
    for def in defs {
        out.say(" (");
        show_all_declared(&def.names, out);
        show_pragmas(&def.pragmas, out);
        if let Some(annotation) = &def.annotation {
            out.say(": ");
            show_type(annotation, out);
        }
        show_optional(" = ", &def.value, out);
        out.say(")");
    }
}

fn show_params(params: &[Param], out: &mut Text) {
    for param in params {
        out.say(mode_text(param.mode));
        show_type(&param.of, out);
        show_names(&param.names, out);
        out.say(")");
    }
}

/// The head of a procedure.
pub fn show_head(head: &ProcHead, out: &mut Text) {
    show_declared(&head.name, out);
    show_names(&head.generics, out);
    show_params(&head.params, out);
    if let Some(gives) = &head.gives {
        out.say(": ");
        show_type(gives, out);
    }
    show_pragmas(&head.pragmas, out);
}

fn show_over(over: &Over, out: &mut Text) {
    match over {
        Over::Each(value) => show_expr(value, out),
        Over::UpTo(first, last) => {
            show_expr(first, out);
            out.say("..");
            show_expr(last, out);
        }
        Over::Below(first, end) => {
            show_expr(first, out);
            out.say("..<");
            show_expr(end, out);
        }
    }
}

// A statement without blocks.
fn show_simple(stmt: &Stmt, out: &mut Text) {
    match stmt {
        Stmt::Discard { value, .. } => {
            out.say("(discard");
            show_optional(" ", value, out);
            out.say(")");
        }
        Stmt::Return { value, .. } => {
            out.say("(return");
            show_optional(" ", value, out);
            out.say(")");
        }
        Stmt::Raise { value, .. } => {
            out.say("(raise");
            show_optional(" ", value, out);
            out.say(")");
        }
        Stmt::Eval { value, .. } => show_expr(value, out),
        Stmt::Break { .. } => out.say("(break)"),
        Stmt::Continue { .. } => out.say("(continue)"),
        Stmt::Import { names, .. } => {
            out.say("(import");
            show_names(names, out);
            out.say(")");
        }
        Stmt::Assign {
            op,
            target,
            value,
            ..
        } => {
            out.say(assign_text(*op));
            show_expr(target, out);
            out.say(" ");
            show_expr(value, out);
            out.say(")");
        }
        Stmt::Command {
            callee,
            operands,
            ..
        } => {
            show_expr(callee, out);
            show_parts("(do", operands, out);
        }
        Stmt::Define { binding, defs, .. } => {
            out.say(binding_text(*binding));
            show_defs(defs, out);
            out.say(")");
        }
        Stmt::Types { defs, .. } => {
            out.say("(type");
            show_typedefs(defs, out);
            out.say(")");
        }
        _ => {}
    }
}

// The place of a statement that isn't shown with its value.
fn place_of(stmt: &Stmt) -> Option<Place> {
    match stmt {
        Stmt::Eval { .. } => None,
        Stmt::Discard { at, .. }
        | Stmt::Return { at, .. }
        | Stmt::Raise { at, .. }
        | Stmt::Break { at }
        | Stmt::Continue { at }
        | Stmt::Import { at, .. }
        | Stmt::Assign { at, .. }
        | Stmt::Command { at, .. }
        | Stmt::Define { at, .. }
        | Stmt::Types { at, .. }
        | Stmt::If { at, .. }
        | Stmt::Case { at, .. }
        | Stmt::While { at, .. }
        | Stmt::For { at, .. }
        | Stmt::Try { at, .. }
        | Stmt::Defer { at, .. }
        | Stmt::Proc { at, .. } => Some(*at),
    }
}

#[cycle(show_stmts)]
fn show_stmt(stmt: &Stmt, out: &mut Text) {
    match stmt {
        Stmt::If {
            branches,
            otherwise,
            ..
        } => {
            out.say("(if");
            show_branches(branches, out);
            show_block(" else", otherwise, out);
        }
        Stmt::Case {
            selector,
            branches,
            otherwise,
            ..
        } => {
            out.say("(case ");
            show_expr(selector, out);
            show_branches(branches, out);
            show_block(" else", otherwise, out);
        }
        Stmt::Try {
            body,
            handlers,
            finally,
            ..
        } => {
            out.say("(try");
            show_stmts(body, out);
            show_handlers(handlers, out);
            show_block(" finally", finally, out);
        }
        _ => show_other(stmt, out),
    }
    if let Some(at) = place_of(stmt) {
        out.at(at);
    }
}

// A statement with one block, or with none.
#[cycle(show_stmts)]
fn show_other(stmt: &Stmt, out: &mut Text) {
    match stmt {
        Stmt::While {
            condition,
            body,
            ..
        } => {
            out.say("(while ");
            show_expr(condition, out);
            show_block(" do", body, out);
        }
        Stmt::For {
            variable,
            over,
            body,
            ..
        } => {
            out.say("(for ");
            show_name(variable, out);
            out.say(" in ");
            show_over(over, out);
            show_block(" do", body, out);
        }
        Stmt::Defer { body, .. } => {
            out.say("(defer");
            show_block("", body, out);
        }
        Stmt::Proc { head, body, .. } => {
            out.say("(proc ");
            show_head(head, out);
            show_block(" =", body, out);
        }
        _ => show_simple(stmt, out),
    }
}

// A block behind its word, where there is one, and the end of its statement.
#[cycle(show_stmts)]
fn show_block(word: &str, body: &[Stmt], out: &mut Text) {
    if !body.is_empty() {
        out.say(word);
        show_stmts(body, out);
    }
    out.say(")");
}

#[cycle(show_stmts)]
fn show_branches(branches: &[Branch], out: &mut Text) {
    for branch in branches {
        out.branch_at(branch.at);
        show_each(&branch.tests, out);
        out.say(" ->");
        show_stmts(&branch.body, out);
    }
}

#[cycle(show_stmts)]
fn show_handlers(handlers: &[Handler], out: &mut Text) {
    for handler in handlers {
        out.branch_at(handler.at);
        out.say(" except");
        show_names(&handler.types, out);
        if let Some(name) = &handler.binding {
            out.say(" as ");
            show_name(name, out);
        }
        out.say(":");
        show_stmts(&handler.body, out);
    }
}

/// Statements, with a space before each and its place behind it.
#[cycle(show_stmts)]
pub fn show_stmts(body: &[Stmt], out: &mut Text) {
    for stmt in body {
        out.say(" ");
        show_stmt(stmt, out);
    }
}
