// Names, written types and declarations in short.
use crate::text::Text;
use crate::trees::exprs::show_expr;
use nim_tree::{Declared, Field, Name, Pragma, PragmaKind, TypeBody, TypeDef, TypeTree};

/// A name.
pub fn show_name(name: &Name, out: &mut Text) {
    out.put(name.text.as_slice());
    out.at(name.at);
}

/// Names, with a space before each.
pub fn show_names(names: &[Name], out: &mut Text) {
    for name in names {
        out.say(" ");
        show_name(name, out);
    }
}

/// A name that is declared.
pub fn show_declared(name: &Declared, out: &mut Text) {
    out.put(name.text.as_slice());
    out.say(if name.shown { "*" } else { "" });
    out.at(name.at);
}

/// Names that are declared, with a space before each.
pub fn show_all_declared(names: &[Declared], out: &mut Text) {
    for name in names {
        out.say(" ");
        show_declared(name, out);
    }
}

/// Pragmas, with a space before each.
pub fn show_pragmas(pragmas: &[Pragma], out: &mut Text) {
    for pragma in pragmas {
        out.say(match pragma.kind {
            PragmaKind::Error => " {error}",
            PragmaKind::Borrow => " {borrow}",
            PragmaKind::Cursor => " {cursor}",
            PragmaKind::Inline => " {inline}",
        });
        out.at(pragma.at);
    }
}

/// A written type, with its place behind it.
#[cycle(show_types)]
pub fn show_type(tree: &TypeTree, out: &mut Text) {
    match tree {
        TypeTree::Named {
            at,
            text,
            arguments,
        } => {
            out.put(text.as_slice());
            show_arguments(arguments, out);
            out.at(*at);
        }
        TypeTree::Array {
            at,
            length,
            element,
        } => {
            out.say("(array ");
            show_expr(length, out);
            out.say(" ");
            show_type(element, out);
            out.say(")");
            out.at(*at);
        }
        TypeTree::Ref { at, target } => {
            out.say("(ref ");
            show_type(target, out);
            out.say(")");
            out.at(*at);
        }
        TypeTree::Tuple { at, fields } => {
            out.say("(tuple");
            show_fields(fields, out);
            out.say(")");
            out.at(*at);
        }
    }
}

#[cycle(show_types)]
fn show_arguments(arguments: &[TypeTree], out: &mut Text) {
    for argument in arguments {
        out.say("<");
        show_type(argument, out);
        out.say(">");
    }
}

#[cycle(show_types)]
fn show_fields(fields: &[Field], out: &mut Text) {
    for field in fields {
        out.say(" (");
        show_type(&field.of, out);
        show_all_declared(&field.names, out);
        out.say(")");
    }
}

// What stands behind the `=` of a declaration.
fn show_body(body: &TypeBody, out: &mut Text) {
    match body {
        TypeBody::Object {
            is_ref,
            parent,
            fields,
            ..
        } => {
            out.say(if *is_ref { "ref object" } else { "object" });
            if let Some(name) = parent {
                out.say(" of ");
                show_name(name, out);
            }
            show_fields(fields, out);
        }
        TypeBody::Enum { members, .. } => {
            out.say("enum");
            show_names(members, out);
        }
        TypeBody::Distinct { base, .. } => {
            out.say("distinct ");
            show_type(base, out);
        }
        TypeBody::Alias(of) => show_type(of, out),
    }
}

/// Declarations of types, with a space before each.
pub fn show_typedefs(defs: &[TypeDef], out: &mut Text) {
    for def in defs {
        out.say(" (");
        show_declared(&def.name, out);
        show_names(&def.parameters, out);
        out.say(" = ");
        show_body(&def.body, out);
        out.say(")");
    }
}
