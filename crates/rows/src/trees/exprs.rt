// Expressions in short.
use crate::text::Text;
use nim_tree::{BinaryOp, Choice, Expr, UnaryOp};

fn unary_text(op: UnaryOp) -> &'static str {
    match op {
        UnaryOp::Minus => "(neg ",
        UnaryOp::Plus => "(pos ",
        UnaryOp::Not => "(not ",
        UnaryOp::Dollar => "($ ",
    }
}

fn binary_text(op: BinaryOp) -> &'static str {
    match op {
        BinaryOp::Times => "(* ",
        BinaryOp::Div => "(div ",
        BinaryOp::Mod => "(mod ",
        BinaryOp::Shl => "(shl ",
        BinaryOp::Shr => "(shr ",
        BinaryOp::Plus => "(+ ",
        BinaryOp::Minus => "(- ",
        BinaryOp::Join => "(& ",
        BinaryOp::Equal => "(== ",
        BinaryOp::AtMost => "(<= ",
        BinaryOp::Less => "(< ",
        BinaryOp::AtLeast => "(>= ",
        BinaryOp::Greater => "(> ",
        BinaryOp::Unequal => "(!= ",
        BinaryOp::And => "(and ",
        BinaryOp::Or => "(or ",
        BinaryOp::Xor => "(xor ",
    }
}

/// An expression in short, with its place behind it.
#[cycle(show_exprs)]
pub fn show_expr(tree: &Expr, out: &mut Text) {
    match tree {
        Expr::Int { value, .. } => out.number(i64::from(*value)),
        Expr::Char { value, .. } => {
            out.say("'");
            out.number(i64::from(*value));
        }
        Expr::Text { text, .. } | Expr::Name { text, .. } | Expr::Quoted { text, .. } => {
            out.put(text.as_slice())
        }
        Expr::Nil { .. } => out.say("nil"),
        Expr::Paren { inner, .. } => {
            out.say("[");
            show_expr(inner, out);
            out.say("]");
        }
        Expr::Named { text, value, .. } => {
            out.put(text.as_slice());
            out.say(":");
            show_expr(value, out);
        }
        Expr::Field { base, text, .. } => {
            out.say("(. ");
            show_expr(base, out);
            out.say(" ");
            out.put(text.as_slice());
            out.say(")");
        }
        Expr::Unary { op, operand, .. } => {
            out.say(unary_text(*op));
            show_expr(operand, out);
            out.say(")");
        }
        Expr::Binary {
            op,
            left,
            right,
            ..
        } => {
            out.say(binary_text(*op));
            show_expr(left, out);
            out.say(" ");
            show_expr(right, out);
            out.say(")");
        }
        Expr::Range { low, high, .. } => {
            show_expr(low, out);
            out.say("..");
            show_expr(high, out);
        }
        _ => show_list(tree, out),
    }
    out.at(tree.place());
}

// An expression with a list of parts or of branches.
#[cycle(show_exprs)]
fn show_list(tree: &Expr, out: &mut Text) {
    match tree {
        Expr::Tuple { parts, .. } => show_parts("(tuple", parts, out),
        Expr::Array { parts, .. } => show_parts("(array", parts, out),
        Expr::Sequence { parts, .. } => show_parts("(seq", parts, out),
        Expr::Construct { text, parts, .. } => {
            out.put(text.as_slice());
            show_parts("(new", parts, out);
        }
        Expr::Call { base, parts, .. } => {
            show_expr(base, out);
            show_parts("(call", parts, out);
        }
        Expr::Index { base, parts, .. } => {
            show_expr(base, out);
            show_parts("(at", parts, out);
        }
        Expr::If {
            branches,
            otherwise,
            ..
        } => {
            out.say("(ifx");
            show_choices(branches, out);
            out.say(" else ");
            show_expr(otherwise, out);
            out.say(")");
        }
        Expr::Case {
            selector,
            branches,
            otherwise,
            ..
        } => {
            out.say("(casex ");
            show_expr(selector, out);
            show_choices(branches, out);
            if let Some(value) = otherwise {
                out.say(" else ");
                show_expr(value, out);
            }
            out.say(")");
        }
        _ => {}
    }
}

/// Expressions behind a word, and the end of what they are parts of.
#[cycle(show_exprs)]
pub fn show_parts(word: &str, parts: &[Expr], out: &mut Text) {
    out.say(word);
    show_each(parts, out);
    out.say(")");
}

/// Expressions, with a space before each.
#[cycle(show_exprs)]
pub fn show_each(parts: &[Expr], out: &mut Text) {
    for part in parts {
        out.say(" ");
        show_expr(part, out);
    }
}

#[cycle(show_exprs)]
fn show_choices(branches: &[Choice], out: &mut Text) {
    for branch in branches {
        out.branch_at(branch.at);
        show_each(&branch.tests, out);
        out.say(" -> ");
        show_expr(&branch.value, out);
    }
}
