// What stands at a place of the tokens.
ghost use Rattle.std.specs.Prelude.{◌≡◌, ◌<◌, ◌≤◌, suc, ◌∷◌, [], length, IfSome, IfNone, is_some, max};
ghost use Rattle.nim_tree.specs.Terms.{term_of};
ghost use Rattle.parse_exprs.specs.Look.{op_at, next_at, expr_at, is_punct, is_at_sign, sign_of, bracket_at, square_at};
ghost use Rattle.parse_exprs.specs.Look.{closes_at, named_part_at, names_in, names_behind, name_on, suffix_at, stays};
ghost use Rattle.parse_exprs.specs.Look.{kind_at, operand_at, spelling, place_at, lead_at, branch_at, is_elif, is_else};
ghost use Rattle.parse_exprs.specs.Look.{is_of, first_of_at, colon_at, comma_at, past_colon, dots_at, left_out_at};
ghost use Rattle.parse_exprs.specs.Look.{is_name, is_left_out, as_name, line_spaces, operand_on, no_command_on};
ghost use Rattle.parse_exprs.specs.Look.{else_on, deeper_line_at, line_layout, closed_at};
ghost use Rattle.parse_exprs.specs.Input.{origin_of, from_at};

use crate::kinds::{
    at_start, begins, bracket_of, branch_goes_on, branch_layout, closing, first_goes_on, goes_on,
    is_apart, is_at_sign, is_deeper, is_dots, is_elif, is_else, is_end, is_left_out, is_name,
    is_of, is_operator, is_punct, is_shallower, is_suffix, lead_of, of_level, op_of, sign_of,
};
use crate::layout::Layout;
use arc_base::Place;
use indent_scanner::{Tok, Token};
use nim_tree::{BinaryOp, Expr, UnaryOp};

/// What an expression begins with.
#[derive(Clone, Copy)]
pub enum Lead {
    /// `if`
    If,
    /// `case`
    Case,
    /// An operand.
    Operand,
}

/// A bracket that opens.
#[derive(Clone, Copy)]
pub enum Bracket {
    /// `(`
    Round,
    /// `[`
    Square,
}

/// The tokens of a module, with the bytes that they stand for.
#[derive(Clone, Copy)]
pub struct Input<'a> {
    /// The bytes.
    pub source: &'a [u8],
    /// The tokens of these bytes.
    pub tokens: &'a [Token],
    /// The number of the module.
    pub module: u32,
}

impl Input<'_> {
    /// The token at a place.
    pub fn head(&self, at: usize) -> Option<Token>
        ensures some { IfSome result (λ tok. from_at self.now at ≡ tok ∷ from_at self.now (suc at)) }
        ensures within { IfSome result (λ tok. at < length self.now.tokens.now) }
        ensures none { IfNone result (from_at self.now at ≡ []) }
    {
        if at < self.tokens.len() {
            Some(self.tokens[at])
        } else {
            None
        }
    }

    /// The bytes of a token.
    pub fn spelling(&self, token: Token) -> &[u8]
        ensures { result.now ≡ spelling (origin_of self.now) token }
    {
        let source = self.source;
        let start = source.len().min(token.start as usize);
        let behind = &source[start..];
        let len = behind.len().min(token.len as usize);
        &behind[..len]
    }

    /// The place of a token.
    pub fn place_at(&self, token: Token) -> Place
        ensures { result ≡ place_at (origin_of self.now) token }
    {
        Place {
            module: self.module,
            line: token.line,
            column: token.column,
        }
    }

    /// The place of the token there, or where the module begins if there is none.
    pub fn next_at(&self, at: usize) -> Place
        ensures { result ≡ next_at (origin_of self.now) (from_at self.now at) }
    {
        match self.head(at) {
            Some(token) => self.place_at(token),
            None => Place {
                module: self.module,
                line: 1,
                column: 1,
            },
        }
    }

    /// The operator of this level that goes on there.
    pub(crate) fn op_at(&self, at: usize, layout: Layout, level: u32) -> Option<BinaryOp>
        ensures { result ≡ op_at (origin_of self.now) layout level (from_at self.now at) }
    {
        let token = self.head(at)?;
        if goes_on(layout, token.indent) {
            of_level(level, op_of(token.kind, self.spelling(token)))
        } else {
            None
        }
    }

    /// Whether a bracket or a point goes on there, where a command may begin or not.
    pub(crate) fn suffix_at(&self, at: usize, layout: Layout, command: bool) -> bool
        ensures { result ≡ suffix_at layout command (from_at self.now at) }
    {
        match self.head(at) {
            Some(token) => goes_on(layout, token.indent)
                && (is_suffix(token.kind) && !is_apart(command, token)),
            None => false,
        }
    }

    /// Whether the token there goes on.
    pub fn stays(&self, at: usize, layout: Layout) -> bool
        ensures { result ≡ stays layout (from_at self.now at) }
    {
        match self.head(at) {
            Some(token) => goes_on(layout, token.indent),
            None => false,
        }
    }

    /// Whether this punctuation stands there.
    pub fn punct_at(&self, byte: u8, at: usize) -> bool
        ensures { result ≡ kind_at (is_punct byte) (from_at self.now at) }
    {
        match self.head(at) {
            Some(token) => is_punct(byte, token.kind),
            None => false,
        }
    }

    /// The bracket that opens there.
    pub(crate) fn bracket_at(&self, at: usize) -> Option<Bracket>
        ensures { result ≡ bracket_at (from_at self.now at) }
    {
        match self.head(at) {
            Some(token) => bracket_of(token.kind),
            None => None,
        }
    }

    /// Whether the bracket of a sequence opens there.
    pub(crate) fn square_at(&self, at: usize) -> bool
        ensures { result ≡ square_at (from_at self.now at) }
    {
        match self.bracket_at(at) {
            Some(Bracket::Square) => true,
            _ => false,
        }
    }

    /// Whether the bracket is closed there.
    pub fn closes_at(&self, bracket: Bracket, at: usize) -> bool
        ensures { result ≡ closes_at bracket (from_at self.now at) }
    {
        self.punct_at(closing(bracket), at)
    }

    /// Whether a name and a colon stand there.
    pub(crate) fn named_part_at(&self, at: usize) -> bool
        ensures { result ≡ named_part_at (from_at self.now at) }
    {
        match self.head(at) {
            Some(token) => is_name(token.kind) && self.punct_at(b':', at + 1),
            None => false,
        }
    }

    /// Whether the parts behind a bracket have names.
    pub(crate) fn names_in(&self, bracket: Bracket, at: usize) -> bool
        ensures { result ≡ names_in bracket (from_at self.now at) }
    {
        match bracket {
            Bracket::Round => self.named_part_at(at),
            Bracket::Square => false,
        }
    }

    /// Whether the parts in brackets behind an expression have names.
    pub(crate) fn names_behind(&self, base: &Expr, bracket: Bracket, at: usize) -> bool
        ensures { result ≡ names_behind (term_of base.now) bracket (from_at self.now at) }
    {
        is_name_alone(base) && self.names_in(bracket, at)
    }

    /// Whether a name stands there.
    pub(crate) fn is_name_at(&self, at: usize) -> bool
        ensures { result ≡ kind_at is_name (from_at self.now at) }
    {
        match self.head(at) {
            Some(token) => is_name(token.kind),
            None => false,
        }
    }

    /// The name that goes on there.
    pub fn name_on(&self, at: usize, layout: Layout) -> Option<Token>
        ensures { result ≡ name_on layout (from_at self.now at) }
    {
        match self.head(at) {
            Some(token) if goes_on(layout, token.indent) && is_name(token.kind) => Some(token),
            _ => None,
        }
    }

    /// Whether an expression begins there.
    pub fn expr_at(&self, at: usize) -> bool
        ensures { result ≡ expr_at (origin_of self.now) (from_at self.now at) }
    {
        match self.lead_at(at) {
            Lead::If | Lead::Case => true,
            Lead::Operand => self.operand_at(at),
        }
    }

    /// Whether a token is the `@` of a sequence.
    pub fn is_at_sign(&self, token: Token) -> bool
        ensures { result ≡ is_at_sign token.kind (spelling (origin_of self.now) token) }
    {
        is_at_sign(token.kind, self.spelling(token))
    }

    /// Whether an operand begins there.
    pub fn operand_at(&self, at: usize) -> bool
        ensures { result ≡ operand_at (origin_of self.now) (from_at self.now at) }
    {
        match self.head(at) {
            Some(token) => begins(token.kind, self.spelling(token)),
            None => false,
        }
    }

    /// The operator before one operand that a token is.
    pub(crate) fn sign_of(&self, token: Token) -> Option<UnaryOp>
        ensures { result ≡ sign_of token.kind (spelling (origin_of self.now) token) }
    {
        sign_of(token.kind, self.spelling(token))
    }

    /// What an expression that begins there begins with.
    pub fn lead_at(&self, at: usize) -> Lead
        ensures { result ≡ lead_at (from_at self.now at) }
    {
        match self.head(at) {
            Some(token) => lead_of(token.kind),
            None => Lead::Operand,
        }
    }

    /// The `elif` that goes on there.
    pub(crate) fn elif_at(&self, at: usize, layout: Layout) -> Option<Token>
        ensures is { is_some result ≡ branch_at layout is_elif (from_at self.now at) }
        ensures some { IfSome result (λ tok. from_at self.now at ≡ tok ∷ from_at self.now (suc at)) }
        ensures within { IfSome result (λ tok. at < length self.now.tokens.now) }
    {
        match self.head(at) {
            Some(token) if branch_goes_on(layout, token.indent) && is_elif(token.kind) => Some(
                token,
            ),
            _ => None,
        }
    }

    /// The `of` that goes on there, behind another.
    pub(crate) fn of_at(&self, at: usize, layout: Layout) -> Option<Token>
        ensures is { is_some result ≡ branch_at layout is_of (from_at self.now at) }
        ensures some { IfSome result (λ tok. from_at self.now at ≡ tok ∷ from_at self.now (suc at)) }
        ensures within { IfSome result (λ tok. at < length self.now.tokens.now) }
    {
        match self.head(at) {
            Some(token) if branch_goes_on(layout, token.indent) && is_of(token.kind) => Some(token),
            _ => None,
        }
    }

    /// The first `of`, where it goes on there.
    pub fn first_of_at(&self, at: usize, layout: Layout) -> Option<Token>
        ensures is { is_some result ≡ first_of_at layout (from_at self.now at) }
        ensures some { IfSome result (λ tok. from_at self.now at ≡ tok ∷ from_at self.now (suc at)) }
        ensures within { IfSome result (λ tok. at < length self.now.tokens.now) }
    {
        match self.head(at) {
            Some(token) if first_goes_on(layout, token.indent) && is_of(token.kind) => Some(token),
            _ => None,
        }
    }

    /// Whether an `else` goes on there.
    pub(crate) fn else_at(&self, at: usize, layout: Layout) -> bool
        ensures { result ≡ branch_at layout is_else (from_at self.now at) }
    {
        match self.head(at) {
            Some(token) => branch_goes_on(layout, token.indent) && is_else(token.kind),
            None => false,
        }
    }

    /// Whether an `else` with its colon goes on there.
    pub(crate) fn else_on(&self, at: usize, layout: Layout) -> bool
        ensures { result ≡ else_on layout (from_at self.now at) }
    {
        match self.head(at) {
            Some(token) => (branch_goes_on(layout, token.indent) && is_else(token.kind))
                && self.colon_at(at + 1, layout),
            None => false,
        }
    }

    /// Whether an operand of a command goes on there.
    pub fn operand_on(&self, at: usize, layout: Layout) -> bool
        ensures { result ≡ operand_on (origin_of self.now) layout (from_at self.now at) }
    {
        let Some(token) = self.head(at) else {
            return false;
        };
        if !goes_on(layout, token.indent) {
            return false;
        }
        match token.kind {
            Tok::Op => is_operator(self.spelling(token))
                && (token.space_before && !token.space_after),
            _ => self.expr_at(at),
        }
    }

    /// Whether what ends there begins no command.
    pub(crate) fn no_command_on(&self, at: usize, layout: Layout) -> bool
        ensures { result ≡ no_command_on (origin_of self.now) layout (from_at self.now at) }
    {
        !(at_start(layout) && self.operand_on(at, layout))
    }

    /// Whether a deeper line begins there.
    pub(crate) fn deeper_line_at(&self, at: usize, layout: Layout) -> bool
        ensures { result ≡ deeper_line_at layout (from_at self.now at) }
    {
        match self.head(at) {
            Some(token) => is_deeper(layout, token.indent),
            None => false,
        }
    }

    /// The layout of what stands on the line that begins there.
    pub(crate) fn line_layout(&self, at: usize, layout: Layout) -> Layout
        ensures { result ≡ line_layout layout (from_at self.now at) }
    {
        match self.head(at) {
            Some(token) => branch_layout(layout, token.indent),
            None => layout,
        }
    }

    /// Whether the lines of that level end there.
    pub(crate) fn closed_at(&self, at: usize, layout: Layout) -> bool
        ensures { result ≡ closed_at layout (from_at self.now at) }
    {
        match self.head(at) {
            Some(token) => is_end(token.kind) || is_shallower(layout, token.indent),
            None => true,
        }
    }

    /// Whether a colon goes on there.
    pub fn colon_at(&self, at: usize, layout: Layout) -> bool
        ensures { result ≡ colon_at layout (from_at self.now at) }
    {
        match self.head(at) {
            Some(token) => goes_on(layout, token.indent) && is_punct(b':', token.kind),
            None => false,
        }
    }

    /// Whether a comma goes on there.
    pub fn comma_at(&self, at: usize, layout: Layout) -> bool
        ensures { result ≡ comma_at layout (from_at self.now at) }
    {
        match self.head(at) {
            Some(token) => goes_on(layout, token.indent) && is_punct(b',', token.kind),
            None => false,
        }
    }

    /// The place behind the colon that may stand there.
    pub fn past_colon(&self, at: usize, layout: Layout) -> usize
        requires within { at ≤ length self.now.tokens.now }
        ensures past { from_at self.now result ≡ past_colon layout (from_at self.now at) }
        ensures goes { at ≤ result }
        ensures within { result ≤ length self.now.tokens.now }
    {
        match self.head(at) {
            Some(token) if goes_on(layout, token.indent) && is_punct(b':', token.kind) => at + 1,
            _ => at,
        }
    }

    /// Whether `..` goes on there.
    pub fn dots_at(&self, at: usize, layout: Layout) -> bool
        ensures { result ≡ dots_at (origin_of self.now) layout (from_at self.now at) }
    {
        match self.head(at) {
            Some(token) => goes_on(layout, token.indent)
                && is_dots(token.kind, self.spelling(token)),
            None => false,
        }
    }

    /// Whether a keyword that the language leaves out stands there.
    pub fn left_out_at(&self, at: usize) -> bool
        ensures { result ≡ left_out_at (from_at self.now at) }
    {
        match self.head(at) {
            Some(token) => is_left_out(token.kind),
            None => false,
        }
    }

    /// The number of spaces before the line that a token stands on.
    pub(crate) fn spaces_at(&self, from: usize) -> u32
        requires within { from < length self.now.tokens.now }
        ensures { result ≡ line_spaces from self.now.tokens.now }
    {
        let mut left = from + 1;
        while left > 0 {
            match self.tokens[left - 1].indent {
                Some(spaces) => return spaces,
                None => left -= 1,
            }
        }
        0
    }
}

fn is_name_alone(tree: &Expr) -> bool
    ensures { result ≡ is_some (as_name (term_of tree.now)) }
{
    match tree {
        Expr::Name { .. } => true,
        _ => false,
    }
}
