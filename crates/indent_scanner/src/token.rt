// Tokens.
ghost use Rattle.std.specs.Prelude.{◌≡◌};
ghost use Rattle.indent_scanner.specs.Words.{is_left_out};

/// A keyword: the first ones are in use, and those from `Addr` on are left out of the language.
#[derive(Clone, Copy, Debug)]
pub enum Key {
    And,
    As,
    Break,
    Case,
    Const,
    Continue,
    Defer,
    Discard,
    Distinct,
    Div,
    Elif,
    Else,
    Enum,
    Except,
    Finally,
    For,
    If,
    Import,
    In,
    Let,
    Mod,
    Nil,
    Not,
    Object,
    Of,
    Or,
    Proc,
    Raise,
    Ref,
    Return,
    Shl,
    Shr,
    Try,
    Tuple,
    Type,
    Var,
    While,
    Xor,
    Addr,
    Asm,
    Bind,
    Block,
    Cast,
    Concept,
    Converter,
    Do,
    End,
    Export,
    From,
    Func,
    Include,
    Interface,
    Is,
    IsNot,
    Iterator,
    Macro,
    Method,
    Mixin,
    NotIn,
    Out,
    Ptr,
    Static,
    Template,
    Using,
    When,
    Yield,
}

impl Key {
    /// Whether the language leaves it out.
    pub fn is_left_out(self) -> bool
        ensures { result ≡ is_left_out self }
    {
        match self {
            Key::Addr => true,
            Key::Asm => true,
            Key::Bind => true,
            Key::Block => true,
            Key::Cast => true,
            Key::Concept => true,
            Key::Converter => true,
            Key::Do => true,
            Key::End => true,
            Key::Export => true,
            Key::From => true,
            Key::Func => true,
            Key::Include => true,
            Key::Interface => true,
            Key::Is => true,
            Key::IsNot => true,
            Key::Iterator => true,
            Key::Macro => true,
            Key::Method => true,
            Key::Mixin => true,
            Key::NotIn => true,
            Key::Out => true,
            Key::Ptr => true,
            Key::Static => true,
            Key::Template => true,
            Key::Using => true,
            Key::When => true,
            Key::Yield => true,
            _ => false,
        }
    }
}

/// What a token is.
#[derive(Clone, Copy, Debug)]
pub enum Tok {
    /// A name that is a keyword.
    Key(Key),
    /// Another name.
    Name,
    /// A name in backticks.
    Quoted,
    /// An integer.
    Int(i32),
    /// A char, by its value.
    Char(u8),
    /// A text.
    Text,
    /// A run of operator bytes.
    Op,
    /// One of `( ) [ ] { } , ; = : .`.
    Punct(u8),
    /// `{.`
    PragmaOpen,
    /// `.}`
    PragmaClose,
    /// The end of the source.
    End,
}

/// A token, and where it stands.
#[derive(Clone, Copy)]
pub struct Token {
    /// What it is.
    pub kind: Tok,
    /// The number of bytes before it.
    pub start: u32,
    /// The number of its bytes.
    pub len: u32,
    /// Its line, from 1.
    pub line: u32,
    /// The byte of the line, from 1.
    pub column: u32,
    /// The number of spaces outside comments before it on its line, where it is the first token of the line.
    pub indent: Option<u32>,
    /// Whether no token ends where it begins; a comment between them is a space.
    pub space_before: bool,
    /// Whether no token begins where it ends, but for `End`: so it is before a comment and at the end of the source.
    pub space_after: bool,
}
