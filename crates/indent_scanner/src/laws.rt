// The laws of tokens.
ghost use Rattle.std.specs.Prelude.{◌≡◌, ◌⊎◌, ℕ, List, All};
ghost use Rattle.arc_base.specs.declared.place.Code.{Code};
ghost use Rattle.arc_base.specs.declared.place.Place.{Place};
ghost use Rattle.indent_scanner.specs.declared.token.Token.{Token};
ghost use Rattle.indent_scanner.specs.Tokens.{Tokens, IsRefused, StandsIn, StandsAt};
ghost use Rattle.indent_scanner.specs.Spacing.{IsSpaced, IsIndented, comments};
ghost use Rattle.indent_scanner.specs.Meaning.{IsSpelledIn};
ghost use Rattle.indent_scanner.specs.Grammar.{IsText};
ghost use Rattle.indent_scanner.specs.ByForm.{characters};

/// A source has tokens or is refused, and never both: it has one list of tokens, or one refusal at one place.
pub fn one_reading()
    ensures some { (source : List ℕ) (number : ℕ) → ((tokens : List Token) × Tokens source tokens)
        ⊎ ((code : Code) × (at : Place) × IsRefused source number code at) }
    ensures once { (source : List ℕ) (tokens others : List Token) → Tokens source tokens → Tokens source others → tokens ≡ others }
    ensures apart { (source : List ℕ) (number : ℕ) (code : Code) (at : Place) (tokens : List Token)
        → IsRefused source number code at → Tokens source tokens → ⊥ }
    ensures refused_once { (source : List ℕ) (number : ℕ) (code other : Code) (at elsewhere : Place)
        → IsRefused source number code at → IsRefused source number other elsewhere
        → (code ≡ other) × (at ≡ elsewhere) }
{}

/// Each token stands at the line and column of its first byte, and its bytes are a token of its kind; its spaces tell
/// whether it touches the tokens beside it, and its indent whether it is the first of its line, and how many spaces
/// outside comments stand before it there. A refusal stands at the line and column of its byte.
pub fn each_token()
    ensures tokens { (source : List ℕ) (tokens : List Token) → Tokens source tokens → All (StandsIn source) tokens }
    ensures spelled { (source : List ℕ) (tokens : List Token) → Tokens source tokens → All (IsSpelledIn source) tokens }
    ensures spaced { (source : List ℕ) (tokens : List Token) → Tokens source tokens → IsSpaced tokens }
    ensures indented { (source : List ℕ) (tokens : List Token) (r : Tokens source tokens) → All (IsIndented source (comments r)) tokens }
    ensures refused { (source : List ℕ) (number : ℕ) (code : Code) (at : Place)
        (r : IsRefused source number code at) → StandsAt source r.here.start at.line at.column }
{}

/// The characters of a text are the values that it stands for.
pub fn text_characters()
    ensures { (text values : List ℕ) → IsText text values → characters text ≡ values }
{}
