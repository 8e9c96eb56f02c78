//! What holds of the definitions. The functions do nothing; their clauses are the laws.

ghost use Rattle.std.specs.Prelude.{◌≡◌, ◌∷◌, ◌++◌, List, length, map};
ghost use Rattle.scan_tokens.specs.Characters.{Chars};
ghost use Rattle.scan_tokens.specs.Division.{IsDivision};
ghost use Rattle.scan_tokens.specs.Gaps.{IsNewlineOf};
ghost use Rattle.scan_tokens.specs.Words.{Bytes};
ghost use Rattle.scan_tokens.specs.Newlines.{newline_in};
ghost use Rattle.scan_tokens.specs.Kinds.{number_kind};
ghost use Rattle.scan_tokens.specs.Numbers.{IsNumberOf};
ghost use Rattle.scan_tokens.specs.Order.{AreInOrder, SpansAreInOrder};
ghost use Rattle.scan_tokens.specs.Pieces.{Piece, pieces};
ghost use Rattle.scan_tokens.specs.Regions.{IsMarked};
ghost use Rattle.scan_tokens.specs.Scanned.{scanned};
ghost use Rattle.scan_tokens.specs.declared.tokens.Newline.TheVariants.{No};
ghost use Rattle.scan_tokens.specs.declared.tokens.Token.{Token};

/// A text has one division into tokens, white space and comments, and it is the one that the scanner reads.
pub fn law_one_division()
    ensures exists { (text : Chars) → IsDivision text (pieces text) }
    ensures only { (text : Chars) (ps : List Piece) → IsDivision text ps → ps ≡ pieces text }
{}

/// A run that begins with a digit has the kind of the number that it is, and is an Error where it is none.
pub fn law_numbers()
    ensures { (run : Bytes) → IsNumberOf (number_kind run) run }
{}

/// The tokens of a text lie in it, one after another, and so do its problems.
pub fn law_order()
    ensures tokens { (text : Bytes) → AreInOrder (length text) 0 (scanned text).tokens }
    ensures problems { (text : Bytes) → SpansAreInOrder (length text) 0 (map (λ p. p.span) (scanned text).problems) }
{}

/// The newline of a gap between two tokens is none without LF, and Blank exactly with a line of white space alone.
pub fn law_gaps()
    ensures { (gap : Bytes) → IsNewlineOf gap (newline_in No gap) }
{}

/// No newline counts before the first token, and between two tokens one counts exactly where the regions of all tokens enable it.
pub fn law_newlines()
    ensures first { (text : Bytes) (t : Token) (back : List Token) → (scanned text).tokens ≡ t ∷ back → t.before ≡ No }
    ensures between { (text : Bytes) (front : List Token) (t u : Token) (back : List Token)
        → (scanned text).tokens ≡ front ++ t ∷ u ∷ back → IsMarked text front t u back }
{}
