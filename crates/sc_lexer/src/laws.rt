//! Laws of the definitions, as contracts of functions that do nothing. Where a law begins with a text that is
//! read, `is.0` is the list of its elements.

ghost use Rattle.std.specs.Prelude.{◌≡◌, ◌+◌, ◌<◌, ◌++◌, ℕ, Bool, List, ◌⊎◌, Some, None, Ok, true, false, length, take, drop, slice_get, nat_eq, codes, All, ◌==◌};
ghost use Rattle.std.specs.List.{starts_with, list_all};
ghost use Rattle.sc_tree.specs.declared.lexed.Lexed.{Lexed};
ghost use Rattle.sc_tree.specs.declared.token.Token.{Token};
ghost use Rattle.sc_lexer.specs.declared.refusal.LexError.{LexError};
ghost use Rattle.sc_lexer.specs.declared.refusal.LexError.TheVariants.{OutOfMemory, OpenComment};
ghost use Rattle.sc_lexer.specs.declared.element.Found.TheVariants as found;
ghost use Rattle.sc_lexer.specs.Class.{begins_with};
ghost use Rattle.sc_lexer.specs.Defined.{Definitions};
ghost use Rattle.sc_lexer.specs.Element.{element_at};
ghost use Rattle.sc_lexer.specs.Format.{format_text, is_writable, quoted_text, IsFormat};
ghost use Rattle.sc_lexer.specs.Gap.{HasNoEnd, IsGap};
ghost use Rattle.sc_lexer.specs.Longest.{IsLongestPiece};
ghost use Rattle.sc_lexer.specs.Numbered.{with_pieces, HasNumber, IsNumbered, IsWhatItSays};
ghost use Rattle.sc_lexer.specs.Piece.{Piece, pieces, joined, is_directive, Covers};
ghost use Rattle.sc_lexer.specs.Placed.{is_line_start, IsDirectiveAt, IsMarkedOff, IsOnItsLine, StandAt};
ghost use Rattle.sc_lexer.specs.Text.{IsLexed, IsRefused};

/// A text has at most one list of tokens with its names and its formats.
pub fn at_most_one_list()
    ensures { (text : List ℕ) (a b : Lexed) → IsLexed text a → IsLexed text b → a ≡ b }
{}

/// A text has at most one refusal.
pub fn at_most_one_refusal()
    ensures { (text : List ℕ) (d e : LexError) → IsRefused text d → IsRefused text e → d ≡ e }
{}

/// A text has tokens or a refusal, and not both.
pub fn tokens_or_refusal()
    ensures one { (text : List ℕ) → ((a : Lexed) × IsLexed text a) ⊎ ((e : LexError) × IsRefused text e) }
    ensures not_both { (text : List ℕ) (a : Lexed) (e : LexError) → IsLexed text a → IsRefused text e → ⊥ }
{}

/// A text is refused for its bytes, and not for want of memory.
pub fn refused_for_its_bytes()
    ensures { (text : List ℕ) → IsRefused text OutOfMemory → ⊥ }
{}

/// The tokens, directives, comments and blanks of a text, joined, are the text. None of them is empty.
pub fn elements_are_the_text()
    ensures joined { (text : List ℕ) (a : Lexed) (is : IsLexed text a) → joined (pieces text is.0) ≡ text }
    ensures some { (text : List ℕ) (a : Lexed) (is : IsLexed text a) →
        All (λ (p : Piece). 0 < length p.bytes) (pieces text is.0) }
{}

/// Each byte of a text belongs to exactly one element.
pub fn each_byte_in_one_element()
    ensures some { (text : List ℕ) (a : Lexed) (is : IsLexed text a) (place : ℕ) → place < length text →
        (i : ℕ) × (p : Piece) × (slice_get (pieces text is.0) i ≡ Some p) × Covers p place }
    ensures one { (text : List ℕ) (a : Lexed) (is : IsLexed text a) (place i j : ℕ) (p q : Piece) →
        slice_get (pieces text is.0) i ≡ Some p → slice_get (pieces text is.0) j ≡ Some q →
        Covers p place → Covers q place → i ≡ j }
{}

/// Each token stands behind as many bytes as its place says, and on the line that follows as many newlines.
pub fn tokens_where_they_stand()
    ensures places { (text : List ℕ) (a : Lexed) (is : IsLexed text a) → StandAt a.tokens (pieces text is.0) }
    ensures lines { (text : List ℕ) (a : Lexed) → IsLexed text a → All (IsOnItsLine text) a.tokens }
{}

/// The elements that begin with `#` are the directives. Only blanks stand before them on their line, and they
/// stand in no comment; and each `#` with only blanks before it on its line begins one, if it stands in no comment.
pub fn directives_begin_lines()
    ensures marked_off { (text : List ℕ) (a : Lexed) (is : IsLexed text a) → All IsMarkedOff (pieces text is.0) }
    ensures outside { (text : List ℕ) (a : Lexed) (is : IsLexed text a) (i j : ℕ) (p q : Piece) →
        slice_get (pieces text is.0) i ≡ Some p → slice_get (pieces text is.0) j ≡ Some q →
        is_directive p.found ≡ true → q.found ≡ found.Gap → Covers q (length p.before) → ⊥ }
    ensures each { (text : List ℕ) (a : Lexed) (is : IsLexed text a) (i : ℕ) (p : Piece) (place : ℕ) →
        slice_get (pieces text is.0) i ≡ Some p → Covers p place → begins_with (λ b. b == 35) (drop place text) ≡ true →
        is_line_start (take place text) ≡ true → (p.found ≡ found.Gap) ⊎ IsDirectiveAt p place }
{}

/// Each token is what its element says: that number, word or mark, or a format; and a name is the number that a
/// directive before it defined it as, or else a name.
pub fn tokens_are_what_they_say()
    ensures { (text : List ℕ) (a : Lexed) (is : IsLexed text a) →
        All (IsWhatItSays (pieces text is.0)) (with_pieces a.tokens (pieces text is.0)) }
{}

/// The names and the formats of a text are the distinct ones of its tokens in order of first appearance, and
/// each name and each format has its number there.
pub fn names_in_order()
    ensures distinct { (text : List ℕ) (a : Lexed) (is : IsLexed text a) → IsNumbered a (pieces text is.0) }
    ensures numbers { (text : List ℕ) (a : Lexed) (is : IsLexed text a) →
        All (λ (t : Token × Piece). HasNumber a t.0.kind t.1.bytes) (with_pieces a.tokens (pieces text is.0)) }
{}

/// No name, number or mark of a text could be longer where it stands. A name is no reserved word, a number has the
/// value of its digits, and words and marks are spelled so.
pub fn longest_elements()
    ensures { (text : List ℕ) (a : Lexed) (is : IsLexed text a) → All (IsLongestPiece text) (pieces text is.0) }
{}

/// What stands between tokens and directives are single blanks, and comments, each to the end of its line or to
/// the first end behind its beginning. So comments do not nest.
pub fn comments_end_first()
    ensures { (text : List ℕ) (a : Lexed) (is : IsLexed text a) →
        All (λ (p : Piece). p.found ≡ found.Gap → IsGap (drop (length p.before) text) (length p.bytes))
        (pieces text is.0) }
{}

/// An open comment has no end behind its beginning.
pub fn open_comments_have_no_end()
    ensures begins { (text : List ℕ) (place : ℕ) → IsRefused text (OpenComment place) →
        starts_with nat_eq (drop place text) (codes "/*") ≡ true }
    ensures no_end { (text : List ℕ) (place : ℕ) → IsRefused text (OpenComment place) →
        HasNoEnd (drop (place + 2) text) }
{}

/// Each format of a text is printable, and its text, written again with its escapes, is the format.
pub fn formats_written_again()
    ensures { (text : List ℕ) (a : Lexed) (is : IsLexed text a) →
        All (λ (p : Piece). p.found ≡ found.Format → IsFormat p.bytes) (pieces text is.0) }
{}

/// A text that is written as a format is read as that format, whatever follows, and has that text.
pub fn formats_read_back()
    ensures element { (fresh : Bool) (defined : Definitions) (text behind : List ℕ) → list_all is_writable text ≡ true →
        element_at fresh defined (quoted_text text ++ behind) ≡
        Ok (record { size = length (quoted_text text); found = found.Format }) }
    ensures text { (text : List ℕ) → list_all is_writable text ≡ true → format_text (quoted_text text) ≡ text }
{}
