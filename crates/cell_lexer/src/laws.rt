ghost use Rattle.std.specs.Prelude.{◌≡◌, ℕ, ◌+◌, ◌≤◌, ◌⊎◌, false, List, All, length, map, decimal, IsTrue};
ghost use Rattle.sys_base.specs.Bytes.{is_space};
ghost use Rattle.sys_base.specs.Key.{key_text};
ghost use Rattle.sys_base.specs.declared.key.Key.{Key};
ghost use Rattle.cell_lexer.specs.declared.error.LexError.{LexError};
ghost use Rattle.cell_lexer.specs.declared.token.Mark.{Mark};
ghost use Rattle.cell_lexer.specs.declared.token.Sort.{Sort};
ghost use Rattle.cell_lexer.specs.declared.token.Token.{Token};
ghost use Rattle.cell_lexer.specs.Faults.{FirstFault};
ghost use Rattle.cell_lexer.specs.Forms.{Says, greatest, mark_text};
ghost use Rattle.cell_lexer.specs.Pieces.{Piece, text_of, prolongs, Legible, placed, words_of, words_in, lines_from};
ghost use Rattle.cell_lexer.specs.Tokens.{TokensOf};

/// A law: a text has at most one list of tokens and at most one first fault, and never both.
pub fn one_outcome()
    ensures tokens { (text : List ℕ) (ts us : List Token) → TokensOf text ts → TokensOf text us → ts ≡ us }
    ensures faults { (text : List ℕ) (e f : LexError) → FirstFault text e → FirstFault text f → e ≡ f }
    ensures apart { (text : List ℕ) (ts : List Token) (e : LexError) → TokensOf text ts → FirstFault text e → ⊥ }
{}

/// A law: every text has tokens or a first fault.
pub fn some_outcome()
    ensures { (text : List ℕ) → ((ts : List Token) × TokensOf text ts) ⊎ ((e : LexError) × FirstFault text e) }
{}

/// A law: the tokens of a text end inside it, and are no more than its bytes.
pub fn few_tokens()
    ensures inside { (text : List ℕ) (ts : List Token) → TokensOf text ts → All (λ t. t.at + t.len ≤ length text) ts }
    ensures few { (text : List ℕ) (ts : List Token) → TokensOf text ts → length ts ≤ length text }
{}

/// A law: no two marks and no two keywords are spelt alike.
pub fn one_spelling()
    ensures marks { (m n : Mark) → mark_text m ≡ mark_text n → m ≡ n }
    ensures keys { (j k : Key) → key_text j ≡ key_text k → j ≡ k }
{}

/// A law: a text that is joined of words and blank gaps, where nothing after a word makes it longer, has just these
/// words as its tokens, on the lines that the gaps lead to.
pub fn read_back()
    ensures tokens { (ps : List Piece) (last : List ℕ) → Legible ps last
        → TokensOf (text_of ps last) (placed (text_of ps last) 0 ps) }
    ensures words { (ps : List Piece) (last : List ℕ)
        → words_of (text_of ps last) (placed (text_of ps last) 0 ps) ≡ words_in ps }
    ensures lines { (ps : List Piece) (last : List ℕ) → Legible ps last
        → map (λ (t : Token). t.line) (placed (text_of ps last) 0 ps) ≡ lines_from 1 ps }

    // What helps to show that a text is legible: a separator ends each word, and decimals are numbers.
    ensures separators { (sort : Sort) (b : ℕ) → IsTrue (is_space b) → prolongs sort b ≡ false }
    ensures decimals { (n : ℕ) → n ≤ greatest → Says (decimal n) (Sort.Number n) }
{}
