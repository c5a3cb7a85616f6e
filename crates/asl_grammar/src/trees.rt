//! The laws of the grammar.

ghost use Rattle.std.specs.Prelude.{ℕ, ◌⊎◌, Bool, List, Result, ◌≡◌, ◌++◌};
ghost use Rattle.asl_syn.specs.declared.code.Fault.{Fault};
ghost use Rattle.asl_syn.specs.declared.token.Token.{Token};
ghost use Rattle.asl_grammar.specs.grammar.Faults.{Parses, SyntaxFault};
ghost use Rattle.asl_grammar.specs.grammar.Cursor.{Lexeme};
ghost use Rattle.asl_syn.specs.declared.read.ReadDecl.{ReadDecl};
ghost use Rattle.asl_grammar.specs.grammar.Language.{Front, Opener, Tree, Answers, without_end, outcome};
ghost use Rattle.asl_grammar.specs.Reading.{File, Reads, Reader, IsReading};

/// A list of tokens has at most one tree.
pub fn one_tree()
    ensures { (levels : ℕ) (ts : List Lexeme) (v w : List ReadDecl) → Tree levels ts v → Tree levels ts w → v ≡ w }
{}

/// The reader with one token of lookahead gives the tree, or the place where no text goes on.
pub fn one_token_is_enough()
    ensures { (levels : ℕ) (ts : List Lexeme) → Answers levels ts (without_end (outcome levels ts)) }
{}

/// At most one token opens a level too many.
pub fn one_opener()
    ensures { (levels : ℕ) (ts : List Lexeme) (m n : ℕ) (y z : Bool) → Opener levels ts m y → Opener levels ts n z → (m ≡ n) × (y ≡ z) }
{}

/// The tokens of a file have one tree or one syntax fault, and never both.
pub fn one_syntax_fault()
    ensures one { (file : ℕ) (bytes : List ℕ) (tokens : List Token) (f g : Fault) → SyntaxFault file bytes tokens f → SyntaxFault file bytes tokens g → f ≡ g }
    ensures no_tree { (file : ℕ) (bytes : List ℕ) (tokens : List Token) (f : Fault) (v : List ReadDecl) → SyntaxFault file bytes tokens f → Parses bytes tokens v → ⊥ }
    ensures some { (file : ℕ) (bytes : List ℕ) (tokens : List Token) → ((v : List ReadDecl) × Parses bytes tokens v) ⊎ ((f : Fault) × SyntaxFault file bytes tokens f) }
{}

/// Each front of a front that goes on does too: so the longest front that goes on ends at the first token with which none does.
pub fn fronts_of_fronts()
    ensures { (levels : ℕ) (front more : List Lexeme) → Front levels (front ++ more) → Front levels front }
{}

/// Files are read to exactly one answer: their declarations in order, or their one fault.
pub fn one_program()
    ensures one { (files : List File) (r s : Result (List ReadDecl) Fault) → Reads files r → Reads files s → r ≡ s }
    ensures some { (read : Reader) × IsReading read }
{}
