//! The laws of lexemes.

ghost use Rattle.std.specs.Prelude.{Result, Option, ◌≡◌, ◌⊎◌, ◌+◌, ◌≤◌, ℕ, List, All, length, map, vec_len};
ghost use Rattle.std.specs.List.{AllByRecursion};
ghost use Rattle.asl_syn.specs.Place.{IsPlaced};
ghost use Rattle.asl_syn.specs.declared.place.Source.{Source};
ghost use Rattle.asl_syn.specs.declared.token.Mark.{Mark};
ghost use Rattle.asl_syn.specs.declared.token.Word.{Word};
ghost use Rattle.asl_syn.specs.declared.token.Token.{Token};
ghost use Rattle.asl_syn.specs.declared.code.Fault.{Fault};
ghost use Rattle.asl_grammar.specs.lexemes.Words.{word_spelling};
ghost use Rattle.asl_grammar.specs.lexemes.Marks.{mark_spelling};
ghost use Rattle.asl_grammar.specs.lexemes.Tokens.{Tokens, LexFault, Scan, NextGives};
ghost use Rattle.asl_grammar.specs.lexemes.Files.{AllTokens, FirstLexFault};
ghost use Rattle.asl_grammar.specs.lexemes.Texts.{HasText};

/// No two words have one spelling, and no two marks.
#[tactic(auto, using(crate::proofs::lexemes::Tables::word_of_spelling, crate::proofs::lexemes::Tables::mark_of_spelling))]
pub fn spellings_differ()
    ensures words { (v w : Word) → word_spelling v ≡ word_spelling w → v ≡ w }
    ensures marks { (l m : Mark) → mark_spelling l ≡ mark_spelling m → l ≡ m }
{}

/// A text has exactly one reading: its tokens, or its one fault.
pub fn one_reading()
    ensures tokens { (limit file : ℕ) (bytes : List ℕ) (ts us : List Token) → Tokens limit file bytes ts → Tokens limit file bytes us → ts ≡ us }
    ensures fault { (limit file : ℕ) (bytes : List ℕ) (f g : Fault) → LexFault limit file bytes f → LexFault limit file bytes g → f ≡ g }
    ensures not_both { (limit file : ℕ) (bytes : List ℕ) (ts : List Token) (f : Fault) → Tokens limit file bytes ts → LexFault limit file bytes f → ⊥ }
    ensures some { (limit file : ℕ) (bytes : List ℕ) → ((ts : List Token) × Tokens limit file bytes ts) ⊎ ((f : Fault) × LexFault limit file bytes f) }
{}

/// A list of texts has exactly one reading: the tokens of each, or the fault of the first that has one.
pub fn one_reading_of_files()
    ensures tokens { (limit n : ℕ) (files : List (List ℕ)) (tss uss : List (List Token)) → AllTokens limit n files tss → AllTokens limit n files uss → tss ≡ uss }
    ensures fault { (limit n : ℕ) (files : List (List ℕ)) (f g : Fault) → FirstLexFault limit n files f → FirstLexFault limit n files g → f ≡ g }
    ensures not_both { (limit n : ℕ) (files : List (List ℕ)) (tss : List (List Token)) (f : Fault) → AllTokens limit n files tss → FirstLexFault limit n files f → ⊥ }
    ensures some { (limit n : ℕ) (files : List (List ℕ)) → ((tss : List (List Token)) × AllTokens limit n files tss) ⊎ ((f : Fault) × FirstLexFault limit n files f) }
{}

/// The text of each token stands at its span, and is a lexeme of the token's kind.
#[tactic(auto, using(crate::proofs::lexemes::Placing::tokens_stand))]
pub fn texts_stand()
    ensures { (limit file : ℕ) (bytes : List ℕ) (ts : List Token) → Tokens limit file bytes ts → AllByRecursion (HasText limit file bytes) ts }
{}

/// The lexical fault of a file stands in it, and that of files has a line and a column.
pub fn faults_stand()
    ensures file { (limit file : ℕ) (bytes : List ℕ) (f : Fault) → LexFault limit file bytes f → (f.span.file ≡ file) × (f.span.start + f.span.len ≤ length bytes) }
    ensures files { (limit : ℕ) (files : List Source) (f : Fault) → All (λ s. vec_len s.bytes ≤ 1048576) files → FirstLexFault limit 0 (map (λ s. s.bytes.items) files) f → IsPlaced files f.span }
{}

/// One state of the reading has one answer, so the end and the fault come again.
#[tactic(auto, using(crate::proofs::lexemes::OneReading::one_next))]
pub fn one_next()
    ensures { (s x y : Scan) (p q : Result (Option Token) Fault) → NextGives s p x → NextGives s q y → (p ≡ q) × (x ≡ y) }
{}
