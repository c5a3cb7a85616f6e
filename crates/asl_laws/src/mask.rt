//! The laws of masks, each as the contract of a function without parameters.
#![tactic(auto)]

ghost use Rattle.std.specs.Prelude.{◌≡◌, ℕ, ◌≤◌, ◌<◌, ◌↔◌, true, false, List, map, Bool, Ok, Some, None};
ghost use Rattle.std.specs.List.{All};
ghost use Rattle.asl_syn.specs.declared.read.ReadDecl.{ReadDecl};
ghost use Rattle.asl_grammar.specs.lexemes.Refusals.{max_width};
ghost use Rattle.asl_mask.specs.Covers.{Digits, splits, cover_of};
ghost use Rattle.asl_mask.specs.Least.{least, overlap_of};
ghost use Rattle.asl_mask.specs.declared.cover.Cover.TheVariants as cover;
ghost use Rattle.asl_rules.specs.Tests.{Tests, IsRight};
ghost use Rattle.asl_rules.specs.declared.entry.Entry.{Entry};
ghost use Rattle.asl_rules.specs.declarations.Programs.{Accepted, read_verdict};
ghost use Rattle.asl_rules.specs.report.MaskTables.{MaskCase, MaskTable, is_even, width_in, cases_of, tables_of, digits_in};
ghost use Rattle.asl_laws.specs.Masks.{LeastWord, EachWord, AllWide, both_match, one_matches, case_of_table};

/// The least word. A word is the digits of a bitvector, and is less than another where its number is. The word that `least` finds has
/// the property, and each word of the width that is less lacks it (`least`); where none is found, each word of the width lacks it
/// (`none`). So what `asl masks` writes of masks of one width says: the word of a pair is the least that both masks match (`overlap`),
/// and where a pair of different alternatives has no line, no word matches both (`apart`); the word of `free` is the least that no mask
/// matches (`free`); `total` is written where each word is one that a mask matches (`total`); and `budget` exactly where the search splits
/// more often than the budget allows (`budget`).
#[tactic(auto)]
pub fn least_law()
    ensures least { (w : ℕ) (p : List Bool → Bool) (v : List Bool) → least w p ≡ Some v → LeastWord w p true v }
    ensures none { (w : ℕ) (p : List Bool → Bool) → least w p ≡ None → EachWord w p false }
    ensures overlap { (w : ℕ) (m n : Digits) (v : List Bool) → overlap_of w m n ≡ Some v → LeastWord w (both_match m n) true v }
    ensures apart { (w : ℕ) (m n : Digits) → overlap_of w m n ≡ None → EachWord w (both_match m n) false }
    ensures free { (w budget : ℕ) (ms : List Digits) (v : List Bool) → AllWide w ms → cover_of w budget ms ≡ cover.Free v → LeastWord w (one_matches ms) false v }
    ensures total { (w budget : ℕ) (ms : List Digits) → AllWide w ms → cover_of w budget ms ≡ cover.Total → EachWord w (one_matches ms) true }
    ensures budget { (w budget : ℕ) (ms : List Digits) → (cover_of w budget ms ≡ cover.Budget) ↔ (budget < splits w ms) }
{}

/// One width. In declarations that are accepted, each `case` in which every alternative is without `where` and has only masks and
/// literals of bits as patterns has masks of one width (`one_width`), which is within the width limit (`within`). It is so in each body
/// that is read: of a subprogram, of a getter and a setter, and of an `impdef` as of the `implementation` that replaces it. So under a
/// limit of 2,048 or less each such `case` has a table, in source order (`none_left_out`). The masks of a table have its width, be the
/// declarations accepted or not, so `least_law` speaks of each table (`as_wide`).
#[tactic(auto)]
pub fn masks_law()
    ensures one_width { (t : Tests) → IsRight t → (e : Entry) (ds : List ReadDecl) (a : Accepted) → read_verdict e ds t ≡ Ok a → All (λ (c : MaskCase). is_even c.masks ≡ true) (cases_of ds) }
    ensures within { (t : Tests) → IsRight t → (e : Entry) (ds : List ReadDecl) (a : Accepted) → read_verdict e ds t ≡ Ok a → All (λ (c : MaskCase). width_in c.masks ≤ t.limit) (cases_of ds) }
    ensures none_left_out { (t : Tests) → IsRight t → t.limit ≤ max_width → (e : Entry) (ds : List ReadDecl) (a : Accepted) → read_verdict e ds t ≡ Ok a → map case_of_table (tables_of ds) ≡ cases_of ds }
    ensures as_wide { (ds : List ReadDecl) → All (λ (x : MaskTable). AllWide x.width (digits_in x.masks)) (tables_of ds) }
{}
