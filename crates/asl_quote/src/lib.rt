//! Literals between quotes: bitvectors, masks and strings, read byte by byte by one state machine.
//!
//! - A bitvector: `'`, then `0`, `1` and spaces, then `'`.
//! - A mask: as a bitvector, but also with `x`, and with groups in parentheses: `0`, `1` and spaces, at least one digit.
//! - A string: `"`, then printable ASCII bytes other than `"` and `\`, or `\n`, `\t`, `\\`, `\"`, then `"`.
//!
//! The lexer steps through a literal up to its closing quote, the reader of masks through what stands between the quotes.
#![tactic(auto)]

ghost use Rattle.std.specs.Prelude.{◌≡◌, ℕ, ◌≤◌, List, [], ◌∷◌, ◌++◌, length, true, not, Some};
ghost use Rattle.std.specs.List.{list_all};
ghost use Rattle.asl_quote.specs.Bytes.{is_digit, is_mask_byte, is_mask, digit_count, is_no_quote};
ghost use Rattle.asl_quote.specs.Quotes.{closes, content_step, quote_step, quote_digit, quote_opened, opens_quote, quote_run, quote_len, quote_end, content_run, content_len, content_digits, is_fixed, ClosedAt};
ghost use Rattle.asl_quote.specs.declared.QuoteState.{QuoteState};
ghost use Rattle.asl_quote.specs.declared.QuoteState.TheVariants as at;

/// How far a literal has come behind its opening quote.
#[derive(Clone, Copy, Debug, PartialEq, Eq)]
pub enum QuoteState {
    /// In a bitvector or a mask, outside of groups.
    Bits,
    /// In a group of a mask that has no digit so far.
    EmptyGroup,
    /// In a group of a mask that has a digit.
    Group,
    /// In a string.
    Text,
    /// In a string, behind a backslash.
    Escape,
    /// Behind the closing quote.
    Closed,
}

impl QuoteState {
    /// The state after a byte that opens a literal: `'` opens bitvectors and masks, `"` a string. `None` for other bytes.
    pub fn opened_by(byte: u8) -> Option<QuoteState>
        ensures { result ≡ quote_opened byte }
    {
        match byte {
            b'\'' => Some(QuoteState::Bits),
            b'"' => Some(QuoteState::Text),
            _ => None,
        }
    }

    /// Whether the byte is the quote that closes the literal.
    pub fn is_closed_by(self, byte: u8) -> bool
        ensures { result ≡ closes self byte }
    {
        match self {
            QuoteState::Bits => byte == b'\'',
            QuoteState::Text => byte == b'"',
            _ => false,
        }
    }

    /// The state after one more byte between the quotes, or `None` where the literal cannot have that byte there.
    pub fn content_step(self, byte: u8) -> Option<QuoteState>
        ensures { result ≡ content_step self byte }
    {
        match (self, byte) {
            (QuoteState::Bits, b'0' | b'1' | b'x' | b' ') => Some(QuoteState::Bits),
            (QuoteState::Bits, b'(') => Some(QuoteState::EmptyGroup),
            (QuoteState::EmptyGroup | QuoteState::Group, b'0' | b'1') => Some(QuoteState::Group),
            (QuoteState::EmptyGroup, b' ') => Some(QuoteState::EmptyGroup),
            (QuoteState::Group, b' ') => Some(QuoteState::Group),
            (QuoteState::Group, b')') => Some(QuoteState::Bits),
            (QuoteState::Text, b'\\') => Some(QuoteState::Escape),
            (QuoteState::Text, b' ' | b'!' | b'#'..=b'~') => Some(QuoteState::Text),
            (QuoteState::Escape, b'n' | b't' | b'\\' | b'"') => Some(QuoteState::Text),
            _ => None,
        }
    }

    /// The state after one more byte, which may be the closing quote, or `None` where the literal cannot have it there.
    pub fn step(self, byte: u8) -> Option<QuoteState>
        ensures { result ≡ quote_step self byte }
    {
        if self.is_closed_by(byte) {
            Some(QuoteState::Closed)
        } else {
            self.content_step(byte)
        }
    }

    /// The digit of a bitvector or a mask that a byte writes, or `None` where it writes none. The digit itself is a bit
    /// where it is fixed, and `None` for an `x` and for each digit of a group.
    pub fn digit(self, byte: u8) -> Option<Option<bool>>
        ensures { result ≡ quote_digit self byte }
    {
        match (self, byte) {
            (QuoteState::Bits, b'0') => Some(Some(false)),
            (QuoteState::Bits, b'1') => Some(Some(true)),
            (QuoteState::Bits, b'x') => Some(None),
            (QuoteState::EmptyGroup | QuoteState::Group, b'0' | b'1') => Some(None),
            _ => None,
        }
    }
}

/// The state after the quote that a text begins with, or `None` where it begins with no quote.
pub fn opens_quote(bytes: &[u8]) -> Option<QuoteState>
    ensures { result ≡ opens_quote bytes.now }
{
    match bytes {
        [] => None,
        [first, ..] => QuoteState::opened_by(*first),
    }
}

/// How many of the bytes belong to a literal that has come to the state `start`, and the state after them.
pub fn quote_reach(start: QuoteState, bytes: &[u8]) -> (usize, QuoteState)
    ensures len { result.0 ≡ quote_len start bytes.now }
    ensures fits { result.0 ≤ length bytes.now }
    ensures end { result.1 ≡ quote_end start bytes.now }
{
    let mut state = start;
    let mut rest = bytes;
    while let [byte, ..] = rest {
        match state.step(*byte) {
            Some(next) => {
                state = next;
                rest = &rest[1..];
            }
            None => return (bytes.len() - rest.len(), state),
        }
    }
    (bytes.len() - rest.len(), state)
}

/// Whether a literal in `'` is a mask, that is, has an `x` or a group.
pub fn is_mask(text: &[u8]) -> bool
    ensures { result ≡ is_mask text.now }
{
    text.iter().any(|byte| is_mask_byte(*byte))
}

/// How many digits a literal in `'` has: its width in bits.
pub fn digit_count(text: &[u8]) -> usize
    ensures { result ≡ digit_count text.now }
{
    text.iter().filter(|byte| is_digit(**byte)).count()
}

fn is_mask_byte(byte: u8) -> bool
    ensures { result ≡ is_mask_byte byte }
{
    byte == b'x' || byte == b'('
}

fn is_digit(byte: u8) -> bool
    ensures { result ≡ is_digit byte }
{
    byte == b'0' || byte == b'1' || byte == b'x'
}

// ---- laws

/// After its opening quote a whole literal is its content and the closing quote (`whole`, `content`). The content of a
/// bitvector or a mask writes as many digits as the literal has (`width`), and all of them are fixed exactly where it
/// is no mask (`fixed`). A malformed one is read as far as its content can be (`malformed`).
#[tactic(auto, using(crate::proofs::Contents::literal_facts))]
pub fn literal_law()
    ensures whole { (s e : QuoteState) (bs : List ℕ) (q : ℕ) → content_run s bs ≡ Some e → closes e q ≡ true → quote_run s (bs ++ q ∷ []) ≡ Some at.Closed }
    ensures content { (s : QuoteState) (bs : List ℕ) (q : ℕ) → quote_run s (bs ++ q ∷ []) ≡ Some at.Closed → ClosedAt s bs q }
    ensures width { (bs : List ℕ) → content_run at.Bits bs ≡ Some at.Bits → length (content_digits at.Bits bs) ≡ digit_count bs }
    ensures fixed { (bs : List ℕ) → content_run at.Bits bs ≡ Some at.Bits → list_all is_fixed (content_digits at.Bits bs) ≡ not (is_mask bs) }
    ensures malformed { (bs rest : List ℕ) → list_all is_no_quote bs ≡ true → (content_run at.Bits bs ≡ Some at.Bits → ⊥) → quote_len at.Bits (bs ++ 39 ∷ rest) ≡ content_len at.Bits bs }
{}
