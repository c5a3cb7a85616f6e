//! Constraints whose ends have been evaluated.

ghost use Rattle.std.specs.Prelude.{◌≡◌, ◌↔◌, ℤ, pos, List, [], ◌∷◌, ◌++◌, IsTrue, OnOk, OnErr};
ghost use Rattle.asl_cons.specs.Ranges.{HasRange, first_low, IsFirst};

use std::alloc::{AllocError, Global};
use std::marker::Model;

/// The parts of a constraint whose ends have been evaluated. Where there are no parts, there are no integers.
#[derive(Drop)]
pub struct Ranges {
    spans: Vec<(i128, i128)>,
}

impl Model for Ranges {
    ghost use Rattle.std.specs.Prelude.{List, ℤ};

    ghost Value = { List (ℤ × ℤ) };

    ghost view = { λ r. r.spans.items };
}

// Whether the integer lies in one of the parts.
fn has_range(v: i128, spans: &[(i128, i128)]) -> bool
    ensures { IsTrue result ↔ HasRange v spans.now }
{
    for s in spans {
        if s.0 <= v && v <= s.1 {
            return true;
        }
    }
    false
}

// The first integer of the first part that is not empty.
fn first_low(spans: &[(i128, i128)]) -> Option<i128>
    ensures { result ≡ first_low spans.now }
{
    for s in spans {
        if s.0 <= s.1 {
            return Some(s.0);
        }
    }
    None
}

impl Ranges {
    /// No parts. It takes no memory.
    pub fn new(alloc: Global) -> Ranges
        ensures { result ≡ [] }
    {
        Ranges {
            spans: Vec::new(alloc),
        }
    }

    /// Appends a part, the integers from `low` to `high`. Where no memory is left, the parts stay as they are.
    pub fn push(&mut self, low: i128, high: i128) -> Result<(), AllocError>
        ensures ok { OnOk result (self.new ≡ self.old ++ (low, high) ∷ []) }
        ensures err { OnErr result (self.new ≡ self.old) }
    {
        self.spans.push((low, high))?;
        Ok(())
    }

    /// Whether the integer lies in one of the parts.
    pub fn has(&self, value: i128) -> bool
        ensures { IsTrue result ↔ HasRange value self.now }
    {
        has_range(value, &self.spans)
    }

    /// 0 where it lies in one of the parts, and otherwise the first integer of the first part that is not empty; `None`
    /// exactly where every part is empty.
    pub fn first(&self) -> Option<i128>
        ensures { IsFirst self.now result }
    {
        if self.has(0) {
            Some(0)
        } else {
            first_low(&self.spans)
        }
    }
}
