//! The names that a statement is written out with.

ghost use Rattle.std.specs.Prelude.{◌≡◌, ◌++◌, IfOk, OnOk, decimal};
ghost use Rattle.asl_rules.specs.declarations.WrittenOut.{made_place, made_value};

use asl_syn::token::Span;
use asl_syn::tree::Text;
use itoa::Buffer;
use std::alloc::{AllocError, Global};

/// Adds the digits of a number.
fn push_number(text: &mut Vec<u8>, number: usize) -> Result<(), AllocError>
    ensures { OnOk result (text.new.items ≡ text.old.items ++ decimal number) }
{
    let mut buffer = Buffer::new();
    text.extend_from_slice(buffer.format(number).as_bytes())
}

/// The name of the value with this number, in a statement that begins here.
pub fn made_value(alloc: Global, at: Span, number: usize) -> Result<Text, AllocError>
    ensures { IfOk result (λ text. text ≡ made_value at number) }
{
    let mut text = Vec::new(alloc);
    text.extend_from_slice(b"__")?;
    push_number(&mut text, number)?;
    text.extend_from_slice(b"@")?;
    push_number(&mut text, at.start as usize)?;
    Ok(Text::from_vec(text))
}

/// The name of the place into which is stored, in a statement that begins here.
pub fn made_place(alloc: Global, at: Span) -> Result<Text, AllocError>
    ensures { IfOk result (λ text. text ≡ made_place at) }
{
    let mut text = Vec::new(alloc);
    text.extend_from_slice(b"__t@")?;
    push_number(&mut text, at.start as usize)?;
    Ok(Text::from_vec(text))
}
