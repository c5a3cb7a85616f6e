//! Makes programs: of a number and a size one with as many subprograms and globals as the size says, whose widths and first values
//! are drawn from the number, and with a `main` that calls each subprogram once.
#![tactic(auto)]

ghost use Rattle.std.specs.Prelude.{◌≡◌, ◌*◌, ◌++◌, ◌<◌, ◌≤◌, ◌%◌, ◌^◌, IfOk, OnOk, decimal, vec_len};
ghost use Rattle.asl_rules.specs.report.Made.{call_line, declarations, drawn, function_line, global_line, made_text, next, statements, sum_line, value_in, widening_in};

use itoa::Buffer;
use std::alloc::{AllocError, Global};

/// The greatest size.
pub const MOST_SIZE: u32 = 2_000;

/// The text of the program of a number and a size, which is 1 to 2,000. It is no longer than a file may be. An error means that there
/// was no memory.
pub fn program(alloc: Global, number: u32, size: u32) -> Result<Vec<u8>, AllocError>
    requires some { 1 ≤ size }
    requires few { size ≤ MOST_SIZE }
    ensures text { IfOk result (λ text. text.items ≡ made_text number size) }
    ensures short { IfOk result (λ text. vec_len text ≤ 1048576) }
{
    let mut text = Vec::new(alloc);
    push_declarations(&mut text, number, size)?;
    text.extend_from_slice(b"func main() => integer begin\nvar s = 0;\n")?;
    push_statements(&mut text, number, size)?;
    text.extend_from_slice(b"return s;\nend;\n")?;
    Ok(text)
}

/// Adds the declarations of all subprograms and globals. Two numbers are drawn for each pair of them.
fn push_declarations(text: &mut Vec<u8>, number: u32, size: u32) -> Result<(), AllocError>
    ensures { OnOk result (text.new.items ≡ text.old.items ++ declarations number size) }
{
    let mut last = first_drawn(number);
    for before in 0..size {
        let first = next(last);
        let second = next(first);
        push_function(text, before + 1, widening_in(first))?;
        push_global(text, before + 1, value_in(second))?;
        last = second;
    }
    Ok(())
}

/// Adds the statements of `main`, with the same numbers, which are drawn anew.
fn push_statements(text: &mut Vec<u8>, number: u32, size: u32) -> Result<(), AllocError>
    ensures { OnOk result (text.new.items ≡ text.old.items ++ statements number size) }
{
    let mut last = first_drawn(number);
    for before in 0..size {
        let first = next(last);
        push_call(text, before + 1, widening_in(first))?;
        push_sum(text, before + 1)?;
        last = next(first);
    }
    Ok(())
}

/// The number that is drawn first.
#[tactic(auto, unfolding(asl_rules::specs::report::Made::drawn))]
fn first_drawn(number: u32) -> u32
    ensures { result ≡ drawn number 0 }
{
    number % (1 << 31)
}

/// The number that is drawn next.
fn next(last: u32) -> u32
    ensures { result ≡ next last }
{
    ((1_103_515_245 * last as u64 + 12_345) % (1 << 31)) as u32
}

/// By how many bits the result of a subprogram is wider.
fn widening_in(drawn: u32) -> u32
    ensures { result ≡ widening_in drawn }
{
    1 + drawn / 65_536 % 8
}

/// The first value of a global.
fn value_in(drawn: u32) -> u32
    ensures { result ≡ value_in drawn }
{
    drawn / 65_536 % 100
}

/// Adds the declaration of a subprogram by its place, counted from 1, whose result is so many bits wider than its argument.
fn push_function(text: &mut Vec<u8>, place: u32, wider: u32) -> Result<(), AllocError>
    ensures { OnOk result (text.new.items ≡ text.old.items ++ function_line place wider) }
{
    text.extend_from_slice(b"pure func f")?;
    push_number(text, place)?;
    text.extend_from_slice(b"{N}(x: bits(N)) => bits(N+")?;
    push_number(text, wider)?;
    text.extend_from_slice(b") begin return x :: Ones{")?;
    push_number(text, wider)?;
    text.extend_from_slice(b"}(); end;\n")
}

/// Adds the declaration of a global with its first value.
fn push_global(text: &mut Vec<u8>, place: u32, value: u32) -> Result<(), AllocError>
    ensures { OnOk result (text.new.items ≡ text.old.items ++ global_line place value) }
{
    text.extend_from_slice(b"var g")?;
    push_number(text, place)?;
    text.extend_from_slice(b": integer = ")?;
    push_number(text, value)?;
    text.extend_from_slice(b";\n")
}

/// Adds the statement that calls a subprogram and adds what it gives to its global.
fn push_call(text: &mut Vec<u8>, place: u32, wider: u32) -> Result<(), AllocError>
    ensures { OnOk result (text.new.items ≡ text.old.items ++ call_line place wider) }
{
    text.extend_from_slice(b"g")?;
    push_number(text, place)?;
    text.extend_from_slice(b" = g")?;
    push_number(text, place)?;
    text.extend_from_slice(b" + UInt(f")?;
    push_number(text, place)?;
    text.extend_from_slice(b"{")?;
    push_number(text, wider)?;
    text.extend_from_slice(b"}(Zeros{")?;
    push_number(text, wider)?;
    text.extend_from_slice(b"}()));\n")
}

/// Adds the statement that adds a global to the sum.
fn push_sum(text: &mut Vec<u8>, place: u32) -> Result<(), AllocError>
    ensures { OnOk result (text.new.items ≡ text.old.items ++ sum_line place) }
{
    text.extend_from_slice(b"s = s + g")?;
    push_number(text, place)?;
    text.extend_from_slice(b";\n")
}

/// Adds a number in decimal digits.
fn push_number(text: &mut Vec<u8>, number: u32) -> Result<(), AllocError>
    ensures { OnOk result (text.new.items ≡ text.old.items ++ decimal number) }
{
    let mut buffer = Buffer::new();
    text.extend_from_slice(buffer.format(number).as_bytes())
}
