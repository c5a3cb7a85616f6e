//! The lines of tables of masks.
ghost use Rattle.std.specs.Prelude.{◌≡◌, ◌<◌, ◌++◌, [], ◌∷◌, suc, Some, IfOk, OnOk, length, map, drop, string_bytes};
ghost use Rattle.std.specs.List.{All};
ghost use Rattle.asl_rules.specs.report.Texts.{bits_text, digit};
ghost use Rattle.asl_rules.specs.report.MaskTables.{all_pairs, cases_line, cover_line, digits_in, head_line, pair_line, pairs_with, table_text, tables_text};
ghost use Rattle.asl_rules.specs.report.Report.{answer};
ghost use Rattle.asl_mask.specs.Covers.{cover_of};
ghost use Rattle.asl_table.specs.Widths.{AreWide};
ghost use Rattle.asl_table.specs.Pairs.{mask_at, AreLows};
ghost use Rattle.asl_table.specs.View.{table_view, HasWidth};
ghost use Rattle.asl_answer.specs.private.Model.{file_of, AreShort};
ghost use Rattle.asl_answer.specs.private.Places.{Begins};
ghost use Rattle.asl_answer.specs.private.Writes.{Writes, Answers, HasCause};

use crate::places::{Place, beginning, name_in, place_of};
use crate::status::{Status, Stop};
use crate::texts::placed_text;
use crate::writing::{put, say};
use asl_bits::Bits;
use asl_io::Sink;
use asl_mask::{Cover, Mask};
use asl_syn::place::Source;
use asl_table::{Low, MaskTable, cover_table, lows, next_overlap};
use std::alloc::{AllocError, Global};

/// Appends a digit.
fn push_digit(text: &mut String, bit: bool) -> Result<(), AllocError>
    ensures { OnOk result (string_bytes text.new ≡ string_bytes text.old ++ digit bit ∷ []) }
{
    text.push_str(if bit { "1" } else { "0" })
}

/// The digits of a word in quotes, the highest first.
fn word_text(alloc: Global, word: &Bits) -> Result<String, AllocError>
    ensures { IfOk result (λ text. string_bytes text ≡ bits_text word.now) }
{
    let mut text = String::from_str(alloc, "'")?;
    let width = word.width();
    for i in 0..width {
        push_digit(&mut text, word.bit(width - 1 - i))?;
    }
    text.push_str("'")?;
    Ok(text)
}

/// The line of a table: where its `case` stands, how many masks it has, and their width.
fn head_text(
    alloc: Global,
    sources: &[Source],
    table: &MaskTable,
    place: Place,
) -> Result<String, AllocError>
    requires { Begins sources.now place table.now.span }
    ensures { IfOk result (λ text. string_bytes text ≡ head_line (map file_of sources.now) (table_view table.now)) }
{
    let masks = table.masks.len();
    let width = table.width;
    let words = format!(in alloc; "{masks} masks of width {width}")?;
    let span = table.span;
    let name = name_in(sources, span.file);
    placed_text(
        alloc,
        name,
        place.line as usize,
        place.column,
        span.len,
        words.as_str(),
    )
}

/// The line of two masks, by their numbers and the least word that both match.
fn pair_text(alloc: Global, first: usize, second: usize, word: &Bits) -> Result<String, AllocError>
    ensures { IfOk result (λ text. string_bytes text ≡ pair_line first second (Some word.now)) }
{
    let word = word_text(alloc, word)?;
    format!(in alloc; "{first} {second} {word}\n")
}

/// The line that says whether the masks of a table match every word.
fn cover_text(alloc: Global, cover: &Cover) -> Result<String, AllocError>
    ensures { IfOk result (λ text. string_bytes text ≡ cover_line cover.now) }
{
    match cover {
        Cover::Budget => String::from_str(alloc, "budget\n"),
        Cover::Total => String::from_str(alloc, "total\n"),
        Cover::Free(word) => {
            let word = word_text(alloc, word)?;
            format!(in alloc; "free {word}\n")
        }
    }
}

/// The line that says how many tables there are.
fn cases_text(alloc: Global, tables: usize) -> Result<String, AllocError>
    ensures { IfOk result (λ text. string_bytes text ≡ cases_line tables) }
{
    format!(in alloc; "cases {tables}\n")
}

/// Writes the line of a table.
fn put_head<K: Sink>(
    alloc: Global,
    sources: &[Source],
    table: &MaskTable,
    place: Place,
    out: &mut K,
) -> Result<(), Stop>
    requires { Begins sources.now place table.now.span }
    ensures text { Writes result (K.written out.old) (K.written out.new) (head_line (map file_of sources.now) (table_view table.now)) }
    ensures cause { HasCause result (K.faults out.old) (K.faults out.new) }
    ensures same_full { K.full out.new ≡ K.full out.old }
{
    let text = head_text(alloc, sources, table, place)?;
    put(out, text.as_bytes())
}

/// Writes the line of two masks.
fn put_pair<K: Sink>(
    alloc: Global,
    first: usize,
    second: usize,
    word: &Bits,
    out: &mut K,
) -> Result<(), Stop>
    ensures text { Writes result (K.written out.old) (K.written out.new) (pair_line first second (Some word.now)) }
    ensures cause { HasCause result (K.faults out.old) (K.faults out.new) }
    ensures same_full { K.full out.new ≡ K.full out.old }
{
    let text = pair_text(alloc, first, second, word)?;
    put(out, text.as_bytes())
}

/// Writes a line for each mask behind the one with this number, counted from 0, that some word matches together with it.
fn put_pairs_with<K: Sink>(
    alloc: Global,
    masks: &[(u32, Mask)],
    lows: &[Low],
    at: usize,
    out: &mut K,
) -> Result<(), Stop>
    requires there { at < length masks.now }
    requires wide { AreWide (length (mask_at masks.now at).1) (digits_in masks.now) }
    requires lows { AreLows masks.now lows.now }
    ensures text { Writes result (K.written out.old) (K.written out.new) (pairs_with (length (mask_at masks.now at).1) (suc at) (suc (suc at)) (mask_at masks.now at) (drop (suc at) masks.now)) }
    ensures cause { HasCause result (K.faults out.old) (K.faults out.new) }
    ensures same_full { K.full out.new ≡ K.full out.old }
{
    let mut from = at + 1;
    while let Some((other, word)) = next_overlap(masks, lows, at, from) {
        put_pair(alloc, at + 1, other + 1, &word, out)?;
        from = other + 1;
    }
    Ok(())
}

/// Writes a line for each two masks of a table that some word matches both of, in order.
fn put_pairs<K: Sink>(alloc: Global, table: &MaskTable, out: &mut K) -> Result<(), Stop>
    requires { HasWidth table.now }
    ensures text { Writes result (K.written out.old) (K.written out.new) (all_pairs table.now.width 1 table.now.masks.items) }
    ensures cause { HasCause result (K.faults out.old) (K.faults out.new) }
    ensures same_full { K.full out.new ≡ K.full out.old }
{
    let masks = table.masks.as_slice();
    let lows = lows(alloc, masks)?;
    for at in 0..masks.len() {
        put_pairs_with(alloc, masks, lows.as_slice(), at, out)?;
    }
    Ok(())
}

/// Writes whether the masks of a table match every word, by a search that splits at most this often.
fn put_cover<K: Sink>(
    alloc: Global,
    table: &MaskTable,
    budget: u32,
    out: &mut K,
) -> Result<(), Stop>
    requires { HasWidth table.now }
    ensures text { Writes result (K.written out.old) (K.written out.new) (cover_line (cover_of table.now.width budget (digits_in table.now.masks.items))) }
    ensures cause { HasCause result (K.faults out.old) (K.faults out.new) }
    ensures same_full { K.full out.new ≡ K.full out.old }
{
    let found = cover_table(
        alloc,
        table.masks.as_slice(),
        table.width,
        u64::from(budget),
    )?;
    let text = cover_text(alloc, &found)?;
    put(out, text.as_bytes())
}

/// Writes the lines of a table, whose `case` stands at this place.
fn put_table<K: Sink>(
    alloc: Global,
    sources: &[Source],
    table: &MaskTable,
    place: Place,
    budget: u32,
    out: &mut K,
) -> Result<(), Stop>
    requires wide { HasWidth table.now }
    requires begins { Begins sources.now place table.now.span }
    ensures text { Writes result (K.written out.old) (K.written out.new) (table_text (map file_of sources.now) budget (table_view table.now)) }
    ensures cause { HasCause result (K.faults out.old) (K.faults out.new) }
    ensures same_full { K.full out.new ≡ K.full out.old }
{
    put_head(alloc, sources, table, place, out)?;
    put_pairs(alloc, table, out)?;
    put_cover(alloc, table, budget, out)
}

/// Writes the lines of each table, in order. Each place is counted from the one before it, so that a file with many tables is gone
/// through once.
fn put_tables<K: Sink>(
    alloc: Global,
    sources: &[Source],
    tables: &[MaskTable],
    budget: u32,
    out: &mut K,
) -> Result<(), Stop>
    requires short { AreShort sources.now }
    requires wide { All HasWidth tables.now }
    ensures text { Writes result (K.written out.old) (K.written out.new) (tables_text (map file_of sources.now) budget (map table_view tables.now)) }
    ensures cause { HasCause result (K.faults out.old) (K.faults out.new) }
    ensures same_full { K.full out.new ≡ K.full out.old }
{
    let mut place = beginning(0);
    for table in tables {
        place = place_of(sources, table.span, place);
        put_table(alloc, sources, table, place, budget, out)?;
    }
    Ok(())
}

/// Writes the lines of the tables and how many tables there are, and answers the status. Each line goes to the sink as it is made.
pub fn say_tables<K: Sink>(
    alloc: Global,
    sources: &[Source],
    tables: &[MaskTable],
    budget: u32,
    out: &mut K,
) -> Result<Status, Stop>
    requires short { AreShort sources.now }
    requires wide { All HasWidth tables.now }
    ensures answer { Answers result (K.written out.old) (K.written out.new) (answer (tables_text (map file_of sources.now) budget (map table_view tables.now) ++ cases_line (length tables.now)) 0) }
    ensures cause { HasCause result (K.faults out.old) (K.faults out.new) }
    ensures same_full { K.full out.new ≡ K.full out.old }
{
    put_tables(alloc, sources, tables, budget, out)?;
    let text = cases_text(alloc, tables.len())?;
    say(out, text.as_bytes(), Status::Done)
}
