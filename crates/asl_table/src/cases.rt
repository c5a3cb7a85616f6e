//! The tables of single `case`s.

ghost use Rattle.std.specs.Prelude.{◌≡◌, ◌≤◌, ◌∷◌, ◌++◌, [], map, None, Some, option_map, option_copied, IfOk, OnOk};
ghost use Rattle.asl_bits.specs.declared.TheConstants.{WIDTH_LIMIT};
ghost use Rattle.asl_rules.specs.report.MaskTables as rules;
ghost use Rattle.asl_rules.specs.values.Vectors.{literal_digits};
ghost use Rattle.asl_syn.specs.declared.tree.Expr.{out-Expr};
ghost use Rattle.asl_table.specs.View.{table_view};
ghost use Rattle.asl_table.specs.private.Narrow.{kept, behind, narrow, narrowed};
ghost use Rattle.asl_table.specs.private.Walk.{choice_of};
ghost use Rattle.asl_value.specs.View.{digits_of};

use crate::table::MaskTable;
use asl_bits::WORDS;
use asl_mask::Mask;
use asl_syn::read::ReadAlternative;
use asl_syn::token::Span;
use asl_syn::tree::{Expr, Pattern};
use asl_value::MaskDigits;
use std::alloc::{AllocError, Global};
use std::marker::Model;

/// Tables of masks, which contracts see as those of the rules.
#[derive(Drop)]
pub(crate) struct Tables {
    tables: Vec<MaskTable>,
}

impl Model for Tables {
    ghost use Rattle.std.specs.Prelude.{List, map};
    ghost use Rattle.asl_rules.specs.report.MaskTables.{MaskTable as Table};
    ghost use Rattle.asl_table.specs.View.{table_view};

    ghost Value = { List Table };

    ghost view = { λ t. map table_view t.tables.items };
}

impl Tables {
    /// No tables.
    pub(crate) fn new(alloc: Global) -> Tables
        ensures { result ≡ [] }
    {
        Tables {
            tables: Vec::new(alloc),
        }
    }

    /// One more.
    pub(crate) fn push(&mut self, table: MaskTable) -> Result<(), AllocError>
        ensures { OnOk result (self.new ≡ self.old ++ table_view table ∷ []) }
    {
        self.tables.push(table)?;
        Ok(())
    }

    /// The tables.
    pub(crate) fn into_tables(self) -> Vec<MaskTable>
        ensures { map table_view result.items ≡ self }
    {
        let Tables { tables } = self;
        tables
    }
}

// ---- patterns

/// The mask of these digits: none where there are more than a mask can have. No text that is read has so many.
#[tactic(auto, using(crate::proofs::ReadMasks::within, crate::proofs::ReadMasks::past))]
fn mask_of(digits: &MaskDigits) -> Option<Mask>
    ensures { result ≡ narrow (digits_of digits.now) }
{
    match digits {
        MaskDigits::Narrow(mask) => {
            // Its clauses say that it is within `WIDTH_LIMIT`.
            let _width = mask.width();
            Some(mask.resized::<WORDS>())
        }
        MaskDigits::Wide(mask) => {
            let _width = mask.get().width();
            Some(mask.get().resized::<WORDS>())
        }
        MaskDigits::TooWide(digits) => {
            // And these that they are past it.
            let _count = digits.len();
            None
        }
    }
}

/// The mask of a literal of bits or of a mask, whose text has its quotes.
fn read_mask(alloc: Global, text: &[u8]) -> Result<Option<Mask>, AllocError>
    ensures { IfOk result (λ mask. mask ≡ narrow (literal_digits text.now)) }
{
    let digits = MaskDigits::of_literal(alloc, text)?;
    Ok(mask_of(&digits))
}

/// The text of an expression that is a literal of bits.
fn literal_of_expr(e: &Expr) -> Option<&[u8]>
    ensures { option_map literal_digits (option_copied result) ≡ rules.expr_literal (out-Expr e.now) }
{
    match e {
        Expr::Bits(_, text) => Some(text.as_slice()),
        Expr::Int(_, _) | Expr::Bool(_, _) | Expr::Name(_, _) => None,
        Expr::Unary(_, _, _) | Expr::Binary(_, _, _, _) | Expr::Conditional(_, _, _, _) => None,
        Expr::Tuple(_, _) | Expr::Construct(_, _, _) | Expr::Call(_, _, _, _) => None,
        Expr::Field(_, _, _) | Expr::Fields(_, _, _) | Expr::Slices(_, _, _) => None,
        Expr::Element(_, _, _) | Expr::As(_, _, _) | Expr::In(_, _, _) => None,
    }
}

/// The text of a pattern that is a mask or a literal of bits.
fn literal_of(pattern: &Pattern) -> Option<&[u8]>
    ensures { option_map literal_digits (option_copied result) ≡ rules.literal_of pattern.now }
{
    match pattern {
        Pattern::MaskPattern(_, text) => Some(text.as_slice()),
        Pattern::ValuePattern(_, e) => literal_of_expr(e),
        Pattern::AnyPattern(_) | Pattern::SetPattern(_, _, _) | Pattern::AtMost(_, _) => None,
        Pattern::AtLeast(_, _) | Pattern::TuplePattern(_, _) | Pattern::RangePattern(_, _, _) =>
            None,
    }
}

/// Adds the mask of a pattern with the number of its alternative, and says whether the pattern has one.
#[tactic(auto, using(crate::proofs::ReadMasks::no_literal, crate::proofs::ReadMasks::wide_literal, crate::proofs::ReadMasks::one_literal))]
fn push_mask(
    alloc: Global,
    number: u32,
    pattern: &Pattern,
    masks: &mut Vec<(u32, Mask)>,
) -> Result<bool, AllocError>
    ensures { IfOk result (λ added. kept added masks.new.items ≡ behind masks.old.items (narrowed (rules.literals number (pattern.now ∷ [])))) }
{
    let Some(text) = literal_of(pattern) else {
        return Ok(false);
    };
    let Some(mask) = read_mask(alloc, text)? else {
        return Ok(false);
    };
    masks.push((number, mask))?;
    Ok(true)
}

/// Adds the masks of the patterns of an alternative with its number, and says whether each pattern has one.
#[tactic(auto, using(crate::proofs::ReadMasks::no_patterns, crate::proofs::ReadMasks::one_pattern, crate::proofs::ReadMasks::other_pattern, crate::proofs::ReadMasks::all_patterns))]
fn push_patterns(
    alloc: Global,
    number: u32,
    patterns: &[Pattern],
    masks: &mut Vec<(u32, Mask)>,
) -> Result<bool, AllocError>
    ensures { IfOk result (λ added. kept added masks.new.items ≡ behind masks.old.items (narrowed (rules.literals number patterns.now))) }
{
    for pattern in patterns {
        if !push_mask(alloc, number, pattern, masks)? {
            return Ok(false);
        }
    }
    Ok(true)
}

/// The number of an alternative, which has 32 bits in a table. There is no memory for more masks: those of 2^32 alternatives take 2
/// TiB.
fn number_of(number: usize) -> Result<u32, AllocError>
    ensures { IfOk result (λ it. it ≡ number) }
{
    match u32::try_from(number) {
        Ok(number) => Ok(number),
        Err(_) => Err(AllocError),
    }
}

/// Adds the masks of an alternative, and says whether each of its patterns has one, and it no condition.
fn push_alternative(
    alloc: Global,
    number: usize,
    alternative: &ReadAlternative,
    masks: &mut Vec<(u32, Mask)>,
) -> Result<bool, AllocError>
    ensures { IfOk result (λ added. kept added masks.new.items ≡ behind masks.old.items (narrowed (rules.unless_where (choice_of alternative.now).condition (rules.literals number (choice_of alternative.now).patterns)))) }
{
    match alternative {
        ReadAlternative::When(_, Some(_), _) => Ok(false),
        ReadAlternative::When(patterns, None, _) => {
            push_patterns(alloc, number_of(number)?, patterns.as_slice(), masks)
        }
    }
}

/// Adds the masks of the alternatives of a `case`, and says whether it has only such.
#[tactic(auto, using(crate::proofs::ReadMasks::no_alternatives, crate::proofs::ReadMasks::one_alternative, crate::proofs::ReadMasks::other_alternative, crate::proofs::ReadMasks::all_alternatives))]
fn push_alternatives(
    alloc: Global,
    alternatives: &[ReadAlternative],
    masks: &mut Vec<(u32, Mask)>,
) -> Result<bool, AllocError>
    ensures { IfOk result (λ added. kept added masks.new.items ≡ behind masks.old.items (narrowed (rules.masks_from 0 (map choice_of alternatives.now)))) }
{
    for (number, alternative) in alternatives.iter().enumerate() {
        if !push_alternative(alloc, number, alternative, masks)? {
            return Ok(false);
        }
    }
    Ok(true)
}

// ---- tables

/// The width of the first mask.
fn width_of(masks: &[(u32, Mask)]) -> u32
    ensures value { result ≡ rules.width_in masks.now }
    ensures within { result ≤ WIDTH_LIMIT }
{
    match masks.first() {
        None => 0,
        Some((_, mask)) => mask.width(),
    }
}

/// Whether all masks have this width.
fn are_wide(width: u32, masks: &[(u32, Mask)]) -> bool
    ensures { result ≡ rules.are_wide width masks.now }
{
    for (_, mask) in masks {
        if mask.width() != width {
            return false;
        }
    }
    true
}

/// Adds the table of a `case` that has these masks.
fn push_table(span: Span, masks: Vec<(u32, Mask)>, tables: &mut Tables) -> Result<(), AllocError>
    ensures { OnOk result (tables.new ≡ tables.old ++ rules.table_of (record { span = span; masks = masks.items })) }
{
    let width = width_of(masks.as_slice());
    if are_wide(width, masks.as_slice()) {
        tables.push(MaskTable { span, width, masks })?;
    }
    Ok(())
}

/// Adds the table of a `case`, where it has one.
#[tactic(auto, using(crate::proofs::ReadMasks::some_case))]
pub(crate) fn push_case(
    alloc: Global,
    span: Span,
    alternatives: &[ReadAlternative],
    tables: &mut Tables,
) -> Result<(), AllocError>
    ensures { OnOk result (tables.new ≡ tables.old ++ rules.tables_from (rules.case_at span (map choice_of alternatives.now))) }
{
    if alternatives.is_empty() {
        return Ok(());
    }
    let mut masks = Vec::new(alloc);
    if push_alternatives(alloc, alternatives, &mut masks)? {
        push_table(span, masks, tables)?;
    }
    Ok(())
}
