//! Runs over instruction words.
ghost use Rattle.std.specs.Prelude.{◌≡◌, ◌≤◌, ◌⊎◌, ◌∷◌, [], Ok, Some, true, map, IfErr, IfOk, MatchResult, OnErr, length};
ghost use Rattle.std.specs.List.{All};
ghost use Rattle.asl_rules.specs.runs.Plans.{starting};
ghost use Rattle.asl_rules.specs.declarations.Programs.{environment};
ghost use Rattle.asl_rules.specs.Tests.{Tests};
ghost use Rattle.asl_rules.specs.runs.Told.{appended, Part};
ghost use Rattle.asl_rules.specs.runs.Words.{entry_for, run_word, word_line, words_final};
ghost use Rattle.asl_rules.specs.values.Values as given;
ghost use Rattle.asl_rules.specs.runs.Words as rules;
ghost use Rattle.asl_types.specs.Suits.{Suits};
ghost use Rattle.asl_value.specs.View.{value_of};
ghost use Rattle.asl_machine.specs.declared.stage.Stage.TheVariants as stage;
ghost use Rattle.asl_machine.specs.Stages.{answer_of, is_ready, Counted};
ghost use Rattle.asl_machine.specs.Work.{EndsWith, IsCallable, globals_of};
ghost use Rattle.asl_words.specs.Shapes.{IsNamed};
ghost use Rattle.asl_words.specs.private.Runs.{Between, IsWord, LeavesWords, StandsBefore, end_of, words_with};

use crate::line::put_line;
use crate::{MOST_WORDS, Word};
use asl_io::Sink;
use asl_machine::{Machine, Outcome, RunRefused};
use asl_syn::code::DynCode;
use asl_syn::token::Span;
use asl_tree::{Checked, SubId};
use asl_types::seeing::see;
use asl_value::{Value, plain_bits};
use asl_vector::Vector;
use std::alloc::{AllocError, Global};

/// How a run over words ends.
#[derive(Clone, Copy, PartialEq, Eq)]
pub enum ExecEnd {
    /// All calls returned; so many words there are.
    Done(u32),
    /// An exception was not caught. `Machine::uncaught` has it.
    Uncaught,
    /// A fault of the rules, at its place.
    Fault(DynCode, Span),
}

/// Calls an entry of a machine's program once for each word, in order, up to the first call that doesn't return: `decode` for a word of 8
/// digits, and `decode16` for one of 4, which is below 65,536; the program was checked with the entry of each word. Before each call goes
/// the line of its word. Where a line or an argument is refused, outside a call, the machine stands as before that word, and hasn't ended:
/// the sink took the text of the words in front of it, and behind that a part of its line.
pub fn exec<K: Sink>(
    alloc: Global,
    machine: &mut Machine,
    words: &[Word],
    sink: &mut K,
) -> Result<ExecEnd, RunRefused>
    requires ready { is_ready machine.old.stage ≡ true }
    requires named { All (IsNamed machine.old.checked.asked) words.now }
    requires few { length words.now ≤ MOST_WORDS }
    ensures answer { IfOk result (λ end. end_of (length words.now) machine.new.stage ≡ Some end) }
    ensures checked { machine.new.checked ≡ machine.old.checked }
    ensures outcome { IfOk result (λ end. (t : Tests) → Suits t →
        LeavesWords t machine.new (K.written sink.new) (words_with t machine.old words.now (K.written sink.old))) }
    ensures prefix { OnErr result ((t : Tests) → Suits t →
        Between (K.written sink.old) (K.written sink.new) (words_final (words_with t machine.old words.now (K.written sink.old))).told) }
    ensures refused { IfErr result (λ e. (machine.new.stage ≡ stage.Refused e)
        ⊎ ((t : Tests) → Suits t → StandsBefore t machine.old machine.new words.now (K.written sink.old) (K.written sink.new))) }
    ensures counts { MatchResult result
        (λ end. K.faults sink.new ≡ K.faults sink.old)
        (λ e. Counted (stage.Refused e) (K.faults sink.old) (K.faults sink.new)) }
    ensures same_full { K.full sink.new ≡ K.full sink.old }
{
    for word in words {
        match exec_word(alloc, machine, *word, sink)? {
            Outcome::Returned => {}
            Outcome::Uncaught => return Ok(ExecEnd::Uncaught),
            Outcome::Fault(code, span) => return Ok(ExecEnd::Fault(code, span)),
        }
    }
    Ok(ExecEnd::Done(words.len() as u32))
}

/// The subprogram that is called for a word, where there is one.
fn found_for(checked: &Checked, word: Word) -> Option<SubId>
    ensures { result ≡ entry_for checked.now.entries word }
{
    if word.is_short() {
        checked.entry16()
    } else {
        checked.entry()
    }
}

/// The entry for a word of a program that was checked with it.
fn entry_of(checked: &Checked, word: Word) -> SubId
    requires { IsNamed checked.now.asked word }
    ensures { entry_for checked.now.entries word ≡ Some result }
{
    // Its clause says that the rules accept the program, with the entries that were asked for.
    let _sealed = checked.parts();
    let Some(entry) = found_for(checked, word) else {
        unreachable!();
    };
    entry
}

/// Writes the line of a word, and calls its entry with it. Refused before the call, the machine is as it was, and the sink took a part of
/// the line.
fn exec_word<K: Sink>(
    alloc: Global,
    machine: &mut Machine,
    word: Word,
    sink: &mut K,
) -> Result<Outcome, RunRefused>
    requires ready { is_ready machine.old.stage ≡ true }
    requires named { IsNamed machine.old.checked.asked word }
    ensures answer { IfOk result (λ o. answer_of machine.new.stage ≡ Ok o) }
    ensures checked { machine.new.checked ≡ machine.old.checked }
    ensures outcome { IfOk result (λ o. (t : Tests) → Suits t →
        EndsWith t machine.new (K.written sink.new)
        (run_word (environment t machine.old.checked.decls) (entry_for machine.old.checked.entries word) word (globals_of t machine.old)
        (starting machine.old.steps (appended (K.written sink.old) (word_line machine.old.text_open word))))) }
    ensures prefix { OnErr result ((t : Tests) → Suits t →
        Between (K.written sink.old) (K.written sink.new) (words_final (words_with t machine.old (word ∷ []) (K.written sink.old))).told) }
    ensures refused { IfErr result (λ e. (machine.new.stage ≡ stage.Refused e)
        ⊎ ((machine.new ≡ machine.old) × Part (K.written sink.old) (K.written sink.new) (word_line machine.old.text_open word))) }
    ensures counts { MatchResult result
        (λ o. K.faults sink.new ≡ K.faults sink.old)
        (λ e. Counted (stage.Refused e) (K.faults sink.old) (K.faults sink.new)) }
    ensures same_full { K.full sink.new ≡ K.full sink.old }
{
    let entry = entry_of(machine.checked(), word);
    let Ok(args) = arguments(alloc, machine.checked(), entry, word) else {
        return Err(RunRefused::NoMemory);
    };
    let Ok(()) = put_line(sink, machine.text_open(), word) else {
        return Err(RunRefused::SinkFault);
    };
    machine.call(alloc, entry, args, sink)
}

/// A word as the arguments of a call.
fn arguments(
    alloc: Global,
    checked: &Checked,
    entry: SubId,
    word: Word,
) -> Result<Vec<Value>, AllocError>
    requires named { IsNamed checked.now.asked word }
    requires entry { entry_for checked.now.entries word ≡ Some entry }
    ensures callable { IfOk result (λ args. (t : Tests) → Suits t → IsCallable t checked.now entry (map value_of args.items)) }
    ensures word { IfOk result (λ args. (x : given.Value) × (map value_of args.items ≡ x ∷ []) × IsWord word x) }
{
    let mut args = Vec::new(alloc);
    args.push(argument(alloc, checked, entry, word)?)?;
    Ok(args)
}

/// A word in the type of the formal of its entry, with the bitfields that are written there.
fn argument(alloc: Global, checked: &Checked, entry: SubId, word: Word) -> Result<Value, AllocError>
    requires named { IsNamed checked.now.asked word }
    requires entry { entry_for checked.now.entries word ≡ Some entry }
    ensures callable { IfOk result (λ x. (t : Tests) → Suits t → IsCallable t checked.now entry (value_of x ∷ [])) }
    ensures word { IfOk result (λ x. IsWord word (value_of x)) }
{
    let plain = word_value(alloc, word)?;
    let parts = checked.parts();
    let Some(func) = parts.subs.as_slice().get(entry.number()) else {
        unreachable!();
    };
    let Some(formal) = func.formals.as_slice().first() else {
        unreachable!();
    };
    see(alloc, formal, &plain)
}

/// A word as bits.
#[tactic(auto, using(crate::proofs::WordBits::value_made))]
fn word_value(alloc: Global, word: Word) -> Result<Value, AllocError>
    ensures { IfOk result (λ x. value_of x ≡ rules.word_value word) }
{
    Ok(plain_bits(Vector::wrapped(alloc, i128::from(word.bits), width_of(word))?))
}

/// How many bits a word has.
fn width_of(word: Word) -> u32
    ensures width { result ≡ rules.word_width word }
    ensures few { result ≤ 32 }
{
    if word.is_short() { 16 } else { 32 }
}
