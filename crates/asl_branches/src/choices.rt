//! `case`.
ghost use Rattle.std.specs.Prelude.{◌≡◌, false, map};
ghost use Rattle.asl_bits.specs.declared.TheConstants.{WIDTH_LIMIT};
ghost use Rattle.asl_rules.specs.values.Matching as matching;
ghost use Rattle.asl_rules.specs.runs.Plans.{Ret, choose, lift};
ghost use Rattle.asl_rules.specs.runs.StatementForms as forms;
ghost use Rattle.asl_rules.specs.private.TypedMeaning as rules;
ghost use Rattle.asl_rules.specs.private.TypedMeaning.{in_bare, itself};
ghost use Rattle.asl_shape.specs.View.{all_patterns};
ghost use Rattle.asl_tree.specs.Acts.{all_alternatives, last_of, maybe_tree};
ghost use Rattle.asl_tree.specs.View.{tree_of, all_trees};
ghost use Rattle.asl_tree.specs.private.Room.{FitsAlternatives, FitsLast};
ghost use Rattle.asl_tree.specs.declared.act.Alternative.TheVariants.{When};
ghost use Rattle.asl_value.specs.View.{value_of};
ghost use Rattle.asl_branches.specs.private.Choosing.{chosen, guard};
ghost use Rattle.asl_branches.specs.Meets.{at, Ran};
ghost use Rattle.asl_branches.specs.View.{exit_of, room_of};

use crate::below::Nodes;
use crate::lists::{eval_all, exec_scope};
use crate::run::Run;
use crate::stop::{Exit, Stop};
use asl_io::Sink;
use asl_shape::is_matched;
use asl_shared::Held;
use asl_syn::code::DynCode;
use asl_syn::token::Span;
use asl_tree::act::{Act, Alternative, Choice, Last};
use asl_tree::tree::Tree;
use asl_value::{Value, truth};
use sqlite_items::Items;

/// The alternatives of a `case`.
#[derive(Clone, Copy)]
pub struct Case<'r> {
    pub span: Span,
    pub others: &'r [Alternative],
    pub last: &'r Last,
}

/// A `case`: its value, and then the first alternative that it matches and whose condition holds, or else `otherwise`,
/// or D09.
pub fn exec_case<K: Sink, N: Nodes<K>>(
    here: &N,
    run: &mut Run,
    sink: &mut K,
    e: &Tree,
    case: Case,
) -> Result<Exit, Stop>
    requires ready { N.ready here.now }
    requires alternatives { FitsAlternatives (room_of run.old) (all_alternatives case.others.now) }
    requires last { FitsLast (room_of run.old) (last_of case.last.now) }
    ensures { Ran exit_of result (N.setting here.now)
        (forms.case_of in_bare itself case.entry.span (tree_of e.now)
        (rules.choices_of WIDTH_LIMIT (all_alternatives case.entry.others.now)) (rules.last_of (last_of case.entry.last.now)))
        (at K.Sink run.old sink.old) (at K.Sink run.new sink.new) }
{
    let x = Held::new(here.eval(run, sink, e)?);
    exec_alternatives(here, run, sink, x.get(), case)
}

/// The first alternative that matches and whose condition holds.
fn exec_alternatives<K: Sink, N: Nodes<K>>(
    here: &N,
    run: &mut Run,
    sink: &mut K,
    x: &Value,
    case: Case,
) -> Result<Exit, Stop>
    requires ready { N.ready here.now }
    requires alternatives { FitsAlternatives (room_of run.old) (all_alternatives case.others.now) }
    requires last { FitsLast (room_of run.old) (last_of case.last.now) }
    ensures { Ran exit_of result (N.setting here.now)
        (forms.alternatives in_bare itself case.entry.span (value_of x.now)
        (rules.choices_of WIDTH_LIMIT (all_alternatives case.entry.others.now)) (rules.last_of (last_of case.entry.last.now)))
        (at K.Sink run.old sink.old) (at K.Sink run.new sink.new) }
{
    for other in case.others {
        let (choice, list) = alternative_parts(other);
        let it = Pick {
            span: case.span,
            choice,
        };
        if is_chosen(here, run, sink, x, it)? {
            return exec_scope(here, run, sink, list);
        }
    }
    exec_last(here, run, sink, case.span, case.last)
}

/// What an alternative asks for, and its list.
fn alternative_parts(other: &Alternative) -> (&Choice, &Items<Act>)
    ensures { other.now ≡ When result.0.now result.1.now }
{
    let Alternative::When(choice, list) = other;
    (choice, list)
}

/// Where none matches: `otherwise`, or else D09.
fn exec_last<K: Sink, N: Nodes<K>>(
    here: &N,
    run: &mut Run,
    sink: &mut K,
    span: Span,
    last: &Last,
) -> Result<Exit, Stop>
    requires ready { N.ready here.now }
    requires room { FitsLast (room_of run.old) (last_of last.now) }
    ensures { Ran exit_of result (N.setting here.now)
        (forms.no_match in_bare span (rules.last_of (last_of last.now)))
        (at K.Sink run.old sink.old) (at K.Sink run.new sink.new) }
{
    match last {
        Last::None => Err(Stop::Fault(DynCode::D09, span)),
        Last::Otherwise(list) => exec_scope(here, run, sink, list),
    }
}

/// What an alternative asks for, and where its `case` stands.
#[derive(Clone, Copy)]
pub struct Pick<'r> {
    pub span: Span,
    pub choice: &'r Choice,
}

/// Whether a value matches and the condition holds, which is asked after a match.
fn is_chosen<K: Sink, N: Nodes<K>>(
    here: &N,
    run: &mut Run,
    sink: &mut K,
    x: &Value,
    it: Pick,
) -> Result<bool, Stop>
    requires ready { N.ready here.now }
    ensures { Ran rules.itself result (N.setting here.now)
        (chosen it.entry.span (value_of x.now) (all_patterns it.entry.choice.now.patterns) (all_trees it.entry.choice.now.trees) (maybe_tree it.entry.choice.now.condition))
        (at K.Sink run.old sink.old) (at K.Sink run.new sink.new) }
{
    if it.choice.trees.is_empty() {
        return is_guarded(here, run, sink, x, it, &[]);
    }
    let zs = eval_all(here, run, sink, it.choice.trees.as_slice())?;
    is_guarded(here, run, sink, x, it, zs.as_slice())
}

/// The same, with the values of the expressions in the patterns.
fn is_guarded<K: Sink, N: Nodes<K>>(
    here: &N,
    run: &mut Run,
    sink: &mut K,
    x: &Value,
    it: Pick,
    zs: &[Value],
) -> Result<bool, Stop>
    requires ready { N.ready here.now }
    ensures { Ran rules.itself result (N.setting here.now)
        (λ c. lift (matching.is_matched WIDTH_LIMIT (all_patterns it.entry.choice.now.patterns) (map value_of zs.now) (value_of x.now)) c
        (λ b. choose b (guard it.entry.span (maybe_tree it.entry.choice.now.condition) c) (Ret false c)))
        (at K.Sink run.old sink.old) (at K.Sink run.new sink.new) }
{
    if !is_matched(here.setting().alloc, it.choice.patterns.as_slice(), zs, x)? {
        return Ok(false);
    }
    match &it.choice.condition {
        None => Ok(true),
        Some(e) => {
            let y = Held::new(here.eval(run, sink, e)?);
            Ok(truth(it.span, y.get())?)
        }
    }
}
