//! Statements: each function does what the rules say of a node, or of statements in order. Its answer is `Stuck` exactly
//! where they give no outcome.
ghost use Rattle.std.specs.Prelude.{◌≡◌, ◌≤◌, [], Some};
ghost use Rattle.asl_rules.specs.runs.Forms.{eval_all as in_turn};
ghost use Rattle.asl_rules.specs.runs.Plans.{Eval};
ghost use Rattle.asl_rules.specs.runs.StatementForms as forms;
ghost use Rattle.asl_rules.specs.runs.Trees.{act_at};
ghost use Rattle.asl_rules.specs.private.TypedMeaning as rules;
ghost use Rattle.asl_rules.specs.private.TypedMeaning.{list_of, acts_of, in_bare, itself};
ghost use Rattle.asl_tree.specs.Acts.{act_of, simple_of, all_acts, all_branches, all_items};
ghost use Rattle.asl_tree.specs.View.{tree_of, all_trees};
ghost use Rattle.asl_tree.specs.private.Room.{FitsAct, FitsBranches, FitsList, declared};
ghost use Rattle.asl_tree.specs.declared.act.Branch.TheVariants.{Elsif};
ghost use Rattle.asl_branches.specs.Meets.{at, Ran, RanBy};
ghost use Rattle.asl_branches.specs.View.{exit_of, program_of, room_of};
ghost use Rattle.asl_run.specs.private.Finishes.{finished, begun, named_after};

use crate::asking::ask;
use crate::assignments::exec_assign;
use crate::calls::{Call, exec_invoke};
use crate::finishes::{After, First, begin, finish};
use crate::loops::{exec_for, exec_repeat, exec_while};
use crate::output::{put, put_string, put_value};
use asl_branches::below::Nodes;
use asl_branches::catches::{Try, exec_try, throw_again};
use asl_branches::choices::{Case, exec_case};
use asl_branches::lists::{eval_all, exec_scope};
use asl_branches::run::Run;
use asl_branches::stop::{Exit, Stop};
use asl_io::Sink;
use asl_syn::code::DynCode;
use asl_syn::token::Span;
use asl_syn::tree::PrintKind;
use asl_tree::act::{Act, Branch, Simple, TreeItem};
use asl_tree::tree::Tree;
use sqlite_items::Items;

/// Where a statement stands.
pub fn act_span(s: &Act) -> Span
    ensures { result ≡ act_at (act_of s.now) }
{
    match s {
        Act::Simple(s) => simple_span(s),
        Act::If(span, _, _, _, _) => *span,
        Act::Case(span, _, _, _) => *span,
        Act::For(span, _, _) => *span,
        Act::While(span, _, _) => *span,
        Act::Repeat(span, _, _) => *span,
        Act::Try(span, _, _, _) => *span,
    }
}

fn simple_span(s: &Simple) -> Span
    ensures { result ≡ act_at (simple_of s.now) }
{
    match s {
        Simple::Pass(span) => *span,
        Simple::Unreachable(span) => *span,
        Simple::Assert(span, _) => *span,
        Simple::Declare(span, _, _, _) => *span,
        Simple::DeclareFirst(span, _, _, _, _) => *span,
        Simple::Assign(span, _, _) => *span,
        Simple::Invoke(span, _, _, _, _) => *span,
        Simple::Return(span, _) => *span,
        Simple::Throw(span, _) => *span,
        Simple::Print(span, _, _) => *span,
    }
}

/// What a statement does once it is entered.
#[inline(never)]
pub fn exec_node<K: Sink, N: Nodes<K>>(
    here: &N,
    run: &mut Run,
    sink: &mut K,
    s: &Act,
) -> Result<Exit, Stop>
    requires ready { N.ready here.now }
    requires room { FitsAct (room_of run.old) (act_of s.now) }
    ensures { RanBy (Some (declared (act_of s.now))) exit_of result (N.setting here.now)
        (rules.act_node (program_of (N.setting here.now).funcs.now) (act_of s.now))
        (at K.Sink run.old sink.old) (at K.Sink run.new sink.new) }
{
    match s {
        Act::Simple(s) => exec_simple(here, run, sink, s),
        Act::If(span, e, first, others, last) => {
            if ask(here, run, sink, *span, e)? {
                exec_scope(here, run, sink, first)
            } else {
                exec_branches(here, run, sink, *span, others.as_slice(), last)
            }
        }
        Act::Case(span, e, others, last) => exec_case(
            here,
            run,
            sink,
            e,
            Case {
                span: *span,
                others: others.as_slice(),
                last,
            },
        ),
        Act::For(span, bounds, body) => exec_for(here, run, sink, *span, bounds, body),
        Act::While(span, guard, body) => exec_while(here, run, sink, *span, guard, body),
        Act::Repeat(span, body, guard) => exec_repeat(here, run, sink, *span, guard, body),
        Act::Try(_, list, catchers, last) => exec_try(
            here,
            run,
            sink,
            list,
            Try {
                catchers: catchers.as_slice(),
                last,
            },
        ),
    }
}

/// A statement without lists.
fn exec_simple<K: Sink, N: Nodes<K>>(
    here: &N,
    run: &mut Run,
    sink: &mut K,
    s: &Simple,
) -> Result<Exit, Stop>
    requires ready { N.ready here.now }
    requires room { FitsAct (room_of run.old) (simple_of s.now) }
    ensures { RanBy (Some (declared (simple_of s.now))) exit_of result (N.setting here.now)
        (rules.act_node (program_of (N.setting here.now).funcs.now) (simple_of s.now))
        (at K.Sink run.old sink.old) (at K.Sink run.new sink.new) }
{
    match s {
        Simple::Pass(_) => Ok(Exit::Normal),
        Simple::Unreachable(span) => Err(Stop::Fault(DynCode::D15, *span)),
        Simple::Assert(span, e) => exec_after(here, run, sink, e, After::Assert(*span)),
        Simple::Declare(span, ty, taken, e) => {
            exec_after(here, run, sink, e, After::Declare(*span, ty, taken))
        }
        Simple::DeclareFirst(span, count, whole, shape, es) => exec_declare_first(
            here,
            run,
            sink,
            First {
                span: *span,
                count: *count,
                whole: *whole,
                shape,
            },
            es.as_slice(),
        ),
        Simple::Assign(_, targets, e) => exec_assign(here, run, sink, targets.as_slice(), e),
        Simple::Invoke(span, callee, widths, params, args) => exec_invoke(
            here,
            run,
            sink,
            Call {
                span: *span,
                callee: *callee,
                widths: widths.as_slice(),
                params: params.as_slice(),
                args: args.as_slice(),
            },
        ),
        Simple::Return(_, None) => Ok(Exit::Returned(None)),
        Simple::Return(_, Some(e)) => exec_after(here, run, sink, e, After::Return),
        Simple::Throw(span, None) => throw_again(run, *span),
        Simple::Throw(span, Some(e)) => exec_after(here, run, sink, e, After::Throw(*span)),
        Simple::Print(_, kind, items) => print(here, run, sink, *kind, items.as_slice()),
    }
}

/// An expression, and what is done with its value.
fn exec_after<K: Sink, N: Nodes<K>>(
    here: &N,
    run: &mut Run,
    sink: &mut K,
    e: &Tree,
    after: After,
) -> Result<Exit, Stop>
    requires ready { N.ready here.now }
    requires room { named_after after ≤ room_of run.old }
    ensures { RanBy (Some (named_after after.entry)) exit_of result (N.setting here.now)
        (λ c. Eval (tree_of e.now) c (finished after.entry))
        (at K.Sink run.old sink.old) (at K.Sink run.new sink.new) }
{
    let x = here.eval(run, sink, e)?;
    finish(here.setting().alloc, run, after, x)
}

/// The sizes in a type are evaluated, and then so many places take its first value.
fn exec_declare_first<K: Sink, N: Nodes<K>>(
    here: &N,
    run: &mut Run,
    sink: &mut K,
    first: First,
    sizes: &[Tree],
) -> Result<Exit, Stop>
    requires ready { N.ready here.now }
    requires room { first.count ≤ room_of run.old }
    ensures { RanBy (Some first.entry.count) exit_of result (N.setting here.now)
        (λ c. in_turn (list_of (all_trees sizes.now)) [] c (begun first.entry))
        (at K.Sink run.old sink.old) (at K.Sink run.new sink.new) }
{
    let zs = eval_all(here, run, sink, sizes)?;
    begin(here.setting().alloc, run, first, zs.as_slice())
}

/// Items, each written when it is evaluated, and the end of the line where it is asked for.
fn print<K: Sink, N: Nodes<K>>(
    here: &N,
    run: &mut Run,
    sink: &mut K,
    kind: PrintKind,
    items: &[TreeItem],
) -> Result<Exit, Stop>
    requires ready { N.ready here.now }
    ensures { Ran exit_of result (N.setting here.now)
        (forms.print_items rules.item_of kind (all_items items.now))
        (at K.Sink run.old sink.old) (at K.Sink run.new sink.new) }
{
    for item in items {
        let e = match item {
            TreeItem::Verbatim(text) => {
                put_string(&mut run.text_open, sink, text.as_slice())?;
                continue;
            }
            TreeItem::Shown(e) => e,
        };
        let x = here.eval(run, sink, e)?;
        put_value(&mut run.text_open, sink, &x)?;
    }
    match kind {
        PrintKind::Print => {}
        PrintKind::PrintLine => put(&mut run.text_open, sink, b"\n")?,
    }
    Ok(Exit::Normal)
}

// ---- `if`

/// The first branch whose condition is `TRUE`, or else the last.
fn exec_branches<K: Sink, N: Nodes<K>>(
    here: &N,
    run: &mut Run,
    sink: &mut K,
    span: Span,
    others: &[Branch],
    last: &Items<Act>,
) -> Result<Exit, Stop>
    requires ready { N.ready here.now }
    requires others { FitsBranches (room_of run.old) (all_branches others.now) }
    requires last { FitsList (room_of run.old) (all_acts last.now) }
    ensures { Ran exit_of result (N.setting here.now)
        (forms.branches in_bare itself span (rules.branches_of (all_branches others.now)) (acts_of (all_acts last.now)))
        (at K.Sink run.old sink.old) (at K.Sink run.new sink.new) }
{
    for branch in others {
        let (e, list) = branch_parts(branch);
        if ask(here, run, sink, span, e)? {
            return exec_scope(here, run, sink, list);
        }
    }
    exec_scope(here, run, sink, last)
}

/// A condition and its list.
fn branch_parts(branch: &Branch) -> (&Tree, &Items<Act>)
    ensures { branch.now ≡ Elsif result.0.now result.1.now }
{
    let Branch::Elsif(e, list) = branch;
    (e, list)
}
