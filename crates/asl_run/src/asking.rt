//! Conditions.
ghost use Rattle.std.specs.Prelude.{◌≡◌, IfSome, Some};
ghost use Rattle.asl_rules.specs.private.TypedMeaning.{itself};
ghost use Rattle.asl_rules.specs.values.Values.{bool};
ghost use Rattle.asl_tree.specs.View.{tree_of};
ghost use Rattle.asl_branches.specs.Meets.{at, Ran};
ghost use Rattle.asl_run.specs.private.Asking.{condition};
ghost use Rattle.asl_run.specs.private.AtOnce.{found};

use crate::at_once::{AtOnce, evaluated};
use asl_branches::below::Nodes;
use asl_branches::run::Run;
use asl_branches::stop::Stop;
use asl_io::Sink;
use asl_shared::Held;
use asl_syn::token::Span;
use asl_tree::tree::Tree;
use asl_value::truth;

/// Whether a condition holds. Mostly it is evaluated at once, and then no value is built.
pub fn ask<K: Sink, N: Nodes<K>>(
    here: &N,
    run: &mut Run,
    sink: &mut K,
    span: Span,
    e: &Tree,
) -> Result<bool, Stop>
    requires ready { N.ready here.now }
    ensures { Ran itself result (N.setting here.now) (condition span (tree_of e.now))
        (at K.Sink run.old sink.old) (at K.Sink run.new sink.new) }
{
    let setting = here.setting();
    let mut left = run.steps;
    match truth_in(evaluated(setting.alloc, run, &mut left, setting.depth, e)) {
        Some(holds) => {
            run.steps = left;
            Ok(holds)
        }
        None => ask_node(here, run, sink, span, e),
    }
}

/// The boolean that was found. What was found is let go here, and not behind the arms of those who ask.
fn truth_in(it: AtOnce) -> Option<bool>
    ensures { IfSome result (λ b. found it ≡ Some (bool b)) }
{
    match it {
        AtOnce::Truth(b) => Some(b),
        AtOnce::Integer(_) => None,
        AtOnce::Bits(_) => None,
        AtOnce::Neither => None,
    }
}

/// The same by the value of the condition.
fn ask_node<K: Sink, N: Nodes<K>>(
    here: &N,
    run: &mut Run,
    sink: &mut K,
    span: Span,
    e: &Tree,
) -> Result<bool, Stop>
    requires ready { N.ready here.now }
    ensures { Ran itself result (N.setting here.now) (condition span (tree_of e.now))
        (at K.Sink run.old sink.old) (at K.Sink run.new sink.new) }
{
    let x = Held::new(here.eval(run, sink, e)?);
    Ok(truth(span, x.get())?)
}
