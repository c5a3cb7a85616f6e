//! What runs the nodes below a node. Each form of node has a function of its own that takes any such thing: so each is proved
//! by itself, and only the five functions of `knot.rt` call one another.
ghost use Rattle.std.specs.Prelude.{◌≡◌, None};
ghost use Rattle.asl_rules.specs.runs.StatementForms as forms;
ghost use Rattle.asl_rules.specs.private.TypedMeaning.{acts_of};
ghost use Rattle.asl_tree.specs.Acts.{all_acts};
ghost use Rattle.asl_tree.specs.private.Room.{FitsList};
ghost use Rattle.asl_branches.specs.Meets.{Evaluates, RanBy, at};
ghost use Rattle.asl_branches.specs.View.{exit_of, room_of};
ghost use Rattle.asl_branches.specs.declared.setting.Setting.{Setting};

use crate::run::Run;
use crate::setting::Setting;
use crate::stop::{Exit, Stop};
use asl_io::Sink;
use asl_tree::act::Act;
use asl_tree::tree::Tree;
use asl_value::Value;
use sqlite_items::Items;

/// What runs the nodes below a node.
pub trait Nodes<K: Sink> {
    /// That it keeps what its methods promise: each of them asks for this, and so does each function over nodes.
    ghost ready: { Self → Type 0 };

    /// The setting in which the nodes below are run.
    ghost setting: { Self → Setting };

    /// The setting in which the nodes below are run.
    fn setting(&self) -> Setting
        ensures { result ≡ setting self.now };

    /// The value of an expression.
    fn eval(&self, run: &mut Run, sink: &mut K, e: &Tree) -> Result<Value, Stop>
        requires { ready self.now }
        ensures { Evaluates result (setting self.now) e.now (at K.Sink run.old sink.old) (at K.Sink run.new sink.new) };

    /// Executes statements in order, up to one that returns. The frame has room for their names.
    fn exec_all(&self, run: &mut Run, sink: &mut K, list: &Items<Act>) -> Result<Exit, Stop>
        requires ready { ready self.now }
        requires room { FitsList (room_of run.old) (all_acts list.now) }
        ensures { RanBy None exit_of result (setting self.now) (forms.in_order (acts_of (all_acts list.now)))
            (at K.Sink run.old sink.old) (at K.Sink run.new sink.new) };
}
