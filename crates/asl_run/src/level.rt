//! A level of a run: nodes below a node are evaluated and executed by functions that were handed in. So `knot.rt` hands on its
//! own, and no other module speaks of functions as values.
ghost use Rattle.asl_branches.specs.declared.setting.Setting.{Setting};
ghost use Rattle.asl_run.specs.private.Below.{Evals, Execs};

use asl_branches::below::Nodes;
use asl_branches::run::Run;
use asl_branches::setting::Setting;
use asl_branches::stop::{Exit, Stop};
use asl_io::Sink;
use asl_tree::act::Act;
use asl_tree::tree::Tree;
use asl_value::Value;
use sqlite_items::Items;

/// A setting, with the functions that evaluate expressions and execute lists in it. It is ready where these do in this setting
/// what the methods promise.
#[derive(Clone, Copy)]
pub struct Level<'r, E, X> {
    pub setting: Setting<'r>,
    pub eval: E,
    pub exec: X,
}

impl<
    'r,
    K: Sink,
    E: Fn(Setting, &mut Run, &mut K, &Tree) -> Result<Value, Stop>,
    X: Fn(Setting, &mut Run, &mut K, &Items<Act>) -> Result<Exit, Stop>,
> Nodes<K> for Level<'r, E, X> {
    ghost ready = { λ l. Evals K.Sink l.setting (E.pre l.eval l.setting) (E.post l.eval l.setting)
        × Execs K.Sink l.setting (X.pre l.exec l.setting) (X.post l.exec l.setting) };

    ghost setting = { λ l. l.setting };

    fn setting(&self) -> Setting {
        self.setting
    }

    fn eval(&self, run: &mut Run, sink: &mut K, e: &Tree) -> Result<Value, Stop> {
        (self.eval)(self.setting, run, sink, e)
    }

    fn exec_all(&self, run: &mut Run, sink: &mut K, list: &Items<Act>) -> Result<Exit, Stop> {
        (self.exec)(self.setting, run, sink, list)
    }
}
