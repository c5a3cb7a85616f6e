//! What came of a declaration.

ghost use Rattle.std.specs.Prelude.{◌≡◌, IfOk, OnOk};
ghost use Rattle.asl_rules.specs.declarations.Declarations.{decl_rule};
ghost use Rattle.asl_rules.specs.declarations.Turns as rules;
ghost use Rattle.asl_rules.specs.Tests.{Tests};
ghost use Rattle.asl_types.specs.private.Answers.{Met};
ghost use Rattle.asl_subprograms.specs.private.ContextView.{scope_of};
ghost use Rattle.asl_types.specs.Suits.{Suits};
ghost use Rattle.asl_judge.specs.private.Outcomes.{judged_of, all_judged};
ghost use Rattle.asl_judge.specs.private.Settling.{CameBy, brings, HaveStandIns, all_settled};

use crate::judging::{Brought, judge};
use asl_subprograms::Context;
use asl_syn::code::{Fault, Refused};
use asl_syn::tree::Decl;
use asl_types::Scope;
use std::alloc::{AllocError, Global};

/// What came of a declaration.
#[derive(Drop)]
pub(crate) enum Outcome<'a> {
    /// It waits, since it was not its turn.
    Waiting,
    Fine(Brought<'a>),
    Faulty(Fault),
}

impl<'a> Outcome<'a> {
    /// Whether it is well formed.
    pub(crate) fn is_fine(&self) -> bool
        ensures { result ≡ rules.is_fine (judged_of self.now) }
    {
        match self {
            Outcome::Waiting => false,
            Outcome::Fine(_) => true,
            Outcome::Faulty(_) => false,
        }
    }

    fn check(&self) -> Result<(), Refused>
        ensures { Met (λ _. tt) result (rules.faulty (judged_of self.now)) }
    {
        match self {
            Outcome::Waiting => Ok(()),
            Outcome::Fine(_) => Ok(()),
            Outcome::Faulty(fault) => Err(Refused::At(*fault)),
        }
    }

    /// The names of a well-formed declaration are settled.
    pub(crate) fn settle(&self, alloc: Global, names: &mut Scope<'_>) -> Result<(), AllocError>
        requires { HaveStandIns (brings (judged_of self.now)) names.old }
        ensures { OnOk result (names.new ≡ all_settled (brings (judged_of self.now)) names.old) }
    {
        match self {
            Outcome::Waiting => Ok(()),
            Outcome::Fine(brought) => brought.settle(alloc, names),
            Outcome::Faulty(_) => Ok(()),
        }
    }
}

/// What comes of a declaration in this context.
pub(crate) fn judge_over<'a>(
    alloc: Global,
    context: Context,
    d: &'a Decl,
) -> Result<Outcome<'a>, AllocError>
    ensures judged { (t : Tests) → Suits t → IfOk result (λ o. judged_of o ≡ rules.judged (decl_rule t d.now (scope_of context.entry))) }
    ensures came { IfOk result (λ o. CameBy (rules.reserved d.now) (judged_of o)) }
{
    match judge(alloc, context, d) {
        Ok(brought) => Ok(Outcome::Fine(brought)),
        Err(Refused::At(fault)) => Ok(Outcome::Faulty(fault)),
        Err(Refused::NoMemory) => Err(AllocError),
    }
}

/// The first fault.
pub(crate) fn check_all(outcomes: &[Outcome<'_>]) -> Result<(), Refused>
    ensures { Met (λ _. tt) result (rules.faults_rule (all_judged outcomes.now)) }
{
    for outcome in outcomes {
        outcome.check()?;
    }
    Ok(())
}
