//! The commands and their arguments, as clap reads them.
ghost use Rattle.std.specs.Prelude.{◌≡◌, IfOk, false};
ghost use Rattle.clap.specs.Words.{app_of, rule_of};
ghost use Rattle.clap.specs.declared.builder.Command.TheViews.{out-Command};
ghost use Rattle.asl_line.specs.Line.{files_rule, steps_rule, budget_rule, words_rule, number_rule, size_rule, check_app, run_app, exec_app, self_app, masks_app, asl_app};

use clap::{Arg, ArgAction, Command};
use std::alloc::{AllocError, Global};

/// The most steps that a run can be given.
pub const MOST_STEPS: u32 = 1_000_000_000;

/// The most splits of masks that a search can be given.
pub const MOST_SPLITS: u32 = 1_000_000_000;

/// The greatest size of a text that is made.
pub const MOST_SIZE: u32 = 2000;

/// The names of the files: one or more.
fn files_arg<'a>(alloc: Global) -> Arg<'a>
    ensures rule { rule_of result ≡ files_rule }
    ensures local { result.global ≡ false }
{
    Arg::new(alloc, "file").required(true).num_args(1..)
}

/// The option `--steps`.
fn steps_arg<'a>(alloc: Global) -> Arg<'a>
    ensures rule { rule_of result ≡ steps_rule }
    ensures local { result.global ≡ false }
{
    Arg::new(alloc, "steps")
        .long("steps")
        .action(ArgAction::Set)
        .value_parser(clap::value_parser!(u32).range(1..=MOST_STEPS as i64))
}

/// The option `--budget`.
fn budget_arg<'a>(alloc: Global) -> Arg<'a>
    ensures rule { rule_of result ≡ budget_rule }
    ensures local { result.global ≡ false }
{
    Arg::new(alloc, "budget")
        .long("budget")
        .action(ArgAction::Set)
        .value_parser(clap::value_parser!(u32).range(1..=MOST_SPLITS as i64))
}

/// The option `--words`.
fn words_arg<'a>(alloc: Global) -> Arg<'a>
    ensures rule { rule_of result ≡ words_rule }
    ensures local { result.global ≡ false }
{
    Arg::new(alloc, "words")
        .long("words")
        .action(ArgAction::Set)
        .required(true)
}

/// The number of a text that is made.
fn number_arg<'a>(alloc: Global) -> Arg<'a>
    ensures rule { rule_of result ≡ number_rule }
    ensures local { result.global ≡ false }
{
    Arg::new(alloc, "number")
        .required(true)
        .value_parser(clap::value_parser!(u32))
}

/// The size of a text that is made.
fn size_arg<'a>(alloc: Global) -> Arg<'a>
    ensures rule { rule_of result ≡ size_rule }
    ensures local { result.global ≡ false }
{
    Arg::new(alloc, "size")
        .required(true)
        .value_parser(clap::value_parser!(u32).range(1..=MOST_SIZE as i64))
}

/// `check FILE..`
fn check_command<'a>(alloc: Global) -> Result<Command<'a>, AllocError>
    ensures shape { IfOk result (λ c. app_of c ≡ check_app) }
    ensures local { IfOk result (λ c. (out-Command c).has_globals ≡ false) }
{
    Ok(Command::new(alloc, "check").arg(files_arg(alloc))?)
}

/// `run [--steps N] FILE..`
fn run_command<'a>(alloc: Global) -> Result<Command<'a>, AllocError>
    ensures shape { IfOk result (λ c. app_of c ≡ run_app) }
    ensures local { IfOk result (λ c. (out-Command c).has_globals ≡ false) }
{
    Ok(
        Command::new(alloc, "run")
            .arg(steps_arg(alloc))?
            .arg(files_arg(alloc))?,
    )
}

/// `exec [--steps N] --words W FILE..`
fn exec_command<'a>(alloc: Global) -> Result<Command<'a>, AllocError>
    ensures shape { IfOk result (λ c. app_of c ≡ exec_app) }
    ensures local { IfOk result (λ c. (out-Command c).has_globals ≡ false) }
{
    Ok(
        Command::new(alloc, "exec")
            .arg(steps_arg(alloc))?
            .arg(words_arg(alloc))?
            .arg(files_arg(alloc))?,
    )
}

/// `self NUMBER SIZE`
fn self_command<'a>(alloc: Global) -> Result<Command<'a>, AllocError>
    ensures shape { IfOk result (λ c. app_of c ≡ self_app) }
    ensures local { IfOk result (λ c. (out-Command c).has_globals ≡ false) }
{
    Ok(
        Command::new(alloc, "self")
            .arg(number_arg(alloc))?
            .arg(size_arg(alloc))?,
    )
}

/// `masks [--budget N] FILE..`
fn masks_command<'a>(alloc: Global) -> Result<Command<'a>, AllocError>
    ensures shape { IfOk result (λ c. app_of c ≡ masks_app) }
    ensures local { IfOk result (λ c. (out-Command c).has_globals ≡ false) }
{
    Ok(
        Command::new(alloc, "masks")
            .arg(budget_arg(alloc))?
            .arg(files_arg(alloc))?,
    )
}

/// The whole command line. Asking for help is refused, as any other word that is no command.
pub fn asl_command<'a>(alloc: Global) -> Result<Command<'a>, AllocError>
    ensures { IfOk result (λ c. app_of c ≡ asl_app) }
{
    let bare = Command::new(alloc, "asl")
        .subcommand_required(true)
        .disable_help_subcommand(true);
    Ok(
        bare.subcommand(check_command(alloc)?)?
            .subcommand(run_command(alloc)?)?
            .subcommand(exec_command(alloc)?)?
            .subcommand(self_command(alloc)?)?
            .subcommand(masks_command(alloc)?)?,
    )
}
