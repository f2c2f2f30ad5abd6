//! The command line, as `clap` is told of it. A further command is one more line of `drt`.
ghost use Rattle.std.specs.Prelude.{◌≡◌, IfOk, Ok, false, codes};
ghost use Rattle.clap.specs.Words.{AddsSubcommand, app_of, new_app, rule_of};
ghost use Rattle.clap.specs.declared.builder.Command.TheViews.{out-Command};
ghost use Rattle.drt_words.specs.CommandLine.{IsMadeFrom, bare_app, bench_app, budget_rule, drt_app, flag_rule, margin_app, margin_options_app};
ghost use Rattle.drt_words.specs.CommandLine.{name_rule, number_rule, pair_rule, search_app, timeline_app, whole_rule, with_bench};
ghost use Rattle.drt_words.specs.CommandLine.{with_margin, with_plain, with_search, with_timeline, workers_rule};

use clap::builder::ValueParser;
use clap::{Arg, ArgAction, Command};
use drt_effort::{MOST_BUDGET, MOST_WORKERS};
use std::alloc::{AllocError, Global};

// An option of one whole number from 1 to `most`.
fn number_option<'a>(alloc: Global, name: &'a str, most: u64, standard: &'a str) -> Arg<'a>
    ensures rule { rule_of result ≡ number_rule name.entry.now most standard.entry.now }
    ensures local { result.global ≡ false }
{
    Arg::new(alloc, name)
        .long(name)
        .action(ArgAction::Set)
        .value_parser(ValueParser::Unsigned(1, most))
        .default_value(standard)
}

// The option for workers.
fn workers_option<'a>(alloc: Global) -> Arg<'a>
    ensures rule { rule_of result ≡ workers_rule }
    ensures local { result.global ≡ false }
{
    number_option(alloc, "workers", u64::from(MOST_WORKERS), "4")
}

// The option for the budget.
fn budget_option<'a>(alloc: Global) -> Arg<'a>
    ensures rule { rule_of result ≡ budget_rule }
    ensures local { result.global ≡ false }
{
    number_option(alloc, "budget", u64::from(MOST_BUDGET), "100000")
}

// A word of one whole number of 64 bits, which must stand.
fn whole_word<'a>(alloc: Global, name: &'a str) -> Arg<'a>
    ensures rule { rule_of result ≡ whole_rule name.entry.now }
    ensures local { result.global ≡ false }
{
    Arg::new(alloc, name)
        .action(ArgAction::Set)
        .value_parser(ValueParser::Unsigned(0, u64::MAX))
        .required(true)
}

// An option without a value.
fn flag_option<'a>(alloc: Global, name: &'a str) -> Arg<'a>
    ensures rule { rule_of result ≡ flag_rule name.entry.now }
    ensures local { result.global ≡ false }
{
    Arg::new(alloc, name).long(name).action(ArgAction::SetTrue)
}

// An option of two words.
fn pair_option<'a>(alloc: Global, name: &'a str) -> Arg<'a>
    ensures rule { rule_of result ≡ pair_rule name.entry.now }
    ensures local { result.global ≡ false }
{
    Arg::new(alloc, name)
        .long(name)
        .action(ArgAction::Set)
        .num_args(2)
}

// A word of any text, which must stand.
fn name_word<'a>(alloc: Global, name: &'a str) -> Arg<'a>
    ensures rule { rule_of result ≡ name_rule name.entry.now }
    ensures local { result.global ≡ false }
{
    Arg::new(alloc, name).action(ArgAction::Set).required(true)
}

// A command that searches: with the options for workers and budget.
fn search<'a>(alloc: Global, name: &'a str) -> Result<Command<'a>, AllocError>
    ensures app { IfOk result (λ c. app_of c ≡ search_app name.entry.now) }
    ensures local { IfOk result (λ c. (out-Command c).has_globals ≡ false) }
{
    let command = Command::new(alloc, name).arg(workers_option(alloc))?;
    command.arg(budget_option(alloc))
}

// The command `bench`: with the option for workers and the word of a number.
fn bench<'a>(alloc: Global) -> Result<Command<'a>, AllocError>
    ensures app { IfOk result (λ c. app_of c ≡ bench_app) }
    ensures local { IfOk result (λ c. (out-Command c).has_globals ≡ false) }
{
    let command = Command::new(alloc, "bench").arg(workers_option(alloc))?;
    command.arg(whole_word(alloc, "number"))
}

// The command `timeline`: with the flag for a picture and the option for a vertex.
fn timeline<'a>(alloc: Global) -> Result<Command<'a>, AllocError>
    ensures app { IfOk result (λ c. app_of c ≡ timeline_app) }
    ensures local { IfOk result (λ c. (out-Command c).has_globals ≡ false) }
{
    let command = Command::new(alloc, "timeline").arg(flag_option(alloc, "svg"))?;
    command.arg(pair_option(alloc, "vertex"))
}

// The options of `margin`: the flag for fixed priorities, and those for workers and budget.
fn margin_options<'a>(alloc: Global) -> Result<Command<'a>, AllocError>
    ensures app { IfOk result (λ c. app_of c ≡ margin_options_app) }
    ensures local { IfOk result (λ c. (out-Command c).has_globals ≡ false) }
{
    let command = Command::new(alloc, "margin").arg(flag_option(alloc, "fixed"))?;
    let more = command.arg(workers_option(alloc))?;
    more.arg(budget_option(alloc))
}

// The command `margin`: with its options, and the words of two names.
fn margin<'a>(alloc: Global) -> Result<Command<'a>, AllocError>
    ensures app { IfOk result (λ c. app_of c ≡ margin_app) }
    ensures local { IfOk result (λ c. (out-Command c).has_globals ≡ false) }
{
    let options = margin_options(alloc)?;
    let command = options.arg(name_word(alloc, "task"))?;
    command.arg(name_word(alloc, "vertex"))
}

// The command line that has no command yet: help, version and the help subcommand are off, and a subcommand is required.
fn bare<'a>(alloc: Global) -> Command<'a>
    ensures { app_of result ≡ bare_app (new_app (codes "drt")) }
{
    Command::new(alloc, "drt")
        .disable_help_flag(true)
        .disable_version_flag(true)
        .disable_help_subcommand(true)
        .subcommand_required(true)
}

// The command line with one more command, where that one could be made.
fn add<'a>(
    top: Command<'a>,
    made: Result<Command<'a>, AllocError>,
) -> Result<Command<'a>, AllocError>
    ensures { IfOk result (λ c. (command : _) × (made.entry ≡ Ok command) × AddsSubcommand top.entry command c) }
{
    top.subcommand(made?)
}

// The command line with one more command that searches. Where `top` couldn't be made, this isn't either, as with those below.
fn add_search<'a>(
    alloc: Global,
    top: Result<Command<'a>, AllocError>,
    name: &'a str,
) -> Result<Command<'a>, AllocError>
    ensures { IfOk result (IsMadeFrom top.entry (λ app. with_search app name.entry.now)) }
{
    add(top?, search(alloc, name))
}

// The command line with one more command that has no options.
fn add_plain<'a>(
    alloc: Global,
    top: Result<Command<'a>, AllocError>,
    name: &'a str,
) -> Result<Command<'a>, AllocError>
    ensures { IfOk result (IsMadeFrom top.entry (λ app. with_plain app name.entry.now)) }
{
    top?.subcommand(Command::new(alloc, name))
}

// The command line with `bench` too.
fn add_bench<'a>(
    alloc: Global,
    top: Result<Command<'a>, AllocError>,
) -> Result<Command<'a>, AllocError>
    ensures { IfOk result (IsMadeFrom top.entry with_bench) }
{
    add(top?, bench(alloc))
}

// The command line with `timeline` too.
fn add_timeline<'a>(
    alloc: Global,
    top: Result<Command<'a>, AllocError>,
) -> Result<Command<'a>, AllocError>
    ensures { IfOk result (IsMadeFrom top.entry with_timeline) }
{
    add(top?, timeline(alloc))
}

// The command line with `margin` too.
fn add_margin<'a>(
    alloc: Global,
    top: Result<Command<'a>, AllocError>,
) -> Result<Command<'a>, AllocError>
    ensures { IfOk result (IsMadeFrom top.entry with_margin) }
{
    add(top?, margin(alloc))
}

// The whole command line.
pub(crate) fn drt<'a>(alloc: Global) -> Result<Command<'a>, AllocError>
    ensures { IfOk result (λ c. app_of c ≡ drt_app) }
{
    let edf = add_search(alloc, Ok(bare(alloc)), "edf");
    let sp = add_search(alloc, edf, "sp");
    let upgrade = add_plain(alloc, sp, "upgrade");
    let util = add_plain(alloc, upgrade, "util");
    let check = add_plain(alloc, util, "check");
    let bench = add_bench(alloc, check);
    let response = add_search(alloc, bench, "response");
    let convert = add_plain(alloc, response, "convert");
    let timeline = add_timeline(alloc, convert);
    let assign = add_search(alloc, timeline, "assign");
    add_margin(alloc, assign)
}
