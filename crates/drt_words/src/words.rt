//! What the words mean.
ghost use Rattle.std.specs.Prelude.{◌≡◌, ◌≢◌, ◌≤◌, IfOk, IfSome, MatchResult, List, ℕ, None, Some, map, [], ◌∷◌, codes, option_map};
ghost use Rattle.clap.specs.Words.{subcommand_of, subcommand_rows_of, fault_of, rows_of, found_of};
ghost use Rattle.drt_words.specs.CommandLine.{drt_app};
ghost use Rattle.drt_words.specs.Meaning.{bench_at, flag_at, later_at, margin_at, meaning_at, meaning_of, named_at, number_at, effort_at};
ghost use Rattle.drt_words.specs.Meaning.{spot_at, timeline_at, whole_at};
ghost use Rattle.drt_words.specs.declared.meaning.Meaning.TheVariants.{Assign, Edf, Response, Sp};

use crate::command_line::drt;
use crate::meaning::Meaning;
use crate::number::{number_of, whole_of};
use crate::spot::Spot;
use crate::workers::Workers;
use clap::ArgMatches;
use clap::error::ErrorKind;
use drt_effort::{Effort, MOST_BUDGET, MOST_WORKERS};
use drt_model::{Memory, Name};
use std::alloc::{AllocError, Global};
use std::convert::AsStr;

/// Why a list of words has no meaning.
#[derive(Clone, Copy, Debug, PartialEq, Eq)]
pub enum WordsError {
    Refused,
    Memory,
}

// What `clap` finds in the words.
fn parse<'a, S: AsStr>(alloc: Global, words: &'a [S]) -> Result<ArgMatches<'a>, WordsError>
    ensures taken { IfOk result (λ m. fault_of drt_app (map S.text words.entry.now) ≡ []) }
    ensures found { IfOk result (λ m. subcommand_rows_of m ≡ subcommand_of drt_app (map S.text words.entry.now)) }
    ensures refused { result ≡ Err WordsError.Refused → fault_of drt_app (map S.text words.entry.now) ≢ [] }
{
    let command = match drt(alloc) {
        Ok(command) => command,
        Err(_) => return Err(WordsError::Memory),
    };
    match command.try_get_matches_from(words) {
        Ok(matches) => Ok(matches),
        Err(error) => match error.kind() {
            ErrorKind::OutOfMemory => Err(WordsError::Memory),
            _ => Err(WordsError::Refused),
        },
    }
}

// The number of an option that is there, or stands by default.
fn number_option(matches: &ArgMatches, name: &str, most: u32) -> Option<u32>
    ensures value { result ≡ number_at name.now most (rows_of (found_of matches.now)) }
    ensures range { IfSome result (λ n. (1 ≤ n) × (n ≤ most)) }
{
    match matches.get_str(name) {
        Some(text) => number_of(text, most),
        None => None,
    }
}

// How many workers search, and how many steps each search may take.
fn effort_in(matches: &ArgMatches) -> Option<Effort>
    ensures { result ≡ effort_at (rows_of (found_of matches.now)) }
{
    let workers = number_option(matches, "workers", MOST_WORKERS)?;
    let budget = number_option(matches, "budget", MOST_BUDGET)?;
    Some(Effort::new(workers, u64::from(budget)))
}

// The word of a whole number.
fn whole_word(matches: &ArgMatches, name: &str) -> Option<u64>
    ensures { result ≡ whole_at name.now (rows_of (found_of matches.now)) }
{
    match matches.get_str(name) {
        Some(text) => whole_of(text),
        None => None,
    }
}

// What `bench` asks for.
fn bench_in(matches: &ArgMatches) -> Option<Meaning>
    ensures { result ≡ bench_at (rows_of (found_of matches.now)) }
{
    let workers = number_option(matches, "workers", MOST_WORKERS)?;
    let number = whole_word(matches, "number")?;
    Some(Meaning::Bench {
        workers: Workers::new(workers),
        number,
    })
}

// Whether a flag is given.
fn flag(matches: &ArgMatches, name: &str) -> bool
    ensures { result ≡ flag_at name.now (rows_of (found_of matches.now)) }
{
    match matches.get_str(name) {
        Some(text) => text == "true",
        None => false,
    }
}

// The name that a word is.
fn name_of(alloc: Global, text: &str) -> Result<Name, Memory>
    ensures { IfOk result (λ name. name ≡ text.now) }
{
    Ok(Name::from_vec(Vec::from_slice(alloc, text.as_bytes())?))
}

// The vertex of these two names.
fn spot_of(alloc: Global, task: &str, vertex: &str) -> Result<Spot, Memory>
    ensures { IfOk result (λ spot. spot ≡ record { task = task.now; vertex = vertex.now }) }
{
    Ok(Spot {
        task: name_of(alloc, task)?,
        vertex: name_of(alloc, vertex)?,
    })
}

// The vertex that an option of two words names, where it is given.
fn spot_in(alloc: Global, matches: &ArgMatches) -> Result<Option<Spot>, WordsError>
    ensures spot { IfOk result (λ spot. spot_at (rows_of (found_of matches.now)) ≡ Some spot) }
    ensures refused { result ≡ Err WordsError.Refused → spot_at (rows_of (found_of matches.now)) ≡ None }
{
    let Some(names) = matches.get_strs("vertex") else {
        return Ok(None);
    };
    if names.len() != 2 {
        return Err(WordsError::Refused);
    }
    match spot_of(alloc, names[0], names[1]) {
        Ok(spot) => Ok(Some(spot)),
        Err(_) => Err(WordsError::Memory),
    }
}

// What `timeline` asks for.
fn timeline_in(alloc: Global, matches: &ArgMatches) -> Result<Meaning, WordsError>
    ensures meaning { IfOk result (λ m. timeline_at (rows_of (found_of matches.now)) ≡ Some m) }
    ensures refused { result ≡ Err WordsError.Refused → timeline_at (rows_of (found_of matches.now)) ≡ None }
{
    let svg = flag(matches, "svg");
    let vertex = spot_in(alloc, matches)?;
    Ok(Meaning::Timeline { svg, vertex })
}

// The vertex that two words name.
fn named_in(alloc: Global, matches: &ArgMatches) -> Result<Spot, WordsError>
    ensures spot { IfOk result (λ spot. named_at (rows_of (found_of matches.now)) ≡ Some spot) }
    ensures refused { result ≡ Err WordsError.Refused → named_at (rows_of (found_of matches.now)) ≡ None }
{
    let Some(task) = matches.get_str("task") else {
        return Err(WordsError::Refused);
    };
    let Some(vertex) = matches.get_str("vertex") else {
        return Err(WordsError::Refused);
    };
    match spot_of(alloc, task, vertex) {
        Ok(spot) => Ok(spot),
        Err(_) => Err(WordsError::Memory),
    }
}

// What `margin` asks for.
fn margin_in(alloc: Global, matches: &ArgMatches) -> Result<Meaning, WordsError>
    ensures meaning { IfOk result (λ m. margin_at (rows_of (found_of matches.now)) ≡ Some m) }
    ensures refused { result ≡ Err WordsError.Refused → margin_at (rows_of (found_of matches.now)) ≡ None }
{
    let effort = effort_in(matches).ok_or(WordsError::Refused)?;
    let fixed = flag(matches, "fixed");
    let spot = named_in(alloc, matches)?;
    Ok(Meaning::Margin {
        fixed,
        spot,
        effort,
    })
}

// What `edf` asks for.
fn edf_in(matches: &ArgMatches) -> Option<Meaning>
    ensures { result ≡ option_map Edf (effort_at (rows_of (found_of matches.now))) }
{
    let effort = effort_in(matches)?;
    Some(Meaning::Edf(effort))
}

// What `sp` asks for.
fn sp_in(matches: &ArgMatches) -> Option<Meaning>
    ensures { result ≡ option_map Sp (effort_at (rows_of (found_of matches.now))) }
{
    let effort = effort_in(matches)?;
    Some(Meaning::Sp(effort))
}

// What `response` asks for.
fn response_in(matches: &ArgMatches) -> Option<Meaning>
    ensures { result ≡ option_map Response (effort_at (rows_of (found_of matches.now))) }
{
    let effort = effort_in(matches)?;
    Some(Meaning::Response(effort))
}

// What `assign` asks for.
fn assign_in(matches: &ArgMatches) -> Option<Meaning>
    ensures { result ≡ option_map Assign (effort_at (rows_of (found_of matches.now))) }
{
    let effort = effort_in(matches)?;
    Some(Meaning::Assign(effort))
}

// What a command of this name asks for with these options, where it's none of those before `response`.
fn later_meaning_in(alloc: Global, name: &str, matches: &ArgMatches) -> Result<Meaning, WordsError>
    ensures meaning { IfOk result (λ m. later_at name.now (rows_of (found_of matches.now)) ≡ Some m) }
    ensures refused { result ≡ Err WordsError.Refused → later_at name.now (rows_of (found_of matches.now)) ≡ None }
{
    if name == "response" {
        response_in(matches).ok_or(WordsError::Refused)
    } else if name == "convert" {
        Ok(Meaning::Convert)
    } else if name == "timeline" {
        timeline_in(alloc, matches)
    } else if name == "assign" {
        assign_in(matches).ok_or(WordsError::Refused)
    } else if name == "margin" {
        margin_in(alloc, matches)
    } else {
        Err(WordsError::Refused)
    }
}

// What a command of this name asks for with these options.
fn meaning_in(alloc: Global, name: &str, matches: &ArgMatches) -> Result<Meaning, WordsError>
    ensures meaning { IfOk result (λ m. meaning_at name.now (rows_of (found_of matches.now)) ≡ Some m) }
    ensures refused { result ≡ Err WordsError.Refused → meaning_at name.now (rows_of (found_of matches.now)) ≡ None }
{
    if name == "edf" {
        edf_in(matches).ok_or(WordsError::Refused)
    } else if name == "sp" {
        sp_in(matches).ok_or(WordsError::Refused)
    } else if name == "upgrade" {
        Ok(Meaning::Upgrade)
    } else if name == "util" {
        Ok(Meaning::Util)
    } else if name == "check" {
        Ok(Meaning::Check)
    } else if name == "bench" {
        bench_in(matches).ok_or(WordsError::Refused)
    } else {
        later_meaning_in(alloc, name, matches)
    }
}

/// What the words mean, or that they mean nothing. Names are copied, so this takes memory.
pub fn words_of<'a, S: AsStr>(alloc: Global, words: &'a [S]) -> Result<Meaning, WordsError>
    ensures meaning { IfOk result (λ m. meaning_of (map S.text words.entry.now) ≡ Some m) }
    ensures refused { result ≡ Err WordsError.Refused → meaning_of (map S.text words.entry.now) ≡ None }
{
    let matches = match parse(alloc, words) {
        Ok(matches) => matches,
        Err(error) => return Err(error),
    };
    let Some((name, inner)) = matches.subcommand() else {
        return Err(WordsError::Refused);
    };
    meaning_in(alloc, name, inner)
}
