//! Reads the words of a command line.
ghost use Rattle.std.specs.Prelude.{◌≡◌, ◌≤◌, ◌↔◌, ◌∷◌, ℕ, Some, codes, false, IfOk, IfSome, map, option_copied};
ghost use Rattle.std.specs.Fmt.{decimal};
ghost use Rattle.clap.specs.Words.{app_of, new_app, with_subcommand, rule_of, rows_of, found_of, first_of};
ghost use Rattle.amo_plan.specs.declared.limits.TheConstants.{HIGHEST_NUMBER};
ghost use Rattle.amo_cli.specs.Statuses.{IsAsked};
ghost use Rattle.amo_args.specs.Commands.{IsWithinRanges, amo_app, explore_app, stops_app, required, number_at, explore_of_rows, stops_of_rows, request_of_row, request_of_line, asked};

use crate::request::Request;
use amo_cli::Fault;
use amo_params::MAX_WORKERS;
use amo_plan::{MOST_COUNT, MOST_FIRST, MOST_TURNS, number_within};
use amo_report::Wanted;
use clap::error::ErrorKind;
use clap::{Arg, ArgMatches, Command};
use std::alloc::{AllocError, Global};

/// Returns a text that has to be given.
fn required(alloc: Global, id: &str) -> Arg<'_>
    ensures rule { rule_of result ≡ required id.entry.now }
    ensures local { result.global ≡ false }
{
    Arg::new(alloc, id).required(true)
}

/// Returns the command with a subcommand of this name, which takes nothing.
fn with_bare<'a>(
    alloc: Global,
    parent: Command<'a>,
    name: &'a str,
) -> Result<Command<'a>, AllocError>
    ensures { IfOk result (λ c. app_of c ≡ with_subcommand (app_of parent.entry) (new_app name.entry.now).top) }
{
    parent.subcommand(Command::new(alloc, name))
}

/// Returns the command with the subcommand `explore`, which takes three texts.
fn with_explore<'a>(alloc: Global, parent: Command<'a>) -> Result<Command<'a>, AllocError>
    ensures { IfOk result (λ c. app_of c ≡ with_subcommand (app_of parent.entry) explore_app.top) }
{
    let explore = Command::new(alloc, "explore")
        .arg(required(alloc, "FROM"))?
        .arg(required(alloc, "COUNT"))?
        .arg(required(alloc, "LENGTH"))?;
    parent.subcommand(explore)
}

/// Returns the command with the subcommand `stops`, which takes one text.
fn with_stops<'a>(alloc: Global, parent: Command<'a>) -> Result<Command<'a>, AllocError>
    ensures { IfOk result (λ c. app_of c ≡ with_subcommand (app_of parent.entry) stops_app.top) }
{
    let stops = Command::new(alloc, "stops").arg(required(alloc, "WORKER"))?;
    parent.subcommand(stops)
}

/// Returns the program's command, with a subcommand for each request.
fn amo_command<'a>(alloc: Global) -> Result<Command<'a>, AllocError>
    ensures { IfOk result (λ c. app_of c ≡ amo_app) }
{
    let command = Command::new(alloc, "amo").subcommand_required(true);
    let command = with_bare(alloc, command, "replay")?;
    let command = with_bare(alloc, command, "check")?;
    let command = with_bare(alloc, command, "run")?;
    let command = with_explore(alloc, command)?;
    with_stops(alloc, command)
}

/// Returns the text at an id.
fn text_at<'a>(id: &str, matches: &ArgMatches<'a>) -> Option<&'a str>
    ensures { option_copied result ≡ first_of id.now (rows_of (found_of matches.now)) }
{
    matches.get_str(id)
}

/// Returns the number at an id: the number of the decimal digits of the text there, if it is within
/// the range.
#[tactic(auto, using(crate::proofs::Numbers::at_is_decimal))]
fn number_at(low: u64, high: u64, id: &str, matches: &ArgMatches<'_>) -> Option<u64>
    requires { high ≤ HIGHEST_NUMBER }
    ensures value { result ≡ number_at low high id.now (rows_of (found_of matches.now)) }
    ensures decimal { (k : ℕ) → result ≡ Some k ↔ (first_of id.now (rows_of (found_of matches.now)) ≡ Some (decimal k)) × (low ≤ k) × (k ≤ high) }
    ensures range { IfSome result (λ n. (low ≤ n) × (n ≤ high)) }
{
    number_within(low, high, text_at(id, matches)?.as_bytes())
}

/// Returns the request of the texts of `explore`.
#[tactic(auto, unfolding(crate::specs::Commands::explore_of_rows))]
fn explore_of_matches(matches: &ArgMatches<'_>) -> Option<Request>
    ensures request { result ≡ explore_of_rows (rows_of (found_of matches.now)) }
    ensures ranges { IfSome result IsWithinRanges }
{
    let from = number_at(0, MOST_FIRST, "FROM", matches)?;
    let count = number_at(1, MOST_COUNT as u64, "COUNT", matches)? as u32;
    let turns = number_at(0, MOST_TURNS as u64, "LENGTH", matches)? as u32;
    Some(Request::Write(Wanted::Explored { from, count, turns }))
}

/// Returns the request of the text of `stops`.
fn stops_of_matches(matches: &ArgMatches<'_>) -> Option<Request>
    ensures request { result ≡ stops_of_rows (rows_of (found_of matches.now)) }
    ensures ranges { IfSome result IsWithinRanges }
{
    let worker = number_at(1, MAX_WORKERS as u64, "WORKER", matches)? as u32;
    Some(Request::Write(Wanted::Stops { worker }))
}

/// Returns the request of the subcommand with this name.
#[tactic(auto, unfolding(crate::specs::Commands::request_of_row))]
fn request_of_row(name: &str, matches: &ArgMatches<'_>) -> Option<Request>
    ensures request { result ≡ request_of_row name.now (rows_of (found_of matches.now)) }
    ensures ranges { IfSome result IsWithinRanges }
{
    match name {
        "replay" => Some(Request::Write(Wanted::Report)),
        "check" => Some(Request::Write(Wanted::Check)),
        "run" => Some(Request::Run),
        "explore" => explore_of_matches(matches),
        "stops" => stops_of_matches(matches),
        _ => None,
    }
}

/// Returns the request of a whole line, the program's name among its words.
fn request_of_line(alloc: Global, line: &[&str]) -> Result<Request, Fault>
    ensures request { IsAsked (request_of_line (map (λ w. w.now) line.now)) result }
    ensures ranges { IfOk result IsWithinRanges }
{
    let command = amo_command(alloc)?;
    match command.try_get_matches_from(line) {
        Ok(matches) => match matches.subcommand() {
            Some((name, inner)) => match request_of_row(name, inner) {
                Some(request) => Ok(request),
                None => Err(Fault::NoCommand),
            },
            None => Err(Fault::NoCommand),
        },
        Err(error) if error.kind() == ErrorKind::OutOfMemory => Err(Fault::NoMemory),
        Err(_) => Err(Fault::NoCommand),
    }
}

/// Returns the whole line: the program's name, and the words after it.
fn whole_line<'a>(alloc: Global, words: &[&'a str]) -> Result<Vec<&'a str>, AllocError>
    ensures { IfOk result (λ line. map (λ w. w.now) line.items ≡ codes "amo" ∷ map (λ w. w.now) words.now) }
{
    let mut line = Vec::with_capacity(alloc, words.len() + 1)?;
    line.push("amo")?;
    line.extend_from_slice(words)?;
    Ok(line)
}

/// Returns the request of the words after the program's name.
///
/// # Errors
///
/// `NoCommand` if the words are no command. `NoMemory` if memory was refused.
pub fn asked(alloc: Global, words: &[&str]) -> Result<Request, Fault>
    ensures request { IsAsked (asked (map (λ w. w.now) words.now)) result }
    ensures ranges { IfOk result IsWithinRanges }
{
    let line = whole_line(alloc, words)?;
    request_of_line(alloc, &line)
}
