//! Parsing of the command line.
ghost use Rattle.std.specs.Prelude.{◌≡◌, ◌≤◌, [], None, Some, take, length, option_copied, IfOk};
ghost use Rattle.clap.specs.Words.{first_of, found_of, rows_of};
ghost use Rattle.amo_worker_args.specs.Asked.{answer_in, asked_in, jobs_in, misused_in, said_in, NoNumber};
ghost use Rattle.amo_worker_args.specs.Requests.{IsAskedFor, answer_by, answer_of, asked_by, boot_of, by_lines_of, door_of, form_of, id_of, is_set, jobs_of, kind_of, no_answer, number_at, numbers_of, quiet_of, request_of, status_of, text_at, within, work_of};

use crate::by_lines::ByLines;
use crate::command_line::{BOOT, program};
use amo_decimal::number;
use amo_operator::Form;
use amo_params::{MAX_BETA, MAX_JOBS, MAX_WORKERS};
use amo_run_faults::{ListSettings, Setting, is_id};
use amo_status::State;
use clap::error::ErrorKind;
use clap::{ArgMatches, Error};
use std::alloc::{AllocError, Global};

/// A command, apart from the run's folder.
#[derive(Clone, Copy)]
pub enum Request<'a> {
    /// Checks that workers may begin, and makes the run's folder if it is missing. With `true` it
    /// is made under its own name.
    Door(ListSettings<'a>, bool),
    /// Runs this worker.
    Work(ListSettings<'a>, u64),
    /// Runs a worker whose runner keeps words and journal too.
    Lines(ByLines),
    /// Prints how all lines stand.
    Status(Form),
    /// Prints what can be read of a run that is refused.
    Damaged,
    /// Prints a line of JSON a second, without any lock. With `true` it prints one line.
    Follow(bool),
    /// Prints the doubts that are final.
    Doubts(Form),
    /// Takes an answer: attempt, line, text and verdict. `not-done` is taken once the attempt has
    /// been over for so many seconds, or at once.
    Answer(&'a str, &'a str, &'a str, &'a str, Option<u64>),
    /// Takes the answers of a file, by the same rule.
    AnswerFrom(&'a str, Option<u64>),
    /// Opens untouched lines again.
    Again,
}

/// Why a command line is no request.
#[derive(Drop)]
pub enum Misuse {
    Memory,
    /// The command line has no such command or option, or asks for help.
    Words(Error),
    /// The argument of this name must be a whole number from the first to the second.
    Number(&'static str, u64, u64),
    /// The argument of this name must be this.
    Word(&'static str, &'static str),
    /// The runner of `lines` doesn't say that it speaks the protocol of this version.
    Protocol,
}

impl From<AllocError> for Misuse {
    fn from(_: AllocError) -> Self {
        Misuse::Memory
    }
}

impl From<Error> for Misuse {
    fn from(error: Error) -> Self {
        if error.kind() == ErrorKind::OutOfMemory {
            Misuse::Memory
        } else {
            Misuse::Words(error)
        }
    }
}

/// The largest number of seconds that `--quiet` takes: some 31 years.
const MAX_QUIET: u64 = 1_000_000_000;

/// The protocol of `lines`: since 2 the runner answers `clear`.
const PROTOCOL: &str = "2";

/// Returns the text of the argument with this id, if it has one.
fn given<'a>(matches: &ArgMatches<'a>, id: &str) -> Option<&'a str>
    ensures { option_copied result ≡ first_of id.now (rows_of (found_of matches.now)) }
{
    matches.get_str(id)
}

/// Returns the text of the argument with this id, or an empty one.
fn text_at<'a>(matches: &ArgMatches<'a>, id: &str) -> &'a str
    ensures { result.now ≡ text_at id.now (rows_of (found_of matches.now)) }
{
    match given(matches, id) {
        Some(text) => text,
        None => "",
    }
}

/// Returns true if the flag with this id is set.
fn is_set(matches: &ArgMatches<'_>, id: &str) -> bool
    ensures { result ≡ is_set id.now (rows_of (found_of matches.now)) }
{
    match given(matches, id) {
        Some(text) => text == "true",
        None => false,
    }
}

/// Returns the number of the argument with this id.
///
/// # Errors
/// `Number` with the argument's name if it isn't a whole number from `low` to `high`.
fn number_at(
    matches: &ArgMatches<'_>,
    id: &'static str,
    name: &'static str,
    low: u64,
    high: u64,
) -> Result<u64, Misuse>
    ensures exact { answer_in (λ n. n) result ≡ number_at (rows_of (found_of matches.now)) id.now name.now low high }
    ensures range { IfOk result (λ n. (low ≤ n) × (n ≤ high)) }
{
    match number(text_at(matches, id)) {
        Some(found) => within(found, name, low, high),
        None => Err(Misuse::Number(name, low, high)),
    }
}

/// Returns the number.
///
/// # Errors
/// `Number` with the argument's name if it isn't from `low` to `high`.
fn within(found: u64, name: &'static str, low: u64, high: u64) -> Result<u64, Misuse>
    ensures exact { answer_in (λ n. n) result ≡ within (NoNumber name.now low high) low high (Some found) }
    ensures range { IfOk result (λ n. (low ≤ n) × (n ≤ high)) }
{
    if low <= found && found <= high {
        return Ok(found);
    }
    Err(Misuse::Number(name, low, high))
}

/// Returns the jobs that `door` and `work` name.
///
/// # Errors
/// `Number` if a number is out of its range.
#[tactic(auto, unfolding(crate::specs::Requests::jobs_of))]
fn jobs_of<'a>(matches: &ArgMatches<'a>) -> Result<ListSettings<'a>, Misuse>
    ensures { answer_in jobs_in result ≡ jobs_of (rows_of (found_of matches.now)) }
{
    let workers = number_at(matches, "workers", "--workers", 1, MAX_WORKERS as u64)?;
    let beta = number_at(matches, "beta", "--beta", 1, MAX_BETA as u64)?;
    let list = text_at(matches, "JOBS");
    Ok(ListSettings {
        list,
        workers,
        beta,
    })
}

/// Returns the state that a word of `--lines` names.
///
/// # Errors
/// `Word` if it names none.
#[tactic(auto, unfolding(crate::specs::Requests::kind_of))]
fn kind_of(word: &str) -> Result<State, Misuse>
    ensures { answer_in (λ kind. kind) result ≡ kind_of word.now }
{
    match word {
        "done" => Ok(State::Done),
        "failed" => Ok(State::Failed),
        "doubt" => Ok(State::Doubt),
        "untouched" => Ok(State::Untouched),
        "running" => Ok(State::Running),
        "open" => Ok(State::Open),
        _ => Err(Misuse::Word("--lines", "done, failed, doubt, untouched, running or open")),
    }
}

/// Returns the form in which lines are printed.
///
/// # Errors
/// `Word` if `--lines` names no state.
fn form_of(matches: &ArgMatches<'_>) -> Result<Form, Misuse>
    ensures { answer_in (λ form. form) result ≡ form_of (rows_of (found_of matches.now)) }
{
    if is_set(matches, "json") {
        return Ok(Form::Json);
    }
    match given(matches, "lines") {
        Some(word) => Ok(Form::Lines(kind_of(word)?)),
        None => Ok(Form::Text),
    }
}

/// Returns for how many seconds an attempt must have been over, or `None` if that doesn't matter.
///
/// # Errors
/// `Number` if the number of seconds is out of its range.
#[tactic(auto, unfolding(crate::specs::Requests::quiet_of))]
fn quiet_of(matches: &ArgMatches<'_>) -> Result<Option<u64>, Misuse>
    ensures { answer_in (λ quiet. quiet) result ≡ quiet_of (rows_of (found_of matches.now)) }
{
    let seconds = number_at(matches, "quiet", "--quiet", 0, MAX_QUIET)?;
    if is_set(matches, "now") {
        return Ok(None);
    }
    Ok(Some(seconds))
}

/// Returns what `answer` asks for.
///
/// # Errors
/// `Number` if the number of seconds is out of its range. `Word` if neither a file nor the four
/// words of an answer are given.
#[tactic(auto, unfolding(crate::specs::Requests::answer_of))]
fn answer_of<'a>(matches: &ArgMatches<'a>) -> Result<Request<'a>, Misuse>
    ensures { answer_in asked_in result ≡ answer_of (rows_of (found_of matches.now)) }
{
    let quiet = quiet_of(matches)?;
    if let Some(sheet) = given(matches, "from") {
        return Ok(Request::AnswerFrom(sheet, quiet));
    }
    answer_by_words(matches, quiet)
}

/// Returns the answer that the words of `answer` give.
///
/// # Errors
/// `Word` if one of the four words is missing.
fn answer_by_words<'a>(matches: &ArgMatches<'a>, quiet: Option<u64>) -> Result<Request<'a>, Misuse>
    ensures { answer_in asked_in result ≡ answer_by (rows_of (found_of matches.now)) None quiet }
{
    let Some(intent) = given(matches, "INTENT") else {
        return Err(no_answer());
    };
    let Some(line) = given(matches, "LINE") else {
        return Err(no_answer());
    };
    let Some(text) = given(matches, "TEXT") else {
        return Err(no_answer());
    };
    let Some(verdict) = given(matches, "VERDICT") else {
        return Err(no_answer());
    };
    Ok(Request::Answer(intent, line, text, verdict, quiet))
}

/// Returns the misuse that `answer` has neither a file nor its four words.
fn no_answer() -> Misuse
    ensures { misused_in result ≡ no_answer }
{
    Misuse::Word("answer", "INTENT LINE TEXT done|not-done, or --from FILE")
}

/// Returns the worker that `lines` names.
///
/// # Errors
/// `Protocol` if `--protocol` is missing or names another version. `Number` if a number is out of
/// its range.
fn by_lines_of(matches: &ArgMatches<'_>) -> Result<ByLines, Misuse>
    ensures { answer_in (λ lines. lines) result ≡ by_lines_of (rows_of (found_of matches.now)) }
{
    if text_at(matches, "protocol") == PROTOCOL {
        return numbers_of(matches);
    }
    Err(Misuse::Protocol)
}

/// Returns the worker by the numbers of `lines`.
///
/// # Errors
/// `Number` if a number is out of its range.
#[tactic(auto, unfolding(crate::specs::Requests::numbers_of))]
fn numbers_of(matches: &ArgMatches<'_>) -> Result<ByLines, Misuse>
    ensures { answer_in (λ lines. lines) result ≡ numbers_of (rows_of (found_of matches.now)) }
{
    let workers = number_at(matches, "WORKERS", "WORKERS", 1, MAX_WORKERS as u64)?;
    let worker = number_at(matches, "P", "P", 1, workers)?;
    let beta = number_at(matches, "BETA", "BETA", workers, MAX_BETA as u64)?;
    let jobs = number_at(matches, "N", "N", 0, MAX_JOBS as u64)?;
    Ok(ByLines {
        jobs,
        workers,
        beta,
        worker,
    })
}

/// Returns what `door` asks for.
///
/// # Errors
/// `Number` if a number is out of its range.
fn door_of<'a>(matches: &ArgMatches<'a>) -> Result<Request<'a>, Misuse>
    ensures { answer_in asked_in result ≡ door_of (rows_of (found_of matches.now)) }
{
    let jobs = jobs_of(matches)?;
    Ok(Request::Door(jobs, is_set(matches, "into")))
}

/// Returns what `work` asks for.
///
/// # Errors
/// `Number` if a number is out of its range.
fn work_of<'a>(matches: &ArgMatches<'a>) -> Result<Request<'a>, Misuse>
    ensures { answer_in asked_in result ≡ work_of (rows_of (found_of matches.now)) }
{
    let jobs = jobs_of(matches)?;
    let worker = number_at(matches, "P", "P", 1, jobs.workers)?;
    Ok(Request::Work(jobs, worker))
}

/// Returns what `status` asks for.
///
/// # Errors
/// `Word` if `--once` stands without `--follow`, or if `--lines` names no state.
fn status_of<'a>(matches: &ArgMatches<'a>) -> Result<Request<'a>, Misuse>
    ensures { answer_in asked_in result ≡ status_of (rows_of (found_of matches.now)) }
{
    if is_set(matches, "damaged") {
        return Ok(Request::Damaged);
    }
    if is_set(matches, "follow") {
        return Ok(Request::Follow(is_set(matches, "once")));
    }
    if is_set(matches, "once") {
        return Err(Misuse::Word("--once", "given with --follow"));
    }
    let form = form_of(matches)?;
    Ok(Request::Status(form))
}

/// Returns what the command of this name asks for.
///
/// # Errors
/// The misuse of its arguments.
#[tactic(auto, unfolding(crate::specs::Requests::request_of))]
fn request_of<'a>(name: &str, matches: &ArgMatches<'a>) -> Result<Request<'a>, Misuse>
    ensures { answer_in asked_in result ≡ request_of name.now (rows_of (found_of matches.now)) }
{
    match name {
        "door" => door_of(matches),
        "work" => work_of(matches),
        "lines" => {
            let lines = by_lines_of(matches)?;
            Ok(Request::Lines(lines))
        }
        "status" => status_of(matches),
        "doubts" => {
            let form = form_of(matches)?;
            Ok(Request::Doubts(form))
        }
        "answer" => answer_of(matches),
        _ => Ok(Request::Again),
    }
}

/// Returns the id that is named, if one is.
///
/// # Errors
/// `Word` if it isn't the text of an id.
fn id_of<'a>(matches: &ArgMatches<'a>) -> Result<Option<&'a str>, Misuse>
    ensures { answer_in (λ id. option_copied id) result ≡ id_of (rows_of (found_of matches.now)) }
{
    match given(matches, "id") {
        Some(id) => {
            if is_id(id.as_bytes()) {
                Ok(Some(id))
            } else {
                Err(Misuse::Word(
                    "--id",
                    "32 hexadecimal digits, none of them a capital letter",
                ))
            }
        }
        None => Ok(None),
    }
}

/// Returns the path without the slashes at its end. A path of slashes alone stays.
fn without_end(path: &str) -> &str
    ensures front { result.now ≡ take (length result.now) path.now }
    ensures some { (result.now ≡ []) → path.now ≡ [] }
{
    let short = path.trim_end_matches('/');
    if short.is_empty() { path } else { short }
}

/// Parses a command line, the program's name first: the run, and what is asked for.
///
/// # Errors
/// `Misuse`, also if help is asked for.
#[tactic(auto, using(crate::proofs::Answers::is_asked_for))]
pub fn asked<'a>(alloc: Global, words: &'a [&'a str]) -> Result<(Setting<'a>, Request<'a>), Misuse>
    // Some command with some arguments asks for it.
    ensures { IfOk result (λ said. IsAskedFor (said_in said)) }
{
    let matches = program(alloc)?.try_get_matches_from(words)?;
    match matches.subcommand() {
        Some((name, inner)) => asked_by(name, inner),
        None => Err(Misuse::Word("amo_worker", "followed by a command")),
    }
}

/// Returns the run that the arguments of the command of this name are about, and what they ask for.
///
/// # Errors
/// The misuse of the arguments.
#[tactic(auto, unfolding(crate::specs::Requests::asked_by))]
fn asked_by<'a>(name: &str, matches: &ArgMatches<'a>) -> Result<(Setting<'a>, Request<'a>), Misuse>
    ensures { answer_in said_in result ≡ asked_by name.now (rows_of (found_of matches.now)) }
{
    let id = id_of(matches)?;
    let request = request_of(name, matches)?;
    let setting = Setting {
        run: without_end(text_at(matches, "RUN")),
        id,
        file_system: given(matches, "file-system"),
        boot: boot_of(matches),
    };
    Ok((setting, request))
}

/// Returns the path of the file with the boot id.
fn boot_of<'a>(matches: &ArgMatches<'a>) -> &'a str
    ensures { result.now ≡ boot_of (rows_of (found_of matches.now)) }
{
    match given(matches, "boot-id") {
        Some(path) => path,
        None => BOOT,
    }
}
