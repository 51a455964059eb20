//! The runner, which starts the commands: the worker speaks with it by standard input and output.
ghost use Rattle.std.specs.Prelude.{◌∷◌, [], IfOk, IfSome, IfNone, OnErr};
ghost use Rattle.amo_system_calls.specs.Calls.{Did, Print, ReadLine, Makes, MakesSome};

use amo_run_faults::Fault;
use amo_runner_protocol::whole_line;
use amo_system_calls::SystemCalls;
use std::alloc::{AllocError, Global};
use std::io;

/// Writes a line to the runner, waits for its reply, and returns that without its line feed.
/// Returns `None` if the runner takes no line or has closed its pipe, also within a line.
///
/// # Errors
/// `Memory` if the reply finds no room.
pub fn exchange<S: SystemCalls>(system: &mut S, line: &[u8]) -> Result<Option<Vec<u8>>, Fault>
    ensures heard { IfOk result (λ heard. IfSome heard (λ _. Makes (S.has_made system.old) (S.has_made system.new) (Did (Print line.now) ∷ Did ReadLine ∷ []))) }
    ensures nothing { IfOk result (λ heard. IfNone heard (MakesSome (S.has_made system.old) (S.has_made system.new) (Print line.now ∷ ReadLine ∷ []))) }
    ensures fails { OnErr result (MakesSome (S.has_made system.old) (S.has_made system.new) (Print line.now ∷ ReadLine ∷ [])) }
{
    if system.print(line).is_err() {
        return Ok(None);
    }
    match system.read_line() {
        Ok(said) => Ok(whole_line(said)),
        Err(error) if error.kind() == io::ErrorKind::OutOfMemory => Err(Fault::Memory),
        Err(_) => Ok(None),
    }
}

/// Returns a line as a text to print.
///
/// # Errors
/// `AllocError` if there was no memory.
pub fn shown(alloc: Global, said: &[u8]) -> Result<String, AllocError> {
    match std::str::from_utf8(said) {
        Ok(text) => String::from_str(alloc, text),
        Err(_) => String::from_str(alloc, "(not UTF-8)"),
    }
}
