// How a program ends that writes answers to standard output: its status, and what it says on standard error of answers that are missing.

#![tactic(auto)]

ghost use Rattle.std.specs.Prelude.{◌≡◌, ◌↔◌, IsOk, IfErr};
ghost use Rattle.std.specs.Process.{exit_status};
ghost use Rattle.std.specs.IoError.{error_kind};
ghost use Rattle.exits.specs.Statuses.{status_of, both};

use std::fmt::Display;
use std::io;
use std::io::ErrorKind;
use std::process::ExitCode;

#[derive(Clone, Copy, Debug, PartialEq, Eq)]
pub enum Exit {
    // All was answered.
    Answered,
    // Answers are missing, and standard error says why.
    Missing,
    // Whoever read the answers stopped reading, and nothing is said.
    Unread,
}

impl Exit {
    pub fn code(self) -> ExitCode
        ensures { exit_status result ≡ status_of self }
    {
        match self {
            Exit::Answered => ExitCode::SUCCESS,
            Exit::Missing => ExitCode::from(1),
            Exit::Unread => ExitCode::from(141),
        }
    }

    // What this run and the next one come to.
    pub fn and(self, next: Exit) -> Exit
        ensures { result ≡ both self next }
    {
        match self {
            Exit::Answered => next,
            _ => self,
        }
    }
}

// Says on standard error of what answers are missing, and why. Where that can't be said either, nobody is left to be told.
pub fn missing<R: Eprint, D: Display + Drop>(rt: &R, what: D, why: &str) -> Exit
    ensures { result ≡ Exit.Missing }
{
    let _ = eprintln!(rt; "{what}: {why}");
    Exit::Missing
}

// The same of a call of the system's that failed, in the system's words.
pub fn failed<R: Eprint + AllocGlobal>(rt: &R, what: &str, why: &io::Error) -> Exit
    ensures { result ≡ Exit.Missing }
{
    match format!(in rt.alloc(); "{why}") {
        Ok(text) => missing(rt, what, before_code(text.as_str())),
        Err(_) => missing(rt, what, "an error, and no memory to say which"),
    }
}

// An error's text is the system's words and then " (os error N)".
fn before_code(text: &str) -> &str {
    match text.split_once(" (os error ") {
        Some((words, _)) => words,
        None => text,
    }
}

// What the writes to standard output came to.
pub fn written<R: Eprint + AllocGlobal>(rt: &R, done: io::Result<()>) -> Exit
    ensures answered { (result ≡ Exit.Answered) ↔ IsOk done }
    ensures unread { IfErr done (λ why. (result ≡ Exit.Unread) ↔ (error_kind why ≡ ErrorKind.BrokenPipe)) }
{
    match done {
        Ok(()) => Exit::Answered,
        Err(why) if why.kind() == ErrorKind::BrokenPipe => Exit::Unread,
        Err(why) => failed(rt, "standard output", &why),
    }
}
