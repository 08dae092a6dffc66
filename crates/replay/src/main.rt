// Replays the scripts that its arguments name, one after the other, each from a fresh store; the answers go to standard output. `-` is
// standard input, as it is with no argument.

#![tactic(auto)]

mod stream;

use exits::{Exit, missing};
use std::env::FillError;
use std::process::ExitCode;
use std::rt::{Env, Files};
use stream::{replay_all, replay_file};

// What a path takes at most.
const PATH: usize = 4096;

fn replay_input<R: Input + Print + Eprint + AllocGlobal>(rt: &R) -> Exit {
    replay_all(rt, &mut rt.reader(), "standard input")
}

// A name that isn't text gets a message, as a file that can't be opened does: files are opened by text alone.
fn replay_path<R: Files + Input + Print + Eprint + AllocGlobal>(rt: &R, path: &[u8]) -> Exit {
    match str::from_utf8(path) {
        Ok("-") => replay_input(rt),
        Ok(path) => replay_file(rt, path),
        Err(_) => missing(rt, path.escape_ascii(), "a file's name must be UTF-8"),
    }
}

// None where there is no such argument.
fn replay_named<R: Env + Files + Input + Print + Eprint + AllocGlobal>(
    rt: &R,
    i: usize,
) -> Option<Exit> {
    let mut path = [0u8; PATH];
    match rt.arg(i, &mut path) {
        Ok(n) => Some(replay_path(rt, &path[..n])),
        Err(FillError::NotPresent) => None,
        Err(FillError::TooLong) => Some(missing(rt, "a script's name", "File name too long")),
    }
}

// None where there is no argument. Where nobody reads the answers any more, nothing more is replayed.
fn replay_names<R: Env + Files + Input + Print + Eprint + AllocGlobal>(rt: &R) -> Option<Exit> {
    let mut ended = None;
    for i in 1..usize::MAX {
        let Some(next) = replay_named(rt, i) else {
            break;
        };
        ended = Some(ended.unwrap_or(Exit::Answered).and(next));
        if next == Exit::Unread {
            break;
        }
    }
    ended
}

fn main(rt: HostRuntime) -> ExitCode {
    replay_names(&rt)
        .unwrap_or_else(|| replay_input(&rt))
        .code()
}
