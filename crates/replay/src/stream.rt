// A script read from a file, replayed as it comes, and its answers written to standard output.

use exits::{Exit, failed, written};
use replay_core::feed::{Replay, feed, finish, start};
use std::fs;
use std::io::Read;
use std::rt::Files;

// At most so many bytes are read at once.
const PART: usize = 4096;

// Room for answers; a part of a script that needs more is answered in several writes.
const ROOM: usize = 16384;

fn write_out<R: Print + Eprint + AllocGlobal>(rt: &R, answers: &[u8]) -> Result<(), Exit> {
    match written(rt, rt.write_all(answers)) {
        Exit::Answered => Ok(()),
        ended => Err(ended),
    }
}

// Answers the lines that end in a part, as many at once as there is room for.
fn replay_part<R: Print + Eprint + AllocGlobal>(
    rt: &R,
    part: &[u8],
    r: Replay,
) -> Result<Replay, Exit> {
    let mut out = [0u8; ROOM];
    let mut next = r;
    let mut rest = part;
    while !rest.is_empty() {
        let f = feed(next, rest, &mut out);
        write_out(rt, &out[..f.count])?;
        next = f.replay;
        rest = &rest[f.taken..];
    }
    Ok(next)
}

// A last line without a line feed.
fn replay_end<R: Print + Eprint + AllocGlobal>(rt: &R, r: Replay) -> Result<(), Exit> {
    let mut out = [0u8; ROOM];
    let n = finish(r, &mut out);
    write_out(rt, &out[..n])
}

// A proved loop has to end, and nothing says that a file does: so its turns are counted, up to a number that no run reaches.
fn replay_rest<R: Print + Eprint + AllocGlobal, S: Read>(
    rt: &R,
    script: &mut S,
    name: &str,
) -> Result<(), Exit> {
    let mut part = [0u8; PART];
    let mut r = start();
    for _ in 0..u64::MAX {
        let n = match script.read(&mut part) {
            Ok(n) => n,
            Err(why) => return Err(failed(rt, name, &why)),
        };
        if n == 0 {
            break;
        }
        r = replay_part(rt, &part[..n], r)?;
    }
    replay_end(rt, r)
}

pub fn replay_all<R: Print + Eprint + AllocGlobal, S: Read>(
    rt: &R,
    script: &mut S,
    name: &str,
) -> Exit {
    match replay_rest(rt, script, name) {
        Ok(()) => Exit::Answered,
        Err(ended) => ended,
    }
}

// The same for the file of that name; one that can't be opened gets a message.
pub fn replay_file<R: Files + Print + Eprint + AllocGlobal>(rt: &R, path: &str) -> Exit {
    match fs::open(rt, path) {
        Ok(mut script) => replay_all(rt, &mut script, path),
        Err(why) => failed(rt, path, &why),
    }
}
