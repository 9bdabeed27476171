// Many sessions and many forms in one run, from the files that the arguments name, one after the other: each station begins with an empty space.
#![tactic(auto)]

ghost use Rattle.std.specs.Prelude.{true, ◌≡◌, length};
ghost use Rattle.words_layout.specs.Layout.{most_words};
ghost use Rattle.program_input.specs.Reading.{Read, Ready};

use program_input::Kept;
use program_output::{LINE, PENDING, Source};
use std::env::{Env, FillError};
use std::fs::File;
use std::{fs, str};
use words_layout::MOST_WORDS;

// The longest name of a file.
const NAME: usize = 4096;

// How many arguments there are, the program's own name among them.
fn arguments(rt: &HostRuntime) -> usize {
    for i in 0..usize::MAX {
        if let Err(FillError::NotPresent) = rt.arg(i, &mut []) {
            return i;
        }
    }
    usize::MAX
}

// The file that an argument names. Why one can't be opened is told on standard error.
fn open_named(rt: &HostRuntime, argument: usize) -> Option<File> {
    let mut buffer = [0u8; NAME];
    let n = rt.arg(argument, &mut buffer).unwrap_or(0);
    let name = match str::from_utf8(&buffer[..n]) {
        Ok(name) => name,
        Err(e) => {
            let _ = eprintln!(rt; "argument {argument}: {e}");
            return None;
        }
    };
    match fs::open(rt, name) {
        Ok(file) => Some(file),
        Err(e) => {
            let _ = eprintln!(rt; "{name}: {e}");
            None
        }
    }
}

// The file that an argument names, in which titles part sessions and forms; of one that can't be read nothing is played.
fn play_named(
    rt: &HostRuntime,
    argument: usize,
    space: &mut [u32],
    line: &mut [u8],
    pending: &mut [u8],
    from: Kept,
) -> Kept
    requires { (length space.old ≡ most_words) × Ready from.have from.part.waiting.count line.old pending.old }
    ensures { Read true line.old from.have (from.part.source, space.old)
        line.new result.have (result.part.source, space.new)
        × Ready result.have result.part.waiting.count line.new pending.new }
{
    let Some(mut file) = open_named(rt, argument) else {
        return from;
    };
    program_input::read(&mut file, true, space, line, pending, from)
}

fn main(rt: HostRuntime) {
    let mut space = [0u32; MOST_WORDS];
    let mut line = [0u8; LINE];
    let mut pending = [0u8; PENDING];
    let mut kept = program_input::start(Source::Session, rt.stdout());
    for i in 1..arguments(&rt) {
        kept = play_named(&rt, i, &mut space, &mut line, &mut pending, kept);
    }
    let last = program_input::end(true, &mut space, &line, &mut pending, kept);
    program_output::flush(&pending, last);
}
