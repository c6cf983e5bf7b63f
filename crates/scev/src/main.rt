//! The program `scev`: its words, standard input, output and error, handed to the one call `run`.
#![tactic(auto)]

use scev_outside::{StdErr, StdSink, StdSource, write_all};
use scev_tool::{Status, run};
use scev_words::Word;
use std::io::ErrorKind;
use std::process::ExitCode;
use std::rt::Env;
use std::{env, io};

/// The words after the program's name.
fn words(rt: &(impl Env + AllocGlobal)) -> io::Result<Vec<Word>> {
    let mut words = Vec::new(rt.alloc());
    for text in env::args(rt)?.skip(1) {
        words.push(Word::new(text))?;
    }
    Ok(words)
}

fn main(rt: HostRuntime) -> ExitCode {
    let mut err = StdErr::new(rt.stderr());
    let words = match words(&rt) {
        Ok(words) => words,
        // A word that isn't UTF-8 asks for nothing that the tool does, as no word does.
        Err(error) if error.kind() == ErrorKind::InvalidData => Vec::new(rt.alloc()),
        Err(_) => {
            let _ = write_all(&mut err, b"scev: out of memory\n");
            return ExitCode::from(Status::OutOfMemory.code());
        }
    };
    let mut source = StdSource::new(rt.stdin());
    let mut out = StdSink::new(rt.stdout());
    let status = run(rt.alloc(), &words, &mut source, &mut out, &mut err);
    ExitCode::from(status.code())
}
