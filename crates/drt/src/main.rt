//! The program `drt`: the adapters over standard input and output, and one run.
#![tactic(auto)]

use drt_advice::advise;
use drt_io::{FromRead, FromWrite, write_all};
use drt_outcome::outcome::OUT_OF_MEMORY;
use drt_outcome::{Stop, outcome_of};
use drt_pool::OpenGate;
use drt_top::{notice, run};
use std::io::ErrorKind;
use std::process::ExitCode;
use std::rt::Env;
use std::{env, io};

// The status where the system gives no words.
const NO_WORDS: u8 = 11;

fn main(rt: HostRuntime) -> ExitCode {
    let outcome = match words_of(&rt) {
        Ok(words) => {
            let mut source = FromRead::new(rt.stdin().lock());
            let mut sink = FromWrite::new(rt.stdout());
            run(
                &rt,
                rt.alloc(),
                words.as_slice(),
                &mut source,
                &mut sink,
                &OpenGate,
            )
        }
        Err(error) if error.kind() == ErrorKind::OutOfMemory => outcome_of(Stop::Memory),
        Err(_) => return ExitCode::from(NO_WORDS),
    };
    // There is nowhere else to say that standard error takes no more.
    let mut said = FromWrite::new(rt.stderr());
    match notice(rt.alloc(), &outcome) {
        Ok(line) => {
            let _ = write_all(&mut said, line.as_slice());
            if let Ok(sentence) = advise(rt.alloc(), &outcome) {
                let _ = write_all(&mut said, sentence.as_slice());
            }
        }
        Err(_) => {
            if outcome.status == OUT_OF_MEMORY {
                let _ = write_all(&mut said, b"drt: out of memory\n");
            }
        }
    }
    ExitCode::from(outcome.status)
}

// The words that the program was called with.
fn words_of(rt: &(impl Env + AllocGlobal)) -> io::Result<Vec<String>> {
    let mut words = Vec::new(rt.alloc());
    for word in env::args(rt)? {
        words.push(word)?;
    }
    Ok(words)
}
