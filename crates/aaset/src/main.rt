//! Answers requests to a set of AppArmor profiles, from the files that the arguments name and the commands on standard input.
#![tactic(auto)]

use aa_set::{FromRead, ToWrite};
use aa_start::RuntimeFiles;
use aaset_program::Fault;
use std::process::ExitCode;
use std::rt::Env;
use std::{env, io};

// The words that the program was started with, its own name first.
fn words_of_start<R: Env + AllocGlobal>(rt: &R) -> Result<Vec<String>, Fault> {
    match env::args(rt) {
        Ok(words) => words.collect(rt.alloc()).map_err(|_| Fault::NoMemory),
        Err(error) => Err(aaset_program::fault_of_words(&error)),
    }
}

// No buffer is between the reader and the terminal, or between a writer and the terminal.
fn main(rt: HostRuntime) -> ExitCode {
    let status = aaset_program::start(
        rt.alloc(),
        words_of_start(&rt),
        &RuntimeFiles::new(&rt),
        &mut FromRead::new(rt.reader()),
        &mut ToWrite::new(io::writer(&rt)),
        &mut ToWrite::new(rt.stderr()),
    );
    ExitCode::from(status)
}
