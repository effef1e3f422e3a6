// The command-line tool: see `ags1 help`.
#![tactic(auto)]

use account::full::full;
use account::plan::plan;
use account::sealed::entry;
use layout::lengths::plaintext_length;
use std::env;
use std::process::ExitCode;
use tool::command::{Command, HELP};
use tool::parse::parse;

// The plan of one encrypted cargo list, one entry of it sealed, and storage that is full.
fn account(rt: &HostRuntime) -> anyhow::Result<()> {
    plan(rt)?;
    entry(rt)?;
    full(rt)
}

fn run(rt: &HostRuntime) -> anyhow::Result<()> {
    let words = env::args(rt)?.skip(1).collect::<Vec<String>>(rt.alloc())?;
    match parse(words.as_slice())? {
        Command::Account => account(rt)?,
        Command::Help => print!(rt; "{HELP}")?,
        Command::Length(block_size, file_length) => {
            let length = plaintext_length(file_length, block_size)?;
            println!(rt; "{length}")?;
        }
    }
    Ok(())
}

fn main(rt: HostRuntime) -> ExitCode {
    match run(&rt) {
        Ok(()) => ExitCode::SUCCESS,
        Err(e) => {
            let _ = eprintln!(rt; "ags1: {e}");
            ExitCode::FAILURE
        }
    }
}
