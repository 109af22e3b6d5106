// Reads a script of dictionary calls from standard input, carries it out on a search tree and a trie of bytes side by
// side, and prints their answers.
#![tactic(auto)]

use dictionary::Call;
use script::{Command, NotACommand};
use show::print_run;
use std::io;

mod makes;
mod script;
mod show;

fn main(rt: HostRuntime) -> io::Result<()> {
    let mut rows = 0;
    let mut calls: Vec<Call<u8>> = Vec::new(rt.alloc());
    for line in rt.lines(rt.alloc()) {
        let line = line?;
        match line.as_str().parse() {
            Ok(Command::New(n)) => {
                print_run(&rt, rows, calls.as_slice())?;
                calls.clear();
                rows = n;
            }
            Ok(Command::Call(call)) => calls.push(call)?,
            Ok(Command::Blank) => {}
            Err(NotACommand) => println!(rt; "not a command: {line}")?,
        }
    }
    print_run(&rt, rows, calls.as_slice())
}
