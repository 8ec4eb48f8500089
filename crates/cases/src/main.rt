//! Test cases that are data: a script on standard input names trees beside the program, and calls; each answer is printed.
//!
//! A line of the script is `NAME CALL WORD..`: the tree is the file `NAME.json`, the words are the arguments. Blank lines and
//! lines that begin with `#` say nothing. docs/work/CASES.md has the calls and what each one prints.
#![tactic(auto)]

mod answer;
mod asks;
mod back;
mod copies;
mod cut;
mod cuts;
mod damage;
mod faults;
mod library_call;
mod look_ups;
mod made;
mod outcome;
mod passes;
mod patterns;
mod runs;
mod script;
mod scripted;
mod scripted_lexer;
mod spans;
mod stop;
mod tables;
mod text;
mod texts;
mod twice;
mod types;
mod values;
mod without_memory;

use script::answers;
use std::io;

fn main(rt: HostRuntime) -> io::Result<()> {
    let script = io::read_to_string(rt.alloc(), rt.stdin())?;
    let text = answers(&rt, &script)?;
    print!(rt; "{text}")
}
