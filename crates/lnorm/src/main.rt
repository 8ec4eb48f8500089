//! Reads a written grammar as JSON, normalizes it, and writes the lowered grammar as lines.
#![tactic(auto)]

ghost use Rattle.std.specs.Prelude.{◌≤◌};

use lnorm_run::printing::{Afterwards, Form, Printing};
use lnorm_run::run::run_with;
use lnorm_run::words::words_of_call;
use lnorm_streams::halt::{Program, halt_of_words, report};
use std::process::ExitCode;

/// How the program prints.
const PRINTING: Printing = Printing {
    program: Program::Lnorm,
    form: Form::Lines,
    afterwards: Afterwards::Left,
};

fn main(rt: HostRuntime) -> ExitCode {
    ExitCode::from(status(&rt))
}

fn status(rt: &HostRuntime) -> u8
    ensures { result ≤ 4 }
{
    let alloc = rt.alloc();
    match words_of_call(rt) {
        Ok(words) => run_with(
            alloc,
            &words,
            &mut rt.stdin(),
            &mut rt.stdout(),
            &mut rt.stderr(),
            PRINTING,
        ),
        Err(error) => report(Program::Lnorm, halt_of_words(&error), &mut rt.stderr()),
    }
}
