//! Reads a grammar from a file and a tree from standard input, and writes the corresponding tree as lines, or of two trees what
//! shows the grammar ambiguous; or writes the whole lowered grammar as JSON.
#![tactic(auto)]

ghost use Rattle.std.specs.Prelude.{◌≤◌};

use lalrpop_norm::normalize::NormFailure;
use lexplain_run::run::translate;
use lexplain_run::words::{Asked, asked_for, grammar_asked};
use lnorm_run::printing::{Afterwards, Form, Printing};
use lnorm_run::run::run_with;
use lnorm_run::words::{WordsError, words_of_call};
use lnorm_streams::halt::{Halt, Program, halt_of_words, report};
use lnorm_streams::source::Source;
use std::fs;
use std::process::ExitCode;

/// How a grammar is printed.
const PRINTING: Printing = Printing {
    program: Program::Lexplain,
    form: Form::Json,
    afterwards: Afterwards::Left,
};

fn main(rt: HostRuntime) -> ExitCode {
    let status = match words_of_call(&rt) {
        Ok(words) => answered(&rt, &words),
        Err(error) => halted(&rt, halt_of_words(&error)),
    };
    ExitCode::from(status)
}

/// The exit status of a call with these arguments.
fn answered(rt: &HostRuntime, words: &[String]) -> u8
    ensures { result ≤ 4 }
{
    match grammar_asked(words) {
        Some((file, options)) => grammar(rt, file, options),
        None => match asked_for(rt.alloc(), words) {
            Ok((file, asked)) => translated(rt, file, &asked),
            Err(WordsError::Usage) => halted(rt, Halt::Usage),
            Err(WordsError::Memory) => halted(rt, Halt::Failed(NormFailure::Memory)),
        },
    }
}

/// Writes the whole lowered grammar of the grammar in a file, or on standard input if its name is `-`.
fn grammar(rt: &HostRuntime, file: &str, options: &[String]) -> u8
    ensures { result ≤ 4 }
{
    if file == "-" {
        return printed(rt, options, &mut rt.stdin());
    }
    match fs::open(rt, file) {
        Ok(mut input) => printed(rt, options, &mut input),
        Err(_) => halted(rt, Halt::Input),
    }
}

fn printed<R: Source>(rt: &HostRuntime, options: &[String], input: &mut R) -> u8
    ensures { result ≤ 4 }
{
    run_with(
        rt.alloc(),
        options,
        input,
        &mut rt.stdout(),
        &mut rt.stderr(),
        PRINTING,
    )
}

/// Writes what is asked for of the grammar in a file and the lines on standard input.
fn translated(rt: &HostRuntime, file: &str, asked: &Asked) -> u8
    ensures { result ≤ 4 }
{
    match fs::open(rt, file) {
        Ok(mut input) => translate(
            rt.alloc(),
            asked,
            &mut input,
            &mut rt.stdin(),
            &mut rt.stdout(),
            &mut rt.stderr(),
        ),
        Err(_) => halted(rt, Halt::Input),
    }
}

/// Reports a halt, and answers its exit status.
fn halted(rt: &HostRuntime, halt: Halt) -> u8
    ensures { result ≤ 4 }
{
    report(Program::Lexplain, halt, &mut rt.stderr())
}
