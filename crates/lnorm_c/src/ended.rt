//! What the engine of `lnorm` comes to, over bytes.
ghost use Rattle.std.specs.Prelude.{◌≡◌, ◌<◌, ◌⊎◌, ℕ, List, [], Option, Some, None, map, string_bytes};
ghost use Rattle.lalrpop_norm_tree_names.specs.declared.names.Span.{Span};
ghost use Rattle.lalrpop_norm_faults.specs.declared.kind.FaultKind.{FaultKind};
ghost use Rattle.lnorm_run.specs.Runs.{IsRightIn, IsRefused, IsNoTree};
ghost use Rattle.lnorm_run.specs.Settings.{settings_of};
ghost use Rattle.lnorm_streams.specs.declared.halt.Program.TheVariants.{Lnorm};
ghost use Rattle.lnorm_streams.specs.Told.{status_of, LineOf};
ghost use Rattle.lnorm_streams.specs.Streams.{fault_line, usage_line, no_tree_line};
ghost use Rattle.lnorm_c.specs.Calls.{AsksForNothing, IsPrintedFor, IsRefusedFor, IsNoTreeFor, IsFront};

use crate::words::words_in;
use crate::written::Written;
use lalrpop_norm_faults::NormFailure;
use lnorm_buffers::answer::{Ended, without_memory};
use lnorm_run::printing::{Afterwards, Form, Printing};
use lnorm_run::run::run_with;
use lnorm_run::words::WordsError;
use lnorm_streams::halt::{Halt, Program, report};
use std::alloc::Global;

/// What the engine comes to for the arguments in a text.
pub(crate) fn ended(alloc: Global, form: Form, words: &[u8], input: &[u8]) -> Ended
    ensures done { result.status ≡ 0 → IsPrintedFor form words.now input.now result.output.items
        × (result.faults.items ≡ []) }
    ensures fault { result.status ≡ 1 → (fault : FaultKind) × (span : Span) × (message : List ℕ)
        × IsRefusedFor words.now input.now fault span
        × IsFront result.faults.items (fault_line fault span message) }
    ensures refused { result.status ≡ 2 →
        (AsksForNothing words.now × IsFront result.faults.items usage_line)
        ⊎ (IsNoTreeFor words.now input.now × IsFront result.faults.items no_tree_line) }
    ensures quiet { 0 < result.status → result.status < 3 → result.output.items ≡ [] }
{
    match words_in(alloc, words) {
        Ok(words) => ended_with(alloc, form, &words, input),
        Err(WordsError::Usage) => halted(alloc, Halt::Usage),
        Err(WordsError::Memory) => halted(alloc, Halt::Failed(NormFailure::Memory)),
    }
}

/// What the engine comes to for arguments.
fn ended_with(alloc: Global, form: Form, words: &[String], input: &[u8]) -> Ended
    ensures done { result.status ≡ 0 → (after : Option (List ℕ))
        × IsRightIn form (map string_bytes words.now) (Some input.now) after result.output.items
        × (result.faults.items ≡ []) }
    ensures fault { result.status ≡ 1 → (fault : FaultKind) × (span : Span) × (message : List ℕ) × (after : Option (List ℕ))
        × IsRefused (map string_bytes words.now) (Some input.now) after fault span
        × IsFront result.faults.items (fault_line fault span message) }
    ensures refused { result.status ≡ 2 →
        ((settings_of (map string_bytes words.now) ≡ None) × IsFront result.faults.items usage_line)
        ⊎ ((after : Option (List ℕ)) × IsNoTree (map string_bytes words.now) (Some input.now) after
        × IsFront result.faults.items no_tree_line) }
    ensures quiet { 0 < result.status → result.status < 3 → result.output.items ≡ [] }
{
    let mut input = input;
    let mut output = Vec::new(alloc);
    let mut faults = Written::new(alloc);
    let printing = Printing {
        program: Program::Lnorm,
        form,
        afterwards: Afterwards::LetGo,
    };
    let status = run_with(alloc, words, &mut input, &mut output, &mut faults, printing);
    if faults.is_cut {
        without_memory(alloc)
    } else {
        Ended {
            status,
            output,
            faults: faults.bytes,
        }
    }
}

/// What a run comes to that has no arguments.
fn halted(alloc: Global, halt: Halt) -> Ended
    ensures status { result.status < 3 → result.status ≡ status_of halt }
    ensures line { result.status < 3 → LineOf Lnorm halt (Some []) (Some result.faults.items) }
    ensures quiet { result.output.items ≡ [] }
{
    let mut faults = Written::new(alloc);
    let status = report(Program::Lnorm, halt, &mut faults);
    if faults.is_cut {
        without_memory(alloc)
    } else {
        Ended {
            status,
            output: Vec::new(alloc),
            faults: faults.bytes,
        }
    }
}
