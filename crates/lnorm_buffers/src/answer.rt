//! What a call answers.
ghost use Rattle.std.specs.Prelude.{◌≡◌, ◌≤◌, ◌<◌, []};
ghost use Rattle.lnorm_buffers.specs.Buffers.{Takes};
ghost use Rattle.lnorm_streams.specs.Streams.{memory_line};

use crate::buffers::put;
use std::alloc::Global;

/// What a call answers beside its buffers.
#[repr(C)]
#[derive(Clone, Copy)]
pub struct LnormAnswer {
    /// The exit status: 0 to 3.
    pub status: u8,
    /// How many bytes the whole output has. If that is more than the buffer takes, the output in it is cut.
    pub output_size: usize,
    /// How many bytes the whole line of faults has. If that is more than the buffer takes, the line in it is cut.
    pub faults_size: usize,
}

/// What an engine came to, before it is put into buffers.
#[derive(Drop)]
pub struct Ended {
    /// The exit status of the program: 3 and more where an allocation failed.
    pub status: u8,
    /// What goes to standard output.
    pub output: Vec<u8>,
    /// What goes to standard error.
    pub faults: Vec<u8>,
}

/// What an engine comes to if an allocation fails: nothing is allocated for it.
pub fn without_memory(alloc: Global) -> Ended
    ensures status { result.status ≡ 3 }
    ensures quiet { (result.output.items ≡ []) × (result.faults.items ≡ []) }
{
    Ended {
        status: 3,
        output: Vec::new(alloc),
        faults: Vec::new(alloc),
    }
}

/// The answer for what an engine came to. A failed allocation is reported by a line that needs no allocation.
pub fn told(ended: &Ended, output: &mut [u8], faults: &mut [u8]) -> LnormAnswer
    ensures ended { ended.now.status < 3 → (result.status ≡ ended.now.status)
        × Takes output.old output.new ended.now.output.items result.output_size
        × Takes faults.old faults.new ended.now.faults.items result.faults_size }
    ensures memory { 3 ≤ ended.now.status → (result.status ≡ 3)
        × Takes output.old output.new [] result.output_size
        × Takes faults.old faults.new memory_line result.faults_size }
{
    if ended.status < 3 {
        LnormAnswer {
            status: ended.status,
            output_size: put(&ended.output, output),
            faults_size: put(&ended.faults, faults),
        }
    } else {
        LnormAnswer {
            status: 3,
            output_size: put(&[], output),
            faults_size: put(no_memory().as_bytes(), faults),
        }
    }
}

#[tactic(auto, unfolding(lnorm_streams::specs::Streams::memory_line))]
fn no_memory() -> &'static str
    ensures { result.now ≡ memory_line }
{
    "lnorm: out of memory\n"
}
