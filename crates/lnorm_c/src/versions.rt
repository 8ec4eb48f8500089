//! What the sources of a library say of themselves: which forms it reads and writes, and the toolchain that they are proved with.
ghost use Rattle.std.specs.Prelude.{◌≡◌};
ghost use Rattle.lnorm_buffers.specs.Buffers.{Takes};
ghost use Rattle.lnorm_c.specs.Versions.{form_version, toolchain_line};

use lnorm_buffers::buffers::put;

/// The version of the forms: of a tree in JSON, of the lines, and of a whole lowered grammar in JSON.
#[unsafe(no_mangle)]
pub extern "C" fn lnorm_form_version() -> u32
    ensures { result ≡ form_version }
{
    2
}

/// The toolchain that the sources are proved with, as its `rt version` names it: a constant of the sources, also where a library
/// was built by another one. The front of that line, without a line feed, is put into the buffer, as much as it takes; the answer
/// is the size of the whole in bytes.
#[unsafe(no_mangle)]
pub extern "C" fn lnorm_toolchain(line: &mut [u8]) -> usize
    ensures { Takes line.old line.new toolchain_line result }
{
    put(toolchain().as_bytes(), line)
}

#[tactic(auto, unfolding(crate::specs::Versions::toolchain_line))]
fn toolchain() -> &'static str
    ensures { result.now ≡ toolchain_line }
{
    "rattle-kit-13f logic dac8208d650f15bf"
}
