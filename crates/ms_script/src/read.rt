// Reading a script, line by line.
ghost use Rattle.std.specs.Prelude.{◌≡◌, ◌<◌, ◌≤◌, ◌^◌, length, ◌++◌, IfOk, IfErr, OnOk};
ghost use Rattle.ms_script.specs.Script.{IsScript, IsScriptCause, step_of};
ghost use Rattle.ms_script.specs.Next.{IsTaken, FailsSo, FailsPush};

use crate::edit::{RawEdit, Script, Step};
use crate::fault::ScriptFault;
use crate::line::said;
use crate::rows::next_row;
use ms_ir::{FuncNo, Items, Module};
use ms_line::LineFault;
use std::alloc::Global;

const MAX_LINES: u32 = 4096;

// Appends the step of a line, where its number is not too great.
fn push_step(
    script: &mut Script,
    number: u32,
    one: Option<(FuncNo, RawEdit)>,
) -> Result<(), ScriptFault>
    ensures ok { OnOk result ((number ≤ 4096) × (script.new ≡ script.old ++ step_of number one)) }
    ensures err { IfErr result (λ fault. FailsPush number fault) }
{
    if number > MAX_LINES {
        return Err(ScriptFault::ScriptLimit(number));
    }
    match one {
        Some((func, edit)) => {
            script.push(Step {
                line: number,
                func,
                edit,
            })?;
            Ok(())
        }
        None => Ok(()),
    }
}

// Appends what a row says.
fn take_row(
    alloc: Global,
    script: &mut Script,
    number: u32,
    row: &[u8],
    m: &Module,
) -> Result<(), ScriptFault>
    requires { length row.now < 2 ^ 32 }
    ensures ok { OnOk result (IsTaken m.now number row.now script.old script.new) }
    ensures err { IfErr result (λ fault. FailsSo m.now number row.now fault) }
{
    match said(alloc, row, m) {
        Ok(one) => push_step(script, number, one),
        Err(LineFault::NotOfProfile) => Err(ScriptFault::ScriptText(number)),
        Err(LineFault::TooLong) => Err(ScriptFault::ScriptLimit(number)),
        Err(LineFault::Memory) => Err(ScriptFault::Memory),
    }
}

/// The steps of a script's lines, in their order. Empty lines and comments are counted and give none. The names of functions, and what
/// their lines say of calls, are the module's.
///
/// A script has fewer than 2^32 bytes; its last line need not end in a line feed. `ScriptText` and `ScriptLimit` name the first line
/// that fails, counted from 1. `ScriptText` comes exactly where that line is no line of a script: in its form, in its function, which
/// has to have a body in the module, or in a call that is not one of the module's functions with the types written there. `ScriptLimit`
/// comes exactly where it is one, and a name of it has more than 255 bytes, an alloca more than 65,536, a memcpy more than 4,096, or an
/// offset is more than 2^31 either way, or it is line 4,097. `Memory` comes where memory runs out.
pub fn read_script(alloc: Global, bytes: &[u8], m: &Module) -> Result<Script, ScriptFault>
    requires { length bytes.now < 2 ^ 32 }
    ensures ok { IfOk result (λ script. IsScript bytes.now m.now script) }
    ensures err { IfErr result (λ fault. IsScriptCause bytes.now m.now fault) }
{
    let mut script = Items::new(alloc);
    let mut read: u32 = 0;
    let mut rest = bytes;
    while let Some((row, after)) = next_row(rest) {
        let number = read + 1;
        take_row(alloc, &mut script, number, row, m)?;
        read = number;
        rest = after;
    }
    Ok(script)
}
