// What is told of a script for a module: the number of the refusal and its line, or two zeros. Each edit is asked of the functions as they were read, so
// that no edit rests on one before it.
ghost use Rattle.ms_ir.specs.SoundFunc.{IsSoundFunc};
ghost use Rattle.ms_output.specs.Forms.{AreOpen};

use crate::modules::func_of;
use ms_flow::Flow;
use ms_ir::{Edit, EditFault, Func, Module, NoMemory};
use ms_script::{Script, ScriptFault, Step, read_script, resolve};
use ms_valid::accept_edit;
use std::alloc::Global;
use std::process::Abort;

fn refusal(why: EditFault) -> Result<u32, NoMemory> {
    match why {
        EditFault::Name => Ok(11),
        EditFault::Place => Ok(12),
        EditFault::Kind => Ok(13),
        EditFault::Types => Ok(14),
        EditFault::Order => Ok(15),
        EditFault::Used => Ok(16),
        EditFault::NoEdge => Ok(17),
        EditFault::Memory => Err(NoMemory),
    }
}

// The number of an edit's refusal, 0 where it is let through.
fn of_edit(alloc: Global, func: &Func, edit: &Edit) -> Result<u32, NoMemory>
    requires { IsSoundFunc func.now }
{
    let flow = Flow::of(alloc, func)?;
    match accept_edit(alloc, func, &flow, edit) {
        Ok(()) => Ok(0),
        Err(why) => refusal(why),
    }
}

// The same of a line, whose names are those of the function.
fn of_step(alloc: Global, module: &Module, step: &Step) -> Result<u32, NoMemory>
    requires { AreOpen module.now }
{
    match func_of(module, step.func) {
        Some(func) => match resolve(alloc, step, module, func) {
            Ok(edit) => of_edit(alloc, func, &edit),
            Err(why) => refusal(why),
        },
        None => Ok(1000),
    }
}

// The first refusal of a script's edits, with its line.
fn of_steps(alloc: Global, module: &Module, script: &Script) -> Result<(u32, u32), NoMemory>
    requires { AreOpen module.now }
{
    for step in script.as_slice() {
        let number = of_step(alloc, module, step)?;
        if number > 0 {
            return Ok((number, step.line));
        }
    }
    Ok((0, 0))
}

// The first refusal of a script, with its line.
pub fn told(alloc: Global, module: &Module, script: &[u8]) -> Result<(u32, u32), NoMemory>
    requires { AreOpen module.now }
{
    if script.len() > 100000 {
        return Err(NoMemory);
    }
    match read_script(alloc, script, module) {
        Ok(script) => of_steps(alloc, module, &script),
        Err(ScriptFault::ScriptText(line)) => Ok((8, line)),
        Err(ScriptFault::ScriptLimit(line)) => Ok((9, line)),
        Err(ScriptFault::Memory) => Err(NoMemory),
    }
}

// Expects what is told of scripts of one line.
pub fn expect(rt: &impl Abort, alloc: Global, module: &Module, rows: &[(&str, u32)])
    requires { AreOpen module.now }
{
    for (script, number) in rows {
        let wanted = if *number == 0 { (0, 0) } else { (*number, 1) };
        assert!(rt;
            told(alloc, module, script.as_bytes()) == Ok(wanted),
            "{script}"
        );
    }
}
