// What is written for a module: the printed forms of its functions, and its text.
ghost use Rattle.std.specs.Prelude.{◌≡◌, ◌++◌, List, ℕ, IfOk, OnOk};
ghost use Rattle.ms_ir.specs.SoundFunc.{IsSoundFunc};
ghost use Rattle.ms_ir.specs.Module.{body_of};
ghost use Rattle.ms_alias.specs.Offsets.{AreOffsetsNear};
ghost use Rattle.ms_validity.specs.Faults.{body_there, bodies_there};
ghost use Rattle.ms_output.specs.Forms.{header_part, line_feed, times, IsForm, AreForms, AreOpen, IsWrittenOf};

use crate::wanted::Wanted;
use ms_ir::{Func, FuncNo, Module, Names, NoMemory, Text};
use ms_print::print_module;
use ms_session::{Printed, Session};
use std::alloc::Global;

#[tactic(auto, unfolding(crate::specs::Forms::header_part))]
fn header_text() -> &'static [u8]
    ensures { result.now ≡ header_part }
{
    b"MemorySSA for function: "
}

#[tactic(auto, unfolding(crate::specs::Forms::line_feed))]
fn line_feed_text() -> &'static [u8]
    ensures { result.now ≡ line_feed }
{
    b"\n"
}

// The printed form of a function.
fn form_of(alloc: Global, session: &mut Session, names: &Names) -> Result<Vec<u8>, NoMemory>
    ensures form { IfOk result (λ form. IsForm names.now session.old form.items) }
    ensures same { session.new ≡ session.old }
{
    let Printed { text, walks: _ } = session.text(names)?;
    let mut form = Vec::from_slice(alloc, header_text())?;
    form.extend_from_slice(session.func().name().bytes())?;
    form.extend_from_slice(line_feed_text())?;
    form.extend_from_slice(text.bytes())?;
    form.extend_from_slice(line_feed_text())?;
    Ok(form)
}

// Appends a text so many times.
fn push_times(all: &mut Vec<u8>, text: &[u8], count: usize) -> Result<(), NoMemory>
    ensures { OnOk result (all.new.items ≡ all.old.items ++ times count text.now) }
{
    for _ in 0..count {
        all.extend_from_slice(text)?;
    }
    Ok(())
}

// Appends the printed form of an opened function so many times.
fn push_form(
    alloc: Global,
    all: &mut Vec<u8>,
    session: &mut Session,
    names: &Names,
    prints: usize,
) -> Result<(), NoMemory>
    ensures form { OnOk result ((form : List ℕ) × IsForm names.now session.old form × (all.new.items ≡ all.old.items ++ times prints form)) }
    ensures same { session.new ≡ session.old }
{
    let form = form_of(alloc, session, names)?;
    push_times(all, form.as_slice(), prints)
}

// Appends the printed form of a function so many times, and gives the function back.
fn push_func(
    alloc: Global,
    all: &mut Vec<u8>,
    func: Func,
    names: &Names,
    prints: usize,
) -> Result<Func, NoMemory>
    requires sound { IsSoundFunc func }
    requires near { AreOffsetsNear func }
    ensures form { IfOk result (λ _. (form : List ℕ) × IsForm names.now func form × (all.new.items ≡ all.old.items ++ times prints form)) }
    ensures same { IfOk result (λ f. f ≡ func) }
{
    let mut session = Session::start(alloc, func)?;
    push_form(alloc, all, &mut session, names, prints)?;
    Ok(session.into_func())
}

// Appends the printed forms of a function of a module, where it has a body. The body is taken out for them, and put back.
fn push_forms(
    alloc: Global,
    all: &mut Vec<u8>,
    module: &mut Module,
    f: FuncNo,
    prints: usize,
) -> Result<(), NoMemory>
    requires { AreOpen «module».old }
    ensures forms { OnOk result ((forms : List ℕ) × AreForms «module».old.names prints (body_there (body_of «module».old f.0)) forms
        × (all.new.items ≡ all.old.items ++ forms)) }
    ensures same { OnOk result («module».new ≡ «module».old) }
{
    module.whole();
    match module.take_func(f) {
        Some(func) => {
            let func = push_func(alloc, all, func, module.names(), prints)?;
            module.put_func(f, func);
            Ok(())
        }
        None => Ok(()),
    }
}

// The printed forms of a module's functions.
fn forms_of(alloc: Global, module: &mut Module, prints: usize) -> Result<Vec<u8>, NoMemory>
    requires { AreOpen «module».old }
    ensures forms { IfOk result (λ all. AreForms «module».old.names prints (bodies_there «module».old) all.items) }
    ensures same { OnOk result («module».new ≡ «module».old) }
{
    module.whole();
    let mut all = Vec::new(alloc);
    let mut n = 0;
    'funcs: while let Some(_) = module.sig(FuncNo(n)) {
        push_forms(alloc, &mut all, module, FuncNo(n), prints)?;
        n += 1;
    }
    Ok(all)
}

// What is written for a module.
pub fn written_for(alloc: Global, wanted: Wanted, module: &mut Module) -> Result<Text, NoMemory>
    requires { AreOpen «module».old }
    ensures { IfOk result (λ text. IsWrittenOf wanted «module».old text) }
{
    let mut all = forms_of(alloc, module, wanted.prints)?;
    if wanted.shows_module {
        let text = print_module(alloc, module)?;
        all.extend_from_slice(text.bytes())?;
    }
    Ok(Text::from_vec(all))
}
