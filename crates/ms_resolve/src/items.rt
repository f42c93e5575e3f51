// A module from its lines.
ghost use Rattle.std.specs.Prelude.{◌≡◌, ◌<◌, ◌+◌, ◌-◌, ◌^◌, [], length, map, OnOk, IfOk};
ghost use Rattle.ms_ir.specs.Module.{IsNew};
ghost use Rattle.ms_grammar.specs.Form.{printed};
ghost use Rattle.ms_resolve.specs.Meaning.{keeps_in};
ghost use Rattle.ms_resolve.specs.Scope.{mark_of};
ghost use Rattle.ms_names.specs.Draft.{body_lines};
ghost use Rattle.ms_resolve.specs.Build.{bare, groups_with, groups_after, sig_by, sigs_with, sigs_after, body_in, with_kept, with_global_item, with_declared, with_defined, module_with, module_after, bare_module, no_module, bodies_with, bodies_after, IsLineNew, AreNew};
ghost use Rattle.ms_resolve.specs.Context.{outer_by};

use crate::body::{func_of, numbers_of};
use crate::meaning::effects_of;
use crate::reader::{Reader, copy, keeps_under};
use crate::resolved::BodyLines;
use ms_grammar::{Head, Line, write_line};
use ms_ir::{Func, Groups, Items, Mark, Marks, Module, NoMemory, Param, Sig, Text};
use ms_names::{Symbols, body_of, register_of};
use std::alloc::Global;

fn add_group(alloc: Global, groups: &mut Groups, line: &Line) -> Result<(), NoMemory>
    ensures { OnOk result (groups.new ≡ groups_with groups.old line.now) }
{
    match line {
        Line::Group(number, text) => groups.push((*number, copy(alloc, text)?)),
        _ => Ok(()),
    }
}

// The groups in the order of their lines.
pub(crate) fn groups_of(alloc: Global, lines: &[(u32, Line)]) -> Result<Groups, NoMemory>
    ensures { IfOk result (λ gs. gs ≡ groups_after [] lines.now) }
{
    let mut groups = Groups::new(alloc);
    for (_, line) in lines {
        add_group(alloc, &mut groups, line)?;
    }
    Ok(groups)
}

fn mark_of(alloc: Global, param: &Param) -> Result<Mark, NoMemory>
    ensures { IfOk result (λ m. m ≡ mark_of keeps_in param.now) }
{
    Ok(Mark {
        ty: param.ty,
        keeps: keeps_under(alloc, param.ty, &param.text, true)?,
    })
}

fn marks_of(alloc: Global, params: &[Param]) -> Result<Marks, NoMemory>
    ensures { IfOk result (λ ms. ms ≡ map (mark_of keeps_in) params.now) }
{
    let mut marks = Marks::new(alloc);
    for param in params {
        marks.push(mark_of(alloc, param)?)?;
    }
    Ok(marks)
}

// What a function's line says.
fn sig_of(alloc: Global, groups: &Groups, head: &Head) -> Result<Sig, NoMemory>
    ensures { IfOk result (λ s. s ≡ sig_by groups.now head.now) }
{
    Ok(Sig {
        ret: head.ret,
        variadic: head.variadic,
        effects: effects_of(alloc, &head.post, groups)?,
        params: marks_of(alloc, head.params.as_slice())?,
    })
}

fn add_sig(
    alloc: Global,
    groups: &Groups,
    sigs: &mut Items<Sig>,
    line: &Line,
) -> Result<(), NoMemory>
    ensures { OnOk result (sigs.new ≡ sigs_with groups.now sigs.old line.now) }
{
    match line {
        Line::Declare(head) | Line::Define(head) => sigs.push(sig_of(alloc, groups, head)?),
        _ => Ok(()),
    }
}

// What the functions' lines say, in their order.
pub(crate) fn sigs_of(
    alloc: Global,
    groups: &Groups,
    lines: &[(u32, Line)],
) -> Result<Items<Sig>, NoMemory>
    ensures { IfOk result (λ sigs. sigs ≡ sigs_after groups.now [] lines.now) }
{
    let mut sigs = Items::new(alloc);
    for (_, line) in lines {
        add_sig(alloc, groups, &mut sigs, line)?;
    }
    Ok(sigs)
}

// What a module's lines are read under.
#[derive(Drop)]
pub(crate) struct Context<'s, 'a> {
    pub(crate) alloc: Global,
    pub(crate) symbols: &'s Symbols<'a>,
    pub(crate) sigs: &'s Items<Sig>,
    pub(crate) groups: &'s Groups,
}

impl<'s, 'a> Context<'s, 'a> {
    fn body(&self, n: u32, head: &Head, body: &[(u32, Line)]) -> Result<Func, NoMemory>
        ensures { IfOk result (λ f. bare f ≡ body_in (outer_by self.now) n head.now body.now) }
    {
        let register = register_of(self.alloc, n, head, body)?;
        let reader = Reader {
            alloc: self.alloc,
            register: &register,
            symbols: self.symbols,
            sigs: self.sigs,
            groups: self.groups,
        };
        func_of(&reader, head, body)
    }

    fn kept(&self, module: &mut Module, text: &Text) -> Result<(), NoMemory>
        requires few { length module.old.items < 2 ^ 32 - 1 }
        ensures { OnOk result (bare_module module.new ≡ with_kept (bare_module module.old) text.now) }
    {
        module.add_kept(copy(self.alloc, text)?)
    }

    fn global(&self, module: &mut Module, name: &Text, text: &Text) -> Result<(), NoMemory>
        requires new { IsNew module.old.names name.now }
        requires few { length module.old.items < 2 ^ 32 - 1 }
        ensures { OnOk result (bare_module module.new ≡ with_global_item (bare_module module.old) name.now text.now) }
    {
        let name = copy(self.alloc, name)?;
        let text = copy(self.alloc, text)?;
        module.add_global(name, text)?;
        Ok(())
    }

    fn define(
        &self,
        module: &mut Module,
        n: u32,
        head: &Head,
        rest: &[(u32, Line)],
    ) -> Result<(), NoMemory>
        requires new { IsNew module.old.names head.now.name }
        requires few { length module.old.items < 2 ^ 32 - 1 }
        ensures { OnOk result (bare_module module.new ≡ with_defined (bare_module module.old) head.now.name (sig_by self.now.groups.now head.now)
            (body_in (outer_by self.now) n head.now (body_lines rest.now))) }
    {
        let name = copy(self.alloc, &head.name)?;
        let sig = sig_of(self.alloc, self.groups, head)?;
        let func = self.body(n, head, body_of(rest))?;
        add_body(module, name, sig, func)?;
        Ok(())
    }

    fn declare(&self, module: &mut Module, head: &Head, line: &Line) -> Result<(), NoMemory>
        requires new { IsNew module.old.names head.now.name }
        requires few { length module.old.items < 2 ^ 32 - 1 }
        ensures { OnOk result (bare_module module.new ≡ with_declared (bare_module module.old) head.now.name (sig_by self.now.groups.now head.now) (printed line.now)) }
    {
        let name = copy(self.alloc, &head.name)?;
        let mut text = Text::new(self.alloc);
        write_line(line, &mut text)?;
        let sig = sig_of(self.alloc, self.groups, head)?;
        module.add_declared(name, sig, text)?;
        Ok(())
    }

    fn add_line(
        &self,
        module: &mut Module,
        n: u32,
        line: &Line,
        rest: &[(u32, Line)],
    ) -> Result<(), NoMemory>
        requires new { IsLineNew module.old.names line.now }
        requires few { length module.old.items < 2 ^ 32 - 1 }
        ensures { OnOk result (bare_module module.new ≡ module_with (outer_by self.now) (bare_module module.old) n line.now rest.now) }
    {
        match line {
            Line::Kept(text) | Line::Group(_, text) => self.kept(module, text),
            Line::GlobalVar(name, text) => self.global(module, name, text),
            Line::Declare(head) => self.declare(module, head, line),
            Line::Define(head) => self.define(module, n, head, rest),
            _ => Ok(()),
        }
    }

    fn add_lines(&self, module: &mut Module, lines: &[(u32, Line)]) -> Result<(), NoMemory>
        requires new { AreNew module.old.names lines.now }
        requires few { length module.old.items + length lines.now < 2 ^ 32 - 1 }
        ensures { OnOk result (bare_module module.new ≡ module_after (outer_by self.now) (bare_module module.old) lines.now) }
    {
        for (at, (n, line)) in lines.iter().enumerate() {
            self.add_line(module, *n, line, &lines[at + 1..])?;
        }
        Ok(())
    }

    // The module of the lines.
    pub(crate) fn module(&self, lines: &[(u32, Line)]) -> Result<Module, NoMemory>
        requires new { AreNew (no_module []).names lines.now }
        requires few { length lines.now < 2 ^ 31 - 1 }
        ensures { IfOk result (λ m. bare_module m ≡ module_after (outer_by self.now) (no_module (groups_after [] lines.now)) lines.now) }
    {
        let mut module = Module::new(self.alloc, groups_of(self.alloc, lines)?);
        self.add_lines(&mut module, lines)?;
        Ok(module)
    }
}

// A function with its body more.
fn add_body(module: &mut Module, name: Text, sig: Sig, func: Func) -> Result<(), NoMemory>
    requires new { IsNew module.old.names name }
    requires few { length module.old.items < 2 ^ 32 - 1 }
    ensures { OnOk result (module.new ≡ with_defined module.old name sig func) }
{
    module.whole();
    let f = module.add_defined(name, sig)?;
    module.put_func(f, func);
    Ok(())
}

fn add_numbers(
    alloc: Global,
    bodies: &mut Items<BodyLines>,
    line: &Line,
    rest: &[(u32, Line)],
) -> Result<(), NoMemory>
    ensures { OnOk result (bodies.new ≡ bodies_with bodies.old line.now rest.now) }
{
    match line {
        Line::Define(_) => bodies.push(numbers_of(alloc, body_of(rest))?),
        _ => Ok(()),
    }
}

// The lines of the functions with a body.
pub(crate) fn bodies_of(alloc: Global, lines: &[(u32, Line)]) -> Result<Items<BodyLines>, NoMemory>
    ensures { IfOk result (λ bs. bs ≡ bodies_after [] lines.now) }
{
    let mut bodies = Items::new(alloc);
    for (at, (_, line)) in lines.iter().enumerate() {
        add_numbers(alloc, &mut bodies, line, &lines[at + 1..])?;
    }
    Ok(bodies)
}
