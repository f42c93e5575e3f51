// Instructions of lines under the names of a function.
ghost use Rattle.std.specs.Prelude.{◌≡◌, ◌&&◌, ◌++◌, false, map, drop, IfOk};
ghost use Rattle.ms_attrs.specs.Effects.{both};
ghost use Rattle.ms_attrs.specs.Memory.{everything};
ghost use Rattle.ms_grammar.specs.Parts.{behind_blank};
ghost use Rattle.ms_grammar.specs.Form.{name_text};
ghost use Rattle.ms_resolve.specs.Meaning.{keeps_in};
ghost use Rattle.ms_resolve.specs.Scope.{value_of, block_of, is_pointer, arg_of, args_of, entry_of, index_of, keeps_at, marks_of, sig_of, effects_of_sig, number_of_word, inst_of};
ghost use Rattle.ms_script.specs.Names.{scope_of};

use crate::lookup::{Lookup, copy, effects_of, ends, func_named, keeps_of};
use ms_grammar::{RawArg, RawEntry, RawIndex, RawInst, RawVal};
use ms_ir::{
    Arg, Args, CastOp, Effects, Entries, Entry, Flags, FuncNo, IndexTerm, Inst, Mark, Name,
    NoMemory, Op, Pred, Terms, Text, Ty,
};
use std::alloc::Global;

// Whether a pointer is kept, where the callee's line leaves it open or not.
fn keeps_under(alloc: Global, ty: Ty, text: &Text, lets: bool) -> Result<bool, NoMemory>
    ensures { IfOk result (λ k. k ≡ (is_pointer ty && (keeps_in text.now && lets))) }
{
    match ty {
        Ty::Ptr => {
            let keeps = keeps_of(alloc, text)?;
            Ok(keeps && lets)
        }
        _ => Ok(false),
    }
}

// What a function's line leaves open of the argument at a place.
fn keeps_at(marks: &[Mark], at: usize) -> bool
    ensures { result ≡ keeps_at (drop at marks.now) }
{
    match &marks[at.min(marks.len())..] {
        [mark, ..] => mark.keeps,
        [] => true,
    }
}

fn all_flags() -> Effects
    ensures { result ≡ everything }
{
    Effects {
        arg_read: true,
        arg_write: true,
        other_read: true,
        other_write: true,
        hidden_read: true,
        hidden_write: true,
    }
}

fn in_both(a: Effects, b: Effects) -> Effects
    ensures { result ≡ both a b }
{
    Effects {
        arg_read: a.arg_read && b.arg_read,
        arg_write: a.arg_write && b.arg_write,
        other_read: a.other_read && b.other_read,
        other_write: a.other_write && b.other_write,
        hidden_read: a.hidden_read && b.hidden_read,
        hidden_write: a.hidden_write && b.hidden_write,
    }
}

impl<'a> Lookup<'a> {
    fn arg(&self, lets: bool, arg: &RawArg) -> Result<Arg, NoMemory>
        ensures { IfOk result (λ a. a ≡ arg_of (scope_of self.now.m.now self.now.func.now) lets arg.now) }
    {
        Ok(Arg {
            ty: arg.ty,
            val: self.value(&arg.val),
            keeps: keeps_under(self.alloc, arg.ty, &arg.text, lets)?,
            text: copy(self.alloc, &arg.text)?,
        })
    }

    fn args(&self, marks: &[Mark], args: &[RawArg]) -> Result<Args, NoMemory>
        ensures { IfOk result (λ r. r ≡ args_of (scope_of self.now.m.now self.now.func.now) marks.now args.now) }
    {
        let mut all = Args::new(self.alloc);
        for (at, arg) in args.iter().enumerate() {
            all.push(self.arg(keeps_at(marks, at), arg)?)?;
        }
        Ok(all)
    }

    fn entry(&self, entry: &RawEntry) -> Result<Entry, NoMemory>
        ensures { IfOk result (λ e. e ≡ entry_of (scope_of self.now.m.now self.now.func.now) entry.now) }
    {
        Ok(Entry {
            val: self.value(&entry.val),
            from: self.block(&entry.from),
        })
    }

    fn entries(&self, entries: &[RawEntry]) -> Result<Entries, NoMemory>
        ensures { IfOk result (λ r. r ≡ map (entry_of (scope_of self.now.m.now self.now.func.now)) entries.now) }
    {
        let mut all = Entries::new(self.alloc);
        for entry in entries {
            all.push(self.entry(entry)?)?;
        }
        Ok(all)
    }

    fn index(&self, index: &RawIndex) -> IndexTerm
        ensures { result ≡ index_of (scope_of self.now.m.now self.now.func.now) index.now }
    {
        IndexTerm {
            val: self.value(&index.val),
            ty: index.ty,
            scale: index.scale,
        }
    }

    fn terms(&self, terms: &[RawIndex]) -> Result<Terms, NoMemory>
        ensures { IfOk result (λ r. r ≡ map (index_of (scope_of self.now.m.now self.now.func.now)) terms.now) }
    {
        let mut all = Terms::new(self.alloc);
        for term in terms {
            all.push(self.index(term))?;
        }
        Ok(all)
    }

    // What the line of a function says of its parameters.
    fn marks_at(&self, f: u32) -> &[Mark]
        ensures { result.now ≡ marks_of (sig_of (scope_of self.now.m.now self.now.func.now) f) }
    {
        match self.m.sig(FuncNo(f)) {
            Some(sig) => sig.params.as_slice(),
            None => &[],
        }
    }

    fn effects_at(&self, f: u32) -> Effects
        ensures { result ≡ effects_of_sig (sig_of (scope_of self.now.m.now self.now.func.now) f) }
    {
        match self.m.sig(FuncNo(f)) {
            Some(sig) => sig.effects,
            None => all_flags(),
        }
    }

    // In each line what is only a number comes first and the texts behind it, since what was made before a step that fails has to be
    // dropped there.
    fn alloca(&self, size: u32, head: &Text, tail: &Text) -> Result<Inst, NoMemory>
        ensures { IfOk result (λ i. i ≡ Inst.Alloca size head.now tail.now) }
    {
        Ok(Inst::Alloca {
            size,
            head: copy(self.alloc, head)?,
            tail: copy(self.alloc, tail)?,
        })
    }

    fn gep(
        &self,
        base: &RawVal,
        offset: i64,
        head: &Text,
        index: &Text,
        tail: &Text,
    ) -> Result<Inst, NoMemory>
        ensures { IfOk result (λ i. i ≡ Inst.Gep (value_of (scope_of self.now.m.now self.now.func.now) base.now) offset head.now index.now tail.now) }
    {
        Ok(Inst::Gep {
            base: self.value(base),
            offset,
            head: copy(self.alloc, head)?,
            index: copy(self.alloc, index)?,
            tail: copy(self.alloc, tail)?,
        })
    }

    fn step(
        &self,
        base: &RawVal,
        offset: i64,
        terms: &[RawIndex],
        head: &Text,
        index: &Text,
        tail: &Text,
    ) -> Result<Inst, NoMemory>
        ensures { IfOk result (λ i. i ≡ Inst.Step (value_of (scope_of self.now.m.now self.now.func.now) base.now) offset (map (index_of (scope_of self.now.m.now self.now.func.now)) terms.now) head.now index.now tail.now) }
    {
        Ok(Inst::Step {
            base: self.value(base),
            offset,
            head: copy(self.alloc, head)?,
            index: copy(self.alloc, index)?,
            tail: copy(self.alloc, tail)?,
            terms: self.terms(terms)?,
        })
    }

    fn load(&self, ty: Ty, ptr: &RawVal, tail: &Text) -> Result<Inst, NoMemory>
        ensures { IfOk result (λ i. i ≡ Inst.Load ty (value_of (scope_of self.now.m.now self.now.func.now) ptr.now) tail.now) }
    {
        Ok(Inst::Load {
            ty,
            ptr: self.value(ptr),
            tail: copy(self.alloc, tail)?,
        })
    }

    fn store(&self, ty: Ty, val: &RawVal, ptr: &RawVal, tail: &Text) -> Result<Inst, NoMemory>
        ensures { IfOk result (λ i. i ≡ Inst.Store ty (value_of (scope_of self.now.m.now self.now.func.now) val.now) (value_of (scope_of self.now.m.now self.now.func.now) ptr.now) tail.now) }
    {
        Ok(Inst::Store {
            ty,
            val: self.value(val),
            ptr: self.value(ptr),
            tail: copy(self.alloc, tail)?,
        })
    }

    // Its arguments come last: they have texts of their own.
    fn memcpy(
        &self,
        to: &RawArg,
        from: &RawArg,
        len: u32,
        head: &Text,
        post: &Text,
        tail: &Text,
    ) -> Result<Inst, NoMemory>
        ensures { IfOk result (λ i. i ≡ Inst.Copy (arg_of (scope_of self.now.m.now self.now.func.now) false to.now) (arg_of (scope_of self.now.m.now self.now.func.now) false from.now) len head.now (behind_blank post.now ++ tail.now)) }
    {
        Ok(Inst::Copy {
            len,
            head: copy(self.alloc, head)?,
            tail: ends(self.alloc, post, tail)?,
            to: self.arg(false, to)?,
            from: self.arg(false, from)?,
        })
    }

    // What a call may do: as its own attributes and those of its callee's line both say.
    fn effects(&self, f: u32, post: &Text) -> Result<Effects, NoMemory>
        ensures { IfOk result (λ e. e ≡ both ((scope_of self.now.m.now self.now.func.now).effects post.now) (effects_of_sig (sig_of (scope_of self.now.m.now self.now.func.now) f))) }
    {
        let own = effects_of(self.alloc, post, self.m.groups())?;
        Ok(in_both(own, self.effects_at(f)))
    }

    // A call of the function with this number.
    fn call_of(
        &self,
        f: u32,
        ret: Option<Ty>,
        args: &[RawArg],
        head: &Text,
        post: &Text,
        tail: &Text,
    ) -> Result<Inst, NoMemory>
        ensures { IfOk result (λ i. i ≡ Inst.Call (record { 0 = f }) ret (args_of (scope_of self.now.m.now self.now.func.now) (marks_of (sig_of (scope_of self.now.m.now self.now.func.now) f)) args.now)
            (both ((scope_of self.now.m.now self.now.func.now).effects post.now) (effects_of_sig (sig_of (scope_of self.now.m.now self.now.func.now) f))) head.now (behind_blank post.now ++ tail.now)) }
    {
        Ok(Inst::Call {
            callee: FuncNo(f),
            ret,
            effects: self.effects(f, post)?,
            head: copy(self.alloc, head)?,
            tail: ends(self.alloc, post, tail)?,
            args: self.args(self.marks_at(f), args)?,
        })
    }

    fn call(
        &self,
        callee: &Name,
        ret: Option<Ty>,
        args: &[RawArg],
        head: &Text,
        post: &Text,
        tail: &Text,
    ) -> Result<Inst, NoMemory>
        ensures { IfOk result (λ i. i ≡ inst_of (scope_of self.now.m.now self.now.func.now) (RawInst.Call callee.now ret args.now head.now post.now tail.now)) }
    {
        let f = func_named(self.m, callee).0;
        self.call_of(f, ret, args, head, post, tail)
    }

    fn bin(
        &self,
        op: Op,
        flags: Flags,
        ty: Ty,
        a: &RawVal,
        b: &RawVal,
        tail: &Text,
    ) -> Result<Inst, NoMemory>
        ensures { IfOk result (λ i. i ≡ Inst.Bin op flags ty (value_of (scope_of self.now.m.now self.now.func.now) a.now) (value_of (scope_of self.now.m.now self.now.func.now) b.now) tail.now) }
    {
        Ok(Inst::Bin {
            op,
            flags,
            ty,
            a: self.value(a),
            b: self.value(b),
            tail: copy(self.alloc, tail)?,
        })
    }

    fn cmp(
        &self,
        pred: Pred,
        flags: Flags,
        ty: Ty,
        a: &RawVal,
        b: &RawVal,
        tail: &Text,
    ) -> Result<Inst, NoMemory>
        ensures { IfOk result (λ i. i ≡ Inst.Cmp pred flags ty (value_of (scope_of self.now.m.now self.now.func.now) a.now) (value_of (scope_of self.now.m.now self.now.func.now) b.now) tail.now) }
    {
        Ok(Inst::Cmp {
            pred,
            flags,
            ty,
            a: self.value(a),
            b: self.value(b),
            tail: copy(self.alloc, tail)?,
        })
    }

    fn select(
        &self,
        cond: &RawVal,
        ty: Ty,
        a: &RawVal,
        b: &RawVal,
        tail: &Text,
    ) -> Result<Inst, NoMemory>
        ensures { IfOk result (λ i. i ≡ Inst.Select (value_of (scope_of self.now.m.now self.now.func.now) cond.now) ty (value_of (scope_of self.now.m.now self.now.func.now) a.now) (value_of (scope_of self.now.m.now self.now.func.now) b.now) tail.now) }
    {
        Ok(Inst::Select {
            cond: self.value(cond),
            ty,
            a: self.value(a),
            b: self.value(b),
            tail: copy(self.alloc, tail)?,
        })
    }

    fn cast(
        &self,
        op: CastOp,
        flags: Flags,
        from: Ty,
        a: &RawVal,
        to: Ty,
        tail: &Text,
    ) -> Result<Inst, NoMemory>
        ensures { IfOk result (λ i. i ≡ Inst.Cast op flags from (value_of (scope_of self.now.m.now self.now.func.now) a.now) to tail.now) }
    {
        Ok(Inst::Cast {
            op,
            flags,
            from,
            a: self.value(a),
            to,
            tail: copy(self.alloc, tail)?,
        })
    }

    fn phi(&self, ty: Ty, entries: &[RawEntry], tail: &Text) -> Result<Inst, NoMemory>
        ensures { IfOk result (λ i. i ≡ Inst.Phi ty (map (entry_of (scope_of self.now.m.now self.now.func.now)) entries.now) tail.now) }
    {
        Ok(Inst::Phi {
            tail: copy(self.alloc, tail)?,
            ty,
            entries: self.entries(entries)?,
        })
    }

    pub fn inst(&self, inst: &RawInst) -> Result<Inst, NoMemory>
        ensures { IfOk result (λ i. i ≡ inst_of (scope_of self.now.m.now self.now.func.now) inst.now) }
    {
        match inst {
            RawInst::Alloca { size, head, tail } => self.alloca(*size, head, tail),
            RawInst::Gep {
                base,
                offset,
                head,
                index,
                tail,
            } => self.gep(base, *offset, head, index, tail),
            RawInst::Step {
                base,
                offset,
                terms,
                head,
                index,
                tail,
            } => self.step(base, *offset, terms.as_slice(), head, index, tail),
            RawInst::Load { ty, ptr, tail } => self.load(*ty, ptr, tail),
            RawInst::Store { ty, val, ptr, tail } => self.store(*ty, val, ptr, tail),
            RawInst::Copy {
                to,
                from,
                len,
                head,
                post,
                tail,
            } => self.memcpy(to, from, *len, head, post, tail),
            RawInst::Call {
                callee,
                ret,
                args,
                head,
                post,
                tail,
            } => self.call(callee, *ret, args.as_slice(), head, post, tail),
            RawInst::Bin {
                op,
                flags,
                ty,
                a,
                b,
                tail,
            } => self.bin(*op, *flags, *ty, a, b, tail),
            RawInst::Cmp {
                pred,
                flags,
                ty,
                a,
                b,
                tail,
            } => self.cmp(*pred, *flags, *ty, a, b, tail),
            RawInst::Select {
                cond,
                ty,
                a,
                b,
                tail,
            } => self.select(cond, *ty, a, b, tail),
            RawInst::Cast {
                op,
                flags,
                from,
                a,
                to,
                tail,
            } => self.cast(*op, *flags, *from, a, *to, tail),
            RawInst::Phi { ty, entries, tail } => self.phi(*ty, entries.as_slice(), tail),
        }
    }
}
