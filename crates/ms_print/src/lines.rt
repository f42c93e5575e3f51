// The line of each thing in a function, under the names that are shown.
ghost use Rattle.std.specs.Prelude.{◌≡◌, ◌++◌, ◌∷◌, [], map, drop, slice_index_or, IfOk};
ghost use Rattle.ms_ir.specs.declared.names.Name.TheVariants.{Absent};
ghost use Rattle.ms_print.specs.Lines.{shown_by, local_by, label_of, word_at, raw_val, raw_arg, raw_entry, raw_index, raw_inst, raw_given, raw_term, result_name};

use crate::numbering::{Tables, copy_name};
use ms_grammar::{
    RawArg, RawArgs, RawEntries, RawEntry, RawIndex, RawInst, RawTerm, RawTerms, RawVal,
};
use ms_ir::{
    Arg, BlockNo, CastOp, Entry, Flags, FuncNo, GlobalNo, IndexTerm, Inst, LocalNo, Name, Names,
    NoMemory, Op, Pred, Term, Text, Ty, Val,
};
use std::alloc::Global;

fn copy(alloc: Global, text: &Text) -> Result<Text, NoMemory>
    ensures { IfOk result (λ t. t ≡ text.now) }
{
    Ok(Text::from_bytes(alloc, text.bytes())?)
}

fn name_at(alloc: Global, names: &[Name], at: usize) -> Result<Name, NoMemory>
    ensures { IfOk result (λ n. n ≡ slice_index_or names.now at Absent) }
{
    if at < names.len() {
        return Ok(copy_name(alloc, &names[at])?);
    }
    Ok(Name::Absent)
}

fn local(alloc: Global, tables: &Tables, l: LocalNo) -> Result<Name, NoMemory>
    ensures { IfOk result (λ n. n ≡ local_by tables.now l.0) }
{
    Ok(name_at(alloc, tables.locals.as_slice(), l.0 as usize)?)
}

pub fn label(alloc: Global, tables: &Tables, b: BlockNo) -> Result<Name, NoMemory>
    ensures { IfOk result (λ n. n ≡ slice_index_or tables.now.labels.items b.0 Absent) }
{
    Ok(name_at(alloc, tables.labels.as_slice(), b.0 as usize)?)
}

fn func_word(alloc: Global, names: &Names, f: FuncNo) -> Result<Name, NoMemory>
    ensures { IfOk result (λ n. n ≡ word_at names.now.funcs f.0) }
{
    match names.func_name(f) {
        Some(bytes) => Ok(Name::Word(Text::from_bytes(alloc, bytes)?)),
        None => Ok(Name::Word(Text::new(alloc))),
    }
}

fn global_word(alloc: Global, names: &Names, g: GlobalNo) -> Result<Name, NoMemory>
    ensures { IfOk result (λ n. n ≡ word_at names.now.globals g.0) }
{
    match names.global_name(g) {
        Some(bytes) => Ok(Name::Word(Text::from_bytes(alloc, bytes)?)),
        None => Ok(Name::Word(Text::new(alloc))),
    }
}

fn raw_val(alloc: Global, names: &Names, tables: &Tables, val: &Val) -> Result<RawVal, NoMemory>
    ensures { IfOk result (λ v. v ≡ raw_val (shown_by names.now tables.now) val.now) }
{
    match val {
        Val::Num(ty, n) => Ok(RawVal::Num(*ty, *n)),
        Val::Local(l) => Ok(RawVal::Local(local(alloc, tables, *l)?)),
        Val::Global(g) => Ok(RawVal::Global(global_word(alloc, names, *g)?)),
    }
}

fn raw_arg(alloc: Global, names: &Names, tables: &Tables, arg: &Arg) -> Result<RawArg, NoMemory>
    ensures { IfOk result (λ a. a ≡ raw_arg (shown_by names.now tables.now) arg.now) }
{
    Ok(RawArg {
        text: copy(alloc, &arg.text)?,
        ty: arg.ty,
        val: raw_val(alloc, names, tables, &arg.val)?,
    })
}

fn raw_args(
    alloc: Global,
    names: &Names,
    tables: &Tables,
    args: &[Arg],
) -> Result<RawArgs, NoMemory>
    ensures { IfOk result (λ r. r ≡ map (raw_arg (shown_by names.now tables.now)) args.now) }
{
    let mut raw = RawArgs::new(alloc);
    for arg in args {
        raw.push(raw_arg(alloc, names, tables, arg)?)?;
    }
    Ok(raw)
}

fn raw_entry(
    alloc: Global,
    names: &Names,
    tables: &Tables,
    entry: &Entry,
) -> Result<RawEntry, NoMemory>
    ensures { IfOk result (λ e. e ≡ raw_entry (shown_by names.now tables.now) entry.now) }
{
    Ok(RawEntry {
        val: raw_val(alloc, names, tables, &entry.val)?,
        from: label(alloc, tables, entry.from)?,
    })
}

fn raw_entries(
    alloc: Global,
    names: &Names,
    tables: &Tables,
    entries: &[Entry],
) -> Result<RawEntries, NoMemory>
    ensures { IfOk result (λ r. r ≡ map (raw_entry (shown_by names.now tables.now)) entries.now) }
{
    let mut raw = RawEntries::new(alloc);
    for entry in entries {
        raw.push(raw_entry(alloc, names, tables, entry)?)?;
    }
    Ok(raw)
}

fn raw_index(
    alloc: Global,
    names: &Names,
    tables: &Tables,
    term: &IndexTerm,
) -> Result<RawIndex, NoMemory>
    ensures { IfOk result (λ t. t ≡ raw_index (shown_by names.now tables.now) term.now) }
{
    Ok(RawIndex {
        val: raw_val(alloc, names, tables, &term.val)?,
        ty: term.ty,
        scale: term.scale,
    })
}

fn raw_terms(
    alloc: Global,
    names: &Names,
    tables: &Tables,
    terms: &[IndexTerm],
) -> Result<RawTerms, NoMemory>
    ensures { IfOk result (λ r. r ≡ map (raw_index (shown_by names.now tables.now)) terms.now) }
{
    let mut raw = RawTerms::new(alloc);
    for term in terms {
        raw.push(raw_index(alloc, names, tables, term)?)?;
    }
    Ok(raw)
}

// In each line the texts are copied first, since what was made before a copy that fails has to be dropped there, and the drop of a
// value has more steps than that of a text.
fn raw_alloca(alloc: Global, size: u32, head: &Text, tail: &Text) -> Result<RawInst, NoMemory>
    ensures { IfOk result (λ r. r ≡ RawInst.Alloca size head.now tail.now) }
{
    Ok(RawInst::Alloca {
        size,
        head: copy(alloc, head)?,
        tail: copy(alloc, tail)?,
    })
}

fn raw_gep(
    alloc: Global,
    names: &Names,
    tables: &Tables,
    base: &Val,
    offset: i64,
    head: &Text,
    index: &Text,
    tail: &Text,
) -> Result<RawInst, NoMemory>
    ensures { IfOk result (λ r. r ≡ RawInst.Gep (raw_val (shown_by names.now tables.now) base.now) offset head.now index.now tail.now) }
{
    Ok(RawInst::Gep {
        head: copy(alloc, head)?,
        index: copy(alloc, index)?,
        tail: copy(alloc, tail)?,
        base: raw_val(alloc, names, tables, base)?,
        offset,
    })
}

fn raw_step(
    alloc: Global,
    names: &Names,
    tables: &Tables,
    base: &Val,
    offset: i64,
    terms: &[IndexTerm],
    head: &Text,
    index: &Text,
    tail: &Text,
) -> Result<RawInst, NoMemory>
    ensures { IfOk result (λ r. r ≡ RawInst.Step (raw_val (shown_by names.now tables.now) base.now) offset (map (raw_index (shown_by names.now tables.now)) terms.now) head.now index.now tail.now) }
{
    Ok(RawInst::Step {
        head: copy(alloc, head)?,
        index: copy(alloc, index)?,
        tail: copy(alloc, tail)?,
        offset,
        base: raw_val(alloc, names, tables, base)?,
        terms: raw_terms(alloc, names, tables, terms)?,
    })
}

fn raw_load(
    alloc: Global,
    names: &Names,
    tables: &Tables,
    ty: Ty,
    ptr: &Val,
    tail: &Text,
) -> Result<RawInst, NoMemory>
    ensures { IfOk result (λ r. r ≡ RawInst.Load ty (raw_val (shown_by names.now tables.now) ptr.now) tail.now) }
{
    Ok(RawInst::Load {
        tail: copy(alloc, tail)?,
        ty,
        ptr: raw_val(alloc, names, tables, ptr)?,
    })
}

fn raw_store(
    alloc: Global,
    names: &Names,
    tables: &Tables,
    ty: Ty,
    val: &Val,
    ptr: &Val,
    tail: &Text,
) -> Result<RawInst, NoMemory>
    ensures { IfOk result (λ r. r ≡ RawInst.Store ty (raw_val (shown_by names.now tables.now) val.now) (raw_val (shown_by names.now tables.now) ptr.now) tail.now) }
{
    Ok(RawInst::Store {
        tail: copy(alloc, tail)?,
        ty,
        val: raw_val(alloc, names, tables, val)?,
        ptr: raw_val(alloc, names, tables, ptr)?,
    })
}

// What stands behind the arguments is all in the tail.
fn raw_copy(
    alloc: Global,
    names: &Names,
    tables: &Tables,
    to: &Arg,
    from: &Arg,
    len: u32,
    head: &Text,
    tail: &Text,
) -> Result<RawInst, NoMemory>
    ensures { IfOk result (λ r. r ≡ RawInst.Copy (raw_arg (shown_by names.now tables.now) to.now) (raw_arg (shown_by names.now tables.now) from.now) len head.now [] tail.now) }
{
    Ok(RawInst::Copy {
        head: copy(alloc, head)?,
        post: Text::new(alloc),
        tail: copy(alloc, tail)?,
        len,
        to: raw_arg(alloc, names, tables, to)?,
        from: raw_arg(alloc, names, tables, from)?,
    })
}

fn raw_call(
    alloc: Global,
    names: &Names,
    tables: &Tables,
    callee: FuncNo,
    ret: Option<Ty>,
    args: &[Arg],
    head: &Text,
    tail: &Text,
) -> Result<RawInst, NoMemory>
    ensures { IfOk result (λ r. r ≡ RawInst.Call (word_at names.now.funcs callee.0) ret (map (raw_arg (shown_by names.now tables.now)) args.now) head.now [] tail.now) }
{
    Ok(RawInst::Call {
        head: copy(alloc, head)?,
        post: Text::new(alloc),
        tail: copy(alloc, tail)?,
        ret,
        callee: func_word(alloc, names, callee)?,
        args: raw_args(alloc, names, tables, args)?,
    })
}

fn raw_bin(
    alloc: Global,
    names: &Names,
    tables: &Tables,
    op: Op,
    flags: Flags,
    ty: Ty,
    a: &Val,
    b: &Val,
    tail: &Text,
) -> Result<RawInst, NoMemory>
    ensures { IfOk result (λ r. r ≡ RawInst.Bin op flags ty (raw_val (shown_by names.now tables.now) a.now) (raw_val (shown_by names.now tables.now) b.now) tail.now) }
{
    Ok(RawInst::Bin {
        tail: copy(alloc, tail)?,
        op,
        flags,
        ty,
        a: raw_val(alloc, names, tables, a)?,
        b: raw_val(alloc, names, tables, b)?,
    })
}

fn raw_cmp(
    alloc: Global,
    names: &Names,
    tables: &Tables,
    pred: Pred,
    flags: Flags,
    ty: Ty,
    a: &Val,
    b: &Val,
    tail: &Text,
) -> Result<RawInst, NoMemory>
    ensures { IfOk result (λ r. r ≡ RawInst.Cmp pred flags ty (raw_val (shown_by names.now tables.now) a.now) (raw_val (shown_by names.now tables.now) b.now) tail.now) }
{
    Ok(RawInst::Cmp {
        tail: copy(alloc, tail)?,
        pred,
        flags,
        ty,
        a: raw_val(alloc, names, tables, a)?,
        b: raw_val(alloc, names, tables, b)?,
    })
}

fn raw_select(
    alloc: Global,
    names: &Names,
    tables: &Tables,
    cond: &Val,
    ty: Ty,
    a: &Val,
    b: &Val,
    tail: &Text,
) -> Result<RawInst, NoMemory>
    ensures { IfOk result (λ r. r ≡ RawInst.Select (raw_val (shown_by names.now tables.now) cond.now) ty (raw_val (shown_by names.now tables.now) a.now) (raw_val (shown_by names.now tables.now) b.now) tail.now) }
{
    Ok(RawInst::Select {
        tail: copy(alloc, tail)?,
        ty,
        cond: raw_val(alloc, names, tables, cond)?,
        a: raw_val(alloc, names, tables, a)?,
        b: raw_val(alloc, names, tables, b)?,
    })
}

fn raw_cast(
    alloc: Global,
    names: &Names,
    tables: &Tables,
    op: CastOp,
    flags: Flags,
    from: Ty,
    a: &Val,
    to: Ty,
    tail: &Text,
) -> Result<RawInst, NoMemory>
    ensures { IfOk result (λ r. r ≡ RawInst.Cast op flags from (raw_val (shown_by names.now tables.now) a.now) to tail.now) }
{
    Ok(RawInst::Cast {
        tail: copy(alloc, tail)?,
        op,
        flags,
        from,
        a: raw_val(alloc, names, tables, a)?,
        to,
    })
}

fn raw_phi(
    alloc: Global,
    names: &Names,
    tables: &Tables,
    ty: Ty,
    entries: &[Entry],
    tail: &Text,
) -> Result<RawInst, NoMemory>
    ensures { IfOk result (λ r. r ≡ RawInst.Phi ty (map (raw_entry (shown_by names.now tables.now)) entries.now) tail.now) }
{
    Ok(RawInst::Phi {
        tail: copy(alloc, tail)?,
        ty,
        entries: raw_entries(alloc, names, tables, entries)?,
    })
}

// An instruction as its line says it.
pub fn raw_inst(
    alloc: Global,
    names: &Names,
    tables: &Tables,
    inst: &Inst,
) -> Result<RawInst, NoMemory>
    ensures { IfOk result (λ r. r ≡ raw_inst (shown_by names.now tables.now) inst.now) }
{
    match inst {
        Inst::Alloca { size, head, tail } => raw_alloca(alloc, *size, head, tail),
        Inst::Gep {
            base,
            offset,
            head,
            index,
            tail,
        } => raw_gep(alloc, names, tables, base, *offset, head, index, tail),
        Inst::Step {
            base,
            offset,
            terms,
            head,
            index,
            tail,
        } => raw_step(
            alloc,
            names,
            tables,
            base,
            *offset,
            terms.as_slice(),
            head,
            index,
            tail,
        ),
        Inst::Load { ty, ptr, tail } => raw_load(alloc, names, tables, *ty, ptr, tail),
        Inst::Store { ty, val, ptr, tail } => raw_store(alloc, names, tables, *ty, val, ptr, tail),
        Inst::Copy {
            to,
            from,
            len,
            head,
            tail,
        } => raw_copy(alloc, names, tables, to, from, *len, head, tail),
        Inst::Call {
            callee,
            ret,
            args,
            effects: _,
            head,
            tail,
        } => raw_call(
            alloc,
            names,
            tables,
            *callee,
            *ret,
            args.as_slice(),
            head,
            tail,
        ),
        Inst::Bin {
            op,
            flags,
            ty,
            a,
            b,
            tail,
        } => raw_bin(alloc, names, tables, *op, *flags, *ty, a, b, tail),
        Inst::Cmp {
            pred,
            flags,
            ty,
            a,
            b,
            tail,
        } => raw_cmp(alloc, names, tables, *pred, *flags, *ty, a, b, tail),
        Inst::Select {
            cond,
            ty,
            a,
            b,
            tail,
        } => raw_select(alloc, names, tables, cond, *ty, a, b, tail),
        Inst::Cast {
            op,
            flags,
            from,
            a,
            to,
            tail,
        } => raw_cast(alloc, names, tables, *op, *flags, *from, a, *to, tail),
        Inst::Phi { ty, entries, tail } => {
            raw_phi(alloc, names, tables, *ty, entries.as_slice(), tail)
        }
    }
}

// The local that an instruction gives.
pub fn result_name(alloc: Global, tables: &Tables, given: Option<LocalNo>) -> Result<Name, NoMemory>
    ensures { IfOk result (λ n. n ≡ result_name (local_by tables.now) given) }
{
    match given {
        Some(l) => Ok(local(alloc, tables, l)?),
        None => Ok(Name::Absent),
    }
}

fn raw_given(
    alloc: Global,
    names: &Names,
    tables: &Tables,
    given: &Option<(Ty, Val)>,
) -> Result<Option<(Ty, RawVal)>, NoMemory>
    ensures { IfOk result (λ r. r ≡ raw_given (shown_by names.now tables.now) given.now) }
{
    match given {
        Some((ty, val)) => Ok(Some((*ty, raw_val(alloc, names, tables, val)?))),
        None => Ok(None),
    }
}

fn raw_br(alloc: Global, tables: &Tables, target: BlockNo, tail: &Text) -> Result<RawTerm, NoMemory>
    ensures { IfOk result (λ r. r ≡ RawTerm.Br (label_of tables.now.labels.items target.0) tail.now) }
{
    let tail = copy(alloc, tail)?;
    Ok(RawTerm::Br(label(alloc, tables, target)?, tail))
}

fn raw_cond_br(
    alloc: Global,
    names: &Names,
    tables: &Tables,
    cond: &Val,
    if_true: BlockNo,
    if_false: BlockNo,
    tail: &Text,
) -> Result<RawTerm, NoMemory>
    ensures { IfOk result (λ r. r ≡ RawTerm.CondBr (raw_val (shown_by names.now tables.now) cond.now) (label_of tables.now.labels.items if_true.0) (label_of tables.now.labels.items if_false.0) tail.now) }
{
    let tail = copy(alloc, tail)?;
    let to_true = label(alloc, tables, if_true)?;
    let to_false = label(alloc, tables, if_false)?;
    Ok(RawTerm::CondBr(
        raw_val(alloc, names, tables, cond)?,
        to_true,
        to_false,
        tail,
    ))
}

fn raw_ret(
    alloc: Global,
    names: &Names,
    tables: &Tables,
    given: &Option<(Ty, Val)>,
    tail: &Text,
) -> Result<RawTerm, NoMemory>
    ensures { IfOk result (λ r. r ≡ RawTerm.Ret (raw_given (shown_by names.now tables.now) given.now) tail.now) }
{
    let tail = copy(alloc, tail)?;
    Ok(RawTerm::Ret(raw_given(alloc, names, tables, given)?, tail))
}

// A terminator as its line says it.
pub fn raw_term(
    alloc: Global,
    names: &Names,
    tables: &Tables,
    term: &Term,
) -> Result<RawTerm, NoMemory>
    ensures { IfOk result (λ r. r ≡ raw_term (shown_by names.now tables.now) term.now) }
{
    match term {
        Term::Br(target, tail) => raw_br(alloc, tables, *target, tail),
        Term::CondBr(cond, if_true, if_false, tail) => {
            raw_cond_br(alloc, names, tables, cond, *if_true, *if_false, tail)
        }
        Term::Ret(given, tail) => raw_ret(alloc, names, tables, given, tail),
        Term::Unreachable(tail) => Ok(RawTerm::Unreachable(copy(alloc, tail)?)),
    }
}
