// The names under which a function's parameters, blocks and results are printed.
ghost use Rattle.std.specs.Prelude.{◌≡◌, ◌<◌, ◌≤◌, ◌+◌, ◌-◌, ◌^◌, ◌∷◌, ◌++◌, [], ℕ, length, drop, map, slice_index_or, slice_get, vec_len, is_some, option_map, if◌then◌else◌, IfOk, OnOk, IfSome};
ghost use Rattle.ms_ir.specs.declared.names.Name.TheVariants.{Absent};
ghost use Rattle.ms_ir.specs.Func.{insts_at, no_block, placed_as};
ghost use Rattle.ms_print.specs.Numbering.{numbered, shown_name, free_after, shown_params, free_after_params, free_after_insts, free_after_block, is_given, name_among, name_of_param, local_name, labels_of};

use crate::walk::{Walk, first_of, step};
use itoa::Buffer;
use ms_ir::{BlockNo, Func, Name, NoMemory, Node, Param, Params, Text};
use std::alloc::Global;

// The printed names of a function's locals and blocks, by their numbers.
#[derive(Drop)]
pub struct Tables {
    pub locals: Vec<Name>,
    pub labels: Vec<Name>,
}

// A name once more.
pub fn copy_name(alloc: Global, name: &Name) -> Result<Name, NoMemory>
    ensures { IfOk result (λ n. n ≡ name.now) }
{
    match name {
        Name::Word(text) => Ok(Name::Word(Text::from_bytes(alloc, text.bytes())?)),
        Name::Number(n) => Ok(Name::Number(*n)),
        Name::Absent => Ok(Name::Absent),
    }
}

fn numbered(alloc: Global, n: u64) -> Result<Name, NoMemory>
    ensures { IfOk result (λ name. name ≡ numbered n) }
{
    if n < 1 << 32 {
        return Ok(Name::Number(n as u32));
    }
    let mut buffer = Buffer::new();
    Ok(Name::Word(Text::from_bytes(alloc, buffer.format(n).as_bytes())?))
}

// The printed name, where this number is the next free one.
fn shown_name(alloc: Global, next: u64, name: &Name) -> Result<Name, NoMemory>
    ensures { IfOk result (λ n. n ≡ shown_name next name.now) }
{
    match name {
        Name::Word(text) => Ok(Name::Word(Text::from_bytes(alloc, text.bytes())?)),
        Name::Number(_) | Name::Absent => Ok(numbered(alloc, next)?),
    }
}

fn free_after(next: u64, name: &Name) -> u64
    requires { next < 2 ^ 64 - 1 }
    ensures { result ≡ free_after next name.now }
{
    match name {
        Name::Word(_) => next,
        Name::Number(_) | Name::Absent => next + 1,
    }
}

// A parameter with its printed name.
fn shown_param(alloc: Global, next: u64, param: &Param) -> Result<Param, NoMemory>
    ensures { IfOk result (λ p. p ≡ record param.now { name = shown_name next param.now.name }) }
{
    Ok(Param {
        ty: param.ty,
        text: Text::from_bytes(alloc, param.text.bytes())?,
        name: shown_name(alloc, next, &param.name)?,
    })
}

// The parameters with their printed names, and the next free number.
pub fn shown_params(alloc: Global, params: &[Param]) -> Result<(Params, u64), NoMemory>
    requires { length params.now < 2 ^ 32 }
    ensures params { IfOk result (λ r. r.0 ≡ shown_params 0 params.now) }
    ensures next { IfOk result (λ r. r.1 ≡ free_after_params 0 params.now) }
    ensures few { IfOk result (λ r. r.1 < 2 ^ 32) }
{
    let mut shown = Params::new(alloc);
    let mut next = 0;
    for param in params {
        shown.push(shown_param(alloc, next, param)?)?;
        next = free_after(next, &param.name);
    }
    Ok((shown, next))
}

// Notes the name of an instruction's result, and answers the next free number.
fn name_result(
    alloc: Global,
    locals: &mut Vec<Name>,
    node: &Node,
    next: u64,
) -> Result<u64, NoMemory>
    requires room { IfSome node.now.result (λ l. l.0 < vec_len locals.old) }
    requires few { next < 2 ^ 64 - 1 }
    ensures len { OnOk result (vec_len locals.new ≡ vec_len locals.old) }
    ensures names { OnOk result ((l : ℕ) → slice_index_or locals.new.items l Absent
        ≡ (if is_given node.now.result l then shown_name next node.now.name else slice_index_or locals.old.items l Absent)) }
    ensures next { IfOk result (λ r. r ≡ (if is_some node.now.result then free_after next node.now.name else next)) }
{
    match node.result {
        Some(local) => {
            locals[local.0 as usize] = shown_name(alloc, next, &node.name)?;
            Ok(free_after(next, &node.name))
        }
        None => Ok(next),
    }
}

// Notes the names of a block's results, and answers the next free number.
fn name_insts(
    alloc: Global,
    func: &Func,
    b: BlockNo,
    locals: &mut Vec<Name>,
    next: u64,
) -> Result<u64, NoMemory>
    requires block { b.0 < length func.now.blocks }
    requires locals { vec_len locals.old ≡ func.now.locals }
    requires few { next < 2 ^ 64 - 2 ^ 32 }
    ensures len { OnOk result (vec_len locals.new ≡ vec_len locals.old) }
    ensures names { OnOk result ((l : ℕ) → slice_index_or locals.new.items l Absent
        ≡ name_among next (insts_at func.now.blocks b.0) l (slice_index_or locals.old.items l Absent)) }
    ensures next { IfOk result (λ r. r ≡ free_after_insts next (insts_at func.now.blocks b.0)) }
    ensures few { IfOk result (λ r. r < next + 2 ^ 32) }
{
    func.numbered();
    let mut free = next;
    let mut walk = first_of(func, b);
    for place in 0..func.count(b) {
        let (_, node, after) = step(func, walk);
        free = name_result(alloc, locals, node, free)?;
        walk = after;
    }
    Ok(free)
}

// Notes the names of a block and of its results, and answers the next free number.
fn name_block(
    alloc: Global,
    func: &Func,
    b: BlockNo,
    tables: &mut Tables,
    next: u64,
) -> Result<u64, NoMemory>
    requires block { b.0 < length func.now.blocks }
    requires locals { vec_len tables.old.locals ≡ func.now.locals }
    requires few { next < 2 ^ 63 + 2 ^ 32 }
    ensures len { OnOk result (vec_len tables.new.locals ≡ vec_len tables.old.locals) }
    ensures names { OnOk result ((l : ℕ) → slice_index_or tables.new.locals.items l Absent
        ≡ name_among (free_after next (slice_index_or func.now.blocks b.0 no_block).name) (insts_at func.now.blocks b.0) l (slice_index_or tables.old.locals.items l Absent)) }
    ensures labels { OnOk result (tables.new.labels.items ≡ tables.old.labels.items ++ shown_name next (slice_index_or func.now.blocks b.0 no_block).name ∷ []) }
    ensures next { IfOk result (λ r. r ≡ free_after_block next (slice_index_or func.now.blocks b.0 no_block)) }
    ensures few { IfOk result (λ r. r ≤ next + 2 ^ 32) }
{
    let name = match func.block_name(b) {
        Some(name) => name,
        None => unreachable!(),
    };
    tables.labels.push(shown_name(alloc, next, name)?)?;
    name_insts(alloc, func, b, &mut tables.locals, free_after(next, name))
}

// The names of the parameters, and nothing for each other local so far.
fn param_names(alloc: Global, func: &Func, params: &[Param]) -> Result<Vec<Name>, NoMemory>
    requires { length params.now ≤ func.now.locals }
    ensures len { IfOk result (λ v. vec_len v ≡ func.now.locals) }
    ensures names { IfOk result (λ v. (l : ℕ) → slice_index_or v.items l Absent ≡ slice_index_or (map name_of_param params.now) l Absent) }
{
    let mut names = Vec::new(alloc);
    for param in params {
        names.push(copy_name(alloc, &param.name)?)?;
    }
    for rest in params.len() as u64..func.local_count() {
        names.push(Name::Absent)?;
    }
    Ok(names)
}

// The names of a function's locals and blocks, where the parameters have these names and this is the next free number.
pub fn tables_of(
    alloc: Global,
    func: &Func,
    params: &[Param],
    next: u64,
) -> Result<Tables, NoMemory>
    requires params { params.now ≡ shown_params 0 func.now.params }
    requires next { next ≡ free_after_params 0 func.now.params }
    requires few { next < 2 ^ 32 }
    ensures locals { IfOk result (λ t. (l : ℕ) → slice_index_or t.locals.items l Absent ≡ local_name func.now l) }
    ensures labels { IfOk result (λ t. t.labels.items ≡ labels_of func.now) }
{
    func.numbered();
    let mut tables = Tables {
        locals: param_names(alloc, func, params)?,
        labels: Vec::new(alloc),
    };
    let mut free = next;
    for b in 0..func.block_count() {
        free = name_block(alloc, func, BlockNo(b), &mut tables, free)?;
    }
    Ok(tables)
}
