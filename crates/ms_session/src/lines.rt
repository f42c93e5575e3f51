// The lines of annotations.
ghost use Rattle.std.specs.Prelude.{◌≡◌, ◌<◌, ◌++◌, [], ℕ, length, drop, decimal, Some, slice_index_or, IfOk, IfSome, MatchOption, OnOk};
ghost use Rattle.ms_paths.specs.Flow.{IsReached};
ghost use Rattle.ms_ir.specs.declared.names.Name.TheVariants.{Absent};
ghost use Rattle.ms_ir.specs.Func.{Placed, IsAt, IsNowhere};
ghost use Rattle.ms_ir.specs.Inst.{kind_of_inst};
ghost use Rattle.ms_ir.specs.declared.inst.Kind.TheVariants.{Def, Reads};
ghost use Rattle.ms_flow.specs.Flow.{sources_of};
ghost use Rattle.ms_build.specs.Accesses.{event_of, operand_at, defining_at};
ghost use Rattle.ms_walk.specs.Pointed.{IsPointed};
ghost use Rattle.ms_print.specs.Text.{ended};
ghost use Rattle.ms_session.specs.Annotated.{access_text, note_of, block_in_entry, with_commas};
ghost use Rattle.ms_session.specs.Shown.{line_text, IsShownLine, operand_text, operand_texts, comma_text, members_text, phi_text, shown_phi};

use crate::numbers::{Numbers, is_reached};
use crate::uses::named_by_use;
use itoa::Buffer;
use ms_flow::Flow;
use ms_form::{Access, Form};
use ms_ir::{BlockNo, InstNo, Kind, Name, NoMemory, Steps, Text};
use ms_walk::Pointed;
use std::alloc::Global;

fn push_number(out: &mut Vec<u8>, n: usize) -> Result<(), NoMemory>
    ensures { OnOk result (out.new.items ≡ out.old.items ++ decimal n) }
{
    let mut buffer = Buffer::new();
    out.extend_from_slice(buffer.format(n).as_bytes())?;
    Ok(())
}

fn push_access(out: &mut Vec<u8>, numbers: &Numbers, access: Access) -> Result<(), NoMemory>
    ensures { OnOk result (out.new.items ≡ out.old.items ++ access_text numbers.now.all (event_of access)) }
{
    match access {
        Access::Entry => {
            out.extend_from_slice(b"liveOnEntry")?;
            Ok(())
        }
        Access::Of(i) => push_number(out, numbers.of_def(i)),
        Access::Phi(b) => push_number(out, numbers.of_phi(b)),
    }
}

fn def_line(alloc: Global, numbers: &Numbers, i: InstNo, before: Access) -> Result<Text, NoMemory>
    ensures { IfOk result (λ line. ended line ≡ note_of numbers.now.all (event_of before) i.0 Def) }
{
    let mut out = Vec::new(alloc);
    out.extend_from_slice(b"; ")?;
    push_number(&mut out, numbers.of_def(i))?;
    out.extend_from_slice(b" = MemoryDef(")?;
    push_access(&mut out, numbers, before)?;
    out.push(b')')?;
    Ok(Text::from_vec(out))
}

fn use_line(alloc: Global, numbers: &Numbers, before: Access) -> Result<Text, NoMemory>
    ensures { IfOk result (λ line. (i : ℕ) → ended line ≡ note_of numbers.now.all (event_of before) i Reads) }
{
    let mut out = Vec::new(alloc);
    out.extend_from_slice(b"; MemoryUse(")?;
    push_access(&mut out, numbers, before)?;
    out.push(b')')?;
    Ok(Text::from_vec(out))
}

/// The line of an instruction, if it names an access.
pub fn inst_line(
    alloc: Global,
    of: &Pointed,
    numbers: &Numbers,
    i: InstNo,
) -> Result<Option<Text>, NoMemory>
    requires { IsPointed of.now.func.now of.now.flow.now.graph of.now.form.now of.now.alias.now }
    ensures { IfOk result (λ line. (b place : ℕ) (x : Placed) → IsAt of.now.func.now.blocks i.0 b place x →
        IsShownLine of.now.func.now numbers.now.all b place x (defining_at of.now.form.now i.0) (kind_of_inst x.inst) (line_text line)) }
{
    of.func.numbered();
    ms_flow::laws::same_paths();
    ms_flow::laws::order_told();
    let last = match of.form.defining(i) {
        Some(last) => last,
        None => return Ok(None),
    };
    match of.func.kind(i) {
        Some(Kind::Def) => Ok(Some(def_line(alloc, numbers, i, last)?)),
        Some(Kind::Reads) => {
            let clobber = named_by_use(alloc, of, i)?;
            Ok(Some(use_line(alloc, numbers, clobber)?))
        }
        Some(Kind::Neither) => Ok(None),
        None => Ok(None),
    }
}

fn push_block(out: &mut Vec<u8>, label: &Name) -> Result<(), NoMemory>
    ensures { OnOk result (out.new.items ≡ out.old.items ++ block_in_entry label.now) }
{
    match label {
        Name::Word(text) => {
            out.extend_from_slice(text.bytes())?;
            Ok(())
        }
        Name::Number(n) => {
            out.push(b'%')?;
            push_number(out, *n as usize)
        }
        Name::Absent => Ok(()),
    }
}

fn push_label(out: &mut Vec<u8>, labels: &[Name], b: BlockNo) -> Result<(), NoMemory>
    ensures { OnOk result (out.new.items ≡ out.old.items ++ block_in_entry (slice_index_or labels.now b.0 Absent)) }
{
    if (b.0 as usize) < labels.len() {
        push_block(out, &labels[b.0 as usize])?;
    }
    Ok(())
}

// The entry of a phi for an edge from a block.
fn push_operand(
    out: &mut Vec<u8>,
    labels: &[Name],
    numbers: &Numbers,
    from: BlockNo,
    operand: Option<Access>,
) -> Result<(), NoMemory>
    ensures { OnOk result (out.new.items ≡ out.old.items ++ operand_text labels.now numbers.now.all from.0 operand) }
{
    match operand {
        Some(access) => {
            out.push(b'{')?;
            push_label(out, labels, from)?;
            out.push(b',')?;
            push_access(out, numbers, access)?;
            out.push(b'}')?;
            Ok(())
        }
        None => Ok(()),
    }
}

// A comma before each list member but the first.
fn push_comma(out: &mut Vec<u8>, slot: u32) -> Result<(), NoMemory>
    ensures { OnOk result (out.new.items ≡ out.old.items ++ comma_text slot) }
{
    if slot > 0 {
        out.push(b',')?;
    }
    Ok(())
}

// The entries of a phi.
fn push_operands(
    out: &mut Vec<u8>,
    labels: &[Name],
    numbers: &Numbers,
    flow: &Flow,
    form: &Form,
    b: BlockNo,
    steps: &mut Steps,
) -> Result<(), NoMemory>
    requires block { b.0 < length flow.now.graph }
    requires reached { IsReached flow.now.graph b.0 }
    ensures { OnOk result (out.new.items ≡ out.old.items ++ with_commas (operand_texts labels.now numbers.now.all form.now b.0 0 (sources_of flow.now.graph b.0))) }
{
    for slot in 0..flow.pred_count(b) {
        let edge = flow.pred(b, slot, steps);
        push_comma(out, slot)?;
        push_operand(out, labels, numbers, edge.from, form.operand(b, slot))?;
    }
    Ok(())
}

// The line of a block's phi.
fn operands_line(
    alloc: Global,
    labels: &[Name],
    numbers: &Numbers,
    flow: &Flow,
    form: &Form,
    b: BlockNo,
) -> Result<Text, NoMemory>
    requires block { b.0 < length flow.now.graph }
    requires reached { IsReached flow.now.graph b.0 }
    ensures { IfOk result (λ line. ended line ≡ phi_text labels.now numbers.now.all flow.now.graph form.now b.0) }
{
    let mut steps = Steps::new(alloc)?;
    let mut out = Vec::new(alloc);
    out.extend_from_slice(b"; ")?;
    push_number(&mut out, numbers.of_phi(b))?;
    out.extend_from_slice(b" = MemoryPhi(")?;
    push_operands(&mut out, labels, numbers, flow, form, b, &mut steps)?;
    out.push(b')')?;
    Ok(Text::from_vec(out))
}

/// The line at a block, if it has a phi and is reached.
pub fn phi_line(
    alloc: Global,
    labels: &[Name],
    numbers: &Numbers,
    flow: &Flow,
    form: &Form,
    b: BlockNo,
) -> Result<Option<Text>, NoMemory>
    requires { b.0 < length flow.now.graph }
    ensures { IfOk result (λ line. line_text line ≡ shown_phi labels.now numbers.now.all flow.now.graph form.now b.0) }
{
    if is_reached(flow, b) && form.phi_at(b) {
        return Ok(Some(operands_line(alloc, labels, numbers, flow, form, b)?));
    }
    Ok(None)
}
