// The columns of a root.
ghost use Rattle.std.specs.Prelude.{◌≡◌, ◌↔◌, ◌++◌, ℤ, OnOk, IfOk, Contains};
ghost use Rattle.std.specs.Ordering.{int_cmp};
ghost use Rattle.std.specs.List.Sorted.{IsStrictlySortedBy};
ghost use Rattle.ms_alias.specs.Tables.{IsAliasOf};
ghost use Rattle.ms_live.specs.Columns.{HasColumns};
ghost use Rattle.ms_effects.specs.Columns.{starts_of, bounds_of, AreAdded, IsColumnBy, IsColumn};

use crate::effect::{Span, range_of};
use ms_alias::{Alias, Root};
use ms_ir::{Func, InstNo, NoMemory};
use std::alloc::Global;

// Where a range begins is appended.
fn push_start(span: Option<Span>, columns: &mut Vec<i128>) -> Result<(), NoMemory>
    ensures { OnOk result (columns.new.items ≡ columns.old.items ++ starts_of span) }
{
    if let Some(s) = span {
        columns.push(s.from as i128)?;
    }
    Ok(())
}

// Where a range begins and where it ends are appended.
fn push_bounds(span: Option<Span>, columns: &mut Vec<i128>) -> Result<(), NoMemory>
    ensures { OnOk result (columns.new.items ≡ columns.old.items ++ bounds_of span) }
{
    if let Some(s) = span {
        let from = s.from as i128;
        columns.push(from)?;
        columns.push(from + s.len as i128)?;
    }
    Ok(())
}

// The columns that an instruction makes are appended.
fn add_columns(
    func: &Func,
    alias: &Alias,
    i: InstNo,
    root: Root,
    columns: &mut Vec<i128>,
) -> Result<(), NoMemory>
    requires { IsAliasOf func.now alias.now }
    ensures { OnOk result (AreAdded (IsColumnBy func.now i root) columns.old.items columns.new.items) }
{
    push_start(range_of(alias.reads(func, i), root), columns)?;
    push_bounds(range_of(alias.writes(func, i), root), columns)?;
    Ok(())
}

// The columns in the order of the instructions.
fn all_columns(alloc: Global, func: &Func, alias: &Alias, root: Root) -> Result<Vec<i128>, NoMemory>
    requires { IsAliasOf func.now alias.now }
    ensures { IfOk result (λ v. (c : ℤ) → Contains v.items c ↔ IsColumn func.now root c) }
{
    func.numbered();
    let mut columns = Vec::new(alloc);
    for i in 0..func.made() {
        add_columns(func, alias, InstNo(i), root, &mut columns)?;
    }
    Ok(columns)
}

// Sorts numbers, and leaves one of each.
fn put_in_order(columns: &mut Vec<i128>)
    ensures sorted { IsStrictlySortedBy int_cmp columns.new.items }
    ensures same { (c : ℤ) → Contains columns.new.items c ↔ Contains columns.old.items c }
{
    columns.sort_unstable();
    columns.dedup();
}

/// The columns of a root, in their order and each once: where a range begins that an instruction reads or writes through the root, and where one ends
/// that it writes. `Err` comes only where memory is wanting.
pub fn columns_of(
    alloc: Global,
    func: &Func,
    alias: &Alias,
    root: Root,
) -> Result<Vec<i128>, NoMemory>
    requires { IsAliasOf func.now alias.now }
    ensures sorted { IfOk result (λ v. IsStrictlySortedBy int_cmp v.items) }
    ensures exactly { IfOk result (λ v. (c : ℤ) → Contains v.items c ↔ IsColumn func.now root c) }
    ensures columns { IfOk result (λ v. HasColumns func.now root v.items) }
{
    let mut columns = all_columns(alloc, func, alias, root)?;
    put_in_order(&mut columns);
    Ok(columns)
}
