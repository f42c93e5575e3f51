// The text of a module.
ghost use Rattle.std.specs.Prelude.{◌≡◌, ◌++◌, [], drop, OnOk, IfOk};
ghost use Rattle.ms_print.specs.Text.{item_text, items_text, gap, has_body, module_text};

use crate::notes::{NoteList, Notes};
use crate::text::{push_func, push_text};
use ms_ir::{Item, Module, NoMemory, Text};
use std::alloc::Global;

// Whether an item is a function with a body.
fn has_body(item: &Item) -> bool
    ensures { result ≡ has_body item.now }
{
    match item {
        Item::Kept(_) | Item::Global(..) | Item::Declared(..) => false,
        Item::Defined(_) => true,
    }
}

// The empty line between two items of which one is a function with a body.
fn push_gap(out: &mut Vec<u8>, before: Option<bool>, after: bool) -> Result<(), NoMemory>
    ensures { OnOk result (out.new.items ≡ out.old.items ++ gap before after) }
{
    match before {
        Some(before) => {
            if before || after {
                out.push(b'\n')?;
            }
        }
        None => {}
    }
    Ok(())
}

// The lines of an item.
fn push_item(out: &mut Vec<u8>, module: &Module, item: &Item) -> Result<(), NoMemory>
    ensures { OnOk result (out.new.items ≡ out.old.items ++ item_text module.now item.now) }
{
    match item {
        Item::Kept(text) | Item::Global(_, text) | Item::Declared(_, text) => push_text(out, text)?,
        Item::Defined(f) => match module.func(*f) {
            Some(func) => {
                let none = Notes {
                    phis: NoteList::new(*out.allocator()),
                    insts: NoteList::new(*out.allocator()),
                };
                push_func(out, func, module.names(), &none)?;
            }
            None => {}
        },
    }
    Ok(())
}

/// The text of a module, in which each line ends with 0x0A: its items in their order, a kept, global
/// or declare line as it is kept, and a function with a body as `print_func` writes it without notes.
/// Between two items stands an empty line exactly where one of them is a function with a body. The
/// text of a module without an item is empty. A function whose body is taken has no lines.
///
/// The only fault is want of memory.
pub fn print_module(alloc: Global, module: &Module) -> Result<Text, NoMemory>
    ensures { IfOk result (λ t. t ≡ module_text module.now) }
{
    module.whole();
    let mut out = Vec::new(alloc);
    let mut before = None;
    let mut n = 0;
    while let Some(item) = module.item(n) {
        let body = has_body(item);
        push_gap(&mut out, before, body)?;
        push_item(&mut out, module, item)?;
        before = Some(body);
        n += 1;
    }
    Ok(Text::from_vec(out))
}
