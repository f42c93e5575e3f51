// The meaning of one `memory(..)`.
ghost use Rattle.std.specs.Prelude.{◌≡◌, IfOk, option_map};
ghost use Rattle.ms_attrs.specs.Memory.{access_of, place_of, item_at, is_colon, is_comma, item_of, items_of, is_same, last_for, joined, all_joined, flags_with, flags_by, flags, everything, memory_flags, no_access};

use crate::part::Part;
use ms_ir::{Effects, NoMemory};
use std::alloc::Global;

#[derive(Clone, Copy)]
pub struct Access {
    pub read: bool,
    pub write: bool,
}

// The memory that an item speaks of.
#[derive(Clone, Copy)]
pub enum Place {
    // All that no other item speaks of.
    Default,
    // What the pointer arguments lead to.
    Argument,
    // What no pointer of the module reaches.
    Hidden,
    // Any other memory.
    Other,
}

#[derive(Clone, Copy)]
pub struct Item {
    pub place: Place,
    pub access: Access,
}

fn access_for(part: Part) -> Option<Access>
    ensures { result ≡ access_of part }
{
    let (read, write) = match part {
        Part::Nothing => (false, false),
        Part::Read => (true, false),
        Part::Write => (false, true),
        Part::ReadWrite => (true, true),
        _ => return None,
    };
    Some(Access { read, write })
}

fn place_for(part: Part) -> Option<Place>
    ensures { result ≡ place_of part }
{
    match part {
        Part::Argmem => Some(Place::Argument),
        Part::Inaccessiblemem => Some(Place::Hidden),
        Part::Memory
        | Part::Nocapture
        | Part::Captures
        | Part::Nothing
        | Part::Read
        | Part::Write
        | Part::ReadWrite
        | Part::Word => Some(Place::Other),
        _ => None,
    }
}

fn item_for(place: Place, kind: Part) -> Option<Item>
    ensures { result ≡ item_at place kind }
{
    let access = access_for(kind)?;
    Some(Item { place, access })
}

fn is_the_colon(part: Part) -> bool
    ensures { result ≡ is_colon part }
{
    match part {
        Part::Colon => true,
        _ => false,
    }
}

fn is_the_comma(part: Part) -> bool
    ensures { result ≡ is_comma part }
{
    match part {
        Part::Comma => true,
        _ => false,
    }
}

// The item that some parts are: a kind, or a word, a colon and a kind.
fn only_item(parts: &[Part]) -> Option<Item>
    ensures { result ≡ item_of parts.now }
{
    match parts.len() {
        1 => Some(item_for(Place::Default, parts[0])?),
        3 if is_the_colon(parts[1]) => Some(item_for(place_for(parts[0])?, parts[2])?),
        _ => None,
    }
}

// The items between the commas, if each is one.
fn items(alloc: Global, inner: &[Part]) -> Result<Option<Vec<Item>>, NoMemory>
    ensures { IfOk result (λ found. option_map (λ v. v.items) found ≡ items_of inner.now) }
{
    let mut list = Vec::new(alloc);
    for piece in inner.split(|part| is_the_comma(*part)) {
        match only_item(piece) {
            Some(next) => list.push(next)?,
            None => return Ok(None),
        }
    }
    Ok(Some(list))
}

fn are_same(a: Place, b: Place) -> bool
    ensures { result ≡ is_same a b }
{
    match (a, b) {
        (Place::Default, Place::Default) => true,
        (Place::Argument, Place::Argument) => true,
        (Place::Hidden, Place::Hidden) => true,
        (Place::Other, Place::Other) => true,
        _ => false,
    }
}

// The access of the last item for some memory, or another one where there is none.
fn last(place: Place, otherwise: Access, items: &[Item]) -> Access
    ensures { result ≡ last_for place otherwise items.now }
{
    let mut access = otherwise;
    for item in items {
        if are_same(item.place, place) {
            access = item.access;
        }
    }
    access
}

fn join(a: Access, b: Access) -> Access
    ensures { result ≡ joined a b }
{
    Access {
        read: a.read || b.read,
        write: a.write || b.write,
    }
}

// An access and those of all items for other memory.
fn join_all(default: Access, items: &[Item]) -> Access
    ensures { result ≡ all_joined default items.now }
{
    let mut access = default;
    for item in items {
        if are_same(item.place, Place::Other) {
            access = join(access, item.access);
        }
    }
    access
}

fn flags_of(items: &[Item]) -> Effects
    ensures { result ≡ flags items.now }
{
    let none = Access {
        read: false,
        write: false,
    };
    let default = last(Place::Default, none, items);
    let argument = last(Place::Argument, default, items);
    let other = join_all(default, items);
    let hidden = last(Place::Hidden, default, items);
    Effects {
        arg_read: argument.read,
        arg_write: argument.write,
        other_read: other.read,
        other_write: other.write,
        hidden_read: hidden.read,
        hidden_write: hidden.write,
    }
}

// All six flags.
pub fn all_flags() -> Effects
    ensures { result ≡ everything }
{
    Effects {
        arg_read: true,
        arg_write: true,
        other_read: true,
        other_write: true,
        hidden_read: true,
        hidden_write: true,
    }
}

// The flags that a `memory(..)` gives by what stands in its parentheses.
pub fn flags_inside(alloc: Global, inner: &[Part]) -> Result<Effects, NoMemory>
    ensures { IfOk result (λ effects. effects ≡ memory_flags inner.now) }
{
    match items(alloc, inner)? {
        Some(list) => Ok(flags_of(&list)),
        None => Ok(all_flags()),
    }
}
