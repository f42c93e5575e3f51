// Whether a pointer may be kept.
ghost use Rattle.std.specs.Prelude.{◌≡◌, map, not, IfOk};
ghost use Rattle.std.specs.List.{list_any};
ghost use Rattle.ms_attrs.specs.Outer.{argument, outer};
ghost use Rattle.ms_attrs.specs.Captures.{is_nothing, releases, IsKeepsOf};

use crate::outer::{argument_of, depth_after};
use crate::part::Part;
use crate::texts::{parts_of, tokens_of};
use ms_ir::{NoMemory, Text};
use std::alloc::Global;

fn is_none_alone(parts: &[Part]) -> bool
    ensures { result ≡ is_nothing parts.now }
{
    match parts {
        [Part::Nothing] => true,
        _ => false,
    }
}

// Whether a part says that the pointer is not kept, by the parts behind it.
fn releases_at(part: Part, behind: &[Part]) -> bool
    ensures { result ≡ releases part (argument behind.now) }
{
    match (part, argument_of(behind)) {
        (Part::Nocapture, None) => true,
        (Part::Captures, Some(inner)) => is_none_alone(inner),
        _ => false,
    }
}

// Whether one of the parts outside all brackets says so.
fn is_released_among(parts: &[Part]) -> bool
    ensures { result ≡ list_any (λ p. releases p.0 p.1) (outer 0 parts.now) }
{
    let mut depth = 0;
    for (at, part) in parts.iter().enumerate() {
        if depth == 0 && releases_at(*part, &parts[at + 1..]) {
            return true;
        }
        depth = depth_after(depth, *part);
    }
    false
}

fn keeps_in(alloc: Global, line: &[u8]) -> Result<bool, NoMemory>
    ensures { IfOk result (λ keeps. IsKeepsOf line.now keeps) }
{
    let tokens = tokens_of(alloc, line)?;
    let parts = parts_of(alloc, line, tokens.as_slice())?;
    Ok(!is_released_among(parts.as_slice()))
}

/// Whether the attributes of a pointer parameter leave it open that the pointer is kept.
///
/// False exactly where `nocapture` or `captures(none)` stands outside all brackets; `nocapture(..)`, other arguments of `captures`
/// and groups say nothing. A text in which some byte begins no token has no attributes. That the parameter is a pointer is the
/// caller's to know. The only fault is want of memory, which also is the answer for a text of 2^32 bytes or more. The time is
/// linear in the length of the text.
pub fn keeps_by(alloc: Global, attrs: &Text) -> Result<bool, NoMemory>
    ensures { IfOk result (λ keeps. IsKeepsOf attrs.now keeps) }
{
    Ok(keeps_in(alloc, attrs.bytes())?)
}
