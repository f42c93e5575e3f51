// The flags that the attributes of a line give.
ghost use Rattle.std.specs.Prelude.{◌≡◌, ◌≤◌, ℕ, List, All, IfOk, option_map, drop};
ghost use Rattle.std.specs.Option.{option_copied};
ghost use Rattle.ms_lex.specs.Line.{IsTokenOf};
ghost use Rattle.ms_attrs.specs.Outer.{argument, outer};
ghost use Rattle.ms_attrs.specs.Parts.{part_of};
ghost use Rattle.ms_attrs.specs.Texts.{texts_of, CutsLines};
ghost use Rattle.ms_attrs.specs.Effects.{both, all_given, given_by, given, name_in, named, line_of, line_given, group_given, groups_given, IsEffectsOf};

use crate::memory::{all_flags, flags_inside};
use crate::outer::{argument_of, depth_after, inside};
use crate::part::Part;
use crate::texts::{part_at, parts_of, text_at, tokens_of};
use itoa::Buffer;
use ms_ir::{Effects, Groups, NoMemory, Text};
use ms_lex::Token;
use std::alloc::Global;

// The flags that two give.
fn in_both(a: Effects, b: Effects) -> Effects
    ensures { result ≡ both a b }
{
    Effects {
        arg_read: a.arg_read && b.arg_read,
        arg_write: a.arg_write && b.arg_write,
        other_read: a.other_read && b.other_read,
        other_write: a.other_write && b.other_write,
        hidden_read: a.hidden_read && b.hidden_read,
        hidden_write: a.hidden_write && b.hidden_write,
    }
}

// What a part gives, by the parts behind it.
fn given_at(alloc: Global, part: Part, behind: &[Part]) -> Result<Effects, NoMemory>
    ensures { IfOk result (λ effects. effects ≡ given_by part (argument behind.now)) }
{
    match part {
        Part::Memory => match argument_of(behind) {
            Some(inner) => Ok(flags_inside(alloc, inner)?),
            None => Ok(all_flags()),
        },
        _ => Ok(all_flags()),
    }
}

// What each `memory(..)` outside all brackets gives.
#[tactic(auto, using(crate::proofs::EffectLemmas::both_assoc))]
fn given_among(alloc: Global, parts: &[Part]) -> Result<Effects, NoMemory>
    ensures { IfOk result (λ effects. effects ≡ all_given (outer 0 parts.now)) }
{
    let mut effects = all_flags();
    let mut depth = 0;
    for (at, part) in parts.iter().enumerate() {
        if depth == 0 {
            effects = in_both(effects, given_at(alloc, *part, &parts[at + 1..])?);
        }
        depth = depth_after(depth, *part);
    }
    Ok(effects)
}

// The first line of the group with these digits.
fn line_for<'a>(groups: &'a Groups, digits: &[u8]) -> Option<&'a Text>
    ensures { option_copied result ≡ option_map (λ g. g.1) (line_of groups.now digits.now) }
{
    for group in groups.as_slice() {
        let mut buffer = Buffer::new();
        if buffer.format(group.0).as_bytes() == digits {
            return Some(&group.1);
        }
    }
    None
}

// What stands behind the first four parts.
fn behind_four(parts: &[Part]) -> &[Part]
    ensures { result.now ≡ drop 4 parts.now }
{
    if parts.len() < 4 { &[] } else { &parts[4..] }
}

// What a group gives by its line.
fn given_by_line(alloc: Global, line: &[u8]) -> Result<Effects, NoMemory>
    ensures { (cut : List ℕ → List (List ℕ)) → CutsLines cut
        → IfOk result (λ effects. effects ≡ line_given (cut line.now)) }
{
    let tokens = tokens_of(alloc, line)?;
    let parts = parts_of(alloc, line, tokens.as_slice())?;
    let inner = inside(behind_four(parts.as_slice()));
    Ok(given_among(alloc, inner)?)
}

// What the group with these digits gives.
fn given_by_group(alloc: Global, groups: &Groups, digits: &[u8]) -> Result<Effects, NoMemory>
    ensures { (cut : List ℕ → List (List ℕ)) → CutsLines cut
        → IfOk result (λ effects. effects ≡ group_given cut groups.now digits.now) }
{
    match line_for(groups, digits) {
        Some(line) => Ok(given_by_line(alloc, line.bytes())?),
        None => Ok(all_flags()),
    }
}

// What a token gives as a group's name.
fn given_by_name(alloc: Global, groups: &Groups, text: &[u8]) -> Result<Effects, NoMemory>
    ensures { (cut : List ℕ → List (List ℕ)) → CutsLines cut
        → IfOk result (λ effects. effects ≡ groups_given cut groups.now (name_in text.now)) }
{
    match text {
        [b'#', digits @ ..] => Ok(in_both(given_by_group(alloc, groups, digits)?, all_flags())),
        _ => Ok(all_flags()),
    }
}

// What the groups give that are named outside all brackets.
#[tactic(auto, using(crate::proofs::EffectLemmas::both_assoc, crate::proofs::EffectLemmas::groups_given_append))]
fn given_by_groups(
    alloc: Global,
    line: &[u8],
    tokens: &[Token],
    groups: &Groups,
) -> Result<Effects, NoMemory>
    requires { All (IsTokenOf line.now) tokens.now }
    ensures { (cut : List ℕ → List (List ℕ)) → CutsLines cut
        → IfOk result (λ effects. effects ≡ groups_given cut groups.now (named 0 (texts_of line.now tokens.now))) }
{
    let mut effects = all_flags();
    let mut depth = 0;
    for token in tokens {
        if depth == 0 {
            effects = in_both(effects, given_by_name(alloc, groups, text_at(line, token))?);
        }
        depth = depth_after(depth, part_at(line, token));
    }
    Ok(effects)
}

// What the attributes of a line give by themselves and by the groups that they name.
fn effects_in(alloc: Global, line: &[u8], groups: &Groups) -> Result<Effects, NoMemory>
    ensures { IfOk result (λ effects. IsEffectsOf line.now groups.now effects) }
{
    let tokens = tokens_of(alloc, line)?;
    let parts = parts_of(alloc, line, tokens.as_slice())?;
    let own = given_among(alloc, parts.as_slice())?;
    let grouped = given_by_groups(alloc, line, tokens.as_slice(), groups)?;
    Ok(in_both(own, grouped))
}

/// The flags that the attributes of a function or call give.
///
/// Of each `memory(..)` outside all brackets the items tell the flags. `none`, `read`, `write` and `readwrite` are the default for
/// all memory, which is `none` where no item is one; `argmem: KIND` tells of arguments, `inaccessiblemem: KIND` of hidden memory,
/// and any other word before a kind joins the kind to that of other memory. The default is taken first, wherever it stands, and the
/// last of several items for one place counts. A `memory(..)` without an item, or of another form, gives all six flags. Only the
/// flags that each `memory(..)` gives count; without one all six do.
///
/// A group outside all brackets stands for what is between the outer braces of its first line in `groups`, where a group stands for
/// nothing; one without a line says nothing. A text in which some byte begins no token has no attributes.
///
/// The only fault is want of memory, which also is the answer for a text of 2^32 bytes or more. The time is linear in the length
/// of what the attributes stand for, and in the number of groups for each one that is named.
pub fn effects_by(alloc: Global, post: &Text, groups: &Groups) -> Result<Effects, NoMemory>
    ensures { IfOk result (λ effects. IsEffectsOf post.now groups.now effects) }
{
    Ok(effects_in(alloc, post.bytes(), groups)?)
}
