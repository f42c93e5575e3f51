// What stands outside all brackets, and what stands in the parentheses behind it.
ghost use Rattle.std.specs.Prelude.{◌≡◌, ◌<◌, ◌≤◌, ◌+◌, ◌^◌, length};
ghost use Rattle.std.specs.Option.{option_copied};
ghost use Rattle.ms_attrs.specs.Outer.{depth_behind, closes, inside, argument};

use crate::part::Part;

// How many brackets are open behind a part, of so many before it.
pub fn depth_after(depth: usize, part: Part) -> usize
    requires { depth + 1 < 2 ^ 64 }
    ensures value { result ≡ depth_behind depth part }
    ensures bound { result ≤ depth + 1 }
{
    match part {
        Part::Parenthesis | Part::Bracket => depth + 1,
        Part::Closing => depth.saturating_sub(1),
        _ => depth,
    }
}

fn is_closing(part: Part) -> bool
    ensures { result ≡ closes part }
{
    match part {
        Part::Closing => true,
        _ => false,
    }
}

// What stands before the closing bracket that closes none of these.
pub fn inside(parts: &[Part]) -> &[Part]
    ensures { result.now ≡ inside 0 parts.now }
{
    let mut depth = 0;
    for (at, part) in parts.iter().enumerate() {
        if depth == 0 && is_closing(*part) {
            return &parts[..at];
        }
        depth = depth_after(depth, *part);
    }
    parts
}

// What stands in the parentheses that open at once, if they do.
pub fn argument_of(parts: &[Part]) -> Option<&[Part]>
    ensures { option_copied result ≡ argument parts.now }
{
    match parts {
        [Part::Parenthesis, rest @ ..] => Some(inside(rest)),
        _ => None,
    }
}
