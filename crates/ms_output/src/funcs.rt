// The functions that the lines of a draft name.
ghost use Rattle.std.specs.Prelude.{◌≡◌, [], ◌∷◌, slice_index_or, MatchOption};
ghost use Rattle.ms_output.specs.Funcs.{func_said, funcs_said};

use ms_line::Line;
use ms_read::Draft;

// The name of the function that a line names, if it names one.
fn name_said(line: &Line) -> Option<&[u8]>
    ensures { MatchOption result (func_said line.now ≡ []) (λ name. func_said line.now ≡ name.now ∷ []) }
{
    match line {
        Line::Declare(head) | Line::Define(head) => Some(head.name.bytes()),
        _ => None,
    }
}

// The name of the function with a number, counted in the order of the lines; nothing where there is none.
pub fn func_name(draft: &Draft, f: u32) -> &[u8]
    ensures { result.now ≡ slice_index_or (funcs_said draft.now) f [] }
{
    let mut left = f;
    for entry in draft.as_slice() {
        match name_said(&entry.1) {
            Some(name) => {
                if left == 0 {
                    return name;
                }
                left -= 1;
            }
            None => {}
        }
    }
    b""
}
