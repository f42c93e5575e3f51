// What is kept of a line.
ghost use Rattle.std.specs.Prelude.{◌≡◌, map};
ghost use Rattle.ms_grammar.specs.Grammar.{without_name, kept_of};

use ms_grammar::{Head, Line};
use ms_ir::{Name, Param, Params};

// Takes the names from parameters.
fn lose_names(params: &mut Vec<Param>)
    ensures { params.new.items ≡ map without_name params.old.items }
{
    for param in params.iter_mut() {
        param.name = Name::Absent;
    }
}

// The parameters without their names.
fn without_names(params: Params) -> Params
    ensures { result ≡ map without_name params }
{
    let mut list = params.into_vec();
    lose_names(&mut list);
    Params::from_vec(list)
}

// A line as it is kept: the parameters of a declared function lose their names.
pub fn kept_line(line: Line) -> Line
    ensures { result ≡ kept_of line }
{
    match line {
        Line::Declare(head) => {
            let Head {
                attrs,
                ret,
                name,
                params,
                variadic,
                post,
            } = head;
            Line::Declare(Head {
                attrs,
                ret,
                name,
                params: without_names(params),
                variadic,
                post,
            })
        }
        other => other,
    }
}
