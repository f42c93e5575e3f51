// Parts of lines and functions that tests build by hand.
ghost use Rattle.std.specs.Prelude.{◌≡◌, length, IfOk};

use ms_grammar::Head;
use ms_ir::{Name, NoMemory, Param, Params, Text, Ty};
use std::alloc::Global;

/// The bytes of a word or a longer text.
pub fn text(alloc: Global, bytes: &str) -> Result<Text, NoMemory> {
    Text::from_bytes(alloc, bytes.as_bytes())
}

/// A word as a name.
pub fn word(alloc: Global, bytes: &str) -> Result<Name, NoMemory> {
    Ok(Name::Word(text(alloc, bytes)?))
}

/// One pointer for a parameter, without a name.
pub fn a_pointer(alloc: Global) -> Result<Params, NoMemory>
    ensures { IfOk result (λ params. length params ≡ 1) }
{
    let mut params = Params::new(alloc);
    params.push(Param {
        ty: Ty::Ptr,
        text: Text::new(alloc),
        name: Name::Absent,
    })?;
    Ok(params)
}

/// What a line says of a function that gives nothing, and has no attributes.
pub fn head(alloc: Global, name: &str, params: Params, variadic: bool) -> Result<Head, NoMemory> {
    Ok(Head {
        attrs: Text::new(alloc),
        ret: None,
        name: text(alloc, name)?,
        params,
        variadic,
        post: Text::new(alloc),
    })
}
