// What an instruction does to the bytes of a fixed root.
ghost use Rattle.ms_alias.specs.Roots.{IsFixed};
ghost use Rattle.ms_alias.specs.Tables.{IsAliasOf};
ghost use Rattle.ms_effects.specs.Effects.{AreRead, AreWritten, IsRangeOf};

use ms_alias::{Alias, Loc, Root};
use ms_ir::{Func, InstNo};

/// So many bytes of a root, from an offset on. They may end past 64 bits.
#[derive(Clone, Copy, PartialEq, Eq)]
pub struct Span {
    pub from: i64,
    pub len: u32,
}

/// The bytes of a root that an instruction may read.
#[derive(Clone, Copy, PartialEq, Eq)]
pub enum Reads {
    Nothing,
    All,
    Range(Span),
}

/// The bytes of a root that an instruction must write.
#[derive(Clone, Copy, PartialEq, Eq)]
pub enum Writes {
    Nothing,
    Range(Span),
}

/// What an instruction does to the bytes of a root.
#[derive(Clone, Copy, PartialEq, Eq)]
pub struct Effect {
    pub reads: Reads,
    pub writes: Writes,
}

/// The range of a location, where it is bytes of the root.
pub fn range_of(loc: Option<Loc>, root: Root) -> Option<Span>
    ensures { IsRangeOf result loc root }
{
    match loc {
        Some(Loc::Bytes { root: r, from, len }) => {
            if r == root {
                Some(Span { from, len })
            } else {
                None
            }
        }
        _ => None,
    }
}

// The bytes of the root that the instruction may read. Through the root a range is read; where it is reached in any other way each byte may be read,
// or none, so one byte tells.
fn reads_of(func: &Func, alias: &Alias, i: InstNo, root: Root) -> Reads
    requires alias { IsAliasOf func.now alias.now }
    requires fixed { IsFixed func.now root }
    ensures { AreRead func.now i.0 root result }
{
    func.numbered();
    ms_live::laws::effects_are_ranges();
    match range_of(alias.reads(func, i), root) {
        Some(span) => Reads::Range(span),
        None => {
            let byte = Loc::Bytes {
                root,
                from: 0,
                len: 1,
            };
            if alias.may_read(func, i, &byte) {
                Reads::All
            } else {
                Reads::Nothing
            }
        }
    }
}

// The bytes of the root that the instruction must write.
fn writes_of(func: &Func, alias: &Alias, i: InstNo, root: Root) -> Writes
    requires alias { IsAliasOf func.now alias.now }
    requires fixed { IsFixed func.now root }
    ensures { AreWritten func.now i.0 root result }
{
    func.numbered();
    ms_live::laws::effects_are_ranges();
    match range_of(alias.writes(func, i), root) {
        Some(span) => Writes::Range(span),
        None => Writes::Nothing,
    }
}

/// What an instruction does to the bytes of a fixed root: which it may read, and which it must write. An instruction that is not there does nothing.
pub fn effect_of(func: &Func, alias: &Alias, i: InstNo, root: Root) -> Effect
    requires alias { IsAliasOf func.now alias.now }
    requires fixed { IsFixed func.now root }
    ensures reads { AreRead func.now i.0 root result.reads }
    ensures writes { AreWritten func.now i.0 root result.writes }
{
    Effect {
        reads: reads_of(func, alias, i, root),
        writes: writes_of(func, alias, i, root),
    }
}
