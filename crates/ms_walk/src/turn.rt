// What lies behind an instruction on every path.
ghost use Rattle.std.specs.Prelude.{◌≡◌, ℕ, false, ◌<◌, length, vec_len, IfOk, IsTrue};
ghost use Rattle.ms_paths.specs.Flow.{IsClosed};
ghost use Rattle.ms_ir.specs.Func.{IsSomewhere, insts_at};
ghost use Rattle.ms_ir.specs.Graph.{graph_of};
ghost use Rattle.ms_flow.specs.Table.{edges_of};
ghost use Rattle.ms_build.specs.Accesses.{event_of};
ghost use Rattle.ms_paths.specs.Passed.{beyond};
ghost use Rattle.ms_walk.specs.Turn.{AreMarked, AreMarkedTo, IsBehind, is_marked, is_past};

use ms_flow::Flow;
use ms_form::Access;
use ms_ir::{BlockNo, Func, InstNo, NoMemory};
use std::alloc::Global;

/// What stands behind an instruction on every path: by instruction whether it does, and by block whether its start does.
#[derive(Drop)]
pub struct Turn {
    pub insts: Vec<bool>,
    pub starts: Vec<bool>,
}

// Whether there is a mark at a place.
fn is_marked(marks: &[bool], at: usize) -> bool
    ensures { result ≡ is_marked marks.now at }
{
    if at < marks.len() { marks[at] } else { false }
}

// Whether a place of a block is behind one of another block, where the starts of some blocks are.
fn is_past(starts: &[bool], home: BlockNo, place: u32, b: BlockNo, k: u32) -> bool
    ensures { result ≡ is_past starts.now home.0 place b.0 k }
{
    if b.0 == home.0 {
        place < k
    } else {
        is_marked(starts, b.0 as usize)
    }
}

// Whether an instruction of a block may be behind.
fn has_past(starts: &[bool], home: BlockNo, b: BlockNo) -> bool
    ensures { result ≡ false → (place k : ℕ) → is_past starts.now home.0 place b.0 k ≡ false }
{
    b.0 == home.0 || is_marked(starts, b.0 as usize)
}

// Marks the instructions of a block that are behind a place.
fn mark_block(
    func: &Func,
    starts: &[bool],
    home: BlockNo,
    place: u32,
    b: BlockNo,
    marks: &mut Vec<bool>,
)
    requires block { b.0 < length func.now.blocks }
    requires made { vec_len marks.old ≡ func.now.made }
    ensures { AreMarked func.now.blocks starts.now home.0 place b.0 (length (insts_at func.now.blocks b.0)) marks.old.items marks.new.items }
{
    func.numbered();
    let mut at = func.first_inst(b);
    for k in 0..func.count(b) {
        let i = match at {
            Some(i) => i,
            None => unreachable!(),
        };
        marks[i.0 as usize] = is_past(starts, home, place, b, k);
        at = func.next_inst(i);
    }
}

// The marks of all instructions.
fn marks_past(
    alloc: Global,
    func: &Func,
    starts: &[bool],
    home: BlockNo,
    place: u32,
) -> Result<Vec<bool>, NoMemory>
    ensures { IfOk result (λ marks. AreMarkedTo func.now.blocks starts.now home.0 place (length func.now.blocks) marks.items) }
{
    let mut marks = vec![in alloc; false; func.made() as usize]?;
    for b in 0..func.block_count() {
        if has_past(starts, home, BlockNo(b)) {
            mark_block(func, starts, home, place, BlockNo(b), &mut marks);
        }
    }
    Ok(marks)
}

impl Turn {
    /// What stands behind an instruction on every path.
    pub fn of(alloc: Global, func: &Func, flow: &Flow, q: InstNo) -> Result<Turn, NoMemory>
        requires graph { flow.now.graph ≡ edges_of func.now.blocks }
        requires closed { IsClosed (graph_of func.now.blocks) }
        requires there { IsSomewhere func.now.blocks q.0 }
        ensures { IfOk result (λ turn. IsBehind func.now q.0 turn.insts.items turn.starts.items) }
    {
        func.numbered();
        ms_flow::laws::same_paths();
        ms_paths::laws::lies_told();
        let (home, place) = match func.place_of(q) {
            Some(found) => found,
            None => unreachable!(),
        };
        let mut starts = flow.behind(alloc, home)?;
        starts[home.0 as usize] = false;
        let insts = marks_past(alloc, func, starts.as_slice(), home, place)?;
        Ok(Turn { insts, starts })
    }

    /// Whether an instruction stands behind.
    pub fn has(&self, i: InstNo) -> bool
        ensures { result ≡ is_marked self.now.insts.items i.0 }
    {
        is_marked(self.insts.as_slice(), i.0 as usize)
    }

    /// An access that stands behind, and the instruction itself in place of any other.
    pub fn or_first(&self, q: InstNo, found: Access) -> Access
        ensures { event_of result ≡ beyond (is_marked self.now.insts.items) (is_marked self.now.starts.items) q.0 (event_of found) }
    {
        match found {
            Access::Of(i) => { if self.has(i) { found } else { Access::Of(q) } }
            Access::Phi(b) => {
                if is_marked(self.starts.as_slice(), b.0 as usize) {
                    found
                } else {
                    Access::Of(q)
                }
            }
            Access::Entry => Access::Of(q),
        }
    }
}
