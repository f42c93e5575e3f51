// What the instructions of a function may read and write.
ghost use Rattle.std.specs.Prelude.{◌≡◌, ◌<◌, ◌≤◌, ◌+ℤ◌, ◌↔◌, ℕ, ℤ, pos, int_lt, IsTrue, IfOk, IfSome, MatchOption, length, Some, None, if◌then◌else◌, [], slice_index_or, false};
ghost use Rattle.ms_alias.specs.Tables.{ranges_meet, holds_byte};

use crate::captures::{caught_at, mark_others, recount};
use crate::flood::Flood;
use crate::loc::{Loc, Root};
use crate::maker::pointer_of;
use crate::marks::Marks;
use crate::origins::{Origin, find_all_origins};
use crate::room::room;
use crate::rows::fill_rows;
use crate::sets::{Bases, Set, same_root};
use crate::touch::Touch;
use crate::turning::find_turning;
use ms_flow::Flow;
use ms_ir::{Arg, Func, Inst, InstNo, LocalNo, NoMemory, Val};
use ms_meaning::size_of;
use std::alloc::Global;
use std::marker::Model;
use std::mem;

/// The pointers of a function: their roots and offsets, their bases, which roots may change from turn to turn of a loop, and
/// which allocas are captured.
#[derive(Drop)]
pub struct Alias {
    origins: Vec<Origin>,
    turning: Marks,
    bases: Bases,
    // by column
    captured: Marks,
    // for changes
    next: Marks,
    flood: Flood,
}

impl Model for Alias {
    ghost use Rattle.std.specs.Prelude.{◌≡◌, length};
    ghost use Rattle.ms_alias.specs.Tables.{AliasState};

    ghost Value = { AliasState };

    ghost view = { λ a. record { origins = a.origins.items; turning = a.turning; bases = a.bases; captured = a.captured } };

    ghost invariant = { λ a. (length a.turning ≡ length a.bases.sets) × (length a.flood.marked ≡ length a.bases.sets)
        × (length a.flood.row.bits ≡ length a.bases.columns) × (length a.captured ≡ length a.bases.columns) × (length a.next ≡ length a.bases.columns) };
}

// The arguments, or none of them.
fn args_if(args: &[Arg], flag: bool) -> &[Arg]
    ensures { result.now ≡ (if flag then args.now else []) }
{
    if flag { args } else { &[] }
}

// Where so many bytes from an offset on end.
fn end_of(from: i64, len: u32) -> i128
    ensures { result ≡ (from +ℤ pos len) }
{
    from as i128 + len as i128
}

// Whether an offset is before the end of some bytes.
fn is_before(at: i64, from: i64, len: u32) -> bool
    ensures { result ≡ int_lt at (from +ℤ pos len) }
{
    let end = end_of(from, len);
    (at as i128) < end
}

// Whether two ranges of bytes have one in common.
fn ranges_meet(from: i64, len: u32, at: i64, size: u32) -> bool
    ensures { result ≡ ranges_meet from len at size }
{
    len > 0 && size > 0 && is_before(from, at, size) && is_before(at, from, len)
}

// Whether a byte is one of so many from an offset on.
fn holds_byte(from: i64, len: u32, byte: i64) -> bool
    ensures { result ≡ holds_byte from len byte }
{
    from <= byte && is_before(byte, from, len)
}

impl Alias {
    ghost use Rattle.ms_ir.specs.Func.{FuncState};
    ghost use Rattle.ms_flow.specs.Table.{edges_of};
    ghost use Rattle.ms_alias.specs.Offsets.{AreOffsetsNear};
    ghost use Rattle.ms_alias.specs.Roots.{IsFixed, IsTurnedBy};
    ghost use Rattle.ms_alias.specs.Captured.{Differ, IsCaptured, IsCapturedBut};
    ghost use Rattle.ms_alias.specs.Reaches.{Reach, ReadsLoc, WritesLoc};
    ghost use Rattle.ms_alias.specs.Meeting.{MayWrite, MayWriteInTurn, MayRead, MustWrite, IsOuter, IsLocTurnedBy};
    ghost use Rattle.ms_alias.specs.Tests.{may_write_by, may_read_by, may_write_in_turn_by};
    ghost use Rattle.ms_alias.specs.Tables.{AliasState, IsAliasOf, IsReady, HasPointers, IsCapturesBut, origin_of, val_origin, is_turning, val_set, sets_meet, is_known, args_meet, call_meets, call_meets_args, are_known, calls_meet, spans_meet, reaches_meet, reaches_meet_in_turn, reach_of, reach_in, read_reach, write_reach, IsReachBy, IsReadBy, IsWrittenBy, span_at, meet_in, must_hold, bytes_at, read_loc, written_loc, caught_at, set_of, has_outer};

    /// The pointers of a function. It takes all the memory that each other call needs. `Err` comes only where memory is wanting,
    /// or for 2^32 locals and more.
    pub fn of(alloc: Global, func: &Func, flow: &Flow) -> Result<Alias, NoMemory>
        requires flow { flow.now.graph ≡ edges_of func.now.blocks }
        requires near { AreOffsetsNear func.now }
        ensures { IfOk result (λ a. IsAliasOf func.now a) }
    {
        let count = func.local_count();
        if count >= 1 << 32 {
            return Err(NoMemory);
        }
        let bases = room(alloc, func)?;
        let (origins, turning) = find_all_origins(alloc, func, bases.count() as usize)?;
        let columns = bases.columns.len();
        let flood = Flood::new(alloc, bases.sets.len(), columns)?;
        let captured = Marks::new(alloc, columns)?;
        let next = Marks::new(alloc, columns)?;
        let mut alias = Alias {
            origins,
            turning,
            bases,
            captured,
            next,
            flood,
        };
        alias.renew(func, flow);
        Ok(alias)
    }

    /// The pointers are found afresh after an edge was cut, and wherever no other getelementptr was made. It takes no memory.
    pub fn renew(&mut self, func: &Func, flow: &Flow)
        requires ready { IsReady func.now self.old }
        requires flow { flow.now.graph ≡ edges_of func.now.blocks }
        ensures { IsAliasOf func.now self.new }
    {
        find_turning(func, flow, &mut self.turning);
        fill_rows(func, &mut self.bases, &mut self.flood);
        recount(&self.bases, func, None, &mut self.captured);
    }

    /// The captured allocas are found afresh after an instruction that makes no pointer was put. Whether they are others than
    /// before. It takes no memory.
    pub fn note_put(&mut self, func: &Func, i: InstNo) -> bool
        requires { HasPointers func.now self.old }
        ensures alias { IsAliasOf func.now self.new }
        ensures changed { (f : FuncState) → IsAliasOf f self.old → (IsTrue result ↔ Differ (IsCaptured f) (IsCaptured func.now)) }
    {
        let _put = i;
        recount(&self.bases, func, None, &mut self.next);
        let changed = mark_others(&self.bases, &self.captured, &self.next);
        mem::swap(&mut self.captured, &mut self.next);
        changed
    }

    /// The captured allocas are found as they are without an instruction, before it is taken. Whether they are others than before.
    /// It takes no memory.
    pub fn note_take(&mut self, func: &Func, i: InstNo) -> bool
        requires { HasPointers func.now self.old }
        ensures pointers { HasPointers func.now self.new }
        ensures captured { IsCapturesBut self.new.bases func.now (Some i) self.new.captured }
        ensures changed { (f : FuncState) → IsAliasOf f self.old → (IsTrue result ↔ Differ (IsCaptured f) (IsCapturedBut func.now (Some i))) }
    {
        recount(&self.bases, func, Some(i), &mut self.next);
        let changed = mark_others(&self.bases, &self.captured, &self.next);
        mem::swap(&mut self.captured, &mut self.next);
        changed
    }

    // The root and offset of a pointer.
    fn origin_of(&self, p: Root) -> Origin
        ensures { result ≡ origin_of self.now.origins p }
    {
        match p {
            Root::Local(l) => {
                if l.0 as usize >= self.origins.len() {
                    return Origin { root: p, offset: 0 };
                }
                self.origins[l.0 as usize]
            }
            Root::Global(_) => Origin { root: p, offset: 0 },
        }
    }

    // The root and offset of a value.
    fn val_origin(&self, val: Val) -> Option<Origin>
        ensures { result ≡ val_origin self.now.origins val }
    {
        match pointer_of(val) {
            Some(p) => Some(self.origin_of(p)),
            None => None,
        }
    }

    // Whether a root is another one from turn to turn.
    fn is_turning(&self, root: Root) -> bool
        ensures { result ≡ is_turning self.now.turning root }
    {
        match root {
            Root::Local(l) => {
                if l.0 >= self.turning.len() {
                    return false;
                }
                self.turning.has(l.0)
            }
            Root::Global(_) => false,
        }
    }

    // The bases of a pointer.
    fn set_of(&self, p: Root) -> Set
        ensures { result ≡ set_of self.now.bases p }
    {
        self.bases.set_of(p)
    }

    // Whether a base that is no alloca is in a set.
    fn has_outer(&self, set: Set) -> bool
        ensures { result ≡ has_outer self.now.bases set }
    {
        self.bases.has_outer(set)
    }

    // The bases of a value.
    fn val_set(&self, val: Val) -> Set
        ensures { result ≡ val_set self.now.bases val }
    {
        match pointer_of(val) {
            Some(p) => self.bases.set_of(p),
            None => Set::Nothing,
        }
    }

    // Whether what a value leads to meets a set.
    fn val_meets(&self, val: Val, set: Set) -> bool
        ensures { result ≡ sets_meet self.now.bases (val_set self.now.bases val) set }
    {
        self.bases.sets_meet(self.val_set(val), set)
    }

    // Whether what the arguments of a call lead to meets a set.
    fn args_meet(&self, args: &[Arg], set: Set) -> bool
        ensures { result ≡ args_meet self.now.bases set args.now }
    {
        args.iter().any(|arg| self.val_meets(arg.val, set))
    }

    // Whether a set has a base that may be what a call knows besides its arguments.
    fn is_known(&self, set: Set) -> bool
        ensures { result ≡ is_known self.now.bases self.now.captured set }
    {
        self.bases.is_known(self.captured.as_slice(), set)
    }

    // Whether what a call reaches meets a set.
    fn call_meets(&self, args: &[Arg], other: bool, set: Set) -> bool
        ensures { result ≡ call_meets self.now.bases self.now.captured args.now other set }
    {
        self.args_meet(args, set) || (other && self.is_known(set))
    }

    // Whether what a call reaches meets what an argument of another leads to.
    fn call_meets_args(&self, args: &[Arg], other: bool, others: &[Arg]) -> bool
        ensures { result ≡ call_meets_args self.now.bases self.now.captured args.now other others.now }
    {
        others
            .iter()
            .any(|arg| self.call_meets(args, other, self.val_set(arg.val)))
    }

    // Whether what an argument of a call leads to is known to others.
    fn are_known(&self, args: &[Arg]) -> bool
        ensures { result ≡ are_known self.now.bases self.now.captured args.now }
    {
        args.iter().any(|arg| self.is_known(self.val_set(arg.val)))
    }

    // Whether two locations of bytes meet.
    fn spans_meet(&self, a: Root, from: i64, len: u32, b: Root, at: i64, size: u32) -> bool
        ensures { result ≡ spans_meet self.now a from len b at size }
    {
        if same_root(a, b) && !self.is_turning(a) {
            return ranges_meet(from, len, at, size);
        }
        len > 0
            && size > 0
            && self
                .bases
                .sets_meet(self.bases.set_of(a), self.bases.set_of(b))
    }

    // Whether two things that instructions touch meet.
    fn meet(&self, a: &Touch, b: &Touch) -> bool
        ensures { result ≡ reaches_meet self.now (reach_of a.now) (reach_of b.now) }
    {
        match (*a, *b) {
            (
                Touch::Span { root, from, len },
                Touch::Span {
                    root: other,
                    from: at,
                    len: size,
                },
            ) => self.spans_meet(root, from, len, other, at, size),
            (Touch::Span { root, len, .. }, Touch::Call { args, other, .. })
            | (Touch::Call { args, other, .. }, Touch::Span { root, len, .. }) => {
                len > 0 && self.call_meets(args, other, self.bases.set_of(root))
            }
            (
                Touch::Call {
                    args,
                    other,
                    hidden,
                },
                Touch::Call {
                    args: args_2,
                    other: other_2,
                    hidden: hidden_2,
                },
            ) => {
                self.call_meets_args(args_2, other_2, args)
                    || (other && (other_2 || self.are_known(args_2)))
                    || (hidden && hidden_2)
            }
        }
    }

    // So many bytes from where a value points to.
    fn span(&self, val: Val, len: u32) -> Option<Touch<'_>>
        ensures { reach_in result ≡ span_at len (val_origin self.now.origins val) }
    {
        match self.val_origin(val) {
            Some(Origin { root, offset }) => Some(Touch::Span {
                root,
                from: offset,
                len,
            }),
            None => None,
        }
    }

    // What an instruction reads.
    fn read_touch<'a>(&'a self, inst: &'a Inst) -> Option<Touch<'a>>
        ensures { reach_in result ≡ read_reach self.now.origins inst.now }
    {
        match inst {
            Inst::Load { ty, ptr, .. } => self.span(*ptr, size_of(*ty)),
            Inst::Copy { from, len, .. } => self.span(from.val, *len),
            Inst::Call { args, effects, .. } => Some(Touch::Call {
                args: args_if(args.as_slice(), effects.arg_read),
                other: effects.other_read,
                hidden: effects.hidden_read,
            }),
            _ => None,
        }
    }

    // What an instruction writes.
    fn write_touch<'a>(&'a self, inst: &'a Inst) -> Option<Touch<'a>>
        ensures { reach_in result ≡ write_reach self.now.origins inst.now }
    {
        match inst {
            Inst::Store { ty, ptr, .. } => self.span(*ptr, size_of(*ty)),
            Inst::Copy { to, len, .. } => self.span(to.val, *len),
            Inst::Call { args, effects, .. } => Some(Touch::Call {
                args: args_if(args.as_slice(), effects.arg_write),
                other: effects.other_write,
                hidden: effects.hidden_write,
            }),
            _ => None,
        }
    }

    // What the instruction of a number reads.
    fn read_at<'a>(&'a self, func: &'a Func, i: InstNo) -> Option<Touch<'a>>
        ensures { (u : Reach) → (reach_in result ≡ Some u) ↔ IsReadBy func.now self.now.origins i.0 u }
    {
        match func.inst(i) {
            Some(inst) => self.read_touch(inst),
            None => None,
        }
    }

    // What the instruction of a number writes.
    fn write_at<'a>(&'a self, func: &'a Func, i: InstNo) -> Option<Touch<'a>>
        ensures { (u : Reach) → (reach_in result ≡ Some u) ↔ IsWrittenBy func.now self.now.origins i.0 u }
    {
        match func.inst(i) {
            Some(inst) => self.write_touch(inst),
            None => None,
        }
    }

    // What a location is.
    fn loc_touch<'a>(&'a self, func: &'a Func, loc: &Loc) -> Option<Touch<'a>>
        ensures { (u : Reach) → (reach_in result ≡ Some u) ↔ IsReachBy func.now self.now.origins loc.now u }
    {
        match *loc {
            Loc::Bytes { root, from, len } => Some(Touch::Span { root, from, len }),
            Loc::ReadBy(j) => self.read_at(func, j),
        }
    }

    // Whether two things that instructions touch meet while roots stay what they are.
    fn meet_now(&self, a: &Touch, b: &Touch) -> bool
        ensures { result ≡ reaches_meet_in_turn self.now (reach_of a.now) (reach_of b.now) }
    {
        match (*a, *b) {
            (
                Touch::Span { root, from, len },
                Touch::Span {
                    root: other,
                    from: at,
                    len: size,
                },
            ) => {
                if same_root(root, other) {
                    ranges_meet(from, len, at, size)
                } else {
                    self.spans_meet(root, from, len, other, at, size)
                }
            }
            (Touch::Span { .. }, Touch::Call { .. }) | (Touch::Call { .. }, _) => self.meet(a, b),
        }
    }

    // Whether two things that instructions touch are there and meet.
    fn meet_in(&self, a: &Option<Touch>, b: &Option<Touch>) -> bool
        ensures { result ≡ meet_in (reaches_meet self.now) (reach_in a.now) (reach_in b.now) }
    {
        match (a, b) {
            (Some(a), Some(b)) => self.meet(a, b),
            _ => false,
        }
    }

    // Whether they are there and meet while roots stay what they are.
    fn meet_in_turn(&self, a: &Option<Touch>, b: &Option<Touch>) -> bool
        ensures { result ≡ meet_in (reaches_meet_in_turn self.now) (reach_in a.now) (reach_in b.now) }
    {
        match (a, b) {
            (Some(a), Some(b)) => self.meet_now(a, b),
            _ => false,
        }
    }

    /// Whether what an instruction writes meets a location. The answer is that of a test over the tables, so that a search can name it.
    pub fn may_write(&self, func: &Func, i: InstNo, loc: &Loc) -> bool
        ensures test { result ≡ may_write_by func.now self.now loc.now i.0 }
        ensures told { IsAliasOf func.now self.now → (IsTrue result ↔ MayWrite func.now i.0 loc.now) }
    {
        self.meet_in(&self.write_at(func, i), &self.loc_touch(func, loc))
    }

    /// Whether what an instruction reads meets a location. The answer is that of a test over the tables, so that a search can name it.
    pub fn may_read(&self, func: &Func, i: InstNo, loc: &Loc) -> bool
        ensures test { result ≡ may_read_by func.now self.now loc.now i.0 }
        ensures told { IsAliasOf func.now self.now → (IsTrue result ↔ MayRead func.now i.0 loc.now) }
    {
        self.meet_in(&self.read_at(func, i), &self.loc_touch(func, loc))
    }

    /// Whether what an instruction writes meets a location as long as the location's root is not made anew: byte locations with one
    /// root, fixed or turning, meet where they share a byte. The answer is that of a test over the tables, so that a search can name it.
    pub fn may_write_in_turn(&self, func: &Func, i: InstNo, loc: &Loc) -> bool
        ensures test { result ≡ may_write_in_turn_by func.now self.now loc.now i.0 }
        ensures told { IsAliasOf func.now self.now → (IsTrue result ↔ MayWriteInTurn func.now i.0 loc.now) }
    {
        self.meet_in_turn(&self.write_at(func, i), &self.loc_touch(func, loc))
    }

    // Whether these are bytes of a fixed root, this byte among them.
    fn must_hold(&self, a: &Option<Touch>, root: Root, byte: i64) -> bool
        ensures { result ≡ must_hold self.now (reach_in a.now) root byte }
    {
        match a {
            Some(Touch::Span { root: r, from, len }) => {
                same_root(*r, root) && !self.is_turning(root) && holds_byte(*from, *len, byte)
            }
            _ => false,
        }
    }

    /// Whether an instruction is a store or memcpy through a root that is fixed, and writes a byte of it, which is counted from
    /// the root.
    pub fn must_write(&self, func: &Func, i: InstNo, root: Root, byte: i64) -> bool
        requires { IsAliasOf func.now self.now }
        ensures { IsTrue result ↔ MustWrite func.now i.0 root byte }
    {
        self.must_hold(&self.write_at(func, i), root, byte)
    }

    // So many bytes from where a value points to.
    fn bytes(&self, val: Val, len: u32) -> Option<Loc>
        ensures { result ≡ bytes_at len (val_origin self.now.origins val) }
    {
        match self.val_origin(val) {
            Some(Origin { root, offset }) => Some(Loc::Bytes {
                root,
                from: offset,
                len,
            }),
            None => None,
        }
    }

    // The location that an instruction reads.
    fn read_loc(&self, i: InstNo, inst: &Inst) -> Option<Loc>
        ensures { result ≡ read_loc self.now.origins i inst.now }
    {
        match inst {
            Inst::Load { ty, ptr, .. } => self.bytes(*ptr, size_of(*ty)),
            Inst::Copy { from, len, .. } => self.bytes(from.val, *len),
            Inst::Call { effects, .. } => {
                if effects.arg_read || effects.other_read || effects.hidden_read {
                    Some(Loc::ReadBy(i))
                } else {
                    None
                }
            }
            _ => None,
        }
    }

    // The bytes that an instruction writes.
    fn written_loc(&self, inst: &Inst) -> Option<Loc>
        ensures { result ≡ written_loc self.now.origins inst.now }
    {
        match inst {
            Inst::Store { ty, ptr, .. } => self.bytes(*ptr, size_of(*ty)),
            Inst::Copy { to, len, .. } => self.bytes(to.val, *len),
            _ => None,
        }
    }

    /// The location that an instruction reads: a load's bytes, a memcpy's source, or `ReadBy` for a call that may read. `None`
    /// exactly elsewhere.
    pub fn reads(&self, func: &Func, i: InstNo) -> Option<Loc>
        requires { IsAliasOf func.now self.now }
        ensures { (loc : Loc) → (result ≡ Some loc) ↔ ReadsLoc func.now i loc }
    {
        match func.inst(i) {
            Some(inst) => self.read_loc(i, inst),
            None => None,
        }
    }

    /// The bytes that a store writes, or a memcpy's destination. `None` exactly elsewhere.
    pub fn writes(&self, func: &Func, i: InstNo) -> Option<Loc>
        requires { IsAliasOf func.now self.now }
        ensures { (loc : Loc) → (result ≡ Some loc) ↔ WritesLoc func.now i loc }
    {
        match func.inst(i) {
            Some(inst) => self.written_loc(inst),
            None => None,
        }
    }

    /// Whether a root is fixed: a global, an argument or an alloca, or made in a block on no cycle among reached blocks.
    pub fn fixed(&self, func: &Func, root: Root) -> bool
        requires { IsAliasOf func.now self.now }
        ensures { IsTrue result ↔ IsFixed func.now root }
    {
        let _func = func;
        !self.is_turning(root)
    }

    /// The instruction that makes a turning root. `None` exactly where the root is fixed.
    pub fn turning(&self, func: &Func, root: Root) -> Option<InstNo>
        requires { IsAliasOf func.now self.now }
        ensures made { MatchOption result ((q : ℕ) → IsTurnedBy func.now root q → ⊥) (λ q. IsTurnedBy func.now root q.0) }
        // No other instruction makes it.
        ensures one { IfSome result (λ q. (p : ℕ) → IsTurnedBy func.now root p → p ≡ q.0) }
    {
        func.numbered();
        if !self.is_turning(root) {
            return None;
        }
        match root {
            Root::Local(l) => func.def_of(l),
            Root::Global(_) => None,
        }
    }

    /// The instruction that makes the root of a location's bytes, where that root is turning. `None` exactly elsewhere, so for what a
    /// call reads.
    pub fn turning_of(&self, func: &Func, loc: &Loc) -> Option<InstNo>
        requires { IsAliasOf func.now self.now }
        ensures made { MatchOption result ((q : ℕ) → IsLocTurnedBy func.now loc.now q → ⊥) (λ q. IsLocTurnedBy func.now loc.now q.0) }
        // No other instruction makes it.
        ensures one { IfSome result (λ q. (p : ℕ) → IsLocTurnedBy func.now loc.now p → p ≡ q.0) }
    {
        match self.loc_touch(func, loc) {
            Some(Touch::Span { root, .. }) => self.turning(func, root),
            Some(Touch::Call { .. }) => None,
            None => None,
        }
    }

    /// Whether a base of a root is no alloca.
    pub fn outer(&self, func: &Func, root: Root) -> bool
        requires { IsAliasOf func.now self.now }
        ensures { IsTrue result ↔ IsOuter func.now root }
    {
        let _func = func;
        self.has_outer(self.set_of(root))
    }

    // Whether a set is that of a captured alloca.
    fn caught_at(&self, set: Set) -> bool
        ensures { result ≡ caught_at self.now.captured set }
    {
        caught_at(&self.captured, set)
    }

    /// Whether a call passes a pointer to an alloca as an argument that the callee may keep.
    pub fn captured(&self, alloca: LocalNo) -> bool
        ensures { (f : FuncState) → IsAliasOf f self.now → (IsTrue result ↔ IsCaptured f alloca) }
    {
        self.caught_at(self.set_of(Root::Local(alloca)))
    }
}
