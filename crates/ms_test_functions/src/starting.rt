// What the pointers of a function ask of it, found out.
ghost use Rattle.std.specs.Prelude.{◌≡◌, ℕ, Some};
ghost use Rattle.ms_ir.specs.Func.{Placed, IsAt};
ghost use Rattle.ms_alias.specs.Roots.{Step, step_in};
ghost use Rattle.ms_alias.specs.Offsets.{IsNear, greatest_offset, AreOffsetsNear};

use ms_ir::{Func, Inst, InstNo};
use std::process::Abort;

// Expects a getelementptr's offset to pass no limit.
fn expect_near_inst(rt: &impl Abort, inst: &Inst)
    ensures { (s : Step) → step_in inst.now ≡ Some s → IsNear greatest_offset s.bytes }
{
    if let Inst::Gep { offset, .. } = inst {
        assert!(rt; *offset >= -2_147_483_648);
        assert!(rt; *offset <= 2_147_483_648);
    }
}

// The same of the instruction of a number, where it is there.
fn expect_near_at(rt: &impl Abort, f: &Func, i: InstNo)
    ensures { (b k : ℕ) (x : Placed) → IsAt f.now.blocks i.0 b k x → (s : Step) → step_in x.inst ≡ Some s → IsNear greatest_offset s.bytes }
{
    match f.inst(i) {
        Some(inst) => expect_near_inst(rt, inst),
        None => {}
    }
}

/// Expects that no getelementptr's offset passes its limit.
pub fn expect_near(rt: &impl Abort, f: &Func)
    ensures { AreOffsetsNear f.now }
{
    f.numbered();
    for i in 0..f.made() {
        expect_near_at(rt, f, InstNo(i));
    }
}
