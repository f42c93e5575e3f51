// Numbers of a type, and their bytes in memory.
ghost use Rattle.std.specs.Prelude.{◌≡◌, ◌^◌, pos, map, take, Some};
ghost use Rattle.ms_meaning.specs.Values.{Is, bits, loaded};
ghost use Rattle.ms_meaning.specs.Values as meant;

use ms_ir::Ty;

/// The bytes that a value of a type takes in memory: none for a pointer, one for `i1`. It takes no memory.
pub fn size_of(ty: Ty) -> u32
    ensures { result ≡ meant.size_of ty }
{
    match ty {
        Ty::I1 | Ty::I8 => 1,
        Ty::I16 => 2,
        Ty::I32 => 4,
        Ty::I64 => 8,
        Ty::Ptr => 0,
    }
}

// 2 to the number of the bits of a type's numbers.
fn modulus(ty: Ty) -> i128
    ensures { result ≡ pos (2 ^ bits ty) }
{
    match ty {
        Ty::I1 => 2,
        Ty::I8 => 256,
        Ty::I16 => 65_536,
        Ty::I32 => 4_294_967_296,
        Ty::I64 => 18_446_744_073_709_551_616,
        Ty::Ptr => 1,
    }
}

/// `n` modulo 2 to the number of the bits of the type's numbers; 0 for a pointer. It takes no memory.
pub fn wrap(ty: Ty, n: i128) -> u64
    ensures { result ≡ meant.wrap (bits ty) n }
{
    n.rem_euclid(modulus(ty)) as u64
}

/// The bytes of a number of a type, least first. The first `size_of(ty)` of them are what a store of it writes. It takes no memory.
pub fn bytes_of(_ty: Ty, n: u64) -> [u8; 8]
    ensures { map Is result ≡ meant.bytes_of 8 n }
{
    n.to_le_bytes()
}

/// The number of the first `size_of(ty)` bytes, least first, modulo 2 to the number of the bits of the type's numbers; 0 for a pointer.
/// It takes no memory.
pub fn number_of(ty: Ty, bytes: &[u8; 8]) -> u64
    ensures { loaded ty (take (meant.size_of ty) (map Is bytes.now)) ≡ Some result }
{
    let [a, b, c, d, e, f, g, h] = *bytes;
    match ty {
        Ty::I1 => u64::from(a % 2),
        Ty::I8 => u64::from(a),
        Ty::I16 => u64::from(u16::from_le_bytes([a, b])),
        Ty::I32 => u64::from(u32::from_le_bytes([a, b, c, d])),
        Ty::I64 => u64::from_le_bytes([a, b, c, d, e, f, g, h]),
        Ty::Ptr => 0,
    }
}
