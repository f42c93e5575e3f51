// Numbers of each type, and their bytes in memory.
use ms_ir::Ty;
use ms_meaning::{bytes_of, number_of, size_of, wrap};

#[test]
fn numbers_wrap(rt: HostRuntime) {
    let cases = [
        (Ty::I1, 3, 1),
        (Ty::I1, -1, 1),
        (Ty::I8, 300, 44),
        (Ty::I8, -1, 255),
        (Ty::I8, -256, 0),
        (Ty::I16, 65_536, 0),
        (Ty::I16, -32_768, 32_768),
        (Ty::I32, -1, 4_294_967_295),
        (Ty::I64, -1, u64::MAX),
        (Ty::I64, i128::MAX, u64::MAX),
        (Ty::I64, i128::MIN, 0),
        (Ty::Ptr, 7, 0),
    ];
    for (ty, n, wrapped) in cases {
        assert!(rt; wrap(ty, n) == wrapped);
    }
}

#[test]
fn values_have_sizes(rt: HostRuntime) {
    let cases = [
        (Ty::I1, 1),
        (Ty::I8, 1),
        (Ty::I16, 2),
        (Ty::I32, 4),
        (Ty::I64, 8),
        (Ty::Ptr, 0),
    ];
    for (ty, bytes) in cases {
        assert!(rt; size_of(ty) == bytes);
    }
}

#[test]
fn bytes_are_read_as_they_are_stored(rt: HostRuntime) {
    let cases = [
        (Ty::I1, 1),
        (Ty::I8, 255),
        (Ty::I16, 258),
        (Ty::I32, 4_294_967_295),
        (Ty::I64, 72_623_859_790_382_856),
    ];
    for (ty, n) in cases {
        assert!(rt; number_of(ty, &bytes_of(ty, n)) == n);
    }
    assert!(rt; bytes_of(Ty::I64, 72_623_859_790_382_856) == [8, 7, 6, 5, 4, 3, 2, 1]);
    assert!(rt; number_of(Ty::I1, &[3, 0, 0, 0, 0, 0, 0, 0]) == 1);
    assert!(rt; number_of(Ty::I8, &[7; 8]) == 7);
    assert!(rt; number_of(Ty::I64, &[255; 8]) == u64::MAX);
    assert!(rt; number_of(Ty::Ptr, &[255; 8]) == 0);
}
