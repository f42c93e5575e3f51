// Functions that are read, changed and printed: instructions and locals then stand in another order than their numbers, or numbers have gaps, or a local
// gave way to another value. What is printed is read again, and prints the same. The numbers are those of the text that was read first, in its order.
use crate::functions::no_notes;
use crate::sessions::{first_of, module_of};
use ms_ir::{BlockNo, Func, InstNo, LocalNo, Names, NoMemory, Text, Ty, Val};
use ms_output::{Wanted, render};
use ms_print::print_func;
use std::alloc::Global;
use std::process::Abort;

const MODULE: Wanted = Wanted {
    prints: 0,
    shows_module: true,
};

fn printed(alloc: Global, f: &Func) -> Result<Text, NoMemory> {
    print_func(alloc, f, &Names::new(alloc), &no_notes(alloc))
}

// The text of the module that a short text is.
fn read_again(alloc: Global, text: &[u8]) -> Option<Text> {
    if text.len() > 1000 {
        return None;
    }
    match render(alloc, MODULE, text) {
        Ok(again) => Some(again),
        Err(_) => None,
    }
}

// Expects a function to be printed so, and that to be read as a module of the same text.
fn expect(rt: &impl Abort, alloc: Global, f: &Func, wanted: &str) {
    let text = printed(alloc, f).ok().expect(rt, "memory");
    assert_eq!(rt; text.bytes(), wanted.as_bytes());
    let again = read_again(alloc, text.bytes()).expect(rt, "a text that is accepted");
    assert_eq!(rt; again.bytes(), wanted.as_bytes());
}

// Puts an instruction first in the first block.
fn shift_first(rt: &impl Abort, f: &mut Func, i: InstNo) {
    assert!(rt; f.block_count() > 0);
    assert!(rt; f.place_of(i).is_some());
    f.shift_inst(i, BlockNo(0), 0);
}

fn remove(rt: &impl Abort, f: &mut Func, i: InstNo) {
    assert!(rt; f.place_of(i).is_some());
    f.take_inst(i);
}

const STRIDES: &[u8] = b"define i32 @f(ptr %0, i64 %1) {
  %3 = load i32, ptr %0
  %4 = getelementptr [4 x i32], ptr %0, i64 1, i64%1
  %5 = load i32, ptr %4
  %6 = load i32, ptr %0
  ret i32 %6
}
";

const AS_READ: &str = "define i32 @f(ptr %0, i64 %1) {
  %3 = load i32, ptr %0
  %4 = getelementptr [4 x i32], ptr %0, i64 1, i64 %1
  %5 = load i32, ptr %4
  %6 = load i32, ptr %0
  ret i32 %6
}
";

const MOVED: &str = "define i32 @f(ptr %0, i64 %1) {
  %3 = load i32, ptr %0
  %4 = load i32, ptr %0
  %5 = getelementptr [4 x i32], ptr %0, i64 1, i64 %1
  %6 = load i32, ptr %5
  ret i32 %3
}
";

const REMOVED: &str = "define i32 @f(ptr %0, i64 %1) {
  %3 = load i32, ptr %0
  %4 = getelementptr [4 x i32], ptr %0, i64 1, i64 %1
  %5 = load i32, ptr %4
  ret i32 %3
}
";

const REPLACED: &str = "define i32 @f(ptr %0, i64 %1) {
  %3 = load i32, ptr %0
  %4 = getelementptr [4 x i32], ptr %0, i64 1, i64 5
  %5 = load i32, ptr %4
  ret i32 %3
}
";

#[test]
fn numbers_out_of_order_and_with_gaps(rt: HostRuntime) {
    let alloc = rt.alloc();
    let mut m = module_of(&rt, alloc, STRIDES);
    let mut f = first_of(&mut m).expect(&rt, "a body");
    expect(&rt, alloc, &f, AS_READ);
    shift_first(&rt, &mut f, InstNo(3));
    expect(&rt, alloc, &f, MOVED);
    remove(&rt, &mut f, InstNo(0));
    expect(&rt, alloc, &f, REMOVED);
    f.replace_local(LocalNo(1), Val::Num(Ty::I64, 5));
    expect(&rt, alloc, &f, REPLACED);
}

const TWO_TERMS: &[u8] = b"define void @f(ptr %p, i64 %n, i64 %m, i8 %k) {
  %q = getelementptr [4 x [2 x [2 x i32]]], ptr %p, i64 %n, i8 -1, i64%m, i8   %k
  store i32 1, ptr %q
  ret void
}
";

const ONE_FOR_ANOTHER: &str = "define void @f(ptr %p, i64 %n, i64 %m, i8 %k) {
  %q = getelementptr [4 x [2 x [2 x i32]]], ptr %p, i64 %m, i8 -1, i64 %m, i8   %k
  store i32 1, ptr %q
  ret void
}
";

const ONE_NUMBER: &str = "define void @f(ptr %p, i64 %n, i64 %m, i8 %k) {
  %q = getelementptr [4 x [2 x [2 x i32]]], ptr %p, i64 %m, i8 -1, i64 %m, i8   -128
  store i32 1, ptr %q
  ret void
}
";

const ALL_NUMBERS: &str = "define void @f(ptr %p, i64 %n, i64 %m, i8 %k) {
  %q = getelementptr [4 x [2 x [2 x i32]]], ptr %p, i64 -3, i8 -1, i64 -3, i8   -128
  store i32 1, ptr %q
  ret void
}
";

#[test]
fn values_in_the_place_of_terms(rt: HostRuntime) {
    let alloc = rt.alloc();
    let mut m = module_of(&rt, alloc, TWO_TERMS);
    let mut f = first_of(&mut m).expect(&rt, "a body");
    f.replace_local(LocalNo(1), Val::Local(LocalNo(2)));
    expect(&rt, alloc, &f, ONE_FOR_ANOTHER);
    f.replace_local(LocalNo(3), Val::Num(Ty::I8, 128));
    expect(&rt, alloc, &f, ONE_NUMBER);
    f.replace_local(LocalNo(2), Val::Num(Ty::I64, 18446744073709551613));
    expect(&rt, alloc, &f, ALL_NUMBERS);
}
