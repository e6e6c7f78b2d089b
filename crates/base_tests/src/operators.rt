//! The scalar operators on words, and their neutral elements.

use scalar_ops::regroup::{Add, And, Max, Min, Mul, Or, Xor, operators_are_named, regroups};
use scalar_ops::{Op, Reducer, Regroup, apply, choose};

#[test]
fn operators_give_worked_values(rt: HostRuntime) {
    for (op, a, b, want) in [
        (Op::Add, 4294967295, 1, 0),
        (Op::Mul, 65536, 65536, 0),
        (Op::Mul, 6, 7, 42),
        (Op::Min, 3, 9, 3),
        (Op::Max, 3, 9, 9),
        (Op::And, 12, 10, 8),
        (Op::Or, 12, 10, 14),
        (Op::Xor, 12, 10, 6),
        (Op::Sub, 0, 1, 4294967295),
        (Op::Sub, 5, 3, 2),
        (Op::Shl, 1, 33, 2),
        (Op::Shl, 1, 31, 2147483648),
        (Op::Shl, 2147483648, 1, 0),
        (Op::Shr, 4294967295, 32, 4294967295),
        (Op::Shr, 12, 34, 3),
        (Op::Lt, 2, 3, 1),
        (Op::Lt, 3, 3, 0),
        (Op::Eq, 3, 3, 1),
        (Op::Eq, 2, 3, 0),
        (Op::Div, 7, 2, 3),
        (Op::Rem, 7, 2, 1),
    ] {
        assert_eq!(rt; apply(op, a, b), want, "{a} and {b}");
    }
}

#[test]
fn chooses_by_the_first(rt: HostRuntime) {
    assert_eq!(rt; choose(0, 4, 5), 5);
    assert_eq!(rt; choose(1, 4, 5), 4);
    assert_eq!(rt; choose(4294967295, 4, 5), 4);
}

#[test]
fn neutral_elements_are_those_of_the_table(rt: HostRuntime) {
    for (reducer, want) in [
        (Reducer::Add, 0),
        (Reducer::Mul, 1),
        (Reducer::Min, 4294967295),
        (Reducer::Max, 0),
        (Reducer::And, 4294967295),
        (Reducer::Or, 0),
        (Reducer::Xor, 0),
    ] {
        assert_eq!(rt; reducer.neutral(), want);
        assert_eq!(rt; apply(reducer.op(), reducer.neutral(), 77), 77);
    }
}

fn reduced<R: Regroup>(words: &[u32]) -> u32 {
    let mut all = R::neutral();
    for word in words {
        all = R::join(all, *word);
    }
    all
}

#[test]
fn each_operator_reduces(rt: HostRuntime) {
    let words = [4294967295, 6, 10];
    assert_eq!(rt; reduced::<Add>(&words), 15);
    assert_eq!(rt; reduced::<Mul>(&words), 4294967236);
    assert_eq!(rt; reduced::<Min>(&words), 6);
    assert_eq!(rt; reduced::<Max>(&words), 4294967295);
    assert_eq!(rt; reduced::<And>(&words), 2);
    assert_eq!(rt; reduced::<Or>(&words), 4294967295);
    assert_eq!(rt; reduced::<Xor>(&words), 4294967283);
    regroups::<Add>();
    operators_are_named();
}
