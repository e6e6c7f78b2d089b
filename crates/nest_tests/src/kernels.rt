//! Terms that are cut into those of several kernels.

use crate::lowering::lowered_last;
use kernel_sequence::{CutNo, cut};
use lift_tree::program::Program;
use lift_tree::ty::Ty;
use lowered_tree::lowered::Lowered;
use lowered_tree::rule::NestRule;
use program_source::last_term;
use std::alloc::{AllocError, Global};
use std::test::Fail;
use term_texts::term_text;

const TWICE: &str = "input xs: [u32; 4]; output map(\\x. add(x, 1), map(\\x. mul(x, 2), xs))";

const THRICE: &str =
    "input xs: [u32; 4]; output map(\\x. add(x, 1), map(\\x. mul(x, 2), map(\\x. sub(x, 3), xs)))";

const BESIDE: &str =
    "input xs: [u32; 4]; input ys: [u32; 4]; output map(\\p. add(first(p), second(p)), zip(map(\\x. mul(x, 2), xs), map(\\y. sub(y, 3), map(\\z. add(z, 4), ys))))";

const BOUND: &str =
    "input xs: [u32; 4]; output let y = map(\\x. x, xs) in map(\\z. fold(\\a b. add(a, b), z, y), map(\\w. mul(w, 2), xs))";

const PAIRED: &str =
    "input xs: [u32; 4]; output map(\\p. add(first(p), second(p)), map(\\x. pair(x, x), xs))";

// Names for the inputs of kernels: the program's, then the scratch arrays in their order.
const OF_ONE: &str =
    "input xs: [u32; 4]; input a: [u32; 4]; input b: [u32; 4]; input c: [u32; 4]; output xs";

const OF_TWO: &str =
    "input xs: [u32; 4]; input ys: [u32; 4]; input a: [u32; 4]; input b: [u32; 4]; input c: [u32; 4]; output xs";

// A program, a script, names, and the kernels' terms, a line for each.
const CUT: [(&str, &str, &str, &str); 11] = [
    (
        TWICE,
        "at 0 to-glb\nat 0 then\nat . to-glb",
        OF_ONE,
        "mapGlb(\\_0. mul(_0, 2), xs)\nmapGlb(\\_0. add(_0, 1), a)\n",
    ),
    // one kernel
    (
        TWICE,
        "",
        OF_ONE,
        "map(\\_0. add(_0, 1), map(\\_0. mul(_0, 2), xs))\n",
    ),
    // one within another, the inner first
    (
        THRICE,
        "at 0 then\nat 0.0.0 then",
        OF_ONE,
        "map(\\_0. sub(_0, 3), xs)\nmap(\\_0. mul(_0, 2), a)\nmap(\\_0. add(_0, 1), b)\n",
    ),
    // side by side, the left one first
    (
        BESIDE,
        "at 0.1 then\nat 0.0 then",
        OF_TWO,
        "map(\\_0. mul(_0, 2), xs)\nmap(\\_0. sub(_0, 3), map(\\_0. add(_0, 4), ys))\nmap(\\_0. add(first(_0), second(_0)), zip(a, b))\n",
    ),
    // all those on the right before the node over both
    (
        BESIDE,
        "at 0.1.0 then\nat 0.1 then\nat 0.0 then",
        OF_TWO,
        "map(\\_0. mul(_0, 2), xs)\nmap(\\_0. add(_0, 4), ys)\nmap(\\_0. sub(_0, 3), b)\nmap(\\_0. add(first(_0), second(_0)), zip(a, c))\n",
    ),
    // no binder is around a let's value, nor around what a map or a fold is over
    (
        BOUND,
        "at 0 then",
        OF_ONE,
        "map(\\_0. _0, xs)\nlet _0 = a in map(\\_1. fold(\\_2 _3. add(_2, _3), _1, _0), map(\\_1. mul(_1, 2), xs))\n",
    ),
    (
        "input xs: [u32; 4]; output fold(\\a b. add(a, b), 0, map(\\x. mul(x, 2), xs))",
        "at 0 then",
        OF_ONE,
        "map(\\_0. mul(_0, 2), xs)\nfold(\\_0 _1. add(_0, _1), 0, a)\n",
    ),
    (
        "input xs: [u32; 4]; output reverse(map(\\x. add(x, 1), xs))",
        "at 0 then",
        OF_ONE,
        "map(\\_0. add(_0, 1), xs)\nreverse(a)\n",
    ),
    (
        "input xs: [u32; 4]; output reduce(add, 5, map(\\x. mul(x, 2), xs))",
        "at 0 then",
        OF_ONE,
        "map(\\_0. mul(_0, 2), xs)\nreduce(add, 5, a)\n",
    ),
    // a cut of a cut, and of the whole, is a kernel that reads an array alone
    (
        TWICE,
        "at 0 then\nat 0 then",
        OF_ONE,
        "map(\\_0. mul(_0, 2), xs)\na\nmap(\\_0. add(_0, 1), b)\n",
    ),
    (
        TWICE,
        "at . then",
        OF_ONE,
        "map(\\_0. add(_0, 1), map(\\_0. mul(_0, 2), xs))\na\n",
    ),
];

// A program, a script, and the first cut in preorder with a binder around.
const UNDER_BINDERS: [(&str, &str, &str); 4] = [
    (
        "input xs: [u32; 4]; output let y = map(\\x. x, xs) in map(\\z. fold(\\a b. add(a, b), z, y), xs)",
        "at 0 then\nat . let-inline",
        "10",
    ),
    (BOUND, "at 0 then\nat . let-inline", "10"),
    // one that no binder is around is passed over
    (BOUND, "at 0 then\nat . let-inline\nat 0 then", "10"),
    // a let's body
    (
        "input xs: [u32; 4]; output let y = map(\\x. mul(x, 2), xs) in let k = xs in map(\\p. add(first(p), second(p)), zip(y, k))",
        "at 0 then\nat . let-inline",
        "100",
    ),
];

// The kernels of the script's last term; none where the program or the script is refused.
fn cut_last(
    alloc: Global,
    program: &str,
    script: &str,
) -> Result<Option<Result<Vec<Lowered>, CutNo>>, Fail> {
    match lowered_last(alloc, program, script)? {
        Some(lowered) => Ok(Some(cut(alloc, &lowered))),
        None => Ok(None),
    }
}

// The kernels, where there are some.
fn made(kernels: Option<Result<Vec<Lowered>, CutNo>>) -> Option<Vec<Lowered>> {
    match kernels {
        Some(Ok(kernels)) => Some(kernels),
        Some(Err(_no)) => None,
        None => None,
    }
}

// So many cuts of the array of the map on top, and then these steps.
fn cuts(alloc: Global, count: u32, steps: &str) -> Result<String, AllocError> {
    let mut script = String::new(alloc);
    for _ in 0..count {
        script.push_str("at 0 then\n")?;
    }
    script.push_str(steps)?;
    Ok(script)
}

// The kernels' terms, a line for each.
fn terms(alloc: Global, kernels: &[Lowered], names: &Program) -> Result<Vec<u8>, AllocError> {
    let mut text = Vec::new(alloc);
    for kernel in kernels {
        let line = term_text(alloc, &kernel.term, names)?;
        text.extend_from_slice(line.as_slice())?;
        text.push(b'\n')?;
    }
    Ok(text)
}

// Each kernel has one input more than the kernel before it.
fn inputs_grow(kernels: &[Lowered], first: usize) -> bool {
    kernels.iter().enumerate().all(|(number, kernel)| {
        kernel.inputs.len().checked_sub(first) == Some(number)
    })
}

fn are(alloc: Global, kernels: &[Lowered], names: &str, want: &str) -> Result<bool, Fail> {
    match last_term(alloc, names.as_bytes(), b"") {
        Ok(last) => {
            let text = terms(alloc, kernels, &last.typed.program)?;
            Ok(text.as_slice() == want.as_bytes())
        }
        Err(_) => Ok(false),
    }
}

#[test]
fn terms_are_cut_in_postorder(rt: HostRuntime) -> Result<(), Fail> {
    for (program, script, names, want) in CUT {
        match made(cut_last(rt.alloc(), program, script)?) {
            Some(kernels) => {
                assert!(rt; are(rt.alloc(), &kernels, names, want)?, "{script}");
                let first = if names == OF_ONE { 1 } else { 2 };
                assert!(rt; inputs_grow(&kernels, first), "{script}");
            }
            None => assert!(rt; false, "{script}"),
        }
    }
    Ok(())
}

fn is_of_pairs(ty: &Ty) -> bool {
    match ty {
        Ty::Array(element, _) => matches!(&**element, Ty::Pair(_, _)),
        _ => false,
    }
}

// An array of pairs is one input of a term, as a program's is.
#[test]
fn an_array_of_pairs_is_one_input(rt: HostRuntime) -> Result<(), Fail> {
    match made(cut_last(rt.alloc(), PAIRED, "at 0 then")?) {
        Some(kernels) => {
            let of_pairs = match kernels.as_slice() {
                [_, last] => match last.inputs.as_slice() {
                    [program, scratch] => !is_of_pairs(program) && is_of_pairs(scratch),
                    _ => false,
                },
                _ => false,
            };
            assert!(rt; of_pairs);
        }
        None => assert!(rt; false),
    }
    Ok(())
}

fn is_place(numbers: &[u32], digits: &str) -> bool {
    numbers.iter().map(|n| *n).eq(digits.bytes().map(|digit| (digit as u32).wrapping_sub(48)))
}

fn is_under_a_binder(cut: Option<Result<Vec<Lowered>, CutNo>>, digits: &str) -> bool {
    match cut {
        Some(Err(CutNo::Nest { place, rule })) => {
            is_place(place.numbers(), digits) && rule == NestRule::N13
        }
        _ => false,
    }
}

// It is told before the number of kernels.
#[test]
fn no_binder_is_around_a_cut(rt: HostRuntime) -> Result<(), Fail> {
    for (program, script, digits) in UNDER_BINDERS {
        let cut = cut_last(rt.alloc(), program, script)?;
        assert!(rt; is_under_a_binder(cut, digits), "{script}");
    }
    let script = cuts(rt.alloc(), 16, "at . let-inline")?;
    let cut = cut_last(rt.alloc(), BOUND, &script)?;
    assert!(rt; is_under_a_binder(cut, "10"));
    Ok(())
}

#[test]
fn a_term_has_at_most_sixteen_kernels(rt: HostRuntime) -> Result<(), Fail> {
    let script = cuts(rt.alloc(), 15, "")?;
    match made(cut_last(rt.alloc(), TWICE, &script)?) {
        Some(kernels) => {
            assert!(rt; kernels.len() == 16);
            assert!(rt; inputs_grow(&kernels, 1));
            let again = match kernels.as_slice() {
                [.., last] => made(Some(cut(rt.alloc(), last))),
                [] => None,
            };
            match again {
                Some(only) => assert!(rt; inputs_grow(&only, 16)),
                None => assert!(rt; false),
            }
        }
        None => assert!(rt; false),
    }
    let script = cuts(rt.alloc(), 16, "")?;
    match cut_last(rt.alloc(), TWICE, &script)? {
        Some(Err(CutNo::Limit { count })) => assert!(rt; count == 17),
        _ => assert!(rt; false),
    }
    Ok(())
}
