//! The text of a script.

use lift_tree::local_size::LocalSize;
use lift_tree::term::{Dimension, Level};
use rules_algebra::Rule as Algebra;
use rules_lower::Rule as Lower;
use rules_split::Rule as Split;
use std::alloc::Global;
use std::test::Fail;
use strategy_script::{Rule, ScriptLimit, ScriptNo, read_script};

// Each rule by its name, at the root or below.
const STEPS: [(&str, &[u32], Rule); 37] = [
    ("at . fuse-map", &[], Rule::Algebra(Algebra::FuseMap)),
    ("at 0 fuse-fold", &[0], Rule::Algebra(Algebra::FuseFold)),
    (
        "at 0.1 join-split",
        &[0, 1],
        Rule::Algebra(Algebra::JoinSplit),
    ),
    ("at . split-join", &[], Rule::Algebra(Algebra::SplitJoin)),
    (
        "at 4294967295.0.2 transpose-transpose",
        &[4294967295, 0, 2],
        Rule::Algebra(Algebra::TransposeTranspose),
    ),
    ("at . map-join", &[], Rule::Algebra(Algebra::MapJoin)),
    ("at . map-split", &[], Rule::Algebra(Algebra::MapSplit)),
    (
        "at . map-transpose",
        &[],
        Rule::Algebra(Algebra::MapTranspose),
    ),
    (
        "at . reverse-reverse",
        &[],
        Rule::Algebra(Algebra::ReverseReverse),
    ),
    ("at . map-reverse", &[], Rule::Algebra(Algebra::MapReverse)),
    ("at . map-stride", &[], Rule::Algebra(Algebra::MapStride)),
    (
        "at . stride-stride",
        &[],
        Rule::Algebra(Algebra::StrideStride),
    ),
    (
        "at . stride-layout",
        &[],
        Rule::Algebra(Algebra::StrideLayout),
    ),
    ("at . pad-map", &[], Rule::Algebra(Algebra::PadMap)),
    ("at . map-pad", &[], Rule::Algebra(Algebra::MapPad)),
    ("at . let-inline", &[], Rule::Algebra(Algebra::LetInline)),
    ("at . copy", &[], Rule::Algebra(Algebra::Copy)),
    ("at . split-map 0", &[], Rule::Split(Split::SplitMap(0))),
    (
        "at . split-reduce 2",
        &[],
        Rule::Split(Split::SplitReduce(2)),
    ),
    (
        "at . stride-reduce 4294967295",
        &[],
        Rule::Split(Split::StrideReduce(4294967295)),
    ),
    ("at . reduce-fold", &[], Rule::Split(Split::ReduceFold)),
    ("at . tile-slide 64", &[], Rule::Split(Split::TileSlide(64))),
    (
        "at . to-glb",
        &[],
        Rule::Lower(Lower::ToParallel(Level::Launch, Dimension::X)),
    ),
    (
        "at . to-glb1",
        &[],
        Rule::Lower(Lower::ToParallel(Level::Launch, Dimension::Y)),
    ),
    (
        "at . to-wrg",
        &[],
        Rule::Lower(Lower::ToParallel(Level::Groups, Dimension::X)),
    ),
    (
        "at . to-wrg1",
        &[],
        Rule::Lower(Lower::ToParallel(Level::Groups, Dimension::Y)),
    ),
    (
        "at . to-lcl",
        &[],
        Rule::Lower(Lower::ToParallel(Level::Items, Dimension::X)),
    ),
    (
        "at . to-lcl1",
        &[],
        Rule::Lower(Lower::ToParallel(Level::Items, Dimension::Y)),
    ),
    ("at . to-seq", &[], Rule::Lower(Lower::ToSequential)),
    ("at . fold-seq", &[], Rule::Lower(Lower::FoldSequential)),
    ("at . local", &[], Rule::Lower(Lower::Local)),
    ("at . private", &[], Rule::Lower(Lower::Private)),
    ("\tat\t1  local-copy ", &[1], Rule::Lower(Lower::LocalCopy)),
    (
        "at . private-copy\r\n",
        &[],
        Rule::Lower(Lower::PrivateCopy),
    ),
    ("at 0 then", &[0], Rule::Lower(Lower::Then)),
    ("at . vector", &[], Rule::Lower(Lower::Vector)),
    (
        "at 0.0 vector-scalar",
        &[0, 0],
        Rule::Lower(Lower::VectorScalar),
    ),
];

// Texts, and how many steps they have.
const COUNTED: [(&str, usize); 3] = [
    ("", 0),
    ("\n \t\n# at . nothing\n", 0),
    ("at . to-seq\r\n\tat\t1  copy \n#\nat . local", 3),
];

// Texts, the local size that each fixes, along a row and from row to row, and how many steps it
// has.
const SIZED: [(&str, Option<(u32, u32)>, usize); 12] = [
    ("launch local 2", Some((2, 1)), 0),
    ("launch local 1\nat . to-seq", Some((1, 1)), 1),
    (
        "# groups\n\n \t launch\tlocal  256 \r\nat . copy\nat . local",
        Some((256, 1)),
        2,
    ),
    (
        "launch local 4\n# launch local 2\n\nat . copy",
        Some((4, 1)),
        1,
    ),
    ("launch local 2 3", Some((2, 3)), 0),
    ("launch local 4 1\nat . copy", Some((4, 1)), 1),
    ("launch local 16 16", Some((16, 16)), 0),
    ("launch local 1 256", Some((1, 256)), 0),
    ("launch local 85 3", Some((85, 3)), 0),
    ("\tlaunch local\t2  3 \r\nat . copy", Some((2, 3)), 1),
    ("# launch local 2\nat . copy", None, 1),
    ("", None, 0),
];

// Texts, and the first line that is none of a script, or stands where it may not.
const REFUSED: [(&str, u64); 47] = [
    ("launch local 0", 1),
    ("launch local 257", 1),
    ("launch local 4294967297", 1),
    ("launch local 02", 1),
    ("launch local two", 1),
    ("launch local", 1),
    ("launch", 1),
    ("launch global 2", 1),
    ("Launch local 2", 1),
    ("launch local 2 # x", 1),
    ("launch local 16 17", 1),
    ("launch local 86 3", 1),
    ("launch local 257 1", 1),
    ("launch local 2 0", 1),
    ("launch local 0 2", 1),
    ("launch local 65536 65536", 1),
    ("launch local 2 4294967297", 1),
    ("launch local 2 03", 1),
    ("launch local 2 three", 1),
    ("launch local 2 2 2", 1),
    ("launch local 2 2 # x", 1),
    ("launch local 2\nlaunch local 2 3", 2),
    ("launch local2", 1),
    ("launch local +2", 1),
    ("launch local 2\nlaunch local 2", 2),
    ("at . to-seq\nlaunch local 2", 2),
    ("\n#\nlaunch local 2\n\nat . copy\n#\nlaunch local 4", 7),
    ("launch local 2\nat . to-sequence", 2),
    ("at . to-seq\nat . to-sequence", 2),
    ("at . to-seq # run", 1),
    ("at 0 then 1", 1),
    ("\nat 0 then\nlaunch local 2 2\nlaunch", 3),
    ("\n\nat . to-seq\r", 3),
    ("at . split-map", 1),
    ("at . split-map 2 3", 1),
    ("at . copy 1", 1),
    ("at . split-map 01", 1),
    ("at . split-map 4294967296", 1),
    ("at . split-map -1", 1),
    ("at 00 copy", 1),
    ("at 4294967296 copy", 1),
    ("at 0. copy", 1),
    ("at .0 copy", 1),
    ("at 0..1 copy", 1),
    ("At . copy", 1),
    ("at copy", 1),
    ("\r\n \r\nat . copy\r\r\n", 3),
];

fn is_step(alloc: Global, text: &str, place: &[u32], rule: Rule) -> Result<bool, Fail> {
    match read_script(alloc, text.as_bytes()) {
        Ok(script) => match script.steps() {
            [step] => Ok(step.place.numbers() == place && step.rule == rule),
            _ => Ok(false),
        },
        Err(_) => Ok(false),
    }
}

fn has_steps(alloc: Global, text: &[u8], count: usize) -> Result<bool, Fail> {
    match read_script(alloc, text) {
        Ok(script) => Ok(script.steps().len() == count),
        Err(_) => Ok(false),
    }
}

fn fixes(alloc: Global, text: &str, local: Option<(u32, u32)>, count: usize) -> Result<bool, Fail> {
    match read_script(alloc, text.as_bytes()) {
        Ok(script) => Ok(
            LocalSize::fixed(script.local()) == local && script.steps().len() == count,
        ),
        Err(_) => Ok(false),
    }
}

fn is_refused(alloc: Global, text: &[u8], want: ScriptNo) -> Result<bool, Fail> {
    match read_script(alloc, text) {
        Ok(_) => Ok(false),
        Err(no) => Ok(no == want),
    }
}

#[test]
fn each_rule_is_read(rt: HostRuntime) -> Result<(), Fail> {
    for (text, place, rule) in STEPS {
        assert!(rt; is_step(rt.alloc(), text, place, rule)?, "{text}");
    }
    Ok(())
}

#[test]
fn texts_are_read_line_by_line(rt: HostRuntime) -> Result<(), Fail> {
    for (text, count) in COUNTED {
        assert!(rt; has_steps(rt.alloc(), text.as_bytes(), count)?, "{text}");
    }
    for (text, local, count) in SIZED {
        assert!(rt; fixes(rt.alloc(), text, local, count)?, "{text}");
    }
    for (text, line) in REFUSED {
        let want = ScriptNo::Syntax { line };
        assert!(rt; is_refused(rt.alloc(), text.as_bytes(), want)?, "{text}");
    }
    Ok(())
}

// 256 steps pass, 257 don't, and a line that is none comes first. A local size is no step.
#[test]
fn steps_are_limited(rt: HostRuntime) -> Result<(), Fail> {
    let alloc = rt.alloc();
    let mut text = Vec::from_slice(alloc, b"launch local 2\n")?;
    for _ in 0..256 {
        text.extend_from_slice(b"at . copy\n")?;
    }
    assert!(rt; has_steps(alloc, &text, 256)?);
    text.extend_from_slice(b"at . local")?;
    let many = ScriptNo::Limit {
        which: ScriptLimit::Steps,
        count: 257,
    };
    assert!(rt; is_refused(alloc, &text, many)?);
    text.extend_from_slice(b"\nat")?;
    assert!(rt; is_refused(alloc, &text, ScriptNo::Syntax { line: 259 })?);
    Ok(())
}
