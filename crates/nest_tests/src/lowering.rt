//! Programs and scripts, run and lowered.

use lift_tree::ty::Ty;
use lowered_tree::lowered::Lowered;
use lowered_tree::typed::lowered;
use lowered_tree::words::forms_have_words;
use program_source::last_term;
use std::alloc::Global;
use std::test::Fail;

/// The last term of the script, lowered; none where the program or the script is refused.
pub fn lowered_last(alloc: Global, program: &str, script: &str) -> Result<Option<Lowered>, Fail> {
    let Ok(last) = last_term(alloc, program.as_bytes(), script.as_bytes()) else {
        return Ok(None);
    };
    Ok(Some(lowered(alloc, &last.typed)?))
}

#[test]
fn lowering_keeps_the_term_and_its_names(rt: HostRuntime) -> Result<(), Fail> {
    let program =
        "size N from 1 to 4; input xs: [u32; N]; input rows: [[u32; 3]; 2]; output map(\\x. x, xs)";
    match lowered_last(rt.alloc(), program, "at . to-seq")? {
        Some(lowered) => {
            assert!(rt; lowered.names.as_slice().len() == 1);
            assert!(rt; lowered.inputs.len() == 2);
            assert!(rt;
                matches!(
                    lowered.inputs.as_slice(),
                    [Ty::Array(_, _), Ty::Array(_, _)]
                )
            );
            assert!(rt; lowered.is_task());
            forms_have_words(&lowered.term);
        }
        None => assert!(rt; false),
    }
    Ok(())
}
