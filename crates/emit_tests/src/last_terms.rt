//! Programs and scripts, run and lowered.

use lift_tree::local_size::LocalSize;
use lowered_tree::lowered::Lowered;
use lowered_tree::typed::lowered;
use program_source::last_term;
use std::alloc::Global;
use std::test::Fail;

/// The last term of the script, lowered, with the local size that the script fixes.
pub struct LoweredLast {
    pub lowered: Lowered,
    pub local: Option<LocalSize>,
}

/// The last term of the script; none where the program or the script is refused.
pub fn lowered_last(
    alloc: Global,
    program: &str,
    script: &str,
) -> Result<Option<LoweredLast>, Fail> {
    let Ok(last) = last_term(alloc, program.as_bytes(), script.as_bytes()) else {
        return Ok(None);
    };
    let lowered = lowered(alloc, &last.typed)?;
    Ok(Some(LoweredLast {
        lowered,
        local: last.local,
    }))
}
