//! The names that messages give.

use rewriting::Condition;
use std::test::Fail;

const CONDITIONS: [(Condition, &str); 9] = [
    (Condition::Positive, "positive"),
    (Condition::Divides, "divides"),
    (Condition::Length, "length"),
    (Condition::Same, "same"),
    (Condition::Mentions, "mentions"),
    (Condition::Array, "array"),
    (Condition::Whole, "whole"),
    (Condition::Closed, "closed"),
    (Condition::Lanes, "lanes"),
];

#[test]
fn conditions_have_names(rt: HostRuntime) -> Result<(), Fail> {
    for (condition, want) in CONDITIONS {
        assert_eq!(rt; condition.name(), want);
    }
    Ok(())
}
