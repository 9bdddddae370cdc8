//! What an owner answers to growths of the highest ranks.
use super::dealt::{Asked, told};
use nll_worked::BY_TURNS;

#[test]
fn the_highest_rank_passes_and_none_above(rt: HostRuntime) {
    let told = told(rt.alloc(), BY_TURNS, 2, Asked::LastAnswers);
    let want = "wrong|Ok(())|Ok(())|2305843009213693952|2|5";
    match told {
        Ok(text) => assert!(rt; text.as_str() == want, "{text}"),
        Err(failure) => assert!(rt; false, "{failure:?}"),
    }
}
