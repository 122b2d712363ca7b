//! Deciders: who finds the verdicts on claims, openings, edits and views, on one thread or with the
//! open cases spread over many.
#![tactic(auto)]

mod caching;
mod decider;
mod edit_decider;
mod found;
mod granted;
mod lister;
mod seen;
mod spread;
mod spread_parts;
mod stranded;
mod survey;
mod verdict_cache;
mod work_lists;

pub use caching::CachingDecider;
pub use decider::PlainDecider;
pub use spread::SpreadDecider;
pub use stranded::what_if;
pub use verdict_cache::VerdictCache;
pub use work_lists::worklist;
