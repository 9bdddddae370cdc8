//! The readers of texts that list items, one per line: cut files, which list the owner of each
//! region, and schedules, which list events of owners.
//!
//! Reading order: `list_format`, `list`; `cut_file`, `cut_laws`; `event_line`, `schedule`,
//! `schedule_laws`. The definitions are in specs/.
#![tactic(auto)]

mod cut_file;
mod cut_laws;
mod event_line;
mod list;
mod list_format;
mod schedule;
mod schedule_laws;

pub use cut_file::read_cut;
pub use cut_laws::{
    cut_never_at_end, cut_not_both, cut_one_fault, cut_one_meaning, cut_some_meaning_or_fault,
};
pub use list::read_list;
pub use list_format::ListFormat;
pub use schedule::read_schedule;
pub use schedule_laws::{
    schedule_never_at_end, schedule_not_both, schedule_one_fault, schedule_one_meaning,
    schedule_some_meaning_or_fault,
};
