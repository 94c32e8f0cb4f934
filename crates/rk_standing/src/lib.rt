//! What the files of a vault stand for, and what an opening and a group more make of it: laws alone.
#![tactic(auto)]

mod laws;

pub use laws::{
    an_append_leaves_first_commits, an_opened_store_takes_more, an_opening_leaves_first_commits,
    entries_stand_for_more,
};
