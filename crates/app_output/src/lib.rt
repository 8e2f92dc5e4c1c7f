//! Puts what a run found to a sink, line by line: the listing of its tables, its history and its device tree, what was read of it, the lines of a plan, a
//! history that was read, the sources that are selected, and the line of its status. What all programs promise of a call stands here, too.
#![tactic(auto)]

mod count;
mod history;
mod lines;
mod listing;
mod notes;
mod outcome;
mod paths;
mod piece;
mod plan;
mod run;
mod status;
mod stop;
mod tree;

pub use count::put_count;
pub use history::put_history;
pub use listing::put_listing;
pub use notes::put_watch;
pub use outcome::Outcome;
pub use paths::put_paths;
pub use piece::{flush, put_piece};
pub use plan::put_plan;
pub use run::put_run;
pub use status::report;
pub use stop::{OutputStop, status_after};
pub use tree::put_tree;
