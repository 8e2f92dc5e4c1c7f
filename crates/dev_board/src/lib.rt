//! The board: a world and its history, one event at a time. It boots any machine that fits its formed tables; then the
//! callers of the scripts take their turns.
#![tactic(auto)]

mod answer;
mod board;
mod board_state;
mod boot;
mod booted;
mod closed;
mod history;
mod io_result;
mod lease;
mod post;
mod posted;
mod seen;
mod step;
mod stepped;
mod told;
mod turns;
mod waiting;

pub use answer::{Answer, LeaseStep};
pub use board::Board;
pub use boot::run_boot;
pub use booted::booted_board;
pub use io_result::IoResult;
pub use posted::Posted;
pub use run_rules::Wait;
pub use stepped::Stepped;
pub use told::Told;
pub use turns::run_turns;
pub use waiting::Outlook;
