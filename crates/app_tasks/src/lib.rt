//! What is done with a machine that was read: it is booted, played, watched, summed up, or a history of it is read again. Nothing here
//! sees words, files or the output.
#![tactic(auto)]

mod boot;
mod load;
mod play;
mod replay;
mod summary;
mod watch;

pub use boot::booted;
pub use load::loaded;
pub use play::played;
pub use replay::{RetoldRun, retold};
pub use watch::{WatchedRun, watched};
