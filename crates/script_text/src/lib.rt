//! Reads scripts, order files and watch files: the commands of a caller, who takes the next turn, and who reads what came of it. The
//! commands follow drvctl(8); the formats are this project's own.
#![tactic(auto)]

mod command;
mod operand;
mod order;
mod pairs;
mod script;
mod stop;
mod verb;
mod watch;
mod watch_code;
mod watch_line;

pub use order::read_order;
pub use script::read_script;
pub use stop::ScriptStop;
pub use watch::read_watch;
pub use watch_line::WatchLine;
