//! Compiles a configuration: from the file that is named to its tables, or to its first fault. See config(1) and config(5).
#![tactic(auto)]

mod build;
mod compiler;
mod judge;
mod known;
mod stop;
mod tokens;

pub use cf_tables::Compiled;
pub use compiler::compile;
pub use judge::refusal;
pub use known::{Known, compile_known};
pub use stop::CompileStop;
