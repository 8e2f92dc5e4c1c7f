//! The configuration and the machine that `devconf load N` makes for itself, and boots without reading a file.
#![tactic(auto)]

mod conf;
mod machine;

pub use conf::conf_text;
pub use machine::machine_text;
