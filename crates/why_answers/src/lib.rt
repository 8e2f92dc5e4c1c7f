//! Why a driver took a spot in a boot and why others did not, or why no search came to the spot: the lines for the name of a spot,
//! or of the device that stands on it; and the rows that a name has in a configuration, each with the spot to which it came nearest, or
//! with the instances of the name that are not in its tables.
#![tactic(auto)]

mod head;
mod laws;
mod name;
mod near;
mod near_rows;
mod rows;
mod spot;
mod unsearched;

pub use laws::unsearched_have_reasons;
pub use name::why_lines;
pub use rows::known_answer;
