//! How a program ended.

use app_words::Status;

/// How a program ended, and what it had found by then, which takes the most memory. The caller frees it, or lets it be if the process
/// ends.
#[derive(Drop)]
pub struct Outcome<T> {
    /// The status that was reported.
    pub status: Status,
    /// What was found for the words and the files, if anything.
    pub found: Option<T>,
}
