//! Words for what is wrong where a job is refused: lines that stand behind the one with the number and the name of the refusal.
//!
//! - `files`: [`file_words`], where a network's file is at fault, as `check` says it.
//! - `scripts`: [`script_words`], the line of a script that says nothing.
//! - `names`: [`name_words`], the names of a picture that nothing has, with the nearest names that there are.
//! - `settings`: [`setting_words`], the parameters that cannot be set in a file, with the nearest names that there are.
//! - `nearest`: the names that are nearest to one that was asked for.
//!
//! Which words they are is shown by tests; nothing is proved of them but that they are made, or refused for want of memory (4).
#![tactic(auto)]

mod files;
mod names;
mod nearest;
mod scripts;
mod settings;

pub use files::file_words;
pub use names::name_words;
pub use scripts::script_words;
pub use settings::setting_words;
