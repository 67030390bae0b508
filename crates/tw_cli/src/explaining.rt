//! What is wrong with a line that is refused.

use crate::commands::command;
use crate::driving::cancel_in;
use crate::seeing::{detail_in, tabled_in};
use crate::setting::{by_in, setting_in};
use crate::values::{has, texts_in};
use clap::ArgMatches;
use std::alloc::{AllocError, Global};
use tw_file_settings::assignment_in;

/// The words for a line that [`job`](crate::job) refuses (23): those of `clap`, which show the word that is wrong and say what may stand
/// there; and where every word may stand there by itself, what does not go together.
///
/// Refused for want of memory (4).
pub fn line_words(alloc: Global, words: &[String]) -> Result<String, AllocError> {
    match command(alloc)?.try_get_matches_from(words) {
        Ok(matches) => match matches.subcommand() {
            Some((name, options)) => match set_words(alloc, options)? {
                Some(words) => Ok(words),
                None => String::from_str(alloc, apart_in(name, options)),
            },
            None => String::from_str(alloc, "a subcommand is missing"),
        },
        Err(error) => format!(in alloc; "{error}"),
    }
}

/// Which text of `--set` says no assignment, or sets what one before it sets.
fn set_words(alloc: Global, options: &ArgMatches<'_>) -> Result<Option<String>, AllocError> {
    let mut targets = Vec::new(alloc);
    for text in texts_in(options, "set").unwrap_or(&[]) {
        let Some(assignment) = assignment_in(text) else {
            let form = "takes COMPONENT.PARAMETER=VALUE with a whole number, as left.saw.service=4";
            return Ok(Some(format!(in alloc; "--set {text:?}: --set {form}")?));
        };
        let target = assignment.target;
        if targets.contains(&target) {
            return Ok(Some(format!(in alloc; "--set sets {target:?} twice")?));
        }
        targets.push(target)?;
    }
    Ok(None)
}

/// Which options of a subcommand do not go together.
fn apart_in(name: &str, options: &ArgMatches<'_>) -> &'static str {
    if name == "table" && tabled_in(options).is_none() {
        return "--items, --words and --figures exclude each other";
    }
    if name == "draw" && detail_in(options).is_none() {
        return "--marks and --courses exclude each other";
    }
    if (name == "stats" || name == "table") && by_in(options).is_none() {
        return by_apart(options);
    }
    if name == "run" && setting_in(options).is_none() {
        return "--workers takes 1 to 64, or auto";
    }
    if (name == "run" || name == "play" || name == "draw") && cancel_in(options).is_none() {
        return "--cancel takes aggressive or lazy";
    }
    match name {
        "play" => "play takes either --script, or --seed and --steps",
        "draw" => {
            "draw takes either --script, or --seed and --steps, or what is seen of a run: --from, --only, --figure, --width, --marks, --courses"
        }
        _ => "the options do not go together",
    }
}

/// Why the options of `stats` or `table` do not say who makes the run.
fn by_apart(options: &ArgMatches<'_>) -> &'static str {
    if !has(options, "workers") {
        return "--burst, --window and --cancel need --workers";
    }
    if cancel_in(options).is_none() {
        return "--cancel takes aggressive or lazy";
    }
    "--workers takes 1 to 64, or auto"
}
