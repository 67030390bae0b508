//! Files and their faults, scripts that are refused, and command lines.

use crate::telling::tell_number;
use std::alloc::{AllocError, Global};
use tw_any_model::AnyModel;
use tw_cli::{Job, NoJob, Task, job};
use tw_file_faults::{explain, explain_text};
use tw_file_network::{FileRefused, json_of, network_of_any_file};
use tw_network::Network;
use tw_script::{ScriptRefused, commands_of_script};
use tw_test_refusal_tools::Told;
use tw_vtime::Refusal;

/// A network from a tree of models, and one of machines; a text that is none, a misspelt member, a parameter out of range, a name
/// that no component has, and a machine with a word that is not known.
static FILES: [&str; 7] = [
    r#"{"format": "tw-2", "micro_limit": 100, "components": [{"name": "g", "model": "gen", "period": 2, "value": 5},
{"name": "X", "components": [{"name": "r", "model": "relay", "delay": 0}, {"name": "t", "model": "tally"}],
"couplings": [["", 3, "r", 0], ["r", 0, "t", 0], ["r", 0, "", 1]]}, {"name": "u", "model": "tally"}],
"couplings": [["g", 0, "X", 3], ["X", 1, "u", 0]], "inputs": []}"#,
    r#"{"format": "tw-3", "micro_limit": 100,
 "models": [
  {"name": "maker", "parameters": ["period", "amount"], "registers": {"count": 0}, "first": "period",
   "internal": ["count += 1", "wait period"],
   "output": [{"port": 0, "value": "amount"}],
   "words": ["count"]},
  {"name": "adder", "registers": {"count": 0, "sum": 0, "last": 0},
   "external": ["count += 1", "sum += value", "last = value"],
   "words": ["count", "sum", "last"]}],
 "components": [{"name": "g", "model": "maker", "period": 2, "amount": 5}, {"name": "t", "model": "adder"}],
 "couplings": [["g", 0, "t", 0]], "inputs": []}"#,
    r#"{"a" 1}"#,
    r#"{"format":"tw-1","micro_limit":100,"components":[{"name":"h637","model":"hop","seed":1,"ports":1,"sprad":3}],"couplings":[["g",0,"t",0]],"inputs":[]}"#,
    r#"{"format":"tw-1","micro_limit":100,"components":[{"name":"g","model":"gen","period":2,"value":5},{"name":"q","model":"queue","service":1099511627775}],"couplings":[["g",0,"t",0]],"inputs":[]}"#,
    r#"{"format":"tw-2","micro_limit":100,"components":[{"name":"o","model":"gen","period":4,"value":1},{"name":"left","components":[{"name":"saw","model":"tally"}],"couplings":[["",0,"saw",0]]},{"name":"t","model":"tally"}],"couplings":[["o",0,"left",0]],"inputs":[{"tick":1,"to":"saw","port":0,"value":1}]}"#,
    r#"{"format":"tw-3","micro_limit":100,"models":[{"name":"server","registers":{"served":0},"queues":{"line":4},"internal":["served += 1","if lenght(line) > 0 { wait 1 }"],"words":["served"]}],"components":[],"couplings":[],"inputs":[]}"#,
];

/// The network of a file, at the second try where the first finds no memory.
fn read(alloc: Global, file: &str) -> Result<Network<AnyModel>, FileRefused> {
    match network_of_any_file(alloc, file.as_bytes()) {
        Err(FileRefused::OutOfMemory) => network_of_any_file(alloc, file.as_bytes()),
        answer => answer,
    }
}

/// What explains a file's fault.
fn explained(alloc: Global, file: &str, fault: FileRefused) -> Result<String, AllocError> {
    match json_of(alloc, file.as_bytes()) {
        Ok(value) => explain(alloc, &value, fault),
        Err(FileRefused::OutOfMemory) => Err(AllocError),
        Err(_) => explain_text(alloc, file.as_bytes()),
    }
}

/// Tells a file's fault: its number and name, and what explains it, which is made until it stands.
fn tell_refused(told: &mut Told, alloc: Global, file: &str, fault: FileRefused) {
    let refusal = Refusal::from(fault);
    let words = match explained(alloc, file, fault) {
        Err(_) => explained(alloc, file, fault),
        made => made,
    };
    match words {
        Ok(words) => tell_words(told, refusal, words.as_str()),
        Err(_) => told.give_up("explain"),
    }
}

/// Tells a refusal and some words, on a line.
fn tell_words(told: &mut Told, refusal: Refusal, words: &str) {
    if write!(told.text_mut(), "{refusal}: {words}\n").is_err() {
        told.give_up("explain");
    }
}

/// Reads a file, and tells how many components it has, or what is wrong with it.
fn read_file(told: &mut Told, alloc: Global, file: &str) {
    match read(alloc, file) {
        Ok(network) => tell_number(told, "components", network.len()),
        Err(fault) => tell_refused(told, alloc, file, fault),
    }
}

/// Command lines, and what each asks for.
static LINES: [&str; 3] = [
    "twarp run n.json --until 5 --workers 2 --burst 16 --window 1000 --cancel lazy --progress --set a.b=5 --set c.d=-6 --seed-all 3",
    "twarp seq n.json --until 0x5",
    "twarp run --help",
];

/// The words of a line, if there is memory for them.
fn words_of(alloc: Global, line: &str) -> Result<Vec<String>, AllocError> {
    let mut words = Vec::new(alloc);
    for word in line.split(' ') {
        words.push(String::from_str(alloc, word)?)?;
    }
    Ok(words)
}

/// What a job is called.
fn name_of(job: &Job<'_>) -> &'static str {
    match job {
        Job::Demo => "demo\n",
        Job::Check { .. } => "check\n",
        Job::Dot { .. } => "dot\n",
        Job::Simulate { task, .. } => match task {
            Task::Seq { .. } => "seq\n",
            Task::Stats { .. } => "stats\n",
            Task::Table { .. } => "table\n",
            Task::Draw { .. } => "draw\n",
            Task::Run { .. } => "run\n",
            Task::Play { .. } => "play\n",
        },
    }
}

/// What a line asks for; nothing where there is no memory.
fn asked(alloc: Global, words: &[String]) -> Option<&'static str> {
    match job(alloc, words) {
        Ok(job) => Some(name_of(&job)),
        Err(NoJob::OutOfMemory) => None,
        Err(NoJob::BadLine) => Some("23 BadLine\n"),
        Err(NoJob::Help(_)) => Some("help\n"),
        Err(NoJob::Version(_)) => Some("version\n"),
    }
}

/// Tells what a line asks for, at the second try where the first finds no memory.
fn read_line(told: &mut Told, alloc: Global, line: &str) {
    let words = match words_of(alloc, line) {
        Err(_) => words_of(alloc, line),
        made => made,
    };
    let Ok(words) = words else {
        told.give_up("words");
        return;
    };
    let asked = match asked(alloc, words.as_slice()) {
        None => asked(alloc, words.as_slice()),
        known => known,
    };
    match asked {
        Some(name) => told.say(name),
        None => told.give_up("job"),
    }
}

/// Scripts that say nothing, on a network of g and t.
static SCRIPTS: [&str; 3] = [
    "step g\nraise\nstepp g\n",
    "step g",
    "\n# nothing\nback g 02.0.0\n",
];

/// Tells how many commands a script has, or which of its lines is refused.
fn tell_script(told: &mut Told, alloc: Global, network: &Network<AnyModel>, script: &str) {
    let read = match commands_of_script(alloc, script.as_bytes(), network) {
        Err(ScriptRefused::OutOfMemory) => commands_of_script(alloc, script.as_bytes(), network),
        answer => answer,
    };
    match read {
        Ok(commands) => tell_number(told, "commands", commands.len()),
        Err(ScriptRefused::BadLine(line)) => tell_number(told, "refused line", line as usize),
        Err(_) => told.give_up("commands_of_script"),
    }
}

/// Reads the scripts, against the names of the second file.
fn read_scripts(told: &mut Told, alloc: Global) {
    let Ok(network) = read(alloc, FILES[1]) else {
        told.give_up("network_of_any_file");
        return;
    };
    for script in SCRIPTS.iter() {
        tell_script(told, alloc, &network, *script);
    }
}

/// Reads files, lines and scripts.
pub(crate) fn play(told: &mut Told, alloc: Global) {
    told.begin("files");
    for file in FILES.iter() {
        read_file(told, alloc, *file);
    }
    told.begin("lines");
    for line in LINES.iter() {
        read_line(told, alloc, *line);
    }
    told.begin("scripts");
    read_scripts(told, alloc);
}
