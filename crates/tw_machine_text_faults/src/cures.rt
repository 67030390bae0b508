//! Mistakes that people bring from other languages, and the cure of each.
//!
//! A cure is looked for only at the word where a text goes wrong: a register may have any of these names.

use crate::reading::{Head, Last, Open, Reading, can_begin_statement, is_number};
use crate::spelling::Spelled;
use std::alloc::{AllocError, Global};
use tw_machine_text::Kind;

/// What could stand where a word goes wrong.
#[derive(Clone, Copy, PartialEq)]
enum Spot {
    Anything,
    /// A statement; the word is not one that is to be set.
    Statement,
    /// A statement, behind a whole one.
    NextStatement,
    /// A statement in a machine without timers.
    Untimed,
    /// The same in a machine with timers.
    Timed,
    /// The sign of a change.
    Change,
    /// What a statement works on: a queue, a timer or another.
    Object,
    /// A number behind the queue of a statement.
    Value,
    Operand,
    /// An operand; the word stands before a parenthesis.
    Function,
    Operator,
    /// An operator, but not in an index.
    Comparison,
    /// An operator in parentheses, in a statement that has a comma.
    Group,
    /// Anything in parentheses or an index, in a file with fields.
    Packed,
}

impl Spot {
    /// Whether this could stand in the place of a word that has this word behind it.
    fn is_here(self, reading: &Reading, behind: &str) -> bool {
        let open = reading.open.last().copied();
        let operand = matches!(reading.last, Last::Operator | Last::Queue);
        let operator = reading.last == Last::Operand;
        let statement = can_begin_statement(reading) && !is_change(behind);
        match self {
            Spot::Anything => true,
            Spot::Statement => statement,
            Spot::NextStatement => reading.last == Last::Statement,
            Spot::Untimed => statement && !reading.timed,
            Spot::Timed => statement && reading.timed,
            Spot::Change => reading.last == Last::Place,
            Spot::Object => is_object(reading.last) && !matches!(open, Some(Open::Function(..))),
            Spot::Value => reading.last == Last::Queue,
            Spot::Operand => operand,
            Spot::Function => operand && behind == "(",
            Spot::Operator => operator,
            Spot::Comparison => operator && !matches!(open, Some(Open::Index(_))),
            Spot::Group => operator && open == Some(Open::Group) && reading.head == Head::Put,
            Spot::Packed => reading.fielded && !matches!(open, Some(Open::Block(..)) | None),
        }
    }
}

/// Whether what a statement works on has to come.
fn is_object(last: Last) -> bool {
    matches!(
        last,
        Last::NoQueue | Last::NoObservation | Last::NoProcedure | Last::NoTimer
    )
}

/// Whether a word is the sign of a change.
pub(crate) fn is_change(word: &str) -> bool {
    matches!(word, "=" | "+=" | "-=" | "^=")
}

/// Words that are wrong at such a place, of signs also two that touch, and what is right.
type Mistake = (Spot, &'static [&'static str], &'static str);

const EQUAL: &str = "whether two numbers are equal is ==";

const DIFFERENT: &str = "whether two numbers differ is !=";

const NOT_GREATER: &str = "whether one number is at most the other is <=";

const NOT_LESS: &str = "whether one number is at least the other is >=";

const AND: &str = "it is written \"and\"";

const OR: &str = "it is written \"or\"";

const NOT: &str = "it is written \"not\"";

const SET: &str = "a register is set by =";

const WHOLE: &str = "every number is a whole one";

const NUMBERS: &str = "every value is a number";

const XOR: &str = "an exclusive or is the statement a ^= e";

const POWER: &str = "a power is a product, as a * a";

const COMMENT: &str = "a comment begins with #, and a quotient is a / b, rounded down";

const BLOCK: &str = "a block stands in { and }";

const TURNS: &str = "what is done n times is repeat n { .. }, n from 0 to 64";

const LENGTH: &str = "how many values a queue has is length(q)";

const FRONT: &str = "the first value of a queue is front(q)";

const LAST: &str = "the last value of a queue is last(q)";

const PUSH: &str = "push q e brings a value to the end of a queue";

const POP: &str = "pop q takes the first value of a queue away";

const TAKEN: &str = "the first value of a queue is front(q), and pop q takes it away";

const SAMPLE: &str =
    "a number by chance is sample(t), from a table of quantiles, or roll(n), from 0 to n - 1";

const NO_PARENTHESES: &str = "a statement has no parentheses, as push q 3";

const NO_COMMA: &str = "no comma stands behind a statement or its queue";

const COLON: &str = "a number stands behind its field in item alone, as item(f: 1)";

const FIELD: &str = "the field f of a value is f(e)";

const START: &str = "start T in e lets a timer run, and stop T ends it";

/// The mistakes. Of those that fit the first counts.
const MISTAKES: [Mistake; 72] = [
    // Signs.
    (Spot::Change, &["==", "<-"], SET),
    (
        Spot::Change,
        &["*=", "/=", "%=", "<<=", ">>="],
        "it is written out, as a = a * 2",
    ),
    (Spot::Anything, &["&&"], AND),
    (
        Spot::Anything,
        &["&"],
        "of two tests it is written \"and\", and of bits there is none",
    ),
    (Spot::Anything, &["||"], OR),
    (
        Spot::Anything,
        &["|"],
        "of two tests it is written \"or\", and of bits there is none",
    ),
    (Spot::Anything, &["!"], NOT),
    (Spot::Anything, &["//", "/*"], COMMENT),
    (Spot::Anything, &["++"], "1 is added by a += 1"),
    (Spot::Anything, &["--"], "1 is subtracted by a -= 1"),
    (Spot::Anything, &["**"], POWER),
    (
        Spot::Anything,
        &["<<"],
        "a shift to the left is a product, as a * 4",
    ),
    (
        Spot::Anything,
        &[">>"],
        "a shift to the right is a quotient, as a / 4",
    ),
    (Spot::Anything, &["^"], XOR),
    (Spot::Anything, &["<>", "!==", "≠"], DIFFERENT),
    (Spot::Anything, &["==="], EQUAL),
    (Spot::Anything, &["=<", "≤"], NOT_GREATER),
    (Spot::Anything, &["=>", "≥"], NOT_LESS),
    (Spot::Anything, &[":="], SET),
    (Spot::Packed, &[":"], COLON),
    (Spot::Anything, &[":"], BLOCK),
    (
        Spot::Anything,
        &["?"],
        "one of two numbers is choose(c, a, b)",
    ),
    (Spot::Anything, &["\"", "'"], NUMBERS),
    (Spot::Anything, &["."], "no name has a dot"),
    (
        Spot::Anything,
        &[";"],
        "one stands behind a whole statement, or none",
    ),
    (Spot::Comparison, &["="], EQUAL),
    (Spot::Operand, &["+"], "no + stands before a number"),
    (Spot::Object, &["("], NO_PARENTHESES),
    (Spot::Object, &["{"], TURNS),
    (Spot::Group, &[","], NO_PARENTHESES),
    (Spot::Value, &[","], NO_COMMA),
    (Spot::Statement, &[","], NO_COMMA),
    (Spot::NextStatement, &["("], NO_PARENTHESES),
    (
        Spot::Statement,
        &["{"],
        "a block stands behind if, else or repeat",
    ),
    // Operators and operands.
    (Spot::Operator, &["AND", "And"], AND),
    (Spot::Operator, &["OR", "Or"], OR),
    (Spot::Operand, &["NOT", "Not"], NOT),
    (Spot::Operator, &["xor", "XOR"], XOR),
    (Spot::Operator, &["mod", "MOD"], "a remainder is a % b"),
    (
        Spot::Operator,
        &["div", "DIV"],
        "a quotient is a / b, rounded down",
    ),
    (
        Spot::Operator,
        &["is"],
        "whether two numbers are equal is ==, and whether they differ is !=",
    ),
    (Spot::Operator, &["then"], BLOCK),
    (Spot::Operand, &["true", "True", "TRUE"], "true is 1"),
    (Spot::Operand, &["false", "False", "FALSE"], "false is 0"),
    (Spot::Operand, &["None", "null", "nil", "NULL"], NUMBERS),
    (
        Spot::Operand,
        &["inf", "infinity"],
        "a machine waits without an end by passivate",
    ),
    (
        Spot::Operand,
        &["env", "time", "clock"],
        "the present tick is now",
    ),
    (
        Spot::Anything,
        &["self", "this"],
        "a register stands by its name alone",
    ),
    (Spot::Operand, &["pop", "popleft", "dequeue"], TAKEN),
    // Functions.
    (Spot::Function, &["len", "size", "count"], LENGTH),
    (
        Spot::Function,
        &[
            "exponential",
            "expovariate",
            "expo",
            "poisson",
            "erlang",
            "uniform",
            "triangular",
        ],
        SAMPLE,
    ),
    (
        Spot::Function,
        &[
            "normal",
            "normalvariate",
            "gauss",
            "lognormal",
            "lognormvariate",
            "gamma",
            "weibull",
        ],
        SAMPLE,
    ),
    (
        Spot::Function,
        &["randint", "randrange", "rand", "choice"],
        SAMPLE,
    ),
    (Spot::Function, &["int", "float", "round", "floor"], WHOLE),
    (
        Spot::Function,
        &["abs"],
        "how great a number is without its sign is max(a, -a)",
    ),
    (Spot::Function, &["pow"], POWER),
    (Spot::Function, &["mod"], "a remainder is a % b"),
    (
        Spot::Function,
        &["if"],
        "one of two numbers is choose(c, a, b)",
    ),
    // Statements.
    (
        Spot::Statement,
        &["elif", "elsif", "elseif"],
        "it is written \"else if\"",
    ),
    (
        Spot::Statement,
        &["switch", "match", "case"],
        "a choice is if .. else if .. else",
    ),
    (Spot::Statement, &["while", "for", "loop", "until"], TURNS),
    (
        Spot::Statement,
        &["begin", "end", "endif", "fi", "done"],
        BLOCK,
    ),
    (Spot::Statement, &["pass"], "a block may be empty, as { }"),
    (
        Spot::Untimed,
        &["yield", "sleep", "timeout", "hold", "delay", "await"],
        "how many ticks it waits is set by wait e",
    ),
    (
        Spot::Timed,
        &[
            "yield", "sleep", "timeout", "hold", "delay", "await", "schedule",
        ],
        START,
    ),
    (
        Spot::Statement,
        &["return", "break", "continue", "exit"],
        "a program goes to its end: what is not always done stands in the block of an if",
    ),
    (Spot::Statement, &["append", "enqueue"], PUSH),
    (Spot::Statement, &["dequeue", "popleft"], POP),
    (
        Spot::Statement,
        &["let", "var", "int", "long", "float", "double", "const"],
        "what a machine keeps is declared in \"registers\"",
    ),
    (
        Spot::Statement,
        &["def", "function", "fn", "call"],
        "do p does what the procedure p says in \"procedures\"",
    ),
    (
        Spot::Statement,
        &["print", "printf"],
        "what the trace shows stands in \"words\"",
    ),
    (
        Spot::Untimed,
        &["send", "emit"],
        "what is sent stands in \"output\"",
    ),
];

/// What are methods of queues elsewhere, and what stands for them.
const METHODS: [Mistake; 9] = [
    (
        Spot::Statement,
        &["push", "append", "put", "enqueue", "add"],
        PUSH,
    ),
    (
        Spot::Statement,
        &["pop", "popleft", "get", "dequeue", "shift"],
        POP,
    ),
    (
        Spot::Statement,
        &["insert"],
        "put q i, e brings a value to a place of a queue",
    ),
    (
        Spot::Statement,
        &["remove"],
        "remove q i takes the value at a place of a queue away",
    ),
    (
        Spot::Statement,
        &["clear"],
        "clear q takes all values of a queue away",
    ),
    (
        Spot::Operand,
        &["pop", "popleft", "get", "dequeue", "shift"],
        TAKEN,
    ),
    (
        Spot::Operand,
        &["length", "len", "size", "count", "items"],
        LENGTH,
    ),
    (Spot::Operand, &["front", "first", "peek"], FRONT),
    (Spot::Operand, &["last", "back"], LAST),
];

/// The word where a text goes wrong, and what stands around it.
#[derive(Clone, Copy)]
pub(crate) struct Wrong<'a> {
    pub(crate) word: &'a str,
    /// The word before it, if the two touch.
    before: &'a str,
    /// The word behind it.
    pub(crate) behind: &'a str,
    /// The same, if the two touch.
    touching: &'a str,
    /// What stands behind the dot behind it, and behind its index.
    method: &'a str,
}

impl<'a> Wrong<'a> {
    /// The word at a place in a list.
    pub(crate) fn new(words: &'a [Spelled], i: usize) -> Wrong<'a> {
        let next = i.saturating_add(1);
        let behind = text_at(words, next);
        Wrong {
            word: text_at(words, i),
            before: match i.checked_sub(1) {
                Some(before) if touches(words, before) => text_at(words, before),
                _ => "",
            },
            behind,
            touching: if touches(words, i) { behind } else { "" },
            method: method(words, next),
        }
    }
}

/// The text of the word at a place in a list.
fn text_at(words: &[Spelled], i: usize) -> &str {
    match words.get(i) {
        Some(word) => word.text.as_str(),
        None => "",
    }
}

/// Whether the word at a place in a list and the next have nothing between them.
fn touches(words: &[Spelled], i: usize) -> bool {
    match (words.get(i), words.get(i.saturating_add(1))) {
        (Some(word), Some(next)) => {
            let end = word.place.column.saturating_add(word.text.len());
            word.place.line == next.place.line && end == next.place.column
        }
        _ => false,
    }
}

/// The word behind a dot that stands at a place in a list, or behind an index there.
fn method(words: &[Spelled], i: usize) -> &str {
    let mut depth = 0usize;
    let mut is_dotted = false;
    for word in words.iter().skip(i) {
        match word.text.as_str() {
            text if is_dotted => return text,
            "[" => depth = depth.saturating_add(1),
            "]" => depth = depth.saturating_sub(1),
            "." if depth == 0 => is_dotted = true,
            _ if depth == 0 => return "",
            _ => {}
        }
    }
    ""
}

/// The cure that a table has for a word with another behind it.
fn find(
    table: &'static [Mistake],
    reading: &Reading,
    word: &str,
    behind: &str,
) -> Option<&'static str> {
    for (spot, words, cure) in table {
        if words.contains(&word) && spot.is_here(reading, behind) {
            return Some(*cure);
        }
    }
    None
}

/// The cure of a wrong word, if it is a mistake that is known; the word is the name of such a thing, or of none.
///
/// Refused where a growth of memory is.
pub(crate) fn cure_of(
    alloc: Global,
    reading: &Reading,
    wrong: &Wrong,
    kind: Option<Kind>,
) -> Result<Option<&'static str>, AllocError> {
    if let Some(kind) = kind {
        return Ok(cure_of_name(reading, wrong, kind));
    }
    if wrong.word == "." && (is_number(wrong.before) || is_number(wrong.touching)) {
        return Ok(Some(WHOLE));
    }
    if wrong.word == "." && wrong.before == "random" {
        return Ok(Some(SAMPLE));
    }
    let (before, word, touching) = (wrong.before, wrong.word, wrong.touching);
    let ended = format!(in alloc; "{before}{word}")?;
    let begun = format!(in alloc; "{word}{touching}")?;
    for pair in [ended.as_str(), begun.as_str()] {
        if pair != word {
            if let Some(cure) = find(&MISTAKES, reading, pair, wrong.behind) {
                return Ok(Some(cure));
            }
        }
    }
    Ok(find(&MISTAKES, reading, word, wrong.behind))
}

/// The cure where a name that is declared cannot stand.
fn cure_of_name(reading: &Reading, wrong: &Wrong, kind: Kind) -> Option<&'static str> {
    let is_statement = Spot::Statement.is_here(reading, wrong.behind);
    let is_operand = Spot::Operand.is_here(reading, wrong.behind);
    match kind {
        Kind::Queue | Kind::QueueArray if !wrong.method.is_empty() => {
            find(&METHODS, reading, wrong.method, wrong.behind)
        }
        Kind::Queue if is_operand && wrong.behind == "[" => {
            Some("the value of a queue at a place is at(q, i)")
        }
        Kind::RegisterArray | Kind::Table if is_operand && wrong.behind == "(" => {
            Some("an index stands in [ and ]")
        }
        Kind::Procedure(_) if is_statement => Some("do p does what a procedure says"),
        Kind::Timer(_) | Kind::TimerArray(..) if is_statement => Some(START),
        Kind::Register | Kind::Parameter | Kind::Constant(_) if wrong.behind == "(" => {
            find(&MISTAKES, reading, wrong.word, wrong.behind)
        }
        _ => None,
    }
}

/// The cure where the name of a field cannot stand that is no other name.
pub(crate) fn cure_of_field(reading: &Reading, wrong: &Wrong) -> Option<&'static str> {
    if Spot::Operand.is_here(reading, wrong.behind) && wrong.behind != "(" {
        Some(FIELD)
    } else {
        None
    }
}
