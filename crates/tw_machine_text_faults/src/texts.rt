//! What is wrong in a machine's text, in words.

use crate::cures::{Wrong, cure_of, cure_of_field, is_change};
use crate::nearest::Nearest;
use crate::reading::{
    Called, First, Head, Last, Open, Reading, Role, arguments, can_begin_statement, is_field,
    is_item, is_name, is_number, is_of_timers, kind_of,
};
use crate::spelling::{Spelled, words_of};
use crate::words::quoted;
use std::alloc::{AllocError, Global};
use tw_machine_text::{
    CONTEXTUAL, Declared, FUNCTIONS, Kind, MAX_LEVELS, MAX_NODES, MAX_TURNS, Meaning, Member,
    Place, RESERVED, Word, is_reserved, is_sign,
};

/// The greatest number that a text may have.
const MAX_NUMBER: &str = "9223372036854775807";

const NOT_DECLARED: &str = "what a statement sets is declared in \"registers\"";

const TOO_MANY_NODES: &str = "more than 4096 nodes";

const TOO_MUCH_DONE: &str =
    "more than 4096 nodes, or than 64 levels, once procedures stand in their places";

/// Whether a program may end here.
fn is_whole(reading: &Reading) -> bool {
    let is_behind_operand = reading.last == Last::Operand && behind_statement(reading).is_none();
    reading.open.is_empty() && (reading.last == Last::Statement || is_behind_operand)
}

/// Why a text goes wrong at a place: a program, or the text of such a member, of a machine with timers or without.
///
/// Refused where a growth of memory is.
pub fn reason(
    alloc: Global,
    declared: &[Declared],
    timed: bool,
    member: Option<Member>,
    text: &str,
    place: Place,
) -> Result<String, AllocError> {
    let words = words_of(alloc, text)?;
    let mut reading = Reading::new(alloc, declared, timed, member);
    let mut wrong = None;
    for (i, word) in words.iter().enumerate() {
        if is_before(word, place) {
            reading.read(declared, word.text.as_str())?;
        } else {
            wrong = Some(i);
            break;
        }
    }
    let Some(i) = wrong else {
        if reading.nodes > MAX_NODES {
            return String::from_str(alloc, TOO_MANY_NODES);
        }
        if is_whole(&reading) {
            return String::from_str(alloc, TOO_MUCH_DONE);
        }
        let wanted = wanted(&reading);
        return format!(in alloc; "the text ends too early: expected {wanted}");
    };
    reason_of(alloc, declared, &reading, &Wrong::new(words.as_slice(), i))
}

/// Why a text goes wrong at a word.
fn reason_of(
    alloc: Global,
    declared: &[Declared],
    reading: &Reading,
    wrong: &Wrong,
) -> Result<String, AllocError> {
    let word = wrong.word;
    let cure = cure_in(alloc, declared, reading, wrong)?;
    if let Some(reason) = no_word(alloc, reading.fielded, word, cure)? {
        return Ok(reason);
    }
    if let Some(limit) = limit(reading, word) {
        return String::from_str(alloc, limit);
    }
    if is_name(word) && !is_number(word) && !is_known(declared, reading, word) {
        return unknown(alloc, declared, reading, wrong, cure);
    }
    out_of_place(alloc, declared, reading, wrong, cure)
}

/// The cure of a wrong word, if one is known.
fn cure_in(
    alloc: Global,
    declared: &[Declared],
    reading: &Reading,
    wrong: &Wrong,
) -> Result<Option<&'static str>, AllocError> {
    let kind = kind_of(declared, wrong.word);
    if kind.is_none() && is_field(declared, wrong.word) {
        return Ok(cure_of_field(reading, wrong));
    }
    cure_of(alloc, reading, wrong, kind)
}

/// A cure as it stands behind a line; nothing where there is none.
fn advice(alloc: Global, cure: Option<&str>) -> Result<String, AllocError> {
    match cure {
        Some(cure) => format!(in alloc; "; {cure}"),
        None => Ok(String::new(alloc)),
    }
}

/// Whether a word stands before a place.
fn is_before(word: &Spelled, place: Place) -> bool {
    word.place.line < place.line
        || (word.place.line == place.line && word.place.column < place.column)
}

/// Why a word is none of the language, if it is none: a colon is none in a file without fields.
fn no_word(
    alloc: Global,
    fielded: bool,
    word: &str,
    cure: Option<&str>,
) -> Result<Option<String>, AllocError> {
    let shown = quoted(alloc, word)?;
    if is_number(word) {
        return no_number(alloc, word, shown.as_str());
    }
    let is_sign = is_sign(word.as_bytes()) && (fielded || word != ":");
    if !is_name(word) && !is_sign {
        let advice = advice(alloc, cure)?;
        return Ok(Some(format!(in alloc; "the language has no sign {shown}{advice}")?));
    }
    Ok(None)
}

/// Why a word that begins with a digit is no number, if it is none.
fn no_number(alloc: Global, word: &str, shown: &str) -> Result<Option<String>, AllocError> {
    for letter in word.chars() {
        if !letter.is_ascii_digit() {
            return Ok(Some(format!(in alloc; "{shown} is neither a number nor a name")?));
        }
    }
    if word.len() > 1 && word.starts_with("0") {
        return Ok(Some(format!(in alloc; "the number {shown} begins with a zero")?));
    }
    if is_too_great(word) {
        return Ok(Some(format!(in alloc; "the number {shown} is greater than {MAX_NUMBER}")?));
    }
    Ok(None)
}

/// Whether digits are more than the greatest number.
fn is_too_great(digits: &str) -> bool {
    if digits.len() != MAX_NUMBER.len() {
        return digits.len() > MAX_NUMBER.len();
    }
    for (digit, most) in digits.as_bytes().iter().zip(MAX_NUMBER.as_bytes().iter()) {
        if *digit != *most {
            return *digit > *most;
        }
    }
    false
}

/// The limit of a text that a word passes, which could stand here.
fn limit(reading: &Reading, word: &str) -> Option<&'static str> {
    if is_too_deep(reading, word) {
        return Some(
            "more than 64 levels of blocks, parentheses, brackets and signs in one another",
        );
    }
    if reading.nodes >= MAX_NODES {
        return Some(TOO_MANY_NODES);
    }
    None
}

/// Whether a word that could stand here is too deep once it is in the core.
fn is_too_deep(reading: &Reading, word: &str) -> bool {
    let opens = matches!(word, "(" | "[" | "{" | "not" | "-");
    let called = if word == "(" { reading.called } else { None };
    let first = called.map(|called| called.first);
    let more = called.map(|called| called.more_levels()).unwrap_or(0);
    let depth = reading.depth().saturating_add(more);
    if reading.last == Last::NoSized || first == Some(First::Sized) {
        depth > MAX_LEVELS
    } else if reading.head == Head::Observe || first == Some(First::Table) {
        opens && depth >= MAX_LEVELS - 1
    } else {
        (opens || word == "observe") && depth >= MAX_LEVELS
    }
}

/// Whether a name is declared, or one of the language.
fn is_known(declared: &[Declared], reading: &Reading, word: &str) -> bool {
    let timed = reading.timed;
    kind_of(declared, word).is_some()
        || is_field(declared, word)
        || is_reserved(word.as_bytes())
        || is_contextual(timed, word)
        || is_function(reading, word)
        || (timed && word == "in")
}

/// Whether it is a word of the language in a machine that has no such name.
fn is_contextual(timed: bool, word: &str) -> bool {
    for (text, _) in &CONTEXTUAL {
        if *text == word {
            return timed || !is_of_timers(word);
        }
    }
    false
}

/// Whether it is a function.
fn is_function(reading: &Reading, word: &str) -> bool {
    FUNCTIONS.contains(&word)
        && word != "in"
        && (reading.timed || !is_of_timers(word))
        && (reading.fielded || !is_item(word))
}

/// The line for a name that nothing has.
fn unknown(
    alloc: Global,
    declared: &[Declared],
    reading: &Reading,
    wrong: &Wrong,
    cure: Option<&str>,
) -> Result<String, AllocError> {
    let Some(nothing) = nothing(reading, wrong.behind) else {
        return out_of_place(alloc, declared, reading, wrong, cure);
    };
    let shown = quoted(alloc, wrong.word)?;
    let is_value = matches!(reading.last, Last::Operator | Last::Queue);
    let is_called = is_value && wrong.behind == "(";
    if is_called && is_item(wrong.word) {
        return format!(in alloc; "{shown} packs fields, of which the file has none");
    }
    let mut nearest = Nearest::new(wrong.word);
    if can_begin_statement(reading) && !is_change(wrong.behind) {
        look_at_language(alloc, &mut nearest, reading)?;
    }
    if is_called {
        look_at_fields(alloc, &mut nearest, declared)?;
    }
    let is_near_field = is_called && nearest.is_found();
    look_at_names(alloc, &mut nearest, declared, reading.last)?;
    let is_near = is_near_field || (is_value && !is_called && nearest.is_found());
    if cure.is_some() && !is_near {
        let advice = advice(alloc, cure)?;
        return format!(in alloc; "no {nothing} {shown}{advice}");
    }
    look_at_language(alloc, &mut nearest, reading)?;
    if !nearest.is_found() && can_begin_statement(reading) && is_change(wrong.behind) {
        return format!(in alloc; "no {nothing} {shown}; {NOT_DECLARED}");
    }
    let question = nearest.question(alloc)?;
    format!(in alloc; "no {nothing} {shown}{question}")
}

/// What an unknown name with another word behind it is not, if that can be told.
fn nothing(reading: &Reading, behind: &str) -> Option<&'static str> {
    if can_begin_statement(reading) {
        return Some("statement begins with");
    }
    match reading.last {
        Last::NoQueue => Some("queue is named"),
        Last::NoSized => Some("queue or table is named"),
        Last::NoTable => Some("table is named"),
        Last::NoObservation => Some("observation is named"),
        Last::NoProcedure => Some("procedure is named"),
        Last::NoTimer => Some("timer is named"),
        Last::NoTimers => Some("timer with a count is named"),
        Last::NoField => Some("field is named"),
        Last::Repeat if reading.has_constants => Some("parameter or constant is named"),
        Last::Repeat => Some("parameter is named"),
        Last::Operator | Last::Queue => Some(no_value(reading, behind)),
        _ => None,
    }
}

/// What an unknown name with another word behind it is not, in an expression.
fn no_value(reading: &Reading, behind: &str) -> &'static str {
    match (behind == "(", reading.fielded, reading.has_constants) {
        (true, true, _) => "function or field is named",
        (true, false, _) => "function is named",
        (false, _, true) => "register, parameter, constant or table is named",
        (false, _, false) => "register, parameter or table is named",
    }
}

/// Looks at the fields.
fn look_at_fields<'b>(
    alloc: Global,
    nearest: &mut Nearest<'_, 'b>,
    declared: &'b [Declared],
) -> Result<(), AllocError> {
    for one in declared {
        if one.meaning.field.is_some() {
            nearest.look(alloc, one.name.as_str())?;
        }
    }
    Ok(())
}

/// Looks at the names of the machine that could stand here.
fn look_at_names<'b>(
    alloc: Global,
    nearest: &mut Nearest<'_, 'b>,
    declared: &'b [Declared],
    last: Last,
) -> Result<(), AllocError> {
    for one in declared {
        if may_stand(last, one.meaning) {
            nearest.look(alloc, one.name.as_str())?;
        }
    }
    Ok(())
}

/// Looks at the names and words of the language that could stand here.
fn look_at_language(
    alloc: Global,
    nearest: &mut Nearest,
    reading: &Reading,
) -> Result<(), AllocError> {
    let timed = reading.timed;
    if can_begin_statement(reading) {
        look_at_words(alloc, nearest, timed, false)?;
    } else if matches!(reading.last, Last::Operator | Last::Queue) {
        look_at_functions(alloc, nearest, reading)?;
        look_at_words(alloc, nearest, timed, true)?;
    }
    Ok(())
}

/// Looks at the functions.
fn look_at_functions(
    alloc: Global,
    nearest: &mut Nearest,
    reading: &Reading,
) -> Result<(), AllocError> {
    for function in &FUNCTIONS {
        let is_there = reading.timed || !is_of_timers(function);
        if is_there && (reading.fielded || !is_item(function)) {
            nearest.look(alloc, function)?;
        }
    }
    Ok(())
}

/// Looks at the words of the language: those that stand for a number, or all others.
fn look_at_words(
    alloc: Global,
    nearest: &mut Nearest,
    timed: bool,
    numbers: bool,
) -> Result<(), AllocError> {
    for (text, word) in &RESERVED {
        if matches!(word, Word::Known(_)) == numbers {
            nearest.look(alloc, text)?;
        }
    }
    for (text, word) in &CONTEXTUAL {
        let is_there = timed || !is_of_timers(text);
        if is_there && matches!(word, Word::Known(_)) == numbers {
            nearest.look(alloc, text)?;
        }
    }
    Ok(())
}

/// Whether a name of this meaning can stand here.
fn may_stand(last: Last, meaning: Meaning) -> bool {
    let kind = meaning.kind;
    match last {
        Last::NoQueue => matches!(kind, Kind::Queue | Kind::QueueArray),
        Last::NoSized => matches!(kind, Kind::Queue | Kind::QueueArray | Kind::Table),
        Last::NoTable => kind == Kind::Table,
        Last::NoObservation => kind == Kind::Observation,
        Last::NoProcedure => matches!(kind, Kind::Procedure(_)),
        Last::NoTimer => matches!(kind, Kind::Timer(_) | Kind::TimerArray(..)),
        Last::NoTimers => matches!(kind, Kind::TimerArray(..)),
        Last::NoField => meaning.field.is_some(),
        Last::Repeat => kind.counts_turns(),
        Last::Operator | Last::Queue => kind.reads() || kind.indexes(),
        _ => matches!(kind, Kind::Register | Kind::RegisterArray),
    }
}

/// The line for a word of the language that cannot stand here.
fn out_of_place(
    alloc: Global,
    declared: &[Declared],
    reading: &Reading,
    wrong: &Wrong,
    cure: Option<&str>,
) -> Result<String, AllocError> {
    let (word, next) = (wrong.word, wrong.behind);
    let shown = quoted(alloc, word)?;
    let kind = kind_of(declared, word);
    let names_queue = reading.last == Last::NoQueue || reading.last == Last::NoSized;
    if names_queue && kind == Some(Kind::Queue) && next == "[" {
        return format!(in alloc; "{shown} is one queue, without an index");
    }
    if names_queue && kind == Some(Kind::QueueArray) && next != "[" {
        return format!(in alloc; "{shown} is an array of queues, each of which has an index");
    }
    let is_operand = matches!(reading.last, Last::Operator | Last::Queue);
    if is_drawing(word) && next == "(" && is_operand {
        return no_draw(alloc, reading, shown.as_str());
    }
    if let Some(line) = known_out_of_place(alloc, declared, reading, word)? {
        return Ok(line);
    }
    let more = more_of(alloc, declared, reading, wrong, cure)?;
    if is_name(word) && !is_number(word) && can_begin_statement(reading) {
        return format!(in alloc; "no statement begins with {shown}{more}");
    }
    let wanted = wanted(reading);
    format!(in alloc; "expected {wanted}, not {shown}{more}")
}

/// The line for a field that has a number before, or for a constant that says how often something is done and may not.
fn known_out_of_place(
    alloc: Global,
    declared: &[Declared],
    reading: &Reading,
    word: &str,
) -> Result<Option<String>, AllocError> {
    let shown = quoted(alloc, word)?;
    if reading.last == Last::NoField && is_field(declared, word) {
        return Ok(Some(format!(in alloc; "{shown} has a number in this item before")?));
    }
    match (reading.last, kind_of(declared, word)) {
        (Last::Repeat, Some(Kind::Constant(number))) if number < 0 => {
            Ok(Some(format!(in alloc; "the constant {shown} is {number}, at least 0")?))
        }
        (Last::Repeat, Some(Kind::Constant(number))) if number > MAX_TURNS as i64 => {
            Ok(Some(format!(in alloc; "the constant {shown} is {number}, at most {MAX_TURNS}")?))
        }
        _ => Ok(None),
    }
}

/// Whether a function draws a number.
fn is_drawing(word: &str) -> bool {
    match arguments(word) {
        Some(called) => called.draws,
        None => false,
    }
}

/// The line for a number that is drawn where none may be.
fn no_draw(alloc: Global, reading: &Reading, shown: &str) -> Result<String, AllocError> {
    if reading.member.is_some() {
        return format!(in alloc; "{shown} draws a number: outputs and words draw none");
    }
    if reading.draws {
        return format!(in alloc; "{shown} draws a second number in one statement or test");
    }
    format!(in alloc; "{shown} draws a number: the index of what is changed draws none")
}

/// What is to be said of a word that cannot stand here.
fn more_of(
    alloc: Global,
    declared: &[Declared],
    reading: &Reading,
    wrong: &Wrong,
    cure: Option<&str>,
) -> Result<String, AllocError> {
    let word = wrong.word;
    if let Some(named) = named(declared, word) {
        let advice = advice(alloc, cure)?;
        return format!(in alloc; "{named}{advice}");
    }
    match (remark(reading, word), cure) {
        (Some(remark), _) => String::from_str(alloc, remark),
        (None, Some(_)) => advice(alloc, cure),
        (None, None) if is_function(reading, word) => String::from_str(alloc, ", a function"),
        (None, None) => Ok(String::new(alloc)),
    }
}

/// What a name is, if it is declared.
fn named(declared: &[Declared], word: &str) -> Option<&'static str> {
    match kind_of(declared, word) {
        Some(kind) => Some(kind_words(kind)),
        None if is_field(declared, word) => Some(", a field"),
        None => None,
    }
}

/// What is to be said of a word of the language that cannot stand here.
fn remark(reading: &Reading, word: &str) -> Option<&'static str> {
    let behind_operand = reading.last == Last::Operand;
    match word {
        "[" => Some("; what stands before it has no index"),
        "<" | "<=" | ">" | ">=" | "==" | "!=" if behind_operand => {
            Some("; a comparison of a comparison wants parentheses")
        }
        "not" if reading.last == Last::Operator => Some("; it wants parentheses here"),
        "else" => Some("; it stands behind the block of an if"),
        "}" => Some("; no block is open here"),
        "wait" | "passivate" if reading.timed => {
            Some("; a machine with timers starts and stops these")
        }
        "left" if reading.timed => Some("; a machine with timers has rest for each of these"),
        _ => None,
    }
}

/// What a name is.
fn kind_words(kind: Kind) -> &'static str {
    match kind {
        Kind::Nothing => "",
        Kind::Register => ", a register",
        Kind::RegisterArray => ", an array register",
        Kind::Queue => ", a queue",
        Kind::QueueArray => ", an array of queues",
        Kind::Table => ", a table",
        Kind::Parameter => ", a parameter",
        Kind::Constant(_) => ", a constant",
        Kind::ListParameter => ", a list",
        Kind::Observation => ", an observation",
        Kind::Procedure(_) => ", a procedure",
        Kind::Timer(_) => ", a timer",
        Kind::TimerArray(..) => ", a timer with a count",
    }
}

/// What can stand behind the words so far.
fn wanted(reading: &Reading) -> &'static str {
    match reading.last {
        Last::Statement => match reading.open.last() {
            Some(_) => "a statement or }",
            None => "a statement",
        },
        Last::Operator | Last::Queue => "an expression",
        Last::Operand => behind_operand(reading),
        Last::NoQueue => "a queue",
        Last::NoSized => "a queue or a table",
        Last::NoTable => "a table",
        Last::NoObservation => "an observation",
        Last::NoProcedure => "a procedure that stands before",
        Last::NoTimer => "a timer",
        Last::NoTimers => "a timer with a count",
        Last::NoField => "a field",
        Last::NoIn => "in and a number of ticks",
        Last::NoColon => ": and a number",
        Last::Array(Role::Shown) => "[ and a number",
        Last::Array(_) => "[ and an index",
        Last::Function(_) => "( and arguments",
        Last::Place => "=, +=, -= or ^=",
        Last::Else => "if or {",
        Last::Repeat if reading.has_constants => {
            "a number from 0 to 64, a parameter that is a number, or a constant"
        }
        Last::Repeat => "a number from 0 to 64, or a parameter that is a number",
        Last::ShownIndex => "a number",
    }
}

/// What can stand behind an operand.
fn behind_operand(reading: &Reading) -> &'static str {
    match reading.open.last() {
        Some(Open::Group) => "an operator or )",
        Some(Open::Function(called, commas)) => behind_argument(*called, *commas),
        Some(Open::Index(Role::Shown)) => "]",
        Some(Open::Index(_)) => "an operator or ]",
        Some(Open::Block(..)) => match behind_statement(reading) {
            Some(wanted) => wanted,
            None => "an operator, a statement or }",
        },
        None => match behind_statement(reading) {
            Some(wanted) => wanted,
            None => "an operator or a statement",
        },
    }
}

/// What can stand behind an argument of a function.
fn behind_argument(called: Called, commas: usize) -> &'static str {
    if called.first == First::Field {
        return "an operator, a comma or )";
    }
    let is_number = matches!(called.first, First::Number | First::Value);
    let is_last = commas.saturating_add(1) >= called.count;
    match (!is_number && commas == 0, is_last) {
        (true, true) => ")",
        (true, false) => "a comma",
        (false, true) => "an operator or )",
        (false, false) => "an operator or a comma",
    }
}

/// What has to stand behind an operand where no statement can begin.
fn behind_statement(reading: &Reading) -> Option<&'static str> {
    match (reading.head, reading.member) {
        (Head::Block, _) => Some("an operator or {"),
        (Head::Turns, _) => Some("{"),
        (Head::Put, _) => Some("an operator or a comma"),
        (_, Some(Member::Each)) => Some("the end of the text"),
        (_, Some(_)) => Some("an operator or the end of the text"),
        (_, None) => None,
    }
}
