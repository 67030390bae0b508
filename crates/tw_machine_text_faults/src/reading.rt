//! What a machine's text wants behind its first words, which are right.

use crate::spelling::is_word;
use std::alloc::{AllocError, Global};
use tw_machine_text::{Declared, Kind, Member};

/// What the first argument of a function is.
#[derive(Clone, Copy, PartialEq)]
pub(crate) enum First {
    Number,
    Queue,
    /// A queue or a table.
    Sized,
    Table,
    /// A timer: one, or one of those that are alike.
    Timer,
    /// A timer with a count.
    Timers,
    /// The value of which a field is taken.
    Value,
    /// A field that is given a number, as every argument of `item`.
    Field,
}

/// The arguments that a function takes.
#[derive(Clone, Copy, PartialEq)]
pub(crate) struct Called {
    pub(crate) count: usize,
    pub(crate) first: First,
    /// Whether it draws a number.
    pub(crate) draws: bool,
}

impl Called {
    /// How many levels deeper than they are written its arguments stand in the core.
    pub(crate) fn more_levels(self) -> usize {
        match self.first {
            First::Value | First::Field => 1,
            _ => 0,
        }
    }
}

/// What is open, and waits for its end.
#[derive(Clone, Copy, PartialEq)]
pub(crate) enum Open {
    /// A block, how many levels deeper than it is written it stands in the core, and whether the test before it draws.
    Block(usize, bool),
    Group,
    /// The arguments of a function, of which so many commas have come.
    Function(Called, usize),
    Index(Role),
}

/// What a name with an index is.
#[derive(Clone, Copy, PartialEq)]
pub(crate) enum Role {
    Operand,
    /// What a statement changes.
    Place,
    Queue,
    Timer,
    /// A queue of an array in `words`.
    Shown,
}

/// What the words so far end with.
#[derive(Clone, Copy, PartialEq)]
pub(crate) enum Last {
    /// A statement can begin.
    Statement,
    /// An expression can begin.
    Operator,
    /// An operand is whole.
    Operand,
    /// A queue has to come.
    NoQueue,
    /// A queue or a table has to come.
    NoSized,
    /// A table has to come.
    NoTable,
    /// An observation has to come.
    NoObservation,
    /// A procedure has to come.
    NoProcedure,
    /// A timer has to come.
    NoTimer,
    /// A timer with a count has to come.
    NoTimers,
    /// A field has to come.
    NoField,
    /// `in` has to come, behind the timer of `start`.
    NoIn,
    /// `:` has to come, behind a field of `item`.
    NoColon,
    /// The queue of a statement or a function has come, or the observation of a statement.
    Queue,
    /// A name that has an index.
    Array(Role),
    /// A name of a function.
    Function(Called),
    /// What a statement changes.
    Place,
    Else,
    Repeat,
    /// The index of a queue in `words` has to come.
    ShownIndex,
}

/// The statement whose words are read.
#[derive(Clone, Copy, PartialEq)]
pub(crate) enum Head {
    Plain,
    /// `if`, before its block.
    Block,
    /// `repeat`, before its block.
    Turns,
    /// `put`, before its comma.
    Put,
    /// `pop`, `clear`, `do` and `stop`, behind whose object nothing stands.
    Lone,
    /// `start`, before `in`.
    Start,
    Observe,
}

/// How far a text has been read.
#[derive(Drop)]
pub(crate) struct Reading {
    /// Whether it is of a machine with timers.
    pub(crate) timed: bool,
    /// Whether its file has fields.
    pub(crate) fielded: bool,
    /// Whether it has constants of its file.
    pub(crate) has_constants: bool,
    pub(crate) last: Last,
    pub(crate) head: Head,
    pub(crate) open: Vec<Open>,
    /// How many signs and `not` stand before operands since the statement began.
    pub(crate) signs: usize,
    pub(crate) nodes: usize,
    /// Whether the statement or the test draws a number.
    pub(crate) draws: bool,
    /// How many levels deeper than it is written the `if` stands in the core: for each test before that draws.
    chain: usize,
    /// What the text is; none is a program.
    pub(crate) member: Option<Member>,
    /// The function that the last word is the name of.
    pub(crate) called: Option<Called>,
}

impl Reading {
    /// Of no words yet.
    pub(crate) fn new(
        alloc: Global,
        declared: &[Declared],
        timed: bool,
        member: Option<Member>,
    ) -> Reading {
        Reading {
            timed,
            fielded: has_fields(declared),
            has_constants: has_constants(declared),
            last: match member {
                None => Last::Statement,
                Some(Member::Each) => Last::NoQueue,
                Some(_) => Last::Operator,
            },
            head: Head::Plain,
            open: Vec::new(alloc),
            signs: 0,
            nodes: 0,
            draws: false,
            chain: 0,
            member,
            called: None,
        }
    }

    /// How deep the words so far are.
    pub(crate) fn depth(&self) -> usize {
        let mut depth = self.open.len().saturating_add(self.signs);
        depth = depth.saturating_add(self.chain);
        for open in self.open.iter() {
            depth = depth.saturating_add(match open {
                Open::Block(more, _) => *more,
                Open::Function(called, _) => called.more_levels(),
                _ => 0,
            });
        }
        depth
    }

    /// Reads a word that can stand here.
    pub(crate) fn read(&mut self, declared: &[Declared], word: &str) -> Result<(), AllocError> {
        let is_node = is_node(word);
        if is_node {
            self.nodes = self.nodes.saturating_add(1);
        }
        let called = self.called;
        self.called = None;
        match word {
            "{" => self.begin_block()?,
            "(" => self.begin_group(called)?,
            "[" => self.begin_index()?,
            "}" | ")" | "]" => self.end(),
            ";" => self.end_statement(),
            "," => self.separate(),
            _ if is_name(word) => self.read_letters(declared, word),
            _ => self.read_sign(word),
        }
        if is_node && self.head == Head::Observe {
            self.nodes = self.nodes.saturating_add(more_nodes(self.last));
        }
        Ok(())
    }

    fn begin_block(&mut self) -> Result<(), AllocError> {
        self.open.push(Open::Block(self.chain, self.draws))?;
        self.end_statement();
        Ok(())
    }

    fn begin_group(&mut self, called: Option<Called>) -> Result<(), AllocError> {
        self.last = Last::Operator;
        let Some(called) = called else {
            return Ok(self.open.push(Open::Group)?);
        };
        self.last = match called.first {
            First::Number => Last::Operator,
            First::Queue => Last::NoQueue,
            First::Sized => Last::NoSized,
            First::Table => Last::NoTable,
            First::Timer => Last::NoTimer,
            First::Timers => Last::NoTimers,
            First::Value => self.begin_part(),
            First::Field => self.begin_item(),
        };
        if called.draws {
            self.begin_draw(called);
        }
        Ok(self.open.push(Open::Function(called, 0))?)
    }

    /// A field of a value is a quotient and a remainder.
    fn begin_part(&mut self) -> Last {
        self.nodes = self.nodes.saturating_add(self.times().saturating_mul(3));
        Last::Operator
    }

    /// `item` is the sum of its fields, each with its number.
    fn begin_item(&mut self) -> Last {
        self.nodes = self.nodes.saturating_sub(self.times());
        Last::NoField
    }

    /// A number is drawn: `sample` makes a node more than its words, and so does the `draw` behind a statement; a test has
    /// two of these.
    fn begin_draw(&mut self, called: Called) {
        self.draws = true;
        let sampled = if called.first == First::Table { 1 } else { 0 };
        let more = match self.head {
            Head::Block => sampled + 2,
            Head::Observe => 3 * sampled + 1,
            _ => sampled + 1,
        };
        self.nodes = self.nodes.saturating_add(more);
    }

    fn begin_index(&mut self) -> Result<(), AllocError> {
        let role = match self.last {
            Last::Array(role) => role,
            _ => Role::Operand,
        };
        self.open.push(Open::Index(role))?;
        self.last = if role == Role::Shown {
            Last::ShownIndex
        } else {
            Last::Operator
        };
        Ok(())
    }

    fn end(&mut self) {
        match self.open.pop() {
            Some(Open::Block(chain, draws)) => {
                self.end_statement();
                self.chain = chain;
                self.draws = draws;
            }
            Some(Open::Index(Role::Place)) => self.last = Last::Place,
            Some(Open::Index(Role::Queue)) => self.end_queue(),
            Some(Open::Index(Role::Timer)) => self.end_timer(),
            _ => self.last = Last::Operand,
        }
    }

    fn end_statement(&mut self) {
        self.last = Last::Statement;
        self.head = Head::Plain;
        self.signs = 0;
        self.chain = 0;
        self.draws = false;
    }

    /// A queue is whole.
    fn end_queue(&mut self) {
        match (self.open.last(), self.member) {
            (Some(Open::Function(..)), _) | (None, Some(_)) => self.last = Last::Operand,
            _ if self.head == Head::Lone => self.end_statement(),
            _ => self.last = Last::Queue,
        }
    }

    /// A timer is whole.
    fn end_timer(&mut self) {
        match self.open.last() {
            Some(Open::Function(..)) => self.last = Last::Operand,
            _ if self.head == Head::Lone => self.end_statement(),
            _ => self.last = Last::NoIn,
        }
    }

    /// Whether the arguments of `item` are open.
    fn is_in_item(&self) -> bool {
        match self.open.last() {
            Some(Open::Function(called, _)) => called.first == First::Field,
            _ => false,
        }
    }

    fn separate(&mut self) {
        self.last = Last::Operator;
        if self.is_in_item() {
            self.last = Last::NoField;
            self.nodes = self.nodes.saturating_add(self.times());
        }
        if let Some(Open::Function(_, commas)) = self.open.last_mut() {
            *commas = commas.saturating_add(1);
        } else if self.head == Head::Put {
            self.head = Head::Plain;
        }
    }

    /// Reads an operator, or a sign of a change.
    fn read_sign(&mut self, word: &str) {
        if word == "-" && self.last != Last::Operand {
            self.signs = self.signs.saturating_add(1);
        }
        self.last = Last::Operator;
    }

    /// Reads a run of letters and digits.
    fn read_letters(&mut self, declared: &[Declared], word: &str) {
        match word {
            "draw" | "passivate" => self.end_statement(),
            "wait" => self.begin_statement(Head::Plain, Last::Operator),
            "if" => self.begin_test(),
            "repeat" => self.begin_statement(Head::Turns, Last::Repeat),
            "else" => self.last = Last::Else,
            "push" | "insert" | "remove" => self.begin_statement(Head::Plain, Last::NoQueue),
            "observe" if kind_of(declared, word).is_none() => {
                self.begin_statement(Head::Observe, Last::NoObservation);
            }
            "put" => self.begin_statement(Head::Put, Last::NoQueue),
            "pop" => self.begin_statement(Head::Lone, Last::NoQueue),
            "clear" if kind_of(declared, word).is_none() => {
                self.begin_statement(Head::Lone, Last::NoQueue);
            }
            "do" if kind_of(declared, word).is_none() => {
                self.begin_statement(Head::Lone, Last::NoProcedure);
            }
            "start" if self.timed => self.begin_statement(Head::Start, Last::NoTimer),
            "stop" if self.timed => self.begin_statement(Head::Lone, Last::NoTimer),
            "send" if self.timed => self.begin_statement(Head::Put, Last::Operator),
            "in" if self.last == Last::NoIn => {
                self.head = Head::Plain;
                self.last = Last::Operator;
            }
            "and" | "or" => self.last = Last::Operator,
            "not" => {
                self.signs = self.signs.saturating_add(1);
                self.last = Last::Operator;
            }
            "random" => {
                self.called = arguments(word);
                self.last = Last::Operand;
            }
            _ => self.read_name(declared, word),
        }
    }

    /// Behind the `else` of a test that draws an `if` is a statement of its own, in a block.
    fn begin_test(&mut self) {
        let is_chained = self.last == Last::Else;
        let (chain, draws) = (self.chain, self.draws);
        self.begin_statement(Head::Block, Last::Operator);
        if is_chained && draws {
            self.chain = chain.saturating_add(1);
        } else if is_chained {
            self.chain = chain;
            self.nodes = self.nodes.saturating_sub(1);
        }
    }

    fn begin_statement(&mut self, head: Head, last: Last) {
        self.chain = 0;
        self.draws = false;
        self.signs = 0;
        self.head = head;
        self.last = last;
    }

    /// Reads a name or a number, where it can stand.
    fn read_name(&mut self, declared: &[Declared], word: &str) {
        let kind = kind_of(declared, word);
        match self.last {
            Last::NoSized if kind == Some(Kind::Table) => {
                self.nodes = self.nodes.saturating_sub(self.times());
                self.last = Last::Operand;
            }
            Last::NoQueue | Last::NoSized => self.read_queue(kind),
            Last::NoTable | Last::NoTimers => self.last = Last::Operand,
            Last::NoField => {
                self.nodes = self.nodes.saturating_add(self.times().saturating_mul(2));
                self.last = Last::NoColon;
            }
            Last::NoTimer => {
                if matches!(kind, Some(Kind::TimerArray(..))) {
                    self.last = Last::Array(Role::Timer);
                } else {
                    self.end_timer();
                }
            }
            Last::NoObservation => self.last = Last::Queue,
            Last::NoProcedure => self.end_statement(),
            Last::Operator | Last::Queue => {
                self.called = self.function(declared, word);
                self.last = self.after_operand(kind);
            }
            Last::Repeat | Last::ShownIndex => self.last = Last::Operand,
            _ => {
                let last = match kind {
                    Some(Kind::RegisterArray) => Last::Array(Role::Place),
                    _ => Last::Place,
                };
                self.begin_statement(Head::Plain, last);
            }
        }
    }

    /// Reads the name of a queue, or of an array of queues.
    fn read_queue(&mut self, kind: Option<Kind>) {
        if kind == Some(Kind::QueueArray) {
            self.last = Last::Array(Role::Queue);
        } else {
            self.end_queue();
        }
    }

    /// The arguments of the function of this name, if it may stand here.
    fn function(&self, declared: &[Declared], word: &str) -> Option<Called> {
        if is_field(declared, word) {
            return Some(OF_VALUE);
        }
        if (is_of_timers(word) && !self.timed) || (is_item(word) && !self.fielded) {
            return None;
        }
        arguments(word)
    }

    /// How often a node of the statement is counted.
    fn times(&self) -> usize {
        if self.head == Head::Observe { 3 } else { 1 }
    }

    /// What stands behind a name of this kind in an expression.
    fn after_operand(&self, kind: Option<Kind>) -> Last {
        match (kind, self.called) {
            (None, Some(called)) => Last::Function(called),
            (Some(Kind::RegisterArray | Kind::Observation), _) if self.is_shown() => Last::Operand,
            (Some(Kind::RegisterArray | Kind::Table), _) => Last::Array(Role::Operand),
            (Some(Kind::QueueArray), _) => Last::Array(Role::Shown),
            _ => Last::Operand,
        }
    }

    /// Whether a queue, an array register or an observation can stand here as what it is.
    pub(crate) fn is_shown(&self) -> bool {
        self.member == Some(Member::Shown) && self.nodes <= 1 && self.open.is_empty()
    }
}

/// How many nodes a word of an `observe` makes beside one: it stands for three statements, in which the observation comes
/// three times, with the numbers 0, 1 and 2, and 1, and the expression three times, with an operator.
fn more_nodes(last: Last) -> usize {
    if last == Last::NoObservation { 7 } else { 2 }
}

/// What is declared by a name, but for a field alone.
pub(crate) fn kind_of(declared: &[Declared], name: &str) -> Option<Kind> {
    for one in declared {
        if one.name.as_str() == name {
            return match one.meaning.kind {
                Kind::Nothing => None,
                kind => Some(kind),
            };
        }
    }
    None
}

/// Whether a name is a field's.
pub(crate) fn is_field(declared: &[Declared], name: &str) -> bool {
    for one in declared {
        if one.name.as_str() == name {
            return one.meaning.field.is_some();
        }
    }
    false
}

/// Whether one of the names is a field's.
fn has_fields(declared: &[Declared]) -> bool {
    for one in declared {
        if one.meaning.field.is_some() {
            return true;
        }
    }
    false
}

/// Whether one of the names is that of a constant of the file.
fn has_constants(declared: &[Declared]) -> bool {
    for one in declared {
        if matches!(one.meaning.kind, Kind::Constant(_)) {
            return true;
        }
    }
    false
}

/// Whether it is the function that packs fields.
pub(crate) fn is_item(word: &str) -> bool {
    word == "item"
}

/// The argument of a field.
const OF_VALUE: Called = Called {
    count: 1,
    first: First::Value,
    draws: false,
};

/// The arguments of the function of this name.
pub(crate) fn arguments(name: &str) -> Option<Called> {
    let (count, first) = match name {
        "random" | "roll" => (1, First::Number),
        "min" | "max" => (2, First::Number),
        "choose" => (3, First::Number),
        "length" => (1, First::Sized),
        "room" | "front" | "last" | "sum" => (1, First::Queue),
        "at" | "place" => (2, First::Queue),
        "sample" => (1, First::Table),
        "running" | "rest" => (1, First::Timer),
        "idle" => (1, First::Timers),
        "item" => (1, First::Field),
        _ => return None,
    };
    let draws = matches!(name, "sample" | "roll");
    Some(Called {
        count,
        first,
        draws,
    })
}

/// Whether it is a word only in a machine with timers.
pub(crate) fn is_of_timers(word: &str) -> bool {
    matches!(
        word,
        "start" | "stop" | "send" | "which" | "running" | "rest" | "idle" | "in"
    )
}

/// Whether a word is a run of letters and digits.
pub(crate) fn is_name(word: &str) -> bool {
    match word.chars().next() {
        Some(letter) => is_word(letter),
        None => false,
    }
}

/// Whether a word begins as a number.
pub(crate) fn is_number(word: &str) -> bool {
    match word.chars().next() {
        Some(letter) => letter.is_ascii_digit(),
        None => false,
    }
}

/// Whether a statement can begin here.
pub(crate) fn can_begin_statement(reading: &Reading) -> bool {
    let is_inside = match reading.open.last() {
        Some(Open::Block(..)) | None => false,
        Some(_) => true,
    };
    let is_behind_operand = reading.last == Last::Operand
        && reading.member.is_none()
        && (reading.head == Head::Plain || reading.head == Head::Observe)
        && !is_inside;
    reading.last == Last::Statement || is_behind_operand
}

/// Whether a word is a node.
fn is_node(word: &str) -> bool {
    !matches!(word, "(" | ")" | "[" | "]" | "{" | "}" | ";" | "," | "else")
}
