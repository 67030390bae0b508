//! The words of a program.
ghost use Rattle.std.specs.Prelude.{◌≡◌, ◌≤◌, if◌then◌else◌};
ghost use Rattle.tw_machine_text.specs.Tree.{rank, left_rank, wanted, head};
ghost use Rattle.tw_machine_text.specs.Machine.{weight};

/// An operator between two operands. A comma stands between the arguments of a function, a colon between a field and its
/// number, both below all others.
#[derive(Clone, Copy, Debug, PartialEq, Eq)]
pub enum Operator {
    Comma,
    Colon,
    Or,
    And,
    Equal,
    NotEqual,
    Less,
    LessEqual,
    Greater,
    GreaterEqual,
    Plus,
    Minus,
    Times,
    Divide,
    Modulo,
}

/// What a word of the language reads.
#[derive(Clone, Copy, Debug, PartialEq, Eq)]
pub enum Builtin {
    Random,
    Port,
    Value,
    Elapsed,
    Left,
    Now,
    Turn,
    /// The number of the timer that goes, of those that are alike. It stands in what is written alone.
    Which,
}

/// How a place is changed: `=`, `+=`, `-=`, `^=`.
#[derive(Clone, Copy, Debug, PartialEq, Eq)]
pub enum SourceChange {
    Set,
    Add,
    Subtract,
    Xor,
}

/// What begins a statement on a queue and a number, or on an observation and a number.
#[derive(Clone, Copy, Debug, PartialEq, Eq)]
pub enum Verb {
    Push,
    Insert,
    Remove,
    Put,
    /// Counts a number. It stands in what is written alone: what is read has the three statements that it means.
    Observe,
}

/// What begins a statement on a queue, a procedure or a timer alone.
#[derive(Clone, Copy, Debug, PartialEq, Eq)]
pub enum Deed {
    /// The first value leaves.
    Pop,
    /// All values leave.
    Clear,
    /// Does what a procedure does. It stands in what is written alone: what is read has the program in its place.
    Do,
    /// A timer runs no more. It stands in what is written alone.
    Stop,
}

/// A word. A name is its number in the list of names: first the functions', then those that the machine declares.
#[derive(Clone, Copy, Debug, PartialEq, Eq)]
pub enum Word {
    Number(u64),
    Name(usize),
    Known(Builtin),
    Sign(Operator),
    Not,
    Open,
    Close,
    OpenBracket,
    CloseBracket,
    OpenBrace,
    CloseBrace,
    Semicolon,
    Becomes(SourceChange),
    Begins(Verb),
    Does(Deed),
    Draw,
    Wait,
    Passivate,
    Start,
    Send,
    If,
    Else,
    Repeat,
}

impl Operator {
    /// How tightly it binds.
    pub fn rank(self) -> usize
        ensures { result ≡ rank self }
    {
        match self {
            Operator::Comma | Operator::Colon => 0,
            Operator::Or => 1,
            Operator::And => 2,
            Operator::Equal
            | Operator::NotEqual
            | Operator::Less
            | Operator::LessEqual
            | Operator::Greater
            | Operator::GreaterEqual => 4,
            Operator::Plus | Operator::Minus => 5,
            Operator::Times | Operator::Divide | Operator::Modulo => 6,
        }
    }

    /// How tightly its left operand has to bind.
    pub fn left_rank(self) -> usize
        ensures { result ≡ left_rank self }
    {
        match self {
            Operator::Comma | Operator::Colon => 0,
            Operator::Or => 1,
            Operator::And => 2,
            Operator::Equal
            | Operator::NotEqual
            | Operator::Less
            | Operator::LessEqual
            | Operator::Greater
            | Operator::GreaterEqual
            | Operator::Plus
            | Operator::Minus => 5,
            Operator::Times | Operator::Divide | Operator::Modulo => 6,
        }
    }
}

impl Verb {
    /// How many operands, parted by commas, follow the queue or the observation.
    pub fn wanted(self) -> usize
        ensures { result ≡ wanted self }
    {
        match self {
            Verb::Push | Verb::Insert | Verb::Remove | Verb::Observe => 1,
            Verb::Put => 2,
        }
    }
}

impl Word {
    /// Whether it is an operator, or begins a statement or a test.
    pub fn is_head(self) -> bool
        ensures { (if result then 1 else 0) ≡ head self }
    {
        match self {
            Word::Not
            | Word::Becomes(_)
            | Word::Begins(_)
            | Word::Does(_)
            | Word::Draw
            | Word::Wait
            | Word::Passivate
            | Word::Start
            | Word::Send
            | Word::If
            | Word::Repeat => true,
            Word::Sign(operator) => operator != Operator::Comma,
            _ => false,
        }
    }

    /// How many nodes it makes.
    pub fn weight(self) -> usize
        ensures weight { result ≡ weight self }
        ensures small { result ≤ 1 }
    {
        match self {
            Word::Number(_)
            | Word::Name(_)
            | Word::Known(_)
            | Word::Not
            | Word::Becomes(_)
            | Word::Begins(_)
            | Word::Does(_)
            | Word::Draw
            | Word::Wait
            | Word::Passivate
            | Word::Start
            | Word::Send
            | Word::If
            | Word::Repeat => 1,
            Word::Sign(operator) => { if operator == Operator::Comma { 0 } else { 1 } }
            _ => 0,
        }
    }
}
