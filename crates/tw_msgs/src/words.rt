//! The words that a state tells of itself.

ghost use Rattle.std.specs.Prelude.{◌≡◌, ◌↔◌, ◌≤◌, ◌++◌, [], IsTrue, IsOk, IfOk, IfSome, OnOk, OnErr, length, slice_get};
ghost use Rattle.std.specs.Cmp.{partial_equiv_from_equiv, int_eq_equiv};
ghost use Rattle.std.specs.Cmp.Lexicographic.{lists_equiv};
ghost use Rattle.tw_msgs.specs.Words.{same_words};

use arrayvec::ArrayVec;
use std::alloc::{AllocError, Global};
use std::marker::Model;

/// The numbers of a state: up to three that fit in 64 bits lie in place, others on the heap.
#[derive(Debug, Drop)]
enum Numbers {
    Few(ArrayVec<i64, 3>),
    Many(Vec<i128>),
}

/// The words of a state: the numbers by which a trace writes it.
///
/// Contracts see the words as that list. Up to three numbers of 64 bits take no memory.
#[derive(Debug, Drop)]
pub struct Words {
    numbers: Numbers,
}

impl Model for Words {
    ghost use Rattle.std.specs.Prelude.{ℤ, List};
    ghost use Rattle.tw_msgs.specs.Words.{listed};

    ghost Value = { List ℤ };

    ghost view = { λ w. listed w.numbers };
}

/// The numbers in place, if they are few and small.
fn few(numbers: &[i128]) -> Option<ArrayVec<i64, 3>>
    ensures { IfSome result (λ few. few.items ≡ numbers.now) }
{
    if numbers.len() > 3 {
        return None;
    }
    let mut few = ArrayVec::new();
    for number in numbers {
        few.push(i64::try_from(*number).ok()?);
    }
    Some(few)
}

/// The words of a vector. It takes no memory.
impl From<Vec<i128>> for Words {
    ghost from_gives = { λ numbers words. words ≡ numbers.items };

    fn from(numbers: Vec<i128>) -> Words {
        let numbers = match few(numbers.as_slice()) {
            Some(few) => Numbers::Few(few),
            None => Numbers::Many(numbers),
        };
        Words { numbers }
    }
}

impl Words {
    /// No words. It takes no memory.
    pub fn none() -> Words
        ensures { result ≡ [] }
    {
        Words {
            numbers: Numbers::Few(ArrayVec::new()),
        }
    }

    /// The words of these numbers. The only error is want of memory (4).
    pub fn of(alloc: Global, numbers: &[i128]) -> Result<Words, AllocError>
        ensures { IfOk result (λ words. words ≡ numbers.now) }
    {
        let numbers = match few(numbers) {
            Some(few) => Numbers::Few(few),
            None => {
                let mut many = Vec::new(alloc);
                many.extend_from_slice(numbers)?;
                Numbers::Many(many)
            }
        };
        Ok(Words { numbers })
    }

    /// How many words there are.
    pub fn len(&self) -> usize
        ensures { result ≡ length self.now }
    {
        match &self.numbers {
            Numbers::Few(few) => few.len(),
            Numbers::Many(many) => many.len(),
        }
    }

    /// Whether there is no word.
    pub fn is_empty(&self) -> bool
        ensures { IsTrue result ↔ (self.now ≡ []) }
    {
        self.len() == 0
    }

    /// The word at a place, from 0.
    pub fn get(&self, index: usize) -> Option<i128>
        ensures { result ≡ slice_get self.now index }
    {
        match &self.numbers {
            Numbers::Few(few) => Some(i128::from(*few.as_slice().get(index)?)),
            Numbers::Many(many) => Some(*many.get(index)?),
        }
    }

    /// Appends the words to a vector. The only error is want of memory (4), and it leaves the vector as it was.
    pub fn append_to(&self, numbers: &mut Vec<i128>) -> Result<(), AllocError>
        ensures ok { OnOk result (numbers.new.items ≡ numbers.old.items ++ self.now) }
        ensures err { OnErr result (numbers.new.items ≡ numbers.old.items) }
    {
        match &self.numbers {
            Numbers::Few(few) => append_few(few.as_slice(), numbers),
            Numbers::Many(many) => numbers.extend_from_slice(many.as_slice()),
        }
    }
}

/// Appends numbers of 64 bits.
fn append_few(few: &[i64], numbers: &mut Vec<i128>) -> Result<(), AllocError>
    ensures ok { OnOk result (numbers.new.items ≡ numbers.old.items ++ few.now) }
    ensures err { OnErr result (numbers.new.items ≡ numbers.old.items) }
{
    numbers.reserve(few.len())?;
    for number in few {
        numbers.push_reserved(i128::from(*number));
    }
    Ok(())
}

/// Whether numbers of 64 bits are these.
fn are_same(few: &[i64], many: &[i128]) -> bool
    ensures { IsTrue result ↔ (few.now ≡ many.now) }
{
    if few.len() != many.len() {
        return false;
    }
    for index in 0..few.len() {
        if i128::from(few[index]) != many[index] {
            return false;
        }
    }
    true
}

/// A copy: the same words in the same order.
///
/// Where memory is wanting (refusal 4) there is no copy, and nothing is left behind.
impl Clone for Words {
    ghost is_clone = { λ words copy. copy ≡ words };

    fn clone(&self) -> Result<Words, AllocError>
        ensures { IfOk result (λ copy. copy ≡ self.now) }
    {
        let numbers = match &self.numbers {
            Numbers::Few(few) => Numbers::Few(few.clone()?),
            Numbers::Many(many) => Numbers::Many(many.clone()?),
        };
        Ok(Words { numbers })
    }
}

/// Whether the words are equal, in their order.
impl PartialEq for Words {
    ghost eq = { same_words };

    ghost laws = { partial_equiv_from_equiv (lists_equiv int_eq_equiv) };

    fn eq(&self, other: &Words) -> bool
        ensures eq { result ≡ same_words self.now other.now }
        ensures same { IsTrue result ↔ (self.now ≡ other.now) }
    {
        match (&self.numbers, &other.numbers) {
            (Numbers::Few(one), Numbers::Few(two)) => one.as_slice() == two.as_slice(),
            (Numbers::Few(one), Numbers::Many(two)) => are_same(one.as_slice(), two.as_slice()),
            (Numbers::Many(one), Numbers::Few(two)) => are_same(two.as_slice(), one.as_slice()),
            (Numbers::Many(one), Numbers::Many(two)) => one == two,
        }
    }
}

impl Eq for Words {
    ghost laws = { lists_equiv int_eq_equiv };
}
