//! Names, lines and numbers, in little room.

use crate::points::Points;
use std::alloc::{AllocError, Global};

/// How many letters a line of a title has at most.
const LINE: usize = 200;

/// How many letters a text has.
fn letters(text: &str) -> usize {
    text.chars().count()
}

/// A width that letters of a size, in points, pass by little in the usual fonts.
pub fn width_of(text: &str, size: i64) -> Points {
    let count = i64::try_from(letters(text)).unwrap_or(i64::MAX);
    Points::of_tenths(size.saturating_mul(count).saturating_mul(54) / 10)
}

/// Adds letters of a text: those before `front` and those from `back` on.
fn push_ends(text: &mut String, words: &str, front: usize, back: usize) -> Result<(), AllocError> {
    let mut dots = false;
    for (place, letter) in words.chars().enumerate() {
        if place < front || place >= back {
            text.push(letter)?;
        } else if !dots {
            text.push_str("\u{2026}")?;
            dots = true;
        }
    }
    Ok(())
}

/// A name in so many letters: where it is longer, an ellipsis stands for its middle.
pub fn cut(alloc: Global, name: &str, room: usize) -> Result<String, AllocError> {
    let count = letters(name);
    if count <= room {
        return String::from_str(alloc, name);
    }
    let mut made = String::new(alloc);
    let back = count.saturating_sub(room / 2);
    push_ends(&mut made, name, room.saturating_sub(1) / 2, back)?;
    Ok(made)
}

/// A line in at most 200 letters: where it is longer, an ellipsis stands for its end.
pub fn short(alloc: Global, line: &str) -> Result<String, AllocError> {
    let count = letters(line);
    if count <= LINE {
        return String::from_str(alloc, line);
    }
    let mut made = String::new(alloc);
    push_ends(&mut made, line, LINE - 1, count)?;
    Ok(made)
}

/// Adds a number, from 10,000 on with commas.
pub fn push_number(text: &mut String, number: u64) -> Result<(), AllocError> {
    if number < 10_000 {
        return write!(text, "{number}");
    }
    let mut power = 1_000_000_000_000_000_000;
    let mut begun = false;
    for _ in 0..7 {
        let part = number.checked_div(power).unwrap_or(0) % 1000;
        if begun {
            write!(text, ",{part:03}")?;
        } else if part > 0 {
            write!(text, "{part}")?;
            begun = true;
        }
        power /= 1000;
    }
    Ok(())
}

/// A tick or another number, from 10,000 on with commas.
pub fn tick_text(alloc: Global, number: u64) -> Result<String, AllocError> {
    let mut made = String::new(alloc);
    push_number(&mut made, number)?;
    Ok(made)
}

/// How many of something: the number and the word, with an `s` where they are not one.
pub fn many(alloc: Global, count: u64, word: &str) -> Result<String, AllocError> {
    let mut made = tick_text(alloc, count)?;
    made.push_str(" ")?;
    made.push_str(word)?;
    if count != 1 {
        made.push_str("s")?;
    }
    Ok(made)
}

/// A number of a scale in at most nine letters: from a million on as `9.22e18`.
pub fn value_text(alloc: Global, value: i128) -> Result<String, AllocError> {
    let mut made = String::new(alloc);
    if value < 0 {
        made.push_str("\u{2212}")?;
    }
    let size = value.unsigned_abs();
    if size < 1_000_000 {
        write!(&mut made, "{size}")?;
        return Ok(made);
    }
    let (digits, power) = rounded(size);
    let whole = digits / 100;
    let part = digits % 100;
    write!(&mut made, "{whole}.{part:02}e{power}")?;
    Ok(made)
}

/// The first three digits of a number that has more, rounded, and the power of ten of the first.
fn rounded(size: u128) -> (u128, u32) {
    let mut left = size;
    let mut power = 2u32;
    for _ in 0..40 {
        if left < 10_000 {
            break;
        }
        left /= 10;
        power = power.saturating_add(1);
    }
    let digits = left.saturating_add(5) / 10;
    if digits < 1000 {
        (digits, power.saturating_add(1))
    } else {
        (digits / 10, power.saturating_add(2))
    }
}
