//! What a program has told so far.

use crate::sum::Sum;
use std::alloc::{AllocError, Global};

// How many bytes are told at most, and how many words a state has.
const TEXT_ROOM: usize = 65_536;

const WORDS_ROOM: usize = 128;

/// What was told so far, the scene that is told of, and room for the words of a state.
#[derive(Drop)]
pub struct Told {
    text: String,
    scene: &'static str,
    words: Vec<i128>,
}

impl Told {
    /// Nothing was told, and all room is made.
    pub fn new(alloc: Global) -> Result<Told, AllocError> {
        let words = Vec::with_capacity(alloc, WORDS_ROOM)?;
        Ok(Told {
            text: String::with_capacity(alloc, TEXT_ROOM)?,
            scene: "",
            words,
        })
    }

    /// All that was told.
    pub fn text(&self) -> &str {
        self.text.as_str()
    }

    /// Where to add to what was told.
    pub fn text_mut(&mut self) -> &mut String {
        &mut self.text
    }

    /// Room for the words of a state.
    pub fn words_mut(&mut self) -> &mut Vec<i128> {
        &mut self.words
    }

    /// A scene begins: its name, on a line.
    pub fn begin(&mut self, scene: &'static str) {
        self.scene = scene;
        self.say(scene);
        self.say(":\n");
    }

    /// Tells a text. There is room for it, or else there is at a second try.
    pub fn say(&mut self, text: &str) {
        if self.text.push_str(text).is_err() {
            let _ = self.text.push_str(text);
        }
    }

    /// Tells that a call which was refused changed something, where it did.
    pub fn compare(&mut self, call: &str, before: Sum, after: Sum) {
        self.expect(call, before == after);
    }

    /// Tells that something is not as it should be after a call that was refused, where it is not.
    pub fn expect(&mut self, call: &str, holds: bool) {
        if !holds {
            self.tell("changed: ", call);
        }
    }

    /// Tells that a call was refused twice.
    pub fn give_up(&mut self, call: &str) {
        self.tell("gave up: ", call);
    }

    /// A line of this scene and a call.
    fn tell(&mut self, what: &str, call: &str) {
        let scene = self.scene;
        self.say(what);
        self.say(scene);
        self.say(" ");
        self.say(call);
        self.say("\n");
    }
}
