//! Messages sent, or sent again where an equal one is owed.

ghost use Rattle.std.specs.Prelude.{map, take, cond, ◌≡◌, ◌↔◌, ◌+◌, ◌*◌, ◌<◌, ◌≤◌, [], ◌∷◌, length, Err, IsTrue, OnOk, false};
ghost use Rattle.tw_msgs.specs.Counting.{total, one_at};
ghost use Rattle.tw_msgs.specs.Messages.{has};
ghost use Rattle.tw_pool.specs.Lists.{list_at};
ghost use Rattle.tw_pool.specs.declared.refused.PoolRefused.TheVariants.{Full};
ghost use Rattle.tw_theory.specs.Bundles.{sent_anew};
ghost use Rattle.tw_theory.specs.Contents.{Aggressive, Lazy, sent_out};
ghost use Rattle.tw_lists.specs.Lists.{node_count, with_sent, with_all_sent, with_sent_again, SameButRoom};
ghost use Rattle.tw_lists.specs.Lists.{message_at};

use crate::lists::{EventLists, OUTGOING, OWED, SENT, signed};
use tw_actions::Cancel;
use tw_msgs::{Item, Message, Sign};
use tw_pool::{LIVE_LIMIT, Pool, PoolRefused};

impl EventLists {
    /// Makes room to send these messages, two nodes for each that no owed one matches.
    ///
    /// It is refused as [`reserve`](EventLists::reserve) is for so many nodes. The messages are compared with those owed only where there is
    /// no room for all of them.
    pub fn reserve_to_send(&mut self, messages: &[Message], way: Cancel) -> Result<(), PoolRefused>
        ensures contents { SameButRoom self.old self.new }
        ensures room { let nodes = 2 * length (sent_out way self.old.owed messages.now) in
            OnOk result (nodes ≤ self.new.room) }
        ensures limit { let nodes = 2 * length (sent_out way self.old.owed messages.now) in
            LIVE_LIMIT < node_count self.old + nodes ↔ result ≡ Err Full }
    {
        match way {
            Cancel::Aggressive => self.reserve(2 * messages.len()),
            Cancel::Lazy => self.reserve_anew(messages),
        }
    }

    /// Makes room for all these messages, or at least for those that no owed one matches.
    fn reserve_anew(&mut self, messages: &[Message]) -> Result<(), PoolRefused>
        ensures contents { SameButRoom self.old self.new }
        ensures room { let nodes = 2 * length (sent_anew self.old.owed messages.now) in
            OnOk result (nodes ≤ self.new.room) }
        ensures limit { let nodes = 2 * length (sent_anew self.old.owed messages.now) in
            LIVE_LIMIT < node_count self.old + nodes ↔ result ≡ Err Full }
    {
        self.owed.learn(&self.pool, OWED);
        match self.reserve(2 * messages.len()) {
            Ok(()) => Ok(()),
            Err(_) => {
                let fresh = fresh_count(&self.pool, messages);
                self.reserve(2 * fresh)
            }
        }
    }

    /// All messages are sent, in order. One that an owed message matches does not go out: it is owed no more.
    pub fn send_all(&mut self, messages: &[Message], way: Cancel)
        requires { 2 * length (sent_out way self.old.owed messages.now) ≤ self.old.room }
        ensures { SameButRoom (with_all_sent way messages.now self.old) self.new }
    {
        match way {
            Cancel::Aggressive => self.send_each(messages),
            Cancel::Lazy => self.send_anew(messages),
        }
    }

    /// All messages go out.
    fn send_each(&mut self, messages: &[Message])
        requires { 2 * length messages.now ≤ self.old.room }
        ensures { SameButRoom (with_all_sent Aggressive messages.now self.old) self.new }
    {
        for message in messages {
            self.send(message);
        }
    }

    /// Those go out that no owed message matches.
    fn send_anew(&mut self, messages: &[Message])
        requires { 2 * length (sent_anew self.old.owed messages.now) ≤ self.old.room }
        ensures { SameButRoom (with_all_sent Lazy messages.now self.old) self.new }
    {
        for message in messages {
            self.send_once(message);
        }
    }

    /// A message is sent again if an equal one is owed, and else it goes out.
    fn send_once(&mut self, message: &Message)
        requires { 2 * length (sent_anew self.old.owed (message.now ∷ [])) ≤ self.old.room }
        ensures contents { SameButRoom (with_all_sent Lazy (message.now ∷ []) self.old) self.new }
        ensures room { let nodes = 2 * length (sent_anew self.old.owed (message.now ∷ [])) in
            self.old.room ≤ self.new.room + nodes }
    {
        if !self.send_again(message) {
            self.send(message);
        }
    }

    /// The first equal owed message is sent again, or the answer is that there is none.
    fn send_again(&mut self, message: &Message) -> bool
        ensures answer { result ≡ has message.now self.old.owed }
        ensures yes { IsTrue result → SameButRoom (with_sent_again message.now self.old) self.new }
        ensures no { result ≡ false → self.new ≡ self.old }
        ensures room { self.new.room ≡ self.old.room }
    {
        self.pool.lists_law();
        let Some(index) = self.owed.first(&self.pool, OWED, message) else {
            return false;
        };
        self.owed.leave(&self.pool, OWED, index, message);
        self.pool.relink(index, SENT);
        true
    }

    /// A message is sent: it is kept as its anti-message, and goes out.
    pub fn send(&mut self, message: &Message)
        requires { 2 ≤ self.old.room }
        ensures contents { SameButRoom (with_sent message.now self.old) self.new }
        ensures room { self.old.room ≤ self.new.room + 2 }
    {
        self.pool.lists_law();
        let _ = self.pool.push_back(SENT, signed(Sign::Anti, message));
        let _ = self
            .pool
            .push_back(OUTGOING, signed(Sign::Positive, message));
    }
}

/// How many of these messages no owed one matches: those that come as often before as they are owed.
fn fresh_count(pool: &Pool<Item, 6>, messages: &[Message]) -> usize
    ensures count { let owed = map message_at (list_at pool.now.lists 5) in
        result ≡ length (sent_anew owed messages.now) }
    ensures within { result ≤ length messages.now }
{
    let mut count = 0;
    for number in 0..messages.len() {
        let message = &messages[number];
        count += one_if(owed_count(pool, message) <= earlier_count(messages, number, message));
    }
    count
}

/// One for yes, and zero for no.
fn one_if(yes: bool) -> usize
    ensures value { result ≡ cond yes 1 0 }
    ensures small { result ≤ 1 }
{
    if yes { 1 } else { 0 }
}

/// How often an equal message is owed.
fn owed_count(pool: &Pool<Item, 6>, message: &Message) -> usize
    ensures { result ≡ total (one_at message.now) (map message_at (list_at pool.now.lists 5)) }
{
    pool.lists_law();
    let mut count = 0;
    let mut at = pool.first(OWED);
    for _ in 0..pool.len(OWED) {
        if let Some(index) = at {
            count += one_if(pool.get(index).message == *message);
            at = pool.next(index);
        }
    }
    count
}

/// How often an equal message is among the first ones.
fn earlier_count(messages: &[Message], number: usize, message: &Message) -> usize
    requires { number ≤ length messages.now }
    ensures { result ≡ total (one_at message.now) (take number messages.now) }
{
    let mut count = 0;
    for earlier in &messages[..number] {
        count += one_if(*earlier == *message);
    }
    count
}
