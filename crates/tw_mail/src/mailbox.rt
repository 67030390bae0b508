//! One mailbox.

ghost use Rattle.std.specs.Prelude.{◌≡◌, ◌<◌, ◌≤◌, ◌-◌, ◌+◌, ◌++◌, ◌∷◌, [], Some, OnOk, OnErr, drop, length, take, remove, insert, slice_get};
ghost use Rattle.tw_mail.specs.Mail.{HasRoom};
ghost use Rattle.tw_theory.specs.Bundles.{least_stamp};

use crate::least::{Least, least_stamp, stamp_of};
use std::alloc::{AllocError, Global};
use std::marker::Model;
use tw_msgs::Item;
use tw_vtime::Stamp;

/// The items of a mailbox, behind those that left it at the front. It has spare places where an item has left.
#[derive(Drop)]
pub(crate) struct Mailbox {
    items: Vec<Item>,
    first: usize,
    least: Least,
}

impl Model for Mailbox {
    ghost use Rattle.std.specs.Prelude.{◌≤◌, ◌-◌, drop, length, vec_capacity};
    ghost use Rattle.tw_mail.specs.Mail.{Held, IsLeastOf};

    ghost Value = { Held };

    ghost view = { λ b. record {
      items = drop b.first b.items.items;
      before = b.first;
      behind = vec_capacity b.items - length b.items.items;
    } };

    ghost invariant = { λ b. (b.first ≤ length b.items.items)
        × IsLeastOf b.least.stamp b.least.count (drop b.first b.items.items) };
}

impl Mailbox {
    /// An empty mailbox.
    pub fn new(alloc: Global) -> Mailbox
        ensures { result.items ≡ [] }
    {
        Mailbox {
            items: Vec::new(alloc),
            first: 0,
            least: Least::unknown(),
        }
    }

    /// The items, in order.
    pub fn as_slice(&self) -> &[Item]
        ensures { result.now ≡ self.now.items }
    {
        behind(self.items.as_slice(), self.first)
    }

    /// The least stamp of the items, or the end.
    pub fn least(&self) -> Stamp
        ensures { result ≡ least_stamp self.now.items }
    {
        if self.least.count > 0 {
            return self.least.stamp;
        }
        least_stamp(self.as_slice())
    }

    /// Adds an item at the end.
    pub fn push(&mut self, item: Item) -> Result<(), AllocError>
        ensures ok { OnOk result (self.new.items ≡ self.old.items ++ item ∷ []) }
        ensures err { OnErr result (self.new.items ≡ self.old.items) }
    {
        let stamp = stamp_of(&item);
        let only = self.first == self.items.len();
        self.items.push(item)?;
        self.least.add(only, stamp);
        self.least
            .keep_up(behind(self.items.as_slice(), self.first));
        Ok(())
    }

    /// Drops the last item.
    pub fn pop(&mut self)
        requires { 0 < length self.old.items }
        ensures { self.new.items ≡ take (length self.old.items - 1) self.old.items }
    {
        self.least.forget();
        self.items.pop();
    }

    /// Takes an item out; the items on its shorter side close up. The places in front are given up where they are more than the items.
    pub fn take(&mut self, place: usize) -> Item
        requires { place < length self.old.items }
        ensures item { slice_get self.old.items place ≡ Some result }
        ensures items { self.new.items ≡ remove self.old.items place }
        ensures room { HasRoom self.new }
    {
        if self.first > self.items.len() - self.first {
            self.close_up();
        }
        if place > (self.items.len() - self.first) / 2 {
            let item = self.items.remove(self.first + place);
            self.least.remove(stamp_of(&item));
            self.least
                .keep_up(behind(self.items.as_slice(), self.first));
            return item;
        }
        let item = self.items[self.first + place];
        let to = self.first + 1;
        self.items
            .as_mut_slice()
            .copy_within(self.first..self.first + place, to);
        self.first = to;
        self.least.remove(stamp_of(&item));
        self.least
            .keep_up(behind(self.items.as_slice(), self.first));
        item
    }

    /// Puts an item at a place that has become free.
    pub fn put_back(&mut self, place: usize, item: Item)
        requires place { place ≤ length self.old.items }
        requires room { HasRoom self.old }
        ensures { self.new.items ≡ insert self.old.items place item }
    {
        let only = self.first == self.items.len();
        let stamp = stamp_of(&item);
        if place == 0 && self.first > 0 {
            self.first -= 1;
            self.items[self.first] = item;
            self.least.add(only, stamp);
            return;
        }
        self.close_up();
        self.items.insert(place, item).unwrap();
        self.least.add(only, stamp);
    }

    /// Moves the items to the front.
    fn close_up(&mut self)
        ensures same { self.new.items ≡ self.old.items }
        ensures before { self.new.before ≡ 0 }
        ensures room { self.new.behind ≡ self.old.before + self.old.behind }
    {
        let left = self.items.len() - self.first;
        self.items.rotate_left(self.first);
        self.items.truncate(left);
        self.first = 0;
    }
}

/// The items behind the first ones.
fn behind(items: &[Item], first: usize) -> &[Item]
    requires { first ≤ length items.now }
    ensures { result.now ≡ drop first items.now }
{
    &items[first..]
}
