//! A mailbox for each receiver.

ghost use Rattle.std.specs.Prelude.{◌≡◌, ◌<◌, ◌-◌, ◌++◌, ◌∷◌, [], None, Some, IsOk, IfOk, OnOk, OnErr, OnSome, IfNone, length, take, remove, insert, replicate, slice_get, slice_set};
ghost use Rattle.std.specs.List.{AllByRecursion as Each};
ghost use Rattle.tw_mail.specs.Mail.{mail, mail_after};
ghost use Rattle.tw_theory.specs.Executive.{mail_of, posted, least_mail};

use crate::mailbox::Mailbox;
use std::alloc::{AllocError, Global};
use std::marker::Model;
use tw_msgs::Item;
use tw_vtime::Stamp;

/// The mailboxes of all receivers: the items that were posted to each and not yet taken, in the order in which they came.
///
/// Contracts see a list of items for each mailbox, and the place that an item has just left: the next call alone can put it back there.
#[derive(Drop)]
pub struct Mailboxes {
    boxes: Vec<Mailbox>,
    taken: Option<(usize, usize)>,
}

impl Model for Mailboxes {
    ghost use Rattle.std.specs.Prelude.{map};
    ghost use Rattle.tw_mail.specs.Mail.{Mail, HasPlace};

    ghost Value = { Mail };

    ghost view = { λ m. record { boxes = map (λ b. b.items) m.boxes.items; taken = m.taken } };

    ghost invariant = { λ m. HasPlace m.boxes.items m.taken };
}

impl Mailboxes {
    /// So many empty mailboxes. Refused for want of memory alone (4).
    pub fn new(alloc: Global, n: usize) -> Result<Mailboxes, AllocError>
        ensures made { IfOk result (λ made. made ≡ mail (replicate n [])) }
        ensures succeeds { n ≡ 0 → IsOk result }
    {
        let mut boxes = Vec::new(alloc);
        for _ in 0..n {
            boxes.push(Mailbox::new(alloc))?;
        }
        Ok(Mailboxes { boxes, taken: None })
    }

    /// The items of a mailbox, in order.
    pub fn items(&self, to: usize) -> &[Item]
        requires { to < length self.now.boxes }
        ensures { result.now ≡ mail_of self.now.boxes to }
    {
        self.boxes[to].as_slice()
    }

    /// How many items a mailbox has.
    pub fn len(&self, to: usize) -> usize
        requires { to < length self.now.boxes }
        ensures { result ≡ length (mail_of self.now.boxes to) }
    {
        self.items(to).len()
    }

    /// Takes the item at a place, from 0, out of a mailbox, if there is one; later items close up.
    ///
    /// To take all items of a mailbox from its front costs as many steps as it has items.
    pub fn take(&mut self, to: usize, place: usize) -> Option<Item>
        requires { to < length self.old.boxes }
        ensures item { result ≡ slice_get (mail_of self.old.boxes to) place }
        ensures taken { let left = remove (mail_of self.old.boxes to) place in
            OnSome result (self.new ≡ mail_after to place (slice_set self.old.boxes to left)) }
        ensures stays { IfNone result (self.new ≡ self.old) }
        ensures as_many { length self.new.boxes ≡ length self.old.boxes }
    {
        if place >= self.len(to) {
            return None;
        }
        self.taken = Some((to, place));
        Some(self.boxes[to].take(place))
    }

    /// Puts an item into the place that one has just left. It takes no memory.
    pub fn put_back(&mut self, to: usize, place: usize, item: Item)
        requires { self.old.taken ≡ Some (to, place) }
        ensures { let all = insert (mail_of self.old.boxes to) place item in
            self.new ≡ mail (slice_set self.old.boxes to all) }
    {
        self.taken = None;
        self.boxes[to].put_back(place, item);
    }

    /// Puts each item, in order, at the end of its receiver's mailbox; all of them, or none. It costs as many steps as they are.
    ///
    /// Where memory is wanting (4) all mailboxes have the items that they had.
    pub fn post(&mut self, items: &[Item]) -> Result<(), AllocError>
        requires { Each (λ i. i.message.to < length self.old.boxes) items.now }
        ensures ok { OnOk result (self.new ≡ mail (posted self.old.boxes items.now)) }
        ensures err { OnErr result (self.new ≡ mail self.old.boxes) }
        ensures as_many { length self.new.boxes ≡ length self.old.boxes }
        ensures succeeds { items.now ≡ [] → IsOk result }
    {
        self.taken = None;
        for place in 0..items.len() {
            if let Err(refused) = self.push(items[place]) {
                for back in 0..place {
                    self.pop(items[place - 1 - back].message.to);
                }
                return Err(refused);
            }
        }
        Ok(())
    }

    /// The least stamp of all items, or the end where there are none.
    ///
    /// A mailbox keeps its least stamp. When its last item of that stamp has left, its items are looked through at
    /// each call, until it has changed as often as it has items.
    pub fn least(&self) -> Stamp
        ensures { result ≡ least_mail self.now.boxes }
    {
        self.boxes
            .iter()
            .fold(Stamp::END, |least, one| least.min(one.least()))
    }

    /// One item goes to the end of its receiver's mailbox.
    fn push(&mut self, item: Item) -> Result<(), AllocError>
        requires known { item.message.to < length self.old.boxes }
        requires free { self.old.taken ≡ None }
        ensures ok { let all = mail_of self.old.boxes item.message.to ++ item ∷ [] in
            OnOk result (self.new ≡ mail (slice_set self.old.boxes item.message.to all)) }
        ensures err { OnErr result (self.new ≡ self.old) }
    {
        self.boxes[item.message.to].push(item)
    }

    /// The last item of a mailbox goes.
    fn pop(&mut self, to: usize)
        requires known { to < length self.old.boxes }
        requires some { 0 < length (mail_of self.old.boxes to) }
        requires free { self.old.taken ≡ None }
        ensures { let items = mail_of self.old.boxes to in
            let left = take (length items - 1) items in
            self.new ≡ mail (slice_set self.old.boxes to left) }
    {
        self.boxes[to].pop();
    }
}
