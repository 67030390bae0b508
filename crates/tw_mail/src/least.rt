//! The least stamp of a list of items, kept up as items come and go.

ghost use Rattle.std.specs.Prelude.{◌≡◌, List, [], IsTrue};
ghost use Rattle.tw_mail.specs.Mail.{IsLeastOf, IsWith};
ghost use Rattle.tw_msgs.specs.declared.message.Item.{Item as SeenItem};
ghost use Rattle.tw_theory.specs.Bundles.{least_stamp};

use tw_msgs::Item;
use tw_vtime::Stamp;

/// The least stamp of some items, as far as it is known.
#[derive(Drop)]
pub(crate) struct Least {
    pub stamp: Stamp,
    // Of how many items, at least, it is the stamp. Where of none, the least stamp is not known.
    pub count: usize,
    // How often an item has come or gone since the items were last looked through.
    pub changes: usize,
}

/// The least stamp of the items, or the end.
pub(crate) fn least_stamp(items: &[Item]) -> Stamp
    ensures { result ≡ least_stamp items.now }
{
    items
        .iter()
        .fold(Stamp::END, |least, item| least.min(item.message.stamp))
}

/// The stamp of an item.
pub(crate) fn stamp_of(item: &Item) -> Stamp
    ensures { result ≡ item.now.message.stamp }
{
    item.message.stamp
}

impl Least {
    /// Nothing is known.
    pub fn unknown() -> Least
        ensures { (items : List SeenItem) → IsLeastOf result.stamp result.count items }
    {
        Least {
            stamp: Stamp::END,
            count: 0,
            changes: 0,
        }
    }

    /// Nothing is known any more.
    pub fn forget(&mut self)
        ensures { self.new.count ≡ 0 }
    {
        self.count = 0;
    }

    /// An item of this stamp came. Told is whether it is the only one.
    pub fn add(&mut self, only: bool, stamp: Stamp)
        ensures { (items more : List SeenItem) → IsWith stamp items more
            → (IsTrue only → items ≡ []) → IsLeastOf self.old.stamp self.old.count items
            → IsLeastOf self.new.stamp self.new.count more }
    {
        if only {
            self.stamp = Stamp::END.min(stamp);
            self.count = 1;
            return;
        }
        if self.count == 0 || self.stamp < stamp {
            return;
        }
        if stamp < self.stamp {
            self.stamp = stamp;
            self.count = 0;
        }
        self.count = self.count.saturating_add(1);
    }

    /// An item of this stamp left.
    pub fn remove(&mut self, stamp: Stamp)
        ensures { (items fewer : List SeenItem) → IsWith stamp fewer items
            → IsLeastOf self.old.stamp self.old.count items
            → IsLeastOf self.new.stamp self.new.count fewer }
    {
        if self.count > 0 && stamp == self.stamp {
            self.count -= 1;
        }
    }

    /// The items have changed. Where the least stamp is not known, they are looked through, but not before they have
    /// changed as often as there are items: so each change costs one look on the whole.
    pub fn keep_up(&mut self, items: &[Item])
        ensures { IsLeastOf self.old.stamp self.old.count items.now
            → IsLeastOf self.new.stamp self.new.count items.now }
    {
        if self.count == 0 && self.changes >= items.len() {
            self.look_through(items);
            return;
        }
        self.changes = self.changes.saturating_add(1);
    }

    /// Each item is looked at.
    fn look_through(&mut self, items: &[Item])
        ensures { IsLeastOf self.new.stamp self.new.count items.now }
    {
        self.count = 0;
        self.changes = 0;
        for place in 0..items.len() {
            self.add(place == 0, items[place].message.stamp);
        }
    }
}
