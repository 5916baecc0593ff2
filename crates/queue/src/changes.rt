// The changes behind the tests: each relies on a sound queue and on what the refusals would have found.
ghost use Rattle.std.specs.Prelude.{◌+◌, ◌<◌};
ghost use Rattle.places.specs.Order.{triple};
ghost use Rattle.places.specs.Entries.{put, without};
ghost use Rattle.queue.specs.Layout.{entries};
ghost use Rattle.queue.specs.Calls.{moved, HasEntries};
ghost use Rattle.queue.specs.Linking.{CanInsert, CanDelete, CanMove, CanMoveAt, IsMovedAt};

use crate::Queue;
use places::{Entry, first_free, place_of};

impl Queue {
    // Files an id at the first free place. Three numbers and no `Entry`: so the planner calls it.
    pub fn insert_sound(&mut self, id: u32, key: u32, release: u32)
        requires { CanInsert self.old (triple key release id) }
        ensures { HasEntries self.new (put (triple key release id) (entries self.old)) }
    {
        let entry = Entry { key, release, id };
        let x = first_free(&self.ids).unwrap();
        let n = self.position_sound(entry);
        self.put_before(x, entry, n);
    }

    // Takes an id out.
    pub fn delete_sound(&mut self, id: u32)
        requires { CanDelete self.old id }
        ensures { HasEntries self.new (without id (entries self.old)) }
    {
        let x = place_of(&self.ids, id).unwrap();
        self.take_out(x);
    }

    // Adds an amount to the key and the release of the id at place x: it stays at its place, and its links go to the bucket of the larger key.
    pub fn move_at_sound(&mut self, x: usize, amount: u32)
        requires { CanMoveAt self.old x amount }
        ensures { IsMovedAt self.old x amount self.new }
    {
        let entry = Entry {
            key: self.keys[x] + amount,
            release: self.releases[x] + amount,
            id: u32::from(self.ids[x]),
        };
        self.take_out(x);
        let n = self.position_sound(entry);
        self.put_before(x, entry, n);
    }

    // Adds an amount to the key and the release of an id.
    pub fn move_sound(&mut self, id: u32, amount: u32)
        requires { CanMove self.old id amount }
        ensures { HasEntries self.new (moved id amount (entries self.old)) }
    {
        let x = place_of(&self.ids, id).unwrap();
        self.move_at_sound(x, amount);
    }
}
