// A run of moves in one call.
ghost use Rattle.queue.specs.Layout.{entries};
ghost use Rattle.queue.specs.Calls.{HasEntries};
ghost use Rattle.queue.specs.Linking.{CanMoveAll, moved_all};

use crate::{Placed, Queue};

impl Queue {
    // Adds to the keys and the releases of the first n of some entries, one after the other, to each its amount. No id is looked for: each is at
    // its place, and stays there.
    pub fn move_all_sound(&mut self, placed: &Placed, amounts: &[u32; 64], n: usize)
        requires { CanMoveAll self.old placed.now amounts.now n }
        ensures { HasEntries self.new (moved_all placed.now.ids amounts.now n (entries self.old)) }
    {
        // By index: `CanMoveAll` and `moved_all` count the moves, and three arrays are read at once.
        for k in 0..n {
            self.move_at_sound(placed.places[k], amounts[k]);
        }
    }
}
