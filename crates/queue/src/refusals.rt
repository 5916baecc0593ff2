// The first refusal of each change, if one applies.
ghost use Rattle.std.specs.Prelude.{◌≡◌};
ghost use Rattle.basics.specs.Answers.{answer};
ghost use Rattle.basics.specs.Refusals.{answer_of};
ghost use Rattle.queue.specs.Calls.{insert_refusals, delete_refusals, move_refusals};

use crate::Queue;
use basics::{LARGEST_ID, Refusal, is_one_to};
use places::{Entry, first_free, place_holding};

impl Queue {
    // The first refusal of insert that applies, if any.
    pub fn may_insert(&self, entry: Entry) -> Result<(), Refusal>
        ensures { answer result ≡ answer_of (insert_refusals self.now entry.id entry.key entry.release) }
    {
        if !self.is_sound() {
            return Err(Refusal::NotSound);
        }
        if !is_one_to(entry.id, LARGEST_ID) {
            return Err(Refusal::BadId);
        }
        if first_free(&self.ids).is_none() {
            return Err(Refusal::QueueFull);
        }
        if place_holding(&self.ids, entry.id).is_some() {
            return Err(Refusal::Filed);
        }
        if entry.key < entry.release || !self.places().key_fits(None, u64::from(entry.key)) {
            return Err(Refusal::OutOfBounds);
        }
        Ok(())
    }

    // The first refusal of delete that applies, if any.
    pub fn may_delete(&self, id: u32) -> Result<(), Refusal>
        ensures { answer result ≡ answer_of (delete_refusals self.now id) }
    {
        if !self.is_sound() {
            return Err(Refusal::NotSound);
        }
        if place_holding(&self.ids, id).is_none() {
            return Err(Refusal::NotFiled);
        }
        Ok(())
    }

    // The first refusal of move that applies, if any. The sum of key and amount is taken in 64 bits: it may pass 32. A release stays as far below
    // its key as it was.
    pub fn may_move(&self, id: u32, amount: u32) -> Result<(), Refusal>
        ensures { answer result ≡ answer_of (move_refusals self.now id amount) }
    {
        if !self.is_sound() {
            return Err(Refusal::NotSound);
        }
        let Some(x) = place_holding(&self.ids, id) else {
            return Err(Refusal::NotFiled);
        };
        let key = u64::from(self.keys[x]) + u64::from(amount);
        if !self.places().key_fits(Some(x), key) {
            return Err(Refusal::OutOfBounds);
        }
        Ok(())
    }
}
