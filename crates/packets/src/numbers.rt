// Which numbers are good, stream ids and messages behind them: the one place that says so, for the writer and the reader.
ghost use Rattle.basics.specs.Decides.{Decides};
ghost use Rattle.basics.specs.Limits.{largest_id};
ghost use Rattle.basics.specs.OneTo.{OneTo};
ghost use Rattle.packets.specs.Good.{NumbersGood};

use crate::ids::is_met;
use basics::{LARGEST_ID, is_one_to};
use messages::all_messages;

// Whether a number is the id of a stream.
fn is_id(number: u16) -> bool
    ensures { Decides result (OneTo largest_id number) }
{
    is_one_to(u32::from(number), LARGEST_ID)
}

// The ids are looked at one by one; from the first number on that is none, all must be messages.
pub fn numbers_are_good(numbers: &[u16]) -> bool
    ensures { Decides result (NumbersGood numbers.now) }
{
    let mut met = [0; 16];
    for (i, number) in numbers.iter().enumerate() {
        if !is_id(*number) {
            return all_messages(&numbers[i..]);
        }
        if is_met(&met, &numbers[..i], *number) {
            return false;
        }
        bits::put_below_1024(&mut met, *number % 1024);
    }
    true
}
