// The slots of a round: which streams, and the streams served.
ghost use Rattle.std.specs.Prelude.{◌≡◌, ◌<◌};
ghost use Rattle.state.specs.Content.{content};
ghost use Rattle.planner.specs.AddRemove.{IsSoundWith};
ghost use Rattle.planner.specs.Round.{left_at};
ghost use Rattle.state.specs.Needs.{StartsAt};
ghost use Rattle.planner.specs.Needs.{CanServeAll, IsChosen, AreFound, IsLeft, none_chosen, with_chosen};

use messages::Waiting;
use queue::Placed;
use state::Planner;
use table::Record;

// The ids chosen for a round, in the first n places, beside each its place in the queue, and its stream's row in the table.
// Columns with a count, by the rule no heap: so the ids are copied as they stand into the round's list, and behind them the messages.
#[derive(Clone, Copy)]
pub struct Chosen {
    pub placed: Placed,
    pub rows: [usize; 64],
    pub n: usize,
}

impl Chosen {
    // None yet.
    fn none() -> Chosen
        ensures { result ≡ none_chosen }
    {
        Chosen {
            placed: Placed {
                ids: [0; 64],
                places: [0; 64],
            },
            rows: [0; 64],
            n: 0,
        }
    }

    // One more, behind the others.
    fn push(&mut self, id: u16, place: usize, row: usize)
        requires { self.old.n < 64 }
        ensures { self.new ≡ with_chosen self.old id place row }
    {
        self.placed.ids[self.n] = id;
        self.placed.places[self.n] = place;
        self.rows[self.n] = row;
        self.n += 1;
    }
}

// The slots of a round at the start: entries are met in the queue's order, until the slots are full or all have been met.
#[tactic(auto, using(crate::proofs::Facts::Choosing::none_visited))]
pub fn choose_sound(p: &Planner, start: u32) -> Chosen
    requires { StartsAt p.now start }
    ensures { IsChosen (content p.now) start result × AreFound p.now.table p.now.queue result }
{
    let slots = p.setting.stream_slots() as usize;
    let streams: &[Record] = &p.table.streams;
    let order = p.queue.in_order_sound(p.table.count);
    let ids = p.table.ids_in_range();
    let mut chosen = Chosen::none();
    for (i, &id) in order.ids[..p.table.count].iter().enumerate() {
        if chosen.n == slots {
            return chosen;
        }
        let row = basics::place_among_rising(&ids, u32::from(id));
        if streams[row].release <= start {
            chosen.push(id, order.places[i], row);
        }
    }
    chosen
}

// Each stream chosen passes to its next packet, in the table and in the queue, the start is the last one, and the messages left wait on.
pub fn serve_sound(p: &mut Planner, chosen: &Chosen, start: u32, left: Waiting)
    requires { CanServeAll p.old start chosen.now × IsLeft (content p.old) start left }
    ensures { IsSoundWith (left_at (content p.old) start) p.new }
{
    // As a slice, whose length a proof knows: of an array in a struct behind a reference it has no such fact.
    let _places: &[Record] = &p.table.streams;
    let mut periods = [0; 64];
    for (k, &row) in chosen.rows[..chosen.n].iter().enumerate() {
        let stream = p.table.streams[row];
        periods[k] = stream.period;
        p.table.streams[row] = stream.at_next_packet_in_range();
    }
    p.queue.move_all_sound(&chosen.placed, &periods, chosen.n);
    p.last = start;
    p.waiting = left;
}
