// What was called and answered, by which the next call is chosen.
use super::draws::Draws;
use super::mood::Mood;
use calls::{Answered, Call};

// B and F of the last opening, zeros if it was refused, from which lengths and periods are made as from any others; L, that opening's T or the start of the last round held since; the mood, which is of
// the last opening, refused or not; and whether the call before was a round that was held.
#[derive(Clone, Copy, Default)]
pub struct Seen {
    pub slots: u32,
    pub frame: u32,
    pub last: u32,
    pub mood: Mood,
    pub held: bool,
}

impl Seen {
    // What a call answered that is no check.
    pub fn note(&mut self, call: Call, answered: Answered, d: Draws) {
        self.held = answered.start.is_some();
        if let Some(start) = answered.start {
            self.last = start;
        }
        if let Call::Open(slots, frame, _, last, _) = call {
            let mood = Mood::of_opening(d.e);
            *self = match answered.answer {
                0 => Seen {
                    slots,
                    frame,
                    last,
                    mood,
                    held: false,
                },
                _ => Seen {
                    mood,
                    ..Seen::default()
                },
            };
        }
    }
}
