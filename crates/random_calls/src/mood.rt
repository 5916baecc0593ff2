// What the calls behind an opening are like, and what it changes in the draws.
#[derive(Clone, Copy, PartialEq, Eq, Default)]
pub enum Mood {
    // Calls of each kind.
    #[default]
    Mixing,
    // Many messages.
    Sending,
    // The table fills.
    Filling,
    // Many packets are put off, and then urgent ones added.
    Delaying,
}

const MOODS: [Mood; 8] = [
    Mood::Mixing,
    Mood::Mixing,
    Mood::Sending,
    Mood::Sending,
    Mood::Filling,
    Mood::Delaying,
    Mood::Delaying,
    Mood::Delaying,
];

const SLOTS: [u32; 16] = [0, 65, 1, 1, 1, 2, 2, 2, 3, 3, 3, 4, 5, 8, 33, 64];

const GAPS: [u32; 16] = [
    0, 256, 255, 1, 2, 3, 6, 9, 20, 20, 30, 50, 100, 200, 255, 255,
];

impl Mood {
    // The mood that goes with an opening.
    pub fn of_opening(e: u32) -> Mood {
        MOODS[(e / 8 % 8) as usize]
    }

    // Of 22 calls that open nothing, so many are additions, and so many messages.
    pub fn shares(self) -> (u32, u32) {
        match self {
            Mood::Mixing => (4, 5),
            Mood::Sending => (2, 10),
            Mood::Filling => (12, 1),
            Mood::Delaying => (11, 1),
        }
    }

    // B of an opening, by its row.
    pub fn slots(self, row: u32) -> u32 {
        match (self, row) {
            (Mood::Filling, 2..) => 64,
            (Mood::Delaying, 2..) => 2,
            _ => SLOTS[(row % 16) as usize],
        }
    }

    // G of an opening, by its row.
    pub fn gap(self, row: u32) -> u32 {
        match (self, row) {
            (Mood::Delaying, 2..) => 255,
            _ => GAPS[(row % 16) as usize],
        }
    }

    // A stream's id.
    pub fn id(self, draw: u32) -> u32 {
        let rest = draw / 64;
        match (draw % 64, self) {
            (0, _) => 0,
            (1, _) => 32767,
            (2, _) => 32768,
            (3, _) => 65537,
            (_, Mood::Mixing | Mood::Sending) => 1 + rest % 12,
            (_, Mood::Filling | Mood::Delaying) => 1 + rest % 200,
        }
    }
}
