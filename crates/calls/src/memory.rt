// The planner that is kept, with a number in it set, which may leave it not sound. A line with a small letter says which:
//   b VALUE   m VALUE   c VALUE   n VALUE     its B, whether messages are on, the count of those that wait, the first of them
use super::line::Line;
use planner::Planner;

pub fn set(p: &mut Planner, line: &Line) {
    let value = line.numbers[0];
    match line.letter {
        Some(b'b') => p.setting.slots = value,
        Some(b'm') => p.setting.messages = value,
        Some(b'c') => p.waiting.count = value,
        Some(b'n') => p.waiting.numbers[0] = (value % 65536) as u16,
        _ => {}
    }
}
