// The start rule and the lazy rule on a table: the lengths looked at are a busy length of them from the first due time on.
ghost use Rattle.std.specs.Prelude.{◌≡◌, min, length, MatchOption};
ghost use Rattle.rules.specs.Demand.{StartRule, ceil};
ghost use Rattle.table.specs.Table.{streams_of};
ghost use Rattle.table.specs.Lengths.{CanFindStart, IsNextStart};
ghost use Rattle.table.specs.Start.{IsLeastOf, CanCountRounds, CanLookFrom};

use super::Table;
use super::lengths::advance;

// The least of the values, if there is one.
fn least_of(values: &[u16]) -> Option<u16>
    ensures { MatchOption result (length values.now ≡ 0) (λ least. IsLeastOf values.now least) }
{
    values.iter().copied().min()
}

// The lesser of two: no_division is proved of this code, and of the library's `min` it cannot be.
fn lesser(x: u32, y: u32) -> u32
    ensures { result ≡ min y x }
{
    if y < x { y } else { x }
}

// How many rounds of that many slots the packets take, where `needed` are not too many: counted up, since a division for each length
// costs more.
fn rounds_from(needed: u32, packets: u32, slots: u32) -> u32
    requires { CanCountRounds needed packets slots }
    ensures { result ≡ ceil packets slots }
{
    let mut n = needed;
    while slots * n < packets {
        n += 1;
    }
    n
}

// What next_start_in_range answers, where `first` is the first due time, and `times` are the due times less now.
// The sum is widened by a cast, for the reason at `hit`. It is called at one place: a struct of what it is passed would serve that call alone.
fn start_from(
    table: &Table,
    periods: &[u16; 64],
    times: &mut [u16; 64],
    slots: u32,
    now: u32,
    cap: u32,
    first: u32,
    busy: u32,
) -> Option<u32>
    requires { CanLookFrom slots now cap first busy table.now periods.now times.old }
    ensures { MatchOption result (¬ StartRule slots now (streams_of table.now)) (IsNextStart slots now cap (streams_of table.now)) }
{
    let mut sum: u32 = 0;
    let mut needed: u32 = 0;
    let mut start = cap;
    for t in first..first + busy {
        sum += advance(periods, &mut times[..table.count], (t - now) as u16) as u32;
        needed = rounds_from(needed, sum, slots);
        if t < now + needed {
            return None;
        }
        start = lesser(start, t - needed);
    }
    Some(start)
}

// The lazy start, if the start rule holds.
pub fn next_start_in_range(table: &Table, slots: u32, now: u32, cap: u32, busy: u32) -> Option<u32>
    requires { CanFindStart slots now cap busy table.now }
    ensures { MatchOption result (¬ StartRule slots now (streams_of table.now)) (IsNextStart slots now cap (streams_of table.now)) }
{
    let periods = table.column_in_range(0, |stream| stream.period as u16);
    let mut dues = table.column_in_range(
        0,
        |stream| (stream.release + stream.deadline - now) as u16,
    );
    let Some(least) = least_of(&dues[..table.count]) else {
        return Some(cap);
    };
    let first = now + u32::from(least);
    start_from(table, &periods, &mut dues, slots, now, cap, first, busy)
}
