// Sums over the table, carried from one length to the next: each due time counts when its length comes. All of `advance` is in 16 bits,
// so that eight streams fit a vector register.
ghost use Rattle.std.specs.Prelude.{◌≡◌, ◌≤◌, MatchOption};
ghost use Rattle.basics.specs.Limits.{longest_period};
ghost use Rattle.rules.specs.Demand.{DemandRule};
ghost use Rattle.table.specs.Table.{streams_of};
ghost use Rattle.table.specs.Lengths.{CanAdvance, IsAdvance, CanTestDemand, IsBusyLength, hits, after_hit};
ghost use Rattle.table.specs.Sums.{CanCarry, AreSums};

use super::Table;

// How many due times of one stream t adds. By a cast: no_division is proved of this code, and of the library's `from` it cannot be.
fn hit(time: u16, t: u16) -> u16
    ensures { result ≡ hits time t }
{
    (time == t) as u16
}

// The first due time of one stream that is not yet counted once t is.
fn time_after(time: u16, t: u16, period: u16) -> u16
    requires { (t ≤ 60_000) × (period ≤ longest_period) }
    ensures { result ≡ after_hit time t period }
{
    if time == t { t + period } else { time }
}

// One length further, to t: how many of the due times fall at t; those move on by their periods.
// By index: no_division is proved of this code, and `zip` is a call of the library's.
pub fn advance(periods: &[u16], times: &mut [u16], t: u16) -> u16
    requires { CanAdvance periods.now times.old t }
    ensures { IsAdvance periods.now times.old t times.new result }
{
    let mut sum: u16 = 0;
    for (i, time) in times.iter_mut().enumerate() {
        sum += hit(*time, t);
        *time = time_after(*time, t, periods[i]);
    }
    sum
}

// The sums of the test at one length: the demand rule's, and the busy length's.
#[derive(Clone, Copy)]
struct Sums {
    demand: u32,
    most: u32,
}

// Annex 12.19: the sums at t, from those at the length before: each deadline and each release that comes at t is added. The table is there
// for the contract to name; of it only the count is read.
// The sums are widened by casts, for the reason at `hit`. It is called at one place: a struct of what it is passed would serve that call alone.
fn sums_at(
    table: &Table,
    periods: &[u16; 64],
    dues: &mut [u16; 64],
    releases: &mut [u16; 64],
    t: u16,
    before: Sums,
) -> Sums
    requires { CanCarry table.now periods.now dues.old releases.old t before }
    ensures { AreSums table.now t dues.new releases.new result }
{
    Sums {
        demand: before.demand + advance(periods, &mut dues[..table.count], t) as u32,
        most: before.most + advance(periods, &mut releases[..table.count], t) as u32,
    }
}

// The busy length, if the demand rule holds: it is tested at each length up to the busy one.
pub fn busy_length_in_range(table: &Table, slots: u32, frame: u32) -> Option<u32>
    requires { CanTestDemand slots frame table.now }
    ensures { MatchOption result (¬ DemandRule slots (streams_of table.now)) (IsBusyLength slots (streams_of table.now)) }
{
    let periods = table.column_in_range(0, |stream| stream.period as u16);
    let mut dues = table.column_in_range(0, |stream| stream.deadline as u16);
    let mut releases = [1u16; 64];
    let mut sums = Sums { demand: 0, most: 0 };
    for t in 1..=frame {
        let at = sums_at(table, &periods, &mut dues, &mut releases, t as u16, sums);
        if slots * t < at.demand {
            return None;
        }
        if at.most <= slots * t {
            return Some(t);
        }
        sums = at;
    }
    Some(frame)
}
