// Showing days that circle: from each day to the least next day answered no, up to and with the first repeated one. Nothing is written
// unless all of it holds.
ghost use Rattle.std.specs.Prelude.{◌≡◌, ◌<◌, ◌≤◌, length, take};
ghost use Rattle.std.specs.Option.{option_map};
ghost use Rattle.model.specs.Showing.{stands_in, written_on};
ghost use Rattle.engine.specs.Exploring.{at};
ghost use Rattle.engine.specs.Strips.{Put, next_no, days_round};

use crate::words::is_yes;
use model::Calendar;

// The days gone through: the first `count` of the array, each written by its index. The crate has no heap, so it makes no list that grows.
#[derive(Clone, Copy)]
struct Round {
    days: [u32; 65],
    count: usize,
    ghost few: { count ≤ 65 },
}

// Whether the day stands among these.
fn stands_in(days: &[u32], d: usize) -> bool
    ensures { result ≡ stands_in d days.now }
{
    days.iter().any(|e| *e as usize == d)
}

// The least next day answered no.
fn next_no<C: Calendar>(calendar: &C, own: &[u32], d: usize) -> Option<usize>
    ensures { result ≡ next_no (C.Floor.points calendar.now) (C.Floor.leads calendar.now) (at own.now) d }
{
    calendar.after(d).find(|e| !is_yes(own, *e))
}

// The days from `start` on; none where one of them is awaited or has no next day answered no. Each turn goes on from the day that the last
// one found, and writes it by its index, since a proof loses what is written through `iter_mut`.
fn go_round<C: Calendar>(calendar: &C, own: &[u32], left: &[u32], start: usize) -> Option<Round>
    requires { (C.Floor.points calendar.now ≤ 64) × (start < C.Floor.points calendar.now) }
    ensures { option_map (λ w. take w.count w.days) result ≡ days_round (C.Floor.points calendar.now) (C.Floor.leads calendar.now) (at own.now) (at left.now) start }
{
    let mut days = [0; 65];
    let mut d = start;
    for i in 0..calendar.count() + 1 {
        days[i] = d as u32;
        if stands_in(&days[..i], d) {
            return Some(Round { days, count: i + 1 });
        }
        if is_yes(left, d) {
            return None;
        }
        d = next_no(calendar, own, d)?;
    }
    None
}

// Writes the numbers to the front of the strip.
fn write_front(numbers: &[u32], strip: &mut [u32])
    requires { length numbers.now ≤ length strip.old }
    ensures { strip.new ≡ written_on numbers.now strip.old }
{
    strip[..numbers.len()].copy_from_slice(numbers);
}

// Writes the days from `start` on, where they hold. The answer is how many there are.
pub(crate) fn show_circle<C: Calendar>(
    calendar: &C,
    own: &[u32],
    left: &[u32],
    start: usize,
    strip: &mut [u32],
) -> Option<usize>
    requires { (C.Floor.points calendar.now ≤ 64) × ((start < C.Floor.points calendar.now) × (C.Floor.points calendar.now < length strip.old)) }
    ensures { Put (days_round (C.Floor.points calendar.now) (C.Floor.leads calendar.now) (at own.now) (at left.now) start) strip.old strip.new result }
{
    let round = go_round(calendar, own, left, start)?;
    write_front(&round.days[..round.count], strip);
    Some(round.count)
}
