// The waits of the days for one point: how many steps are enough on every run to meet an awaited day.
ghost use Rattle.std.specs.Prelude.{◌≡◌, length};
ghost use Rattle.engine.specs.Settling.{awaited_in, Marked, Sound, Settled, next_wait, Passed};

use model::Calendar;

// One more than the highest wait of the days after d; none where one of them is not settled. A `for` that returns says plainer than
// `try_fold` what ends it.
fn next_wait<C: Calendar>(calendar: &C, waits: &[u16], d: usize) -> Option<u16>
    requires { length waits.now ≡ C.Floor.points calendar.now }
    ensures { result ≡ next_wait (C.Floor.points calendar.now) (C.Floor.leads calendar.now) waits.now d }
{
    let days = calendar.count();
    let mut highest: u16 = 0;
    for e in calendar.after(d) {
        let wait = waits[e];
        if wait as usize >= days {
            return None;
        }
        highest = highest.max(wait);
    }
    Some(1 + highest)
}

// Settles from the last day to the first those whose next days are settled; whether there was one. Each wait is written by its index,
// since a proof loses what is written through `iter_mut`.
fn pass<C: Calendar>(calendar: &C, waits: &mut [u16]) -> bool
    requires room { length waits.old ≡ C.Floor.points calendar.now }
    requires sound { Sound (C.Floor.points calendar.now) (C.Floor.leads calendar.now) (awaited_in waits.old) waits.old }
    ensures { Passed (C.Floor.points calendar.now) (C.Floor.leads calendar.now) 0 waits.old waits.new result }
{
    let days = calendar.count();
    let mut changed = false;
    for d in (0..days).rev() {
        if waits[d] as usize >= days {
            if let Some(wait) = next_wait(calendar, waits, d) {
                waits[d] = wait;
                changed = true;
            }
        }
    }
    changed
}

// Settles for every day the least number of steps that is enough on every run to meet an awaited day.
// On entry 0 stands for an awaited day, and the count of days for any other; on return the count stands for a day from which no number is
// enough: for none, as in `exploration.rt`.
pub(crate) fn settle<C: Calendar>(calendar: &C, waits: &mut [u16])
    requires room { length waits.old ≡ C.Floor.points calendar.now }
    requires marked { Marked (C.Floor.points calendar.now) waits.old }
    ensures { Settled (C.Floor.points calendar.now) (C.Floor.leads calendar.now) (awaited_in waits.old) waits.new }
{
    // how many passes there are is not known before
    while pass(calendar, waits) {}
}
