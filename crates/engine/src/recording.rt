// Record and gauge: one reading of an open survey is given its new yes or no.
ghost use Rattle.std.specs.Prelude.{◌≡◌, ◌+◌, ◌*◌, ◌<◌, ◌≤◌, true, false, not, length, pos, negsuc, ◌≤ℤ◌, OnOk};
ghost use Rattle.std.specs.Result.{result_err};
ghost use Rattle.model.specs.Calls.{answer, unless_refused, record_refusal, gauge_refusal, with_bit, recorded, SetsOneReading, degrees, reaches_level, on_scale};
ghost use Rattle.model.specs.Refusals.{where_so};
ghost use Rattle.model.specs.declared.refusal.Refusal.TheVariants.{OutOfRange};

use crate::survey::Open;
use model::{Refusal, SurveyNumbers};

// The word with one bit set or cleared.
fn with_bit(word: u32, atom: u32, value: bool) -> u32
    requires { atom < 32 }
    ensures { result ≡ with_bit word atom value }
{
    if value {
        word | (1 << atom)
    } else {
        word & (u32::MAX - (1 << atom))
    }
}

// Whether a reading of that day, point and atom can be recorded in a readings book of that length, or why not. Day, point and atom are
// taken one by one, as the calls take them.
fn check_record(
    numbers: SurveyNumbers,
    held: usize,
    day: usize,
    point: usize,
    atom: u32,
) -> Result<(), Refusal>
    ensures { result_err result ≡ record_refusal numbers.points numbers.days held day point atom }
{
    if held < numbers.size() {
        return Err(Refusal::ShortBook);
    }
    if day >= numbers.days || point >= numbers.points || atom >= 32 {
        return Err(Refusal::OutOfRange);
    }
    Ok(())
}

// Tenths of a degree in whole degrees, a half going away from zero.
fn whole_degrees(tenths: i32) -> i32
    requires { (negsuc 599 ≤ℤ tenths) × (tenths ≤ℤ pos 1200) }
    ensures { result ≡ degrees tenths }
{
    if tenths >= 0 {
        (tenths + 5) / 10
    } else {
        -((5 - tenths) / 10)
    }
}

// Whether tenths of a degree, in whole degrees, reach the level; refused where one of them is out of range.
fn reading_of(tenths: i32, level: i32) -> Result<bool, Refusal>
    ensures { result ≡ answer (where_so (not (on_scale tenths level)) OutOfRange) (reaches_level tenths level) }
{
    if tenths < -600 || tenths > 1200 || level < -60 || level > 120 {
        return Err(Refusal::OutOfRange);
    }
    Ok(level <= whole_degrees(tenths))
}

// Gives one reading its new yes or no. Day, point and atom are taken one by one, as the calls take them.
fn set_reading(
    readings: &mut [u32],
    numbers: SurveyNumbers,
    day: usize,
    point: usize,
    atom: u32,
    value: bool,
)
    requires { (numbers.days * numbers.points ≤ length readings.old) × ((day < numbers.days) × ((point < numbers.points) × (atom < 32))) }
    ensures book { readings.new ≡ recorded numbers.points day point atom value readings.old }
    ensures reading { SetsOneReading numbers.points numbers.days day point atom value readings.old readings.new }
{
    let place = day * numbers.points + point;
    readings[place] = with_bit(readings[place], atom, value);
}

impl Open {
    // Sets or clears one reading: `value` is what is recorded. The book is taken by itself: a rule of the project.
    pub fn record(
        &self,
        readings: &mut [u32],
        day: usize,
        point: usize,
        atom: u32,
        value: bool,
    ) -> Result<(), Refusal>
        ensures result { result ≡ answer (record_refusal self.now.numbers.points self.now.numbers.days (length readings.old) day point atom) tt }
        ensures book { readings.new ≡ unless_refused (record_refusal self.now.numbers.points self.now.numbers.days (length readings.old) day point atom) (recorded self.now.numbers.points day point atom value readings.old) readings.old }
        ensures reading { OnOk result (SetsOneReading self.now.numbers.points self.now.numbers.days day point atom value readings.old readings.new) }
    {
        check_record(self.numbers, readings.len(), day, point, atom)?;
        set_reading(readings, self.numbers, day, point, atom, value);
        Ok(())
    }

    // Records whether tenths of a degree, in whole degrees, reach the level.
    pub fn gauge(
        &self,
        readings: &mut [u32],
        day: usize,
        point: usize,
        atom: u32,
        tenths: i32,
        level: i32,
    ) -> Result<(), Refusal>
        ensures result { result ≡ answer (gauge_refusal self.now.numbers.points self.now.numbers.days (length readings.old) day point atom tenths level) tt }
        ensures book { readings.new ≡ unless_refused (gauge_refusal self.now.numbers.points self.now.numbers.days (length readings.old) day point atom tenths level) (recorded self.now.numbers.points day point atom (reaches_level tenths level) readings.old) readings.old }
        ensures reading { OnOk result (SetsOneReading self.now.numbers.points self.now.numbers.days day point atom (reaches_level tenths level) readings.old readings.new) }
    {
        check_record(self.numbers, readings.len(), day, point, atom)?;
        let reached = reading_of(tenths, level)?;
        set_reading(readings, self.numbers, day, point, atom, reached);
        Ok(())
    }
}
