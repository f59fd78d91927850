// Showing a trace: the points along which a number falls, by the words of a findings book of any origin. Nothing is written unless all of
// it holds.
ghost use Rattle.std.specs.Prelude.{◌≡◌, ◌^◌, ◌<◌, ◌≤◌, true, ◌&&◌, [], length, is_some, ◌==◌, slice_index};
ghost use Rattle.std.specs.Option.{unwrap_or};
ghost use Rattle.model.specs.Numbers.{least};
ghost use Rattle.model.specs.Showing.{trace, written_on};
ghost use Rattle.model.specs.Table.{word, number};
ghost use Rattle.engine.specs.Exploring.{step_by, at};
ghost use Rattle.engine.specs.Strips.{Put};

use crate::exploration::Rules;
use model::Floor;

// The word at k; 0 past the end. The examiner has its own.
fn word_at(words: &[u32], k: usize) -> u32
    ensures { result ≡ slice_index words.now k }
{
    words.get(k).copied().unwrap_or(0)
}

// The word of an answer and a number. A `From` could not ask for the bound.
fn word_of(answer: bool, steps: usize) -> u32
    requires { steps < 2 ^ 31 }
    ensures { result ≡ word answer steps }
{
    if answer {
        return 2 * steps as u32 + 1;
    }
    2 * steps as u32
}

// A way along which a number falls: to goals, by steps that the rules allow, over points whose words in `own` have that answer.
#[derive(Drop)]
pub(crate) struct Descent<'a, F: Floor, R> {
    pub(crate) floor: &'a F,
    pub(crate) rules: &'a R,
    pub(crate) own: &'a [u32],
    // what is looked for
    pub(crate) answer: bool,
    ghost held: { F.Floor.points floor.now ≤ length own.now },
}

impl<F: Floor, R: Rules> Descent<'_, F, R> {
    // The least point to which a step from x leads and that has the wanted word.
    fn next_lower(&self, wanted: u32, x: usize) -> Option<usize>
        ensures { result ≡ least (F.Floor.points self.now.floor.now) (λ y. step_by (R.Rules.leave self.now.rules.now) (F.Floor.leads self.now.floor.now) (R.Rules.enter self.now.rules.now) x y && at self.now.own.now y == wanted) }
    {
        if !self.rules.may_leave(x) {
            return None;
        }
        self.floor.after(x).find(|y| self.rules.may_enter(*y) && word_at(self.own, *y) == wanted)
    }

    // Whether so many steps go from `start` to a goal, each to the least point whose word has the answer with a number one lower. Each turn
    // goes on from the point that the last one found.
    fn holds(&self, steps: usize, start: usize) -> bool
        requires { steps < 2 ^ 31 }
        ensures { result ≡ is_some (trace (F.Floor.points self.now.floor.now) (step_by (R.Rules.leave self.now.rules.now) (F.Floor.leads self.now.floor.now) (R.Rules.enter self.now.rules.now)) (R.Rules.goal self.now.rules.now) (at self.now.own.now) self.now.answer steps start) }
    {
        let mut x = start;
        for k in (0..steps).rev() {
            let Some(y) = self.next_lower(word_of(self.answer, k), x) else {
                return false;
            };
            x = y;
        }
        self.rules.is_goal(x)
    }

    // Writes the points of a trace that holds to the front of the strip, each by its index, since a proof loses what is written through
    // `iter_mut`.
    fn write(&self, steps: usize, start: usize, strip: &mut [u32])
        requires room { (start < F.Floor.points self.now.floor.now) × ((steps < 2 ^ 31) × (steps < length strip.old)) }
        requires found { is_some (trace (F.Floor.points self.now.floor.now) (step_by (R.Rules.leave self.now.rules.now) (F.Floor.leads self.now.floor.now) (R.Rules.enter self.now.rules.now)) (R.Rules.goal self.now.rules.now) (at self.now.own.now) self.now.answer steps start) ≡ true }
        ensures { strip.new ≡ written_on (unwrap_or (trace (F.Floor.points self.now.floor.now) (step_by (R.Rules.leave self.now.rules.now) (F.Floor.leads self.now.floor.now) (R.Rules.enter self.now.rules.now)) (R.Rules.goal self.now.rules.now) (at self.now.own.now) self.now.answer steps start) []) strip.old }
    {
        let mut x = start;
        for i in 0..steps {
            strip[i] = x as u32;
            let Some(y) = self.next_lower(word_of(self.answer, steps - 1 - i), x) else {
                return;
            };
            x = y;
        }
        strip[steps] = x as u32;
    }

    // Writes the trace from `start`, by the number of its own word, where it holds. The answer is how many points it has.
    pub(crate) fn show(&self, start: usize, strip: &mut [u32]) -> Option<usize>
        requires { (start < F.Floor.points self.now.floor.now) × (number (at self.now.own.now start) < length strip.old) }
        ensures { Put (trace (F.Floor.points self.now.floor.now) (step_by (R.Rules.leave self.now.rules.now) (F.Floor.leads self.now.floor.now) (R.Rules.enter self.now.rules.now)) (R.Rules.goal self.now.rules.now) (at self.now.own.now) self.now.answer (number (at self.now.own.now start)) start) strip.old strip.new result }
    {
        let steps = (self.own[start] / 2) as usize;
        if !self.holds(steps, start) {
            return None;
        }
        self.write(steps, start, strip);
        Some(steps + 1)
    }
}
