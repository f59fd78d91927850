// Shortest ways over any floor, by one exploration backwards from the goals.
ghost use Rattle.std.specs.Prelude.{◌≡◌, ℕ, ◌+◌, ◌<◌, ◌≤◌, Bool, ◌||◌, slice_index};
ghost use Rattle.std.specs.Option.{unwrap_or};
ghost use Rattle.model.specs.Numbers.{tally};
ghost use Rattle.model.specs.Table.{rank};
ghost use Rattle.engine.specs.Exploring.{step_by, at, SameFrom, PutAt, Explored};

use model::Floor;

// What an exploration wants to know of each point: is it a goal, may it be left, may it be entered.
pub(crate) trait Rules {
    // which points are goals
    ghost goal: { Self → ℕ → Bool };

    // which points may be left
    ghost leave: { Self → ℕ → Bool };

    // which points may be entered
    ghost enter: { Self → ℕ → Bool };

    // Whether x is a goal.
    fn is_goal(&self, x: usize) -> bool
        ensures { result ≡ goal self.now x };

    // Whether a way may go on from x.
    fn may_leave(&self, x: usize) -> bool
        ensures { result ≡ leave self.now x };

    // Whether a way may go on to x.
    fn may_enter(&self, x: usize) -> bool
        ensures { result ≡ enter self.now x };
}

// The room of an exploration: each point's steps, and a queue at whose front stand the points that are reached, so many of them. Both are
// arrays, since the crate has no heap. The kind F keeps its waits in `steps`.
// The count of points stands for the steps of a point that is not reached: an array of options was tried, and takes 1.2 to 3.1 times as
// long.
// Floor, rules and room are passed one by one: a struct of two `&` and a `&mut` would be made for three functions only.
#[derive(Drop)]
pub(crate) struct Room {
    pub(crate) steps: [u16; 4096],
    queue: [u16; 4096],
    reached: usize,
}

impl Room {
    // Room for any floor.
    pub(crate) fn new() -> Room {
        Room {
            steps: [0; 4096],
            queue: [0; 4096],
            reached: 0,
        }
    }

    // One point more is reached, by so many steps.
    fn reach(&mut self, x: usize, value: u16)
        requires { (self.old.reached < 4096) × (x < 4096) }
        ensures noted { PutAt x value self.old.steps self.new.steps }
        ensures queued { PutAt self.old.reached x self.old.queue self.new.queue }
        ensures counted { self.new.reached ≡ self.old.reached + 1 }
    {
        self.steps[x] = value;
        self.queue[self.reached] = x as u16;
        self.reached += 1;
    }
}

// Reaches every goal, by 0 steps.
fn reach_goals<R: Rules>(rules: &R, room: &mut Room, count: usize)
    requires few { count ≤ 4096 }
    requires none { ((x : ℕ) → x < count → slice_index room.old.steps x ≡ count) × (room.old.reached ≡ 0) }
    ensures goals { (step : ℕ → ℕ → Bool) → Explored count step (R.Rules.goal rules.now) count (at room.new.steps) (at room.new.queue) 0 room.new.reached }
    ensures rest { SameFrom count room.old.steps room.new.steps }
{
    for x in 0..count {
        if rules.is_goal(x) {
            room.reach(x, 0);
        }
    }
}

// Reaches every point from which one step leads to the point at the head of the queue.
fn reach_before<F: Floor, R: Rules>(floor: &F, rules: &R, room: &mut Room, head: usize)
    requires head { head < room.old.reached }
    requires state { Explored (F.Floor.points floor.now) (step_by (R.Rules.leave rules.now) (F.Floor.leads floor.now) (R.Rules.enter rules.now)) (R.Rules.goal rules.now) (F.Floor.points floor.now) (at room.old.steps) (at room.old.queue) head room.old.reached }
    ensures state { Explored (F.Floor.points floor.now) (step_by (R.Rules.leave rules.now) (F.Floor.leads floor.now) (R.Rules.enter rules.now)) (R.Rules.goal rules.now) (F.Floor.points floor.now) (at room.new.steps) (at room.new.queue) (head + 1) room.new.reached }
    ensures rest { SameFrom (F.Floor.points floor.now) room.old.steps room.new.steps }
{
    let count = floor.count();
    let y = room.queue[head] as usize;
    if rules.may_enter(y) {
        let value = room.steps[y] + 1;
        for x in floor.before(y) {
            if room.steps[x] as usize == count && rules.may_leave(x) {
                room.reach(x, value);
            }
        }
    }
}

// How many points can be reached at all: they may be left, or are goals.
fn most_reached<R: Rules>(rules: &R, count: usize) -> usize
    ensures { result ≡ tally count (λ x. R.Rules.leave rules.now x || R.Rules.goal rules.now x) }
{
    (0..count)
        .filter(|x| rules.may_leave(*x) || rules.is_goal(*x))
        .count()
}

// Takes the queue to its end, or until all points that can be reached are: each point that comes to its head brings in those before it.
fn follow<F: Floor, R: Rules>(floor: &F, rules: &R, room: &mut Room)
    requires { Explored (F.Floor.points floor.now) (step_by (R.Rules.leave rules.now) (F.Floor.leads floor.now) (R.Rules.enter rules.now)) (R.Rules.goal rules.now) (F.Floor.points floor.now) (at room.old.steps) (at room.old.queue) 0 room.old.reached }
    ensures shortest { (x : ℕ) → x < F.Floor.points floor.now → slice_index room.new.steps x ≡ unwrap_or (rank (F.Floor.points floor.now) (step_by (R.Rules.leave rules.now) (F.Floor.leads floor.now) (R.Rules.enter rules.now)) (R.Rules.goal rules.now) x) (F.Floor.points floor.now) }
    ensures rest { SameFrom (F.Floor.points floor.now) room.old.steps room.new.steps }
{
    let most = most_reached(rules, floor.count());
    let mut head = 0;
    // the queue grows meanwhile
    while head < room.reached && room.reached < most {
        reach_before(floor, rules, room, head);
        head += 1;
    }
}

// Writes for each point the fewest steps by which a goal is reached from it, or the number of points where none is reached.
pub(crate) fn explore<F: Floor, R: Rules>(floor: &F, rules: &R, room: &mut Room)
    ensures shortest { (x : ℕ) → x < F.Floor.points floor.now → slice_index room.new.steps x ≡ unwrap_or (rank (F.Floor.points floor.now) (step_by (R.Rules.leave rules.now) (F.Floor.leads floor.now) (R.Rules.enter rules.now)) (R.Rules.goal rules.now) x) (F.Floor.points floor.now) }
    ensures rest { SameFrom (F.Floor.points floor.now) room.old.steps room.new.steps }
{
    let count = floor.count();
    room.steps[..count].fill(count as u16);
    room.reached = 0;
    reach_goals(rules, room, count);
    if room.reached > 0 {
        follow(floor, rules, room);
    }
}
