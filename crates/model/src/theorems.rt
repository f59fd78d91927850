// The theorems on what findings mean: each is the contract of a function, so that the crate is not proved without it.
ghost use Rattle.model.specs.Heaps.{SmallHeaps};
ghost use Rattle.model.specs.Theorems.{Satisfaction, SurroundedLaw, UntilLaw, EveryFutureLaw, OneSolution, Bounds, ShownLaw};

// The table says yes exactly where a line's formula is satisfied.
pub fn table_means_satisfaction()
    ensures { Satisfaction }
{}

// A surrounded entry is no exactly when there is a way out, by the steps of the shortest, and yes exactly when a region holds the point.
pub fn surrounded_means_no_way_out()
    ensures { SurroundedLaw }
{}

// An until entry is yes exactly when some run begins so, by the fewest days of such a beginning.
pub fn until_means_a_beginning()
    ensures { UntilLaw }
{}

// An every-future entry is yes exactly when some number of steps is enough on every run, by the least such number; where it is no, a run circles without an awaited day.
pub fn awaited_means_every_future()
    ensures { EveryFutureLaw }
{}

// Words obey the entry rule everywhere exactly when they are the table's everywhere.
pub fn entry_rule_has_one_solution()
    ensures { OneSolution }
{}

// Every number of the table is below its count, and every word fits 32 bits.
pub fn numbers_are_bounded()
    ensures { Bounds }
{}

// What is shown where the words are the table's: a shortest way out, a shortest beginning, days that circle.
pub fn what_is_shown_bears_out_the_finding()
    ensures { ShownLaw }
{}

// The words of seven small heaps.
pub fn small_heaps_are_as_worked_by_hand()
    ensures { SmallHeaps }
{}
