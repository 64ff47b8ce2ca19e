//! Laws of flights.
ghost use Rattle.std.specs.Prelude.{◌≡◌, ◌⊎◌, ◌+◌, ℕ, true, List, Some, length, slice_get};
ghost use Rattle.ob_base.specs.Accesses.{makes};
ghost use Rattle.ob_base.specs.declared.config.Public.{Public};
ghost use Rattle.ob_script.specs.Flights.{AreSteady, Flight, Flying, Gate, InOrder, LogGrows, all_alone, boarding, flight, flight_public, gates_of, merge, place_by, runnable, trace_in, turn, turns};
ghost use Rattle.ob_script.specs.FlightLaws.{AllAskAlike, AllEnded, AllMayFly, EndsWhole, FlyAlike, IsFirstOf, NextAlike, Picks, PicksOne};
ghost use Rattle.ob_script.specs.Trace.{Served, trace};

/// What was asked by some turn of a flight stays, whatever comes after.
pub fn flights_go_on()
    ensures { (words : ℕ → ℕ) (s : Flight) (n k : ℕ) →
        LogGrows (turns words n s) (turns words (k + n) s) }
{}

/// A SELECT without a join makes no region but its own. What it asks before that doesn't hang on the region's number, nor does
/// how much it asks, whatever is seen of it, unless a second plan was taken.
pub fn selects_are_steady()
    ensures { (p : Public) (flown : List Served) → AllMayFly flown → AreSteady p flown }
{}

/// The next turn is that of the statement at the place that the word tells among those that may go, as their gates say; there
/// is one unless all have ended, and then nothing changes.
pub fn turns_by_gates()
    ensures picks { (word : ℕ) (s : Flight) (gates : List Gate) (i : ℕ) (f : Flying) →
        gates_of s ≡ gates → place_by word (length gates) (runnable true 0 gates) ≡ i →
        slice_get s.flying i ≡ Some f → Picks word s i f }
    ensures goes { (word : ℕ) (s : Flight) → AllEnded s ⊎ PicksOne word s }
    ensures rests { (word : ℕ) (s : Flight) → AllEnded s → turn word s ≡ s }
{}

/// Whatever the turns, each statement of a flight has asked the first of its accesses, in order, and all of
/// them where it has ended.
pub fn flights_keep_order()
    ensures { (p : Public) (flown : List Served) (words : ℕ → ℕ) (n : ℕ) → AreSteady p flown →
        InOrder (flight_public (length flown) p) (turns words n (boarding p flown)) }
{}

/// All have ended after a turn for each access and one for each end, and not before; more turns change nothing. Then each has
/// asked its whole script, so the accesses are as many as those of all scripts, and the next region is as many further as
/// regions were made. Whatever was asked by some turn are the first of these accesses.
pub fn flights_end()
    ensures ends { (p : Public) (flown : List Served) (words : ℕ → ℕ) → AreSteady p flown →
        EndsWhole p flown words }
    ensures next { (p : Public) (flown : List Served) (words : ℕ → ℕ) →
        (flight p flown words).public.next_region ≡ p.next_region + makes (merge p flown words) }
{}

/// A flight hangs on nothing but what was asked, and who prints: if so far each statement has asked what it would have asked,
/// were something else seen of it in the end, and its next act prints alike, the flights are alike so far, and a turn further,
/// if the act that is done in it is the same. So what was asked by then is the first part of what the others ask in all.
pub fn flights_go_alike()
    ensures so_far { (p : Public) (xs ys : List Served) (words : ℕ → ℕ) → length xs ≡ length ys →
        (n : ℕ) → AllAskAlike (flight_public (length xs) p) (turns words n (boarding p xs)) ys →
        FlyAlike (turns words n (boarding p xs)) (turns words n (boarding p ys)) }
    ensures further { (p : Public) (xs ys : List Served) (words : ℕ → ℕ) → length xs ≡ length ys →
        (n : ℕ) → AllAskAlike (flight_public (length xs) p) (turns words n (boarding p xs)) ys →
        NextAlike (words n) (turns words n (boarding p xs)) ys →
        FlyAlike (turns words (n + 1) (boarding p xs)) (turns words (n + 1) (boarding p ys)) }
    ensures first { (p : Public) (xs ys : List Served) (words : ℕ → ℕ) → length xs ≡ length ys →
        AreSteady p ys → (n : ℕ) →
        FlyAlike (turns words n (boarding p xs)) (turns words n (boarding p ys)) →
        IsFirstOf (merge p ys words) (turns words n (boarding p xs)) }
{}

/// A trace without flights is that of its statements, whatever the words are.
pub fn traces_alone()
    ensures { (words : ℕ → ℕ) (t : ℕ) (p : Public) (xs : List Served) →
        trace_in words t p (all_alone xs) ≡ trace p xs }
{}
