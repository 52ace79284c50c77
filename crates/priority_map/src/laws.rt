//! Laws of the map, each the contract of a function that does nothing.

ghost use Rattle.std.specs.Prelude.{◌≡◌, ℕ, ◌<◌, Bool, List, None, Some, false, slice_index_or, true};
ghost use Rattle.priority_map.specs.Flags.{first_set};

/// The highest priority is set, and no lesser number is; where there is none, no priority is set.
pub fn highest_is_the_least()
    ensures least { (flags : List Bool) (priority : ℕ) → first_set 0 flags ≡ Some priority →
        (slice_index_or flags priority false ≡ true) × ((other : ℕ) → other < priority → slice_index_or flags other false ≡ false) }
    ensures none { (flags : List Bool) (priority : ℕ) → first_set 0 flags ≡ None → slice_index_or flags priority false ≡ false }
{}
