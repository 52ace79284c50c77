//! Laws of the ready queue, each the contract of a function that does nothing.

ghost use Rattle.std.specs.Prelude.{◌≡◌, ◌≢◌, ℕ, List, [], ◌∷◌, ◌++◌, false};
ghost use Rattle.ready_queue.specs.declared.places.ReadyTask.{ReadyTask};
ghost use Rattle.ready_queue.specs.Queue.{
  holds_task,
  places_of,
  put_behind,
  rotated,
  without_task,
};
ghost use Rattle.ready_queue.specs.Facts.{EachOnce, IsRising};

/// Each call keeps the priorities in rising order.
pub fn priorities_rise()
    ensures put_back { (place : ReadyTask) (list : List ReadyTask) → IsRising list → IsRising (put_behind place list) }
    ensures removed { (task : ℕ) (list : List ReadyTask) → IsRising list → IsRising (without_task task list) }
    ensures rotation { (priority : ℕ) (list : List ReadyTask) → IsRising list → IsRising (rotated priority list) }
{}

/// Each task stands at most once, and none after it was removed.
pub fn tasks_stand_once()
    ensures put_back { (place : ReadyTask) (list : List ReadyTask) → holds_task place.task list ≡ false → EachOnce list → EachOnce (put_behind place list) }
    ensures removed { (task : ℕ) (list : List ReadyTask) → EachOnce list → EachOnce (without_task task list) }
    ensures rotation { (priority : ℕ) (list : List ReadyTask) → EachOnce list → EachOnce (rotated priority list) }
    ensures gone { (task : ℕ) (list : List ReadyTask) → holds_task task (without_task task list) ≡ false }
{}

/// A task that is put back is the last of its priority, and the order of each other priority stays.
pub fn put_back_is_last()
    ensures last { (place : ReadyTask) (list : List ReadyTask) → IsRising list →
        places_of place.priority (put_behind place list) ≡ places_of place.priority list ++ place ∷ [] }
    ensures others { (place : ReadyTask) (priority : ℕ) (list : List ReadyTask) → place.priority ≢ priority →
        places_of priority (put_behind place list) ≡ places_of priority list }
{}

/// A rotation moves the first of its priority behind the last of it, and the order of each other priority stays.
pub fn rotation_moves_the_first()
    ensures moved { (priority : ℕ) (list : List ReadyTask) (first : ReadyTask) (rest : List ReadyTask) → IsRising list → EachOnce list →
        places_of priority list ≡ first ∷ rest → places_of priority (rotated priority list) ≡ rest ++ first ∷ [] }
    ensures others { (priority other : ℕ) (list : List ReadyTask) → EachOnce list → priority ≢ other →
        places_of other (rotated priority list) ≡ places_of other list }
{}
