//! Laws of the wait queues, each the contract of a function that does nothing.

ghost use Rattle.std.specs.Prelude.{◌≡◌, ◌≢◌, ℕ, ◌+◌, List, [], ◌∷◌, ◌++◌, false, filter, length, true};
ghost use Rattle.tk_types.specs.declared.task.Order.TheVariants.{Fifo, Priority};
ghost use Rattle.wait_queue.specs.declared.waiters.Waiter.{Waiter};
ghost use Rattle.wait_queue.specs.Queues.{
  is_of_task,
  joined,
  of_priority,
  queue_of,
  reordered,
  tasks_of,
  waits,
  with_priority,
  without_waiter,
};
ghost use Rattle.wait_queue.specs.Facts.{AreInOrder, AreOfOrder, EachOnce, IsRising};

/// After a join the queue in the order of waiting has the waiter at its end, and the queue by priority has it behind
/// its equals.
pub fn join_is_last()
    ensures at_end { (waiter : Waiter) (list : List Waiter) → waiter.order ≡ Fifo →
        queue_of waiter.object (joined waiter list) ≡ queue_of waiter.object list ++ waiter ∷ [] }
    ensures behind_equals { (waiter : Waiter) (list : List Waiter) → IsRising (queue_of waiter.object list) →
        of_priority waiter.priority (queue_of waiter.object (joined waiter list)) ≡ of_priority waiter.priority (queue_of waiter.object list) ++ waiter ∷ [] }
{}

/// After a change of its priority a waiter of a queue by priority stands behind its equals, and one of a queue in the
/// order of waiting stands where it stood.
pub fn reordered_is_last()
    ensures behind_equals { (priority : ℕ) (waiter : Waiter) (rest list : List Waiter) → filter (is_of_task waiter.task) list ≡ waiter ∷ rest → waiter.order ≡ Priority →
        IsRising (queue_of waiter.object (without_waiter waiter.task list)) →
        of_priority priority (queue_of waiter.object (reordered waiter.task priority list)) ≡ of_priority priority (queue_of waiter.object (without_waiter waiter.task list)) ++ with_priority priority waiter ∷ [] }
    ensures stays { (task priority : ℕ) (list : List Waiter) → AreOfOrder Fifo (filter (is_of_task task) list) →
        tasks_of (reordered task priority list) ≡ tasks_of list }
{}

/// The queues of other objects stay as they are.
pub fn others_stay()
    ensures joining { (waiter : Waiter) (object : ℕ) (list : List Waiter) → waiter.object ≢ object →
        queue_of object (joined waiter list) ≡ queue_of object list }
    ensures leaving { (task object : ℕ) (list : List Waiter) → waits task (queue_of object list) ≡ false →
        queue_of object (without_waiter task list) ≡ queue_of object list }
    ensures reordering { (task priority object : ℕ) (list : List Waiter) → EachOnce list → waits task (queue_of object list) ≡ false →
        queue_of object (reordered task priority list) ≡ queue_of object list }
{}

/// A leave takes out the one waiter, and leaves the others of its queue in their order.
pub fn leave_takes_one()
    ensures gone { (task : ℕ) (list : List Waiter) → waits task (without_waiter task list) ≡ false }
    ensures one { (task : ℕ) (list : List Waiter) → EachOnce list → waits task list ≡ true → length (without_waiter task list) + 1 ≡ length list }
    ensures order { (task object : ℕ) (list : List Waiter) → queue_of object (without_waiter task list) ≡ without_waiter task (queue_of object list) }
{}

/// Each call keeps the waiters of each object in their order, and a queue by priority in that order rises.
pub fn order_is_kept()
    ensures joining { (waiter : Waiter) (list : List Waiter) → AreOfOrder waiter.order (queue_of waiter.object list) → AreInOrder list → AreInOrder (joined waiter list) }
    ensures leaving { (task : ℕ) (list : List Waiter) → AreInOrder list → AreInOrder (without_waiter task list) }
    ensures reordering { (task priority : ℕ) (list : List Waiter) → EachOnce list → AreInOrder list → AreInOrder (reordered task priority list) }
    ensures rises { (object : ℕ) (list : List Waiter) → AreInOrder list → AreOfOrder Priority (queue_of object list) → IsRising (queue_of object list) }
{}

/// Each task waits at most once.
pub fn tasks_wait_once()
    ensures joining { (waiter : Waiter) (list : List Waiter) → waits waiter.task list ≡ false → EachOnce list → EachOnce (joined waiter list) }
    ensures leaving { (task : ℕ) (list : List Waiter) → EachOnce list → EachOnce (without_waiter task list) }
    ensures reordering { (task priority : ℕ) (list : List Waiter) → EachOnce list → EachOnce (reordered task priority list) }
{}
