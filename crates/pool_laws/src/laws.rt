//! Laws of the definitions, each the contract of a function that does nothing.

ghost use Rattle.std.specs.Prelude.{◌≡◌, ℕ, suc, ◌+◌, ◌<◌, ◌≤◌, Bool, false, true, ℤ, List, length, ◌∷◌, ◌++◌, None, Some, filter, not, slice_set, sum};
ghost use Rattle.std.specs.Bool.{◌==◌};
ghost use Rattle.std.specs.Option.{is_some};
ghost use Rattle.std.specs.Int.{is_negative};
ghost use Rattle.tk_types.specs.declared.answer.Answer.{Answer};
ghost use Rattle.tk_types.specs.declared.answer.Outcome.TheVariants.{Returned};
ghost use Rattle.tk_types.specs.declared.answer.Who.{Who};
ghost use Rattle.tk_types.specs.declared.calls.PoolCall.{PoolCall};
ghost use Rattle.kernel_model.specs.LawWords.Waiters.{waiting_count};
ghost use Rattle.kernel_model.specs.SemFlags.Trial.{MayWait};
ghost use Rattle.kernel_model.specs.Tasks.Base.{base_start};
ghost use Rattle.kernel_model.specs.Tasks.Calls.{caller};
ghost use Rattle.object_model.specs.declared.pools.Block.{Block};
ghost use Rattle.object_model.specs.Pools.Tables.{FixedPool, PoolParts, VariablePool, fixed_at, pools_start, variable_at};
ghost use Rattle.object_model.specs.Pools.Fixed.{free_block, free_blocks, is_out, serve_fixed, serve_fixed_pools};
ghost use Rattle.object_model.specs.Pools.Variable.{free_bytes, gaps_from, insert_block, largest_gap, live_bytes, place_in, serve_variable, serve_variable_pools};
ghost use Rattle.object_model.specs.Pools.Calls.{got_from_fixed, got_from_variable, pool_call, pool_done};
ghost use Rattle.pool_laws.specs.Blocks.{AllLieApart, AskForSome, Fit, LieApart};
ghost use Rattle.pool_laws.specs.Trial.{fixed_trial, variable_trial};

/// A call on pools that is refused changes nothing: where it answers a negative value, which is an error, base and table
/// are as they were.
pub fn a_call_that_is_refused_changes_nothing()
    ensures { (p : PoolParts) (who : Who) (call : PoolCall) (answer : Answer) → (pool_call p who call).outcome ≡ Returned answer →
        is_negative answer.value ≡ true → pool_call p who call ≡ pool_done p (Returned answer) }
{}

/// The live blocks of a variable pool lie inside it, one behind the other: after a block was placed, and after one was given
/// back. So it is in all pools, at the start, after each call and after each serving, since whoever waits for a variable
/// pool asks for some bytes.
pub fn live_blocks_lie_apart()
    ensures placed { (k : VariablePool) (n offset : ℕ) → LieApart k → 0 < n → place_in k n ≡ Some offset →
        LieApart (record k { blocks = insert_block (record { offset = offset; size = n }) k.blocks }) }
    ensures given_back { (k : VariablePool) (offset : ℕ) → LieApart k →
        LieApart (record k { blocks = filter (λ block. not (block.offset == offset)) k.blocks }) }
    ensures start { AllLieApart pools_start }
    ensures call { (p : PoolParts) (who : Who) (call : PoolCall) → AllLieApart p.table → AllLieApart (pool_call p who call).table }
    ensures fixed { (p q : PoolParts) → AllLieApart p.table → serve_fixed_pools p ≡ Some q → AllLieApart q.table }
    ensures variable { (p q : PoolParts) → AllLieApart p.table → AskForSome p → serve_variable_pools p ≡ Some q → AllLieApart q.table }
{}

/// Whoever waits for a variable pool asks for some bytes: at the start, after each call of a task that has a place in the table
/// of what tasks ask for, and after each serving.
pub fn a_waiter_asks_for_some_bytes()
    ensures start { (priority : ℕ) → AskForSome (record { base = base_start priority; table = pools_start }) }
    ensures call { (p : PoolParts) (who : Who) (call : PoolCall) → caller who < length p.table.sizes → AskForSome p →
        AskForSome (record { base = (pool_call p who call).base; table = (pool_call p who call).table }) }
    ensures fixed { (p q : PoolParts) → AskForSome p → serve_fixed_pools p ≡ Some q → AskForSome q }
    ensures variable { (p q : PoolParts) → AskForSome p → serve_variable_pools p ≡ Some q → AskForSome q }
{}

/// A block is placed at the least offset of all where it fits: inside the pool, and without a byte of a live block. Where
/// nothing is placed it fits nowhere.
pub fn a_block_lies_at_the_least_offset()
    ensures fits { (k : VariablePool) (n offset : ℕ) → LieApart k → place_in k n ≡ Some offset → Fit k offset n }
    ensures least { (k : VariablePool) (n offset other : ℕ) → LieApart k → place_in k n ≡ Some offset → Fit k other n → offset ≤ other }
    ensures nowhere { (k : VariablePool) (n other : ℕ) → place_in k n ≡ None → Fit k other n → ⊥ }
{}

/// The gaps of a variable pool and its live blocks make up the pool, so what is free is the sum of the gaps; and a size has
/// a place exactly where it is no greater than the largest gap.
pub fn gaps_and_blocks_make_up_the_pool()
    ensures whole { (k : VariablePool) → LieApart k → sum (gaps_from 0 k.size k.blocks) + live_bytes k.blocks ≡ k.size }
    ensures free { (k : VariablePool) → LieApart k → free_bytes k ≡ sum (gaps_from 0 k.size k.blocks) }
    ensures fits { (k : VariablePool) (n : ℕ) → LieApart k → n ≤ largest_gap k → is_some (place_in k n) ≡ true }
    ensures largest { (k : VariablePool) (n : ℕ) → is_some (place_in k n) ≡ true → n ≤ largest_gap k }
{}

/// A release gives exactly the block back that begins at its offset: all others stand as they stood. So a block that was
/// placed and is given back leaves the pool as it was.
pub fn a_release_gives_that_block_back()
    ensures alone { (k : VariablePool) (front behind : List Block) (block : Block) → LieApart k → k.blocks ≡ front ++ block ∷ behind →
        filter (λ other. not (other.offset == block.offset)) k.blocks ≡ front ++ behind }
    ensures back { (k : VariablePool) (n offset : ℕ) → LieApart k → 0 < n → place_in k n ≡ Some offset →
        filter (λ other. not (other.offset == offset)) (insert_block (record { offset = offset; size = n }) k.blocks) ≡ k.blocks }
{}

/// A fixed pool hands out the least block that isn't out, so each block is out at most once: its number is one of the
/// pool's, it wasn't out, each of a lesser number was, and from then on it is, while all others are as they were and one
/// fewer is free. Where none is found all are out. Given back, it leaves the pool as it was.
pub fn the_least_free_block_is_taken()
    ensures inside { (k : FixedPool) (before : ℕ) → free_block k ≡ suc before → suc before < length k.out }
    ensures free { (k : FixedPool) (before : ℕ) → free_block k ≡ suc before → is_out (suc before) k ≡ false }
    ensures least { (k : FixedPool) (before other : ℕ) → free_block k ≡ suc before → other < before → is_out (suc other) k ≡ true }
    ensures none { (k : FixedPool) (number : ℕ) → free_block k ≡ 0 → suc number < length k.out → is_out (suc number) k ≡ true }
    ensures taken { (k : FixedPool) (before : ℕ) → free_block k ≡ suc before →
        is_out (suc before) (record k { out = slice_set k.out (suc before) true }) ≡ true }
    ensures others { (k : FixedPool) (number other : ℕ) (now : Bool) → (other ≡ number → ⊥) →
        is_out other (record k { out = slice_set k.out number now }) ≡ is_out other k }
    ensures fewer { (k : FixedPool) (before : ℕ) → free_block k ≡ suc before →
        free_blocks (record k { out = slice_set k.out (suc before) true }) + 1 ≡ free_blocks k }
    ensures back { (k : FixedPool) (before : ℕ) → free_block k ≡ suc before →
        slice_set (slice_set k.out (suc before) true) (suc before) false ≡ k.out }
{}

/// A serving of a pool ends one wait.
pub fn a_serving_ends_one_wait()
    ensures fixed { (p q : PoolParts) → serve_fixed_pools p ≡ Some q → waiting_count p.base ≡ waiting_count q.base + 1 }
    ensures variable { (p q : PoolParts) → serve_variable_pools p ≡ Some q → waiting_count p.base ≡ waiting_count q.base + 1 }
{}

/// A call that waits for a pool is its trial: what the pool decides for its caller is what comes of it when the caller joins the
/// waiters and the pool serves one, if it can. The caller is ready and has a place in the table of what tasks ask for, and
/// before the call the pool could serve nobody.
pub fn a_call_for_a_pool_is_its_trial()
    ensures fixed { (p : PoolParts) (t id : ℕ) (timeout : ℤ) (k : FixedPool) → MayWait p.base t → fixed_at p.table id ≡ Some k →
        serve_fixed p id ≡ None → got_from_fixed p t id timeout (Some k) ≡ fixed_trial p t id timeout k }
    ensures variable { (p : PoolParts) (t id n : ℕ) (timeout : ℤ) (k : VariablePool) → MayWait p.base t → variable_at p.table id ≡ Some k →
        t < length p.table.sizes → serve_variable p id ≡ None → got_from_variable p t id n timeout (Some k) ≡ variable_trial p t id n timeout k }
{}
