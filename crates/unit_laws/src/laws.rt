//! Laws of the definitions, each the contract of a function that does nothing.

ghost use Rattle.std.specs.Prelude.{◌≡◌, ℕ, suc, ◌+◌, ◌*◌, ◌<◌, ◌≤◌, true, false, nat_le, length, take, List, []};
ghost use Rattle.tk_types.specs.declared.script.Kind.{Kind};
ghost use Rattle.device_model.specs.declared.messages.Request.{Request};
ghost use Rattle.device_model.specs.RoomyBytes.{bytes_within};
ghost use Rattle.device_model.specs.Units.Stores.{Store, is_log, is_spoilt, log_limit};
ghost use Rattle.device_model.specs.Units.Function.{IsWhole, begin, count_of, cut, unit};
ghost use Rattle.device_model.specs.Units.Blocks.{blocks, is_last};

/// The blocks of a request, done one after another, are what its unit does with it as a whole. Where they stop earlier, they
/// are what the unit does with the request cut off there. And which block is the last is known by what was done before it.
pub fn blocks_are_the_whole_request()
    ensures whole_store { (kind : Kind) (store : Store) (request : Request) (k : ℕ) → IsWhole request →
        64 * k ≤ count_of kind (begin store request) request → count_of kind (begin store request) request ≤ 64 * k + 64 →
        (blocks kind store request (suc k)).store ≡ (unit kind store request).store }
    ensures whole_content { (kind : Kind) (store : Store) (request : Request) (k : ℕ) → IsWhole request →
        64 * k ≤ count_of kind (begin store request) request → count_of kind (begin store request) request ≤ 64 * k + 64 →
        (blocks kind store request (suc k)).content ≡ (unit kind store request).content }
    ensures cut_store { (kind : Kind) (store : Store) (request : Request) (k : ℕ) → IsWhole request →
        64 * k ≤ count_of kind (begin store request) request →
        (blocks kind store request k).store ≡ (cut kind store request (64 * k)).store }
    ensures cut_content { (kind : Kind) (store : Store) (request : Request) (k : ℕ) → IsWhole request →
        64 * k ≤ count_of kind (begin store request) request →
        (blocks kind store request k).content ≡ (cut kind store request (64 * k)).content }
    ensures last { (kind : Kind) (store : Store) (request : Request) (k : ℕ) → IsWhole request →
        64 * k ≤ count_of kind (begin store request) request →
        is_last kind (blocks kind store request k).store request k
        ≡ nat_le (count_of kind (begin store request) request) (64 * k + 64) }
{}

/// A request that is cut off is a front of what it would have been: it leaves the store that the request for its first bytes
/// alone leaves, and it has read the first of the bytes that the whole request reads. One that is cut off at its beginning
/// leaves all bytes as they were.
pub fn a_cut_request_is_a_front_of_it()
    ensures store { (kind : Kind) (store : Store) (request : Request) (m : ℕ) → 0 < m →
        m ≤ count_of kind (begin store request) request →
        (cut kind store request m).store ≡ (unit kind store (record request { size = m; bytes = record request.bytes { items = take m request.bytes.items } })).store }
    ensures content { (kind : Kind) (store : Store) (request : Request) (m : ℕ) →
        m ≤ count_of kind (begin store request) request →
        (cut kind store request m).content ≡ take m (unit kind store request).content }
    ensures beginning { (kind : Kind) (store : Store) (request : Request) →
        (cut kind store request 0).store.bytes ≡ store.bytes }
{}

/// A store other than a log has as many bytes after a request, whole or cut off, as before it, and a log never grows past its
/// limit.
pub fn stores_keep_their_bounds()
    ensures whole { (kind : Kind) (store : Store) (request : Request) → IsWhole request → is_log kind ≡ false →
        length (unit kind store request).store.bytes ≡ length store.bytes }
    ensures cut { (kind : Kind) (store : Store) (request : Request) (m : ℕ) → IsWhole request → is_log kind ≡ false →
        m ≤ count_of kind (begin store request) request → length (cut kind store request m).store.bytes ≡ length store.bytes }
    ensures whole_log { (kind : Kind) (store : Store) (request : Request) → IsWhole request →
        length store.bytes ≤ log_limit → length (unit kind store request).store.bytes ≤ log_limit }
    ensures cut_log { (kind : Kind) (store : Store) (request : Request) (m : ℕ) → IsWhole request →
        length store.bytes ≤ log_limit → m ≤ count_of kind (begin store request) request →
        length (cut kind store request m).store.bytes ≤ log_limit }
{}

/// What a request wrote is what the next one reads there, unless that fails.
pub fn what_was_written_is_read()
    ensures { (kind : Kind) (store : Store) (request : Request) → IsWhole request → is_log kind ≡ false →
        request.write ≡ true → 0 < count_of kind (begin store request) request →
        is_spoilt kind (begin (unit kind store request).store
        (record request { write = false; size = count_of kind (begin store request) request; bytes = bytes_within (count_of kind (begin store request) request) [] })).begun ≡ false →
        (unit kind (unit kind store request).store
        (record request { write = false; size = count_of kind (begin store request) request; bytes = bytes_within (count_of kind (begin store request) request) [] })).content
        ≡ take (count_of kind (begin store request) request) request.bytes.items }
{}
