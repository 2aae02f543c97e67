//! Laws of CARD32s, texts and values in the bytes of a cache: what is written reads back.
//!
//! The functions do nothing. Their contracts hold of any bytes, and are what a writer and a reader
//! of caches share.

ghost use Rattle.std.specs.Prelude.{◌≡◌, ◌↔◌, ℕ, ◌+◌, ◌*◌, ◌<◌, ◌≤◌, List, ◌++◌, length, take, Ok, Err};
ghost use Rattle.mime_base.specs.Cache.Bytes.{AreCards, Stands, cards, fields, value_at};
ghost use Rattle.mime_base.specs.Cache.Texts.{HasNoZero, IsText, ended, front, order_at, text_at, text_cost};
ghost use Rattle.mime_base.specs.declared.cache.byte_fault.ByteFault.{ByteFault};
ghost use Rattle.mime_base.specs.declared.cache.byte_fault.ByteFault.TheVariants.{LongText, OutOfRange};

/// What is appended stands where the bytes ended, and stays while more is appended.
pub fn appended_stands()
    // Appended bytes stand where the others ended.
    ensures appended { (c bytes : List ℕ) → Stands (c ++ bytes) (length c) bytes }
    // What stands keeps its place while more is appended.
    ensures stays { (c more : List ℕ) (at : ℕ) (bytes : List ℕ) →
        Stands c at bytes → Stands (c ++ more) at bytes }
    // What stands lies in the cache.
    ensures inside { (c : List ℕ) (at : ℕ) (bytes : List ℕ) →
        Stands c at bytes → at + length bytes ≤ length c }
{}

/// Numbers, a text and a value read back where they stand.
pub fn standing_reads_back()
    // Numbers of 32 bits that stand are the fields that are read there.
    ensures numbers { (c : List ℕ) (at : ℕ) (numbers : List ℕ) →
        AreCards numbers → Stands c at (cards numbers) → fields c at (length numbers) ≡ numbers }
    // A text that stands, at most 255 bytes and its zero, is the text that is read there.
    ensures text { (c : List ℕ) (at : ℕ) (text : List ℕ) →
        IsText text → Stands c at (ended text) → text_at c at ≡ Ok text }
    // Bytes that stand are the value that is read there.
    ensures value { (c : List ℕ) (at : ℕ) (bytes : List ℕ) →
        Stands c at bytes → value_at c at (length bytes) ≡ bytes }
{}

/// What reads back stays while more is appended.
pub fn reading_stays()
    // Fields that lie in the cache read the same while more is appended.
    ensures numbers { (c more : List ℕ) (at n : ℕ) →
        at + 4 * n ≤ length c → fields (c ++ more) at n ≡ fields c at n }
    // A text reads the same while more is appended.
    ensures text { (c more : List ℕ) (at : ℕ) (text : List ℕ) →
        text_at c at ≡ Ok text → text_at (c ++ more) at ≡ Ok text }
    // A value that lies in the cache reads the same while more is appended.
    ensures value { (c more : List ℕ) (at size : ℕ) →
        at + size ≤ length c → value_at (c ++ more) at size ≡ value_at c at size }
{}

/// A text is read exactly where one stands, and is looked at with its zero. It is too long exactly
/// where 256 bytes without a zero lie in the cache, else it runs out of the cache; an order is
/// refused exactly where besides all these bytes are the key's.
pub fn texts_are_read()
    // Where a text is read one stands, and the text and its zero are what is counted.
    ensures text { (c : List ℕ) (at : ℕ) (text : List ℕ) → text_at c at ≡ Ok text →
        IsText text × Stands c at (ended text) × (text_cost c at ≡ length text + 1) }
    // A text is too long exactly where 256 bytes lie in the cache and none of them is zero.
    ensures long { (c : List ℕ) (at : ℕ) →
        ((text_at c at ≡ Err (LongText at)) ↔ ((at + 256 ≤ length c) × HasNoZero (front 256 c at))) }
    // It runs out of the cache exactly where fewer bytes lie there, and none of them is zero.
    ensures outside { (c : List ℕ) (at : ℕ) →
        ((text_at c at ≡ Err (OutOfRange at)) ↔ ((length c < at + 256) × HasNoZero (front 256 c at))) }
    // A comparison has the text's fault exactly where the key begins with all the bytes, at most 256, that lie there.
    ensures order { (c : List ℕ) (at : ℕ) (key : List ℕ) (fault : ByteFault) →
        ((order_at c at key ≡ Err fault)
        ↔ ((text_at c at ≡ Err fault) × (take (length (front 256 c at)) key ≡ front 256 c at))) }
{}
