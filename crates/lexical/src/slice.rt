// Comparing slices. The library's `==`, `cmp` and `>` were tried in place of these, and take more instructions (DECISIONS 142): names begin alike and differ at their ends.
ghost use Rattle.std.specs.Prelude.{◌≡◌, true, [], ◌∷◌, length, drop};
ghost use Prim.Native.Nat.{◌+◌, ◌≤◌, compare};
ghost use Rattle.rows.specs.Positions.{run_end};
ghost use Rattle.model.specs.Base.{Bytes, ◌≐◌, after, is_some};
ghost use Rattle.model.specs.Fields.{lex, order_key};
ghost use Rattle.lexical.specs.Classes.{is_not};
ghost use Rattle.lexical.specs.Orders.{order_of, is_greater, word_bytes, big_endian, AreBytes, first_word, begins_before};

use std::cmp::Ordering;

// Bytes that are compared at once, as one number.
const WORD: usize = 8;

// The first bytes, a word of them, as one number, in which the first counts most.
fn word(a: &[u8]) -> u64
    requires { word_bytes ≤ length a.now }
    ensures { result ≡ big_endian word_bytes a.now }
{
    u64::from_be_bytes([a[0], a[1], a[2], a[3], a[4], a[5], a[6], a[7]])
}

// Whether two slices are the same, byte by byte: short enough to stand in a loop. Names often begin alike, so the last bytes are compared first.
pub fn same_bytes(a: &[u8], b: &[u8]) -> bool
    ensures { result ≡ (a.now ≐ b.now) }
{
    if a.len() != b.len() {
        return false;
    }
    for i in (0..a.len()).rev() {
        if a[i] != b[i] {
            return false;
        }
    }
    true
}

// Whether two slices of one length, of a word to two, are the same: their last words and their first cover them.
fn same_words(a: &[u8], b: &[u8]) -> bool
    requires { (length a.now ≡ length b.now) × (word_bytes ≤ length a.now) × (length a.now ≤ word_bytes + word_bytes) }
    ensures { result ≡ (a.now ≐ b.now) }
{
    let last = a.len() - WORD;
    if word(&a[last..]) != word(&b[last..]) {
        return false;
    }
    word(a) == word(b)
}

// Whether two slices are the same: by words where these serve, as they do for most names.
pub fn same(a: &[u8], b: &[u8]) -> bool
    ensures { result ≡ (a.now ≐ b.now) }
{
    let n = a.len();
    if n != b.len() {
        return false;
    }
    if n < WORD {
        return same_bytes(a, b);
    }
    if WORD + WORD < n {
        return same_bytes(a, b);
    }
    same_words(a, b)
}

// The order of what stands from a position on, byte by byte.
fn compare_from(a: &[u8], b: &[u8], from: usize) -> Ordering
    requires { (from ≤ length a.now) × (from ≤ length b.now) }
    ensures { result ≡ order_of (lex compare (drop from a.now) (drop from b.now)) }
{
    for i in from..a.len().min(b.len()) {
        if a[i] != b[i] {
            return a[i].cmp(&b[i]);
        }
    }
    a.len().cmp(&b.len())
}

// By byte value, a shorter slice before a longer one that it begins. Where both have a word, the first ones are compared as two numbers.
pub fn compare(a: &[u8], b: &[u8]) -> Ordering
    ensures { result ≡ order_of (order_key a.now b.now) }
{
    if a.len().min(b.len()) < WORD {
        return compare_from(a, b, 0);
    }
    let x = word(a);
    let y = word(b);
    if x != y {
        return x.cmp(&y);
    }
    compare_from(a, b, WORD)
}

// Whether what stands from a position on puts a behind b.
fn is_behind_from(a: &[u8], b: &[u8], from: usize) -> bool
    requires { (from ≤ length a.now) × (from ≤ length b.now) }
    ensures { result ≡ is_greater (lex compare (drop from a.now) (drop from b.now)) }
{
    compare_from(a, b, from).is_gt()
}

// Whether a stands behind b in this order: `compare` for a search, short enough to stand in its loop.
// The second words end with the shorter slice, so that names of one to two words take two comparisons.
pub fn is_behind(a: &[u8], b: &[u8]) -> bool
    ensures { result ≡ is_greater (order_key a.now b.now) }
{
    let n = a.len().min(b.len());
    if n < WORD {
        return is_behind_from(a, b, 0);
    }
    let x = word(a);
    let y = word(b);
    if x != y {
        return y < x;
    }
    let second = (n - WORD).min(WORD);
    let v = word(&a[second..]);
    let w = word(&b[second..]);
    if v != w {
        return w < v;
    }
    is_behind_from(a, b, second + WORD)
}

// The first word of a slice, for a search that compares many with it; 0 where it is shorter, which nothing passes. That these are bytes is promised too: `begins_before` rests on it.
pub fn first_word(a: &[u8]) -> u64
    ensures { (result ≡ first_word a.now) × AreBytes a.now }
{
    if a.len() < WORD {
        return 0;
    }
    word(a)
}

// Whether b begins with a word that is less than x: then every slice with the first word x stands behind it.
pub fn begins_before(b: &[u8], x: u64) -> bool
    ensures value { result ≡ begins_before b.now x }
    ensures b_value { (a : Bytes) → AreBytes a → x ≡ first_word a → result ≡ true → is_greater (order_key a b.now) ≡ true }
{
    if b.len() < WORD {
        return false;
    }
    word(b) < x
}

// Whether the word w stands at the position: by a loop, since the library's `starts_with` is slower for words of a few bytes (DECISIONS 143).
pub fn starts(s: &[u8], at: usize, w: &[u8]) -> bool
    requires { at ≤ length s.now }
    ensures { result ≡ is_some (after w.now (drop at s.now)) }
{
    if s.len() - at < w.len() {
        return false;
    }
    for i in 0..w.len() {
        if s[at + i] != w[i] {
            return false;
        }
    }
    true
}

// Whether the byte b stands at the position.
pub fn is_at(s: &[u8], at: usize, b: u8) -> bool
    ensures { result ≡ is_some (after (b ∷ []) (drop at s.now)) }
{
    at < s.len() && s[at] == b
}

// Where the byte b next stands, from `at` on, or where the text ends.
pub fn until(s: &[u8], at: usize, b: u8) -> usize
    requires { at ≤ length s.now }
    ensures { result ≡ run_end (is_not b) s.now at }
{
    for i in at..s.len() {
        if s[i] == b {
            return i;
        }
    }
    s.len()
}
