// Values: true, false, strings and whole numbers, read at a position and written.
ghost use Rattle.std.specs.Prelude.{◌≡◌, ◌+◌, ◌≤◌, ◌<◌, ◌^◌, length};
ghost use Rattle.rows.specs.Rows.{Wrote};
ghost use Rattle.rows.specs.Positions.{placed};
ghost use Rattle.model.specs.Values.{read_value, read_string, read_pos, read_neg, value_text};
ghost use Rattle.values.specs.Scalars.{value_in, read_word, value_answer, InText, AnswerInText, Answered};

use crate::whole::put_whole;
use buffers::{put, put_quoted};
use lexical::class::{Class, between, run};
use lexical::limits::MAX_STRING;
use lexical::number::number;
use lexical::slice::{is_at, starts};

// A value; a string is a part of the text that it was read from. Where one is read, it is answered with the position behind it.
#[derive(Clone, Copy)]
pub enum Scalar {
    True,
    False,
    Text(usize, usize),
    Whole(i32),
}

// A word that is a value.
fn word_at(s: &[u8], at: usize, w: &[u8], v: Scalar) -> Option<(Scalar, usize)>
    requires { (at ≤ length s.now) × InText v s.now }
    ensures { Answered (read_word w.now (value_in s.now v)) s.now at result }
{
    if starts(s, at, w) {
        return Some((v, at + w.len()));
    }
    None
}

// A string in quotes.
fn text_at(s: &[u8], at: usize) -> Option<(Scalar, usize)>
    requires { at ≤ length s.now }
    ensures { Answered read_string s.now at result }
{
    let e = between(s, at, b'"', Class::Text, 0, MAX_STRING)?;
    Some((Scalar::Text(at + 1, e - 1), e))
}

// A number of 0 and more.
fn positive_at(s: &[u8], at: usize) -> Option<(Scalar, usize)>
    requires { at ≤ length s.now }
    ensures { Answered read_pos s.now at result }
{
    let to = run(s, at, Class::Digit);
    let n = number(&s[at..to], 2147483647)?;
    Some((Scalar::Whole(n as i32), to))
}

// A number below 0: the size of the smallest is no i32, so it is negated as an i64.
fn negative_at(s: &[u8], at: usize) -> Option<(Scalar, usize)>
    requires { at ≤ length s.now }
    ensures { Answered read_neg s.now at result }
{
    if !is_at(s, at, b'-') {
        return None;
    }
    let from = at + 1;
    let to = run(s, from, Class::Digit);
    let n = number(&s[from..to], 2147483648)?;
    if n == 0 {
        return None;
    }
    Some((Scalar::Whole(-(n as i64) as i32), to))
}

// The value at a position: its first byte says which of the readers can read it.
pub fn value_at(s: &[u8], at: usize) -> Option<(Scalar, usize)>
    requires { at ≤ length s.now }
    ensures result_value { value_answer s.now result ≡ placed read_value s.now at }
    ensures answer_in_text { AnswerInText result s.now }
{
    if s.len() <= at {
        return None;
    }
    match s[at] {
        b't' => word_at(s, at, b"true", Scalar::True),
        b'f' => word_at(s, at, b"false", Scalar::False),
        b'"' => text_at(s, at),
        b'-' => negative_at(s, at),
        b'0'..=b'9' => positive_at(s, at),
        _ => None,
    }
}

// A value, whose string is a part of the text s.
pub fn put_value(out: &mut [u8], at: usize, v: Scalar, s: &[u8]) -> usize
    requires { (at + length s.now + 13 < 2 ^ 64) × InText v s.now }
    ensures { Wrote at (value_text (value_in s.now v)) out.old result out.new }
{
    match v {
        Scalar::True => put(out, at, b"true"),
        Scalar::False => put(out, at, b"false"),
        Scalar::Whole(z) => put_whole(out, at, z),
        Scalar::Text(from, to) => put_quoted(out, at, b'"', &s[from..to]),
    }
}
