// Byte classes, how far bytes of a class run, and names.
ghost use Rattle.std.specs.Prelude.{◌≡◌, ◌≤◌, length};
ghost use Rattle.rows.specs.Positions.{run_end, placed};
ghost use Rattle.model.specs.Base.{is_digit};
ghost use Rattle.model.specs.Names.{name_byte, plain_byte, is_name_of, is_name, is_key, is_plain};
ghost use Rattle.model.specs.Values.{string_byte};
ghost use Rattle.model.specs.Paths.{identifier_byte};
ghost use Rattle.model.specs.RecordText.{is_blank};
ghost use Rattle.lexical.specs.Classes.{in_class, scan_end, read_between, text_answer};

use crate::limits::{MAX_KEY, MAX_NAME};
use crate::slice::is_at;

// A class is a value, so that contracts can name it (`in_class`); document 01 has them decided by match with ranges.
#[derive(Clone, Copy)]
pub enum Class {
    Name,
    Plain,
    Text,
    Digit,
    Identifier,
    Blank,
}

#[tactic(auto, unfolding(model::specs::Names::name_byte, model::specs::Base::within))]
pub fn is_name_byte(b: u8) -> bool
    ensures { result ≡ name_byte b }
{
    match b {
        b'"' | b'\'' | b';' | b'\\' => false,
        0x20..=0x7E => true,
        _ => false,
    }
}

#[tactic(auto, unfolding(model::specs::Names::plain_byte, model::specs::Names::is_letter, model::specs::Base::is_digit, model::specs::Base::within))]
pub fn is_plain_byte(b: u8) -> bool
    ensures { result ≡ plain_byte b }
{
    match b {
        b'-' | b'_' => true,
        b'0'..=b'9' | b'A'..=b'Z' | b'a'..=b'z' => true,
        _ => false,
    }
}

#[tactic(auto, unfolding(model::specs::Values::string_byte, model::specs::Base::within))]
pub fn is_text_byte(b: u8) -> bool
    ensures { result ≡ string_byte b }
{
    match b {
        b'"' | b'\\' => false,
        0x20..=0x7E => true,
        _ => false,
    }
}

#[tactic(auto, unfolding(model::specs::Base::is_digit, model::specs::Base::within))]
pub fn is_digit(b: u8) -> bool
    ensures { result ≡ is_digit b }
{
    match b {
        b'0'..=b'9' => true,
        _ => false,
    }
}

#[tactic(auto, unfolding(model::specs::Paths::identifier_byte, model::specs::Names::is_letter, model::specs::Base::is_digit, model::specs::Base::within))]
pub fn is_identifier_byte(b: u8) -> bool
    ensures { result ≡ identifier_byte b }
{
    match b {
        b'_' => true,
        b'0'..=b'9' | b'A'..=b'Z' | b'a'..=b'z' => true,
        _ => false,
    }
}

#[tactic(auto, unfolding(model::specs::RecordText::is_blank))]
pub fn is_blank(b: u8) -> bool
    ensures { result ≡ is_blank b }
{
    match b {
        b' ' | b'\t' | b'\n' | b'\r' => true,
        _ => false,
    }
}

pub fn passes(class: Class, b: u8) -> bool
    ensures { result ≡ in_class class b }
{
    match class {
        Class::Name => is_name_byte(b),
        Class::Plain => is_plain_byte(b),
        Class::Text => is_text_byte(b),
        Class::Digit => is_digit(b),
        Class::Identifier => is_identifier_byte(b),
        Class::Blank => is_blank(b),
    }
}

// Where the bytes of a class end, from `at` on.
pub fn run(s: &[u8], at: usize, class: Class) -> usize
    requires { at ≤ length s.now }
    ensures { result ≡ run_end (in_class class) s.now at }
{
    for i in at..s.len() {
        if !passes(class, s[i]) {
            return i;
        }
    }
    s.len()
}

// From `least` to `most` bytes of a class, from `at` on: where they end.
pub fn scan(s: &[u8], at: usize, class: Class, least: usize, most: usize) -> Option<usize>
    requires { at ≤ length s.now }
    ensures { result ≡ scan_end class least most s.now at }
{
    let to = run(s, at, class);
    if to - at < least {
        return None;
    }
    if most < to - at {
        return None;
    }
    Some(to)
}

// Whether a text is a name of at most `most` bytes.
fn is_name_of(s: &[u8], most: usize) -> bool
    ensures { result ≡ is_name_of most s.now }
{
    if s.len() < 1 {
        return false;
    }
    if most < s.len() {
        return false;
    }
    run(s, 0, Class::Name) == s.len()
}

#[tactic(auto, unfolding(model::specs::Names::is_name))]
pub fn is_name(s: &[u8]) -> bool
    ensures { result ≡ is_name s.now }
{
    is_name_of(s, MAX_NAME)
}

#[tactic(auto, unfolding(model::specs::Names::is_key))]
pub fn is_key(s: &[u8]) -> bool
    ensures { result ≡ is_key s.now }
{
    is_name_of(s, MAX_KEY)
}

pub fn is_plain(s: &[u8]) -> bool
    ensures { result ≡ is_plain s.now }
{
    if is_name(s) {
        return run(s, 0, Class::Plain) == s.len();
    }
    false
}

// From `least` to `most` bytes of a class between two quotes: where the closing one ends.
pub fn between(
    s: &[u8],
    at: usize,
    quote: u8,
    class: Class,
    least: usize,
    most: usize,
) -> Option<usize>
    requires { at ≤ length s.now }
    ensures { text_answer s.now at result ≡ placed (read_between class quote least most) s.now at }
{
    if !is_at(s, at, quote) {
        return None;
    }
    let to = scan(s, at + 1, class, least, most)?;
    if !is_at(s, to, quote) {
        return None;
    }
    Some(to + 1)
}
