// The grammar of records: whether a text is one, how many fields it has, and whether a key stands twice in one object.
ghost use Rattle.std.specs.Prelude.{◌≡◌, ◌+◌, ◌*◌, ◌≤◌, length, take, option_map, IfSome};
ghost use Rattle.rows.specs.Positions.{placed};
ghost use Rattle.model.specs.Limits.{max_text};
ghost use Rattle.model.specs.RecordText.{read_object};
ghost use Rattle.reader.specs.Tokens.{mapped, read_top};
ghost use Rattle.reader.specs.Summaries.{member_bytes, HaveRoom, summary, object_answer, reading_of, read_answer};

use crate::keys::note_key;
use crate::tokens::{Token, leaf_at, member_at, token_at};
use lexical::class::{Class, run};
use lexical::limits::{MAX_DEPTH, MAX_TEXT};

// A key, its quotes and its colon take at least these bytes: so many keys a text has at most.
const MEMBER: usize = 4;

const KEYS: usize = MAX_TEXT / MEMBER;

// A text of at most a sixteenth of the longest is short: room for fewer keys is less to set to 0 before it is read.
const SHORT_TEXT: usize = MAX_TEXT / 16;

const SHORT_KEYS: usize = SHORT_TEXT / MEMBER;

// Where an object ends, how many fields it has, and whether a key stands twice in it or in an object in it.
#[derive(Clone, Copy)]
pub struct Object {
    pub end: usize,
    pub fields: usize,
    pub twice: bool,
}

// Why a text is no record that may be stored.
#[derive(Clone, Copy, PartialEq, Eq)]
pub enum RecordError {
    NotRecord,
    KeyTwice,
}

// An object with members, in which at most `depth` keys stand one inside the other; `keys` has those of the objects around it before `top`.
fn object_at(s: &[u8], at: usize, depth: usize, keys: &mut [u16], top: usize) -> Option<Object>
    requires { (at ≤ length s.now) × (length s.now ≤ max_text) × HaveRoom s.now keys.old × (member_bytes * top ≤ at) }
    ensures result_value { option_map object_answer result ≡ placed (mapped summary (read_object depth)) s.now at }
    ensures fields_within { IfSome result (λ o. at + o.fields ≤ o.end) }
    ensures keys_unchanged { take top keys.new ≡ take top keys.old }
{
    if depth == 0 {
        return None;
    }
    let (Token::Open, open) = token_at(s, at)? else {
        return None;
    };
    let mut i = open;
    let mut n = top;
    let mut fields: usize = 0;
    let mut twice = false;
    // A cursor: where a member ends, its readers say.
    loop {
        let key = member_at(s, i)?;
        let seen = note_key(s, key.from, key.to + 1, keys, top, n);
        n += 1;
        let held = match leaf_at(s, key.next) {
            Some((_, end)) => Object {
                end,
                fields: 1,
                twice: false,
            },
            None => object_at(s, key.next, depth - 1, keys, n)?,
        };
        fields += held.fields;
        twice = seen | held.twice | twice;
        match token_at(s, held.end)? {
            (Token::Comma, next) => i = next,
            (Token::Close, end) => return Some(Object { end, fields, twice }),
            _ => return None,
        }
    }
}

// The object of a record, which may be empty.
fn top_at(s: &[u8], at: usize) -> Option<Object>
    requires { (at ≤ length s.now) × (length s.now ≤ max_text) }
    ensures { option_map object_answer result ≡ placed (mapped summary read_top) s.now at }
{
    let (Token::Open, open) = token_at(s, at)? else {
        return None;
    };
    if let Some((Token::Close, end)) = token_at(s, open) {
        return Some(Object {
            end,
            fields: 0,
            twice: false,
        });
    }
    if s.len() <= SHORT_TEXT {
        let mut few = [0u16; SHORT_KEYS];
        return object_at(s, at, MAX_DEPTH, &mut few, 0);
    }
    let mut keys = [0u16; KEYS];
    object_at(s, at, MAX_DEPTH, &mut keys, 0)
}

// What a text says of itself as a record: how many fields it has.
pub fn read_summary(s: &[u8]) -> Result<usize, RecordError>
    requires { length s.now ≤ max_text }
    ensures { read_answer result ≡ reading_of s.now }
{
    let at = run(s, 0, Class::Blank);
    let top = top_at(s, at).ok_or(RecordError::NotRecord)?;
    if top.end != s.len() {
        return Err(RecordError::NotRecord);
    }
    if top.twice {
        return Err(RecordError::KeyTwice);
    }
    Ok(top.fields)
}
