// Tokens of record text, each with the blanks behind it.
ghost use Rattle.std.specs.Prelude.{◌≡◌, ◌≤◌, length, option_map, IfSome};
ghost use Rattle.rows.specs.Positions.{placed};
ghost use Rattle.model.specs.RecordText.{read_key};
ghost use Rattle.values.specs.Scalars.{value_answer, AnswerInText};
ghost use Rattle.reader.specs.Tokens.{read_structural, read_scalar, read_member, token_answer, key_answer, KeyInText, MemberInText};

use lexical::class::{Class, between, run};
use lexical::limits::MAX_KEY;
use values::value::{Scalar, value_at};

// A token of one byte.
#[derive(Clone, Copy, PartialEq, Eq)]
pub enum Token {
    Open,
    Close,
    Colon,
    Comma,
}

// A key is a part of the text: where it begins and ends, and where the next token stands.
#[derive(Clone, Copy)]
pub struct Key {
    pub from: usize,
    pub to: usize,
    pub next: usize,
}

// The token of one byte that stands at a position, and where the next one stands.
pub fn token_at(s: &[u8], at: usize) -> Option<(Token, usize)>
    requires { at ≤ length s.now }
    ensures { option_map token_answer result ≡ placed read_structural s.now at }
{
    if s.len() <= at {
        return None;
    }
    let token = match s[at] {
        b'{' => Token::Open,
        b'}' => Token::Close,
        b':' => Token::Colon,
        b',' => Token::Comma,
        _ => return None,
    };
    Some((token, run(s, at + 1, Class::Blank)))
}

// A key in quotes.
pub fn key_at(s: &[u8], at: usize) -> Option<Key>
    requires { at ≤ length s.now }
    ensures result_value { option_map (key_answer s.now) result ≡ placed read_key s.now at }
    ensures key_in_text { IfSome result (λ k. KeyInText at k s.now) }
{
    let e = between(s, at, b'"', Class::Name, 1, MAX_KEY)?;
    let next = run(s, e, Class::Blank);
    Some(Key {
        from: at + 1,
        to: e - 1,
        next,
    })
}

// A key and the colon behind it: at least four bytes.
pub fn member_at(s: &[u8], at: usize) -> Option<Key>
    requires { at ≤ length s.now }
    ensures result_value { option_map (key_answer s.now) result ≡ placed read_member s.now at }
    ensures member_in_text { IfSome result (λ k. MemberInText at k s.now) }
{
    let key = key_at(s, at)?;
    let (Token::Colon, next) = token_at(s, key.next)? else {
        return None;
    };
    Some(Key { next, ..key })
}

// A value, and where the next token stands.
pub fn leaf_at(s: &[u8], at: usize) -> Option<(Scalar, usize)>
    requires { at ≤ length s.now }
    ensures result_value { value_answer s.now result ≡ placed read_scalar s.now at }
    ensures answer_in_text { AnswerInText result s.now }
{
    let (value, e) = value_at(s, at)?;
    Some((value, run(s, e, Class::Blank)))
}
