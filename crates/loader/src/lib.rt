// The fields of a record's text, put into a table.
#![tactic(auto)]

ghost use Rattle.std.specs.Prelude.{◌≡◌, [], ◌∷◌, ◌++◌, ◌+◌, ◌≤◌, length, take, replicate, option_map};
ghost use Rattle.rows.specs.Positions.{placed};
ghost use Rattle.model.specs.RecordText.{read_object};
ghost use Rattle.paths.specs.Layout.{path_slot, path_in};
ghost use Rattle.layout.specs.Layout.{Keeps, CanonicalKeys};
ghost use Rattle.record.specs.Slots.{record_bytes, fields_in, CanonicalFields};
ghost use Rattle.reader.specs.Tokens.{mapped, read_top};
ghost use Rattle.reader.specs.Summaries.{reading_of, read_answer};
ghost use Rattle.loader.specs.Loaded.{loaded, fields_of, HoldsOrKeeps};
ghost use Rattle.model.specs.Limits.{max_key, max_depth, max_text};

use buffers::copy;
use lexical::class::{Class, run};
use lexical::limits::MAX_DEPTH;
use paths::field::PATH;
use paths::key::push_key;
use reader::grammar::{RecordError, read_summary};
use reader::tokens::{Token, leaf_at, member_at, token_at};
use record::slot::store_value;
use record::table::{RECORD, SLOTS};

// The path of a key in the object at a path.
fn put_child(child: &mut [u8; PATH], path: &[u8; PATH], key: &[u8])
    ensures child_after { path_in child.new ≡ take max_depth (path_in path.now ++ (take max_key key.now ∷ [])) }
    ensures child_len { length child.new ≡ path_slot }
    ensures keeps { Keeps (CanonicalKeys max_depth) path.now child.new }
{
    copy(child, path);
    push_key(child, key, MAX_DEPTH);
}

// The fields of an object that stands at a path, in which at most `depth` keys stand one inside the other; answers where it ends.
fn load_object(
    table: &mut [u8; RECORD],
    s: &[u8],
    at: usize,
    depth: usize,
    path: &[u8; PATH],
) -> Option<usize>
    requires { (at ≤ length s.now) × (length s.now ≤ max_text) × (length (path_in path.now) + depth ≤ max_depth) }
    ensures result_after { option_map (λ e. (fields_in table.new, e)) result ≡ placed (mapped (loaded (path_in path.now) (fields_in table.old)) (read_object depth)) s.now at }
    ensures keeps { CanonicalKeys max_depth path.now → Keeps CanonicalFields table.old table.new }
{
    if depth == 0 {
        return None;
    }
    let (Token::Open, open) = token_at(s, at)? else {
        return None;
    };
    let mut child = [0u8; PATH];
    let mut i = open;
    // A cursor: where a member ends, its readers say.
    loop {
        let key = member_at(s, i)?;
        put_child(&mut child, path, &s[key.from..key.to]);
        let end = match leaf_at(s, key.next) {
            Some((value, end)) => {
                store_value(table, &child, value, s);
                end
            }
            None => load_object(table, s, key.next, depth - 1, &child)?,
        };
        match token_at(s, end)? {
            (Token::Comma, next) => i = next,
            (Token::Close, close) => return Some(close),
            _ => return None,
        }
    }
}

// The fields of a record's object, which may be empty, into a table that holds none; answers where it ends.
fn load_top(table: &mut [u8; RECORD], s: &[u8], at: usize) -> Option<usize>
    requires { (at ≤ length s.now) × (length s.now ≤ max_text) }
    ensures result_after { option_map (λ e. (fields_in table.new, e)) result ≡ placed (mapped (loaded [] []) read_top) s.now at }
    ensures canonical_fields { table.old ≡ replicate record_bytes 0 → CanonicalFields table.new }
{
    table[0] = 0;
    let (Token::Open, open) = token_at(s, at)? else {
        return None;
    };
    if let Some((Token::Close, end)) = token_at(s, open) {
        return Some(end);
    }
    let path = [0u8; PATH];
    load_object(table, s, at, MAX_DEPTH, &path)
}

// How many fields a record's text has; where a table has room for them it then holds them, else, and where the text is refused, it keeps its bytes.
pub fn read_record(table: &mut [u8; RECORD], s: &[u8]) -> Result<usize, RecordError>
    requires { length s.now ≤ max_text }
    ensures result_value { read_answer result ≡ reading_of s.now }
    ensures holds_or_keeps { HoldsOrKeeps (fields_of s.now) table.old table.new }
    ensures canonical_fields { table.old ≡ replicate record_bytes 0 → CanonicalFields table.new }
{
    let n = read_summary(s)?;
    if n <= SLOTS {
        let at = run(s, 0, Class::Blank);
        load_top(table, s, at);
    }
    Ok(n)
}
