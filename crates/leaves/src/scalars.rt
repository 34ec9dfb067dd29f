// The functions of `lexical`, `values` and `buffers`.
use crate::{each, show};
use buffers::{put, put_byte, put_decimal};
use lexical::class::{
    Class, between, is_blank, is_digit, is_identifier_byte, is_key, is_name, is_name_byte,
    is_plain, is_plain_byte, is_text_byte, passes, run,
};
use lexical::limits::MAX_KEY;
use lexical::number::number;
use lexical::slice::{compare, same, starts};
use std::io;
use values::value::{put_value, value_at};
use values::whole::put_whole;

// The buffer that is written into, and the longest text of a value that is read.
const OUT: usize = 12;

const LONGEST: usize = 64;

fn class_of(rt: &impl Print, b: u8) -> io::Result<()> {
    let one = [b];
    show::asked(rt, b"byte", &one)?;
    show::mark(rt, b'n', is_name_byte(b))?;
    show::mark(rt, b'p', is_plain_byte(b))?;
    show::mark(rt, b't', is_text_byte(b))?;
    show::mark(rt, b'd', is_digit(b))?;
    show::mark(rt, b'i', is_identifier_byte(b))?;
    show::mark(rt, b'b', is_blank(b))?;
    show::mark(rt, b'N', passes(Class::Name, b))?;
    show::text(rt, b"\n")
}

fn names(rt: &impl Print, s: &[u8]) -> io::Result<()> {
    show::asked(rt, b"is_name", s)?;
    show::flag(rt, is_name(s))?;
    show::asked(rt, b"is_key", s)?;
    show::flag(rt, is_key(s))?;
    show::asked(rt, b"is_plain", s)?;
    show::flag(rt, is_plain(s))?;
    show::asked(rt, b"run of digits", s)?;
    show::count(rt, run(s, 0, Class::Digit) as u64)?;
    show::asked(rt, b"between", s)?;
    let to = between(s, 0, b'\'', Class::Name, 1, MAX_KEY);
    show::found(rt, to.map(|to| to as u64))
}

fn numbers(rt: &impl Print, s: &[u8]) -> io::Result<()> {
    show::asked(rt, b"number to 256", s)?;
    show::found(rt, number(s, 256))?;
    show::asked(rt, b"number to 4294967295", s)?;
    show::found(rt, number(s, 4294967295))
}

fn pair(rt: &impl Print, a: &[u8], b: &[u8]) -> io::Result<()> {
    show::asked_both(rt, b"same", a, b)?;
    show::flag(rt, same(a, b))?;
    show::asked_both(rt, b"compare", a, b)?;
    show::order(rt, compare(a, b))?;
    show::asked(rt, b"starts", a)?;
    show::asked(rt, b"with", b)?;
    show::flag(rt, starts(a, 0, b))
}

// A value that is read, and written into a buffer that may be too short for it.
fn value(rt: &impl Print, s: &[u8]) -> io::Result<()> {
    if LONGEST < s.len() {
        return Ok(());
    }
    show::asked(rt, b"value_at", s)?;
    let Some((v, to)) = value_at(s, 0) else {
        return show::bad(rt);
    };
    show::count(rt, to as u64)?;
    let mut out = [b'.'; OUT];
    let n = put_value(&mut out, 0, v, s);
    show::asked(rt, b"put_value", s)?;
    show::buffer(rt, &out, n)
}

fn decimal(rt: &impl Print, n: u32) -> io::Result<()> {
    let mut out = [b'.'; OUT];
    let a = put_decimal(&mut out, 0, n as usize);
    show::buffer(rt, &out, a)
}

fn writers(rt: &impl Print, z: i32) -> io::Result<()> {
    let mut out = [b'.'; OUT];
    let b = put_whole(&mut out, 1, z);
    show::buffer(rt, &out, b)?;
    let c = put_byte(&mut out, 11, b'!');
    show::buffer(rt, &out, c)?;
    let d = put(&mut out, 10, b"over");
    show::buffer(rt, &out, d)
}

fn classes(rt: &impl Print) -> io::Result<()> {
    class_of(rt, 0x1F)?;
    class_of(rt, b' ')?;
    class_of(rt, b'"')?;
    class_of(rt, b'\'')?;
    class_of(rt, b';')?;
    class_of(rt, b'\\')?;
    class_of(rt, b'-')?;
    class_of(rt, b'_')?;
    class_of(rt, b'/')?;
    class_of(rt, b'0')?;
    class_of(rt, b'9')?;
    class_of(rt, b':')?;
    class_of(rt, b'A')?;
    class_of(rt, b'z')?;
    class_of(rt, b'~')?;
    class_of(rt, 0x7F)?;
    class_of(rt, b'\t')
}

fn pairs(rt: &impl Print) -> io::Result<()> {
    let empty = b"";
    let ab = b"ab";
    let abc = b"abc";
    pair(rt, empty, empty)?;
    pair(rt, ab, abc)?;
    pair(rt, abc, ab)?;
    pair(rt, b"b", abc)?;
    pair(rt, abc, abc)
}

pub fn table(rt: &impl Print) -> io::Result<()> {
    classes(rt)?;
    each(
        rt,
        b"
ann
29
br 50
'key'
''
'sixteen bytes ok'
'seventeen bytes..'
sixteen bytes ok
seventeen bytes..
",
        names,
    )?;
    each(
        rt,
        b"
0
00
256
257
4294967295
4294967296
1x
",
        numbers,
    )?;
    pairs(rt)?;
    each(
        rt,
        b"true
false,
\"\"
\"a;'b\"
\"12345678901234567890123456789012\"
\"123456789012345678901234567890123\"
0
-0
01
2147483647
2147483648
-2147483648
-2147483649
null
",
        value,
    )?;
    decimal(rt, 0)?;
    writers(rt, -2147483648)?;
    decimal(rt, 4294967295)?;
    writers(rt, 2147483647)
}
