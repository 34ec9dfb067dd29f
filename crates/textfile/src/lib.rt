// A text from a file, into memory that is lent.
#![tactic(auto)]

ghost use Rattle.std.specs.Prelude.{◌≤◌, length};

use std::fs::File;
use std::io::Read;
use std::rt::Files;

// Reads until the text is full, the file ends or a read fails; how many bytes came.
fn read_full(file: &mut impl Read, text: &mut [u8]) -> usize
    ensures { result ≤ length text.new }
{
    let mut done: usize = 0;
    // A cursor: how far it goes, each read says.
    while done < text.len() {
        let n = file.read(&mut text[done..]).unwrap_or(0);
        if n == 0 {
            break;
        }
        done += n;
    }
    done
}

// The first bytes of a file, and how many there are; a file that cannot be opened counts as empty.
pub fn read_file(rt: &impl Files, name: &str, text: &mut [u8]) -> usize
    ensures { result ≤ length text.new }
{
    match File::open(rt, name) {
        Ok(mut file) => read_full(&mut file, text),
        Err(_) => 0,
    }
}
