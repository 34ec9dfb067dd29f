// What an opening came to, on a line.
use opening::answer::Fault;
use printing::put_opening;
use std::io;

// A refused opening's line, and whether there is one.
pub fn print_refusal(rt: &impl Print, done: Result<(), Fault>) -> io::Result<bool> {
    let mut out = [0u8; 66];
    let n = put_opening(&mut out, done);
    rt.write_all(&out[..n])?;
    Ok(0 < n)
}

// The same, and `OK` for an accepted one.
pub fn print(rt: &impl Print, done: Result<(), Fault>) -> io::Result<()> {
    if !print_refusal(rt, done)? {
        rt.write_all(b"OK\n")?;
    }
    Ok(())
}
