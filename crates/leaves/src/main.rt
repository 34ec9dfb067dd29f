// Runs a table of inputs through the public functions of `lexical`, `buffers`, `layout`, `values`, `paths`, `steps` and `matching`, and prints what came out.
#![tactic(auto)]

mod scalars;
mod show;
mod slots;

use std::io;

// A table of inputs, one to a line, each handed to the function that shows what comes of it.
fn each<P: Print, F: Fn(&P, &[u8]) -> io::Result<()>>(
    rt: &P,
    table: &[u8],
    show: F,
) -> io::Result<()>
    requires { F.IsAlwaysCallable show }
{
    let mut from = 0;
    for (i, &b) in table.iter().enumerate() {
        if b == b'\n' {
            show(rt, &table[from..i])?;
            from = i + 1;
        }
    }
    Ok(())
}

fn main(rt: HostRuntime) -> io::Result<()> {
    scalars::table(&rt)?;
    slots::table(&rt)
}
