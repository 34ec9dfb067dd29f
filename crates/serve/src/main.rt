// The program: opens the four files of the folder where it is started, then answers each line of its input.
#![tactic(auto)]

mod input;

use crate::input::answer_all;
use opening::answer::Fault;
use printing::put_opening;
use server::open::{LOGINS, RECORD, TABLES, open};
use std::io;
use textfile::read_file;

// One byte more than an opening accepts, so that a longer file is seen to be too long.
const TEXT: usize = 65537;

fn print_opening(rt: &impl Print, opened: Result<(), Fault>) -> io::Result<()> {
    let mut out = [0u8; 66];
    let n = put_opening(&mut out, opened);
    rt.write_all(&out[..n])
}

fn main(rt: HostRuntime) -> io::Result<()> {
    let mut users = [0u8; TEXT];
    let mut environments = [0u8; TEXT];
    let mut policy = [0u8; TEXT];
    let mut text = [0u8; TEXT];
    let u = read_file(&rt, "users.txt", &mut users);
    let e = read_file(&rt, "environments.txt", &mut environments);
    let p = read_file(&rt, "policy.txt", &mut policy);
    let t = read_file(&rt, "record.json", &mut text);
    let mut tables = [0u8; TABLES];
    let mut logins = [0u16; LOGINS];
    let mut fields = [0u8; RECORD];
    let opened = open(
        &mut tables,
        &mut logins,
        &mut fields,
        &users[..u],
        &environments[..e],
        &policy[..p],
        &text[..t],
    );
    if opened.is_err() {
        return print_opening(&rt, opened);
    }
    answer_all(&rt, &tables, &mut logins, &mut fields)
}
