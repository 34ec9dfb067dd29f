// Recorded openings, each with what came of it; then recorded afternoons, with all that is printed.
#![tactic(auto)]

mod afternoon;
mod case;
mod outcome;
mod rooms;
mod unpack;

ghost use Rattle.std.specs.Prelude.{◌≤◌, length};

use crate::afternoon::answer_input;
use crate::case::open_case;
use crate::outcome::{print, print_refusal};
use crate::rooms::print_rooms;
use crate::unpack::{TEXT, unpack};
use server::open::{LOGINS, RECORD, TABLES};
use std::io;
use textfile::read_file;

// A file of packed cases.
const PACK: usize = 262144;

// The openings, one after the other, each with the arrays that the one before left.
fn run_openings(rt: &impl Print, pack: &[u8]) -> io::Result<()>
    requires { length pack.now ≤ 262144 }
{
    let mut users = [0u8; TEXT];
    let mut environments = [0u8; TEXT];
    let mut policy = [0u8; TEXT];
    let mut text = [0u8; TEXT];
    let mut tables = [0u8; TABLES];
    let mut logins = [0u16; LOGINS];
    let mut fields = [0u8; RECORD];
    let mut at: usize = 0;
    // A cursor: where the next case stands, the one before says.
    while at < pack.len() {
        let opened = open_case(
            pack,
            at,
            &mut users,
            &mut environments,
            &mut policy,
            &mut text,
            &mut tables,
            &mut logins,
            &mut fields,
        );
        let done = opened.done;
        print(rt, done)?;
        at = opened.to;
    }
    Ok(())
}

// The afternoons: an opening, and the lines of an input. The last leaves the state of document 01's example.
fn run_afternoons(rt: &impl Print, pack: &[u8]) -> io::Result<()>
    requires { length pack.now ≤ 262144 }
{
    let mut users = [0u8; TEXT];
    let mut environments = [0u8; TEXT];
    let mut policy = [0u8; TEXT];
    let mut text = [0u8; TEXT];
    let mut input = [0u8; TEXT];
    let mut tables = [0u8; TABLES];
    let mut logins = [0u16; LOGINS];
    let mut fields = [0u8; RECORD];
    let mut at: usize = 0;
    // A cursor: where the next case stands, the one before says.
    while at < pack.len() {
        let opened = open_case(
            pack,
            at,
            &mut users,
            &mut environments,
            &mut policy,
            &mut text,
            &mut tables,
            &mut logins,
            &mut fields,
        );
        let done = opened.done;
        if print_refusal(rt, done)? {
            return Ok(());
        }
        let i = unpack(pack, opened.to, &mut input);
        answer_input(rt, &tables, &mut logins, &mut fields, &input[..i.length])?;
        at = i.to;
    }
    print_rooms(rt, &tables, &mut logins, &mut fields)
}

fn main(rt: HostRuntime) -> io::Result<()> {
    let mut pack = [0u8; PACK];
    let n = read_file(&rt, "openings", &mut pack);
    run_openings(&rt, &pack[..n])?;
    let m = read_file(&rt, "afternoons", &mut pack);
    run_afternoons(&rt, &pack[..m])
}
