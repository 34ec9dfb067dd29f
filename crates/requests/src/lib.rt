// A request line taken apart.
#![tactic(auto)]

ghost use Rattle.model.specs.Fields.{Keys};
ghost use Rattle.model.specs.Requests.{read_login, read_get, read_push, read_logout, request_of};
ghost use Rattle.paths.specs.Layout.{path_in};
ghost use Rattle.requests.specs.Lines.{Behind, ReadsAs, AsksFor, SlotAfter};

use lexical::class::is_name;
use lexical::limits::{MAX_LINE, MAX_SESSION};
use lexical::number::number;
use lexical::slice::{starts, until};
use paths::field::{PATH, read_path};
use values::value::{Scalar, value_at};

// What a session asks for: a copy; a value for the path in the slot, both of which stand in the line from a position on; or its end.
#[derive(Clone, Copy)]
pub enum Ask {
    Get,
    Push(usize, Scalar),
    Logout,
}

// A login, with the positions where the user begins and ends: behind the `;` there stands the key. Or what the session of a number asks for.
#[derive(Clone, Copy)]
pub enum Request {
    Login(usize, usize),
    InSession(u32, Ask),
}

// Where a line goes on behind the word that it begins with.
fn behind(line: &[u8], word: &[u8]) -> Option<usize>
    ensures { Behind word.now line.now result }
{
    if starts(line, 0, word) {
        Some(word.len())
    } else {
        None
    }
}

// `LOGIN;user;key`
fn login_line(line: &[u8]) -> Option<Request>
    ensures { (p : Keys) → ReadsAs read_login line.now p result }
{
    let from = behind(line, b"LOGIN;")?;
    let cut = until(line, from, b';');
    if cut == line.len() {
        return None;
    }
    if !is_name(&line[from..cut]) {
        return None;
    }
    let key = cut + 1;
    if !is_name(&line[key..]) {
        return None;
    }
    Some(Request::Login(from, cut))
}

// A word with a session number behind it and nothing more, and what it asks for.
fn ask_line(line: &[u8], word: &[u8], ask: Ask) -> Option<Request>
    ensures { AsksFor word.now ask line.now result }
{
    let from = behind(line, word)?;
    let session = number(&line[from..], MAX_SESSION)?;
    Some(Request::InSession(session as u32, ask))
}

// `GET;session`
fn get_line(line: &[u8]) -> Option<Request>
    ensures { (p : Keys) → ReadsAs read_get line.now p result }
{
    ask_line(line, b"GET;", Ask::Get)
}

// `PUSH;session;path;value`, the path read into the slot
fn push_line(line: &[u8], path: &mut [u8; PATH]) -> Option<Request>
    ensures reads_as { ReadsAs read_push line.now (path_in path.new) result }
    ensures slot_after { SlotAfter result path.old path.new }
{
    let from = behind(line, b"PUSH;")?;
    let a = until(line, from, b';');
    if a == line.len() {
        return None;
    }
    let at = a + 1;
    let b = until(line, at, b';');
    if b == line.len() {
        return None;
    }
    let session = number(&line[from..a], MAX_SESSION)?;
    let slot = read_path(&line[at..b])?;
    let (value, end) = value_at(line, b + 1)?;
    if end != line.len() {
        return None;
    }
    *path = slot;
    Some(Request::InSession(session as u32, Ask::Push(at, value)))
}

// `LOGOUT;session`
fn logout_line(line: &[u8]) -> Option<Request>
    ensures { (p : Keys) → ReadsAs read_logout line.now p result }
{
    ask_line(line, b"LOGOUT;", Ask::Logout)
}

// What a line asks for, if it can be taken apart.
pub fn parse(line: &[u8], path: &mut [u8; PATH]) -> Option<Request>
    ensures reads_as { ReadsAs request_of line.now (path_in path.new) result }
    ensures slot_after { SlotAfter result path.old path.new }
{
    if MAX_LINE < line.len() {
        return None;
    }
    if let Some(login) = login_line(line) {
        return Some(login);
    }
    if let Some(get) = get_line(line) {
        return Some(get);
    }
    if let Some(push) = push_line(line, path) {
        return Some(push);
    }
    logout_line(line)
}
