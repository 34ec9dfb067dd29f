// A packed case's four texts, unpacked and opened.
ghost use Rattle.std.specs.Prelude.{◌≤◌, ◌<◌, ◌^◌, length};

use crate::unpack::unpack;
use opening::answer::Fault;
use server::open::{LOGINS, RECORD, TABLES, open};

// Where the next text's pieces stand, and what the opening came to.
#[derive(Clone, Copy)]
pub struct Opened {
    pub to: usize,
    pub done: Result<(), Fault>,
}

// The texts that stand at `at`, each into its buffer, where the text of the case before is left, and all opened.
pub fn open_case(
    pack: &[u8],
    at: usize,
    users: &mut [u8],
    environments: &mut [u8],
    policy: &mut [u8],
    text: &mut [u8],
    tables: &mut [u8; TABLES],
    logins: &mut [u16; LOGINS],
    fields: &mut [u8; RECORD],
) -> Opened
    requires { (length pack.now ≤ 262144) × (at < 2 ^ 32) }
    ensures { (at ≤ result.to) × (result.to < 2 ^ 32) × (at < length pack.now → at < result.to) }
{
    let u = unpack(pack, at, users);
    let e = unpack(pack, u.to, environments);
    let p = unpack(pack, e.to, policy);
    let t = unpack(pack, p.to, text);
    let done = open(
        tables,
        logins,
        fields,
        &users[..u.length],
        &environments[..e.length],
        &policy[..p.length],
        &text[..t.length],
    );
    Opened { to: t.to, done }
}
