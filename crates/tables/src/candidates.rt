// Whom a policy line may admit: who holds the keys at its environment steps as values. Found out once for each key of a path, for all lines.
ghost use Rattle.std.specs.Prelude.{◌≡◌, true, List, [], ℕ, ◌≤◌, ◌<◌, length, get_or};
ghost use Rattle.model.specs.Limits.{max_depth};
ghost use Rattle.model.specs.Fields.{Keys};
ghost use Rattle.model.specs.Tables.{User, user_at};
ghost use Rattle.masks.specs.Bits.{bit_at};
ghost use Rattle.layout.specs.Layout.{slot_count};
ghost use Rattle.paths.specs.Layout.{path_slot, path_in};
ghost use Rattle.paths.specs.Fields.{shared};
ghost use Rattle.steps.specs.Steps.{steps_slot, steps_in};
ghost use Rattle.matching.specs.Parts.{may_match};
ghost use Rattle.tables.specs.Memory.{users_in, user_count};
ghost use Rattle.tables.specs.Grants.{holds_value, Found, Covers};

use crate::memory::{TABLES, USER, bindings};
use layout::counted;
use layout::counted::count;
use layout::table::row_at;
use lexical::limits::MAX_DEPTH;
use masks::{both, first_places, with_bit};
use matching::path::{asks, has_value};
use paths::key::key_at;
use steps::policy::STEP;

// What was found out of a path's keys, kept for a path that shares the first n of them: of the others it is forgotten.
pub fn keep_first(found: &mut [Option<u32>; MAX_DEPTH], n: usize)
    requires { length found.old ≡ max_depth }
    ensures { (us : List User) (p q : Keys) → n ≤ shared p q → Found us p found.old → Found us q found.new }
{
    for i in n..MAX_DEPTH {
        found[i] = None;
    }
}

// Who of the n users has an environment line with this value.
fn holders(tables: &[u8; TABLES], n: usize, key: &[u8]) -> u32
    requires { n ≡ user_count tables.now }
    ensures { (k : ℕ) → bit_at result k ≡ holds_value key.now (user_at (users_in tables.now) k) }
{
    let mut held: u32 = 0;
    for j in 0..n {
        if has_value(bindings(row_at(tables, USER, j)), key) {
            held = with_bit(held, j);
        }
    }
    held
}

// Who holds the i-th key of a path as a value: found out when it is first asked, which `None` says it was not.
fn holders_at(
    found: &mut [Option<u32>; MAX_DEPTH],
    tables: &[u8; TABLES],
    n: usize,
    path: &[u8],
    i: usize,
) -> u32
    requires path_slot_in_bounds { (path_slot ≤ length path.now) × (i < slot_count max_depth path.now) × (n ≡ user_count tables.now) }
    requires found { Found (users_in tables.now) (path_in path.now) found.old }
    ensures by_index { (k : ℕ) → bit_at result k ≡ holds_value (get_or (path_in path.now) i []) (user_at (users_in tables.now) k) }
    ensures found_2 { Found (users_in tables.now) (path_in path.now) found.new }
{
    if let Some(held) = found[i] {
        return held;
    }
    let mask = holders(tables, n, key_at(path, i));
    found[i] = Some(mask);
    mask
}

// Those of a mask whom the i-th step of a policy path may admit: an environment step admits nobody who does not hold the key.
fn admitted(
    mask: u32,
    found: &mut [Option<u32>; MAX_DEPTH],
    tables: &[u8; TABLES],
    n: usize,
    steps: &[u8],
    path: &[u8],
    i: usize,
) -> u32
    requires steps_slot_in_bounds { (steps_slot ≤ length steps.now) × (path_slot ≤ length path.now) × (n ≡ user_count tables.now) }
    requires path_value { (may_match (steps_in steps.now) (path_in path.now) ≡ true) × (i < slot_count max_depth steps.now) }
    requires found { Found (users_in tables.now) (path_in path.now) found.old }
    requires covers { Covers (users_in tables.now) (steps_in steps.now) (path_in path.now) mask }
    ensures covers_2 { Covers (users_in tables.now) (steps_in steps.now) (path_in path.now) result }
    ensures found_2 { Found (users_in tables.now) (path_in path.now) found.new }
{
    if !asks(counted::row_at(steps, STEP, i)) {
        return mask;
    }
    both(mask, holders_at(found, tables, n, path, i))
}

// Those of the n users whom a policy path that may match can admit: nobody is left out for whom it matches.
pub fn candidates(
    found: &mut [Option<u32>; MAX_DEPTH],
    tables: &[u8; TABLES],
    n: usize,
    steps: &[u8],
    path: &[u8],
) -> u32
    requires steps_slot_in_bounds { (steps_slot ≤ length steps.now) × (path_slot ≤ length path.now) × (n ≡ user_count tables.now) }
    requires path_value { may_match (steps_in steps.now) (path_in path.now) ≡ true }
    requires found { Found (users_in tables.now) (path_in path.now) found.old }
    ensures covers { Covers (users_in tables.now) (steps_in steps.now) (path_in path.now) result }
    ensures found_2 { Found (users_in tables.now) (path_in path.now) found.new }
{
    let m = count(steps, MAX_DEPTH);
    let mut mask = first_places(n);
    for i in 0..m {
        mask = admitted(mask, found, tables, n, steps, path, i);
    }
    mask
}
