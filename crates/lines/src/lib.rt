// The text of a table taken apart: lines, and the values in a line.
#![tactic(auto)]

ghost use Rattle.std.specs.Prelude.{◌≡◌, [], ◌≤◌, length, get_or};
ghost use Rattle.model.specs.Base.{among};
ghost use Rattle.model.specs.Limits.{max_text};
ghost use Rattle.model.specs.Table.{split, under};

use lexical::slice::same;

// How many values a line has: byte by byte, since `split` takes twice the time where values are empty.
pub fn count(line: &[u8]) -> usize
    requires { length line.now ≤ max_text }
    ensures { result ≡ length (split line.now) }
{
    let mut n: usize = 1;
    for &b in line {
        if b == b';' {
            n += 1;
        }
    }
    n
}

// The j-th value of a line: nothing, where it has fewer.
pub fn value(line: &[u8], j: usize) -> &[u8]
    ensures { result.now ≡ get_or (split line.now) j [] }
{
    line.split(|&b| b == b';').nth(j).unwrap_or_default()
}

// Whether a head has a column of the name.
pub fn has_column(head: &[u8], name: &[u8]) -> bool
    requires { length head.now ≤ max_text }
    ensures { result ≡ among name.now (split head.now) }
{
    head.split(|&b| b == b';').any(|column| same(name, column))
}

// The value of a line under the column of the name: head and line are gone through side by side.
pub fn value_under<'a>(head: &[u8], line: &'a [u8], name: &[u8]) -> &'a [u8]
    requires { length head.now ≤ max_text }
    ensures { result.now ≡ under (split head.now) (split line.now) name.now }
{
    let columns = head.split(|&b| b == b';');
    let values = line.split(|&b| b == b';');
    columns
        .zip(values)
        .find(|(column, _)| same(column, name))
        .map(|(_, value)| value)
        .unwrap_or_default()
}
