// Opening the four texts: all or nothing.
ghost use Rattle.std.specs.Prelude.{◌≡◌};
ghost use Rattle.model.specs.Opening.{check_length};
ghost use Rattle.refusals.specs.Numbers.{answer_by};
ghost use Rattle.opening.specs.Memory.{arrays};
ghost use Rattle.opening.specs.Answers.{texts_of, fault_of, Opens};

use crate::answer::Fault;
use crate::fields::{open_record, set_masks};
use crate::store::{copy_fields, copy_tables};
use crate::texts::open_tables;
use lexical::limits::MAX_TEXT;
pub use record::table::RECORD;
use refusals::Refusal;
pub use sessions::LOGINS;
pub use tables::memory::TABLES;

// Refuses the text with this number if it is longer than 65,536 bytes.
fn check_length(text: usize, s: &[u8]) -> Result<(), Fault>
    ensures { answer_by fault_of result ≡ check_length text s.now }
{
    if MAX_TEXT < s.len() {
        return Err(Fault {
            refusal: Refusal::TooLong,
            text,
            line: 0,
        });
    }
    Ok(())
}

// The four texts opened together: refused, the three arrays are as they were; accepted, they are those of the new state, byte for byte, with the masks that the policy gives.
pub fn open(
    tables: &mut [u8; TABLES],
    logins: &mut [u16; LOGINS],
    fields: &mut [u8; RECORD],
    users: &[u8],
    environments: &[u8],
    policy: &[u8],
    text: &[u8],
) -> Result<(), Fault>
    ensures { Opens
        (arrays tables.old logins.old fields.old)
        (texts_of users.now environments.now policy.now text.now)
        result
        (arrays tables.new logins.new fields.new) }
{
    check_length(1, users)?;
    check_length(2, environments)?;
    check_length(3, policy)?;
    check_length(4, text)?;
    let mut memory = [0u8; TABLES];
    open_tables(&mut memory, users, environments, policy)?;
    let mut table = [0u8; RECORD];
    open_record(&memory, &mut table, text)?;
    set_masks(&memory, &mut table);
    copy_tables(tables, &memory);
    copy_fields(fields, &table);
    *logins = [0u16; LOGINS];
    Ok(())
}
