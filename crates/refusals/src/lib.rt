// Why a text or a request is refused: a name for each ground that documents 01 and 02 number.
#![tactic(auto)]

ghost use Rattle.std.specs.Prelude.{◌≡◌};
ghost use Rattle.refusals.specs.Numbers.{number_of};

// In the documents' order, each with its sentence.
#[derive(Clone, Copy, PartialEq, Eq)]
pub enum Refusal {
    // head not exactly its names, each once, ended by 0A
    Head = 1,
    // wrong number of fields, a badly formed field other than a path, or no final 0A
    Row,
    // policy path not as above
    Path,
    // one line too many
    TableFull,
    // the first WRITE line that tangles with an earlier one; a field tangles with a WRITE line
    Conflict,
    // user repeated, or the same environment line twice; a key twice in one object
    Repeated,
    // user not in the users
    UnknownUser,
    // not in the grammar
    NotRecord,
    // fields plus all allowances above 256
    TooManyFields,
    // longer than 65,536 bytes
    TooLong,
    // a line that cannot be taken apart
    NotRequest,
    // user unknown or key wrong
    WrongLogin,
    // the user has a session
    HasSession,
    // no open session has this number
    NoSession,
    // the lent buffer is shorter than the text; the lent delivery list has fewer than 32 numbers
    NoRoom,
    // the user may not write the path
    NoRight,
    // the field is absent and the user has created as many as the allowance
    QuotaUsed,
    // the user has had 65,535 logins
    LoginsUsed,
}

impl Refusal {
    // The documents' number.
    pub fn number(self) -> usize
        ensures { result ≡ number_of self }
    {
        self as usize
    }
}
