// What a request and a save answer.

// The number of the session that a login opened; how many first bytes of the buffer were written; that a request is accepted, and for
// the caller alone how many numbers the list received, and from which position on the line says what they are told.
#[derive(Clone, Copy, PartialEq, Eq)]
pub enum Reply {
    Session(u32),
    Length(usize),
    Accepted(usize, usize),
}
