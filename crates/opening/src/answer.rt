// Why an opening is refused.
use refusals::Refusal;

// The ground; the text, 1 users, 2 environments, 3 policy, 4 record; the line, 0 where it is the whole text's.
#[derive(Clone, Copy, PartialEq, Eq)]
pub struct Fault {
    pub refusal: Refusal,
    pub text: usize,
    pub line: usize,
}
