// Every limit of documents 01 and 02, stated once, in the order of the model's definitions. A proof fails where the two differ.

// A name of a user, a role, a login key or an environment line; a key of a record or a policy path, a value of an environment line.
pub const MAX_NAME: usize = 16;

pub const MAX_KEY: usize = 16;

// Keys of a path, and steps of a policy path.
pub const MAX_DEPTH: usize = 6;

// A string of a value.
pub const MAX_STRING: usize = 32;

pub const MAX_FIELDS: usize = 256;

// Names in a list of a policy path, and the path in the standard spelling.
pub const MAX_LISTED: usize = 4;

pub const MAX_PATH_TEXT: usize = 121;

pub const MAX_USERS: usize = 32;

pub const MAX_QUOTA: u64 = 256;

// Environment lines of a user.
pub const MAX_BINDINGS: usize = 16;

// Policy lines.
pub const MAX_RULES: usize = 64;

// A text of an opening, and a request line.
pub const MAX_TEXT: usize = 65536;

pub const MAX_LINE: usize = 256;

pub const MAX_SESSION: u64 = 4294967295;

// Numbers that the list of a push must have room for.
pub const LIST_ROOM: usize = 32;

// A session's number has the logins in its lowest bits, this many, and the user's index above them, that is times 65,536. The logins end at the last number that fits.
pub const LOGIN_BITS: u32 = 16;

pub const MAX_LOGINS: u16 = 65535;

pub const MAX_COPY: usize = 51069;
