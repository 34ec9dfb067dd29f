// The saved text of the whole record.
ghost use Rattle.server.specs.Replies.{Saved};

use crate::answer::Reply;
use crate::open::RECORD;
use refusals::Refusal;
use writer::saved::{MOST_SAVED, Shown, put_saved};

// Save, with any buffer: the text is written if it fits. It is measured only where there is no room for the longest.
pub fn save(fields: &[u8; RECORD], buffer: &mut [u8]) -> Result<Reply, Refusal>
    ensures { Saved fields.now buffer.old result buffer.new }
{
    if buffer.len() < MOST_SAVED {
        let length = put_saved(&mut buffer[..0], 0, fields, Shown::All);
        if buffer.len() < length {
            return Err(Refusal::NoRoom);
        }
    }
    let length = put_saved(buffer, 0, fields, Shown::All);
    Ok(Reply::Length(length))
}
