//! Laws of the bytes written in reply to requests.
ghost use Rattle.ob_desk.specs.Laws.{RepliesAreOneThing};

use ob_http_routes::answers_law;

/// States that the replies to a list of requests are exactly one text, and leave exactly one book.
pub fn replies_law()
    ensures { RepliesAreOneThing }
{
    answers_law();
}
