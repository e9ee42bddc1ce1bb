//! The complete rows at the start of a text that may have been cut off.
ghost use Rattle.std.specs.Prelude.{◌≡◌, ◌≤◌, length, take};
ghost use Rattle.ob_csv.specs.Rows.{rows_of};
ghost use Rattle.ob_csv.specs.Scanning.{Ends, behind_plain, mark_length};
ghost use Rattle.ob_csv.specs.WholeRows.{WholeRowsStand, whole_rows};

/// What the reader expects between two bytes of a text.
#[derive(Clone, Copy)]
enum Place {
    // A row may begin.
    RowStart,
    // After a comma.
    FieldStart,
    // In a field without quotes.
    Field,
    // In a field with quotes.
    Quoted,
    // After a quote in a field with quotes: the field is closed, or the quote is doubled.
    Closed,
}

/// The length in bytes of a text's complete rows, those with their line end in the text. A last row
/// that may continue is left out. The text may have been cut off anywhere.
pub fn whole_rows_end(text: &[u8]) -> usize
    ensures within { result ≤ length text.now }
    ensures rows { rows_of (take result text.now) ≡ whole_rows text.now }
{
    let mark = mark_length(text);
    mark + last_row_end(&text[mark..])
}

/// States that if a text begins with some part, its rows begin with the complete rows of that part.
/// This function does nothing when it runs.
pub fn whole_rows_law()
    ensures { WholeRowsStand }
{}

/// The length of the UTF-8 byte order mark at the start of a text; 0 if there is none.
fn mark_length(text: &[u8]) -> usize
    ensures { result ≡ mark_length text.now }
{
    if text.len() >= 3 && text[0] == 0xEF && text[1] == 0xBB && text[2] == 0xBF {
        3
    } else {
        0
    }
}

/// The end of the last complete row of a text without a byte order mark.
fn last_row_end(text: &[u8]) -> usize
    ensures { Ends text.now result }
{
    let mut place = Place::RowStart;
    let mut end = 0;
    for at in 0..text.len() {
        place = place.behind(text[at]);
        if let Place::RowStart = place {
            end = at + 1;
        }
    }
    end
}

impl Place {
    ghost use Rattle.std.specs.Prelude.{◌≡◌};
    ghost use Rattle.ob_csv.specs.Scanning.{place_behind};

    /// The place after one more byte.
    fn behind(self, byte: u8) -> Place
        ensures { result ≡ place_behind self byte }
    {
        match self {
            Place::RowStart | Place::FieldStart | Place::Closed => {
                if byte == b'"' {
                    Place::Quoted
                } else {
                    behind_plain(byte)
                }
            }
            Place::Field => behind_plain(byte),
            Place::Quoted => {
                if byte == b'"' {
                    Place::Closed
                } else {
                    Place::Quoted
                }
            }
        }
    }
}

/// The place after a byte that isn't a quote.
fn behind_plain(byte: u8) -> Place
    ensures { result ≡ behind_plain byte }
{
    match byte {
        b'\n' | b'\r' => Place::RowStart,
        b',' => Place::FieldStart,
        _ => Place::Field,
    }
}
