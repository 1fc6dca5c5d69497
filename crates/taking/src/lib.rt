// What a line asks of the desk, by a table of forms: a row for each request,
// with its word and the kinds of its fields.
#![tactic(auto)]

ghost use Rattle.std.specs.Prelude.{◌≡◌};
ghost use Rattle.forms.specs.Inside.{kinds_in};
ghost use Rattle.requests.specs.Along.{bad, fields_of, taken, taken_by, request_of_lem};

use forms::{BAD, Row};
use requests::Request;

// The octets of a line, at the most.
const LINE_MOST: usize = 81920;

// The fields of a request, at the most.
const FIELDS_MOST: usize = 8;

// The request that a bad line is.
fn none() -> Request
    ensures { result ≡ bad }
{
    Request {
        which: BAD,
        fields: [placing::nowhere(); FIELDS_MOST],
    }
}

// The fields of a line after the word that ends at `end`, by the letters of their kinds.
fn fields_in(row: Row, line: &[u8], end: usize, scratch: &mut [u8]) -> Request
    ensures { taken result scratch.new ≡
        taken_by row.which (fields_of (kinds_in 8 row.letters) 0 line.now end scratch.old 0) }
{
    let which = row.which;
    let mut letters = row.letters;
    let mut fields = [placing::nowhere(); FIELDS_MOST];
    let mut at = end;
    let mut before = 0;
    let mut next = 0;
    for slot in &mut fields {
        if letters == 0 {
            if at == line.len() {
                return Request { which, fields };
            }
            return none();
        }
        if line.len() <= at {
            return none();
        }
        let from = at + 1;
        let to = digits::word_end(line, from);
        let letter = (letters % 256) as u8;
        match typing::value_of(letter, before, &line[from..to], scratch, next) {
            Some(value) => {
                let field = placing::field_of(letter, value, next);
                *slot = field;
                before = field.value;
                next = next + field.count as usize;
            }
            None => return none(),
        }
        letters = letters / 256;
        at = to;
    }
    if at == line.len() {
        return Request { which, fields };
    }
    none()
}

// What a line asks. A line that is over 81920 octets long, or that no form fits, asks nothing; so
// does one whose octets the scratch has no room for, which 41032 octets always have.
pub fn request_of(line: &[u8], scratch: &mut [u8]) -> Request
    ensures { taken result scratch.new ≡
        request_of_lem line.now scratch.old }
{
    if LINE_MOST < line.len() {
        return none();
    }
    let end = digits::word_end(line, 0);
    let row = forms::form_of(&line[..end]);
    if row.which == BAD {
        return none();
    }
    let longer = row.longer;
    if longer == 0 {
        return fields_in(row, line, end, scratch);
    }
    let other = Row {
        which: row.which + 1,
        letters: longer,
        longer: 0,
    };
    let request = fields_in(row, line, end, scratch);
    if request.which == BAD {
        return fields_in(other, line, end, scratch);
    }
    request
}
