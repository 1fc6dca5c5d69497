// What the desk answers to the requests for velocities: velocity, velocity-back, each in two forms.
#![tactic(auto)]

ghost use Rattle.std.specs.Prelude.{◌≡◌};
ghost use Rattle.octets.specs.Told.{told};
ghost use Rattle.printing.specs.Sheet.{sheet, pour};
ghost use Rattle.velocity.specs.Told.{known_told};
ghost use Rattle.requests.specs.Along.{said_in};
ghost use Rattle.velocity_lines.specs.Velocities.{typed_mark, mark_word, codes_line, coded_line, whole_in, course_line, known_line, velocity_line, velocity_long_line, back_long_line, velocities_line_lem};

use forms::{VELOCITY, VELOCITY_BACK, VELOCITY_LONG};
use octets::{Numbered, Refusal};
use requests::Request;
use velocity::{Codes, Course, Known, Mark, Velocity};

// The mark that a word is: up or down.
#[tactic(auto, unfolding(crate::specs::Velocities::typed_mark))]
fn mark_of(word: &[u8]) -> Option<Mark>
    ensures { result ≡ typed_mark word.now }
{
    match word {
        b"up" => Some(Mark::Upward),
        b"down" => Some(Mark::Downward),
        _ => None,
    }
}

// Puts a mark, and answers the next place.
fn put_mark(mark: Mark, out: &mut [u8], at: usize) -> usize
    ensures { sheet out.new result ≡
        pour (sheet out.old at) (mark_word mark) }
{
    match mark {
        Mark::Upward => printing::put_text(b" up", out, at),
        Mark::Downward => printing::put_text(b" down", out, at),
    }
}

// Says codes.
fn say_codes(codes: Codes, out: &mut [u8]) -> usize
    ensures { sheet out.new result ≡
        pour (sheet out.old 0) (codes_line codes) }
{
    match codes {
        Codes::Horizontal(b, s) => {
            let bearing = sayings::put_count(b"bearing ", b as usize, out, 0);
            sayings::put_count(b" speed ", s as usize, out, bearing)
        }
        Codes::WithVertical(b, s, u, mark) => {
            let bearing = sayings::put_count(b"bearing ", b as usize, out, 0);
            let speed = sayings::put_count(b" speed ", s as usize, out, bearing);
            let vertical = sayings::put_count(b" vertical ", u as usize, out, speed);
            put_mark(mark, out, vertical)
        }
    }
}

// Says codes, or the refusal.
#[tactic(auto, unfolding(crate::specs::Velocities::coded_line))]
fn say_coded(coded: Result<Codes, Refusal>, out: &mut [u8]) -> usize
    ensures { sheet out.new result ≡
        pour (sheet out.old 0) (coded_line (told coded)) }
{
    match coded {
        Ok(codes) => say_codes(codes, out),
        Err(why) => sayings::say_refusal(why.number(), out),
    }
}

// Codes two words that are measured values, and says the codes.
#[tactic(auto, unfolding(crate::specs::Velocities::velocity_line))]
fn say_velocity(bearing: &[u8], speed: &[u8], out: &mut [u8]) -> usize
    ensures { sheet out.new result ≡
        pour (sheet out.old 0)
        (velocity_line bearing.now speed.now) }
{
    let Some(b) = reals::real_of(bearing) else {
        return printing::put_text(b"bad line", out, 0);
    };
    let Some(s) = reals::real_of(speed) else {
        return printing::put_text(b"bad line", out, 0);
    };
    say_coded(coding::code(Velocity::Horizontal(b, s)), out)
}

// Codes three words that are measured values, with a mark, and says the codes.
#[tactic(auto, unfolding(crate::specs::Velocities::velocity_long_line))]
fn say_velocity_long(
    bearing: &[u8],
    speed: &[u8],
    vertical: &[u8],
    mark: &[u8],
    out: &mut [u8],
) -> usize
    ensures { sheet out.new result ≡
        pour (sheet out.old 0)
        (velocity_long_line bearing.now speed.now vertical.now mark.now) }
{
    let Some(b) = reals::real_of(bearing) else {
        return printing::put_text(b"bad line", out, 0);
    };
    let Some(s) = reals::real_of(speed) else {
        return printing::put_text(b"bad line", out, 0);
    };
    let Some(u) = reals::real_of(vertical) else {
        return printing::put_text(b"bad line", out, 0);
    };
    let Some(m) = mark_of(mark) else {
        return printing::put_text(b"bad line", out, 0);
    };
    say_coded(coding::code(Velocity::WithVertical(b, s, u, m)), out)
}

// The whole number that a value above -1 and below 65536 is, its fraction dropped; 0 for any other.
fn whole(x: f64) -> usize
    ensures { result ≡ whole_in x }
{
    if x > -1.0 {
        if x < 65536.0 {
            return std::num::truncating_f64_to_u64(x) as usize;
        }
    }
    0
}

// Puts bearing and speed at the front, and answers the next place.
fn put_course(course: Course, out: &mut [u8]) -> usize
    ensures { sheet out.new result ≡
        pour (sheet out.old 0) (course_line course) }
{
    let bearing = sayings::put_count(b"bearing ", whole(course.bearing), out, 0);
    sayings::put_count(b" speed ", whole(course.speed), out, bearing)
}

// Says what codes stand for, or the refusal.
#[tactic(auto, unfolding(crate::specs::Velocities::known_line))]
fn say_known(known: Result<Known, Refusal>, out: &mut [u8]) -> usize
    ensures { sheet out.new result ≡
        pour (sheet out.old 0) (known_line (known_told known)) }
{
    match known {
        Ok(Known::Horizontal(course)) => put_course(course, out),
        Ok(Known::WithVertical(course, u, mark)) => {
            let speed = put_course(course, out);
            let vertical = sayings::put_count(b" vertical ", whole(u), out, speed);
            put_mark(mark, out, vertical)
        }
        Err(why) => sayings::say_refusal(why.number(), out),
    }
}

// Reads codes and a word that is a mark, and says what they stand for.
#[tactic(auto, unfolding(crate::specs::Velocities::back_long_line))]
fn say_back_long(bearing: u16, speed: u16, vertical: u8, mark: &[u8], out: &mut [u8]) -> usize
    ensures { sheet out.new result ≡
        pour (sheet out.old 0)
        (back_long_line bearing speed vertical mark.now) }
{
    let Some(m) = mark_of(mark) else {
        return printing::put_text(b"bad line", out, 0);
    };
    say_known(
        courses::read(Codes::WithVertical(bearing, speed, vertical, m)),
        out,
    )
}

// Puts the answer's line to a request for a velocity at the front of `out`, and answers the next
// place. What `out` has no room for is left out.
#[tactic(auto, unfolding(crate::specs::Velocities::velocities_line_lem))]
pub fn velocities_line(request: Request, octets: &[u8], out: &mut [u8]) -> usize
    ensures { sheet out.new result ≡
        pour (sheet out.old 0)
        (velocities_line_lem request.which (said_in octets.now request.fields)) }
{
    let fields = request.fields;
    let bearing = fields[0];
    let speed = fields[1];
    let vertical = fields[2];
    let mark = fields[3];
    if request.which == VELOCITY {
        return say_velocity(
            pieces::stretch(octets, bearing.from, bearing.count as usize),
            pieces::stretch(octets, speed.from, speed.count as usize),
            out,
        );
    }
    if request.which == VELOCITY_LONG {
        return say_velocity_long(
            pieces::stretch(octets, bearing.from, bearing.count as usize),
            pieces::stretch(octets, speed.from, speed.count as usize),
            pieces::stretch(octets, vertical.from, vertical.count as usize),
            pieces::stretch(octets, mark.from, mark.count as usize),
            out,
        );
    }
    let bearing_code = (bearing.value % 65536) as u16;
    let speed_code = (speed.value % 65536) as u16;
    if request.which == VELOCITY_BACK {
        return say_known(
            courses::read(Codes::Horizontal(bearing_code, speed_code)),
            out,
        );
    }
    say_back_long(
        bearing_code,
        speed_code,
        (vertical.value % 256) as u8,
        pieces::stretch(octets, mark.from, mark.count as usize),
        out,
    )
}
