// The file's numbers: groups of seven bits, lowest group first, one byte a group, in the shortest form only.
#![tactic(auto)]

ghost use Rattle.std.specs.Prelude.{◌≡◌, ◌+◌, ◌≤◌, ◌<◌, ◌^◌, leb, length, drop};
ghost use Rattle.std.proofs.lemmas.List.Edits.{sets};
ghost use Rattle.number.specs.Numbers.{current_width, encode, form, told_form};
ghost use Rattle.number.specs.Numbers.{ReadsNumber, NumberLength, WritesNumber};

use refusals::{Found, No, Refusal, unless};

// What some bytes are worth as a number, with room for five groups of seven bits, and how many they are.
#[derive(Clone, Copy)]
struct Groups {
    value: u64,
    bytes: usize,
}

// Why some bytes are no number: they are cut, or none in its shortest form.
#[derive(Clone, Copy)]
enum Flaw {
    Cut,
    NoNumber,
}

// The current width: the longest form, in bytes, and the largest value.
const LONGEST: usize = 5;

const LARGEST: u64 = 4_294_967_295;

// The number of at most `left` bytes at a place.
fn read_form(s: &[u8], at: usize, left: usize) -> Result<Groups, Flaw>
    requires { left ≤ current_width.longest }
    ensures { told_form result ≡ form left (drop at s.now) }
{
    if left == 0 {
        return Err(Flaw::NoNumber);
    }
    if s.len() <= at {
        return Err(Flaw::Cut);
    }
    let group = u64::from(s[at]);
    if group < 128 {
        return Ok(Groups {
            value: group,
            bytes: 1,
        });
    }
    let above = read_form(s, at + 1, left - 1)?;
    if above.value == 0 {
        return Err(Flaw::NoNumber);
    }
    Ok(Groups {
        value: group - 128 + 128 * above.value,
        bytes: above.bytes + 1,
    })
}

// The number at a place of a slice, or refusal 1 or 2.
pub fn read_number(s: &[u8], at: usize) -> Result<Found<u32>, Refusal>
    ensures { ReadsNumber s.now at result }
{
    match read_form(s, at, LONGEST) {
        Ok(Groups { value, bytes }) => {
            if value > LARGEST {
                return Err(Refusal {
                    no: No::BadForm,
                    place: at,
                });
            }
            Ok(Found {
                value: value as u32,
                next: at + bytes,
            })
        }
        Err(Flaw::Cut) => Err(Refusal {
            no: No::InputEnds,
            place: s.len(),
        }),
        Err(Flaw::NoNumber) => Err(Refusal {
            no: No::BadForm,
            place: at,
        }),
    }
}

// How many bytes a value's groups have, of which at most `left` are left.
fn count_groups(value: u32, left: usize) -> usize
    requires { left ≤ current_width.longest }
    ensures { result ≡ length (encode left value) }
{
    if left == 0 {
        return 0;
    }
    let more = value / 128;
    if more == 0 {
        return 1;
    }
    1 + count_groups(more, left - 1)
}

// How many bytes a number's shortest form has.
pub fn number_length(value: u32) -> usize
    ensures { NumberLength value result }
{
    count_groups(value, LONGEST)
}

// Writes a value's groups, of which at most `left` are left, at a place where they have room.
fn write_groups(value: u32, left: usize, out: &mut [u8], at: usize)
    requires { (0 < left) × (value < 128 ^ left) × (at + length (encode left value) ≤ length out.old) }
    ensures { out.new ≡ sets out.old at (encode left value) }
{
    if value < 128 {
        out[at] = value as u8;
    } else {
        out[at] = (128 + value % 128) as u8;
        write_groups(value / 128, left - 1, out, at + 1);
    }
}

// Whether so many bytes have room at a place of a buffer of `len` bytes.
fn has_room(len: usize, at: usize, bytes: usize) -> bool
    ensures { result ≡ leb (at + bytes) len }
{
    at <= len && bytes <= len - at
}

// Writes a number in its shortest form at a place: 16 if it has no room there.
pub fn write_number(value: u32, out: &mut [u8], at: usize) -> Result<usize, Refusal>
    ensures { WritesNumber value out.old at result out.new }
{
    let bytes = number_length(value);
    unless(has_room(out.len(), at, bytes), No::BufferTooShort)?;
    write_groups(value, LONGEST, out, at);
    Ok(at + bytes)
}
