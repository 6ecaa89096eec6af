// Reading an image field by field: a reader that holds the image and its position, and hands out one field a call.
// All tests are left to `due::field_at`, `next_of` and `part_of`.
#![tactic(auto)]

ghost use Rattle.std.specs.Prelude.{◌≡◌};
ghost use Rattle.model.specs.Image.{field_at};
ghost use Rattle.answers.specs.Field.{answer_of};
ghost use Rattle.reader.specs.Read.{told, next_of, part_of, contents_of, advanced};

use answers::field::Field;
use answers::refusal::Refusal;

// The image, and the position of the field that is next.
#[derive(Drop)]
pub struct Reader<'a> {
    pub image: &'a [u8],
    pub at: usize,
}

// Where the reader stands after a field at a position, or none: past the field, or where it was.
pub fn next_of(f: Option<Field>, at: usize) -> usize
    ensures { result ≡ next_of (told f) at }
{
    match f {
        Some(field) => field.next as usize,
        None => at,
    }
}

// The part of a slice that starts at a place and has a size, or the empty part where the slice ends before it.
fn part(image: &[u8], start: u32, size: u32) -> &[u8]
    ensures { result.now ≡ part_of start size image.now }
{
    let a = start as usize;
    let e = a + size as usize;
    if e <= image.len() {
        return &image[a..e];
    }
    &image[0..0]
}

// The part of an image that is the contents of a field, or the empty part where there is none, or none within the image.
pub fn part_of(image: &[u8], f: Option<Field>) -> &[u8]
    ensures { result.now ≡ contents_of (told f) image.now }
{
    match f {
        Some(field) => part(image, field.start, field.size),
        None => part(image, 0, 0),
    }
}

// A reader of an image, at its first field.
pub fn new<'a>(image: &'a [u8]) -> Reader<'a>
    ensures { (result.image ≡ image.entry) × (result.at ≡ 0) }
{
    Reader { image, at: 0 }
}

// One field a call: the field at the reader's position, and the reader stands past it; or 9, and it stays.
pub fn pull<'s, 'a>(r: &'s mut Reader<'a>) -> Result<Field, Refusal>
    ensures { (answer_of result ≡ field_at r.old.image.now r.old.at) × (r.new ≡ advanced r.old) }
{
    let at = r.at;
    let f = due::field_at(r.image, at);
    r.at = next_of(f.ok(), at);
    f
}

// The part of the reader's image that is the contents of a field that it handed out, if it handed one out.
pub fn contents<'a>(r: Reader<'a>, f: Option<Field>) -> &'a [u8]
    ensures { result.now ≡ contents_of (told f) r.entry.image.now }
{
    part_of(r.image, f)
}
