// The field at a position of an image: which one is due there, and whether it stands.
#![tactic(auto)]

ghost use Rattle.std.specs.Prelude.{◌≡◌, ◌≤◌};
ghost use Rattle.model.specs.Image.{field_at, field_reply};
ghost use Rattle.answers.specs.Field.{answer_of};

use answers::field::Field;
use answers::refusal::Refusal;

// The answer where a field of this tag and length is due at a position.
fn field_here(image: &[u8], at: usize, tag: u8, len: usize) -> Result<Field, Refusal>
    requires { (at ≤ 100000000) × (len ≤ 2000) }
    ensures { answer_of result ≡ field_reply image.now at (record { tag = tag; length = len }) }
{
    let start = at + fields::HEAD;
    let next = start + len;
    if image.len() < next {
        return Err(Refusal::NoImage);
    }
    if !fields::head_is(&image[at..], tag, len) {
        return Err(Refusal::NoImage);
    }
    Ok(Field {
        tag: u32::from(tag),
        start: start as u32,
        size: len as u32,
        next: next as u32,
    })
}

// The field at a position of an image: its tag, start and length of its contents, and the next position; or 9.
pub fn field_at(image: &[u8], at: usize) -> Result<Field, Refusal>
    ensures { answer_of result ≡ field_at image.now at }
{
    if at == 0 {
        return field_here(image, 0, fields::FIRST, fields::HEADER);
    }
    if at < fields::MEMBERS {
        return Err(Refusal::NoImage);
    }
    if image.len() < fields::MEMBERS {
        return Err(Refusal::NoImage);
    }
    if !fields::head_is(image, fields::FIRST, fields::HEADER) {
        return Err(Refusal::NoImage);
    }
    let r = fields::image_r(image);
    let len = fields::member_length(r);
    let w = fields::HEAD + len;
    let all = fields::image_count(image) * w;
    let o = at - fields::MEMBERS;
    if o == all {
        return field_here(image, at, fields::LAST, 0);
    }
    let starts = o % w == 0;
    if all < o || !starts {
        return Err(Refusal::NoImage);
    }
    field_here(image, at, fields::MEMBER, len)
}
