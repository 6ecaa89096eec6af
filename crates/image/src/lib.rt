// Saving and reading back: the image of a table, written and read.
#![tactic(auto)]

ghost use Rattle.std.specs.Prelude.{◌≡◌, ◌+◌, ◌*◌, ◌≤◌, length, get_or};
ghost use Rattle.model.specs.Table.{header_size, record_size, members_of, records_of, table_of, words_of};
ghost use Rattle.model.specs.Image.{member_fields, image_of, field_members, image_count, image_r, table_in};
ghost use Rattle.model.specs.Calls.{write_answer, write_bytes, read_answer, read_words};
ghost use Rattle.laws.specs.Bytes.{field_size};
ghost use Rattle.table.specs.FormedWords.{FormedWords};
ghost use Rattle.octets.specs.Placed.{placed};
ghost use Rattle.fields.specs.Fields.{first_size, image_size};
ghost use Rattle.answers.specs.Count.{answer_of};

use answers::refusal::Refusal;

// One field a member, for n records, after the first field: the position after them. By count, and no position is kept beside those of the loop, as
// `chunks_exact` and an end computed before would: so writing an image takes no more stack than its row in the header says.
fn write_fields(out: &mut [u8], ws: &[u32], r: usize, n: usize) -> usize
    requires { (r ≤ 8) × (n * record_size r ≤ length ws.now) × (first_size + n * field_size r ≤ length out.old) }
    ensures { (result ≡ first_size + n * field_size r) × (out.new ≡ placed first_size (member_fields (members_of r n ws.now)) out.old) }
{
    let w = words::record_size(r);
    let mut at = fields::MEMBERS;
    let mut left = &ws[..n * w];
    for _ in 0..n {
        let (part, others) = left.split_at(w);
        fields::write_field(out, at, part, r);
        at += fields::field_size(w);
        left = others;
    }
    at
}

// The image of a well-formed table, at the front of the bytes, and how many they are; those after it stay.
fn write_image(t: &[u32], out: &mut [u8]) -> usize
    requires formed_words { FormedWords t.now }
    requires t_in_bounds { image_size (get_or t.now 0 0) (get_or t.now 1 0) ≤ length out.old }
    ensures { (result ≡ image_size (get_or t.now 0 0) (get_or t.now 1 0)) × (out.new ≡ placed 0 (image_of (table_of t.now)) out.old) }
{
    let r = t[words::R] as usize;
    let n = t[words::COUNT] as usize;
    fields::put_header(out, r, n);
    let end = write_fields(out, words::records_of(t), r, n);
    fields::put_head(out, end, fields::LAST, 0);
    end + fields::HEAD
}

// Writes the image of the table: the bytes written, or 1 or 10 with the bytes unchanged.
pub fn write(t: &[u32], out: &mut [u8]) -> Result<u32, Refusal>
    ensures { (answer_of result ≡ write_answer t.now out.old) × (out.new ≡ write_bytes t.now out.old) }
{
    if !table::well_formed(t) {
        return Err(Refusal::NotWellFormed);
    }
    let size = fields::image_size(t[words::R] as usize, t[words::COUNT] as usize);
    if out.len() < size {
        return Err(Refusal::TooShort);
    }
    Ok(write_image(t, out) as u32)
}

// The records of n members, from their fields, after the header.
fn read_fields(t: &mut [u32], f: &[u8], r: usize, n: usize)
    requires { (r ≤ 8) × (n * field_size r ≤ length f.now) × (header_size + n * record_size r ≤ length t.old) }
    ensures { t.new ≡ placed header_size (records_of (field_members r n f.now)) t.old }
{
    let w = fields::HEAD + fields::member_length(r);
    let mut at = words::HEADER;
    for part in f[..n * w].chunks_exact(w) {
        fields::read_field(t, at, part, r);
        at += words::record_size(r);
    }
}

// The table that an image says, at the front of the words; those after it stay.
fn read_image(t: &mut [u32], image: &[u8])
    requires { (image_r image.now ≤ 8) × (image_size (image_r image.now) (image_count image.now) ≤ length image.now)
        × (header_size + image_count image.now * record_size (image_r image.now) ≤ length t.old) }
    ensures { t.new ≡ placed 0 (words_of (table_in image.now)) t.old }
{
    let r = fields::image_r(image);
    let n = fields::image_count(image);
    t[words::R] = r as u32;
    t[words::COUNT] = n as u32;
    t[words::STEPS] = 0;
    read_fields(t, &image[fields::MEMBERS..], r, n);
}

// Reads an image into the words: the member count, or 9 or 10 with the words unchanged. The old words are never looked at.
pub fn read(t: &mut [u32], image: &[u8]) -> Result<u32, Refusal>
    ensures { (answer_of result ≡ read_answer t.old image.now) × (t.new ≡ read_words t.old image.now) }
{
    if !image_test::is_image(image) {
        return Err(Refusal::NoImage);
    }
    let n = fields::image_count(image);
    if t.len() < words::offset(fields::image_r(image), n) {
        return Err(Refusal::TooShort);
    }
    read_image(t, image);
    Ok(n as u32)
}
