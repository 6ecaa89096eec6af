// The fields of an image: their sizes and heads, the first field, and one member's. For `image_test`, `image` and `due`; a caller of the library uses none of this.
#![tactic(auto)]

ghost use Rattle.std.specs.Prelude.{◌≡◌, ◌∷◌, ℕ, ◌+◌, ◌≤◌, ◌<◌, length, drop};
ghost use Rattle.model.specs.Table.{record_size, member_of, record_of};
ghost use Rattle.model.specs.Image.{bytes_of, member_field, field_head, member_length, field_member, image_r, image_count};
ghost use Rattle.laws.specs.Bytes.{field_size};
ghost use Rattle.octets.specs.Placed.{placed};
ghost use Rattle.fields.specs.Fields.{first_size, image_size, head_is, header_bytes, image_steps, id_in, pending_in, candidate_in};

// The tag of the first field.
pub const FIRST: u8 = 1;

// The tag of a member's field.
pub const MEMBER: u8 = 2;

// The tag of the last field.
pub const LAST: u8 = 3;

// The bytes before a field's contents: its tag and, in two bytes, their length.
pub const HEAD: usize = 3;

// The bytes of the first field's contents: r, member count, and a step count that is 0 always.
pub const HEADER: usize = 7;

// Where the first field has r.
const R: usize = HEAD;

// Where it has the member count.
const COUNT: usize = R + 1;

// Where it has the step count.
const STEPS: usize = COUNT + 2;

// Where the members' fields start.
pub const MEMBERS: usize = HEAD + HEADER;

// Where a member's field has its identifier, and then its predecessor.
const ID: usize = HEAD;

// Where it has what is pending.
const PENDING: usize = ID + 8;

// Where it has its candidate, and then its list and its step count.
const CANDIDATE: usize = PENDING + 1;

// The bytes of the field of a record of w words: four for each. Pending takes one of its four; the head takes the others.
pub fn field_size(w: usize) -> usize
    requires { w ≤ record_size 255 }
    ensures { (r : ℕ) → w ≡ record_size r → result ≡ field_size r }
{
    4 * w
}

// The bytes of the contents of a member's field.
pub fn member_length(r: usize) -> usize
    requires { r ≤ 255 }
    ensures { result ≡ member_length r }
{
    field_size(words::record_size(r)) - HEAD
}

// The bytes of an image with n members and lists of length r.
pub fn image_size(r: usize, n: usize) -> usize
    requires { (r ≤ 8) × (n ≤ 256) }
    ensures { (result ≡ image_size r n) × (result ≤ image_size 8 256) }
{
    MEMBERS + HEAD + n * field_size(words::record_size(r))
}

// Does a field of this tag and length begin at the front?
pub fn head_is(bs: &[u8], tag: u8, len: usize) -> bool
    requires { field_head ≤ length bs.now }
    ensures { result ≡ head_is bs.now tag len }
{
    bs[0] == tag && octets::number2(bs, 1) == len
}

// The head of a field: its tag and the length of its contents.
pub fn put_head(out: &mut [u8], at: usize, tag: u8, len: usize)
    requires { at + field_head ≤ length out.old }
    ensures { out.new ≡ placed at (tag ∷ bytes_of 2 len) out.old }
{
    out[at] = tag;
    octets::put2(out, at + 1, len);
}

// The first field: r, member count, step count 0.
pub fn put_header(out: &mut [u8], r: usize, n: usize)
    requires { first_size ≤ length out.old }
    ensures { out.new ≡ placed 0 (header_bytes r n) out.old }
{
    put_head(out, 0, FIRST, HEADER);
    out[R] = (r % 256) as u8;
    octets::put2(out, COUNT, n);
    octets::put4(out, STEPS, 0);
}

// The r that the first field says.
pub fn image_r(image: &[u8]) -> usize
    requires { first_size ≤ length image.now }
    ensures { (result ≡ image_r image.now) × (result < 256) }
{
    usize::from(image[R])
}

// The member count that it says.
pub fn image_count(image: &[u8]) -> usize
    requires { first_size ≤ length image.now }
    ensures { (result ≡ image_count image.now) × (result < 65536) }
{
    octets::number2(image, COUNT)
}

// The step count that it says.
pub fn image_steps(image: &[u8]) -> u32
    requires { first_size ≤ length image.now }
    ensures { result ≡ image_steps image.now }
{
    octets::number4(image, STEPS)
}

// The identifier that the member's field at the front says.
pub fn id_of(f: &[u8]) -> u32
    requires { field_size 0 ≤ length f.now }
    ensures { result ≡ id_in f.now }
{
    octets::number4(f, ID)
}

// What it says of pending.
pub fn pending_of(f: &[u8]) -> u8
    requires { field_size 0 ≤ length f.now }
    ensures { result ≡ pending_in f.now }
{
    f[PENDING]
}

// The candidate that it says.
pub fn candidate_of(f: &[u8]) -> u32
    requires { field_size 0 ≤ length f.now }
    ensures { result ≡ candidate_in f.now }
{
    octets::number4(f, CANDIDATE)
}

// The field of the member whose record the part holds.
pub fn write_field(out: &mut [u8], at: usize, ws: &[u32], r: usize)
    requires { (r ≤ 8) × (length ws.now ≡ record_size r) × (at + field_size r ≤ length out.old) }
    ensures { out.new ≡ placed at (member_field (member_of r ws.now)) out.old }
{
    put_head(out, at, MEMBER, member_length(r));
    octets::put_words(out, at + ID, &ws[0..2]);
    out[at + PENDING] = (ws[words::PENDING] % 256) as u8;
    octets::put_words(out, at + CANDIDATE, &ws[3..]);
}

// The record of the member whose field the part holds.
pub fn read_field(t: &mut [u32], at: usize, bs: &[u8], r: usize)
    requires { (r ≤ 8) × (length bs.now ≡ field_size r) × (at + record_size r ≤ length t.old) }
    ensures { t.new ≡ placed at (record_of (field_member r (drop field_head bs.now))) t.old }
{
    octets::get_words(t, at, &bs[ID..], 2);
    t[at + 2] = u32::from(bs[PENDING]);
    octets::get_words(t, at + 3, &bs[CANDIDATE..], words::record_size(r) - 3);
}
