// The test of an image: are bytes the writing of a well-formed table? For `image`; no byte past the end is read.
#![tactic(auto)]

ghost use Rattle.std.specs.Prelude.{◌≡◌, ◌+◌, ◌*◌, ◌≤◌, length};
ghost use Rattle.model.specs.Image.{field_head, is_image};
ghost use Rattle.laws.specs.Bytes.{field_size};
ghost use Rattle.image_test.specs.Tests.{field_right, fields_right};

// Is the field that the part holds a member's, with an identifier of at least lo, and right?
#[tactic(auto, unfolding(crate::specs::Tests::field_right, table::specs::Tests::right_pending))]
fn field_ok(f: &[u8], r: usize, lo: usize) -> bool
    requires { (r ≤ 8) × (length f.now ≡ field_size r) }
    ensures { result ≡ field_right r lo f.now }
{
    let pending = fields::pending_of(f);
    fields::head_is(f, fields::MEMBER, fields::member_length(r))
        && lo <= fields::id_of(f) as usize
        && (pending == 1 || pending == 0 && fields::candidate_of(f) == 0)
}

// Are the n fields at the front right, by rising identifier, and the one after them the last?
fn fields_ok(f: &[u8], r: usize, n: usize) -> bool
    requires { (r ≤ 8) × (n * field_size r + field_head ≤ length f.now) }
    ensures { result ≡ fields_right r 0 n f.now }
{
    let w = fields::HEAD + fields::member_length(r);
    let (members, last) = f.split_at(n * w);
    let mut lo = 0;
    for part in members.chunks_exact(w) {
        if !field_ok(part, r, lo) {
            return false;
        }
        lo = fields::id_of(part) as usize + 1;
    }
    fields::head_is(last, fields::LAST, 0)
}

// Are the bytes the writing of a well-formed table?
pub fn is_image(bs: &[u8]) -> bool
    ensures { result ≡ is_image bs.now }
{
    if bs.len() < fields::MEMBERS {
        return false;
    }
    let r = fields::image_r(bs);
    if r < 1 {
        return false;
    }
    if 8 < r {
        return false;
    }
    let n = fields::image_count(bs);
    if 256 < n {
        return false;
    }
    if fields::image_steps(bs) != 0 {
        return false;
    }
    let size = fields::image_size(r, n);
    if bs.len() == size {
        if fields::head_is(bs, fields::FIRST, fields::HEADER) {
            return fields_ok(&bs[fields::MEMBERS..], r, n);
        }
    }
    false
}
