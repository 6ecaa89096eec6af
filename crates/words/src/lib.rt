// The words of one record, and gaps among records. For the crates above; a caller of the library uses none of this.
#![tactic(auto)]

ghost use Rattle.std.specs.Prelude.{◌≡◌, ◌++◌, ◌+◌, ◌*◌, ◌≤◌, length, take, drop, replicate};
ghost use Rattle.model.specs.Table.{header_size, record_size, member_of, record_of};
ghost use Rattle.member.specs.View.{view};

use member::Member;

// The words of the header, by their places: r, member count, and a step count that is 0 always.
pub const R: usize = 0;

pub const COUNT: usize = 1;

pub const STEPS: usize = 2;

// How many they are.
pub const HEADER: usize = 3;

// The words of a record, by their places: identifier, predecessor, pending, candidate, and from LIST on its list; the step count stands after the list.
pub const ID: usize = 0;

pub const PREDECESSOR: usize = 1;

pub const PENDING: usize = 2;

pub const CANDIDATE: usize = 3;

pub const LIST: usize = 4;

// The words of the longest table: 256 records with lists of 8.
pub const LONGEST: usize = HEADER + 256 * (LIST + 8 + 1);

// The words of one record.
pub fn record_size(r: usize) -> usize
    requires { r ≤ 255 }
    ensures { result ≡ record_size r }
{
    LIST + r + 1
}

// The records of a table: what stands after its header.
pub fn records_of(t: &[u32]) -> &[u32]
    requires { header_size ≤ length t.now }
    ensures { result.now ≡ drop header_size t.now }
{
    &t[HEADER..]
}

// Where the record of index k starts in a table.
pub fn offset(r: usize, k: usize) -> usize
    requires { (r ≤ 8) × (k ≤ 256) }
    ensures { (result ≡ header_size + k * record_size r) × (result ≤ header_size + 256 * record_size 8) }
{
    HEADER + k * record_size(r)
}

// One member's record, read from the front of a part. Where eight entries stand there all are read at once: those after the first r never matter.
pub fn read_member(part: &[u32], r: usize) -> Member
    requires { (r ≤ 8) × (record_size r ≤ length part.now) }
    ensures { view r result ≡ member_of r part.now }
{
    let successors = if LIST + 8 <= part.len() {
        let mut l = [0; 8];
        l.copy_from_slice(&part[LIST..LIST + 8]);
        l
    } else {
        let mut l = [0; 8];
        l[..r].copy_from_slice(&part[LIST..LIST + r]);
        l
    };
    Member {
        id: part[ID],
        predecessor: part[PREDECESSOR],
        pending: part[PENDING],
        candidate: part[CANDIDATE],
        successors,
        steps: part[LIST + r],
    }
}

// One member's record, written to the front of a part, eight entries at once where it has so many; what stands after it stays.
pub fn write_member(part: &mut [u32], m: Member, r: usize)
    requires { (r ≤ 8) × (record_size r ≤ length part.old) }
    ensures { part.new ≡ record_of (view r m) ++ drop (record_size r) part.old }
{
    part[ID] = m.id;
    part[PREDECESSOR] = m.predecessor;
    part[PENDING] = m.pending;
    part[CANDIDATE] = m.candidate;
    if r == 8 {
        part[LIST..LIST + 8].copy_from_slice(&m.successors);
    } else {
        part[LIST..LIST + r].copy_from_slice(&m.successors[..r]);
    }
    part[LIST + r] = m.steps;
}

// A gap of so many words is opened at the front: the used words move up, and the gap keeps its old words.
pub fn open_gap(tail: &mut [u32], used: usize, gap: usize)
    requires { used + gap ≤ length tail.old }
    ensures { tail.new ≡ take gap tail.old ++ (take used tail.old ++ drop (used + gap) tail.old) }
{
    tail.copy_within(..used, gap);
}

// The words at the front are closed over: the used words after them move down, and the words freed become 0.
pub fn close_gap(tail: &mut [u32], used: usize, gap: usize)
    requires { (gap ≤ used) × (used ≤ length tail.old) }
    ensures { tail.new ≡ drop gap (take used tail.old) ++ (replicate gap 0 ++ drop used tail.old) }
{
    tail.copy_within(gap..used, 0);
    tail[used - gap..used].fill(0);
}

// A gap is opened at the front of the tail, and the record written there.
pub fn put_in(tail: &mut [u32], used: usize, m: Member, r: usize)
    requires { (r ≤ 8) × (used + record_size r ≤ length tail.old) }
    ensures { tail.new ≡ record_of (view r m) ++ (take used tail.old ++ drop (used + record_size r) tail.old) }
{
    open_gap(tail, used, record_size(r));
    write_member(tail, m, r);
}
