// Entries of a record copied in blocks. For `new_member`; a caller of the library uses none of this.
#![tactic(auto)]

ghost use Rattle.std.specs.Prelude.{◌≡◌, ◌≤◌, length, take};
ghost use Rattle.model.specs.Lists.{overlay};

// Eight entries, copied to the front of a list. How many they are is known where it is compiled: so they move in blocks.
pub fn write_eight(list: &mut [u32], ys: &[u32])
    requires { (8 ≤ length ys.now) × (8 ≤ length list.old) }
    ensures { list.new ≡ overlay (take 8 ys.now) list.old }
{
    list[..8].copy_from_slice(&ys[..8]);
}
