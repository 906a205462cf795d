//! Lists that have room for what is put after.

ghost use Rattle.std.specs.Prelude.{◌≡◌, ◌+◌, ◌≤◌, ◌++◌, length, vec_len, vec_capacity};

/// Puts these items after the others, for which there is room. It takes no memory.
pub fn push_all_reserved<T: Copy>(to: &mut Vec<T>, items: &[T])
    requires { vec_len to.old + length items.now ≤ vec_capacity to.old }
    ensures items { to.new.items ≡ to.old.items ++ items.now }
    ensures len { vec_len to.new ≡ vec_len to.old + length items.now }
    ensures capacity { vec_capacity to.new ≡ vec_capacity to.old }
{
    for item in items {
        to.push_reserved(*item);
    }
}
