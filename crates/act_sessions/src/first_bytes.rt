ghost use Rattle.std.specs.Prelude.{◌≡◌, ◌≤◌, drop, vec_len};

/// Takes the first `n` bytes off. If these are all, none is moved.
pub fn take_first_off(bytes: &mut Vec<u8>, n: usize)
    requires { n ≤ vec_len bytes.old }
    ensures { bytes.new.items ≡ drop n bytes.old.items }
{
    if n == bytes.len() {
        bytes.clear();
    } else {
        bytes.drain(..n);
    }
}
