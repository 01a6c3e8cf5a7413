// Arrays of bytes whose unused places hold zeros, and how many of them are used.
#![tactic(auto)]

ghost use Rattle.std.specs.Prelude.{◌≡◌, ◌++◌, ◌≤◌, length, drop, replicate};

// What stands from n on moves to the front of an array of zeros, so that n zeros stand behind it.
pub fn close_up(places: &[u8], n: usize, closed: &mut [u8])
    requires { (n ≤ length places.now) × (closed.old ≡ replicate (length places.now) 0) }
    ensures { closed.new ≡ drop n places.now ++ replicate n 0 }
{
    let kept = places.len() - n;
    closed[..kept].copy_from_slice(&places[n..]);
}
