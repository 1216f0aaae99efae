// Definitions and laws on lists: they stand in specs/. The code keeps a pass with a count inside its array.

#![tactic(auto)]

ghost use Rattle.std.specs.Prelude.{◌≡◌, ◌*◌, eqb};
ghost use Rattle.lists.specs.Changed.{FirstChanged};

// Whether rows of `frames` numbers fill `len` places. The product always fits at twice the width.
pub fn fills(frames: usize, rows: usize, len: usize) -> bool
    ensures { result ≡ eqb (frames * rows) len }
{
    frames as u128 * rows as u128 == len as u128
}

// The first n elements, each changed where it stands.
pub fn change_first<A: Copy, F: Fn(A) -> A>(items: &mut [A], n: usize, change: F)
    requires { F.IsAlwaysCallable change }
    ensures { FirstChanged (F.post change) n items.old items.new }
{
    let end = n.min(items.len());
    for item in &mut items[..end] {
        *item = change(*item);
    }
}
