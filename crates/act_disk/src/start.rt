ghost use Rattle.std.specs.Prelude.{◌≡◌, ℕ, List, [], refl};

/// What is assumed of a file as it is opened: its bytes, and the images that a crash might leave then.
///
/// These are ghost data. What is proved of a function for every `S: Start` holds whatever the file held.
pub trait Start: Drop {
    ghost held: { List ℕ };

    ghost left: { List ℕ → Type 0 };

    ghost held_is_left: { left held };
}

/// A file that is empty as it is opened, and that a crash leaves empty.
#[derive(Drop)]
pub struct Empty;

impl Start for Empty {
    ghost held = { [] };

    ghost left = { λ c. c ≡ [] };

    ghost held_is_left = { refl };
}
