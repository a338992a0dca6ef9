// What a key can be asked, whatever its type.
ghost use Rattle.std.specs.Prelude.{◌≡◌, ℕ, ltb};
ghost use Rattle.rule.specs.Width.{distance as apart};

// "Keys compare as their ordered forms", and are measured as them. The order is `above` and not `Ord`,
// which would be four laws by hand for each type whose order is not that of its fields.
pub trait Key: Copy {
    // How many bits the ordered form has.
    ghost width: { ℕ };

    ghost form: { Self → ℕ };

    fn above(self, other: Self) -> bool
        ensures { result ≡ ltb (form other) (form self) };

    // The place of the highest bit, counted from 1, where the two differ; 0 if they are equal.
    fn distance(self, other: Self) -> u32
        ensures { result ≡ apart width (form self) (form other) };
}
