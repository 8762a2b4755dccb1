ghost use Rattle.std.specs.Prelude.{◌≡◌, ℕ, List};
ghost use Rattle.sheet.specs.Refusals.{number_of};

// What a call refuses with: most refusals have a number in the table of refusals.
pub trait RefusalNumber: Sized {
    // The refusal's number in the table, then its values; nothing for what has no number there.
    ghost values: { Self → List ℕ };

    // The refusal's number; none for what the table does not number.
    fn number(self) -> Option<u8>
        ensures { result ≡ number_of (values self) };
}
