ghost use Rattle.std.specs.Prelude.{◌≡◌, ◌^◌, ◌<◌, ◌≤◌, ℕ, List, Some};
ghost use Rattle.std.specs.Fmt.{decimal};
ghost use Rattle.kt_text.specs.Numbers.{HasNoLeadingZero, number_of};

/// The text of a number is read as that number.
pub fn written_law()
    ensures { (n most : ℕ) → n < 2 ^ 64 → n ≤ most → number_of most (decimal n) ≡ Some n }
{}

/// A number has one text without leading zeros, the one that is written.
pub fn one_text_law()
    ensures { (bytes : List ℕ) (n most : ℕ) → n < 2 ^ 64 → number_of most bytes ≡ Some n
        → HasNoLeadingZero bytes → bytes ≡ decimal n }
{}
