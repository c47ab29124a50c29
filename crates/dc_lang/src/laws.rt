//! Laws of the lines: functions with no body whose contracts are theorems.

ghost use Rattle.std.specs.Prelude.{◌≡◌, ◌↔◌, ℕ, List, Some};
ghost use Rattle.dc_lang.specs.Commands.{Meaning, Means};
ghost use Rattle.dc_lang.specs.Reading.{meaning_in};
ghost use Rattle.dc_lang.specs.Responses.{Response, Tells};

/// A line has one meaning, and `read_line`'s definition computes it. The line of a reply tells one
/// response.
pub fn each_line_has_one_meaning()
    ensures one { (line : List ℕ) (a b : Meaning) → Means line a → Means line b → a ≡ b }
    ensures read { (line : List ℕ) (meaning : Meaning) → (meaning_in line ≡ Some meaning ↔ Means line meaning) }
    ensures reply { (line : List ℕ) (a b : Response) → Tells line a → Tells line b → a ≡ b }
{}
